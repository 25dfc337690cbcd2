//! How many tables, and how many rows a table may have.
ghost use Rattle.std.specs.Prelude.{◌≡◌};
ghost use Rattle.iq_base.specs.Limits.{text_length, limit_for, longest, rows_within, row_limit};

use crate::schemas::Column;
use crate::values::Kind;

/// How many tables there may be.
pub const MOST_TABLES: usize = 64;

/// How many rows a table of these columns may have, with a Low Fast index or without one: 2,097,152 where it has neither a text
/// column nor such an index, else 262,144, and fewer where a text may have more than 105 bytes.
pub fn row_limit(columns: &[Column], low_fast: bool) -> u32
    ensures { result ≡ row_limit columns.now low_fast }
{
    rows_within(longest(columns), low_fast)
}

/// The same by the greatest length of a text, 0 where there is none.
pub fn rows_within(longest: u8, low_fast: bool) -> u32
    ensures { result ≡ rows_within longest low_fast }
{
    if longest == 0 && !low_fast {
        2_097_152
    } else {
        limit_for(longest)
    }
}

fn limit_for(longest: u8) -> u32
    ensures { result ≡ limit_for longest }
{
    match longest {
        0..=105 => 262_144,
        106..=136 => 254_016,
        137..=194 => 190_512,
        _ => 127_008,
    }
}

fn longest(columns: &[Column]) -> u8
    ensures { result ≡ longest columns.now }
{
    let mut most = 0;
    for column in columns {
        most = most.max(text_length(column.kind));
    }
    most
}

/// How long a text of a column may be, and 0 for numbers.
pub fn text_length(kind: Kind) -> u8
    ensures { result ≡ text_length kind }
{
    match kind {
        Kind::Int | Kind::Big => 0,
        Kind::Varchar(length) => length,
    }
}
