//! How many rows a table may have.
ghost use Rattle.std.specs.Prelude.{◌≡◌, ◌<◌, ◌≤◌, ◌*◌, ◌^◌, ℕ, length};
ghost use Rattle.iq_base.specs.Limits.{longest, rows_within};
ghost use Rattle.iq_table.specs.Places.{part_at};
ghost use Rattle.iq_table.specs.Limits.{as_columns, is_low_fast, has_low_fast, limit_of, FindsRoom};

use iq_base::{ColumnPart, Descriptor, IndexKind, IndexPart, rows_within, text_length};

/// How many rows a table may have, removed ones counted, by its columns and by whether it has a Low Fast index. So many rows find
/// room: no object of a column gets more pages than it may have.
pub fn limit_of(parts: &Descriptor) -> u32
    ensures value { result ≡ limit_of parts.now }
    ensures room { (rows c : ℕ) → rows ≤ result → c < length parts.now.columns → FindsRoom (part_at c parts.now.columns).kind rows }
    ensures most { result ≤ 2097152 }
{
    limit_within(
        longest_text(parts.columns.as_slice()),
        has_low_fast(parts.indexes.as_slice()),
    )
}

/// The same by the greatest length of a text.
fn limit_within(longest: u8, low_fast: bool) -> u32
    ensures value { result ≡ rows_within longest low_fast }
    ensures short { longest ≤ 255 }
    ensures most { result ≤ 2097152 }
{
    rows_within(longest, low_fast)
}

/// Whether a Low Fast index is among indexes.
pub fn has_low_fast(indexes: &[IndexPart]) -> bool
    ensures { result ≡ has_low_fast indexes.now }
{
    for index in indexes {
        if is_low_fast(index.spec.kind) {
            return true;
        }
    }
    false
}

fn is_low_fast(kind: IndexKind) -> bool
    ensures { result ≡ is_low_fast kind }
{
    match kind {
        IndexKind::Lf => true,
        IndexKind::Hg | IndexKind::Hng | IndexKind::Cmp => false,
    }
}

/// The greatest length of a text of some columns.
fn longest_text(parts: &[ColumnPart]) -> u8
    ensures { result ≡ longest (as_columns parts.now) }
{
    let mut most = 0;
    for part in parts {
        most = most.max(text_length(part.kind));
    }
    most
}
