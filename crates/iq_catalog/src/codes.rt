//! The numbers by which a descriptor's text names what isn't a number.
ghost use Rattle.std.specs.Prelude.{◌≡◌, ◌≤◌, ◌+◌, length};
ghost use Rattle.iq_block_store.specs.Frames.{number_at, bytes_of};
ghost use Rattle.iq_catalog.specs.Texts.{kind_code, null_code, index_code, second_code};
ghost use Rattle.iq_catalog.specs.Reading.{kind_of, index_kind_of, second_of};

use byteorder::{ByteOrder, LittleEndian};
use iq_base::{IndexKind, Kind};

/// The longest name, in bytes.
pub const MOST_NAME: usize = 30;

/// What stands in place of a second column where there is none.
const NO_COLUMN: u8 = 255;

/// The number of a kind of values.
pub fn kind_code(kind: Kind) -> u8
    ensures { result ≡ kind_code kind }
{
    match kind {
        Kind::Int => 1,
        Kind::Big => 2,
        Kind::Varchar(_) => 3,
    }
}

/// The kind of values of a number, where the number is one; its texts have at most so many bytes.
pub fn kind_of(code: u8, length: u8) -> Kind
    ensures { result ≡ kind_of code length }
{
    if code == 1 {
        Kind::Int
    } else if code == 2 {
        Kind::Big
    } else {
        Kind::Varchar(length)
    }
}

/// 1 where NULL may stand.
pub fn null_code(null: bool) -> u8
    ensures { result ≡ null_code null }
{
    if null { 1 } else { 0 }
}

/// The number of a kind of indexes.
pub fn index_code(kind: IndexKind) -> u8
    ensures { result ≡ index_code kind }
{
    match kind {
        IndexKind::Lf => 1,
        IndexKind::Hg => 2,
        IndexKind::Hng => 3,
        IndexKind::Cmp => 4,
    }
}

/// The kind of indexes of a number, where the number is one.
pub fn index_kind_of(code: u8) -> IndexKind
    ensures { result ≡ index_kind_of code }
{
    if code == 1 {
        IndexKind::Lf
    } else if code == 2 {
        IndexKind::Hg
    } else if code == 3 {
        IndexKind::Hng
    } else {
        IndexKind::Cmp
    }
}

/// The number of a second column.
pub fn second_code(second: Option<u8>) -> u8
    ensures { result ≡ second_code second }
{
    match second {
        Some(column) => column,
        None => NO_COLUMN,
    }
}

/// The second column of a number.
pub fn second_of(code: u8) -> Option<u8>
    ensures { result ≡ second_of code }
{
    if code == NO_COLUMN { None } else { Some(code) }
}

/// The 4 bytes of a number.
#[tactic(auto, unfolding(iq_block_store::specs::Frames::bytes_of))]
pub fn bytes_of(n: u32) -> [u8; 4]
    ensures { result ≡ bytes_of n }
{
    let mut bytes = [0; 4];
    LittleEndian::write_u32(&mut bytes, n);
    bytes
}

/// The number in the 4 bytes from a place on.
#[tactic(auto, unfolding(iq_block_store::specs::Frames::number_at))]
pub fn number_at(bytes: &[u8], i: usize) -> u32
    requires { i + 4 ≤ length bytes.now }
    ensures { result ≡ number_at bytes.now i }
{
    LittleEndian::read_u32(bytes.split_at(i).1)
}
