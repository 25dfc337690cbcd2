//! Cells: the bytes in which a page holds a value of a column.
//!
//! | byte | NULL | number | text |
//! |---|---|---|---|
//! | 0 | 0 | 1 | 1 |
//! | 1 | 0 | the number, lowest byte first, in two's complement: 4 bytes for INT, 8 for BIGINT | the length in bytes |
//! | 2 on | 0 | | the bytes, and zeros to the end |
ghost use Rattle.std.specs.Prelude.{◌≡◌, ◌≢◌, ◌<◌, ◌≤◌, ◌↔◌, ℕ, List, ◌+◌, ◌-◌, ◌∷◌, length, replicate, IsTrue, IfOk, OnErr, IsUtf8, FitsSigned};
ghost use Rattle.std.specs.Int.{w32, w64, cast_unsigned, to_le_bytes};
ghost use Rattle.iq_base.specs.Cells.{width, IsOf, IsText, cell, padded, IsCell};
ghost use Rattle.iq_base.specs.declared.values.Value.{Value};

use crate::texts::Text;
use crate::values::{Kind, Value};
use byteorder::{ByteOrder, LittleEndian};

/// The bytes are the cell of no value that a column of the kind may hold.
#[derive(Clone, Copy, Debug, PartialEq, Eq)]
pub struct BadCell;

/// How many bytes a cell of a column has: 5 for INT, 9 for BIGINT, and two more than the greatest length for VARCHAR.
pub fn width(kind: Kind) -> usize
    ensures value { result ≡ width kind }
    ensures small { (2 ≤ result) × (result ≤ 257) }
{
    match kind {
        Kind::Int => 5,
        Kind::Big => 9,
        Kind::Varchar(longest) => longest as usize + 2,
    }
}

/// Whether a column of the kind may hold the value: NULL, a number of 32 or of 64 bits with a sign, or a text that isn't
/// too long.
pub fn is_of(kind: Kind, value: &Value) -> bool
    ensures { IsTrue result ↔ IsOf kind value.now }
{
    match (kind, value) {
        (_, Value::Null) => true,
        (Kind::Int, Value::Int(number)) => fits_int(*number),
        (Kind::Big, Value::Int(number)) => fits_big(*number),
        (Kind::Varchar(longest), Value::Text(text)) => text.as_str().len() <= longest as usize,
        _ => false,
    }
}

// Each number does: reading it is what tells its range.
fn fits_big(number: i64) -> bool
    ensures { IsTrue result ↔ FitsSigned w64 number }
{
    let _number = number;
    true
}

fn fits_int(number: i64) -> bool
    ensures { IsTrue result ↔ FitsSigned w32 number }
{
    i64::from(i32::MIN) <= number && number <= i64::from(i32::MAX)
}

/// Writes the cell of a value. The slice has the width of the kind.
pub fn cell_put(kind: Kind, value: &Value, into: &mut [u8])
    requires len { length into.old ≡ width kind }
    requires of_kind { IsOf kind value.now }
    ensures value { into.new ≡ cell kind value.now }
    ensures utf8 { IsText value.now }
{
    match value {
        Value::Null => into.fill(0),
        Value::Int(number) => number_put(kind, *number, into),
        Value::Text(text) => text_put(text.as_str(), into),
    }
}

/// Reads the value of a cell. The slice has the width of the kind.
pub fn cell_get(kind: Kind, from: &[u8]) -> Result<Value, BadCell>
    requires { length from.now ≡ width kind }
    ensures ok { IfOk result (λ value. IsCell kind value from.now) }
    ensures only { IfOk result (λ value. (other : Value) → IsCell kind other from.now → other ≡ value) }
    ensures err { OnErr result ((value : Value) → ¬ (IsCell kind value from.now)) }
{
    match from[0] {
        0 if is_zero(from) => Ok(Value::Null),
        1 => match kind {
            Kind::Int => Ok(Value::Int(int_get(&from[1..]))),
            Kind::Big => Ok(Value::Int(big_get(&from[1..]))),
            Kind::Varchar(_) => Ok(Value::Text(text_get(&from[1..])?)),
        },
        _ => Err(BadCell),
    }
}

fn is_zero(bytes: &[u8]) -> bool
    ensures { IsTrue result ↔ (bytes.now ≡ replicate (length bytes.now) 0) }
{
    bytes.iter().all(|byte| *byte == 0)
}

fn number_put(kind: Kind, number: i64, into: &mut [u8])
    requires len { length into.old ≡ width kind }
    requires of_kind { IsOf kind (Value.Int number) }
    ensures { into.new ≡ cell kind (Value.Int number) }
{
    let (head, rest) = into.split_at_mut(1);
    head[0] = 1;
    match kind {
        Kind::Int => LittleEndian::write_i32(rest, number as i32),
        Kind::Big => LittleEndian::write_i64(rest, number),
        Kind::Varchar(_) => unreachable!(),
    }
}

fn int_get(from: &[u8]) -> i64
    requires { length from.now ≡ 4 }
    ensures fits { FitsSigned w32 result }
    ensures bytes { to_le_bytes w32 (cast_unsigned w32 result) ≡ from.now }
{
    i64::from(LittleEndian::read_i32(from))
}

fn big_get(from: &[u8]) -> i64
    requires { length from.now ≡ 8 }
    ensures fits { FitsSigned w64 result }
    ensures bytes { to_le_bytes w64 (cast_unsigned w64 result) ≡ from.now }
{
    LittleEndian::read_i64(from)
}

fn text_put(text: &str, into: &mut [u8])
    requires short { length text.now < 256 }
    requires fits { length text.now + 2 ≤ length into.old }
    ensures { into.new ≡ 1 ∷ padded (length into.old - 2) text.now }
{
    let (head, rest) = into.split_at_mut(2);
    head.copy_from_slice(&[1, text.len() as u8]);
    let (front, back) = rest.split_at_mut(text.len());
    front.copy_from_slice(text.as_bytes());
    back.fill(0);
}

fn text_get(from: &[u8]) -> Result<Text, BadCell>
    requires { 0 < length from.now }
    ensures ok { IfOk result (λ text. IsUtf8 text × (padded (length from.now - 1) text ≡ from.now)) }
    ensures err { OnErr result ((text : List ℕ) → IsUtf8 text → length text + 1 ≤ length from.now → padded (length from.now - 1) text ≢ from.now) }
{
    let len = from[0] as usize;
    let (_, rest) = from.split_at(1);
    if len > rest.len() {
        return Err(BadCell);
    }
    let (front, back) = rest.split_at(len);
    if !is_zero(back) {
        return Err(BadCell);
    }
    let text = str::from_utf8(front).map_err(|_| BadCell)?;
    Text::of(text).ok_or(BadCell)
}
