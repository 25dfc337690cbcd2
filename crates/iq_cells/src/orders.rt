//! The order of cells by their values.
ghost use Rattle.std.specs.Prelude.{◌≡◌, ◌↔◌, ◌+◌, ◌≤◌, IsTrue, length, take, drop, slice_index};
ghost use Rattle.std.specs.Int.{w32, w64, cast_signed, from_le_bytes};
ghost use Rattle.iq_base.specs.Cells.{IsCell};
ghost use Rattle.iq_cells.specs.Packed.{value_of_cell, filled_value};
ghost use Rattle.iq_cells.specs.Filled.{IsFilled};
ghost use Rattle.iq_cells.specs.Orders.{value_order};

use byteorder::{ByteOrder, LittleEndian};
use iq_base::{Kind, Value};
use std::cmp::Ordering;

/// How two values stand to each other: NULL before numbers, and those before texts; numbers by value, texts by their bytes.
/// It is the order of `Value` itself.
pub fn value_order(a: &Value, b: &Value) -> Ordering
    ensures { result ≡ value_order a.now b.now }
{
    a.cmp(b)
}

/// How two cells stand to each other, by their values.
#[tactic(auto, unfolding(crate::specs::Packed::value_of_cell))]
pub(crate) fn cell_order(left: Kind, a: &[u8], right: Kind, b: &[u8]) -> Ordering
    requires a { IsCell left (value_of_cell left a.now) a.now }
    requires b { IsCell right (value_of_cell right b.now) b.now }
    ensures { result ≡ value_order (value_of_cell left a.now) (value_of_cell right b.now) }
{
    if a[0] == 0 {
        if b[0] == 0 {
            Ordering::Equal
        } else {
            Ordering::Less
        }
    } else if b[0] == 0 {
        Ordering::Greater
    } else {
        filled_order(left, a.split_at(1).1, right, b.split_at(1).1)
    }
}

/// How a cell stands to a value, by its own value.
#[tactic(auto, unfolding(crate::specs::Packed::value_of_cell))]
pub(crate) fn cell_to_value(kind: Kind, cell: &[u8], value: &Value) -> Ordering
    requires { IsCell kind (value_of_cell kind cell.now) cell.now }
    ensures { result ≡ value_order (value_of_cell kind cell.now) value.now }
{
    if cell[0] == 0 {
        null_to_value(value)
    } else {
        filled_to_value(kind, cell.split_at(1).1, value)
    }
}

/// Whether a cell is NULL's.
#[tactic(auto, unfolding(crate::specs::Packed::value_of_cell))]
pub(crate) fn is_null_cell(kind: Kind, bytes: &[u8]) -> bool
    requires { IsCell kind (value_of_cell kind bytes.now) bytes.now }
    ensures { IsTrue result ↔ (value_of_cell kind bytes.now ≡ Value.Null) }
{
    let _kind = kind;
    bytes[0] == 0
}

/// How two values that aren't NULL stand to each other, by the bytes of their cells behind the 1.
fn filled_order(left: Kind, a: &[u8], right: Kind, b: &[u8]) -> Ordering
    requires a { IsFilled left a.now }
    requires b { IsFilled right b.now }
    ensures { result ≡ value_order (filled_value left a.now) (filled_value right b.now) }
{
    match left {
        Kind::Int => number_to_filled(int_in(a) as i64, right, b),
        Kind::Big => number_to_filled(big_in(a), right, b),
        Kind::Varchar(_) => text_to_filled(text_in(a), right, b),
    }
}

fn number_to_filled(number: i64, kind: Kind, bytes: &[u8]) -> Ordering
    requires { IsFilled kind bytes.now }
    ensures { result ≡ value_order (Value.Int number) (filled_value kind bytes.now) }
{
    match kind {
        Kind::Int => number.cmp(&(int_in(bytes) as i64)),
        Kind::Big => number.cmp(&big_in(bytes)),
        Kind::Varchar(_) => Ordering::Less,
    }
}

fn text_to_filled(text: &[u8], kind: Kind, bytes: &[u8]) -> Ordering
    requires { IsFilled kind bytes.now }
    ensures { result ≡ value_order (Value.Text text.now) (filled_value kind bytes.now) }
{
    match kind {
        Kind::Int | Kind::Big => Ordering::Greater,
        Kind::Varchar(_) => text.cmp(text_in(bytes)),
    }
}

/// How a value that isn't NULL, by the bytes of its cell behind the 1, stands to another.
fn filled_to_value(kind: Kind, bytes: &[u8], value: &Value) -> Ordering
    requires { IsFilled kind bytes.now }
    ensures { result ≡ value_order (filled_value kind bytes.now) value.now }
{
    match kind {
        Kind::Int => number_to_value(int_in(bytes) as i64, value),
        Kind::Big => number_to_value(big_in(bytes), value),
        Kind::Varchar(_) => text_to_value(text_in(bytes), value),
    }
}

fn null_to_value(value: &Value) -> Ordering
    ensures { result ≡ value_order Value.Null value.now }
{
    match value {
        Value::Null => Ordering::Equal,
        Value::Int(_) | Value::Text(_) => Ordering::Less,
    }
}

fn number_to_value(number: i64, value: &Value) -> Ordering
    ensures { result ≡ value_order (Value.Int number) value.now }
{
    match value {
        Value::Null => Ordering::Greater,
        Value::Int(other) => number.cmp(other),
        Value::Text(_) => Ordering::Less,
    }
}

fn text_to_value(text: &[u8], value: &Value) -> Ordering
    ensures { result ≡ value_order (Value.Text text.now) value.now }
{
    match value {
        Value::Null | Value::Int(_) => Ordering::Greater,
        Value::Text(other) => text.cmp(other.as_str().as_bytes()),
    }
}

fn int_in(bytes: &[u8]) -> i32
    requires { length bytes.now ≡ 4 }
    ensures { result ≡ cast_signed w32 (from_le_bytes w32 bytes.now) }
{
    LittleEndian::read_i32(bytes)
}

fn big_in(bytes: &[u8]) -> i64
    requires { length bytes.now ≡ 8 }
    ensures { result ≡ cast_signed w64 (from_le_bytes w64 bytes.now) }
{
    LittleEndian::read_i64(bytes)
}

fn text_in(bytes: &[u8]) -> &[u8]
    requires { slice_index bytes.now 0 + 1 ≤ length bytes.now }
    ensures { result.now ≡ take (slice_index bytes.now 0) (drop 1 bytes.now) }
{
    let len = bytes[0] as usize;
    bytes.split_at(1).1.split_at(len).0
}
