//! The bytes of one value.
//!
//! | byte | NULL | 0 to 252 | another number | text |
//! |---|---|---|---|---|
//! | 0 | 0 | the number and 3 | 1 | 2 |
//! | 1 | | | the number, lowest byte first, in two's complement | the length in bytes |
//! | 2 on | | | | the bytes |
ghost use Rattle.std.specs.Prelude.{◌≡◌, ◌<◌, ◌≤◌, ◌++◌, ℕ, pos, length, slice_index, OnOk, OnErr};
ghost use Rattle.iq_base.specs.declared.values.Value.TheVariants as Value;
ghost use Rattle.iq_literals.specs.Packed.{value_bytes, number_bytes, Fits};
ghost use Rattle.iq_literals.specs.Reading.{size_in, text_in, value_in, CanRead};

use byteorder::{ByteOrder, LittleEndian};
use iq_base::{Kind, NoMemory, Text, Value, cell_put};

/// The numbers that lie in their mark are those from 0 to this one.
const MOST_SMALL: i64 = 252;

/// Puts the bytes of a value at the end. The bytes are as before where memory is wanting.
pub(crate) fn put_value(bytes: &mut Vec<u8>, value: &Value) -> Result<(), NoMemory>
    ensures ok { OnOk result (bytes.new.items ≡ bytes.old.items ++ value_bytes value.now) }
    ensures err { OnErr result (bytes.new.items ≡ bytes.old.items) }
    ensures fits { Fits value.now }
{
    match value {
        Value::Null => put(bytes, &[0]),
        Value::Int(number) => put_number(bytes, *number),
        Value::Text(text) => put_text(bytes, text),
    }
}

fn put(bytes: &mut Vec<u8>, more: &[u8]) -> Result<(), NoMemory>
    ensures ok { OnOk result (bytes.new.items ≡ bytes.old.items ++ more.now) }
    ensures err { OnErr result (bytes.new.items ≡ bytes.old.items) }
{
    bytes.extend_from_slice(more)?;
    Ok(())
}

/// Puts the bytes of a number at the end. The bytes are as before where memory is wanting.
pub(crate) fn put_number(bytes: &mut Vec<u8>, number: i64) -> Result<(), NoMemory>
    ensures ok { OnOk result (bytes.new.items ≡ bytes.old.items ++ number_bytes number) }
    ensures err { OnErr result (bytes.new.items ≡ bytes.old.items) }
    ensures fits { Fits (Value.Int number) }
{
    if 0 <= number && number <= MOST_SMALL {
        return put(bytes, &[number as u8 + 3]);
    }
    let mut cell = [0; 9];
    cell_put(Kind::Big, &Value::Int(number), &mut cell);
    put(bytes, &cell)
}

fn put_text(bytes: &mut Vec<u8>, text: &Text) -> Result<(), NoMemory>
    ensures ok { OnOk result (bytes.new.items ≡ bytes.old.items ++ value_bytes (Value.Text text.now)) }
    ensures err { OnErr result (bytes.new.items ≡ bytes.old.items) }
    ensures fits { Fits (Value.Text text.now) }
{
    let text = text.as_str();
    bytes.reserve(text.len() + 2)?;
    bytes.extend_from_slice(&[2, text.len() as u8])?;
    bytes.extend_from_slice(text.as_bytes())?;
    Ok(())
}

/// Puts the bytes of a row at the end, with how many they are before them. The bytes are as before where memory is wanting.
pub(crate) fn put_row(bytes: &mut Vec<u8>, row: &[u8]) -> Result<(), NoMemory>
    ensures ok { OnOk result (bytes.new.items ≡ bytes.old.items ++ (number_bytes (pos (length row.now)) ++ row.now)) }
    ensures err { OnErr result (bytes.new.items ≡ bytes.old.items) }
    ensures fits { Fits (Value.Int (pos (length row.now))) }
{
    let before = bytes.len();
    put_number(bytes, row.len() as i64)?;
    if bytes.extend_from_slice(row).is_err() {
        bytes.truncate(before);
        return Err(NoMemory);
    }
    Ok(())
}

/// How many bytes the first value has.
pub(crate) fn size_in(bytes: &[u8]) -> usize
    requires { CanRead bytes.now }
    ensures { result ≡ size_in bytes.now }
{
    match bytes[0] {
        1 => 9,
        2 => bytes[1] as usize + 2,
        _ => 1,
    }
}

/// The first value.
pub(crate) fn value_in(bytes: &[u8]) -> Value
    requires { CanRead bytes.now }
    ensures { result ≡ value_in bytes.now }
{
    match bytes[0] {
        0 => Value::Null,
        1 => Value::Int(LittleEndian::read_i64(bytes.split_at(1).1)),
        2 => Value::Text(text_in(bytes)),
        mark => Value::Int(i64::from(mark - 3)),
    }
}

fn text_in(bytes: &[u8]) -> Text
    requires can { CanRead bytes.now }
    requires mark { slice_index bytes.now 0 ≡ 2 }
    ensures { result ≡ text_in bytes.now }
{
    let size = bytes[1] as usize;
    match str::from_utf8(bytes.split_at(2).1.split_at(size).0) {
        Ok(text) => match Text::of(text) {
            Some(text) => text,
            None => unreachable!(),
        },
        Err(_) => unreachable!(),
    }
}

/// The number that the first value is.
pub(crate) fn count_in(bytes: &[u8]) -> usize
    requires can { CanRead bytes.now }
    requires is { (n : ℕ) × (value_in bytes.now ≡ Value.Int (pos n)) }
    ensures { value_in bytes.now ≡ Value.Int (pos result) }
{
    match value_in(bytes) {
        Value::Int(number) => number as usize,
        Value::Null | Value::Text(_) => unreachable!(),
    }
}
