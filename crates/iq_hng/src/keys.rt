//! Numbers moved up, so that none is negative.
ghost use Rattle.std.specs.Prelude.{◌≡◌, ◌<◌, ◌≤◌, ◌^◌, ⊤, IfSome};
ghost use Rattle.iq_hng.specs.Keys.{IsWithin, IsSlice, lifted, key_of, bit_of, key_bit};

use iq_base::Value;

/// A number of so many bits, moved up by half of all these.
pub(crate) fn lifted(bits: u32, number: i64) -> u64
    requires some { 1 ≤ bits }
    requires most { bits ≤ 64 }
    requires within { IsWithin bits number }
    ensures value { result ≡ lifted bits number }
    ensures short { result < 2 ^ bits }
{
    (number as i128 + (1_i128 << (bits - 1))) as u64
}

/// What stands for a value, nothing for NULL.
pub(crate) fn key_of(bits: u32, value: &Value) -> Option<u64>
    requires some { 1 ≤ bits }
    requires most { bits ≤ 64 }
    requires slice { IsSlice bits value.now }
    ensures value { result ≡ key_of bits value.now }
{
    match value {
        Value::Null | Value::Text(_) => None,
        Value::Int(number) => Some(lifted(bits, *number)),
    }
}

/// Bit `j` of a number, the least first.
pub(crate) fn bit_of(j: u32, number: u64) -> bool
    requires { j < 64 }
    ensures { result ≡ bit_of j number }
{
    (number >> j) % 2 == 1
}

/// Bit `j` of a key, false of none.
pub(crate) fn key_bit(j: u32, key: Option<u64>) -> bool
    requires { j < 64 }
    ensures { result ≡ key_bit j key }
{
    match key {
        None => false,
        Some(number) => bit_of(j, number),
    }
}
