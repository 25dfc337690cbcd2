//! The planes of new rows, made in memory.
ghost use Rattle.std.specs.Prelude.{◌≡◌, ◌≢◌, ◌==◌, ◌<◌, ◌≤◌, ◌+◌, ◌^◌, ℕ, None, false, length, map, slice_index_or, IfOk};
ghost use Rattle.std.specs.Int.{bit_at};
ghost use Rattle.std.specs.List.{All};
ghost use Rattle.iq_bitmap.specs.Bits.{bit_of};
ghost use Rattle.iq_cells.specs.Packed.{value_at};
ghost use Rattle.iq_hng.specs.Keys.{IsSlice, bits_of, key_of, kind_of, plane_bit};
ghost use Rattle.iq_hng.specs.Slices.{planes_of};

use crate::hng::Width;
use crate::keys::{key_bit, key_of};
use iq_base::{NoMemory, PAGE_BYTES, Page, Value};
use iq_bitmap::{Bitmap, CHUNK_ROWS};
use iq_cells::Cells;
use std::alloc::Global;

/// The planes of numbers: which rows have one, and then each bit of these, the least first. Beside them it takes 16 bytes a row.
pub(crate) fn planes(alloc: Global, width: Width, numbers: &Cells) -> Result<Vec<Bitmap>, NoMemory>
    requires kind { numbers.now.kind ≡ kind_of width }
    requires few { length numbers.now.values < 2 ^ 32 }
    ensures planes { IfOk result (λ made. made.items ≡ planes_of (bits_of width) numbers.now.values) }
    ensures slices { IfOk result (λ _. All (IsSlice (bits_of width)) numbers.now.values) }
{
    let keys = keys(alloc, width, numbers)?;
    let bits = width.bits();
    let mut made = Vec::with_capacity(alloc, bits as usize + 1)?;
    made.push(plane(alloc, 0, keys.as_slice())?)?;
    for j in 1..bits + 1 {
        made.push(plane(alloc, j, keys.as_slice())?)?;
    }
    Ok(made)
}

/// What stands for each number, nothing for NULL.
fn keys(alloc: Global, width: Width, numbers: &Cells) -> Result<Vec<Option<u64>>, NoMemory>
    requires kind { numbers.now.kind ≡ kind_of width }
    ensures keys { IfOk result (λ keys. keys.items ≡ map (key_of (bits_of width)) numbers.now.values) }
    ensures slices { IfOk result (λ _. All (IsSlice (bits_of width)) numbers.now.values) }
{
    let count = numbers.len();
    let mut keys = Vec::with_capacity(alloc, count)?;
    for i in 0..count {
        let number = number_at(width, numbers, i);
        keys.push(key_of(width.bits(), &number))?;
    }
    Ok(keys)
}

/// Plane `j` of keys, made chunk by chunk.
fn plane(alloc: Global, j: u32, keys: &[Option<u64>]) -> Result<Bitmap, NoMemory>
    requires within { j ≤ 64 }
    requires few { length keys.now < 2 ^ 32 }
    ensures plane { IfOk result (λ ones. ones ≡ map (plane_bit j) keys.now) }
{
    let count = keys.len() as u32;
    let mut ones = Bitmap::empty(alloc, count)?;
    for chunk in 0..count.div_ceil(CHUNK_ROWS) {
        let page = page_of(j, keys, chunk as usize * CHUNK_ROWS as usize);
        ones.load_page(chunk, &page);
    }
    Ok(ones)
}

/// The bits in plane `j` of the keys of a chunk that begins with a row, as a page of them.
fn page_of(j: u32, keys: &[Option<u64>], from: usize) -> Page
    requires within { j ≤ 64 }
    requires near { from < 2 ^ 40 }
    ensures { (i : ℕ) → i < CHUNK_ROWS → bit_of 8 result i ≡ plane_bit j (slice_index_or keys.now (from + i) None) }
{
    let mut page = [0; PAGE_BYTES];
    for at in 0..PAGE_BYTES {
        page[at] = byte_of(j, keys, from + at * 8);
    }
    page
}

/// The bits in plane `j` of eight keys from a row on, the least first.
fn byte_of(j: u32, keys: &[Option<u64>], from: usize) -> u8
    requires within { j ≤ 64 }
    requires near { from < 2 ^ 41 }
    ensures { (i : ℕ) → i < 8 → (bit_at result i == 1) ≡ plane_bit j (slice_index_or keys.now (from + i) None) }
{
    let mut byte = 0;
    for r in 0..8 {
        byte = with_bit(byte, r, row_bit(j, keys, from + r as usize));
    }
    byte
}

/// The byte with one of its bits set or left clear.
fn with_bit(byte: u8, at: u32, on: bool) -> u8
    requires within { at < 8 }
    requires clear { (bit_at byte at == 1) ≡ false }
    ensures here { (bit_at result at == 1) ≡ on }
    ensures others { (i : ℕ) → i ≢ at → bit_at result i ≡ bit_at byte i }
{
    if on { byte | (1 << at) } else { byte }
}

/// The bit of a row's key in plane `j`; past the last row there is none.
fn row_bit(j: u32, keys: &[Option<u64>], row: usize) -> bool
    requires within { j ≤ 64 }
    ensures { result ≡ plane_bit j (slice_index_or keys.now row None) }
{
    match keys.get(row) {
        Some(key) => plane_bit(j, *key),
        None => false,
    }
}

/// A number, or NULL. That the column's kind holds it is what its cell tells.
fn number_at(width: Width, numbers: &Cells, i: usize) -> Value
    requires within { i < length numbers.now.values }
    requires kind { numbers.now.kind ≡ kind_of width }
    ensures is { result ≡ value_at i numbers.now.values }
    ensures slice { IsSlice (bits_of width) result }
{
    let _cell = numbers.cell(i);
    numbers.get(i)
}

/// The bit of a key in plane `j`.
fn plane_bit(j: u32, key: Option<u64>) -> bool
    requires within { j ≤ 64 }
    ensures { result ≡ plane_bit j key }
{
    match j.checked_sub(1) {
        None => key.is_some(),
        Some(bit) => key_bit(bit, key),
    }
}
