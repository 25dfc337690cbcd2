//! The bitmap beside a plain program over lists of bits.
use crate::checks::same;
use iq_base::{NoMemory, Page};
use iq_bitmap::{Bitmap, CHUNK_ROWS};
use std::alloc::Global;

/// Lengths round a byte, a word, a page and a whole table.
const LENGTHS: [u32; 11] = [0, 1, 7, 8, 63, 64, 65, 8063, 8064, 8065, 262_144];

/// Bits in which no word and no page is like another.
fn scattered(alloc: Global, len: u32, salt: u32) -> Result<Vec<bool>, NoMemory> {
    let mut bits = Vec::new(alloc);
    for row in 0..len {
        let mixed = row.wrapping_mul(2_654_435_761).wrapping_add(salt);
        bits.push(mixed >> 13 & 3 == 0)?;
    }
    Ok(bits)
}

fn is_on(bits: &[bool], row: u32) -> bool {
    bits.get(row as usize).copied().unwrap_or(false)
}

fn bitmap_of(alloc: Global, len: u32, bits: &[bool]) -> Result<Bitmap, NoMemory> {
    let mut bitmap = Bitmap::empty(alloc, len)?;
    for row in 0..len {
        if row < bitmap.len() {
            bitmap.set(row, is_on(bits, row));
        }
    }
    Ok(bitmap)
}

/// Whether a row and the next one that is set are these.
fn has_row(bitmap: &Bitmap, row: u32, on: bool, next: Option<u32>) -> bool {
    row < bitmap.len() && bitmap.get(row) == on && bitmap.next(row) == next
}

/// Whether each row, each next row, the count and the walk are those of the list.
fn is_same(bitmap: &Bitmap, bits: &[bool]) -> bool {
    let mut count = 0u32;
    let mut next = None;
    for row in (0..bitmap.len()).rev() {
        let on = is_on(bits, row);
        if on {
            count = count.wrapping_add(1);
            next = Some(row);
        }
        if !has_row(bitmap, row, on, next) {
            return false;
        }
    }
    has_counts(bitmap, bits.len(), count) && walks(bitmap, bits, count)
}

fn has_counts(bitmap: &Bitmap, len: usize, count: u32) -> bool {
    bitmap.len() as usize == len && bitmap.count() == count && bitmap.has_none() == (count == 0)
}

/// Whether the walk gives as many rows as are set, each of them set and after the one before.
fn walks(bitmap: &Bitmap, bits: &[bool], count: u32) -> bool {
    let mut from = 0u32;
    let mut seen = 0u32;
    for row in bitmap.rows() {
        if row < from || !is_on(bits, row) {
            return false;
        }
        from = row.saturating_add(1);
        seen = seen.wrapping_add(1);
    }
    seen == count
}

/// How two bits are combined.
#[derive(Clone, Copy)]
enum How {
    Both,
    Either,
    FirstAlone,
}

const HOWS: [How; 3] = [How::Both, How::Either, How::FirstAlone];

fn combined(first: bool, second: bool, how: How) -> bool {
    match how {
        How::Both => first && second,
        How::Either => first || second,
        How::FirstAlone => first && !second,
    }
}

fn combine_lists(bits: &mut [bool], others: &[bool], how: How) {
    for (on, other) in bits.iter_mut().zip(others) {
        *on = combined(*on, *other, how);
    }
}

/// Combines a copy of a bitmap with another of its length.
fn combine(bitmap: &Bitmap, other: &Bitmap, how: How) -> Result<Bitmap, NoMemory> {
    let mut kept = bitmap.copied()?;
    if kept.len() == other.len() {
        match how {
            How::Both => kept.and_with(other),
            How::Either => kept.or_with(other),
            How::FirstAlone => kept.without(other),
        }
    }
    Ok(kept)
}

/// Whether a bitmap of a length is its list, and is it still when both are combined with others.
fn combine_alike(alloc: Global, len: u32, how: How) -> Result<(bool, bool), NoMemory> {
    let mut bits = scattered(alloc, len, 1)?;
    let others = scattered(alloc, len, 2)?;
    let bitmap = bitmap_of(alloc, len, &bits)?;
    let kept = combine(&bitmap, &bitmap_of(alloc, len, &others)?, how)?;
    let before = is_same(&bitmap, &bits);
    combine_lists(&mut bits, &others, how);
    Ok((before, is_same(&kept, &bits)))
}

#[test]
fn two_bitmaps_combine_as_their_lists_do(rt: HostRuntime) -> Result<(), NoMemory> {
    for len in LENGTHS {
        for how in HOWS {
            let found = combine_alike(rt.alloc(), len, how)?;
            same(&rt, &found, &(true, true), len as usize);
        }
    }
    Ok(())
}

/// The bit of a row of a chunk in its page.
fn page_bit(page: &[u8], row: u32) -> bool {
    let byte = page.get(row as usize / 8).copied().unwrap_or(0);
    byte >> (row % 8) & 1 == 1
}

/// Whether a page has the bits of a list from a row on, and zeros past its end.
fn holds(page: &[u8], bits: &[bool], first: u32) -> bool {
    for row in 0..CHUNK_ROWS {
        if page_bit(page, row) != is_on(bits, first.saturating_add(row)) {
            return false;
        }
    }
    true
}

/// The page of a chunk, and one of other bits where there is no such chunk.
fn stored(bitmap: &Bitmap, chunk: u32) -> Page {
    let mut page = [0x55; 1008];
    if chunk < 33 && chunk * CHUNK_ROWS < bitmap.len() {
        bitmap.store_page(chunk, &mut page);
    }
    page
}

/// Takes a chunk over from a page, where there is such a chunk.
fn load(bitmap: &mut Bitmap, chunk: u32, page: &Page) {
    if chunk < 33 && chunk * CHUNK_ROWS < bitmap.len() {
        bitmap.load_page(chunk, page);
    }
}

/// Whether each chunk's page has the bits of a list; the chunks go over to another bitmap.
fn goes_over(bitmap: &Bitmap, bits: &[bool], loaded: &mut Bitmap) -> bool {
    for chunk in 0..33u32 {
        let first = chunk.saturating_mul(CHUNK_ROWS);
        if first < bitmap.len() {
            let page = stored(bitmap, chunk);
            if !holds(&page, bits, first) {
                return false;
            }
            load(loaded, chunk, &page);
        }
    }
    true
}

/// How many rows are set of a bitmap that is full, whether the pages of another have its bits, and whether the full one is that of
/// the list once it has taken these pages over.
fn loads(alloc: Global, len: u32) -> Result<(u32, bool, bool), NoMemory> {
    let bits = scattered(alloc, len, 3)?;
    let bitmap = bitmap_of(alloc, len, &bits)?;
    let mut loaded = Bitmap::full(alloc, len)?;
    let full = loaded.count();
    let right = goes_over(&bitmap, &bits, &mut loaded);
    Ok((full, right, is_same(&loaded, &bits)))
}

/// Whether a bitmap begins without a row, and how many it has once it has taken over pages full of bits.
fn fills(alloc: Global, len: u32) -> Result<(bool, u32), NoMemory> {
    let mut filled = Bitmap::empty(alloc, len)?;
    let had_none = filled.has_none();
    for chunk in 0..33 {
        load(&mut filled, chunk, &[0xff; 1008]);
    }
    Ok((had_none, filled.count()))
}

#[test]
fn pages_keep_chunks_and_no_bit_past_the_length(rt: HostRuntime) -> Result<(), NoMemory> {
    for len in LENGTHS {
        let loaded = loads(rt.alloc(), len)?;
        same(&rt, &loaded, &(len, true, true), len as usize);
        let filled = fills(rt.alloc(), len)?;
        same(&rt, &filled, &(true, len), len as usize);
    }
    Ok(())
}

#[test]
fn a_bitmap_of_three_rows_has_the_one_that_is_set(rt: HostRuntime) -> Result<(), NoMemory> {
    let bitmap = bitmap_of(rt.alloc(), 3, &[false, true, false])?;
    same(&rt, &(bitmap.count(), bitmap.next(0)), &(1, Some(1)), 3);
    Ok(())
}
