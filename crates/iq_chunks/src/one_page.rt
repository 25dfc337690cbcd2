//! The bits of one page, set or cleared in memory.
ghost use Rattle.std.specs.Prelude.{◌≡◌, ◌<◌, ◌≤◌, ◌*◌, length, replicate, slice_index_or, true, false, IfOk, OnOk};
ghost use Rattle.iq_bitmap.specs.Bits.{page_bits, chunk_of, difference};
ghost use Rattle.iq_chunks.specs.Chunks.{SetsRows};

use iq_base::{NoMemory, Page};
use iq_bitmap::{Bitmap, CHUNK_ROWS};
use std::alloc::Global;

/// Sets the rows of a page from one on up to another.
pub(crate) fn set_in_page(
    alloc: Global,
    page: &mut Page,
    from: u32,
    to: u32,
) -> Result<(), NoMemory>
    requires order { from ≤ to }
    requires within { to ≤ CHUNK_ROWS }
    ensures { OnOk result (SetsRows from to (page_bits page.old) (page_bits page.new)) }
{
    let mut bits = bits_of_page(alloc, page)?;
    set_rows(&mut bits, from, to);
    bits.store_page(0, page);
    Ok(())
}

/// Clears the rows of a page that are set in a bitmap of as many rows.
pub(crate) fn clear_in_page(alloc: Global, page: &mut Page, gone: &Bitmap) -> Result<(), NoMemory>
    requires { length gone.now ≡ CHUNK_ROWS }
    ensures { OnOk result (page_bits page.new ≡ difference (page_bits page.old) gone.now) }
{
    let mut bits = bits_of_page(alloc, page)?;
    bits.without(gone);
    bits.store_page(0, page);
    Ok(())
}

/// The rows of a chunk, as a bitmap of their own.
pub(crate) fn chunk_rows(alloc: Global, rows: &Bitmap, chunk: u32) -> Result<Bitmap, NoMemory>
    requires { chunk * CHUNK_ROWS < length rows.now }
    ensures { IfOk result (λ bits. bits ≡ chunk_of chunk rows.now) }
{
    let mut page = [0; 1008];
    rows.store_page(chunk, &mut page);
    bits_of_page(alloc, &page)
}

/// The bits of a page.
fn bits_of_page(alloc: Global, page: &Page) -> Result<Bitmap, NoMemory>
    ensures { IfOk result (λ bits. bits ≡ page_bits page.now) }
{
    let mut bits = Bitmap::empty(alloc, CHUNK_ROWS)?;
    bits.load_page(0, page);
    Ok(bits)
}

/// Sets the rows from one on up to another.
fn set_rows(bits: &mut Bitmap, from: u32, to: u32)
    requires order { from ≤ to }
    requires within { to ≤ length bits.old }
    ensures long { length bits.new ≡ length bits.old }
    ensures rows { SetsRows from to bits.old bits.new }
{
    for row in from..to {
        bits.set(row, true);
    }
}
