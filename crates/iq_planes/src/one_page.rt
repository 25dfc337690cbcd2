//! The bits of one page, changed in memory.
ghost use Rattle.std.specs.Prelude.{◌≡◌, ◌<◌, ◌≤◌, ◌+◌, ◌-◌, length, IfOk, OnOk};
ghost use Rattle.iq_bitmap.specs.Bits.{page_bits};
ghost use Rattle.iq_planes.specs.Planes.{PutsRows};

use iq_base::{NoMemory, Page};
use iq_bitmap::{Bitmap, CHUNK_ROWS};
use std::alloc::Global;

/// Puts bits of other rows, from one of these on, into the rows of a page from `from` up to `to`. Where these are a whole chunk of both
/// it costs a step for each 64 rows, and else one for each row.
pub(crate) fn put_in_page(
    alloc: Global,
    page: &mut Page,
    from: u32,
    to: u32,
    more: &Bitmap,
    first: u32,
) -> Result<(), NoMemory>
    requires order { from ≤ to }
    requires within { to ≤ CHUNK_ROWS }
    requires there { first + (to - from) ≤ length more.now }
    ensures { OnOk result (PutsRows from to first more.now (page_bits page.old) (page_bits page.new)) }
{
    if from == 0 && to == CHUNK_ROWS && first % CHUNK_ROWS == 0 {
        more.store_page(first / CHUNK_ROWS, page);
        return Ok(());
    }
    put_in_part(alloc, page, from, to, more, first)
}

/// Does that row by row.
fn put_in_part(
    alloc: Global,
    page: &mut Page,
    from: u32,
    to: u32,
    more: &Bitmap,
    first: u32,
) -> Result<(), NoMemory>
    requires order { from ≤ to }
    requires within { to ≤ CHUNK_ROWS }
    requires there { first + (to - from) ≤ length more.now }
    ensures { OnOk result (PutsRows from to first more.now (page_bits page.old) (page_bits page.new)) }
{
    let mut bits = bits_of_page(alloc, page)?;
    put_rows(&mut bits, from, to, more, first);
    bits.store_page(0, page);
    Ok(())
}

/// The bits of a page.
fn bits_of_page(alloc: Global, page: &Page) -> Result<Bitmap, NoMemory>
    ensures { IfOk result (λ bits. bits ≡ page_bits page.now) }
{
    let mut bits = Bitmap::empty(alloc, CHUNK_ROWS)?;
    bits.load_page(0, page);
    Ok(bits)
}

/// Puts bits of other rows, from one of these on, into the rows from `from` up to `to`.
fn put_rows(bits: &mut Bitmap, from: u32, to: u32, more: &Bitmap, first: u32)
    requires order { from ≤ to }
    requires within { to ≤ length bits.old }
    requires there { first + (to - from) ≤ length more.now }
    ensures long { length bits.new ≡ length bits.old }
    ensures rows { PutsRows from to first more.now bits.old bits.new }
{
    let _rows = more.len();
    for row in from..to {
        bits.set(row, more.get(first + (row - from)));
    }
}
