//! Putting rows behind the last one of an object of bits.
ghost use Rattle.std.specs.Prelude.{◌≡◌, ◌<◌, ◌≤◌, ◌+◌, ◌-◌, ◌*◌, ◌/◌, ◌%◌, ◌^◌, min, None, IsSome, length, OnOk, OnErr, IfErr};
ghost use Rattle.iq_base.specs.declared.sizes.TheConstants.{MOST_PAGES};
ghost use Rattle.iq_pages.specs.PageCalls.{view};
ghost use Rattle.iq_pages.specs.Pages.{CountsMore, HasCause};
ghost use Rattle.iq_pieces.specs.Counts.{CountsUpTo, KeepsOthers};
ghost use Rattle.iq_pieces.specs.Faults.{FindsBadFirst};
ghost use Rattle.iq_chunks.specs.Chunks.{chunks_changed, AppendsOnes, HasBitsCause};

use crate::one_page::set_in_page;
use iq_base::PAGE_BYTES;
use iq_bitmap::CHUNK_ROWS;
use iq_pages::{PageFault, PageSink, PageSource};
use iq_pieces::{read_page, save_page};
use std::alloc::Global;

/// Puts `more` rows that are set behind the `len` rows of an object. The last page is read where they don't fill it; each page
/// from the one of the first new row on is written once. After an `Err` some of these may be written; none where the error is a bad
/// page of an object that is told.
pub fn append_ones<S: PageSink>(
    alloc: Global,
    sink: &mut S,
    object: u32,
    len: u32,
    more: u32,
) -> Result<(), PageFault>
    requires { len + more ≤ CHUNK_ROWS * MOST_PAGES }
    ensures ok { OnOk result (AppendsOnes len more (S.told sink.old object) (S.told sink.new object)) }
    ensures others { KeepsOthers object (view S.PageSource sink.old) (view S.PageSource sink.new) }
    ensures reads { CountsUpTo 1 (S.reads sink.old) (S.reads sink.new) }
    ensures written { OnOk result (CountsMore (chunks_changed len more) (S.writes sink.old) (S.writes sink.new)) }
    ensures unwritten { OnErr result (CountsUpTo (chunks_changed len more) (S.writes sink.old) (S.writes sink.new)) }
    ensures bad_first { IsSome (S.told sink.old object) → IfErr result (FindsBadFirst (view S.PageSource sink.old) (view S.PageSource sink.new)) }
    ensures later { S.faults sink.old ≤ S.faults sink.new }
    ensures cause { IfErr result (HasBitsCause object len (view S.PageSource sink.old) (view S.PageSource sink.new)) }
{
    let first = len / CHUNK_ROWS;
    let have = sink.pages(object);
    if more == 0 {
        return Ok(());
    }
    if have < first {
        return Err(PageFault::BadPage { object, page: have });
    }
    let end = len + more;
    extend(alloc, sink, object, len, end_of(first).min(end))?;
    for chunk in first + 1..end.div_ceil(CHUNK_ROWS) {
        let from = chunk * CHUNK_ROWS;
        extend(alloc, sink, object, from, end_of(chunk).min(end))?;
    }
    Ok(())
}

/// The row behind the last one of a chunk.
fn end_of(chunk: u32) -> u32
    requires { chunk < MOST_PAGES }
    ensures { result ≡ chunk * CHUNK_ROWS + CHUNK_ROWS }
{
    chunk * CHUNK_ROWS + CHUNK_ROWS
}

/// Puts the rows from `from` to `to` behind, all of them in one chunk.
fn extend<S: PageSink>(
    alloc: Global,
    sink: &mut S,
    object: u32,
    from: u32,
    to: u32,
) -> Result<(), PageFault>
    requires some { from < to }
    requires within { to ≤ from / CHUNK_ROWS * CHUNK_ROWS + CHUNK_ROWS }
    requires most { from / CHUNK_ROWS < MOST_PAGES }
    requires reached { from / CHUNK_ROWS ≤ S.counts sink.old object }
    ensures ok { OnOk result (AppendsOnes from (to - from) (S.told sink.old object) (S.told sink.new object)) }
    ensures dark { OnOk result (S.told sink.new object ≡ None → S.told sink.old object ≡ None) }
    ensures count { OnOk result (from / CHUNK_ROWS + 1 ≤ S.counts sink.new object) }
    ensures others { KeepsOthers object (view S.PageSource sink.old) (view S.PageSource sink.new) }
    ensures reads { CountsUpTo (min 1 (from % CHUNK_ROWS)) (S.reads sink.old) (S.reads sink.new) }
    ensures written { OnOk result (CountsMore 1 (S.writes sink.old) (S.writes sink.new)) }
    ensures unwritten { OnErr result (S.writes sink.new ≡ S.writes sink.old) }
    ensures bad_first { IsSome (S.told sink.old object) → IfErr result (FindsBadFirst (view S.PageSource sink.old) (view S.PageSource sink.new)) }
    ensures later { S.faults sink.old ≤ S.faults sink.new }
    ensures cause { IfErr result (HasBitsCause object from (view S.PageSource sink.old) (view S.PageSource sink.new)) }
    // Only a page that is read may be missing.
    ensures sure { from % CHUNK_ROWS ≡ 0 → IfErr result (HasCause object (view S.PageSource sink.old) (view S.PageSource sink.new)) }
{
    let chunk = from / CHUNK_ROWS;
    let first = from % CHUNK_ROWS;
    let mut page = [0; PAGE_BYTES];
    if first != 0 {
        read_page(sink, object, chunk, &mut page)?;
    }
    set_in_page(alloc, &mut page, first, to - chunk * CHUNK_ROWS)?;
    save_page(sink, object, chunk, &page)
}
