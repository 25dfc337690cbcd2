//! Putting rows behind the last one of an object of planes.
ghost use Rattle.std.specs.Prelude.{◌≡◌, ◌<◌, ◌≤◌, ◌+◌, ◌-◌, ◌*◌, ◌/◌, ◌%◌, None, length, map, slice_index_or, ◌^◌, OnOk, OnErr, IfErr};
ghost use Rattle.iq_base.specs.declared.sizes.TheConstants.{MOST_PAGES};
ghost use Rattle.iq_pages.specs.PageCalls.{view};
ghost use Rattle.iq_pages.specs.Pages.{CountsMore};
ghost use Rattle.iq_pieces.specs.Counts.{CountsUpTo, KeepsOthers};
ghost use Rattle.iq_chunks.specs.Chunks.{chunks_for};
ghost use Rattle.iq_planes.specs.Planes.{ArePlanes, AppendsRows, HasPlanesCause, planes_changed};
ghost use Rattle.iq_planes.specs.Growing.{SavesNext, Lengthens};

use crate::one_page::put_in_page;
use iq_base::PAGE_BYTES;
use iq_bitmap::{Bitmap, CHUNK_ROWS};
use iq_pages::{PageFault, PageSink, PageSource};
use iq_pieces::{read_page, save_page};
use std::alloc::Global;

/// Puts `n` rows, a bitmap a plane, behind the `len` rows of an object. The last page of each plane is read where they don't fill it;
/// each page from the chunk of the first new row on is written once. After an `Err` some of these may be written.
pub fn append<S: PageSink>(
    alloc: Global,
    sink: &mut S,
    object: u32,
    len: u32,
    n: u32,
    more: &[Bitmap],
) -> Result<(), PageFault>
    requires planes { ArePlanes (length more.now) n more.now }
    requires some { 0 < length more.now }
    requires rows { len + n < 2 ^ 32 }
    requires few { length more.now ≤ MOST_PAGES }
    requires most { length more.now * chunks_for (len + n) ≤ MOST_PAGES }
    ensures ok { OnOk result (AppendsRows (length more.now) len n more.now (S.told sink.old object) (S.told sink.new object)) }
    ensures others { KeepsOthers object (view S.PageSource sink.old) (view S.PageSource sink.new) }
    ensures reads { CountsUpTo (length more.now) (S.reads sink.old) (S.reads sink.new) }
    ensures written { OnOk result (CountsMore (planes_changed (length more.now) len n) (S.writes sink.old) (S.writes sink.new)) }
    ensures unwritten { OnErr result (CountsUpTo (planes_changed (length more.now) len n) (S.writes sink.old) (S.writes sink.new)) }
    ensures later { S.faults sink.old ≤ S.faults sink.new }
    ensures cause { IfErr result (HasPlanesCause object (length more.now) len (view S.PageSource sink.old) (view S.PageSource sink.new)) }
{
    let k = more.len() as u32;
    let first = k * (len / CHUNK_ROWS);
    let have = sink.pages(object);
    if n == 0 {
        return Ok(());
    }
    if have < first {
        return Err(PageFault::BadPage { object, page: have });
    }
    for page in first..k * (len + n).div_ceil(CHUNK_ROWS) {
        extend(alloc, sink, object, len, n, page, more)?;
    }
    Ok(())
}

/// Writes one page with the new rows of its chunk and plane.
fn extend<S: PageSink>(
    alloc: Global,
    sink: &mut S,
    object: u32,
    len: u32,
    n: u32,
    at: u32,
    more: &[Bitmap],
) -> Result<(), PageFault>
    requires planes { ArePlanes (length more.now) n more.now }
    requires some { 0 < length more.now }
    requires rows { len + n < 2 ^ 32 }
    requires from { length more.now * (len / 8064) ≤ at }
    requires within { at < length more.now * chunks_for (len + n) }
    requires few { length more.now ≤ MOST_PAGES }
    requires most { length more.now * chunks_for (len + n) ≤ MOST_PAGES }
    requires reached { at ≤ S.counts sink.old object }
    ensures ok { OnOk result (SavesNext (length more.now) len n at more.now (S.told sink.old object) (S.told sink.new object)) }
    ensures longer { OnOk result (Lengthens (S.told sink.old object) (S.told sink.new object)) }
    ensures count { OnOk result (at + 1 ≤ S.counts sink.new object) }
    ensures others { KeepsOthers object (view S.PageSource sink.old) (view S.PageSource sink.new) }
    ensures reads { CountsUpTo 1 (S.reads sink.old) (S.reads sink.new) }
    ensures full { length more.now * chunks_for len ≤ at → S.reads sink.new ≡ S.reads sink.old }
    ensures written { OnOk result (CountsMore 1 (S.writes sink.old) (S.writes sink.new)) }
    ensures unwritten { OnErr result (S.writes sink.new ≡ S.writes sink.old) }
    ensures later { S.faults sink.old ≤ S.faults sink.new }
    ensures cause { IfErr result (HasPlanesCause object (length more.now) len (view S.PageSource sink.old) (view S.PageSource sink.new)) }
{
    let k = more.len() as u32;
    let start = at / k * CHUNK_ROWS;
    let from = len.max(start);
    let to = (len + n).min(start + CHUNK_ROWS);
    let mut page = [0; PAGE_BYTES];
    if start < len {
        read_page(sink, object, at, &mut page)?;
    }
    let plane = &more[(at % k) as usize];
    put_in_page(
        alloc,
        &mut page,
        from - start,
        to - start,
        plane,
        from - len,
    )?;
    save_page(sink, object, at, &page)
}
