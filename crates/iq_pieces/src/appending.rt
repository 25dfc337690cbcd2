//! Putting pieces behind the last one of an object.
ghost use Rattle.std.specs.Prelude.{◌≡◌, ◌<◌, ◌≤◌, ◌+◌, ◌*◌, ◌/◌, ◌^◌, ℕ, None, length, take, drop, min, max, ◌-◌, OnOk, OnErr, IfErr};
ghost use Rattle.iq_base.specs.declared.sizes.TheConstants.{MOST_PAGES};
ghost use Rattle.iq_pages.specs.PageCalls.{view};
ghost use Rattle.iq_pages.specs.Pages.{CountsMore, HasCause};
ghost use Rattle.iq_pieces.specs.Counts.{per_page, pages_changed, CountsUpTo, KeepsOthers, OnlyReads};
ghost use Rattle.iq_pieces.specs.Objects.{AppendsBehind, AddsPage, LoadsLast, HoldsAnew};
ghost use Rattle.iq_pieces.specs.Faults.{HasBehindCause};

use crate::pages::{read_page, save_page};
use crate::pieces::Pieces;
use iq_base::{PAGE_BYTES, Page};
use iq_pages::{PageFault, PageSink, PageSource};

/// Reads the last page of an object, where `count` pieces of so many bytes don't fill it, so that others can be put behind them. An
/// object that lacks a page before that of the next piece is answered by the first page that isn't there.
pub fn load_last<S: PageSource>(
    source: &mut S,
    object: u32,
    count: u32,
    width: usize,
    into: &mut Page,
) -> Result<(), PageFault>
    requires { (1 ≤ width) × (width ≤ 257) }
    ensures ok { OnOk result (LoadsLast width count (S.told source.old object) into.new) }
    ensures reached { OnOk result (count / per_page width ≤ S.counts source.old object) }
    ensures reads { OnlyReads 1 (view S.PageSource source.old) (view S.PageSource source.new) }
    ensures cause { IfErr result (HasBehindCause width count object (view S.PageSource source.old) (view S.PageSource source.new)) }
{
    let per = PAGE_BYTES / width;
    let have = source.pages(object);
    if (have as usize) < count as usize / per {
        return Err(PageFault::BadPage { object, page: have });
    }
    if count as usize % per == 0 {
        return Ok(());
    }
    read_page(source, object, (count as usize / per) as u32, into)
}

/// Puts pieces behind the last of the `count` pieces of an object, whose last page is known: `last` begins as that page does, and
/// takes its place. No page is read; each page from the one of the first new piece on is written once. After an `Err` some of these
/// may be written.
pub fn append_behind<S: PageSink, P: Pieces>(
    sink: &mut S,
    object: u32,
    count: u32,
    items: &P,
    last: &Page,
) -> Result<(), PageFault>
    requires small { count + length (P.pieces items.now) < 2 ^ 32 }
    requires room { count + length (P.pieces items.now) ≤ per_page (P.width items.now) * MOST_PAGES }
    requires reached { count / per_page (P.width items.now) ≤ S.counts sink.old object }
    ensures ok { OnOk result (AppendsBehind (P.width items.now) count last.now (P.pieces items.now) (S.told sink.old object) (S.told sink.new object)) }
    ensures others { KeepsOthers object (view S.PageSource sink.old) (view S.PageSource sink.new) }
    ensures reads { S.reads sink.new ≡ S.reads sink.old }
    ensures written { OnOk result (CountsMore (pages_changed (P.width items.now) count (length (P.pieces items.now))) (S.writes sink.old) (S.writes sink.new)) }
    ensures unwritten { CountsUpTo (pages_changed (P.width items.now) count (length (P.pieces items.now))) (S.writes sink.old) (S.writes sink.new) }
    ensures later { S.faults sink.old ≤ S.faults sink.new }
    ensures cause { IfErr result (HasCause object (view S.PageSource sink.old) (view S.PageSource sink.new)) }
{
    if items.count() == 0 {
        return Ok(());
    }
    fill_pages(sink, object, count as usize, items, last)
}

/// Makes an object anew, so that it holds pieces and nothing else. No page is read, and each page is written once. After an `Err` some of
/// these may be written.
pub fn rewrite<S: PageSink, P: Pieces>(
    sink: &mut S,
    object: u32,
    items: &P,
) -> Result<(), PageFault>
    requires small { length (P.pieces items.now) < 2 ^ 32 }
    requires room { length (P.pieces items.now) ≤ per_page (P.width items.now) * MOST_PAGES }
    ensures ok { OnOk result (HoldsAnew (P.width items.now) (P.pieces items.now) (S.told sink.old object) (S.told sink.new object)) }
    ensures others { KeepsOthers object (view S.PageSource sink.old) (view S.PageSource sink.new) }
    ensures reads { S.reads sink.new ≡ S.reads sink.old }
    ensures written { OnOk result (CountsMore (pages_changed (P.width items.now) 0 (length (P.pieces items.now))) (S.writes sink.old) (S.writes sink.new)) }
    ensures unwritten { CountsUpTo (pages_changed (P.width items.now) 0 (length (P.pieces items.now))) (S.writes sink.old) (S.writes sink.new) }
    ensures later { S.faults sink.old ≤ S.faults sink.new }
    ensures cause { IfErr result (HasCause object (view S.PageSource sink.old) (view S.PageSource sink.new)) }
{
    let _width = items.width();
    sink.new_object(object)?;
    if items.count() == 0 {
        return Ok(());
    }
    fill_pages(sink, object, 0, items, &[0; PAGE_BYTES])
}

/// Writes the pages from the one of the first new piece on.
fn fill_pages<S: PageSink, P: Pieces>(
    sink: &mut S,
    object: u32,
    start: usize,
    items: &P,
    last: &Page,
) -> Result<(), PageFault>
    requires some { 0 < length (P.pieces items.now) }
    requires small { start + length (P.pieces items.now) < 2 ^ 32 }
    requires room { start + length (P.pieces items.now) ≤ per_page (P.width items.now) * MOST_PAGES }
    requires reached { start / per_page (P.width items.now) ≤ S.counts sink.old object }
    ensures ok { OnOk result (AppendsBehind (P.width items.now) start last.now (P.pieces items.now) (S.told sink.old object) (S.told sink.new object)) }
    ensures others { KeepsOthers object (view S.PageSource sink.old) (view S.PageSource sink.new) }
    ensures reads { S.reads sink.new ≡ S.reads sink.old }
    ensures written { OnOk result (CountsMore (pages_changed (P.width items.now) start (length (P.pieces items.now))) (S.writes sink.old) (S.writes sink.new)) }
    ensures unwritten { CountsUpTo (pages_changed (P.width items.now) start (length (P.pieces items.now))) (S.writes sink.old) (S.writes sink.new) }
    ensures later { S.faults sink.old ≤ S.faults sink.new }
    ensures cause { IfErr result (HasCause object (view S.PageSource sink.old) (view S.PageSource sink.new)) }
{
    let per = PAGE_BYTES / items.width();
    let end = start + items.count();
    let mut page = *last;
    for p in start / per..end.div_ceil(per) {
        fill_page(sink, object, start, p, items, &mut page)?;
        page = [0; PAGE_BYTES];
    }
    Ok(())
}

/// Writes one page of them, which begins as the buffer does.
fn fill_page<S: PageSink, P: Pieces>(
    sink: &mut S,
    object: u32,
    start: usize,
    p: usize,
    items: &P,
    page: &mut Page,
) -> Result<(), PageFault>
    requires some { 0 < length (P.pieces items.now) }
    requires begins { per_page (P.width items.now) * p < start + length (P.pieces items.now) }
    requires ends { start < per_page (P.width items.now) * p + per_page (P.width items.now) }
    requires small { start + length (P.pieces items.now) < 2 ^ 32 }
    requires most { p < MOST_PAGES }
    requires reached { p ≤ S.counts sink.old object }
    ensures ok { let per = per_page (P.width items.now) in
        let from = max start (per * p) in
        let to = min (start + length (P.pieces items.now)) (per * p + per) in
        OnOk result (AddsPage (P.width items.now) p (from - per * p) page.old (take (to - from) (drop (from - start) (P.pieces items.now))) (S.told sink.old object) (S.told sink.new object)) }
    ensures dark { OnOk result (S.told sink.new object ≡ None → S.told sink.old object ≡ None) }
    ensures count { OnOk result (p + 1 ≤ S.counts sink.new object) }
    ensures others { KeepsOthers object (view S.PageSource sink.old) (view S.PageSource sink.new) }
    ensures reads { S.reads sink.new ≡ S.reads sink.old }
    ensures written { OnOk result (CountsMore 1 (S.writes sink.old) (S.writes sink.new)) }
    ensures unwritten { OnErr result (S.writes sink.new ≡ S.writes sink.old) }
    ensures later { S.faults sink.old ≤ S.faults sink.new }
    ensures cause { IfErr result (HasCause object (view S.PageSource sink.old) (view S.PageSource sink.new)) }
{
    let per = PAGE_BYTES / items.width();
    let from = start.max(per * p);
    let to = (start + items.count()).min(per * p + per);
    items.put(from - start, to - from, page, from - per * p);
    save_page(sink, object, p as u32, page)
}
