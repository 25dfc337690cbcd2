//! Putting rows to those that bitmaps have.
ghost use Rattle.std.specs.Prelude.{◌≡◌, ◌≢◌, ◌<◌, ◌≤◌, ◌+◌, ◌-◌, ◌*◌, ◌/◌, ◌%◌, ◌^◌, ℕ, length, take, drop, IfOk, OnOk, OnErr, IfErr};
ghost use Rattle.iq_base.specs.declared.sizes.TheConstants.{MOST_PAGES};
ghost use Rattle.iq_pages.specs.PageCalls.{view};
ghost use Rattle.iq_pages.specs.Pages.{Pages, NamesPage};
ghost use Rattle.iq_bitmap.specs.Bits.{page_bits, either};
ghost use Rattle.iq_chunks.specs.Chunks.{chunks_for};
ghost use Rattle.iq_pieces.specs.Codes.{AreBelow};
ghost use Rattle.iq_pieces.specs.Counts.{CountsUpTo, KeepsOthers};
ghost use Rattle.iq_lf.specs.declared.lf.TheConstants.{MOST_CHUNKS, MOST_DISTINCT, MOST_ROWS};
ghost use Rattle.iq_lf.specs.Entries.{HasNone, entry_in};
ghost use Rattle.iq_lf.specs.Steps.{AddsRows, AddsCodes, HasMergeCause, HasRowsCause, KeepsUnchanged, Widens};
ghost use Rattle.iq_pieces.specs.Faults.{HasPageCause};

use crate::entries::{ENTRIES, entry};
use crate::gathering::gather;
use crate::lf::MOST_CHUNKS;
use crate::table::Table;
use iq_base::{MOST_PAGES, NoMemory, PAGE_BYTES, Page};
use iq_bitmap::{Bitmap, CHUNK_ROWS};
use iq_pages::{PageFault, PageSink, PageSource};
use iq_pieces::read_page;
use std::alloc::Global;

/// Puts rows behind the first `slots`, by their codes, for so many distinct values: a chunk at a time.
pub(crate) fn put_rows<S: PageSink>(
    alloc: Global,
    sink: &mut S,
    object: u32,
    values: usize,
    slots: u32,
    codes: &[u32],
    table: &mut Table,
) -> Result<(), PageFault>
    requires below { AreBelow codes.now (values + 1) }
    requires few { values ≤ MOST_DISTINCT }
    requires rows { slots + length codes.now ≤ MOST_ROWS }
    requires long { MOST_CHUNKS * values ≤ ENTRIES * length table.old.pages.items }
    requires changed { length table.old.changed.items ≡ length table.old.pages.items }
    ensures ok { OnOk result (AddsCodes (MOST_CHUNKS * values) slots codes.now (S.told sink.old object) (S.told sink.new object) table.old.pages.items table.new.pages.items) }
    ensures long { OnOk result (length table.new.pages.items ≡ length table.old.pages.items) }
    ensures changed { OnOk result (length table.new.changed.items ≡ length table.old.changed.items) }
    ensures kept { OnOk result ((told : Pages) → KeepsUnchanged told table.old.pages.items table.old.changed.items → KeepsUnchanged told table.new.pages.items table.new.changed.items) }
    ensures others { KeepsOthers object (view S.PageSource sink.old) (view S.PageSource sink.new) }
    ensures later { S.faults sink.old ≤ S.faults sink.new }
    ensures cause { IfErr result (HasRowsCause object (MOST_CHUNKS * values) slots table.old.pages.items (view S.PageSource sink.old) (view S.PageSource sink.new)) }
{
    let mut done = 0;
    'rows: while done < codes.len() {
        let from = slots + done as u32;
        let more = (codes.len() - done).min((CHUNK_ROWS - from % CHUNK_ROWS) as usize);
        put_chunk(
            alloc,
            sink,
            object,
            values,
            from,
            &codes[done..done + more],
            table,
        )?;
        done += more;
    }
    Ok(())
}

/// Puts rows of one chunk behind the rows before them.
fn put_chunk<S: PageSink>(
    alloc: Global,
    sink: &mut S,
    object: u32,
    values: usize,
    from: u32,
    codes: &[u32],
    table: &mut Table,
) -> Result<(), PageFault>
    requires below { AreBelow codes.now (values + 1) }
    requires few { values ≤ MOST_DISTINCT }
    requires fits { from % CHUNK_ROWS + length codes.now ≤ CHUNK_ROWS }
    requires rows { from < MOST_ROWS }
    requires long { MOST_CHUNKS * values ≤ ENTRIES * length table.old.pages.items }
    requires changed { length table.old.changed.items ≡ length table.old.pages.items }
    ensures ok { OnOk result (AddsCodes (MOST_CHUNKS * values) from codes.now (S.told sink.old object) (S.told sink.new object) table.old.pages.items table.new.pages.items) }
    ensures long { OnOk result (length table.new.pages.items ≡ length table.old.pages.items) }
    ensures changed { OnOk result (length table.new.changed.items ≡ length table.old.changed.items) }
    ensures kept { OnOk result ((told : Pages) → KeepsUnchanged told table.old.pages.items table.old.changed.items → KeepsUnchanged told table.new.pages.items table.new.changed.items) }
    ensures others { KeepsOthers object (view S.PageSource sink.old) (view S.PageSource sink.new) }
    ensures later { S.faults sink.old ≤ S.faults sink.new }
    ensures cause { IfErr result (HasRowsCause object (MOST_CHUNKS * values) from table.old.pages.items (view S.PageSource sink.old) (view S.PageSource sink.new)) }
{
    let chunk = (from / CHUNK_ROWS) as usize;
    let gathered = gather(alloc, codes, from % CHUNK_ROWS, values)?;
    let (used, rows) = (gathered.used.as_slice(), gathered.rows.as_slice());
    for v in 0..values {
        if !used[v + 1] {
            continue;
        }
        merge(
            alloc,
            sink,
            object,
            table,
            MOST_CHUNKS * v + chunk,
            &rows[v + 1],
        )?;
    }
    Ok(())
}

/// Puts rows to those of one entry: to its bitmap where it has one, else as a new bitmap.
fn merge<S: PageSink>(
    alloc: Global,
    sink: &mut S,
    object: u32,
    table: &mut Table,
    k: usize,
    rows: &Bitmap,
) -> Result<(), PageFault>
    requires rows { length rows.now ≡ CHUNK_ROWS }
    requires some { ¬ (HasNone rows.now) }
    requires within { k < ENTRIES * length table.old.pages.items }
    requires changed { length table.old.changed.items ≡ length table.old.pages.items }
    ensures ok { OnOk result (AddsRows k rows.now (S.told sink.old object) (S.told sink.new object) table.old.pages.items table.new.pages.items) }
    ensures long { length table.new.pages.items ≡ length table.old.pages.items }
    ensures changed { length table.new.changed.items ≡ length table.old.changed.items }
    ensures kept { (told : Pages) → KeepsUnchanged told table.old.pages.items table.old.changed.items → KeepsUnchanged told table.new.pages.items table.new.changed.items }
    ensures others { KeepsOthers object (view S.PageSource sink.old) (view S.PageSource sink.new) }
    ensures reads { CountsUpTo 1 (S.reads sink.old) (S.reads sink.new) }
    ensures written { CountsUpTo 1 (S.writes sink.old) (S.writes sink.new) }
    ensures later { S.faults sink.old ≤ S.faults sink.new }
    ensures cause { IfErr result (HasMergeCause object table.old.pages.items k (view S.PageSource sink.old) (view S.PageSource sink.new)) }
{
    let named = entry(&table.pages, k);
    if named != 0 {
        return widen(alloc, sink, object, named - 1, rows);
    }
    let have = sink.pages(object);
    if have >= MOST_PAGES {
        return Err(PageFault::BadPage { object, page: have });
    }
    let mut page = [0; PAGE_BYTES];
    rows.store_page(0, &mut page);
    sink.push_page(object, &page)?;
    table.put(k, have + 1);
    Ok(())
}

/// Puts rows to those of a bitmap that is there, which is read and written once.
fn widen<S: PageSink>(
    alloc: Global,
    sink: &mut S,
    object: u32,
    n: u32,
    rows: &Bitmap,
) -> Result<(), PageFault>
    requires { length rows.now ≡ CHUNK_ROWS }
    ensures ok { OnOk result (Widens n rows.now (S.told sink.old object) (S.told sink.new object)) }
    ensures others { KeepsOthers object (view S.PageSource sink.old) (view S.PageSource sink.new) }
    ensures reads { CountsUpTo 1 (S.reads sink.old) (S.reads sink.new) }
    ensures written { CountsUpTo 1 (S.writes sink.old) (S.writes sink.new) }
    ensures later { S.faults sink.old ≤ S.faults sink.new }
    ensures cause { IfErr result (HasPageCause object (view S.PageSource sink.old) (view S.PageSource sink.new)) }
    ensures names { IfErr result (NamesPage n) }
{
    let mut page = [0; PAGE_BYTES];
    read_page(sink, object, n, &mut page)?;
    or_in_page(alloc, &mut page, rows)?;
    sink.set_page(object, n, &page)
}

/// Sets rows of a page beside its own.
fn or_in_page(alloc: Global, page: &mut Page, rows: &Bitmap) -> Result<(), NoMemory>
    requires { length rows.now ≡ CHUNK_ROWS }
    ensures { OnOk result (page_bits page.new ≡ either (page_bits page.old) rows.now) }
{
    let mut bits = Bitmap::empty(alloc, CHUNK_ROWS)?;
    bits.load_page(0, page);
    bits.or_with(rows);
    bits.store_page(0, page);
    Ok(())
}
