//! The pages of entries, read and written.
ghost use Rattle.std.specs.Prelude.{◌≡◌, ◌≢◌, ◌<◌, ◌≤◌, ◌+◌, ◌*◌, ◌/◌, ◌^◌, ℕ, true, length, IfOk, OnOk, OnErr, IfErr};
ghost use Rattle.iq_base.specs.declared.sizes.TheConstants.{MOST_PAGES};
ghost use Rattle.iq_pages.specs.PageCalls.{view};
ghost use Rattle.iq_pages.specs.Pages.{Pages, IsPageOf, NamesPage};
ghost use Rattle.iq_pieces.specs.Faults.{HasPageCause};
ghost use Rattle.iq_pieces.specs.Counts.{pages_for, CountsUpTo, KeepsOthers, OnlyReads};
ghost use Rattle.iq_lf.specs.declared.lf.TheConstants.{MOST_CHUNKS, MOST_DISTINCT};
ghost use Rattle.iq_lf.specs.Entries.{entry_in};
ghost use Rattle.iq_lf.specs.Stands.{entries_in};
ghost use Rattle.iq_lf.specs.Calls.{HasLfCause};
ghost use Rattle.iq_lf.specs.Steps.{AreNeeded, AreEntries, ClearsEntries, CoversHits, HasSaveCause, HasShortCause, KeepsEntries, KeepsUnchanged, Lengthens, SavesTable, SavesWhere, SetsEntry};

use crate::entries::{ENTRIES, put_number};
use crate::lf::{Lf, MOST_CHUNKS};
use iq_base::{NoMemory, PAGE_BYTES, Page};
use iq_pages::{PageFault, PageSink, PageSource};
use iq_pieces::{read_page, save_page};
use std::alloc::Global;

/// Which pages have an entry of a hit: a flag for NULL, and for each distinct value.
pub(crate) fn pages_of(alloc: Global, lf: &Lf, hits: &[bool]) -> Result<Vec<bool>, NoMemory>
    requires { length hits.now ≡ lf.now.distinct + 1 }
    ensures long { IfOk result (λ needed. length needed.items ≡ pages_for 4 (entries_in lf.now)) }
    ensures all { IfOk result (λ needed. CoversHits hits.now needed.items) }
{
    let values = lf.distinct as usize;
    let mut needed = vec![in alloc; false; (MOST_CHUNKS * values).div_ceil(ENTRIES)]?;
    for v in 0..values {
        if hits[v + 1] {
            needed[MOST_CHUNKS * v / ENTRIES] = true;
            needed[(MOST_CHUNKS * v + MOST_CHUNKS - 1) / ENTRIES] = true;
        }
    }
    Ok(needed)
}

/// Reads the needed pages of entries, each once. In the place of each other is a page of zeros.
pub(crate) fn read_entries<S: PageSource>(
    alloc: Global,
    source: &mut S,
    lf: &Lf,
    needed: &[bool],
) -> Result<Vec<Page>, PageFault>
    requires { length needed.now ≡ pages_for 4 (entries_in lf.now) }
    ensures long { IfOk result (λ pages. length pages.items ≡ length needed.now) }
    ensures pages { IfOk result (λ pages. AreNeeded lf.now (S.told source.old) needed.now pages.items) }
    ensures reads { OnlyReads (length needed.now) (view S.PageSource source.old) (view S.PageSource source.new) }
    ensures cause { IfErr result (HasLfCause lf.now (view S.PageSource source.old) (view S.PageSource source.new)) }
{
    let mut pages = Vec::with_capacity(alloc, needed.len())?;
    for p in 0..needed.len() {
        pages.push(page_where(source, lf.second, p as u32, needed[p])?)?;
    }
    Ok(pages)
}

/// Reads a page where it is needed; else it is one of zeros.
fn page_where<S: PageSource>(
    source: &mut S,
    object: u32,
    n: u32,
    needed: bool,
) -> Result<Page, PageFault>
    ensures page { IfOk result (λ page. needed ≡ true → IsPageOf (S.told source.old object) n page) }
    ensures reads { OnlyReads 1 (view S.PageSource source.old) (view S.PageSource source.new) }
    ensures cause { IfErr result (HasPageCause object (view S.PageSource source.old) (view S.PageSource source.new)) }
    ensures names { IfErr result (NamesPage n) }
{
    let mut page = [0; PAGE_BYTES];
    if needed {
        read_page(source, object, n, &mut page)?;
    }
    Ok(page)
}

/// All pages of entries, and which of them changed.
#[derive(Drop)]
pub(crate) struct Table {
    pub pages: Vec<Page>,
    pub changed: Vec<bool>,
}

impl Table {
    /// Writes entry k.
    pub fn put(&mut self, k: usize, number: u32)
        requires within { k < ENTRIES * length self.old.pages.items }
        requires long { length self.old.changed.items ≡ length self.old.pages.items }
        ensures here { SetsEntry k number self.old.pages.items self.new.pages.items }
        ensures long { length self.new.changed.items ≡ length self.old.changed.items }
        ensures kept { (told : Pages) → KeepsUnchanged told self.old.pages.items self.old.changed.items → KeepsUnchanged told self.new.pages.items self.new.changed.items }
    {
        put_number(number, &mut self.pages[k / ENTRIES], k % ENTRIES);
        self.changed[k / ENTRIES] = true;
    }
}

/// Reads all pages of entries, and puts those of more distinct values behind, which are 0.
pub(crate) fn grown_table<S: PageSource>(
    alloc: Global,
    source: &mut S,
    lf: &Lf,
    values: usize,
) -> Result<Table, PageFault>
    requires more { lf.now.distinct ≤ values }
    requires few { values ≤ MOST_DISTINCT }
    ensures long { IfOk result (λ table. length table.pages.items ≡ pages_for 4 (MOST_CHUNKS * values)) }
    ensures changed { IfOk result (λ table. length table.changed.items ≡ length table.pages.items) }
    ensures entries { IfOk result (λ table. AreEntries lf.now (MOST_CHUNKS * values) (S.told source.old) table.pages.items) }
    ensures kept { IfOk result (λ table. KeepsEntries lf.now (S.told source.old) table.pages.items table.changed.items) }
    ensures reads { OnlyReads (pages_for 4 (entries_in lf.now)) (view S.PageSource source.old) (view S.PageSource source.new) }
    ensures cause { IfErr result (HasLfCause lf.now (view S.PageSource source.old) (view S.PageSource source.new)) }
{
    let had = MOST_CHUNKS * lf.distinct as usize;
    let all = vec![in alloc; true; had.div_ceil(ENTRIES)]?;
    let pages = read_entries(alloc, source, lf, &all)?;
    let changed = vec![in alloc; false; pages.len()]?;
    let mut table = Table { pages, changed };
    table.lengthen((MOST_CHUNKS * values).div_ceil(ENTRIES))?;
    table.clear(had, MOST_CHUNKS * values);
    Ok(table)
}

impl Table {
    /// Puts pages behind, up to a number of them.
    fn lengthen(&mut self, count: usize) -> Result<(), NoMemory>
        requires long { length self.old.changed.items ≡ length self.old.pages.items }
        requires more { length self.old.pages.items ≤ count }
        requires few { count ≤ MOST_PAGES }
        ensures { OnOk result (Lengthens count self.old.pages.items self.old.changed.items self.new.pages.items self.new.changed.items) }
    {
        for _ in self.pages.len()..count {
            self.pages.push([0; PAGE_BYTES])?;
            self.changed.push(true)?;
        }
        Ok(())
    }

    /// Makes entries 0, from one on up to another.
    fn clear(&mut self, from: usize, to: usize)
        requires order { from ≤ to }
        requires within { to ≤ ENTRIES * length self.old.pages.items }
        requires long { length self.old.changed.items ≡ length self.old.pages.items }
        ensures pages { ClearsEntries from to self.old.pages.items self.new.pages.items }
        ensures long { length self.new.changed.items ≡ length self.old.changed.items }
        ensures kept { (told : Pages) → KeepsUnchanged told self.old.pages.items self.old.changed.items → KeepsUnchanged told self.new.pages.items self.new.changed.items }
    {
        for k in from..to {
            self.put(k, 0);
        }
    }

    /// Writes the pages that changed, each once.
    pub fn save<S: PageSink>(&self, sink: &mut S, object: u32) -> Result<(), PageFault>
        requires long { length self.now.changed.items ≡ length self.now.pages.items }
        requires most { length self.now.pages.items ≤ MOST_PAGES }
        ensures ok { OnOk result (SavesTable self.now.pages.items self.now.changed.items (S.told sink.old object) (S.told sink.new object)) }
        ensures others { KeepsOthers object (view S.PageSource sink.old) (view S.PageSource sink.new) }
        ensures reads { S.reads sink.new ≡ S.reads sink.old }
        ensures written { CountsUpTo (length self.now.pages.items) (S.writes sink.old) (S.writes sink.new) }
        ensures later { S.faults sink.old ≤ S.faults sink.new }
        ensures cause { IfErr result (HasSaveCause object self.now.pages.items self.now.changed.items (view S.PageSource sink.old) (view S.PageSource sink.new)) }
    {
        let (pages, changed) = (self.pages.as_slice(), self.changed.as_slice());
        for p in 0..pages.len() {
            save_where(sink, object, p as u32, &pages[p], changed[p])?;
        }
        Ok(())
    }
}

/// Writes a page that changed anew or behind the last one, where the object has the pages before it.
fn save_where<S: PageSink>(
    sink: &mut S,
    object: u32,
    n: u32,
    page: &Page,
    changed: bool,
) -> Result<(), PageFault>
    requires { n < MOST_PAGES }
    ensures ok { OnOk result (SavesWhere changed n page.now (S.told sink.old object) (S.told sink.new object)) }
    ensures others { KeepsOthers object (view S.PageSource sink.old) (view S.PageSource sink.new) }
    ensures reads { S.reads sink.new ≡ S.reads sink.old }
    ensures written { CountsUpTo 1 (S.writes sink.old) (S.writes sink.new) }
    ensures later { S.faults sink.old ≤ S.faults sink.new }
    ensures cause { IfErr result (HasShortCause object n (view S.PageSource sink.old) (view S.PageSource sink.new)) }
{
    if !changed {
        return Ok(());
    }
    let have = sink.pages(object);
    if have < n {
        return Err(PageFault::BadPage { object, page: have });
    }
    save_page(sink, object, n, page)
}
