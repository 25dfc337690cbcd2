//! The rows of an index on a side of a test.
ghost use Rattle.std.specs.Prelude.{◌≡◌, ◌≢◌, ◌<◌, ◌≤◌, ◌+◌, ◌*◌, ◌^◌, ◌∷◌, ℕ, false, length, map, slice_index_or, IfOk, IfErr, OnOk};
ghost use Rattle.iq_base.specs.declared.values.Value.TheVariants.{Null};
ghost use Rattle.iq_pages.specs.PageCalls.{view};
ghost use Rattle.iq_pages.specs.Pages.{NamesPage};
ghost use Rattle.iq_bitmap.specs.Bits.{page_bits};
ghost use Rattle.iq_chunks.specs.Chunks.{chunks_for};
ghost use Rattle.iq_pieces.specs.Counts.{pages_for, OnlyReads};
ghost use Rattle.iq_pieces.specs.Faults.{HasPageCause};
ghost use Rattle.iq_fp.specs.Scans.{is_hit};
ghost use Rattle.iq_lf.specs.declared.lf.TheConstants.{MOST_CHUNKS, MOST_DISTINCT, MOST_ROWS};
ghost use Rattle.iq_lf.specs.Stands.{entries_in};
ghost use Rattle.iq_lf.specs.Calls.{AreRowsOn, AreEqualTo, AreMarked, is_equal, HasLfCause, all_pages};
ghost use Rattle.iq_lf.specs.Steps.{AddsBitmap, AddsEntry, HasEntryCause, AreHitEntries, IsMarkedChunk};

use crate::entries::{ENTRIES, entry};
use crate::known::{read_known, with_null};
use crate::lf::{Lf, MOST_CHUNKS};
use crate::table::{pages_of, read_entries};
use iq_ast::{Op, Test};
use iq_base::{NoMemory, PAGE_BYTES, Page, Value};
use iq_bitmap::{Bitmap, CHUNK_ROWS};
use iq_cells::Cells;
use iq_pages::{PageFault, PageSource};
use iq_pieces::read_page;
use iq_truth::{Side, comparison_at, truth_at};
use std::alloc::Global;

impl Lf {
    /// The rows on a side of a test of this column: those of which it is true, or those of which it is false. No test whose side has NULL
    /// is asked. It decides the test once for each distinct value, and reads the pages of these, those of entries that have one of a value on
    /// the side, and the bitmaps of such values, each once. It takes memory for the distinct values, the entries and a bit a row.
    pub fn find<S: PageSource>(
        &self,
        alloc: Global,
        source: &mut S,
        test: &Test,
        side: Side,
    ) -> Result<Bitmap, PageFault>
        requires rows { self.now.slots ≤ MOST_ROWS }
        requires few { self.now.distinct ≤ MOST_DISTINCT }
        requires null { is_hit side test.now Null ≡ false }
        ensures long { IfOk result (λ bits. length bits ≡ self.now.slots) }
        ensures rows { IfOk result (AreRowsOn self.now (S.told source.old) side test.now) }
        ensures reads { OnlyReads (all_pages self.now) (view S.PageSource source.old) (view S.PageSource source.new) }
        ensures cause { IfErr result (HasLfCause self.now (view S.PageSource source.old) (view S.PageSource source.new)) }
    {
        let read = read_known(alloc, source, self)?;
        let known = with_null(alloc, &read)?;
        let hits = hits_of(alloc, &known, test, side)?;
        self.marked(alloc, source, &hits)
    }

    /// The rows that equal a value. It reads as much as `find`.
    pub fn equal<S: PageSource>(
        &self,
        alloc: Global,
        source: &mut S,
        value: &Value,
    ) -> Result<Bitmap, PageFault>
        requires rows { self.now.slots ≤ MOST_ROWS }
        requires few { self.now.distinct ≤ MOST_DISTINCT }
        ensures long { IfOk result (λ bits. length bits ≡ self.now.slots) }
        ensures rows { IfOk result (AreEqualTo self.now (S.told source.old) value.now) }
        ensures reads { OnlyReads (all_pages self.now) (view S.PageSource source.old) (view S.PageSource source.new) }
        ensures cause { IfErr result (HasLfCause self.now (view S.PageSource source.old) (view S.PageSource source.new)) }
    {
        let read = read_known(alloc, source, self)?;
        let known = with_null(alloc, &read)?;
        let hits = equals_of(alloc, &known, value)?;
        self.marked(alloc, source, &hits)
    }

    /// The rows whose value is a hit: a flag for NULL, and one for each distinct value.
    fn marked<S: PageSource>(
        &self,
        alloc: Global,
        source: &mut S,
        hits: &[bool],
    ) -> Result<Bitmap, PageFault>
        requires rows { self.now.slots ≤ MOST_ROWS }
        requires hits { length hits.now ≡ self.now.distinct + 1 }
        requires null { slice_index_or hits.now 0 false ≡ false }
        ensures long { IfOk result (λ bits. length bits ≡ self.now.slots) }
        ensures rows { IfOk result (AreMarked self.now (S.told source.old) hits.now) }
        ensures reads { OnlyReads (pages_for 4 (entries_in self.now) + self.now.distinct * chunks_for self.now.slots) (view S.PageSource source.old) (view S.PageSource source.new) }
        ensures cause { IfErr result (HasLfCause self.now (view S.PageSource source.old) (view S.PageSource source.new)) }
    {
        let needed = pages_of(alloc, self, hits)?;
        let entries = read_entries(alloc, source, self, &needed)?;
        let mut rows = Bitmap::empty(alloc, self.slots)?;
        for chunk in 0..self.slots.div_ceil(CHUNK_ROWS) {
            let page = chunk_page(alloc, source, self, &entries, hits, chunk)?;
            rows.load_page(chunk, &page);
        }
        Ok(rows)
    }
}

/// Which values are on the side.
fn hits_of(alloc: Global, known: &Cells, test: &Test, side: Side) -> Result<Vec<bool>, NoMemory>
    ensures { IfOk result (λ hits. hits.items ≡ map (is_hit side test.now) known.now.values) }
{
    let mut hits = Vec::with_capacity(alloc, known.len())?;
    for i in 0..known.len() {
        hits.push(side.has(truth_at(test, known, i)))?;
    }
    Ok(hits)
}

/// Which values equal another.
fn equals_of(alloc: Global, known: &Cells, value: &Value) -> Result<Vec<bool>, NoMemory>
    ensures { IfOk result (λ hits. hits.items ≡ map (is_equal value.now) known.now.values) }
{
    let mut hits = Vec::with_capacity(alloc, known.len())?;
    for i in 0..known.len() {
        hits.push(Side::True.has(comparison_at(Op::Eq, known, i, value)))?;
    }
    Ok(hits)
}

/// The page of a chunk's rows whose value is a hit.
fn chunk_page<S: PageSource>(
    alloc: Global,
    source: &mut S,
    lf: &Lf,
    entries: &[Page],
    hits: &[bool],
    chunk: u32,
) -> Result<Page, PageFault>
    requires chunk { chunk < MOST_CHUNKS }
    requires hits { length hits.now ≡ lf.now.distinct + 1 }
    requires null { slice_index_or hits.now 0 false ≡ false }
    requires long { entries_in lf.now ≤ ENTRIES * length entries.now }
    requires entries { AreHitEntries lf.now (S.told source.old) hits.now entries.now }
    ensures rows { IfOk result (λ page. IsMarkedChunk lf.now (S.told source.old) hits.now chunk page) }
    ensures reads { OnlyReads lf.now.distinct (view S.PageSource source.old) (view S.PageSource source.new) }
    ensures cause { IfErr result (HasLfCause lf.now (view S.PageSource source.old) (view S.PageSource source.new)) }
{
    let mut rows = Bitmap::empty(alloc, CHUNK_ROWS)?;
    let mut one = Bitmap::empty(alloc, CHUNK_ROWS)?;
    for v in 0..lf.distinct as usize {
        if !hits[v + 1] {
            continue;
        }
        let named = entry(entries, MOST_CHUNKS * v + chunk as usize);
        add_entry(source, lf.third, named, &mut one, &mut rows)?;
    }
    let mut page = [0; PAGE_BYTES];
    rows.store_page(0, &mut page);
    Ok(page)
}

/// Sets the rows of the bitmap that an entry names beside others; an entry that is 0 names none.
fn add_entry<S: PageSource>(
    source: &mut S,
    object: u32,
    named: u32,
    one: &mut Bitmap,
    rows: &mut Bitmap,
) -> Result<(), PageFault>
    requires one { length one.old ≡ CHUNK_ROWS }
    requires rows { length rows.old ≡ CHUNK_ROWS }
    ensures ok { OnOk result (AddsEntry named (S.told source.old object) rows.old rows.new) }
    ensures one { length one.new ≡ CHUNK_ROWS }
    ensures rows { length rows.new ≡ CHUNK_ROWS }
    ensures reads { OnlyReads 1 (view S.PageSource source.old) (view S.PageSource source.new) }
    ensures cause { IfErr result (HasEntryCause object named (view S.PageSource source.old) (view S.PageSource source.new)) }
{
    if named == 0 {
        return Ok(());
    }
    add_bitmap(source, object, named - 1, one, rows)?;
    Ok(())
}

/// Sets the rows of a bitmap that is read beside others.
fn add_bitmap<S: PageSource>(
    source: &mut S,
    object: u32,
    n: u32,
    one: &mut Bitmap,
    rows: &mut Bitmap,
) -> Result<(), PageFault>
    requires one { length one.old ≡ CHUNK_ROWS }
    requires rows { length rows.old ≡ CHUNK_ROWS }
    ensures ok { OnOk result (AddsBitmap n (S.told source.old object) rows.old rows.new) }
    ensures one { length one.new ≡ CHUNK_ROWS }
    ensures rows { length rows.new ≡ CHUNK_ROWS }
    ensures reads { OnlyReads 1 (view S.PageSource source.old) (view S.PageSource source.new) }
    ensures cause { IfErr result (HasPageCause object (view S.PageSource source.old) (view S.PageSource source.new)) }
    ensures names { IfErr result (NamesPage n) }
{
    let mut page = [0; PAGE_BYTES];
    read_page(source, object, n, &mut page)?;
    one.load_page(0, &page);
    rows.or_with(one);
    Ok(())
}
