//! Reading a table.
ghost use Rattle.std.specs.Prelude.{◌≡◌, ◌<◌, ◌≤◌, length, slice_index, ℕ, OnOk, IfOk, IfErr};
ghost use Rattle.iq_pages.specs.PageCalls.{view};
ghost use Rattle.iq_pieces.specs.Counts.{OnlyReads};
ghost use Rattle.iq_chunks.specs.Chunks.{chunks_for, HasBitsCause};
ghost use Rattle.iq_bitmap.specs.Bits.{rows_from};
ghost use Rattle.iq_fp.specs.Calls.{HasReadCause, all_pages};
ghost use Rattle.iq_fp.specs.Scans.{AreValuesOfRows};
ghost use Rattle.iq_table.specs.Places.{existence_of, kinds_at, part_at, fp_at};
ghost use Rattle.iq_table.specs.Table.{GivesAlive, GivesRows};
ghost use Rattle.iq_table.specs.Calls.{HasRowsCause, pages_of_columns};

use crate::places::{existence_of, fp_of};
use crate::table::Table;
use iq_bitmap::Bitmap;
use iq_cells::{Cells, Rows};
use iq_chunks::read_bits;
use iq_pages::{PageFault, PageSource};
use std::alloc::Global;

impl Table {
    /// Which rows are there. Each page of existence is read once.
    pub fn alive<S: PageSource>(&self, alloc: Global, source: &mut S) -> Result<Bitmap, PageFault>
        requires place { self.now.place < 64 }
        ensures long { IfOk result (λ alive. length alive ≡ self.now.parts.slots) }
        ensures alive { IfOk result (λ alive. GivesAlive self.now (S.told source.old) alive) }
        ensures reads { OnlyReads (chunks_for self.now.parts.slots) (view S.PageSource source.old) (view S.PageSource source.new) }
        ensures cause { IfErr result (HasBitsCause (existence_of self.now.place) self.now.parts.slots (view S.PageSource source.old) (view S.PageSource source.new)) }
    {
        read_bits(alloc, source, existence_of(self.place), self.parts.slots)
    }

    /// The values of some columns, in their order, of the rows that are set in a bitmap of all rows. Each page of a column is read
    /// once for each mention of it.
    pub fn rows_of<S: PageSource>(
        &self,
        alloc: Global,
        source: &mut S,
        rows: &Bitmap,
        columns: &[usize],
    ) -> Result<Rows, PageFault>
        requires place { self.now.place < 64 }
        requires few { length self.now.parts.columns ≤ 32 }
        requires long { length rows.now ≡ self.now.parts.slots }
        requires columns { (i : ℕ) → i < length columns.now → slice_index columns.now i < length self.now.parts.columns }
        ensures kinds { IfOk result (λ got. got.kinds ≡ kinds_at self.now.parts.columns columns.now) }
        ensures rows { IfOk result (λ got. GivesRows self.now (S.told source.old) rows.now columns.now got.rows) }
        ensures reads { OnlyReads (pages_of_columns self.now columns.now) (view S.PageSource source.old) (view S.PageSource source.new) }
        ensures cause { IfErr result (HasRowsCause self.now columns.now (view S.PageSource source.old) (view S.PageSource source.new)) }
    {
        let count = rows.count() as usize;
        let mut read = Vec::with_capacity(alloc, columns.len())?;
        for c in columns {
            read.push(self.cells_of(alloc, source, rows, *c)?)?;
        }
        Ok(Rows::of(read, count))
    }

    /// The values of one column of the rows that are set in a bitmap.
    fn cells_of<S: PageSource>(
        &self,
        alloc: Global,
        source: &mut S,
        rows: &Bitmap,
        c: usize,
    ) -> Result<Cells, PageFault>
        requires place { self.now.place < 64 }
        requires few { length self.now.parts.columns ≤ 32 }
        requires long { length rows.now ≡ self.now.parts.slots }
        requires column { c < length self.now.parts.columns }
        ensures kind { IfOk result (λ cells. cells.kind ≡ (part_at c self.now.parts.columns).kind) }
        ensures long { IfOk result (λ cells. length cells.values ≡ length (rows_from 0 rows.now)) }
        ensures values { IfOk result (λ cells. AreValuesOfRows (fp_at self.now.place self.now.parts c) (S.told source.old) rows.now cells.values) }
        ensures reads { OnlyReads (all_pages (fp_at self.now.place self.now.parts c)) (view S.PageSource source.old) (view S.PageSource source.new) }
        ensures cause { IfErr result (HasReadCause (fp_at self.now.place self.now.parts c) (view S.PageSource source.old) (view S.PageSource source.new)) }
    {
        let fp = fp_of(
            self.place,
            self.parts.slots,
            c,
            &self.parts.columns.as_slice()[c],
        );
        fp.cells_of(alloc, source, rows)
    }
}
