//! Putting rows behind those of a table.
ghost use Rattle.std.specs.Prelude.{◌≡◌, ◌<◌, ◌≤◌, ◌+◌, ◌*◌, ℕ, Err, length, replicate, true, OnOk, OnErr, IfOk, IfErr};
ghost use Rattle.iq_pages.specs.PageCalls.{view};
ghost use Rattle.iq_pages.specs.Pages.{CountsMore};
ghost use Rattle.iq_pieces.specs.Counts.{CountsUpTo};
ghost use Rattle.iq_pieces.specs.Faults as pieces;
ghost use Rattle.iq_table.specs.declared.faults.TableFault.TheVariants.{TableFull};
ghost use Rattle.iq_base.specs.declared.sizes.TheConstants.{MOST_PAGES};
ghost use Rattle.iq_bitmap.specs.declared.page_words.TheConstants.{CHUNK_ROWS};
ghost use Rattle.iq_chunks.specs.Chunks.{AppendsOnes, chunks_changed};
ghost use Rattle.iq_table.specs.Places.{existence_of, part_at, part_kinds};
ghost use Rattle.iq_table.specs.Limits.{limit_of, FindsRoom};
ghost use Rattle.iq_table.specs.Table.{StandsForMore};
ghost use Rattle.iq_table.specs.Calls.{HasGrown, AreGrown, ColumnsStandForMore, KeepsButRows, KeepsOtherTables, TellsPlace, TellsObjects, FindsBadFirst, HasWriteCause, HasAppendCause, columns_read, columns_written, columns_most, append_reads, append_writes, append_most};

use crate::columns::{plan_columns, write_columns};
use crate::faults::TableFault;
use crate::limits::limit_of;
use crate::places::existence_of;
use crate::table::Table;
use iq_base::{ColumnPart, Listed};
use iq_cells::Rows;
use iq_chunks::append_ones;
use iq_pages::{PageFault, PageSink};
use std::alloc::Global;

impl Table {
    /// Puts rows behind those of the table; NULL may stand among them in any column. The form of each column is decided from all its
    /// new values, and each page that the append needs is read, before the first page is written; each page that changes is written
    /// once. `TableFull` comes before anything is touched, and a bad page of a told object before anything is written. After any other
    /// `Err` the table's value is as before, but pages of its objects may be written. Without rows nothing is touched. Beside the
    /// rows it takes 4 bytes a row and column, and for one column at a time an index of its distinct values or, while it is written,
    /// its new ones.
    pub fn append_rows<S: PageSink>(
        &mut self,
        alloc: Global,
        sink: &mut S,
        rows: &Rows,
    ) -> Result<(), TableFault>
        requires place { self.old.place < 64 }
        requires few { length self.old.parts.columns ≤ 32 }
        requires kinds { rows.now.kinds ≡ part_kinds self.old.parts.columns }
        ensures ok { OnOk result (StandsForMore self.old self.new rows.now.rows (S.told sink.old) (S.told sink.new)) }
        ensures grown { OnOk result (HasGrown self.old self.new (length rows.now.rows)) }
        ensures kept { OnErr result (self.new ≡ self.old) }
        ensures others { KeepsOtherTables self.old.place (view S.PageSource sink.old) (view S.PageSource sink.new) }

        // It is full exactly where it would pass its limit, and is then left alone.
        ensures full { limit_of self.old.parts < self.old.parts.slots + length rows.now.rows → (result ≡ Err (TableFull (limit_of self.old.parts))) × (sink.new ≡ sink.old) }
        ensures empty { length rows.now.rows ≡ 0 → sink.new ≡ sink.old }

        ensures reads { CountsUpTo (append_reads self.old) (S.reads sink.old) (S.reads sink.new) }
        ensures written { OnOk result (CountsMore (append_writes self.old self.new (length rows.now.rows)) (S.writes sink.old) (S.writes sink.new)) }
        ensures unwritten { CountsUpTo (append_most self.old (length rows.now.rows)) (S.writes sink.old) (S.writes sink.new) }
        ensures bad_first { TellsObjects (S.told sink.old) self.old → IfErr result (FindsBadFirst (view S.PageSource sink.old) (view S.PageSource sink.new)) }
        ensures later { S.faults sink.old ≤ S.faults sink.new }
        ensures cause { IfErr result (HasAppendCause self.old (length rows.now.rows) (view S.PageSource sink.old) (view S.PageSource sink.new)) }
    {
        let limit = limit_of(&self.parts);
        let slots = self.parts.slots;
        if slots > limit || rows.len() > (limit - slots) as usize {
            return Err(TableFault::TableFull { limit });
        }
        if rows.is_empty() {
            return Ok(());
        }
        let _width = rows.width();
        let columns = write_rows(
            alloc,
            sink,
            self.place,
            slots,
            self.parts.columns.as_slice(),
            rows,
        )?;
        self.parts.slots = slots + rows.len() as u32;
        self.parts.columns = Listed::from_vec(columns);
        Ok(())
    }
}

/// Writes what an append changes of the objects of a table, and gives its columns as they are then. First the columns are planned,
/// which reads their pages; then existence is written, whose last page is read before; and last the columns, which reads nothing.
fn write_rows<S: PageSink>(
    alloc: Global,
    sink: &mut S,
    place: u32,
    slots: u32,
    parts: &[ColumnPart],
    rows: &Rows,
) -> Result<Vec<ColumnPart>, PageFault>
    requires place { place < 64 }
    requires few { length parts.now ≤ 32 }
    requires kinds { rows.now.kinds ≡ part_kinds parts.now }
    requires room { (c : ℕ) → c < length parts.now → FindsRoom (part_at c parts.now).kind (slots + length rows.now.rows) }
    requires bits { slots + length rows.now.rows ≤ CHUNK_ROWS * MOST_PAGES }
    ensures grown { IfOk result (λ grown. AreGrown (length rows.now.rows) parts.now grown.items) }
    ensures ok { IfOk result (λ grown. ColumnsStandForMore (length parts.now) place slots (slots + length rows.now.rows) parts.now grown.items rows.now.rows (S.told sink.old) (S.told sink.new)) }
    ensures existence { OnOk result (AppendsOnes slots (length rows.now.rows) (S.told sink.old (existence_of place)) (S.told sink.new (existence_of place))) }
    ensures others { KeepsButRows place (length parts.now) (view S.PageSource sink.old) (view S.PageSource sink.new) }
    ensures reads { CountsUpTo (columns_read slots parts.now + 1) (S.reads sink.old) (S.reads sink.new) }
    ensures written { IfOk result (λ grown. CountsMore (columns_written slots (slots + length rows.now.rows) parts.now grown.items + chunks_changed slots (length rows.now.rows)) (S.writes sink.old) (S.writes sink.new)) }
    ensures unwritten { CountsUpTo (columns_most slots (length rows.now.rows) parts.now + chunks_changed slots (length rows.now.rows)) (S.writes sink.old) (S.writes sink.new) }
    ensures bad_first { TellsPlace (S.told sink.old) place (length parts.now) → IfErr result (pieces.FindsBadFirst (view S.PageSource sink.old) (view S.PageSource sink.new)) }
    ensures later { S.faults sink.old ≤ S.faults sink.new }
    ensures cause { IfErr result (HasWriteCause place slots parts.now (view S.PageSource sink.old) (view S.PageSource sink.new)) }
{
    let planned = plan_columns(alloc, sink, place, slots, parts, rows)?;
    append_ones(alloc, sink, existence_of(place), slots, rows.len() as u32)?;
    write_columns(alloc, sink, place, slots, parts, rows, planned)
}
