//! Appending values to an index.
ghost use Rattle.std.specs.Prelude.{◌≡◌, ◌≢◌, ◌<◌, ◌≤◌, ◌+◌, ◌*◌, ◌/◌, ◌^◌, ℕ, List, length, IfOk, OnOk, OnErr, IfErr};
ghost use Rattle.iq_base.specs.Cells.{width};
ghost use Rattle.iq_base.specs.declared.values.Value.{Value};
ghost use Rattle.iq_lf.specs.Steps.{IsGrownBy};
ghost use Rattle.iq_pages.specs.PageCalls.{view};
ghost use Rattle.iq_pieces.specs.Codes.{AreBelow};
ghost use Rattle.iq_pieces.specs.Counts.{per_page};
ghost use Rattle.iq_lf.specs.declared.lf.TheConstants.{MOST_DISTINCT};
ghost use Rattle.iq_lf.specs.Stands.{HasRoom};
ghost use Rattle.iq_lf.specs.Calls.{AreNumbered, StandsForMore, SameObjects, KeepsOtherObjects, HasLfCause, HasAppendCause, FindsTooManyFirst};

use crate::lf::{Lf, LfFault};
use crate::merging::put_rows;
use crate::numbering::Numbering;
use crate::table::grown_table;
use iq_cells::Cells;
use iq_pages::{PageFault, PageSink};
use iq_pieces::append_behind;
use std::alloc::Global;

impl Lf {
    /// Puts rows with these values behind. The distinct values and the entries are read once; of bitmaps the last one is read of each value
    /// that gets rows in its chunk, and written once, as is each new one; of the pages of entries and of distinct values those are written
    /// that change, each once. It takes memory for the entries, a code a row, and a bitmap of a chunk for each value that gets rows. More
    /// than 1,000 distinct values are found before a page is written. At an `Err` the index is as before, and some pages may be written.
    pub fn append<S: PageSink>(
        &mut self,
        alloc: Global,
        sink: &mut S,
        cells: &Cells,
    ) -> Result<(), LfFault>
        requires kind { cells.now.kind ≡ self.old.kind }
        requires room { HasRoom self.old (length cells.now.values) }
        ensures ok { OnOk result (StandsForMore self.old self.new cells.now.values (S.told sink.old) (S.told sink.new)) }
        ensures slots { OnOk result (self.new.slots ≡ self.old.slots + length cells.now.values) }
        ensures distinct { OnOk result (self.old.distinct ≤ self.new.distinct) }
        ensures few { OnOk result (self.new.distinct ≤ MOST_DISTINCT) }
        ensures same { SameObjects self.old self.new }
        ensures kept { OnErr result (self.new ≡ self.old) }
        ensures others { KeepsOtherObjects self.old (view S.PageSource sink.old) (view S.PageSource sink.new) }
        ensures too_many_first { IfErr result (FindsTooManyFirst (S.writes sink.old) (S.writes sink.new)) }
        ensures later { S.faults sink.old ≤ S.faults sink.new }
        ensures cause { IfErr result (HasAppendCause self.old cells.now.values (view S.PageSource sink.old) (view S.PageSource sink.new)) }
    {
        let numbering = self.numbering(alloc, sink, cells)?;
        let grown = Lf {
            slots: self.slots + cells.len() as u32,
            distinct: self.distinct + numbering.fresh.len() as u32,
            ..*self
        };
        write(alloc, sink, self, &grown, &numbering)?;
        *self = grown;
        Ok(())
    }
}

/// Writes what was numbered: bitmaps, then entries, then the new distinct values.
fn write<S: PageSink>(
    alloc: Global,
    sink: &mut S,
    old: &Lf,
    new: &Lf,
    numbering: &Numbering,
) -> Result<(), PageFault>
    requires grown { IsGrownBy old.now new.now (length numbering.now.fresh.values) (length numbering.now.codes.items) }
    requires kind { numbering.now.fresh.kind ≡ old.now.kind }
    requires room { HasRoom old.now (length numbering.now.codes.items) }
    requires few { new.now.distinct ≤ MOST_DISTINCT }
    requires below { AreBelow numbering.now.codes.items (new.now.distinct + 1) }
    requires reached { old.now.distinct / per_page (width old.now.kind) ≤ S.counts sink.old old.now.first }
    ensures ok { (cells : List Value) → AreNumbered old.now (S.told sink.old) cells numbering.now.fresh.values numbering.now.codes.items numbering.now.last
        → OnOk result (StandsForMore old.now new.now cells (S.told sink.old) (S.told sink.new)) }
    ensures others { KeepsOtherObjects old.now (view S.PageSource sink.old) (view S.PageSource sink.new) }
    ensures later { S.faults sink.old ≤ S.faults sink.new }
    ensures cause { (cells : List Value) → AreNumbered old.now (S.told sink.old) cells numbering.now.fresh.values numbering.now.codes.items numbering.now.last
        → IfErr result (HasLfCause old.now (view S.PageSource sink.old) (view S.PageSource sink.new)) }
{
    let _width = iq_base::width(old.kind);
    let values = new.distinct as usize;
    let mut table = grown_table(alloc, sink, old, values)?;
    put_rows(
        alloc,
        sink,
        old.third,
        values,
        old.slots,
        &numbering.codes,
        &mut table,
    )?;
    table.save(sink, old.second)?;
    append_behind(
        sink,
        old.first,
        old.distinct,
        &numbering.fresh,
        &numbering.last,
    )
}
