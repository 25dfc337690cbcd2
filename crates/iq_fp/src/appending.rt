//! Appending values to a column.
ghost use Rattle.std.specs.Prelude.{◌≡◌, ◌<◌, ◌≤◌, ◌+◌, ◌/◌, ℕ, length, OnOk, OnErr, IfErr};
ghost use Rattle.iq_pages.specs.PageCalls.{view};
ghost use Rattle.iq_pages.specs.Pages.{CountsMore};
ghost use Rattle.iq_pieces.specs.Counts.{CountsUpTo};
ghost use Rattle.iq_pieces.specs.Faults.{FindsBadFirst};
ghost use Rattle.iq_fp.specs.Stands.{HasRoom};
ghost use Rattle.iq_fp.specs.Calls.{StandsForMore, SameObjects, IsLonger, KeepsOtherObjects, HasAppendCause, AreTold, pages_read, pages_written, most_written};

use crate::fp::Fp;
use iq_cells::Cells;
use iq_pages::{PageFault, PageSink};
use std::alloc::Global;

impl Fp {
    /// Puts values behind the last one: the append is planned, and then written. So the form is decided, and each page that is needed
    /// is read, before the first page is written; each page that changes is written once. After an `Err` the column is as before, but
    /// some pages of its two objects may be written; none where the error is a bad page of an object that is told.
    pub fn append<S: PageSink>(
        &mut self,
        alloc: Global,
        sink: &mut S,
        cells: &Cells,
    ) -> Result<(), PageFault>
        requires kind { cells.now.kind ≡ self.old.kind }
        requires room { HasRoom self.old (length cells.now.values) }
        ensures ok { OnOk result (StandsForMore self.old self.new cells.now.values (S.told sink.old) (S.told sink.new)) }
        ensures same { SameObjects self.old self.new }
        ensures longer { OnOk result (IsLonger self.old self.new (length cells.now.values)) }
        ensures kept { OnErr result (self.new ≡ self.old) }
        ensures others { KeepsOtherObjects self.old (view S.PageSource sink.old) (view S.PageSource sink.new) }
        ensures reads { CountsUpTo (pages_read self.old) (S.reads sink.old) (S.reads sink.new) }
        ensures written { OnOk result (CountsMore (pages_written self.old self.new) (S.writes sink.old) (S.writes sink.new)) }
        ensures unwritten { CountsUpTo (most_written self.old (length cells.now.values)) (S.writes sink.old) (S.writes sink.new) }
        ensures bad_first { AreTold self.old (S.told sink.old) → IfErr result (FindsBadFirst (view S.PageSource sink.old) (view S.PageSource sink.new)) }
        ensures later { S.faults sink.old ≤ S.faults sink.new }
        ensures cause { IfErr result (HasAppendCause self.old (view S.PageSource sink.old) (view S.PageSource sink.new)) }
    {
        let _width = iq_base::width(self.kind);
        let plan = self.plan(alloc, sink, cells)?;
        plan.carry_out(alloc, sink, cells)?;
        *self = plan.grown;
        Ok(())
    }
}
