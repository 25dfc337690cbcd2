//! Writing what an append of a column was planned to write.
ghost use Rattle.std.specs.Prelude.{◌≡◌, ◌≢◌, ◌<◌, ◌≤◌, ◌+◌, ◌-◌, ◌/◌, ◌^◌, ℕ, length, drop, OnOk, IfOk, IfErr};
ghost use Rattle.iq_numbering.specs.Numbers.{AreNew};
ghost use Rattle.iq_pages.specs.PageCalls.{view};
ghost use Rattle.iq_pages.specs.Pages.{CountsMore, HasCause};
ghost use Rattle.iq_pieces.specs.Counts.{per_page, CountsUpTo, KeepsOthers};
ghost use Rattle.iq_fp.specs.Forms.{code_width};
ghost use Rattle.iq_fp.specs.Calls.{StandsForMore, KeepsOtherObjects, HasSinkCause, pages_written, codes_written};
ghost use Rattle.iq_fp.specs.Plans.{KeepsForm, IsPlanFor, IsReached, WritesCodes};

use crate::fp::{code_bytes, form_of};
use crate::parts::{append_codes, rewrite_codes};
use crate::plan::Plan;
use crate::reading::have_cells;
use iq_base::NoMemory;
use iq_cells::Cells;
use iq_numbering::new_values;
use iq_pages::{PageFault, PageSink};
use iq_pieces::append_behind;
use std::alloc::Global;

impl Plan {
    /// Writes what was planned for putting these values behind those of the column: each page that changes once. It reads no page, and
    /// takes memory for the distinct values that weren't there before. After an `Err` some pages of the two objects may be written.
    pub fn carry_out<S: PageSink>(
        &self,
        alloc: Global,
        sink: &mut S,
        cells: &Cells,
    ) -> Result<(), PageFault>
        requires kind { cells.now.kind ≡ self.now.column.kind }
        requires made_for { IsPlanFor (S.told sink.old) cells.now.values self.now }
        requires reached { IsReached (S.counts sink.old) self.now }
        ensures ok { OnOk result (StandsForMore self.now.column self.now.grown cells.now.values (S.told sink.old) (S.told sink.new)) }
        ensures others { KeepsOtherObjects self.now.column (view S.PageSource sink.old) (view S.PageSource sink.new) }
        ensures reads { S.reads sink.new ≡ S.reads sink.old }
        ensures written { OnOk result (CountsMore (pages_written self.now.column self.now.grown) (S.writes sink.old) (S.writes sink.new)) }
        ensures unwritten { CountsUpTo (pages_written self.now.column self.now.grown) (S.writes sink.old) (S.writes sink.new) }
        ensures later { S.faults sink.old ≤ S.faults sink.new }
        ensures cause { IfErr result (HasSinkCause self.now.column (view S.PageSource sink.old) (view S.PageSource sink.new)) }
    {
        let fresh = self.fresh_values(alloc, cells)?;
        have_cells(&fresh);
        append_behind(
            sink,
            self.column.values,
            self.column.distinct,
            &fresh,
            &self.last_values,
        )?;
        self.write_codes(sink)
    }

    /// The distinct values that weren't there before, which the codes of the new rows tell.
    fn fresh_values(&self, alloc: Global, cells: &Cells) -> Result<Cells, NoMemory>
        requires many { length cells.now.values ≤ length self.now.codes.items }
        requires few { length cells.now.values ≤ 256 ^ 3 }
        ensures kind { IfOk result (λ fresh. fresh.kind ≡ cells.now.kind) }
        ensures ok { let first = length self.now.codes.items - length cells.now.values in
            IfOk result (λ fresh. AreNew self.now.column.distinct cells.now.values (drop first self.now.codes.items) fresh.values) }
    {
        let first = self.codes.len() - cells.len();
        let count = (self.grown.distinct - self.column.distinct) as usize;
        let codes = &self.codes[first..];
        new_values(alloc, self.column.distinct as usize, count, cells, codes)
    }

    /// Writes the codes, behind those of the column or anew.
    fn write_codes<S: PageSink>(&self, sink: &mut S) -> Result<(), PageFault>
        requires reached { KeepsForm self.now.column self.now.grown → self.now.column.slots / per_page (code_width self.now.column.distinct) ≤ S.counts sink.old self.now.column.codes }
        ensures ok { OnOk result (WritesCodes self.now (S.told sink.old self.now.column.codes) (S.told sink.new self.now.column.codes)) }
        ensures others { KeepsOthers self.now.column.codes (view S.PageSource sink.old) (view S.PageSource sink.new) }
        ensures reads { S.reads sink.new ≡ S.reads sink.old }
        ensures written { OnOk result (CountsMore (codes_written self.now.column self.now.grown) (S.writes sink.old) (S.writes sink.new)) }
        ensures unwritten { CountsUpTo (codes_written self.now.column self.now.grown) (S.writes sink.old) (S.writes sink.new) }
        ensures later { S.faults sink.old ≤ S.faults sink.new }
        ensures cause { IfErr result (HasCause self.now.column.codes (view S.PageSource sink.old) (view S.PageSource sink.new)) }
    {
        let form = form_of(self.grown.distinct);
        let object = self.column.codes;
        if code_bytes(self.grown.distinct) == code_bytes(self.column.distinct) {
            append_codes(
                sink,
                object,
                self.column.slots,
                &self.codes,
                &self.last_codes,
                form,
            )
        } else {
            rewrite_codes(sink, object, &self.codes, form)
        }
    }
}
