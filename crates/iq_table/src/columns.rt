//! The columns of a table, each planned before the first is written.
ghost use Rattle.std.specs.Prelude.{◌≡◌, ◌≢◌, ◌<◌, ◌≤◌, ◌+◌, ℕ, length, OnOk, OnErr, IfOk, IfErr};
ghost use Rattle.iq_pages.specs.PageCalls.{view};
ghost use Rattle.iq_pages.specs.Pages.{CountsMore};
ghost use Rattle.iq_pieces.specs.Counts.{CountsUpTo, OnlyReads};
ghost use Rattle.iq_base.specs.Cells.{width};
ghost use Rattle.iq_fp.specs.Forms.{code_width};
ghost use Rattle.iq_fp.specs.Calls as fps;
ghost use Rattle.iq_fp.specs.Plans.{IsPlanFor, IsReached};
ghost use Rattle.iq_table.specs.Places.{part_at, part_kinds};
ghost use Rattle.iq_table.specs.Limits.{FindsRoom};
ghost use Rattle.iq_table.specs.Calls.{AreGrown, ColumnsStandForMore, KeepsButColumns, TellsColumns, IsNoBadPage, HasColumnsCause, columns_read, columns_written, columns_most};
ghost use Rattle.iq_table.specs.Plans.{ArePlans};

use crate::places::fp_of;
use crate::table::cells_fit_pages;
use iq_base::{ColumnPart, PAGE_BYTES, width};
use iq_cells::{Cells, Rows};
use iq_fp::{Fp, Plan, code_bytes};
use iq_pages::{PageFault, PageSink, PageSource};
use std::alloc::Global;

/// What an append writes of each column, and the columns as they are then.
#[derive(Drop)]
pub(crate) struct PlannedColumns {
    pub plans: Vec<Plan>,
    pub grown: Vec<ColumnPart>,
}

/// Plans for all columns what putting the values of rows behind theirs writes. It only reads. The index of a column's values is let go
/// before the next column is planned; a plan keeps 4 bytes a row.
pub(crate) fn plan_columns<S: PageSource>(
    alloc: Global,
    source: &mut S,
    place: u32,
    slots: u32,
    parts: &[ColumnPart],
    rows: &Rows,
) -> Result<PlannedColumns, PageFault>
    requires place { place < 64 }
    requires few { length parts.now ≤ 32 }
    requires kinds { rows.now.kinds ≡ part_kinds parts.now }
    requires room { (c : ℕ) → c < length parts.now → FindsRoom (part_at c parts.now).kind (slots + length rows.now.rows) }
    ensures grown { IfOk result (λ p. AreGrown (length rows.now.rows) parts.now p.grown.items) }
    ensures plans { IfOk result (λ p. ArePlans place slots parts.now p.grown.items rows.now.rows (view S.PageSource source.old) p.plans.items) }
    ensures reads { OnlyReads (columns_read slots parts.now) (view S.PageSource source.old) (view S.PageSource source.new) }
    ensures cause { IfErr result (HasColumnsCause place slots parts.now (view S.PageSource source.old) (view S.PageSource source.new)) }
{
    let width = rows.width();
    let mut plans = Vec::with_capacity(alloc, width)?;
    let mut grown = Vec::with_capacity(alloc, width)?;
    for c in 0..parts.len() {
        let fp = fp_of(place, slots, c, &parts[c]);
        let plan = plan_column(alloc, source, &fp, rows.column(c))?;
        grown.push(with_distinct(&parts[c], plan.grown.distinct))?;
        plans.push(plan)?;
    }
    Ok(PlannedColumns { plans, grown })
}

/// Plans what putting values behind those of a column writes. A column of more distinct values than rows stands for nothing.
fn plan_column<S: PageSource>(
    alloc: Global,
    source: &mut S,
    fp: &Fp,
    cells: &Cells,
) -> Result<Plan, PageFault>
    requires kind { cells.now.kind ≡ fp.now.kind }
    requires apart { fp.now.codes ≢ fp.now.values }
    requires room { FindsRoom fp.now.kind (fp.now.slots + length cells.now.values) }
    ensures column { IfOk result (λ plan. plan.column ≡ fp.now) }
    ensures longer { IfOk result (λ plan. fps.IsLonger fp.now plan.grown (length cells.now.values)) }
    ensures made_for { IfOk result (λ plan. IsPlanFor (S.told source.old) cells.now.values plan) }
    ensures reached { IfOk result (λ plan. IsReached (S.counts source.old) plan) }
    ensures reads { OnlyReads (fps.pages_read fp.now) (view S.PageSource source.old) (view S.PageSource source.new) }
    ensures cause { IfErr result (fps.HasPlanCause fp.now (view S.PageSource source.old) (view S.PageSource source.new)) }
{
    if fp.distinct > fp.slots {
        let page = fp.slots / (PAGE_BYTES / width(fp.kind)) as u32;
        return Err(PageFault::BadPage {
            object: fp.values,
            page,
        });
    }
    fp.plan(alloc, source, cells)
}

/// Writes what was planned for putting these rows behind those of all columns, and reads nothing. Each plan is let go once it is
/// written, and so are its new distinct values, for which it takes memory.
pub(crate) fn write_columns<S: PageSink>(
    alloc: Global,
    sink: &mut S,
    place: u32,
    slots: u32,
    parts: &[ColumnPart],
    rows: &Rows,
    planned: PlannedColumns,
) -> Result<Vec<ColumnPart>, PageFault>
    requires kinds { rows.now.kinds ≡ part_kinds parts.now }
    requires plans { ArePlans place slots parts.now planned.grown.items rows.now.rows (view S.PageSource sink.old) planned.plans.items }
    requires grown { AreGrown (length rows.now.rows) parts.now planned.grown.items }
    ensures grown { IfOk result (λ grown. grown.items ≡ planned.grown.items) }
    ensures ok { OnOk result (ColumnsStandForMore (length parts.now) place slots (slots + length rows.now.rows) parts.now planned.grown.items rows.now.rows (S.told sink.old) (S.told sink.new)) }
    ensures others { KeepsButColumns place (length parts.now) (view S.PageSource sink.old) (view S.PageSource sink.new) }
    ensures reads { S.reads sink.new ≡ S.reads sink.old }
    ensures written { OnOk result (CountsMore (columns_written slots (slots + length rows.now.rows) parts.now planned.grown.items) (S.writes sink.old) (S.writes sink.new)) }
    ensures unwritten { CountsUpTo (columns_most slots (length rows.now.rows) parts.now) (S.writes sink.old) (S.writes sink.new) }
    ensures later { S.faults sink.old ≤ S.faults sink.new }
    ensures told { TellsColumns (S.told sink.old) place (length parts.now) → IfErr result IsNoBadPage }
    ensures cause { IfErr result (HasColumnsCause place slots parts.now (view S.PageSource sink.old) (view S.PageSource sink.new)) }
{
    cells_fit_pages(parts);
    let PlannedColumns { plans, grown } = planned;
    let _of = (place, slots, rows.len());
    let mut c = 0;
    for plan in plans {
        plan.carry_out(alloc, sink, rows.column(c))?;
        c += 1;
    }
    Ok(grown)
}

/// A column with so many distinct values, in the form that they need.
fn with_distinct(part: &ColumnPart, distinct: u32) -> ColumnPart
    ensures { result ≡ record part.now { form = code_width distinct; distinct = distinct } }
{
    ColumnPart {
        form: code_bytes(distinct) as u8,
        distinct,
        ..part.again()
    }
}
