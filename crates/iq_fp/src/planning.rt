//! Planning an append of a column: all that is read for it, and nothing written.
ghost use Rattle.std.specs.Prelude.{◌≡◌, ◌≢◌, ◌<◌, ◌≤◌, ◌+◌, ◌*◌, ◌/◌, ◌^◌, ◌++◌, ℕ, max, length, map, OnOk, IfOk, IfErr};
ghost use Rattle.iq_base.specs.Cells.{width, cell};
ghost use Rattle.iq_pages.specs.PageCalls.{view};
ghost use Rattle.iq_numbering.specs.Numbers.{AreDistinct};
ghost use Rattle.iq_pieces.specs.Codes.{AreBelow};
ghost use Rattle.iq_pieces.specs.Counts.{per_page, pages_for, OnlyReads};
ghost use Rattle.iq_pieces.specs.Objects.{BeginsAs};
ghost use Rattle.iq_fp.specs.Forms.{code_width};
ghost use Rattle.iq_fp.specs.Stands.{HaveCells, HasRoom};
ghost use Rattle.iq_fp.specs.Calls.{AreKnown, IsLonger, GoOn, HasReadCause, HasPlanCause, pages_read};
ghost use Rattle.iq_fp.specs.Plans.{KeepsForm, AreNumbered, ArePlanned, EndsIn, IsPlanFor, IsReached};

use crate::distinct::first_repeat;
use crate::fp::{Fp, code_bytes};
use crate::plan::Plan;
use crate::reading::{have_cells, known_values, row_codes};
use iq_base::{PAGE_BYTES, Page};
use iq_cells::Cells;
use iq_numbering::{Numbered, number};
use iq_pages::{PageFault, PageSource};
use iq_pieces::load_last;
use std::alloc::Global;

impl Fp {
    /// What putting values behind the last one writes. The form is decided from all of them: a value that wasn't there before comes
    /// behind the distinct ones, and where these become too many for the form of the codes, all codes are to be written anew in a
    /// wider form: never back, and no value gets another place. It reads the pages of distinct values once, and of the codes the last
    /// page, or all where the form changes. An object that lacks a page behind which the append is to write is answered here.
    pub fn plan<S: PageSource>(
        &self,
        alloc: Global,
        source: &mut S,
        cells: &Cells,
    ) -> Result<Plan, PageFault>
        requires kind { cells.now.kind ≡ self.now.kind }
        requires room { HasRoom self.now (length cells.now.values) }
        ensures column { IfOk result (λ plan. plan.column ≡ self.now) }
        ensures longer { IfOk result (λ plan. IsLonger self.now plan.grown (length cells.now.values)) }
        ensures plan { IfOk result (λ plan. IsPlanFor (S.told source.old) cells.now.values plan) }
        ensures reached { IfOk result (λ plan. IsReached (S.counts source.old) plan) }
        ensures reads { OnlyReads (pages_read self.now) (view S.PageSource source.old) (view S.PageSource source.new) }
        ensures cause { IfErr result (HasPlanCause self.now (view S.PageSource source.old) (view S.PageSource source.new)) }
    {
        let values = planned_values(alloc, source, self, cells)?;
        let PlannedValues {
            fresh,
            more,
            last_values,
        } = values;
        let grown = Fp {
            slots: self.slots + cells.len() as u32,
            distinct: self.distinct + fresh as u32,
            ..*self
        };
        let planned = planned_codes(alloc, source, self, &grown, more)?;
        let PlannedCodes { codes, last_codes } = planned;
        Ok(Plan {
            column: *self,
            grown,
            codes,
            last_codes,
            last_values,
        })
    }
}

/// How many distinct values weren't there before, the codes of the new rows, and a page that begins as the last one of the distinct
/// values that were.
#[derive(Drop)]
struct PlannedValues {
    fresh: usize,
    more: Vec<u32>,
    last_values: Page,
}

/// Numbers values behind the distinct ones of a column, which it reads.
fn planned_values<S: PageSource>(
    alloc: Global,
    source: &mut S,
    fp: &Fp,
    cells: &Cells,
) -> Result<PlannedValues, PageFault>
    requires kind { cells.now.kind ≡ fp.now.kind }
    requires few { fp.now.distinct + length cells.now.values < 2 ^ 32 }
    ensures few { IfOk result (λ values. values.fresh ≤ length cells.now.values) }
    ensures below { IfOk result (λ values. AreBelow values.more.items (fp.now.distinct + values.fresh)) }
    ensures numbered { IfOk result (λ values. AreNumbered fp.now (S.told source.old) cells.now.values (fp.now.distinct + values.fresh) values.more.items values.last_values) }
    ensures reached { OnOk result (fp.now.distinct / per_page (width fp.now.kind) ≤ S.counts source.old fp.now.values) }
    ensures reads { OnlyReads (pages_for (width fp.now.kind) fp.now.distinct) (view S.PageSource source.old) (view S.PageSource source.new) }
    ensures cause { IfErr result (HasPlanCause fp.now (view S.PageSource source.old) (view S.PageSource source.new)) }
{
    let known = distinct_values(alloc, source, fp)?;
    let have = source.pages(fp.values);
    if (have as usize) < known.len() / (PAGE_BYTES / iq_base::width(fp.kind)) {
        return Err(PageFault::BadPage {
            object: fp.values,
            page: have,
        });
    }
    let Numbered { codes, new } = number(alloc, &known, cells)?;
    have_cells(cells);
    let last_values = last_page(&known);
    Ok(PlannedValues {
        fresh: new,
        more: codes,
        last_values,
    })
}

/// Reads the distinct values of a column, which are bad where one stands twice.
pub(crate) fn distinct_values<S: PageSource>(
    alloc: Global,
    source: &mut S,
    fp: &Fp,
) -> Result<Cells, PageFault>
    ensures kind { IfOk result (λ known. known.kind ≡ fp.now.kind) }
    ensures long { IfOk result (λ known. length known.values ≡ fp.now.distinct) }
    ensures cells { IfOk result (λ known. HaveCells known.kind known.values) }
    ensures known { IfOk result (λ known. AreKnown fp.now (S.told source.old) known.values) }
    ensures distinct { IfOk result (λ known. AreDistinct known.values) }
    ensures reads { OnlyReads (pages_for (width fp.now.kind) fp.now.distinct) (view S.PageSource source.old) (view S.PageSource source.new) }
    ensures cause { IfErr result (HasPlanCause fp.now (view S.PageSource source.old) (view S.PageSource source.new)) }
{
    let _few = fp.distinct;
    let known = known_values(alloc, source, fp)?;
    match first_repeat(alloc, &known)? {
        None => Ok(known),
        Some(place) => {
            let page = (place / (PAGE_BYTES / iq_base::width(fp.kind))) as u32;
            Err(PageFault::BadPage {
                object: fp.values,
                page,
            })
        }
    }
}

/// A page that begins as the last one of distinct values, where they don't fill it.
fn last_page(known: &Cells) -> Page
    ensures { BeginsAs (width known.now.kind) (length known.now.values) result (map (cell known.now.kind) known.now.values) }
{
    let per = PAGE_BYTES / iq_base::width(known.kind());
    let count = known.len();
    let first = count % per;
    let mut last = [0; PAGE_BYTES];
    known.put_in_page(count - first, first, &mut last, 0);
    last
}

/// The codes that are to be written, and a page that begins as the last one of those before them.
#[derive(Drop)]
struct PlannedCodes {
    codes: Vec<u32>,
    last_codes: Page,
}

/// Reads what is needed of the codes of a column, so that more can be put behind them: the last page, or all where their form changes.
fn planned_codes<S: PageSource>(
    alloc: Global,
    source: &mut S,
    old: &Fp,
    new: &Fp,
    more: Vec<u32>,
) -> Result<PlannedCodes, PageFault>
    requires more { old.now.distinct ≤ new.now.distinct }
    requires below { AreBelow more.items new.now.distinct }
    ensures behind { IfOk result (λ p. KeepsForm old.now new.now → length p.codes.items ≡ length more.items) }
    ensures anew { IfOk result (λ p. code_width new.now.distinct ≢ code_width old.now.distinct → length p.codes.items ≡ old.now.slots + length more.items) }
    ensures below { IfOk result (λ p. AreBelow p.codes.items new.now.distinct) }
    ensures codes { IfOk result (λ p. ArePlanned old.now new.now (S.told source.old) more.items p.codes.items p.last_codes) }
    ensures reached { OnOk result (KeepsForm old.now new.now → old.now.slots / per_page (code_width old.now.distinct) ≤ S.counts source.old old.now.codes) }
    ensures reads { OnlyReads (max 1 (pages_for (code_width old.now.distinct) old.now.slots)) (view S.PageSource source.old) (view S.PageSource source.new) }
    ensures cause { IfErr result (HasReadCause old.now (view S.PageSource source.old) (view S.PageSource source.new)) }
{
    let mut last_codes = [0; PAGE_BYTES];
    let width = code_bytes(old.distinct);
    if code_bytes(new.distinct) == width {
        load_last(source, old.codes, old.slots, width, &mut last_codes)?;
        return Ok(PlannedCodes {
            codes: more,
            last_codes,
        });
    }
    let codes = all_codes(alloc, source, old, more)?;
    Ok(PlannedCodes { codes, last_codes })
}

/// Reads the codes of a column, and puts more behind them. Of a column without rows there are none, and nothing is copied.
fn all_codes<S: PageSource>(
    alloc: Global,
    source: &mut S,
    fp: &Fp,
    more: Vec<u32>,
) -> Result<Vec<u32>, PageFault>
    ensures long { IfOk result (λ codes. length codes.items ≡ fp.now.slots + length more.items) }
    ensures below { (bound : ℕ) → fp.now.distinct ≤ bound → AreBelow more.items bound → IfOk result (λ codes. AreBelow codes.items bound) }
    ensures codes { IfOk result (λ codes. GoOn fp.now (S.told source.old) more.items codes.items) }
    ensures ends { IfOk result (λ codes. EndsIn more.items codes.items) }
    ensures reads { OnlyReads (pages_for (code_width fp.now.distinct) fp.now.slots) (view S.PageSource source.old) (view S.PageSource source.new) }
    ensures cause { IfErr result (HasReadCause fp.now (view S.PageSource source.old) (view S.PageSource source.new)) }
{
    if fp.slots == 0 {
        return Ok(more);
    }
    let mut codes = row_codes(alloc, source, fp)?;
    codes.extend_from_slice(&more)?;
    Ok(codes)
}
