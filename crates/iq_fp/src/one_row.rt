//! The value of one row of a column.
ghost use Rattle.std.specs.Prelude.{◌≡◌, ◌<◌, ◌≤◌, ℕ, IfOk, IfErr};
ghost use Rattle.iq_pages.specs.PageCalls.{view};
ghost use Rattle.iq_pieces.specs.Counts.{OnlyReads};
ghost use Rattle.iq_fp.specs.Forms.{code_width};
ghost use Rattle.iq_fp.specs.Calls.{IsValueOf, HasReadCause};
ghost use Rattle.iq_fp.specs.Scans.{IsCodeOf, IsKnownAt};

use crate::fp::{Form, Fp, form_of};
use iq_base::{PAGE_BYTES, Value, width};
use iq_cells::{code_at, value_in_page};
use iq_pages::{PageFault, PageSource};
use iq_pieces::read_page;

impl Fp {
    /// The value of a row, which is below the number of rows. It reads a page of codes and a page of values, and takes no memory.
    pub fn value<S: PageSource>(&self, source: &mut S, row: u32) -> Result<Value, PageFault>
        requires { row < self.now.slots }
        ensures value { IfOk result (IsValueOf self.now (S.told source.old) row) }
        ensures reads { OnlyReads 2 (view S.PageSource source.old) (view S.PageSource source.new) }
        ensures cause { IfErr result (HasReadCause self.now (view S.PageSource source.old) (view S.PageSource source.new)) }
    {
        let code = code_of(source, self, row)?;
        known_value(source, self, code)
    }
}

/// The code of a row.
fn code_of<S: PageSource>(source: &mut S, fp: &Fp, row: u32) -> Result<u32, PageFault>
    requires { row < fp.now.slots }
    ensures below { IfOk result (λ code. code < fp.now.distinct) }
    ensures code { IfOk result (IsCodeOf fp.now (S.told source.old) row) }
    ensures reads { OnlyReads 1 (view S.PageSource source.old) (view S.PageSource source.new) }
    ensures cause { IfErr result (HasReadCause fp.now (view S.PageSource source.old) (view S.PageSource source.new)) }
{
    match form_of(fp.distinct) {
        Form::One => code_of_width::<S, 1>(source, fp, row),
        Form::Two => code_of_width::<S, 2>(source, fp, row),
        Form::Three => code_of_width::<S, 3>(source, fp, row),
    }
}

/// The code of a row, of W bytes.
fn code_of_width<S: PageSource, const W: usize>(
    source: &mut S,
    fp: &Fp,
    row: u32,
) -> Result<u32, PageFault>
    requires narrow { (1 ≤ W) × (W ≤ 3) }
    requires width { W ≡ code_width fp.now.distinct }
    requires within { row < fp.now.slots }
    ensures below { IfOk result (λ code. code < fp.now.distinct) }
    ensures code { IfOk result (IsCodeOf fp.now (S.told source.old) row) }
    ensures reads { OnlyReads 1 (view S.PageSource source.old) (view S.PageSource source.new) }
    ensures cause { IfErr result (HasReadCause fp.now (view S.PageSource source.old) (view S.PageSource source.new)) }
{
    let per = PAGE_BYTES / W;
    let p = row as usize / per;
    let mut page = [0; PAGE_BYTES];
    read_page(source, fp.codes, p as u32, &mut page)?;
    let code = code_at::<W>(&page, row as usize % per);
    if code >= fp.distinct {
        return Err(PageFault::BadPage {
            object: fp.codes,
            page: p as u32,
        });
    }
    Ok(code)
}

/// The distinct value of a code.
fn known_value<S: PageSource>(source: &mut S, fp: &Fp, code: u32) -> Result<Value, PageFault>
    requires { code < fp.now.distinct }
    ensures value { IfOk result (IsKnownAt fp.now (S.told source.old) code) }
    ensures reads { OnlyReads 1 (view S.PageSource source.old) (view S.PageSource source.new) }
    ensures cause { IfErr result (HasReadCause fp.now (view S.PageSource source.old) (view S.PageSource source.new)) }
{
    let per = PAGE_BYTES / width(fp.kind);
    let p = code as usize / per;
    let mut page = [0; PAGE_BYTES];
    read_page(source, fp.values, p as u32, &mut page)?;
    match value_in_page(fp.kind, &page, code as usize % per) {
        Ok(value) => Ok(value),
        Err(_) => Err(PageFault::BadPage {
            object: fp.values,
            page: p as u32,
        }),
    }
}
