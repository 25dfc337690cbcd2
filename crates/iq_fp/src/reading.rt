//! Reading the distinct values and the codes of a column.
ghost use Rattle.std.specs.Prelude.{◌≡◌, ◌<◌, ◌≤◌, ℕ, length, IfOk, IfErr, OnOk};
ghost use Rattle.iq_base.specs.Cells.{width};
ghost use Rattle.iq_pages.specs.PageCalls.{view};
ghost use Rattle.iq_pieces.specs.Codes.{AreBelow};
ghost use Rattle.iq_pieces.specs.Counts.{pages_for, OnlyReads};
ghost use Rattle.iq_pieces.specs.Faults.{CodesBelow, HasPiecesCause};
ghost use Rattle.iq_fp.specs.Forms.{code_width};
ghost use Rattle.iq_fp.specs.Stands.{HaveCells};
ghost use Rattle.iq_fp.specs.Calls.{AreKnown, AreCodesOf, HasReadCause};

use crate::fp::{Form, Fp, form_of};
use iq_cells::Cells;
use iq_pages::{PageFault, PageSource};
use iq_pieces::{CodeList, read};
use std::alloc::Global;

/// Reads the distinct values of a column, each page of them once.
pub(crate) fn known_values<S: PageSource>(
    alloc: Global,
    source: &mut S,
    fp: &Fp,
) -> Result<Cells, PageFault>
    ensures kind { IfOk result (λ known. known.kind ≡ fp.now.kind) }
    ensures long { IfOk result (λ known. length known.values ≡ fp.now.distinct) }
    ensures cells { IfOk result (λ known. HaveCells known.kind known.values) }
    ensures known { IfOk result (λ known. AreKnown fp.now (S.told source.old) known.values) }
    ensures reads { OnlyReads (pages_for (width fp.now.kind) fp.now.distinct) (view S.PageSource source.old) (view S.PageSource source.new) }
    ensures cause { IfErr result (HasReadCause fp.now (view S.PageSource source.old) (view S.PageSource source.new)) }
{
    let mut known = Cells::new(alloc, fp.kind);
    read(source, fp.values, fp.distinct, &mut known)?;
    have_cells(&known);
    Ok(known)
}

/// Reads the codes of a column, each page of them once. It takes 4 bytes a row.
pub(crate) fn row_codes<S: PageSource>(
    alloc: Global,
    source: &mut S,
    fp: &Fp,
) -> Result<Vec<u32>, PageFault>
    ensures long { IfOk result (λ codes. length codes.items ≡ fp.now.slots) }
    ensures below { IfOk result (λ codes. AreBelow codes.items fp.now.distinct) }
    ensures codes { IfOk result (λ codes. AreCodesOf fp.now (S.told source.old) codes.items) }
    ensures reads { OnlyReads (pages_for (code_width fp.now.distinct) fp.now.slots) (view S.PageSource source.old) (view S.PageSource source.new) }
    ensures cause { IfErr result (HasReadCause fp.now (view S.PageSource source.old) (view S.PageSource source.new)) }
{
    match form_of(fp.distinct) {
        Form::One => codes_of_width::<S, 1>(alloc, source, fp),
        Form::Two => codes_of_width::<S, 2>(alloc, source, fp),
        Form::Three => codes_of_width::<S, 3>(alloc, source, fp),
    }
}

/// Reads codes of W bytes.
fn codes_of_width<S: PageSource, const W: usize>(
    alloc: Global,
    source: &mut S,
    fp: &Fp,
) -> Result<Vec<u32>, PageFault>
    requires narrow { (1 ≤ W) × (W ≤ 3) }
    requires width { W ≡ code_width fp.now.distinct }
    ensures long { IfOk result (λ codes. length codes.items ≡ fp.now.slots) }
    ensures below { IfOk result (λ codes. AreBelow codes.items fp.now.distinct) }
    ensures codes { IfOk result (λ codes. AreCodesOf fp.now (S.told source.old) codes.items) }
    ensures reads { OnlyReads (pages_for W fp.now.slots) (view S.PageSource source.old) (view S.PageSource source.new) }
    ensures cause { IfErr result (HasReadCause fp.now (view S.PageSource source.old) (view S.PageSource source.new)) }
{
    let mut list = CodeList::<W>::new(alloc, fp.distinct);
    read(source, fp.codes, fp.slots, &mut list)?;
    Ok(list.into_codes())
}

/// Nothing: each value of a column has a cell of its kind, which reading the cells tells.
pub(crate) fn have_cells(cells: &Cells)
    ensures { HaveCells cells.now.kind cells.now.values }
{
    for i in 0..cells.len() {
        let _cell = cells.cell(i);
    }
}
