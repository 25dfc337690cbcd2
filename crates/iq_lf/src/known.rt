//! The distinct values of an index.
ghost use Rattle.std.specs.Prelude.{◌≡◌, ◌<◌, ◌≤◌, ◌+◌, ◌/◌, ◌^◌, ◌∷◌, ℕ, length, map, IfOk, OnOk, IfErr};
ghost use Rattle.iq_base.specs.Cells.{width, cell};
ghost use Rattle.iq_base.specs.declared.values.Value.TheVariants.{Null};
ghost use Rattle.iq_pages.specs.PageCalls.{view};
ghost use Rattle.iq_pieces.specs.Counts.{per_page, pages_for, OnlyReads};
ghost use Rattle.iq_pieces.specs.Objects.{BeginsAs};
ghost use Rattle.iq_fp.specs.Stands.{HaveCells};
ghost use Rattle.iq_fp.specs.Calls.{IsRepeat};
ghost use Rattle.iq_lf.specs.Calls.{AreKnown, HasLfCause};

use crate::lf::Lf;
use indexmap::IndexSet;
use iq_base::{NoMemory, PAGE_BYTES, Page};
use iq_cells::Cells;
use iq_numbering::CellKey;
use iq_pages::{PageFault, PageSource};
use iq_pieces::read;
use std::alloc::Global;

/// Reads the distinct values of an index, each page of them once.
pub(crate) fn read_known<S: PageSource>(
    alloc: Global,
    source: &mut S,
    lf: &Lf,
) -> Result<Cells, PageFault>
    ensures kind { IfOk result (λ known. known.kind ≡ lf.now.kind) }
    ensures long { IfOk result (λ known. length known.values ≡ lf.now.distinct) }
    ensures cells { IfOk result (λ known. HaveCells known.kind known.values) }
    ensures known { IfOk result (λ known. AreKnown lf.now (S.told source.old) known.values) }
    ensures reads { OnlyReads (pages_for (width lf.now.kind) lf.now.distinct) (view S.PageSource source.old) (view S.PageSource source.new) }
    ensures cause { IfErr result (HasLfCause lf.now (view S.PageSource source.old) (view S.PageSource source.new)) }
{
    let _width = iq_base::width(lf.kind);
    let mut known = Cells::new(alloc, lf.kind);
    read(source, lf.first, lf.distinct, &mut known)?;
    have_cells(&known);
    Ok(known)
}

/// Nothing: each value of a column has a cell of its kind, which reading the cells tells.
pub(crate) fn have_cells(cells: &Cells)
    ensures { HaveCells cells.now.kind cells.now.values }
{
    for i in 0..cells.len() {
        let _cell = cells.cell(i);
    }
}

/// NULL, and the distinct values behind it.
pub(crate) fn with_null(alloc: Global, known: &Cells) -> Result<Cells, NoMemory>
    requires { length known.now.values + 1 < 2 ^ 32 }
    ensures kind { IfOk result (λ all. all.kind ≡ known.now.kind) }
    ensures values { IfOk result (λ all. all.values ≡ Null ∷ known.now.values) }
{
    let mut all = Cells::with_room(alloc, known.kind(), known.len() + 1)?;
    all.push_null()?;
    for i in 0..known.len() {
        all.push_from(known, i)?;
    }
    Ok(all)
}

/// The place of the first value that stands before it too. It hashes each value once.
pub(crate) fn first_repeat(alloc: Global, cells: &Cells) -> Result<Option<usize>, NoMemory>
    ensures { IfOk result (IsRepeat cells.now.values) }
{
    let mut keys = IndexSet::with_capacity(alloc, cells.len())?;
    for i in 0..cells.len() {
        let (_, added) = keys.insert_full(CellKey::of(cells.cell(i)))?;
        if !added {
            return Ok(Some(i));
        }
    }
    Ok(None)
}

/// A page that begins as the last one of distinct values, where they don't fill it.
pub(crate) fn last_page(known: &Cells) -> Page
    ensures { BeginsAs (width known.now.kind) (length known.now.values) result (map (cell known.now.kind) known.now.values) }
{
    let per = PAGE_BYTES / iq_base::width(known.kind());
    let count = known.len();
    let first = count % per;
    let mut last = [0; PAGE_BYTES];
    known.put_in_page(count - first, first, &mut last, 0);
    last
}
