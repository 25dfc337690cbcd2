//! Values of a column, in the order of its rows.
ghost use Rattle.std.specs.Prelude.{◌≡◌, ◌<◌, ℕ, length, IfOk, IfErr};
ghost use Rattle.iq_pages.specs.PageCalls.{view};
ghost use Rattle.iq_pieces.specs.Codes.{AreBelow};
ghost use Rattle.iq_pieces.specs.Counts.{OnlyReads};
ghost use Rattle.iq_fp.specs.Calls.{AreValuesOf, HasReadCause, all_pages};
ghost use Rattle.iq_fp.specs.Scans.{decoded};

use crate::fp::Fp;
use crate::reading::{known_values, row_codes};
use iq_base::NoMemory;
use iq_cells::Cells;
use iq_pages::{PageFault, PageSource};
use std::alloc::Global;

/// A column that was read: its distinct values, and the code of each row.
#[derive(Drop)]
pub(crate) struct Coded {
    pub known: Cells,
    pub codes: Vec<u32>,
}

impl Fp {
    /// The values of all rows, in their order. It reads each page of the column once, and takes a cell and 4 bytes a row.
    pub fn all_cells<S: PageSource>(
        &self,
        alloc: Global,
        source: &mut S,
    ) -> Result<Cells, PageFault>
        ensures kind { IfOk result (λ cells. cells.kind ≡ self.now.kind) }
        ensures values { IfOk result (λ cells. AreValuesOf self.now (S.told source.old) cells.values) }
        ensures reads { OnlyReads (all_pages self.now) (view S.PageSource source.old) (view S.PageSource source.new) }
        ensures cause { IfErr result (HasReadCause self.now (view S.PageSource source.old) (view S.PageSource source.new)) }
    {
        let coded = read_coded(alloc, source, self)?;
        Ok(expanded(alloc, &coded.known, &coded.codes)?)
    }
}

/// Reads a column, each page of it once.
pub(crate) fn read_coded<S: PageSource>(
    alloc: Global,
    source: &mut S,
    fp: &Fp,
) -> Result<Coded, PageFault>
    ensures kind { IfOk result (λ c. c.known.kind ≡ fp.now.kind) }
    ensures long { IfOk result (λ c. length c.codes.items ≡ fp.now.slots) }
    ensures below { IfOk result (λ c. AreBelow c.codes.items (length c.known.values)) }
    ensures values { IfOk result (λ c. AreValuesOf fp.now (S.told source.old) (decoded c.known.values c.codes.items)) }
    ensures reads { OnlyReads (all_pages fp.now) (view S.PageSource source.old) (view S.PageSource source.new) }
    ensures cause { IfErr result (HasReadCause fp.now (view S.PageSource source.old) (view S.PageSource source.new)) }
{
    let known = known_values(alloc, source, fp)?;
    let codes = row_codes(alloc, source, fp)?;
    Ok(Coded { known, codes })
}

/// The value of each code.
fn expanded(alloc: Global, known: &Cells, codes: &[u32]) -> Result<Cells, NoMemory>
    requires { AreBelow codes.now (length known.now.values) }
    ensures kind { IfOk result (λ cells. cells.kind ≡ known.now.kind) }
    ensures values { IfOk result (λ cells. cells.values ≡ decoded known.now.values codes.now) }
{
    let mut cells = Cells::new(alloc, known.kind());
    for code in codes {
        cells.push_from(known, *code as usize)?;
    }
    Ok(cells)
}
