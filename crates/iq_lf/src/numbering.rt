//! Numbering new values behind NULL and the distinct ones.
ghost use Rattle.std.specs.Prelude.{◌≡◌, ◌<◌, ◌≤◌, ◌+◌, ◌*◌, ◌/◌, ◌^◌, ◌∷◌, ℕ, length, IfOk, OnOk, IfErr};
ghost use Rattle.iq_base.specs.Cells.{width};
ghost use Rattle.iq_pages.specs.PageCalls.{view};
ghost use Rattle.iq_pieces.specs.Codes.{AreBelow};
ghost use Rattle.iq_pieces.specs.Counts.{per_page, pages_for, OnlyReads};
ghost use Rattle.iq_lf.specs.declared.lf.TheConstants.{MOST_DISTINCT};
ghost use Rattle.iq_base.specs.declared.values.Value.TheVariants.{Null};
ghost use Rattle.iq_pages.specs.declared.page_faults.PageFault.TheVariants.{BadPage};
ghost use Rattle.iq_numbering.specs.Numbers.{AreDistinct};
ghost use Rattle.iq_lf.specs.Calls.{AreNumbered, HasAppendCause, HasRepeatCause};

use crate::known::{first_repeat, have_cells, last_page, read_known, with_null};
use crate::lf::{Lf, LfFault, MOST_DISTINCT};
use iq_base::{PAGE_BYTES, Page};
use iq_cells::Cells;
use iq_numbering::{new_values, number};
use iq_pages::{PageFault, PageSource};
use std::alloc::Global;

/// New values with their codes, 0 for NULL and v + 1 for distinct value v; the distinct ones of them that weren't there before; and a page
/// that begins as the last one of those that were.
#[derive(Drop)]
pub(crate) struct Numbering {
    pub codes: Vec<u32>,
    pub fresh: Cells,
    pub last: Page,
}

impl Lf {
    /// Numbers values behind the distinct ones, which it reads. An object that lacks a page behind which more are to be written is
    /// answered here, and one in which a value stands twice.
    pub(crate) fn numbering<S: PageSource>(
        &self,
        alloc: Global,
        source: &mut S,
        cells: &Cells,
    ) -> Result<Numbering, LfFault>
        requires kind { cells.now.kind ≡ self.now.kind }
        requires few { self.now.distinct + length cells.now.values + 1 < 2 ^ 32 }
        ensures kind { IfOk result (λ n. n.fresh.kind ≡ self.now.kind) }
        ensures long { IfOk result (λ n. length n.codes.items ≡ length cells.now.values) }
        ensures few { IfOk result (λ n. self.now.distinct + length n.fresh.values ≤ MOST_DISTINCT) }
        ensures below { IfOk result (λ n. AreBelow n.codes.items (self.now.distinct + length n.fresh.values + 1)) }
        ensures numbered { IfOk result (λ n. AreNumbered self.now (S.told source.old) cells.now.values n.fresh.values n.codes.items n.last) }
        ensures reached { OnOk result (self.now.distinct / per_page (width self.now.kind) ≤ S.counts source.old self.now.first) }
        ensures reads { OnlyReads (pages_for (width self.now.kind) self.now.distinct) (view S.PageSource source.old) (view S.PageSource source.new) }
        ensures cause { IfErr result (HasAppendCause self.now cells.now.values (view S.PageSource source.old) (view S.PageSource source.new)) }
    {
        let read = read_known(alloc, source, self)?;
        let last = last_page(&read);
        let per = PAGE_BYTES / iq_base::width(self.kind);
        let have = source.pages(self.first);
        if (have as usize) < read.len() / per {
            return Err(LfFault::Page(self.bad_first(have)));
        }
        let known = self.with_null(alloc, &read)?;
        let numbered = number(alloc, &known, cells)?;
        if read.len() + numbered.new > MOST_DISTINCT {
            return Err(LfFault::TooManyDistinct);
        }
        let codes = numbered.codes;
        let fresh = new_values(alloc, known.len(), numbered.new, cells, &codes)?;
        have_cells(&fresh);
        Ok(Numbering { codes, fresh, last })
    }

    /// NULL, and the distinct values behind it, which are bad where one stands twice.
    fn with_null(&self, alloc: Global, read: &Cells) -> Result<Cells, PageFault>
        requires { length read.now.values + 1 < 2 ^ 32 }
        ensures kind { IfOk result (λ known. known.kind ≡ read.now.kind) }
        ensures values { IfOk result (λ known. known.values ≡ Null ∷ read.now.values) }
        ensures distinct { IfOk result (λ known. AreDistinct known.values) }
        ensures cause { IfErr result (HasRepeatCause self.now.first read.now.values) }
    {
        let known = with_null(alloc, read)?;
        match first_repeat(alloc, &known)? {
            None => Ok(known),
            Some(_) => Err(self.bad_first(0)),
        }
    }

    /// A fault at a page of distinct values.
    fn bad_first(&self, page: u32) -> PageFault
        ensures { result ≡ BadPage self.now.first page }
    {
        PageFault::BadPage {
            object: self.first,
            page,
        }
    }
}
