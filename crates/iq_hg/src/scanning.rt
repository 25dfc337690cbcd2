//! The rows on a side of a test.
ghost use Rattle.std.specs.Prelude.{◌≡◌, length, IfOk, IfErr};
ghost use Rattle.iq_pages.specs.PageCalls.{view};
ghost use Rattle.iq_pieces.specs.Counts.{OnlyReads};
ghost use Rattle.iq_hg.specs.Bounds.{is_on_side};
ghost use Rattle.iq_hg.specs.Stands.{GivesRows, HasHgCause};

use crate::hg::Hg;
use crate::wanted::Wanted;
use iq_ast::Test;
use iq_bitmap::Bitmap;
use iq_pages::{PageFault, PageSource};
use iq_truth::Side;
use std::alloc::Global;

impl Hg {
    /// The rows on a side of a test of the index's column: those of which it is true, or those of which it is false. A row with NULL is on
    /// neither. It reads each leaf once, and takes a bit a row.
    pub fn scan<S: PageSource>(
        &self,
        alloc: Global,
        source: &mut S,
        test: &Test,
        side: Side,
    ) -> Result<Bitmap, PageFault>
        ensures long { IfOk result (λ bits. length bits ≡ self.now.slots) }
        ensures rows { IfOk result (GivesRows self.now (S.told source.old) (is_on_side side test.now)) }
        ensures reads { OnlyReads (S.counts source.old self.now.leaves) (view S.PageSource source.old) (view S.PageSource source.new) }
        ensures cause { IfErr result (HasHgCause self.now (view S.PageSource source.old) (view S.PageSource source.new)) }
    {
        let wanted = Wanted::OnSide(test, side);
        let count = source.pages(self.leaves);
        if count == 0 {
            return Ok(Bitmap::empty(alloc, self.slots)?);
        }
        self.walk(alloc, source, 0, &wanted)
    }
}
