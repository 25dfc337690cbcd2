//! Walking from leaf to leaf.
ghost use Rattle.std.specs.Prelude.{◌≡◌, ◌<◌, length, IfOk, IfErr};
ghost use Rattle.iq_pages.specs.PageCalls.{view};
ghost use Rattle.iq_pieces.specs.Counts.{OnlyReads};
ghost use Rattle.iq_hg.specs.Stands.{GivesRows, HasHgCause};
ghost use Rattle.iq_hg.specs.Walks.{Starts, ReadsFew, is_chosen};

use crate::hg::Hg;
use crate::marking::mark;
use crate::wanted::Wanted;
use iq_base::width;
use iq_bitmap::Bitmap;
use iq_pages::{PageFault, PageSource};
use std::alloc::Global;

impl Hg {
    /// The rows of the wanted values, from the leaf on a page on, up to the first value behind all that is wanted. It reads each leaf
    /// that it comes to once.
    pub(crate) fn walk<S: PageSource>(
        &self,
        alloc: Global,
        source: &mut S,
        start: u32,
        wanted: &Wanted<'_>,
    ) -> Result<Bitmap, PageFault>
        requires some { 0 < S.counts source.old self.now.leaves }
        requires start { Starts self.now (S.told source.old) wanted.now start }
        ensures long { IfOk result (λ bits. length bits ≡ self.now.slots) }
        ensures rows { IfOk result (GivesRows self.now (S.told source.old) (is_chosen wanted.now)) }
        ensures reads { OnlyReads (S.counts source.old self.now.leaves) (view S.PageSource source.old) (view S.PageSource source.new) }
        ensures few { ReadsFew self.now (S.told source.old) wanted.now 2 (view S.PageSource source.old) (view S.PageSource source.new) }
        ensures cause { IfErr result (HasHgCause self.now (view S.PageSource source.old) (view S.PageSource source.new)) }
    {
        let _width = width(self.kind);
        let mut bits = Bitmap::empty(alloc, self.slots)?;
        let count = source.pages(self.leaves);
        let mut page = start;
        for k in 0..count {
            let leaf = self.leaf(alloc, source, page)?;
            let n = match mark(&leaf.entries, wanted, &mut bits) {
                Some(n) => n,
                None => {
                    return Err(PageFault::BadPage {
                        object: self.leaves,
                        page,
                    });
                }
            };
            if n < leaf.entries.len() || leaf.next == 0 {
                return Ok(bits);
            }
            page = leaf.next - 1;
        }
        Err(PageFault::BadPage {
            object: self.leaves,
            page,
        })
    }
}
