//! One leaf, and one page of the directory.
ghost use Rattle.std.specs.Prelude.{◌≡◌, ◌<◌, IfOk, IfErr};
ghost use Rattle.iq_pages.specs.PageCalls.{view};
ghost use Rattle.iq_pieces.specs.Counts.{OnlyReads};
ghost use Rattle.iq_hg.specs.Stands.{GivesLeaf, GivesPlaces, HasLeafCause, HasHgCause};

use crate::directory_pages::read_places;
use crate::hg::Hg;
use crate::places::Place;
use iq_base::PAGE_BYTES;
use iq_hg_leaves::{LeafPage, read_leaf};
use iq_pages::{PageFault, PageSource};
use iq_pieces::read_page;
use std::alloc::Global;

impl Hg {
    /// The leaf on a page. It costs one read.
    pub(crate) fn leaf<S: PageSource>(
        &self,
        alloc: Global,
        source: &mut S,
        page: u32,
    ) -> Result<LeafPage, PageFault>
        ensures leaf { IfOk result (λ leaf. GivesLeaf self.now (S.told source.old) page leaf.next leaf.entries.entries) }
        ensures kind { IfOk result (λ leaf. leaf.entries.kind ≡ self.now.kind) }
        ensures reads { OnlyReads 1 (view S.PageSource source.old) (view S.PageSource source.new) }
        ensures cause { IfErr result (HasLeafCause self.now page (view S.PageSource source.old) (view S.PageSource source.new)) }
    {
        let mut bytes = [0; PAGE_BYTES];
        read_page(source, self.leaves, page, &mut bytes)?;
        let read = read_leaf(alloc, self.kind, &bytes)?;
        match read {
            Some(leaf) => Ok(leaf),
            None => Err(PageFault::BadPage {
                object: self.leaves,
                page,
            }),
        }
    }

    /// The places on a page of the directory. It costs one read.
    pub(crate) fn places<S: PageSource>(
        &self,
        alloc: Global,
        source: &mut S,
        p: u32,
    ) -> Result<Vec<Place>, PageFault>
        requires { p < S.counts source.old self.now.directory }
        ensures places { IfOk result (λ places. GivesPlaces self.now (S.told source.old) p places.items) }
        ensures reads { OnlyReads 1 (view S.PageSource source.old) (view S.PageSource source.new) }
        ensures cause { IfErr result (HasHgCause self.now (view S.PageSource source.old) (view S.PageSource source.new)) }
    {
        let _count = source.pages(self.directory);
        let mut bytes = [0; PAGE_BYTES];
        read_page(source, self.directory, p, &mut bytes)?;
        let read = read_places(alloc, self.kind, &bytes)?;
        match read {
            Some(places) => Ok(places),
            None => Err(PageFault::BadPage {
                object: self.directory,
                page: p,
            }),
        }
    }
}
