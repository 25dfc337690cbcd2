//! Searching the directory.
ghost use Rattle.std.specs.Prelude.{◌≡◌, ◌<◌, ◌≤◌, ◌+◌, ◌^◌, ℕ, true, false, length, take, IfOk, IfErr};
ghost use Rattle.std.specs.List.{All};
ghost use Rattle.iq_pages.specs.PageCalls.{view};
ghost use Rattle.iq_pieces.specs.Counts.{OnlyReads};
ghost use Rattle.iq_hg.specs.Bounds.{is_under};
ghost use Rattle.iq_hg.specs.Places.{place_at};
ghost use Rattle.iq_hg.specs.Stands.{HasHgCause};
ghost use Rattle.iq_hg.specs.Search.{BeginsUnder, IsEdge, StartsUnder};

use crate::hg::Hg;
use crate::places::Place;
use crate::wanting::is_under;
use iq_ast::Bound;
use iq_base::width;
use iq_pages::{PageFault, PageSource};
use std::alloc::Global;

impl Hg {
    /// Whether a page of the directory begins with a value that stands before that of a lower bound. It costs one read.
    fn begins_under<S: PageSource>(
        &self,
        alloc: Global,
        source: &mut S,
        p: u32,
        low: &Bound,
    ) -> Result<bool, PageFault>
        requires { p < S.counts source.old self.now.directory }
        ensures ok { IfOk result (λ under. BeginsUnder self.now (S.told source.old) low.now p under) }
        ensures reads { OnlyReads 1 (view S.PageSource source.old) (view S.PageSource source.new) }
        ensures cause { IfErr result (HasHgCause self.now (view S.PageSource source.old) (view S.PageSource source.new)) }
    {
        let _width = width(self.kind);
        let _count = source.pages(self.directory);
        let places = self.places(alloc, source, p)?;
        if places.len() == 0 {
            return Err(PageFault::BadPage {
                object: self.directory,
                page: p,
            });
        }
        Ok(is_under(low, &places[0].first.value))
    }

    /// How many pages of the directory begin with a value that stands before that of a lower bound. It reads a page for each halving.
    fn pages_under<S: PageSource>(
        &self,
        alloc: Global,
        source: &mut S,
        low: &Bound,
    ) -> Result<u32, PageFault>
        ensures edge { IfOk result (λ p. IsEdge self.now (S.told source.old) low.now (S.counts source.old self.now.directory) p) }
        ensures within { IfOk result (λ p. p ≤ S.counts source.old self.now.directory) }
        ensures reads { (k : ℕ) → S.counts source.old self.now.directory < 2 ^ k → OnlyReads k (view S.PageSource source.old) (view S.PageSource source.new) }
        ensures cause { IfErr result (HasHgCause self.now (view S.PageSource source.old) (view S.PageSource source.new)) }
    {
        let mut from = 0;
        let mut to = source.pages(self.directory);
        'halves: while from < to {
            let middle = from + (to - from) / 2;
            if self.begins_under(alloc, source, middle, low)? {
                from = middle + 1;
            } else {
                to = middle;
            }
        }
        Ok(from)
    }

    /// The page of the last leaf that begins with a value that stands before that of a lower bound; where there is none, page 0, which is
    /// the first leaf's.
    pub(crate) fn start<S: PageSource>(
        &self,
        alloc: Global,
        source: &mut S,
        low: &Bound,
    ) -> Result<u32, PageFault>
        ensures start { IfOk result (λ page. StartsUnder self.now (S.told source.old) low.now page) }
        ensures reads { (k : ℕ) → S.counts source.old self.now.directory < 2 ^ k → OnlyReads (k + 1) (view S.PageSource source.old) (view S.PageSource source.new) }
        ensures cause { IfErr result (HasHgCause self.now (view S.PageSource source.old) (view S.PageSource source.new)) }
    {
        let _width = width(self.kind);
        let _count = source.pages(self.directory);
        let p = self.pages_under(alloc, source, low)?;
        if p == 0 {
            return Ok(0);
        }
        let places = self.places(alloc, source, p - 1)?;
        let n = count_under(&places, low);
        if n == 0 {
            return Err(PageFault::BadPage {
                object: self.directory,
                page: p - 1,
            });
        }
        Ok(places[n - 1].page)
    }
}

/// How many places, from the first on, begin with a value that stands before that of a lower bound.
fn count_under(places: &[Place], low: &Bound) -> usize
    ensures within { result ≤ length places.now }
    ensures under { All (λ place. is_under low.now place.first.value ≡ true) (take result places.now) }
    ensures next { result < length places.now → is_under low.now (place_at result places.now).first.value ≡ false }
{
    for i in 0..places.len() {
        if !is_under(low, &places[i].first.value) {
            return i;
        }
    }
    places.len()
}
