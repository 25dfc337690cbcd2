//! Rows by a range of numbers, in one pass.
ghost use Rattle.std.specs.Prelude.{◌≡◌, ◌<◌, ◌≤◌, ◌*◌, ◌^◌, length, cond, false, replicate, IfOk, IfErr};
ghost use Rattle.iq_base.specs.declared.sizes.TheConstants.{MOST_PAGES};
ghost use Rattle.iq_pages.specs.PageCalls.{view};
ghost use Rattle.iq_pieces.specs.Counts.{OnlyReads};
ghost use Rattle.iq_chunks.specs.Chunks.{chunks_for};
ghost use Rattle.iq_planes.specs.Planes.{HasPlanesCause};
ghost use Rattle.iq_hng.specs.Keys.{bits_of};
ghost use Rattle.iq_hng.specs.Slices.{planes_in};
ghost use Rattle.iq_hng.specs.Ranges.{AreAllLong, AreCutLong, GivesRanged, GoesUp, past_first};

use crate::edges::Edge;
use crate::hng::Hng;
use iq_base::NoMemory;
use iq_bitmap::Bitmap;
use iq_pages::{PageFault, PageSource};
use iq_planes::read_plane;
use std::alloc::Global;

/// The rows with a number below a range, within it, and above it; a row with NULL is in none. Where the range ends before it begins
/// no row is within, and one can be both below its begin and above its end.
#[derive(Debug, Drop)]
pub struct Ranged {
    pub below: Bitmap,
    pub within: Bitmap,
    pub above: Bitmap,
}

/// The rows past the begin of a range, and past its end.
#[derive(Debug, Drop)]
pub(crate) struct Cut {
    pub(crate) begin: Bitmap,
    pub(crate) end: Bitmap,
}

impl Hng {
    /// How all numbers stand to those from `low` up to `high`. It reads each page at most once, those of bits only where these tell
    /// something, and takes four bits a row.
    pub fn range<S: PageSource>(
        &self,
        alloc: Global,
        source: &mut S,
        low: i64,
        high: i64,
    ) -> Result<Ranged, PageFault>
        requires { planes_in self.now * chunks_for self.now.slots ≤ MOST_PAGES }
        ensures long { IfOk result (AreAllLong self.now.slots) }
        ensures rows { IfOk result (GivesRanged self.now (S.told source.old) low high) }
        ensures reads { OnlyReads (planes_in self.now * chunks_for self.now.slots) (view S.PageSource source.old) (view S.PageSource source.new) }
        ensures cause { IfErr result (HasPlanesCause self.now.object (planes_in self.now) self.now.slots (view S.PageSource source.old) (view S.PageSource source.new)) }
    {
        let begin = Edge::of(self.width, low, true);
        let end = Edge::of(self.width, high, false);
        let mut below = read_plane(alloc, source, self.object, self.planes(), self.slots, 0)?;
        let first = Cut {
            begin: first_rows(alloc, begin, &below)?,
            end: first_rows(alloc, end, &below)?,
        };
        let cut = self.cut(alloc, source, begin, end, first)?;
        below.without(&cut.begin);
        let mut within = cut.begin;
        within.without(&cut.end);
        Ok(Ranged {
            below,
            within,
            above: cut.end,
        })
    }

    /// Takes the rows past two edges from no bit to all bits, the lowest bit first.
    fn cut<S: PageSource>(
        &self,
        alloc: Global,
        source: &mut S,
        begin: Edge,
        end: Edge,
        mut cut: Cut,
    ) -> Result<Cut, PageFault>
        requires most { planes_in self.now * chunks_for self.now.slots ≤ MOST_PAGES }
        requires long { AreCutLong self.now.slots cut }
        ensures long { IfOk result (AreCutLong self.now.slots) }
        ensures rows { IfOk result (GoesUp self.now (S.told source.old) begin end (bits_of self.now.width) cut) }
        ensures reads { OnlyReads (bits_of self.now.width * chunks_for self.now.slots) (view S.PageSource source.old) (view S.PageSource source.new) }
        ensures cause { IfErr result (HasPlanesCause self.now.object (planes_in self.now) self.now.slots (view S.PageSource source.old) (view S.PageSource source.new)) }
    {
        if begin.is_end(self.width) && end.is_end(self.width) {
            return Ok(cut);
        }
        for j in 0..self.width.bits() {
            let plane = read_plane(alloc, source, self.object, self.planes(), self.slots, j + 1)?;
            begin.narrow(j, &plane, &mut cut.begin);
            end.narrow(j, &plane, &mut cut.end);
        }
        Ok(cut)
    }
}

/// The rows past an edge by no bit: each row with a number where the edge takes its own key too, and else none.
fn first_rows(alloc: Global, edge: Edge, some: &Bitmap) -> Result<Bitmap, NoMemory>
    ensures rows { IfOk result (λ rows. rows ≡ past_first edge.also some.now) }
    ensures long { IfOk result (λ rows. length rows ≡ length some.now) }
{
    if edge.also {
        some.copied()
    } else {
        Bitmap::empty(alloc, some.len())
    }
}
