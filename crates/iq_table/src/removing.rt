//! Removing rows of a table.
ghost use Rattle.std.specs.Prelude.{◌≡◌, ◌<◌, ◌≤◌, false, length, replicate, count_by, OnOk, OnErr, IfOk, IfErr};
ghost use Rattle.iq_pages.specs.PageCalls.{view};
ghost use Rattle.iq_pages.specs.Pages.{CountsMore};
ghost use Rattle.iq_pieces.specs.Counts.{CountsUpTo, KeepsOthers};
ghost use Rattle.iq_chunks.specs.Chunks.{chunks_hit, HasBitsCause};
ghost use Rattle.iq_table.specs.Places.{existence_of};
ghost use Rattle.iq_table.specs.Table.{StandsWithout};

use crate::places::existence_of;
use crate::table::Table;
use iq_bitmap::Bitmap;
use iq_chunks::clear_bits;
use iq_pages::{PageFault, PageSink};
use std::alloc::Global;

impl Table {
    /// Removes the rows that were found, and gives how many these are. Only pages of existence with such a row are touched, each
    /// read and written once; the rows keep their slots, and the columns their values. After an `Err` some of the pages may be
    /// written. Where none was found nothing is touched.
    pub fn delete_rows<S: PageSink>(
        &self,
        alloc: Global,
        sink: &mut S,
        found: &Bitmap,
    ) -> Result<u32, PageFault>
        requires place { self.now.place < 64 }
        requires long { length found.now ≡ self.now.parts.slots }
        ensures ok { OnOk result (StandsWithout self.now found.now (S.told sink.old) (S.told sink.new)) }
        ensures count { IfOk result (λ count. count ≡ count_by (λ on. on) found.now) }
        ensures others { KeepsOthers (existence_of self.now.place) (view S.PageSource sink.old) (view S.PageSource sink.new) }
        ensures none { found.now ≡ replicate (length found.now) false → sink.new ≡ sink.old }
        ensures reads { CountsUpTo (chunks_hit found.now) (S.reads sink.old) (S.reads sink.new) }
        ensures written { OnOk result (CountsMore (chunks_hit found.now) (S.writes sink.old) (S.writes sink.new)) }
        ensures unwritten { OnErr result (CountsUpTo (chunks_hit found.now) (S.writes sink.old) (S.writes sink.new)) }
        ensures later { S.faults sink.old ≤ S.faults sink.new }
        ensures cause { IfErr result (HasBitsCause (existence_of self.now.place) self.now.parts.slots (view S.PageSource sink.old) (view S.PageSource sink.new)) }
    {
        if found.has_none() {
            return Ok(0);
        }
        clear_bits(alloc, sink, existence_of(self.place), found)?;
        Ok(found.count())
    }
}
