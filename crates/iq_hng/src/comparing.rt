//! Rows by how their numbers stand to one number.
ghost use Rattle.std.specs.Prelude.{◌≡◌, ◌≤◌, ◌*◌, IfOk, IfErr};
ghost use Rattle.iq_base.specs.declared.sizes.TheConstants.{MOST_PAGES};
ghost use Rattle.iq_pages.specs.PageCalls.{view};
ghost use Rattle.iq_pieces.specs.Counts.{OnlyReads};
ghost use Rattle.iq_chunks.specs.Chunks.{chunks_for};
ghost use Rattle.iq_planes.specs.Planes.{HasPlanesCause};
ghost use Rattle.iq_hng.specs.Slices.{planes_in, AreLong, GivesCompared};

use crate::hng::Hng;
use iq_bitmap::Bitmap;
use iq_pages::{PageFault, PageSource};
use std::alloc::Global;

/// The rows with a lesser number, with the same, and with a greater one; a row with NULL is in none.
#[derive(Debug, Drop)]
pub struct Compared {
    pub less: Bitmap,
    pub equal: Bitmap,
    pub greater: Bitmap,
}

impl Hng {
    /// How all numbers stand to one: the range from it up to it. It reads each page at most once, and takes four bits a row.
    pub fn compare<S: PageSource>(
        &self,
        alloc: Global,
        source: &mut S,
        number: i64,
    ) -> Result<Compared, PageFault>
        requires { planes_in self.now * chunks_for self.now.slots ≤ MOST_PAGES }
        ensures long { IfOk result (AreLong self.now.slots) }
        ensures rows { IfOk result (GivesCompared self.now (S.told source.old) number) }
        ensures reads { OnlyReads (planes_in self.now * chunks_for self.now.slots) (view S.PageSource source.old) (view S.PageSource source.new) }
        ensures cause { IfErr result (HasPlanesCause self.now.object (planes_in self.now) self.now.slots (view S.PageSource source.old) (view S.PageSource source.new)) }
    {
        let ranged = self.range(alloc, source, number, number)?;
        Ok(Compared {
            less: ranged.below,
            equal: ranged.within,
            greater: ranged.above,
        })
    }
}
