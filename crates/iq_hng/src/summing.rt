//! Sums of numbers.
ghost use Rattle.std.specs.Prelude.{◌≡◌, ◌<◌, ◌≤◌, ◌*◌, ◌^◌, length, IfOk, IfErr};
ghost use Rattle.iq_base.specs.declared.sizes.TheConstants.{MOST_PAGES};
ghost use Rattle.iq_pages.specs.PageCalls.{view};
ghost use Rattle.iq_pieces.specs.Counts.{OnlyReads};
ghost use Rattle.iq_chunks.specs.Chunks.{chunks_for};
ghost use Rattle.iq_planes.specs.Planes.{HasPlanesCause};
ghost use Rattle.iq_hng.specs.Keys.{bits_of};
ghost use Rattle.iq_hng.specs.Slices.{planes_in};
ghost use Rattle.iq_hng.specs.Sums.{GivesSum, GivesCount, GivesLow};

use crate::hng::Hng;
use iq_bitmap::Bitmap;
use iq_pages::{PageFault, PageSource};
use iq_planes::read_plane;
use std::alloc::Global;

impl Hng {
    /// The sum of the numbers of the rows that are set; a row with NULL adds nothing. It reads each page at most once, and takes a
    /// bit a row.
    pub fn sum<S: PageSource>(
        &self,
        alloc: Global,
        source: &mut S,
        found: &Bitmap,
    ) -> Result<i128, PageFault>
        requires most { planes_in self.now * chunks_for self.now.slots ≤ MOST_PAGES }
        requires long { length found.now ≡ self.now.slots }
        ensures sum { IfOk result (GivesSum self.now (S.told source.old) found.now) }
        ensures reads { OnlyReads (planes_in self.now * chunks_for self.now.slots) (view S.PageSource source.old) (view S.PageSource source.new) }
        ensures cause { IfErr result (HasPlanesCause self.now.object (planes_in self.now) self.now.slots (view S.PageSource source.old) (view S.PageSource source.new)) }
    {
        let some = self.count_in(alloc, source, 0, found)?;
        let lifted = self.lifted_sum(alloc, source, found)?;
        let up = times_power(some, self.width.bits() - 1);
        Ok(lifted as i128 - up as i128)
    }

    /// The sum of the numbers of the rows that are set, each moved up by half.
    fn lifted_sum<S: PageSource>(
        &self,
        alloc: Global,
        source: &mut S,
        found: &Bitmap,
    ) -> Result<u128, PageFault>
        requires most { planes_in self.now * chunks_for self.now.slots ≤ MOST_PAGES }
        requires long { length found.now ≡ self.now.slots }
        ensures sum { IfOk result (GivesLow self.now (S.told source.old) (bits_of self.now.width) found.now) }
        ensures short { IfOk result (λ sum. sum < 2 ^ 96) }
        ensures reads { OnlyReads (bits_of self.now.width * chunks_for self.now.slots) (view S.PageSource source.old) (view S.PageSource source.new) }
        ensures cause { IfErr result (HasPlanesCause self.now.object (planes_in self.now) self.now.slots (view S.PageSource source.old) (view S.PageSource source.new)) }
    {
        let mut sum = 0_u128;
        for bit in 0..self.width.bits() {
            let count = self.count_in(alloc, source, bit + 1, found)?;
            sum += times_power(count, bit);
        }
        Ok(sum)
    }

    /// How many of the rows that are set are in a plane.
    fn count_in<S: PageSource>(
        &self,
        alloc: Global,
        source: &mut S,
        j: u32,
        found: &Bitmap,
    ) -> Result<u32, PageFault>
        requires plane { j < planes_in self.now }
        requires most { planes_in self.now * chunks_for self.now.slots ≤ MOST_PAGES }
        requires long { length found.now ≡ self.now.slots }
        ensures count { IfOk result (GivesCount self.now (S.told source.old) j found.now) }
        ensures reads { OnlyReads (chunks_for self.now.slots) (view S.PageSource source.old) (view S.PageSource source.new) }
        ensures cause { IfErr result (HasPlanesCause self.now.object (planes_in self.now) self.now.slots (view S.PageSource source.old) (view S.PageSource source.new)) }
    {
        let mut plane = read_plane(alloc, source, self.object, self.planes(), self.slots, j)?;
        plane.and_with(found);
        Ok(plane.count())
    }
}

/// A number times two to a power.
fn times_power(number: u32, power: u32) -> u128
    requires { power ≤ 64 }
    ensures value { result ≡ number * 2 ^ power }
    ensures short { result ≤ 4294967295 * 2 ^ power }
    ensures most { result < 2 ^ 96 }
{
    u128::from(number) << power
}
