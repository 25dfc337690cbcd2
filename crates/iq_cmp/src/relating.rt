//! Rows by how their two values stand to each other.
ghost use Rattle.std.specs.Prelude.{◌≡◌, ◌<◌, ◌≤◌, ◌*◌, length, IfOk, IfErr};
ghost use Rattle.iq_base.specs.declared.sizes.TheConstants.{MOST_PAGES};
ghost use Rattle.iq_pages.specs.PageCalls.{view};
ghost use Rattle.iq_pieces.specs.Counts.{OnlyReads};
ghost use Rattle.iq_chunks.specs.Chunks.{chunks_for};
ghost use Rattle.iq_truth.specs.declared.truth.Side.TheVariants as sides;
ghost use Rattle.iq_truth.specs.Tests.{negated_op};
ghost use Rattle.iq_planes.specs.Planes.{HasPlanesCause};
ghost use Rattle.iq_cmp.specs.Relations.{ArePairsOn, AreInEither, planes_read};

use crate::cmp::Cmp;
use iq_ast::Op;
use iq_bitmap::Bitmap;
use iq_pages::{PageFault, PageSource};
use iq_planes::read_plane;
use iq_truth::{Side, negated_op};
use std::alloc::Global;

/// The planes by their places: the lesser value in the first column, two equal ones, the greater one.
const LESS: u32 = 0;

const EQUAL: u32 = 1;

const GREATER: u32 = 2;

impl Cmp {
    /// The rows on a side of a comparison of the first column with the second. It reads the pages of one plane or two, each once, and
    /// takes a bit a row and plane.
    pub fn relation<S: PageSource>(
        &self,
        alloc: Global,
        source: &mut S,
        op: Op,
        side: Side,
    ) -> Result<Bitmap, PageFault>
        requires { 3 * chunks_for self.now.slots ≤ MOST_PAGES }
        ensures long { IfOk result (λ bits. length bits ≡ self.now.slots) }
        ensures rows { IfOk result (ArePairsOn self.now (S.told source.old) side op) }
        ensures reads { OnlyReads (2 * chunks_for self.now.slots) (view S.PageSource source.old) (view S.PageSource source.new) }
        ensures cause { IfErr result (HasPlanesCause self.now.object 3 self.now.slots (view S.PageSource source.old) (view S.PageSource source.new)) }
    {
        match side {
            Side::True => self.holds(alloc, source, op),
            Side::False => self.holds(alloc, source, negated_op(op)),
        }
    }

    /// The rows for which a comparison is true.
    fn holds<S: PageSource>(
        &self,
        alloc: Global,
        source: &mut S,
        op: Op,
    ) -> Result<Bitmap, PageFault>
        requires { 3 * chunks_for self.now.slots ≤ MOST_PAGES }
        ensures long { IfOk result (λ bits. length bits ≡ self.now.slots) }
        ensures rows { IfOk result (ArePairsOn self.now (S.told source.old) sides.True op) }
        ensures reads { OnlyReads (planes_read op * chunks_for self.now.slots) (view S.PageSource source.old) (view S.PageSource source.new) }
        ensures cause { IfErr result (HasPlanesCause self.now.object 3 self.now.slots (view S.PageSource source.old) (view S.PageSource source.new)) }
    {
        match op {
            Op::Lt => read_plane(alloc, source, self.object, 3, self.slots, LESS),
            Op::Eq => read_plane(alloc, source, self.object, 3, self.slots, EQUAL),
            Op::Gt => read_plane(alloc, source, self.object, 3, self.slots, GREATER),
            Op::Le => self.in_either(alloc, source, LESS, EQUAL),
            Op::Ne => self.in_either(alloc, source, LESS, GREATER),
            Op::Ge => self.in_either(alloc, source, EQUAL, GREATER),
        }
    }

    /// The rows that are in one of two planes.
    fn in_either<S: PageSource>(
        &self,
        alloc: Global,
        source: &mut S,
        one: u32,
        other: u32,
    ) -> Result<Bitmap, PageFault>
        requires one { one < 3 }
        requires other { other < 3 }
        requires most { 3 * chunks_for self.now.slots ≤ MOST_PAGES }
        ensures long { IfOk result (λ bits. length bits ≡ self.now.slots) }
        ensures rows { IfOk result (AreInEither self.now (S.told source.old) one other) }
        ensures reads { OnlyReads (2 * chunks_for self.now.slots) (view S.PageSource source.old) (view S.PageSource source.new) }
        ensures cause { IfErr result (HasPlanesCause self.now.object 3 self.now.slots (view S.PageSource source.old) (view S.PageSource source.new)) }
    {
        let mut bits = read_plane(alloc, source, self.object, 3, self.slots, one)?;
        let more = read_plane(alloc, source, self.object, 3, self.slots, other)?;
        bits.or_with(&more);
        Ok(bits)
    }
}
