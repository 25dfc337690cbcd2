//! A Compare index, and rows that come behind.
ghost use Rattle.std.specs.Prelude.{◌≡◌, ◌<◌, ◌≤◌, ◌+◌, ◌*◌, ◌^◌, ◌↔◌, length, IsTrue, IfOk, OnOk, OnErr, IfErr};
ghost use Rattle.iq_pages.specs.PageCalls.{view};
ghost use Rattle.iq_pages.specs.Pages.{CountsMore};
ghost use Rattle.iq_pieces.specs.Counts.{CountsUpTo, KeepsOthers};
ghost use Rattle.iq_truth.specs.declared.truth.Side.TheVariants as sides;
ghost use Rattle.iq_planes.specs.Planes.{HasPlanesCause, planes_changed};
ghost use Rattle.iq_cmp.specs.Relations.{pairs_on, planes_of, HasRoom, StandsForMore};

use iq_ast::Op;
use iq_base::{MOST_PAGES, NoMemory};
use iq_bitmap::{Bitmap, CHUNK_ROWS};
use iq_cells::Cells;
use iq_pages::{PageFault, PageSink};
use iq_planes::append;
use iq_truth::{Side, comparison_of};
use std::alloc::Global;

/// The object of a Compare index, and the rows of its table, removed ones too.
#[derive(Clone, Copy, Debug, PartialEq, Eq)]
pub struct Cmp {
    pub object: u32,
    pub slots: u32,
}

impl Cmp {
    /// Whether so many more rows find room.
    pub fn has_room(&self, more: usize) -> bool
        ensures { IsTrue result ↔ HasRoom self.now more }
    {
        let slots = self.slots as usize;
        more <= u32::MAX as usize - slots
            && 3 * (slots + more).div_ceil(CHUNK_ROWS as usize) <= MOST_PAGES as usize
    }

    /// Puts rows behind, with their values in the first column and in the second. The last page of each plane is read where its rows
    /// don't fill it, and each page from the first new row's on is written once. At an `Err` the index is as before, and some of these
    /// may be written.
    pub fn append<S: PageSink>(
        &mut self,
        alloc: Global,
        sink: &mut S,
        first: &Cells,
        second: &Cells,
    ) -> Result<(), PageFault>
        requires long { length first.now.values ≡ length second.now.values }
        requires room { HasRoom self.old (length first.now.values) }
        ensures ok { OnOk result (StandsForMore self.old self.new first.now.values second.now.values (S.told sink.old) (S.told sink.new)) }
        ensures slots { OnOk result (self.new.slots ≡ self.old.slots + length first.now.values) }
        ensures object { self.new.object ≡ self.old.object }
        ensures kept { OnErr result (self.new ≡ self.old) }
        ensures others { KeepsOthers self.old.object (view S.PageSource sink.old) (view S.PageSource sink.new) }
        ensures reads { CountsUpTo 3 (S.reads sink.old) (S.reads sink.new) }
        ensures written { OnOk result (CountsMore (planes_changed 3 self.old.slots (length first.now.values)) (S.writes sink.old) (S.writes sink.new)) }
        ensures unwritten { OnErr result (CountsUpTo (planes_changed 3 self.old.slots (length first.now.values)) (S.writes sink.old) (S.writes sink.new)) }
        ensures later { S.faults sink.old ≤ S.faults sink.new }
        ensures cause { IfErr result (HasPlanesCause self.old.object 3 self.old.slots (view S.PageSource sink.old) (view S.PageSource sink.new)) }
    {
        let n = first.len() as u32;
        let less = pairs(alloc, Op::Lt, first, second)?;
        let equal = pairs(alloc, Op::Eq, first, second)?;
        let greater = pairs(alloc, Op::Gt, first, second)?;
        append(
            alloc,
            sink,
            self.object,
            self.slots,
            n,
            &[less, equal, greater],
        )?;
        self.slots += n;
        Ok(())
    }
}

/// The rows of two columns for which a comparison is true.
fn pairs(alloc: Global, op: Op, first: &Cells, second: &Cells) -> Result<Bitmap, NoMemory>
    requires long { length first.now.values ≡ length second.now.values }
    requires few { length first.now.values < 2 ^ 32 }
    ensures { IfOk result (λ bits. bits ≡ pairs_on sides.True op first.now.values second.now.values) }
{
    let count = first.len() as u32;
    let mut bits = Bitmap::empty(alloc, count)?;
    for row in 0..count {
        let at = row as usize;
        bits.set(
            row,
            Side::True.has(comparison_of(op, first, at, second, at)),
        );
    }
    Ok(bits)
}
