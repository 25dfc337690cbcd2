//! A High Non Group index, and rows that come behind.
ghost use Rattle.std.specs.Prelude.{◌≡◌, ◌<◌, ◌≤◌, ◌+◌, ◌*◌, ◌^◌, ◌↔◌, length, IsTrue, OnOk, OnErr, IfErr};
ghost use Rattle.iq_pages.specs.PageCalls.{view};
ghost use Rattle.iq_pages.specs.Pages.{CountsMore};
ghost use Rattle.iq_pieces.specs.Counts.{CountsUpTo, KeepsOthers};
ghost use Rattle.iq_planes.specs.Planes.{HasPlanesCause, planes_changed};
ghost use Rattle.iq_hng.specs.Keys.{bits_of, kind_of};
ghost use Rattle.iq_hng.specs.Slices.{planes_in, HasRoom, StandsForMore};

use crate::planes::planes;
use iq_base::{Kind, MOST_PAGES};
use iq_bitmap::CHUNK_ROWS;
use iq_cells::Cells;
use iq_pages::{PageFault, PageSink};
use iq_planes::append;
use std::alloc::Global;

/// How wide the numbers of a column are.
#[derive(Clone, Copy, Debug, PartialEq, Eq)]
pub enum Width {
    /// 32 bits.
    Int,
    /// 64 bits.
    Big,
}

impl Width {
    /// The kind of the column.
    pub fn kind(self) -> Kind
        ensures { result ≡ kind_of self }
    {
        match self {
            Width::Int => Kind::Int,
            Width::Big => Kind::Big,
        }
    }

    /// The bits of a number.
    pub fn bits(self) -> u32
        ensures { result ≡ bits_of self }
    {
        match self {
            Width::Int => 32,
            Width::Big => 64,
        }
    }
}

/// The object of a High Non Group index, the rows of its table, removed ones too, and how wide their numbers are.
#[derive(Clone, Copy, Debug, PartialEq, Eq)]
pub struct Hng {
    pub object: u32,
    pub slots: u32,
    pub width: Width,
}

impl Hng {
    /// How many planes there are: one tells which rows have a number, and one more each bit of it.
    pub(crate) fn planes(&self) -> u32
        ensures { result ≡ planes_in self.now }
    {
        self.width.bits() + 1
    }

    /// Whether so many more rows find room.
    pub fn has_room(&self, more: usize) -> bool
        ensures { IsTrue result ↔ HasRoom self.now more }
    {
        let slots = self.slots as usize;
        more <= u32::MAX as usize - slots
            && self.planes() as usize * (slots + more).div_ceil(CHUNK_ROWS as usize)
                <= MOST_PAGES as usize
    }

    /// Puts rows with these numbers behind. The last page of each plane is read where its rows don't fill it, and each page from the
    /// first new row's on is written once. At an `Err` the index is as before, and some of these may be written.
    pub fn append<S: PageSink>(
        &mut self,
        alloc: Global,
        sink: &mut S,
        numbers: &Cells,
    ) -> Result<(), PageFault>
        requires kind { numbers.now.kind ≡ kind_of self.old.width }
        requires room { HasRoom self.old (length numbers.now.values) }
        ensures ok { OnOk result (StandsForMore self.old self.new numbers.now.values (S.told sink.old) (S.told sink.new)) }
        ensures slots { OnOk result (self.new.slots ≡ self.old.slots + length numbers.now.values) }
        ensures object { self.new.object ≡ self.old.object }
        ensures width { self.new.width ≡ self.old.width }
        ensures kept { OnErr result (self.new ≡ self.old) }
        ensures others { KeepsOthers self.old.object (view S.PageSource sink.old) (view S.PageSource sink.new) }
        ensures reads { CountsUpTo (planes_in self.old) (S.reads sink.old) (S.reads sink.new) }
        ensures written { OnOk result (CountsMore (planes_changed (planes_in self.old) self.old.slots (length numbers.now.values)) (S.writes sink.old) (S.writes sink.new)) }
        ensures unwritten { OnErr result (CountsUpTo (planes_changed (planes_in self.old) self.old.slots (length numbers.now.values)) (S.writes sink.old) (S.writes sink.new)) }
        ensures later { S.faults sink.old ≤ S.faults sink.new }
        ensures cause { IfErr result (HasPlanesCause self.old.object (planes_in self.old) self.old.slots (view S.PageSource sink.old) (view S.PageSource sink.new)) }
    {
        let n = numbers.len() as u32;
        let more = planes(alloc, self.width, numbers)?;
        append(alloc, sink, self.object, self.slots, n, more.as_slice())?;
        self.slots += n;
        Ok(())
    }
}
