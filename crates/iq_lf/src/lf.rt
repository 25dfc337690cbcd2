//! What is kept of an index beside its pages.
ghost use Rattle.std.specs.Prelude.{◌≡◌, ◌<◌, ◌≤◌, ◌^◌, ◌↔◌, IsTrue};
ghost use Rattle.iq_lf.specs.Stands.{HasRoom};

use iq_base::{Kind, NoMemory};
use iq_pages::PageFault;

/// How many chunks of 8,064 rows an index has at most; each distinct value has an entry for each of so many.
pub const MOST_CHUNKS: usize = 33;

/// How many distinct values, NULL left out, an index has at most.
pub const MOST_DISTINCT: usize = 1000;

/// How many rows an index has at most.
pub const MOST_ROWS: usize = 262_144;

/// A Low Fast index: the numbers of its three objects, what its column holds beside NULL, how many rows this has, removed ones too, and
/// how many distinct values other than NULL these had since the index was made.
#[derive(Clone, Copy, Debug, PartialEq, Eq)]
pub struct Lf {
    pub first: u32,
    pub second: u32,
    pub third: u32,
    pub kind: Kind,
    pub slots: u32,
    pub distinct: u32,
}

impl Lf {
    /// Whether so many more rows find room.
    pub fn has_room(&self, more: usize) -> bool
        ensures { IsTrue result ↔ HasRoom self.now more }
    {
        self.first != self.second
            && self.second != self.third
            && self.first != self.third
            && more <= MOST_ROWS
            && self.slots as usize + more <= MOST_ROWS
            && self.distinct as usize <= MOST_DISTINCT
    }
}

/// Why an index isn't appended to.
#[derive(Clone, Copy, Debug, PartialEq, Eq)]
pub enum LfFault {
    /// A page isn't read or written.
    Page(PageFault),
    /// There would be more than 1,000 distinct values other than NULL.
    TooManyDistinct,
}

impl From<PageFault> for LfFault {
    ghost use Rattle.std.specs.Prelude.{◌≡◌};
    ghost use Rattle.iq_lf.specs.declared.lf.LfFault.TheVariants as faults;

    ghost from_gives = { λ f e. e ≡ faults.Page f };

    fn from(fault: PageFault) -> LfFault {
        LfFault::Page(fault)
    }
}

impl From<NoMemory> for LfFault {
    ghost use Rattle.std.specs.Prelude.{◌≡◌};
    ghost use Rattle.iq_pages.specs.declared.page_faults.PageFault.TheVariants as pages;
    ghost use Rattle.iq_lf.specs.declared.lf.LfFault.TheVariants as faults;

    ghost from_gives = { λ _ e. e ≡ faults.Page pages.NoMemory };

    fn from(_: NoMemory) -> LfFault {
        LfFault::Page(PageFault::NoMemory)
    }
}
