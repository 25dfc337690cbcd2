//! Why a call on pages fails.
use iq_base::NoMemory;
use std::alloc::{AllocError, AllocFailed};

/// Why a page isn't read or written.
#[derive(Clone, Copy, Debug, PartialEq, Eq)]
pub enum PageFault {
    /// The store below failed: the source's count of faults rose from the one number to the other. Of a source that can refuse
    /// for other reasons, as want of space, it is the source that tells which.
    Failed { before: u64, after: u64 },
    /// The bytes of the page, or of what leads to it, aren't of their form, or the object has no such page.
    BadPage { object: u32, page: u32 },
    /// An allocation was refused.
    NoMemory,
}

impl From<NoMemory> for PageFault {
    ghost use Rattle.std.specs.Prelude.{◌≡◌};
    ghost use Rattle.iq_pages.specs.declared.page_faults.PageFault.TheVariants as faults;

    ghost from_gives = { λ _ e. e ≡ faults.NoMemory };

    fn from(_: NoMemory) -> PageFault {
        PageFault::NoMemory
    }
}

impl From<AllocError> for PageFault {
    ghost use Rattle.std.specs.Prelude.{◌≡◌};
    ghost use Rattle.iq_pages.specs.declared.page_faults.PageFault.TheVariants as faults;

    ghost from_gives = { λ _ e. e ≡ faults.NoMemory };

    fn from(_: AllocError) -> PageFault {
        PageFault::NoMemory
    }
}

impl<T: Drop> From<AllocFailed<T>> for PageFault {
    ghost use Rattle.std.specs.Prelude.{◌≡◌};
    ghost use Rattle.iq_pages.specs.declared.page_faults.PageFault.TheVariants as faults;

    ghost from_gives = { λ _ e. e ≡ faults.NoMemory };

    fn from(_: AllocFailed<T>) -> PageFault {
        PageFault::NoMemory
    }
}
