//! Why a store wasn't opened.
ghost use Rattle.std.specs.Prelude.{◌≡◌};
ghost use Rattle.iq_opening.specs.declared.faults.OpenFault.TheVariants.{NotAStore};

use iq_base::NoMemory;
use iq_block_store::StoreFault;
use std::alloc::{AllocError, AllocFailed};
use std::error::Error;
use std::fmt;

/// What is wrong with blocks that are no store. Each is told with the block that shows it.
#[derive(Clone, Copy, Debug, PartialEq, Eq)]
pub enum StoreCause {
    /// No slot has a valid root. It is told with block 0.
    NoRoot,
    /// The newest root has an older format: its body.
    OldFormat,
    /// The newest root counts other blocks than there are, or fewer than 4: its body.
    Size,
    /// An address is below 4, or not below the count of blocks: the block in which it stands.
    OutOfRange,
    /// An address leads to this block, which was reached before.
    Shared,
    /// The block isn't of the kind, place and level that its address asks for.
    BadHeader,
    /// A place of the map behind those in use isn't zero.
    BadMap,
    /// A descriptor isn't that of a table in its place: its head.
    BadCatalog,
}

/// Why a store wasn't opened.
#[derive(Clone, Copy, Debug, PartialEq, Eq)]
pub enum OpenFault {
    /// The device failed: its count of faults rose from the one number to the other.
    StoreFault { before: u64, after: u64 },
    /// The blocks are no store: the first fault, and the block that shows it.
    NotAStore { block: u32, cause: StoreCause },
    /// There was no memory.
    NoMemory,
}

impl fmt::Display for StoreCause {
    fn fmt<W: fmt::Write>(&self, f: &mut fmt::Formatter<W>) -> fmt::Result {
        f.write_str(match self {
            StoreCause::NoRoot => "NoRoot",
            StoreCause::OldFormat => "OldFormat",
            StoreCause::Size => "Size",
            StoreCause::OutOfRange => "OutOfRange",
            StoreCause::Shared => "Shared",
            StoreCause::BadHeader => "BadHeader",
            StoreCause::BadMap => "BadMap",
            StoreCause::BadCatalog => "BadCatalog",
        })
    }
}

impl fmt::Display for OpenFault {
    fn fmt<W: fmt::Write>(&self, f: &mut fmt::Formatter<W>) -> fmt::Result {
        match self {
            OpenFault::StoreFault { before, after } => {
                write!(f, "the device failed: {before} to {after}")
            }
            OpenFault::NotAStore { block, cause } => write!(f, "block {block} {cause}"),
            OpenFault::NoMemory => f.write_str("no memory"),
        }
    }
}

impl Error for OpenFault {}

impl From<StoreFault> for OpenFault {
    ghost use Rattle.std.specs.Prelude.{◌≡◌};
    ghost use Rattle.iq_opening.specs.declared.faults.OpenFault.TheVariants as faults;

    ghost from_gives = { λ s e. e ≡ faults.StoreFault s.before s.after };

    fn from(fault: StoreFault) -> OpenFault {
        OpenFault::StoreFault {
            before: fault.before,
            after: fault.after,
        }
    }
}

impl From<NoMemory> for OpenFault {
    ghost use Rattle.std.specs.Prelude.{◌≡◌};
    ghost use Rattle.iq_opening.specs.declared.faults.OpenFault.TheVariants as faults;

    ghost from_gives = { λ _ e. e ≡ faults.NoMemory };

    fn from(_: NoMemory) -> OpenFault {
        OpenFault::NoMemory
    }
}

impl From<AllocError> for OpenFault {
    ghost use Rattle.std.specs.Prelude.{◌≡◌};
    ghost use Rattle.iq_opening.specs.declared.faults.OpenFault.TheVariants as faults;

    ghost from_gives = { λ _ e. e ≡ faults.NoMemory };

    fn from(_: AllocError) -> OpenFault {
        OpenFault::NoMemory
    }
}

impl<T: Drop> From<AllocFailed<T>> for OpenFault {
    ghost use Rattle.std.specs.Prelude.{◌≡◌};
    ghost use Rattle.iq_opening.specs.declared.faults.OpenFault.TheVariants as faults;

    ghost from_gives = { λ _ e. e ≡ faults.NoMemory };

    fn from(_: AllocFailed<T>) -> OpenFault {
        OpenFault::NoMemory
    }
}

/// Blocks that are no store.
pub fn bad(block: u32, cause: StoreCause) -> OpenFault
    ensures { result ≡ NotAStore block cause }
{
    OpenFault::NotAStore { block, cause }
}
