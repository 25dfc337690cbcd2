//! Why an object of pages wasn't read or written.
use iq_block_store::StoreFault;
use std::alloc::{AllocError, AllocFailed};
use std::error::Error;
use std::fmt;

/// Why an object wasn't read or written.
#[derive(Clone, Copy, Debug, PartialEq, Eq)]
pub enum MapFault {
    /// The device failed: its count of faults rose from the one number to the other.
    StoreFault { before: u64, after: u64 },
    /// The block isn't of its kind and place, or is a map that names no block of the store or says more than it may.
    BadMap { block: u32 },
    /// There was no block left to take.
    NoSpace,
    /// There was no memory.
    NoMemory,
}

impl fmt::Display for MapFault {
    fn fmt<W: fmt::Write>(&self, f: &mut fmt::Formatter<W>) -> fmt::Result {
        match self {
            MapFault::StoreFault { before, after } => {
                write!(f, "the device failed: {before} to {after}")
            }
            MapFault::BadMap { block } => write!(
                f,
                "block {block} is no map or page of its object"
            ),
            MapFault::NoSpace => f.write_str("no block is left"),
            MapFault::NoMemory => f.write_str("no memory"),
        }
    }
}

impl Error for MapFault {}

impl From<StoreFault> for MapFault {
    ghost use Rattle.std.specs.Prelude.{◌≡◌};
    ghost use Rattle.iq_block_map.specs.declared.faults.MapFault.TheVariants as faults;

    ghost from_gives = { λ s e. e ≡ faults.StoreFault s.before s.after };

    fn from(fault: StoreFault) -> MapFault {
        MapFault::StoreFault {
            before: fault.before,
            after: fault.after,
        }
    }
}

impl From<AllocError> for MapFault {
    ghost use Rattle.std.specs.Prelude.{◌≡◌};
    ghost use Rattle.iq_block_map.specs.declared.faults.MapFault.TheVariants as faults;

    ghost from_gives = { λ _ e. e ≡ faults.NoMemory };

    fn from(_: AllocError) -> MapFault {
        MapFault::NoMemory
    }
}

impl<T: Drop> From<AllocFailed<T>> for MapFault {
    ghost use Rattle.std.specs.Prelude.{◌≡◌};
    ghost use Rattle.iq_block_map.specs.declared.faults.MapFault.TheVariants as faults;

    ghost from_gives = { λ _ e. e ≡ faults.NoMemory };

    fn from(_: AllocFailed<T>) -> MapFault {
        MapFault::NoMemory
    }
}
