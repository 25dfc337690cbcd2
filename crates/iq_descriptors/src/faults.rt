//! Why a descriptor wasn't read or written.
use iq_base::NoMemory;
use iq_block_store::StoreFault;
use std::alloc::{AllocError, AllocFailed};
use std::error::Error;
use std::fmt;

/// Why a descriptor wasn't read or written.
#[derive(Clone, Copy, Debug, PartialEq, Eq)]
pub enum DescriptorFault {
    /// The device failed: its count of faults rose from the one number to the other.
    StoreFault { before: u64, after: u64 },
    /// No descriptor stands behind the head, or none in its place among others: the block that shows it.
    Bad { block: u32 },
    /// There was no block left to take.
    NoSpace,
    /// There was no memory.
    NoMemory,
}

impl fmt::Display for DescriptorFault {
    fn fmt<W: fmt::Write>(&self, f: &mut fmt::Formatter<W>) -> fmt::Result {
        match self {
            DescriptorFault::StoreFault { before, after } => {
                write!(f, "the device failed: {before} to {after}")
            }
            DescriptorFault::Bad { block } => write!(
                f,
                "block {block} is of no descriptor in its place"
            ),
            DescriptorFault::NoSpace => f.write_str("no block is left"),
            DescriptorFault::NoMemory => f.write_str("no memory"),
        }
    }
}

impl Error for DescriptorFault {}

impl From<StoreFault> for DescriptorFault {
    ghost use Rattle.std.specs.Prelude.{◌≡◌};
    ghost use Rattle.iq_descriptors.specs.declared.faults.DescriptorFault.TheVariants as faults;

    ghost from_gives = { λ s e. e ≡ faults.StoreFault s.before s.after };

    fn from(fault: StoreFault) -> DescriptorFault {
        DescriptorFault::StoreFault {
            before: fault.before,
            after: fault.after,
        }
    }
}

impl From<NoMemory> for DescriptorFault {
    ghost use Rattle.std.specs.Prelude.{◌≡◌};
    ghost use Rattle.iq_descriptors.specs.declared.faults.DescriptorFault.TheVariants as faults;

    ghost from_gives = { λ _ e. e ≡ faults.NoMemory };

    fn from(_: NoMemory) -> DescriptorFault {
        DescriptorFault::NoMemory
    }
}

impl From<AllocError> for DescriptorFault {
    ghost use Rattle.std.specs.Prelude.{◌≡◌};
    ghost use Rattle.iq_descriptors.specs.declared.faults.DescriptorFault.TheVariants as faults;

    ghost from_gives = { λ _ e. e ≡ faults.NoMemory };

    fn from(_: AllocError) -> DescriptorFault {
        DescriptorFault::NoMemory
    }
}

impl<T: Drop> From<AllocFailed<T>> for DescriptorFault {
    ghost use Rattle.std.specs.Prelude.{◌≡◌};
    ghost use Rattle.iq_descriptors.specs.declared.faults.DescriptorFault.TheVariants as faults;

    ghost from_gives = { λ _ e. e ≡ faults.NoMemory };

    fn from(_: AllocFailed<T>) -> DescriptorFault {
        DescriptorFault::NoMemory
    }
}
