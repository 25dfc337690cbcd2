//! What a root says.
use crate::Addresses;
use iq_block_store::StoreFault;
use std::error::Error;
use std::fmt;

/// The tables of a store at one commit.
#[derive(Debug, Drop)]
pub struct Root {
    /// The number of the commit, from 1.
    pub generation: u64,
    /// The format of the store.
    pub format: u32,
    /// How many blocks the store has.
    pub count: u32,
    /// The blocks at which the tables' descriptors begin, in ascending order of table names.
    pub tables: Addresses,
}

/// Why a root wasn't read or published.
#[derive(Clone, Copy, Debug, PartialEq, Eq)]
pub enum RootFault {
    /// The device failed: its count of faults rose from the one number to the other.
    StoreFault { before: u64, after: u64 },
    /// No slot is valid.
    NoRoot,
}

impl fmt::Display for RootFault {
    fn fmt<W: fmt::Write>(&self, f: &mut fmt::Formatter<W>) -> fmt::Result {
        match self {
            RootFault::StoreFault { before, after } => {
                write!(f, "the device failed: {before} to {after}")
            }
            RootFault::NoRoot => f.write_str("no root"),
        }
    }
}

impl Error for RootFault {}

impl From<StoreFault> for RootFault {
    ghost use Rattle.std.specs.Prelude.{◌≡◌};
    ghost use Rattle.iq_root.specs.declared.root.RootFault.TheVariants as faults;

    ghost from_gives = { λ fault e. e ≡ faults.StoreFault fault.before fault.after };

    fn from(fault: StoreFault) -> RootFault {
        RootFault::StoreFault {
            before: fault.before,
            after: fault.after,
        }
    }
}
