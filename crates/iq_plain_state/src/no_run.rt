//! Why there is no run.
use iq_base::NoMemory;
use std::alloc::{AllocError, AllocFailed};

/// Why there is no run.
#[derive(Clone, Copy, Debug, PartialEq, Eq)]
pub enum NoRun {
    /// An allocation was refused.
    NoMemory,
    /// A line isn't one that the plain program runs: a LOAD, a line out of order, or one of a session that isn't there.
    NotPlain,
}

impl From<NoMemory> for NoRun {
    fn from(_: NoMemory) -> NoRun {
        NoRun::NoMemory
    }
}

impl<T: Drop> From<AllocFailed<T>> for NoRun {
    fn from(_: AllocFailed<T>) -> NoRun {
        NoRun::NoMemory
    }
}
