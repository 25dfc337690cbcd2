//! Marks of a transaction.
use iq_root::Addresses;

/// What a transaction had at a moment: the heads of its tables, and how long its lists were. It takes no memory.
#[derive(Debug, Drop)]
pub struct Mark {
    pub heads: Addresses,
    pub private: usize,
    pub wasted: usize,
    pub dropped: usize,
}
