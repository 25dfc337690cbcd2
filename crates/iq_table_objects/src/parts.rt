//! What opening and closing give back.
use crate::Slot;
use iq_block_map::MapFault;

/// What is given back where objects weren't opened, and why.
#[derive(Drop)]
pub struct Unopened<D: Drop, T: Drop> {
    pub disk: D,
    pub space: T,
    pub fault: MapFault,
}

/// Objects that were closed, each with its new reference, and the blocks that it lost in its object. After an `Err` those before the
/// one at fault have new references, and the others those that they were opened with.
#[derive(Drop)]
pub struct Closed<D: Drop, T: Drop> {
    pub disk: D,
    pub space: T,
    pub slots: Vec<Slot>,
    pub outcome: Result<(), MapFault>,
}
