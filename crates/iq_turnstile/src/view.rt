//! What the seat of a pass knows at the table.

use std::collections::LinkedList;
use std::snapshot::Snapshot;

/// How far a pass is in its turn. No value of it is made.
pub enum Stage<S> {
    Idle,
    /// The ticket's number, of all that were ever drawn.
    Waiting(u64),
    /// That number, and the state as it was taken.
    Holding(u64, S),
}

/// What one seat knows. No value of it is made. A pass has one note, and a seat that others joined has the notes of all.
pub struct View<S, N> {
    pub stage: Stage<S>,
    pub parts: u64,
    pub notes: LinkedList<N>,
}

/// What the table is told when it is made: how many parts there are, and the state that it begins with.
#[derive(Drop)]
pub struct About<S> {
    pub parts: u32,
    pub state: Snapshot<S>,
}
