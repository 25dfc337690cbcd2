//! What a running transaction has of a store's blocks: those that it took, in order, those that it dropped, and the heads of its
//! tables' descriptors; marks of these, to which a statement or a savepoint goes back.
//!
//! Contracts see the three lists with their room, and the list of heads (`TxnState`). Below stand `iq_free_list`, and `iq_root` with
//! lists of addresses; above stands the shared state. Its one law: going back to a mark gives exactly the blocks home that were
//! taken since.
#![tactic(auto)]

mod marks;
mod savepoints;
mod txn;

pub use marks::Mark;
pub use savepoints::{MOST_SAVEPOINTS, Savepoints};
pub use txn::Txn;
