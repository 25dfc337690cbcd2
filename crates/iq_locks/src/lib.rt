//! Locks of names by sessions, and the commit that last wrote each name.
//!
//! Contracts see the names that each session holds, by its place, and a row for each name that a commit wrote (`LockState`). Below
//! stands `iq_base`; above stands the shared state. Its one law: a session gets names exactly where no other holds one of them and
//! none was written past its snapshot.
#![tactic(auto)]

mod lock_table;

pub use lock_table::{LockTable, MOST_HELD};
