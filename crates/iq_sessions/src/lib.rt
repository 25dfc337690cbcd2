//! Sessions of a run: their transactions, the names that these hold and created, the names of their savepoints, and how far their
//! lines are, without tables.
//!
//! Contracts see a list of sessions as `iq_replay` has them, without tables and answers, beside the latest commit of each name
//! (`TableState`). Below stand `iq_locks` and the meaning of runs, `iq_replay`; above stands `iq_control`. Its one law: each call
//! changes one session as an entry of its line changes it there.
#![tactic(auto)]

mod locking;
mod save_names;
mod session;
mod session_table;

pub use save_names::{MOST_SAVEPOINTS, SaveNames};
pub use session::{LineStage, Session, Transaction, TransactionState};
pub use session_table::SessionTable;
