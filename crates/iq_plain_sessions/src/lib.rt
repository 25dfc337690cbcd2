//! Sessions, transactions and nodes of a plain run: slow, short, and the meaning itself.
//!
//! Contracts see them as the sessions, transactions and nodes of the replayed state, and each change as the function of that
//! name. Below stand the meaning, `iq_replay`, and the plain statements of `iq_plain_tables`; above stands `iq_plain_state`. Its
//! one law: what a method leaves is what the meaning says.
#![tactic(auto)]

mod names;
mod nodes;
mod sessions;
mod transactions;

pub use names::wanted;
pub use nodes::{PlainNode, PlainReport, PlainWritten};
pub use sessions::{PlainSession, lose_all};
pub use transactions::{PlainSave, PlainTransaction, PlainWork, catalog, copied_names};
