//! The state of a plain run, and what an entry changes in it.
//!
//! Contracts see it as the replayed state of `iq_replay`, in which nothing has halted. Below stand the sessions and nodes of
//! `iq_plain_sessions`; above stands `iq_plain_runs`, which finds the next entry. Its one law: what an entry leaves is `change`
//! of it.
#![tactic(auto)]

mod change;
mod commits;
mod floors;
mod line_entries;
mod no_run;
mod plain;
mod reports;
mod starting;
mod state;
mod step_entries;

pub use no_run::NoRun;
pub use plain::is_plain;
pub use reports::{nodes_taking, report_of};
pub use state::PlainState;
