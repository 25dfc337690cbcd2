//! The concurrency control of a run: all that the shared state keeps of nodes, sessions, transactions, locks, commit numbers and
//! the history, without tables and blocks.
//!
//! Contracts see it as a `ControlState`. Below stand `iq_sessions`, `iq_history` and the meaning of runs, `iq_replay`; above stands
//! the shared state over the store. Its one law: whatever tables a run began with, its history stays legal, and what the control
//! keeps stays that of the state that its history leaves (`Follows`).
#![tactic(auto)]

mod control;
mod laws;
mod nodes;
mod opening;
mod refusals;

pub use control::Control;
pub use laws::{
    the_control_admits_lines, the_control_follows_a_begin, the_control_follows_a_lock,
    the_control_follows_a_refusal, the_control_follows_a_rollback, the_control_follows_a_savepoint,
    the_control_follows_an_effect, the_control_follows_an_end, the_control_follows_an_opening,
    the_control_knows_causes,
};
pub use nodes::ControlNode;
