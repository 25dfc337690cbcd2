//! Whole runs of scripts over plain tables in memory: slow, short, and the meaning itself.
//!
//! Contracts see a run as the entries of its history. The state that they leave is kept beside them, and is `replay` of them; each
//! entry is tried before it is put. Below stand the meaning, `iq_replay` and `iq_script_order`, and the plain state of
//! `iq_plain_state`; above stand the tests that compare the product with it. Its one law: the entries are those of an undisturbed
//! run in script order.
#![tactic(auto)]

mod course;
mod ending;
mod following;
mod refusals;
mod runs;
mod step_following;
mod step_refusals;

pub use iq_plain_state::NoRun;
pub use runs::{PlainRun, plain_run};
