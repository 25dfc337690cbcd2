//! Runs of scripts, and the call that the program is.
//!
//! Contracts see words and bytes as lists, a stream as `iq_outside` tells it, and an end as its cause. Below stand the reader of
//! scripts, the shared state and the printed texts; above stands the program alone. Its one law: at status 0 what was written
//! is the transcript of the script that was read, of no opening tables and of one legal history of its lines.
#![tactic(auto)]

mod ends;
mod reports;
mod runs;
mod top;
mod words;

pub use ends::{EndCause, Ended, Ran, Rest};
pub use runs::step_run;
pub use top::multiplex;
pub use words::{Command, WordFault, read_words};
