//! The scripts that are run, and what their lines are answered.
//!
//! Contracts see scripts and replies as plain records of lists, and the rows of an answer as the lists of their values, however
//! they lie in memory. Below stand `iq_base`, `iq_ast`, `iq_history` and `iq_cells`; above stand `iq_statements` and `iq_replay`,
//! which say what statements and runs mean, and every crate that reads scripts or prints replies.
#![tactic(auto)]

mod answer_rows;
mod answers;
mod replies;
mod scripts;

pub use answer_rows::AnswerRows;
pub use answers::{Answer, Freed, NodeVersion, Out, Sent, Versions, out_of};
pub use replies::{Reply, Said};
pub use scripts::{Deed, Line, MOST_LINES, Script, Step};
