//! The printed form of a run: each line's reply, the history of entries and the census of blocks.
//!
//! Contracts see a text as its bytes, and `specs/` says which bytes print each reply, entry and refusal. Below stand `iq_base`,
//! `iq_history` and `iq_model`, whose plain data is printed; above stands the command that writes the text out. Its one law: the
//! text is exactly the replies' part, the history's part and the last line, whatever the values are.
#![tactic(auto)]

mod entries;
mod refusals;
mod replies;
mod values;
mod whole;

pub use whole::{history_part, replies_part, summary, transcript};
