//! Why a statement is refused over plain tables: the first of its names and values, and the first of its table's room.
//!
//! Contracts see the first refusal of a list of tests; each function computes the definition that its contract names. Below stand
//! `iq_plain_tables` and `iq_plain_answers`; above stand plain runs. Its one law: of several refusals the one that is looked for first
//! is told.
#![tactic(auto)]

mod catalog;
mod fits;
mod full;
mod naming;
mod refusals;
mod room;

pub use refusals::statement_refusal;
pub use room::room_refusal;
