//! Plain tables in memory, and what the statements that write do with them: slow, short, and the meaning itself.
//!
//! Contracts see a table as its columns, indexes and slots; each function computes the definition that its contract names. Below stand
//! `iq_statements` with those definitions, and what it stands on; above stand `iq_plain_answers` and `iq_plain_refusals` with what
//! statements answer and why they are refused, and plain runs. Its one law: no function knows more of a statement than its definition
//! says.
#![tactic(auto)]

mod conditions;
mod copies;
mod databases;
mod effects;
mod rows;
mod statements;
mod tables;

pub use conditions::{column_place, keeps, truth, value_at, value_named};
pub use copies::copied_row;
pub use databases::{copied_tables, table_of, with_seen};
pub use effects::{count, effect, index_on};
pub use rows::{changed_rows, true_rows};
pub use statements::{creates, locks, tables_after};
pub use tables::{PlainSlot, PlainTable, PlainTables, is_low_fast};
