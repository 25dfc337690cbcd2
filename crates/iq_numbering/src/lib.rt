//! Numbers the distinct values of a column in order of first appearance, NULL one of them.
//!
//! Contracts see the numbering as the codes of the values and the list of the new values, behind those that were known. Which
//! these are is told from the codes, so no copy of them stands beside the index. Below stand `iq_cells`, with columns, and
//! `indexmap`, with the index from a cell's bytes to its code; above stand the layers that keep a column as codes. Its one law: a
//! value's code is its place among the distinct values, so equal values have one code.
#![tactic(auto)]

mod cell_key;
mod first_uses;
mod key;
mod number_key;
mod places;

pub use cell_key::CellKey;
pub use first_uses::new_values;
pub use places::{Numbered, number};
