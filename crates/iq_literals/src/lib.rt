//! Values and rows of values of a statement, in few bytes.
//!
//! Contracts see `Values` as the list of its values, and `Tuples` as the list of its rows. A value takes one to ten bytes, or two more
//! than its text has; a row takes those of its values and one to nine. Below stands `iq_base`; above stands `iq_ast`. Its one law:
//! what is read is what was put.
#![tactic(auto)]

mod packing;
mod tuples;
mod values;

pub use tuples::{RowCursor, Tuples};
pub use values::{ValueCursor, Values};
