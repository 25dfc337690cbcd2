//! The Low Fast index (LF): a column with few distinct values, each with the set of its rows.
//!
//! Contracts see an index as the values of its column, `Stands`. Below stand `iq_pieces` with the distinct values as cells in pages,
//! `iq_numbering`, which numbers them, and `iq_bitmap` with sets of rows; above stands the table. Its one law: a call reads and writes
//! each page at most once, and of bitmaps only those of the values that it is about.
#![tactic(auto)]

mod appending;
mod entries;
mod finding;
mod gathering;
mod known;
mod lf;
mod merging;
mod numbering;
mod table;

pub use lf::{Lf, LfFault, MOST_CHUNKS, MOST_DISTINCT, MOST_ROWS};
