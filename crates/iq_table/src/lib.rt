//! A table over pages: which of its rows are there, and each column as codes of its distinct values.
//!
//! Contracts see a `Table` as its place among the tables and its descriptor; through the pages that a source tells it stands for
//! a list of rows and for which of them are there, `TableStands`. Below stand `iq_chunks` with objects of bits and `iq_fp` with
//! columns; above stand the layers that run statements. Its one law: what a table stands for depends on the pages of its own
//! objects alone, and a call that fails leaves the table's value as it was.
#![tactic(auto)]

mod appending;
mod columns;
mod faults;
mod laws;
mod limits;
mod places;
mod reading;
mod removing;
mod table;

pub use faults::TableFault;
pub use laws::{stands_at_another_place, stands_by_its_own_objects};
pub use limits::{has_low_fast, limit_of};
pub use places::{codes_of, existence_of, fp_of, values_of};
pub use table::Table;
