//! The Compare index (CMP): how two columns of a table stand to each other, as three planes of rows: less, equal and greater.
//!
//! Contracts see an index as the values of its two columns, `Stands`. Below stand `iq_planes` with planes of rows in pages and `iq_truth`
//! with comparisons; above stands the table. Its one law: each page is read at most once, whatever the operator and the side asked for.
#![tactic(auto)]

mod cmp;
mod relating;

pub use cmp::Cmp;
