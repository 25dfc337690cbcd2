//! The High Non Group index (HNG): a column of numbers bit by bit, each bit a plane of rows.
//!
//! Contracts see an index as the values of its column, `Stands`. Below stands `iq_planes` with planes of rows in pages; above stands
//! the table. Its one law: the rows of a range of numbers are found in one pass, which reads each page at most once.
#![tactic(auto)]

mod comparing;
mod edges;
mod hng;
mod keys;
mod planes;
mod ranging;
mod summing;

pub use comparing::Compared;
pub use hng::{Hng, Width};
pub use ranging::Ranged;
