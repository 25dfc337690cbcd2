//! The rows of a table for which a condition holds.
//!
//! Contracts see the plain table for which descriptor and told pages stand, and a bit a slot. Below stands `iq_table`, whose columns are
//! scanned; above stand queries and the writes that choose rows. Its one law: a row is found exactly where it is there and the condition
//! is on the side that is asked for, so that what is unknown is on neither.
#![tactic(auto)]

mod checking;
mod finding;

pub use checking::{unfit, unnamed};
pub use finding::found;
