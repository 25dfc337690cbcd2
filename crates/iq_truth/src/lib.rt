//! What a test of one row means: true, false or unknown.
//!
//! Contracts see a test as a function from the value of each column to one of three truths, `test_truth`. Below stand `iq_ast`,
//! with tests as data, and `iq_cells`, with columns and the order of values; above stand the layers that find rows. Its one law:
//! the NOT within a test exchanges true and false, and leaves unknown, so that its false side is the true side of its negation.
#![tactic(auto)]

mod comparing;
mod negating;
mod testing;
mod truth;

pub use comparing::{between, compared, comparison, is_null, one_of};
pub use negating::{negated, negated_op};
pub use testing::{comparison_at, comparison_of, truth_at, truth_on};
pub use truth::{Side, Truth};
