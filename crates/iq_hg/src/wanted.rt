//! What is wanted of a column in order.
use iq_ast::{Bound, Test};
use iq_truth::Side;

/// The values between two bounds, or those on a side of a test.
#[derive(Drop)]
pub(crate) enum Wanted<'a> {
    Between(&'a Bound, &'a Bound),
    OnSide(&'a Test, Side),
}
