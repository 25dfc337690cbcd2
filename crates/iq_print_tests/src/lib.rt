//! Tests of printed statements: each form of the grammar beside the text that is printed of it, written down by hand, and conditions
//! that are made at random.
//!
//! No clause says that a call succeeds where memory is ample, nor that every statement that is read can be spelled.
#![tactic(auto)]

#[cfg(test)]
mod limits;
#[cfg(test)]
mod made;
#[cfg(test)]
mod printed;
#[cfg(test)]
mod texts;
