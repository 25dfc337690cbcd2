//! The High Group index (HG): the values of a column with their rows, in order, in leaves under a directory.
//!
//! Contracts see an index as the values of its column, `Stands`. Below stand `iq_hg_leaves` with entries and leaves, `iq_pieces` with
//! pages of an object, and `iq_truth` with tests; above stands the table. Its one law: an equality reads few pages, whatever the size of
//! the table.
#![tactic(auto)]

mod directory_pages;
mod hg;
mod marking;
mod pages;
mod places;
mod ranging;
mod scanning;
mod searching;
mod walking;
mod wanted;
mod wanting;

pub use hg::Hg;
pub use places::Place;
