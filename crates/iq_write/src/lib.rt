//! Writes over a database: what a statement is refused for, which names it locks, and what it changes of pages and descriptors.
//!
//! Contracts see the database for which descriptors and told pages stand, and the effect as statements have it. Below stands
//! `iq_database`, with tables by their names, and `iq_table`; above stands whoever runs lines. Its one law: where a write succeeds, the new
//! descriptors and pages stand for its effect on every database for which the old ones stood.
#![tactic(auto)]

mod checking;
mod locking;
mod rows;
mod writing;

pub use checking::check;
pub use locking::names_of;
pub use writing::{Written, write};
