//! Queries over a database: what a SELECT answers, read from pages.
//!
//! Contracts see the database for which descriptors and told pages stand, and the answer as statements have it. Below stand
//! `iq_database`, with tables by their names, `iq_predicate`, which finds rows by a test, and `iq_table`; above stands whoever runs lines. Its
//! one law: an answer is the query's meaning over every database for which its tables stand.
#![tactic(auto)]

mod answering;
mod columns;

pub use answering::select;
