//! Tables that memory keeps: their descriptors, and the pages of each.
//!
//! Contracts see the plain tables for which they stand, `Hold` of specs/Holding. Below stand `iq_query` and `iq_write`, which run
//! statements over descriptors and pages; above stands the shared state of a run. Its one law: a write that fails leaves every table
//! as it was.
#![tactic(auto)]

mod sure_pages;
mod table_pages;
mod tables;

pub use tables::MemoryTables;
