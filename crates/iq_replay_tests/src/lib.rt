//! Runs written by hand, with their histories and replies: the histories are legal, and such as are one number or one entry off
//! aren't.
//!
//! Each is the contract of a function that does nothing, proved by computing the definitions of `iq_replay`, which stands below.
#![tactic(auto)]

pub mod excluded_steps;
pub mod exclusion;
pub mod full_stores;
pub mod halts;
pub mod interleaved;
pub mod locking;
pub mod lost_at_the_end;
pub mod lost_reports;
pub mod queries;
pub mod reports;
pub mod restarts;
pub mod savepoints;
pub mod want_of_memory;
pub mod writes;
