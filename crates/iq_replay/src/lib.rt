//! What a run means: the replayed state, legal histories, and what their lines are answered.
//!
//! Contracts see a history as a list of entries, legal where each is possible after those before it: `IsPossible` and `change` of
//! specs/Entries, side by side. Below stand `iq_statements`, the entries of `iq_history` and the types of `iq_model`. Its laws are
//! the contracts of functions that do nothing.
#![tactic(auto)]

mod laws;

pub use laws::{
    a_change_leaves_alone, a_commit_keeps_its_tables, commits_are_numbered_without_a_gap,
    histories_are_put_together, lines_never_fall, snapshots_are_commits_that_were_made,
};
