//! In script order a run is fixed: its replies and its tables are those of the script and the opening tables.
//!
//! Contracts see two histories of one script: `IsUndisturbedRun` of specs/Fixed is their premise, and the one law is the contract of
//! `script_order_fixes_replies_and_tables`. Below stands `iq_replay`. What the law leaves open is what the meaning doesn't fix:
//! numbers of blocks, and lines that want of space or memory, a fault, a bad page or a halt refuses.
#![tactic(auto)]

mod laws;

pub use laws::script_order_fixes_replies_and_tables;
