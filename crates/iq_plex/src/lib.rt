//! The shared state of a run: its control, and its tables, which are in memory.
//!
//! Contracts see a `Plex` as the state that its history leaves, `state_of` of specs/Standing, and its tables as the plain ones that a
//! session sees. Below stand `iq_control`, which keeps sessions, locks, commits and the history, and `iq_memory`, which runs
//! statements over tables; above stands `iq_run`, which runs scripts. Its one law: whatever lines it runs, its history is legal, and
//! each reply is the one that the history means.
#![tactic(auto)]

mod lines;
mod plex;
mod refusing;
mod steps;

pub use plex::Plex;
