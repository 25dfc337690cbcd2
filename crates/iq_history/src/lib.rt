//! The history of a run: one entry for each step at the shared state, in the order in which they came.
//!
//! Contracts see a `History` as the declared names of nodes and sessions and the list of entries, beside a number for the room
//! that is taken for more. Below stands `iq_base`; above stand the definitions that read histories, and the shared state that
//! writes one. Its one law: an entry is only ever put at the end, and names declared nodes and sessions alone.
#![tactic(auto)]

mod entries;
mod history;

pub use entries::Entry;
pub use history::History;
