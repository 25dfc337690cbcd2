//! How a store opens: the tables of its newest root, and the blocks that they reach.
//!
//! Contracts see a way through the store as a list of steps, and what opening answers as `opened blocks`: the set of reached blocks, or
//! the first step at fault. Below stand `iq_root`, `iq_block_map`, `iq_catalog`, `iq_descriptors` and `iq_block_store`; above
//! stands the shared state. Its one law: what a store opens as stands on the blocks that it reaches.
#![tactic(auto)]

mod descriptors;
mod faults;
mod free;
mod laws;
mod objects;
mod opening;
mod reaching;
mod tables;

pub use faults::{OpenFault, StoreCause};
pub use free::free_list;
pub use laws::{tables_stand_on_what_they_reach, what_opens_is_read_by_its_heads};
pub use opening::{Opening, StoredTable, open};
