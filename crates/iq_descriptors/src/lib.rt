//! The descriptors of tables in the blocks of a store: each is read by its head, and written anew.
//!
//! Contracts see what stands behind a head as `descriptor_at all head`: the descriptor, or the block that shows that there is none.
//! Below stand `iq_catalog`, which makes pages of a descriptor, `iq_block_map` with blocks that may be taken, and `iq_block_store`; above
//! stand `iq_opening`, and whoever keeps a version's heads. Its one law: what is written is read, and no block is written that was not
//! taken.
#![tactic(auto)]

mod blocks;
mod faults;
mod laws;
mod parts;
mod reading;
mod writing;

pub use blocks::Blocks;
pub use faults::DescriptorFault;
pub use laws::{
    a_descriptor_is_what_its_blocks_say, a_descriptor_stands_on_its_blocks, what_is_apart_stays,
};
pub use parts::{are_packed, head_page, payload_of};
pub use reading::{Stored, comes_behind, read, tables};
pub use writing::{Written, block_count, write};
