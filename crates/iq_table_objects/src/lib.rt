//! The objects of a table on a device, as a source and a sink of pages.
//!
//! Contracts see them as a source and a sink (`iq_pages`): how many pages each object has, and its pages where the device tells its
//! blocks and the object was right when it was opened. Below stand `iq_objects` with one opened object and `iq_block_map` with
//! references and blocks that may be taken; above stand the layers that run statements, which are generic in a source. Its one law:
//! no call writes a block that wasn't taken for it, so all that isn't among the blocks that may be taken stays.
#![tactic(auto)]

mod closing;
mod opening;
mod parts;
mod table_objects;

pub use parts::{Closed, Unopened};
pub use table_objects::{Slot, TableObjects};
