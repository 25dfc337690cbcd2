//! The objects of tables as a statement reads and writes them over a device: their maps are read once, each page is written into a
//! block of its own, and the maps are written once, at the end.
//!
//! Contracts see an opened object as the blocks of its pages and maps, and of those that it lost (`Held`), and a source of objects as
//! what their pages hold (`iq_pages`). Below stands `iq_block_map` with maps, references and blocks that may be taken; above stand
//! `iq_table`, `iq_query` and `iq_write`, which are generic in a source, and the shared state, which keeps references. Its one law: no
//! call writes a block that an object has or had, so whatever is apart from what may be taken stays as it was.
#![tactic(auto)]

mod blocks;
mod laws;
mod open_object;

pub use laws::{an_opened_object_stands_beside_others, what_may_not_be_taken_stays};
pub use open_object::OpenObject;
