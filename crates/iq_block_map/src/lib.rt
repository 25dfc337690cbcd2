//! Objects of pages: an object is a list of pages behind one reference.
//!
//! Contracts see an object as the list of its pages, `pages_of`, in the blocks `addresses_of`. Below stands `iq_block_store`,
//! which reads and writes one block; above stand the catalog and the transactions, which keep references. Its one law: no call
//! writes a block that an old reference reaches.
#![tactic(auto)]

mod editing;
mod faults;
mod laws;
mod map_bytes;
mod pages;
mod reading;
mod taker;
mod writing;

pub use editing::remap;
pub use faults::MapFault;
pub use laws::{
    a_page_is_where_the_list_says, an_object_reaches_its_maps_and_pages,
    an_object_stands_on_what_it_reaches, objects_are_behind_the_roots,
    pages_change_with_their_blocks, pages_stand_on_their_blocks,
    what_is_fresh_replaces_what_is_lost, what_is_not_reached_is_apart,
};
pub use map_bytes::{Places, ROOM, RawMap, payload_of};
pub use pages::{push, with_page};
pub use reading::{
    addresses, blocks, leaf_count, leaves_of, maps, most_maps, page, read_map, read_page,
    read_raw_map, used_in,
};
pub use taker::Taker;
pub use writing::{put, put_page};
