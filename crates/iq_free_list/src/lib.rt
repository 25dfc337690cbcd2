//! The free blocks of a store.
//!
//! Contracts see a `FreeList` as the count of all blocks and the ascending list of those that are free. Below stand `iq_base`
//! and `iq_bitmap`; above stand transactions and the shared state. Its one law: the least free block is taken first, and what
//! is given is free.
#![tactic(auto)]

mod free_list;

pub use free_list::FreeList;
