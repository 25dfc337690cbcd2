//! What no clause of the store's crates says: that calls succeed, the bytes of blocks and roots, and what stops leave.
//!
//! Below stand `iq_block_store`, `iq_block_map`, `iq_root` and `iq_free_list`, and nothing stands above.
#![tactic(auto)]

#[cfg(test)]
mod blocks;
#[cfg(test)]
mod checks;
#[cfg(test)]
mod free_lists;
#[cfg(test)]
mod objects;
#[cfg(test)]
mod roots;
