//! What no clause of the catalog says: that calls succeed, the bytes of descriptors by hand, and each rule broken in turn.
//!
//! Below stands `iq_catalog` with the crates below it, and nothing stands above.
#![tactic(auto)]

#[cfg(test)]
mod descriptors;
#[cfg(test)]
mod pages;
#[cfg(test)]
mod tables;
