//! What no clause of descriptors in blocks says: that calls succeed, the bytes of blocks by hand, and each block that is bad in turn.
//!
//! Below stands `iq_descriptors` with the crates below it, and nothing stands above.
#![tactic(auto)]

#[cfg(test)]
mod bad;
#[cfg(test)]
mod failing;
#[cfg(test)]
mod stores;
#[cfg(test)]
mod versions;
#[cfg(test)]
mod written;
