//! Lists with room that was made before, so that a later call takes no memory.
//!
//! Contracts see such a list as its items and the number of items that it can still take (`Room`). Below stands `iq_base` with
//! want of memory; above stand the parts of the shared state. Its one law: what is put into room that was made never fails.
#![tactic(auto)]

mod roomed;

pub use roomed::Roomed;
