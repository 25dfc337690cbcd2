//! What no clause of `iq_outside` says: that calls succeed where memory is ample, and what files and streams hand on.
//!
//! Below stands `iq_outside`, and nothing stands above.
#![tactic(auto)]

#[cfg(test)]
mod devices;
#[cfg(test)]
mod streams;
