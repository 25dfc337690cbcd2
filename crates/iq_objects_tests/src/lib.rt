//! What no clause of the opened objects says: that calls succeed, how many blocks they take, and what is read afterwards.
//!
//! Below stands `iq_objects`, and nothing stands above.
#![tactic(auto)]

#[cfg(test)]
mod checks;
#[cfg(test)]
mod objects;
