//! Tests of the layers of the shared state, over their public calls alone.
//!
//! `worlds` has tables of steps and of what each changes; `turns` has threads that take turns at a `counter`, which is the
//! smallest shared state: an example of a client of `iq_turnstile`, with its notes and its act. Nothing stands above.
#![tactic(auto)]

pub mod counter;
#[cfg(test)]
mod turns;
#[cfg(test)]
mod worlds;
