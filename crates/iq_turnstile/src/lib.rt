//! A turn-taking lock over any shared state, whose passes know what they have done to it.
//!
//! Contracts see a `Pass` as its number of parts and one note, a value of contracts alone. Below stands `atomic_table`, whose
//! single steps keep the rule; above stand the crates that give a shared state with its notes, and acts on it. Whoever
//! has the state has it alone, every note agrees with it before and after each turn, and only who brings all parts gets it back.
#![tactic(auto)]

mod close;
mod make;
mod parts;
mod plays;
mod rule;
mod shared;
mod turn;
mod turnstile;
mod view;

pub use shared::{Act, Shared};
pub use turnstile::{Kept, Pass, Returned, Turnstile};
