//! Opening a store the plain way: the definition itself as a program, over blocks in memory.
//!
//! Contracts see what it answers as `opened blocks` of `iq_opening`: the set of reached blocks, or the first fault. It makes the whole
//! list of steps and looks at one after the other; it is as slow as that, and takes no call of `iq_opening`. Below stand `iq_opening`
//! with the definitions and `iq_catalog` with descriptors; above stand tests, which lay it beside `open`. Its one law: it is the
//! definition.
#![tactic(auto)]

mod bytes;
mod roots;
mod steps;
mod tables;
mod texts;
mod walk;

pub use walk::{Fault, plain_opened};
