//! Tests of the language: statements of `iq_grammar` and scripts of `iq_script`, read from texts that were written by hand.
//!
//! No clause says that a call succeeds where memory is ample: the texts here go up to the limits of the language.
#![tactic(auto)]

#[cfg(test)]
mod bytes;
#[cfg(test)]
mod faults;
#[cfg(test)]
mod limits;
#[cfg(test)]
mod marked;
#[cfg(test)]
mod scripts;
#[cfg(test)]
mod statements;
