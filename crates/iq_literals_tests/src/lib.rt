//! Tests of values and rows in few bytes, by the public calls of `iq_literals`.
#![tactic(auto)]

#[cfg(test)]
mod packed;
