//! Tests of the plain program of statements: each of its calls once, beside rows, texts and refusals that were written by hand.
#![tactic(auto)]

#[cfg(test)]
mod made;
#[cfg(test)]
mod queries;
#[cfg(test)]
mod refused;
#[cfg(test)]
mod writes;
