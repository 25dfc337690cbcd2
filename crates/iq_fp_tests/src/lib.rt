//! Tests of what a test of a row means, of pieces over pages and of columns as codes, by the public calls of `iq_truth`, `iq_pieces`
//! and `iq_fp` over pages in memory.
#![tactic(auto)]

#[cfg(test)]
mod checks;
#[cfg(test)]
mod columns;
#[cfg(test)]
mod counts;
#[cfg(test)]
mod hostile;
#[cfg(test)]
mod operators;
#[cfg(test)]
mod pairs;
#[cfg(test)]
mod pieces;
#[cfg(test)]
mod widths;
