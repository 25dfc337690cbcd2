//! Tests of indexes over pages in memory, by the public calls of `iq_planes`, `iq_cmp` and `iq_hng`: rows that come in pieces beside
//! plain lists, calls that fail, pages that lack.
#![tactic(auto)]

#[cfg(test)]
mod compare;
#[cfg(test)]
mod slices;
