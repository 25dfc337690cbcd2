//! Tests of values in cells and of pages in memory, by the public calls of `iq_base` and `iq_pages`.
#![tactic(auto)]

#[cfg(test)]
mod cells;
#[cfg(test)]
mod pages;
