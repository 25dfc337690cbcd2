//! Tests of the High Group index over pages in memory, by the public calls of `iq_hg` and `iq_hg_leaves`: ranges and tests beside plain
//! lists, how many pages a range reads, pages that are bad.
#![tactic(auto)]

#[cfg(test)]
mod building;
#[cfg(test)]
mod faults;
#[cfg(test)]
mod reading;
