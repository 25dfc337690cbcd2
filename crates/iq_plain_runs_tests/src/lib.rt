//! Tests of the plain program of runs: tables of lines, each beside the reply that was written by hand.
#![tactic(auto)]

#[cfg(test)]
mod queries;
#[cfg(test)]
mod replies;
#[cfg(test)]
mod reports;
#[cfg(test)]
mod script;
#[cfg(test)]
mod sessions;
#[cfg(test)]
mod steps;
#[cfg(test)]
mod transactions;
