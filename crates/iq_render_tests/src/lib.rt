//! Tests of printed texts: one of each kind and one whole run, beside texts that were written down by hand.
#![tactic(auto)]

#[cfg(test)]
mod entries;
#[cfg(test)]
mod refusals;
#[cfg(test)]
mod replies;
#[cfg(test)]
mod runs;
#[cfg(test)]
mod texts;
