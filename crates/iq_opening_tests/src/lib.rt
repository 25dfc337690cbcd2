//! What no clause says of opening a store: that right stores open, and which block and cause is told of hostile ones.
//!
//! Below stand `iq_opening` and `iq_plain_opening`, and nothing stands above. The images are made block by block, and each row names the block and the cause by
//! the format's page, not by the program.
#![tactic(auto)]

#[cfg(test)]
mod checks;
#[cfg(test)]
mod hostile;
#[cfg(test)]
mod images;
#[cfg(test)]
mod large;
#[cfg(test)]
mod stores;
#[cfg(test)]
mod sweeps;
#[cfg(test)]
mod tables;
#[cfg(test)]
mod two_faults;
