//! Tests of what transactions have in memory, by the public calls of `iq_roomed`, `iq_locks`, `iq_txn` and `iq_version_log`: names
//! that are locked, blocks that are taken and go home, savepoints, versions that are kept.
#![tactic(auto)]

#[cfg(test)]
mod blocks;
#[cfg(test)]
mod checks;
#[cfg(test)]
mod locks;
#[cfg(test)]
mod rooms;
#[cfg(test)]
mod savepoints;
#[cfg(test)]
mod versions;
