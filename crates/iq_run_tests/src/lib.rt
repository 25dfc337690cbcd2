//! Tests of `iq_run`: whole runs over streams in memory, and the same runs beside those of the plain program.
#![tactic(auto)]

#[cfg(test)]
mod plain;
#[cfg(test)]
mod runs;
