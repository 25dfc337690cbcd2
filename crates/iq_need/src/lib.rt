//! How many blocks a store needs for a script, so that no line is refused for want of space.
//!
//! Contracts see it as `need` of specs/Need: a number of the script and the opening tables, which never looks at the run. Below
//! stand `iq_statements` and the types of `iq_model`. It is an upper bound: a run may take fewer blocks.
#![tactic(auto)]
