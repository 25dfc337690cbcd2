//! Conditions of WHERE: their truth on a row, the tests that they are made of, and how a plan serves and prints these.
//!
//! Contracts see a condition's truth as `cond_truth` of specs/Conditions, and a plan's text as `plan_texts` of specs/PlanTexts. Below
//! stands `iq_truth`, with the truth of one test and its negation; above stands `iq_statements`, which says what the statements mean.
//! It is definitions, but for the type of what serves a test.
#![tactic(auto)]

mod servers;

pub use servers::Server;
