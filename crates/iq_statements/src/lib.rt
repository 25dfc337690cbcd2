//! What the statements on tables mean, over plain tables: the first refusal, the answer of a query, the effect of a write.
//!
//! Contracts see a database as a list of tables with ascending names, `answer` of specs/Answers, `effect` of specs/Effects, and the
//! tests that may refuse a statement as one list. Below stand `iq_conditions` and the types of `iq_model`; above stands `iq_replay`.
#![tactic(auto)]
