//! The grammar of statements as its readers know it, by cases, beside the table by which texts are read.
//!
//! Contracts see the texts of a statement as `IsText`, lists of tokens without their places. Below stands `iq_grammar`, whose table reads
//! texts; above stands `iq_print`, which prints statements. Its one law: the table reads these texts, each as its statement, and no others.
#![tactic(auto)]

mod spelled;

pub use spelled::texts_are_the_same;
