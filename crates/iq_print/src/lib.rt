//! The text of a statement: words in upper case, names as they are, brackets only where precedence needs them, and no `;`.
//!
//! Contracts see the text as `statement_text`, the tokens of the statement printed one by one. Below stand `iq_token_text`, which
//! prints tokens, `iq_spelling`, whose grammar by cases the text is of, and `iq_grammar`, which reads it; above stands nothing yet. Its
//! laws: what is printed of a statement that the grammar can spell is read as that statement, and each statement that is read is one
//! that the grammar can spell.
#![tactic(auto)]

mod conditions;
mod laws;
mod lists;
mod parts;
mod statements;
mod texts;

pub use laws::{parsed_is_spellable, printed_is_read, read_back, spelled_is_spellable};
pub use texts::print;
