//! The text of tokens: words in upper case, names as they are, values in quotes, and one blank between two tokens that don't touch.
//!
//! Contracts see a text under way as `Printed`, its bytes and the kind of its last token, and the text of tokens as `tokens_text`.
//! Below stands `iq_tokens`, which cuts a text; above stands `iq_print`, which prints statements. Its one law: what is printed of
//! tokens is cut into these tokens.
#![tactic(auto)]

mod laws;
mod marks;
mod text;

pub use laws::printed_tokens_are_cut;
pub use text::TokenText;
