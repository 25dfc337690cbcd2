//! The tokens of a statement's text, one by one from left to right.
//!
//! Contracts see a text as the list of its bytes and its tokens as `tokens_of`, each with its place; what a token is without its
//! place is a `Lexeme`. Below stand `iq_base`, whose names and texts tokens hold, and `iq_ast`, which has the reserved words; above
//! stand the grammar, which reads tokens, and the printer, which writes them. Its one law: a token is always the longest that the
//! rest of the text begins with, and behind bytes that begin none there is no other.
#![tactic(auto)]

mod lexer;
mod numbers;
mod quotes;
mod tokens;
mod words;

pub use lexer::{Cut, is_space, next_token};
pub use quotes::InQuotes;
pub use tokens::{Kind, Lexeme, Mark, Token, is_same};
pub use words::is_name;
