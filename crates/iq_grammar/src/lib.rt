//! The grammar of all statements, declarations and steps, as a table, and the one reader over it.
//!
//! Contracts see a text as its tokens, each in a role; a statement is spelled where the tokens are of the table's form, obey the rules,
//! and say that statement. Below stand `iq_tokens`, which cuts a text, and `iq_ast`, whose statements are made; above stands what
//! reads lines of a script. Its one law: a text spells one statement at most and is read as that, or else its fault is at the first
//! token behind which no text of the grammar goes on. A new form of statement is a line or two of the table.
#![tactic(auto)]

mod directives;
mod draft;
mod faults;
mod grammar;
mod reader;
mod stack;
mod texts;

pub use directives::Directive;
pub use draft::{MOST_COLUMNS, MOST_DEPTH, MOST_LENGTH, MOST_NUMBER, MOST_ROWS};
pub use faults::ParseFault;
pub use reader::begins_directive;
pub use texts::{
    directive_or_place, one_directive, one_statement, parse, parse_bytes, parse_directive,
    statement_or_place,
};
