//! What is printed of a text, and what a text spells.
use iq_grammar::parse;
use iq_print::print;
use std::alloc::{AllocError, Global};

/// The statement of a text, or the fault, as `Debug` shows it.
pub fn shown(alloc: Global, text: &str) -> Result<String, AllocError> {
    match parse(alloc, text) {
        Ok(statement) => format!(in alloc; "{statement:?}"),
        Err(fault) => format!(in alloc; "{fault:?}"),
    }
}

/// What is printed of the statement of a text, or the fault.
pub fn printed(alloc: Global, text: &str) -> Result<String, AllocError> {
    match parse(alloc, text) {
        Ok(statement) => match print(alloc, &statement) {
            Ok(text) => Ok(text),
            Err(fault) => format!(in alloc; "{fault:?}"),
        },
        Err(fault) => format!(in alloc; "{fault:?}"),
    }
}
