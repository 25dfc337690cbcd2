//! The text of a statement.
ghost use Rattle.std.specs.Prelude.{◌≡◌, IfOk};
ghost use Rattle.std.specs.String.{string_bytes};
ghost use Rattle.iq_print.specs.Words.{statement_text};

use crate::statements::push_statement;
use iq_ast::Statement;
use iq_base::NoMemory;
use iq_token_text::TokenText;
use std::alloc::Global;

/// The text of a statement, in time and memory linear in its length; of a LOAD without its own text. One text of a statement is
/// printed whatever text it was read from: `INT` for `INTEGER`, `<>` for `!=`, nothing for `NULL` behind a kind and for `ASC`.
pub fn print(alloc: Global, statement: &Statement) -> Result<String, NoMemory>
    ensures { IfOk result (λ text. string_bytes text ≡ statement_text statement.now) }
{
    let mut out = TokenText::new(alloc);
    push_statement(&mut out, statement)?;
    Ok(out.into_string())
}
