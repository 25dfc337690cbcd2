//! That what is printed is read.
ghost use Rattle.std.specs.Prelude.{List, ℕ};
ghost use Rattle.iq_ast.specs.declared.statements.Statement.{Statement as TheStatement};
ghost use Rattle.iq_tokens.specs.declared.tokens.Lexeme.{Lexeme as TheLexeme};
ghost use Rattle.iq_grammar.specs.Statements.{IsStatementOf, Is};
ghost use Rattle.iq_spelling.specs.Texts.{IsText};
ghost use Rattle.iq_token_text.specs.Tokens.{AreLexemes};
ghost use Rattle.iq_print.specs.Words.{statement_words, statement_text};
ghost use Rattle.iq_print.specs.Spellable.{IsSpellable, without_text};

use crate::texts::print;
use iq_ast::Statement;
use iq_grammar::{ParseFault, parse};
use std::alloc::Global;

/// The text of a statement that the grammar can spell is of the grammar by cases, and spells that statement.
pub fn printed_is_read()
    ensures cases { (s : TheStatement) → IsSpellable s → IsText s (statement_words s) }
    ensures read { (s : TheStatement) → IsSpellable s → IsStatementOf (statement_text s) s }
{}

/// The grammar can spell each statement that a text of it by cases spells.
pub fn spelled_is_spellable()
    ensures { (s : TheStatement) (text : List TheLexeme) → IsText s text → AreLexemes text → IsSpellable s }
{}

/// What is read can be printed: the grammar can spell each statement that a text is read as, and the text that is printed of it is
/// read as that statement again. The text may be of any bytes: a value in quotes that isn't UTF-8 is no token of the grammar.
pub fn parsed_is_spellable()
    ensures spellable { (text : List ℕ) (s : TheStatement) → IsStatementOf text s → IsSpellable s }
    ensures again { (text : List ℕ) (s : TheStatement) → IsStatementOf text s → IsStatementOf (statement_text s) s }
{}

/// What `parse` gives for what `print` gives: that statement, a LOAD with an empty text, if the grammar can spell it. `NoMemory`
/// comes where memory is wanting.
pub fn read_back(alloc: Global, statement: &Statement) -> Result<Statement, ParseFault>
    ensures { IsSpellable (without_text statement.now) → Is (without_text statement.now) result }
{
    let text = print(alloc, statement)?;
    parse(alloc, text.as_str())
}
