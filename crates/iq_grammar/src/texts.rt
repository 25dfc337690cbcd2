//! The statement or the directive of a text.
ghost use Rattle.std.specs.Prelude.{◌≡◌, IfOk, Err, List, ℕ};
ghost use Rattle.iq_ast.specs.declared.statements.Statement.{Statement as TheStatement};
ghost use Rattle.iq_grammar.specs.declared.directives.Directive.{Directive as TheDirective};
ghost use Rattle.iq_grammar.specs.Statements.{IsStatementOf, IsFaultOf, Is};
ghost use Rattle.iq_grammar.specs.Directives.{IsDirectiveOf, IsDirectiveFault, Directs};

use crate::directives::Directive;
use crate::faults::ParseFault;
use crate::reader::{read, read_directive};
use iq_ast::Statement;
use std::alloc::Global;

/// The statement that a text spells, with or without a `;` at its end, in time linear in the text. `Syntax` comes exactly where it
/// spells none: its place is that of the first token after which no text of the grammar goes on, of bytes that begin no token, of
/// a token that breaks a rule, or the text's length plus 1 where it ends too early. A LOAD's own text is empty.
pub fn parse(alloc: Global, text: &str) -> Result<Statement, ParseFault>
    ensures found { IfOk result (IsStatementOf text.now) }
    ensures only { (s : TheStatement) → IsStatementOf text.now s → Is s result }
    ensures place { (place : ℕ) → result ≡ Err (ParseFault.Syntax place) → IsFaultOf text.now place }
{
    parse_bytes(alloc, text.as_bytes())
}

/// The same of the bytes of a text, whose end or beginning may be cut off within a line.
pub fn parse_bytes(alloc: Global, text: &[u8]) -> Result<Statement, ParseFault>
    ensures found { IfOk result (IsStatementOf text.now) }
    ensures only { (s : TheStatement) → IsStatementOf text.now s → Is s result }
    ensures place { (place : ℕ) → result ≡ Err (ParseFault.Syntax place) → IsFaultOf text.now place }
{
    let draft = read(alloc, text)?;
    Ok(draft.finish(alloc)?)
}

/// The declaration or the step that a text spells, with or without a `;` at its end, in time linear in the text. `Syntax` comes
/// exactly where it spells none, and its place is that of `parse`, by the texts of directives.
pub fn parse_directive(alloc: Global, text: &[u8]) -> Result<Directive, ParseFault>
    ensures found { IfOk result (IsDirectiveOf text.now) }
    ensures only { (given : TheDirective) → IsDirectiveOf text.now given → Directs given result }
    ensures place { (place : ℕ) → result ≡ Err (ParseFault.Syntax place) → IsDirectiveFault text.now place }
{
    let draft = read_directive(alloc, text)?;
    Ok(draft.direct())
}

/// A text spells one directive at most.
pub fn one_directive()
    ensures { (text : List ℕ) (s t : TheDirective) → IsDirectiveOf text s → IsDirectiveOf text t → s ≡ t }
{}

/// A text spells one statement at most.
pub fn one_statement()
    ensures { (text : List ℕ) (s t : TheStatement) → IsStatementOf text s → IsStatementOf text t → s ≡ t }
{}

/// A text that spells a statement has no fault, and any text has one place of a fault at most.
pub fn statement_or_place()
    ensures not_both { (text : List ℕ) (s : TheStatement) (place : ℕ) → IsStatementOf text s → IsFaultOf text place → ⊥ }
    ensures one_place { (text : List ℕ) (m n : ℕ) → IsFaultOf text m → IsFaultOf text n → m ≡ n }
{}

/// The same of directives.
pub fn directive_or_place()
    ensures not_both { (text : List ℕ) (given : TheDirective) (place : ℕ) → IsDirectiveOf text given → IsDirectiveFault text place → ⊥ }
    ensures one_place { (text : List ℕ) (m n : ℕ) → IsDirectiveFault text m → IsDirectiveFault text n → m ≡ n }
{}
