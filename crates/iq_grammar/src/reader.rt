//! The reader: one step of the grammar for each token.
ghost use Rattle.std.specs.Prelude.{◌≡◌, IfOk, map, option_map};
ghost use Rattle.std.specs.Prelude.{ℕ, Ok, Err, length};
ghost use Rattle.iq_tokens.specs.Tokens.{tokens_of, lexemes};
ghost use Rattle.iq_grammar.specs.Statements.{IsFaultOf};
ghost use Rattle.iq_grammar.specs.Directives.{IsDirectiveFault, directs};
ghost use Rattle.iq_grammar.specs.declared.draft.Draft.{Draft as TheDraft};
ghost use Rattle.iq_grammar.specs.Draft.{empty};
ghost use Rattle.iq_grammar.specs.Reading.{run, Gives, whole_of, directive, Spells, IsSpelled};
ghost use Rattle.iq_grammar.specs.Grammar as spec;
ghost use Rattle.iq_grammar.specs.Grammar.{Moves, the_line};

use crate::draft::Draft;
use crate::faults::ParseFault;
use crate::grammar::{Line, Part, Role, Symbol, lines, may_lack};
use crate::stack::Stack;
use iq_tokens::{Cut, Kind, Lexeme, Token, is_same, next_token};
use std::alloc::{AllocError, Global};

/// The line of these that begins with the kind.
fn beginning(kind: Kind, mut lines: &[Line]) -> Option<Line>
    ensures { option_map the_line result ≡ spec.beginning kind (map the_line lines.entry.now) }
{
    'lines: while let [first, rest @ ..] = lines {
        if is_same(kind, first.kind) {
            return Some(*first);
        }
        lines = rest;
    }
    None
}

/// Whether a token begins a directive.
pub fn begins_directive(lexeme: &Lexeme<'_>) -> bool
    ensures { result ≡ directs lexeme.now }
{
    beginning(lexeme.kind(), lines(Part::Directive)).is_some()
}

/// The role of a token of this kind at these symbols, which become what has to follow.
#[tactic(auto, unfolding(crate::specs::Grammar::after))]
fn step(symbols: &mut Stack, kind: Kind) -> Result<Option<Role>, AllocError>
    ensures { IfOk result (λ role. Moves (spec.after symbols.old kind) role symbols.new) }
{
    'symbols: while let Some(symbol) = symbols.pop() {
        match symbol {
            Symbol::Word(expected, role) => {
                return Ok(if is_same(kind, expected) {
                    Some(role)
                } else {
                    None
                });
            }
            Symbol::Go(part) => match beginning(kind, lines(part)) {
                Some(line) => {
                    symbols.put(line.rest)?;
                    return Ok(Some(line.role));
                }
                None => {
                    if !may_lack(part) {
                        return Ok(None);
                    }
                }
            },
        }
    }
    Ok(None)
}

/// Whether nothing need follow.
#[tactic(auto, unfolding(crate::specs::Grammar::can_end))]
fn can_end(mut symbols: Stack) -> bool
    ensures { result ≡ spec.can_end symbols }
{
    'symbols: while let Some(symbol) = symbols.pop() {
        match symbol {
            Symbol::Word(_, _) => return false,
            Symbol::Go(part) => {
                if !may_lack(part) {
                    return false;
                }
            }
        }
    }
    true
}

#[tactic(auto, unfolding(crate::specs::Reading::run, crate::specs::Reading::next))]
fn reading(alloc: Global, text: &[u8], whole: Part) -> Result<Draft, ParseFault>
    ensures { Gives result (run (length text.now) empty (whole_of whole) (tokens_of text.now)) }
{
    let mut symbols = Stack::new(alloc);
    symbols.put(&[Symbol::Go(whole), Symbol::Go(Part::End)])?;
    let mut draft = Draft::new(alloc);
    let mut at = 0;
    'tokens: while let Some(Cut { token, end }) = next_token(text, at) {
        let Token { place, lexeme } = token;
        let Some(role) = step(&mut symbols, lexeme.kind())? else {
            return Err(ParseFault::Syntax { place });
        };
        if !draft.put(alloc, role, &lexeme)? {
            return Err(ParseFault::Syntax { place });
        }
        at = end;
    }
    if can_end(symbols) {
        return Ok(draft);
    }
    Err(ParseFault::Syntax {
        place: text.len() + 1,
    })
}

/// The draft of the statement that a text spells, or the place of its fault.
pub fn read(alloc: Global, text: &[u8]) -> Result<Draft, ParseFault>
    ensures found { IfOk result (IsSpelled (lexemes (tokens_of text.now))) }
    ensures only { (d : TheDraft) → IsSpelled (lexemes (tokens_of text.now)) d → Gives result (Ok d) }
    ensures place { (place : ℕ) → result ≡ Err (ParseFault.Syntax place) → IsFaultOf text.now place }
{
    reading(alloc, text, Part::Statement)
}

/// The draft of the directive that a text spells, or the place of its fault.
pub fn read_directive(alloc: Global, text: &[u8]) -> Result<Draft, ParseFault>
    ensures found { IfOk result (Spells empty directive (lexemes (tokens_of text.now))) }
    ensures only { (d : TheDraft) → Spells empty directive (lexemes (tokens_of text.now)) d → Gives result (Ok d) }
    ensures place { (place : ℕ) → result ≡ Err (ParseFault.Syntax place) → IsDirectiveFault text.now place }
{
    reading(alloc, text, Part::Directive)
}
