//! What one line says.
ghost use Rattle.std.specs.Prelude.{◌≡◌, ◌≤◌, ◌+◌, ℕ, IfOk, IfSome, Err, None, length};
ghost use Rattle.iq_tokens.specs.Tokens.{tokens_from};
ghost use Rattle.iq_script.specs.Pieces as spec;
ghost use Rattle.iq_script.specs.Pieces.{IsPieceOf, IsSyntaxOf, IsWithin, Says, Fails};

use iq_ast::Statement;
use iq_base::Name;
use iq_grammar::{Directive, ParseFault, begins_directive, parse_bytes, parse_directive};
use iq_tokens::{Cut, Kind, Lexeme, Mark, Token, is_same, next_token};
use std::alloc::Global;

/// The session that a line names, and how many bytes stand before its statement.
#[derive(Debug, Drop)]
pub struct Prefix {
    pub name: Name,
    pub bytes: usize,
}

/// What a line is by its first tokens.
#[derive(Debug, Drop)]
pub enum Front {
    Session(Prefix),
    Directive,
    Statement,
}

/// What a line says: a statement of the session that it names, or of the first, or a declaration or a step.
#[derive(Debug, Drop)]
pub enum Piece {
    Statement {
        session: Option<Name>,
        statement: Statement,
    },
    Directive(Directive),
}

fn is_colon(lexeme: &Lexeme<'_>) -> bool
    ensures { result ≡ spec.is_colon lexeme.now }
{
    is_same(lexeme.kind(), Kind::Mark(Mark::Colon))
}

/// The session of this name, whose first byte has this place, if a colon is the next token and stands directly behind it.
fn colon_behind(text: &[u8], from: usize, name: Name, first: usize) -> Option<Prefix>
    ensures value { result ≡ spec.colon_at name (first + length name) (tokens_from text.now from) }
    ensures within { IfSome result (λ p. p.bytes ≤ length text.now) }
{
    let Some(
        Cut {
            token: Token { place, lexeme },
            end: _,
        },
    ) = next_token(text, from)
    else {
        return None;
    };
    let len = name.as_str().len();
    if place >= len && place - len == first && is_colon(&lexeme) {
        return Some(Prefix { name, bytes: place });
    }
    None
}

fn without_session(directed: bool) -> Front
    ensures { result ≡ spec.front_by None directed }
{
    if directed {
        Front::Directive
    } else {
        Front::Statement
    }
}

/// What a line is by its first tokens.
fn front_of(text: &[u8]) -> Front
    ensures value { result ≡ spec.front_of text.now }
    ensures within { IsWithin result (length text.now) }
{
    let Some(
        Cut {
            token: Token { place, lexeme },
            end,
        },
    ) = next_token(text, 0)
    else {
        return Front::Statement;
    };
    let directed = begins_directive(&lexeme);
    if let Lexeme::Name(name) = lexeme {
        if let Some(prefix) = colon_behind(text, end, name, place) {
            return Front::Session(prefix);
        }
    }
    without_session(directed)
}

/// The statement behind the name of its session; the place of a fault counts the bytes before it.
fn behind_session(alloc: Global, text: &[u8], prefix: Prefix) -> Result<Piece, ParseFault>
    requires { prefix.bytes ≤ length text.now }
    ensures found { IfOk result (Says (Front.Session prefix) text.now) }
    ensures place { (place : ℕ) → result ≡ Err (ParseFault.Syntax place) → Fails (Front.Session prefix) text.now place }
{
    let Prefix { name, bytes } = prefix;
    match parse_bytes(alloc, text.split_at(bytes).1) {
        Ok(statement) => Ok(Piece::Statement {
            session: Some(name),
            statement,
        }),
        Err(ParseFault::Syntax { place }) => Err(ParseFault::Syntax {
            place: bytes + place,
        }),
        Err(ParseFault::NoMemory) => Err(ParseFault::NoMemory),
    }
}

/// What a line says, or the place of its first fault in the whole line, from 1.
pub fn piece_of(alloc: Global, text: &[u8]) -> Result<Piece, ParseFault>
    ensures found { IfOk result (IsPieceOf text.now) }
    ensures place { (place : ℕ) → result ≡ Err (ParseFault.Syntax place) → IsSyntaxOf text.now place }
{
    match front_of(text) {
        Front::Session(prefix) => behind_session(alloc, text, prefix),
        Front::Directive => Ok(Piece::Directive(parse_directive(alloc, text)?)),
        Front::Statement => Ok(Piece::Statement {
            session: None,
            statement: parse_bytes(alloc, text)?,
        }),
    }
}
