//! Tokens, and the kinds that the grammar tells apart.
ghost use Rattle.std.specs.Prelude.{◌≡◌};
ghost use Rattle.iq_tokens.specs.Kinds as spec;

use crate::quotes::InQuotes;
use iq_base::Name;

/// The reserved words that the grammar uses, and its symbols. `Other` is any other word that is no name, and `Bad` are bytes that
/// begin no token.
#[derive(Clone, Copy, Debug, PartialEq, Eq)]
pub enum Mark {
    Alter,
    And,
    Apply,
    Asc,
    Begin,
    Between,
    Bigint,
    By,
    Cmp,
    Commit,
    Coordinator,
    Count,
    Create,
    Delete,
    Desc,
    Drop,
    Excluded,
    Explain,
    From,
    Group,
    Hg,
    Hng,
    In,
    Included,
    Index,
    Insert,
    Int,
    Into,
    Is,
    Lf,
    Load,
    Lose,
    Max,
    Min,
    Multiplex,
    Node,
    Not,
    Null,
    On,
    Or,
    Order,
    Reader,
    Release,
    Report,
    Restart,
    Rollback,
    Rows,
    Savepoint,
    Select,
    Server,
    Session,
    Set,
    Space,
    Status,
    Sum,
    Sync,
    Table,
    Take,
    To,
    Transaction,
    Update,
    Values,
    Varchar,
    Versions,
    Where,
    Writer,
    Open,
    Close,
    Comma,
    Star,
    Dot,
    Semicolon,
    Colon,
    Equal,
    Differs,
    Less,
    AtMost,
    More,
    AtLeast,
    Other,
    Bad,
}

/// What the grammar tells apart at one token: a certain mark, or any name, number or text.
#[derive(Clone, Copy, Debug)]
pub enum Kind {
    Mark(Mark),
    Name,
    Number,
    Text,
}

/// A token without its place: a mark, a name in lower case, a number of 64 bits with a sign, or the value of a text in quotes.
#[derive(Debug, Drop)]
pub enum Lexeme<'a> {
    Mark(Mark),
    Name(Name),
    Number(i64),
    Text(InQuotes<'a>),
}

/// A token and its place: the number of its first byte in the text, from 1.
#[derive(Debug, Drop)]
pub struct Token<'a> {
    pub place: usize,
    pub lexeme: Lexeme<'a>,
}

impl<'a> Lexeme<'a> {
    /// The kind of the token.
    pub fn kind(&self) -> Kind
        ensures { result ≡ spec.kind_of self.now }
    {
        match self {
            Lexeme::Mark(mark) => Kind::Mark(*mark),
            Lexeme::Name(_) => Kind::Name,
            Lexeme::Number(_) => Kind::Number,
            Lexeme::Text(_) => Kind::Text,
        }
    }
}

#[tactic(auto, unfolding(crate::specs::Kinds::same_mark))]
fn is_same_mark(a: Mark, b: Mark) -> bool
    ensures { result ≡ spec.same_mark a b }
{
    a == b
}

/// Whether two kinds are one.
#[tactic(auto, unfolding(crate::specs::Kinds::same))]
pub fn is_same(a: Kind, b: Kind) -> bool
    ensures { result ≡ spec.same a b }
{
    match (a, b) {
        (Kind::Mark(a), Kind::Mark(b)) => is_same_mark(a, b),
        (Kind::Name, Kind::Name) => true,
        (Kind::Number, Kind::Number) => true,
        (Kind::Text, Kind::Text) => true,
        _ => false,
    }
}
