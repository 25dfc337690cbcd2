//! A text under way, to which tokens are added one by one.
ghost use Rattle.std.specs.Prelude.{◌≡◌, ◌++◌, OnOk, flat_map, Some};
ghost use Rattle.std.specs.String.{string_bytes};
ghost use Rattle.iq_tokens.specs.declared.tokens.Lexeme.TheVariants as lexeme;
ghost use Rattle.iq_token_text.specs.Texts as spec;
ghost use Rattle.iq_token_text.specs.Texts.{nothing, with_token, gap, quoted_byte, quoted_text};

use crate::marks::mark_text;
use iq_base::{Name, Text};
use iq_tokens::{Kind, Mark, is_same};
use std::alloc::{AllocError, Global};
use std::marker::Model;

/// A text under way. Each call adds one token behind the last, with a blank between them where they don't touch; behind an `Err`,
/// which comes where memory is wanting, the text has a part of it.
#[derive(Drop)]
pub struct TokenText {
    text: String,
    last: Option<Kind>,
}

impl Model for TokenText {
    ghost use Rattle.std.specs.String.{string_bytes};
    ghost use Rattle.iq_token_text.specs.Texts.{Printed};

    ghost Value = { Printed };

    ghost view = { λ t. record { bytes = string_bytes t.text; last = t.last } };
}

impl TokenText {
    /// A text of no tokens.
    pub fn new(alloc: Global) -> TokenText
        ensures { result ≡ nothing }
    {
        TokenText {
            text: String::new(alloc),
            last: None,
        }
    }

    /// The text so far.
    pub fn into_string(self) -> String
        ensures { string_bytes result ≡ self.bytes }
    {
        self.text
    }

    /// A reserved word or a symbol.
    #[tactic(auto, unfolding(crate::specs::Texts::with_token))]
    pub fn mark(&mut self, mark: Mark) -> Result<(), AllocError>
        ensures { OnOk result (self.new ≡ with_token self.old (lexeme.Mark mark)) }
    {
        self.gap(Kind::Mark(mark))?;
        self.text.push_str(mark_text(mark))
    }

    /// A name.
    #[tactic(auto, unfolding(crate::specs::Texts::with_token))]
    pub fn name(&mut self, name: &Name) -> Result<(), AllocError>
        ensures { OnOk result (self.new ≡ with_token self.old (lexeme.Name name.now)) }
    {
        self.gap(Kind::Name)?;
        self.text.push_str(name.as_str())
    }

    /// A number with its sign.
    #[tactic(auto, unfolding(crate::specs::Texts::with_token))]
    pub fn number(&mut self, number: i64) -> Result<(), AllocError>
        ensures { OnOk result (self.new ≡ with_token self.old (lexeme.Number number)) }
    {
        self.gap(Kind::Number)?;
        write!(self.text, "{number}")
    }

    /// A value in quotes.
    #[tactic(auto, unfolding(crate::specs::Texts::with_token))]
    pub fn text(&mut self, value: &Text) -> Result<(), AllocError>
        ensures { OnOk result (self.new ≡ with_token self.old (lexeme.Text value.now)) }
    {
        self.gap(Kind::Text)?;
        push_quoted(&mut self.text, value.as_str())
    }

    /// What stands before a token of this kind, which is then the last.
    fn gap(&mut self, next: Kind) -> Result<(), AllocError>
        ensures { OnOk result (self.new ≡ record { bytes = self.old.bytes ++ gap self.old.last next; last = Some next }) }
    {
        if let Some(last) = self.last {
            if !touches(last, next) {
                self.text.push_str(" ")?;
            }
        }
        self.last = Some(next);
        Ok(())
    }
}

/// Whether the second of two tokens stands directly behind the first.
#[tactic(auto, unfolding(crate::specs::Texts::touches))]
fn touches(last: Kind, next: Kind) -> bool
    ensures { result ≡ spec.touches last next }
{
    opens(last) || closes(next) || (calls(last) && is_mark(Mark::Open, next))
}

fn is_mark(mark: Mark, kind: Kind) -> bool
    ensures { result ≡ spec.is_mark mark kind }
{
    is_same(kind, Kind::Mark(mark))
}

/// Whether no blank stands behind the token.
fn opens(kind: Kind) -> bool
    ensures { result ≡ spec.opens kind }
{
    is_mark(Mark::Open, kind) || is_mark(Mark::Dot, kind)
}

/// Whether no blank stands before the token.
fn closes(kind: Kind) -> bool
    ensures { result ≡ spec.closes kind }
{
    is_mark(Mark::Close, kind) || is_mark(Mark::Comma, kind) || is_mark(Mark::Dot, kind)
}

/// Whether a bracket stands directly behind the token.
fn calls(kind: Kind) -> bool
    ensures { result ≡ spec.calls kind }
{
    is_mark(Mark::Varchar, kind)
        || is_mark(Mark::Count, kind)
        || is_mark(Mark::Sum, kind)
        || is_mark(Mark::Min, kind)
        || is_mark(Mark::Max, kind)
}

/// A value in quotes.
fn push_quoted(out: &mut String, value: &str) -> Result<(), AllocError>
    ensures { OnOk result (string_bytes out.new ≡ string_bytes out.old ++ quoted_text value.now) }
{
    out.push_str("'")?;
    push_doubled(out, value)?;
    out.push_str("'")
}

/// A value with each quote doubled.
fn push_doubled(out: &mut String, value: &str) -> Result<(), AllocError>
    ensures { OnOk result (string_bytes out.new ≡ string_bytes out.old ++ flat_map quoted_byte value.now) }
{
    let mut rest = value;
    'quotes: while let Some((before, after)) = rest.split_once('\'') {
        out.push_str(before)?;
        out.push_str("''")?;
        rest = after;
    }
    out.push_str(rest)
}
