//! Texts in quotes.
ghost use Rattle.std.specs.Prelude.{◌≡◌, ◌<◌, ◌≤◌, length, IfSome};
ghost use Rattle.iq_tokens.specs.Quotes as spec;

use arrayvec::ArrayVec;
use iq_base::Text;
use std::fmt;
use std::marker::Model;

/// The value of a text in quotes, and how many bytes it took with its closing quote.
#[derive(Debug, Drop)]
pub struct Quoted {
    pub value: Text,
    pub bytes: usize,
}

/// A text in quotes as it lies in a text of tokens: what stands behind its first quote. Contracts see its value, which is read anew where
/// it is wanted, so that a token is no larger than a name.
#[derive(Drop)]
pub struct InQuotes<'a> {
    pub(crate) behind: &'a [u8],
}

impl<'a> Model for InQuotes<'a> {
    ghost use Rattle.std.specs.Prelude.{◌≡◌, List, ℕ, true, is_some};
    ghost use Rattle.iq_tokens.specs.Quotes.{quoted, kept, value_of};

    ghost Value = { List ℕ };

    ghost view = { λ q. value_of (kept (quoted q.behind.now)) };

    ghost invariant = { λ q. is_some (kept (quoted q.behind.now)) ≡ true };
}

impl<'a> InQuotes<'a> {
    /// The value of the text.
    pub fn value(&self) -> Text
        ensures { result ≡ self.now }
    {
        match read_quoted(self.behind) {
            Some(quoted) => quoted.value,
            None => unreachable!(),
        }
    }
}

impl<'a> fmt::Debug for InQuotes<'a> {
    fn fmt<W: fmt::Write>(&self, f: &mut fmt::Formatter<W>) -> fmt::Result {
        fmt::Debug::fmt(&self.value(), f)
    }
}

/// The value of these bytes, if they are UTF-8.
fn valued(value: &[u8], bytes: usize) -> Option<Quoted>
    requires { length value.now ≤ 255 }
    ensures value { result ≡ spec.valid value.now bytes }
    ensures bytes { IfSome result (λ q. q.bytes ≡ bytes) }
{
    match str::from_utf8(value) {
        Ok(text) => {
            let value = Text::of(text)?;
            Some(Quoted { value, bytes })
        }
        Err(_) => None,
    }
}

/// Whether the byte stands at the place.
fn is_at(text: &[u8], at: usize, byte: u8) -> bool
    ensures { result ≡ spec.is_at text.now at byte }
{
    if at < text.len() {
        return text[at] == byte;
    }
    false
}

/// How many bytes stand at the place for one of the value: two at a doubled quote, and none at the quote that closes it.
fn bytes_at(text: &[u8], at: usize) -> usize
    requires { at < length text.now }
    ensures { result ≡ spec.bytes_at text.now at }
{
    if text[at] == b'\'' {
        if is_at(text, at + 1, b'\'') {
            return 2;
        }
        return 0;
    }
    1
}

/// The text behind an opening quote, if one closes it and its value is of at most 255 bytes of UTF-8.
pub fn read_quoted(text: &[u8]) -> Option<Quoted>
    ensures value { result ≡ spec.kept (spec.quoted text.now) }
    ensures within { IfSome result (λ q. q.bytes ≤ length text.now) }
{
    let mut value: ArrayVec<u8, 255> = ArrayVec::new();
    let mut at = 0;
    'bytes: while at < text.len() {
        let bytes = bytes_at(text, at);
        if bytes == 0 {
            return valued(value.as_slice(), at + 1);
        }
        if value.is_full() {
            return None;
        }
        value.push(text[at]);
        at += bytes;
    }
    None
}
