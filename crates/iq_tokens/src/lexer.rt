//! Cuts a text into tokens.
ghost use Rattle.std.specs.Prelude.{◌≡◌, ◌+◌, ◌<◌, ◌≤◌, ◌↔◌, true, length, map, slice_index, IsSome, IfSome};
ghost use Rattle.std.specs.List.{prefix_len};
ghost use Rattle.std.specs.Char.{is_ascii_digit, to_ascii_lowercase};
ghost use Rattle.std.specs.Str.{IsAscii};
ghost use Rattle.iq_tokens.specs.Tokens as spec;
ghost use Rattle.iq_tokens.specs.Tokens.{Cuts};

use crate::numbers::signed;
use crate::quotes::{InQuotes, Quoted, read_quoted};
use crate::tokens::{Lexeme, Mark, Token};
use crate::words::{MOST_NAME, reserved};
use iq_base::Name;

/// A token at the front of a text, and how many bytes it takes.
#[derive(Debug, Drop)]
pub struct Front<'a> {
    pub lexeme: Lexeme<'a>,
    pub bytes: usize,
}

/// A token of a text, and the place behind it, counted from 0.
#[derive(Debug, Drop)]
pub struct Cut<'a> {
    pub token: Token<'a>,
    pub end: usize,
}

/// Whether a byte is a space or a tab.
pub fn is_space(b: u8) -> bool
    ensures { result ≡ spec.is_space b }
{
    b == b' ' || b == b'\t'
}

fn is_word_byte(b: u8) -> bool
    ensures { result ≡ spec.is_word_byte b }
{
    b.is_ascii_alphanumeric() || b == b'_'
}

/// How many bytes of a word the text begins with.
fn word_len(text: &[u8]) -> usize
    ensures value { result ≡ prefix_len spec.is_word_byte text.now }
    ensures within { result ≤ length text.now }
{
    for (at, b) in text.iter().enumerate() {
        if is_word_byte(*b) {
            continue;
        }
        return at;
    }
    text.len()
}

/// How many digits the text begins with.
fn digits_len(text: &[u8]) -> usize
    ensures value { result ≡ prefix_len is_ascii_digit text.now }
    ensures within { result ≤ length text.now }
{
    for (at, b) in text.iter().enumerate() {
        if b.is_ascii_digit() {
            continue;
        }
        return at;
    }
    text.len()
}

/// A word in lower case, if it is no longer than a name.
fn lowered(word: &[u8]) -> Option<Name>
    requires { IsAscii word.now }
    ensures some { IsSome result ↔ (length word.now ≤ 30) }
    ensures value { IfSome result (λ n. n ≡ map to_ascii_lowercase word.now) }
{
    if word.len() > MOST_NAME {
        return None;
    }
    let mut bytes = [0u8; MOST_NAME];
    let front = &mut bytes[..word.len()];
    front.copy_from_slice(word);
    front.make_ascii_lowercase();
    match str::from_utf8(front) {
        Ok(text) => Name::of(text),
        Err(_) => None,
    }
}

/// A word of at most 30 bytes: a mark, or a name.
fn named<'a>(name: Name) -> Lexeme<'a>
    ensures { result ≡ spec.named (spec.reserved name) name }
{
    match reserved(name.as_str().as_bytes()) {
        Some(mark) => Lexeme::Mark(mark),
        None => Lexeme::Name(name),
    }
}

#[tactic(auto, unfolding(crate::specs::Tokens::word_at))]
fn word_at(text: &[u8]) -> Front<'_>
    ensures value { result ≡ spec.word_at text.now }
    ensures within { result.bytes ≤ length text.now }
    ensures moves { spec.is_word_byte (slice_index text.now 0) ≡ true → 0 < result.bytes }
{
    let bytes = word_len(text);
    let lexeme = match lowered(text.split_at(bytes).0) {
        Some(name) => named(name),
        None => Lexeme::Mark(Mark::Other),
    };
    Front { lexeme, bytes }
}

/// Whether a byte of a word stands at the place.
fn is_word_at(text: &[u8], at: usize) -> bool
    ensures { result ≡ spec.is_word_byte (slice_index text.now at) }
{
    if at < text.len() {
        return is_word_byte(text[at]);
    }
    false
}

fn bad(text: &[u8]) -> Front<'_>
    ensures { result ≡ spec.bad text.now }
{
    Front {
        lexeme: Lexeme::Mark(Mark::Bad),
        bytes: text.len(),
    }
}

/// The number of a text, behind its sign of so many bytes.
#[tactic(auto, unfolding(crate::specs::Tokens::number_at))]
fn number_at<'a>(text: &'a [u8], negative: bool, sign: usize, digits: &[u8]) -> Front<'a>
    requires { sign + length digits.now ≡ length text.now }
    ensures value { result ≡ spec.number_at text.now negative sign digits.now }
    ensures within { result.bytes ≤ length text.now }
    ensures moves { 0 < length text.now → 0 < result.bytes }
{
    let bytes = digits_len(digits);
    if bytes == 0 || is_word_at(digits, bytes) {
        return bad(text);
    }
    match signed(negative, digits.split_at(bytes).0) {
        Some(number) => Front {
            lexeme: Lexeme::Number(number),
            bytes: bytes + sign,
        },
        None => bad(text),
    }
}

/// The text in quotes that a text begins with, behind its first quote.
#[tactic(auto, unfolding(crate::specs::Tokens::text_at))]
fn text_at<'a>(text: &'a [u8], rest: &'a [u8]) -> Front<'a>
    requires { 1 + length rest.now ≡ length text.now }
    ensures value { result ≡ spec.text_at text.now rest.now }
    ensures within { result.bytes ≤ length text.now }
    ensures moves { 0 < result.bytes }
{
    match read_quoted(rest) {
        Some(Quoted { value: _, bytes }) => Front {
            lexeme: Lexeme::Text(InQuotes { behind: rest }),
            bytes: 1 + bytes,
        },
        None => bad(text),
    }
}

/// A symbol of two bytes.
#[tactic(auto, unfolding(crate::specs::Tokens::pair))]
fn pair(first: u8, second: u8) -> Option<Mark>
    ensures value { result ≡ spec.pair first second }
    ensures second { IsSome result → 0 < second }
{
    match (first, second) {
        (b'<', b'=') => Some(Mark::AtMost),
        (b'<', b'>') => Some(Mark::Differs),
        (b'!', b'=') => Some(Mark::Differs),
        (b'>', b'=') => Some(Mark::AtLeast),
        _ => None,
    }
}

/// A symbol of one byte.
#[tactic(auto, unfolding(crate::specs::Tokens::single))]
fn single(first: u8) -> Option<Mark>
    ensures { result ≡ spec.single first }
{
    match first {
        b'<' => Some(Mark::Less),
        b'>' => Some(Mark::More),
        b'=' => Some(Mark::Equal),
        b'(' => Some(Mark::Open),
        b')' => Some(Mark::Close),
        b',' => Some(Mark::Comma),
        b'*' => Some(Mark::Star),
        b'.' => Some(Mark::Dot),
        b';' => Some(Mark::Semicolon),
        b':' => Some(Mark::Colon),
        _ => None,
    }
}

/// The symbol by the first byte of a text and the one behind it, or 0.
#[tactic(auto, unfolding(crate::specs::Tokens::symbol_at))]
fn symbol_at(text: &[u8], first: u8, second: u8) -> Front<'_>
    requires some { 0 < length text.now }
    requires second { 0 < second → 1 < length text.now }
    ensures value { result ≡ spec.symbol_at text.now first second }
    ensures within { result.bytes ≤ length text.now }
    ensures moves { 0 < result.bytes }
{
    if let Some(mark) = pair(first, second) {
        return Front {
            lexeme: Lexeme::Mark(mark),
            bytes: 2,
        };
    }
    match single(first) {
        Some(mark) => Front {
            lexeme: Lexeme::Mark(mark),
            bytes: 1,
        },
        None => bad(text),
    }
}

#[tactic(auto, unfolding(crate::specs::Tokens::front_of))]
fn first_token(text: &[u8]) -> Front<'_>
    requires { 0 < length text.now }
    ensures value { result ≡ spec.front_of text.now }
    ensures within { result.bytes ≤ length text.now }
    ensures moves { 0 < result.bytes }
{
    match text {
        [] => bad(text),
        [first, rest @ ..] => {
            if first.is_ascii_digit() {
                number_at(text, false, 0, text)
            } else if is_word_byte(*first) {
                word_at(text)
            } else if *first == b'-' {
                number_at(text, true, 1, rest)
            } else if *first == b'\'' {
                text_at(text, rest)
            } else {
                symbol_at(text, *first, rest.first().copied().unwrap_or(0))
            }
        }
    }
}

/// The token of a text that comes next from a place, counted from 0, in time linear in the bytes up to its end; `None` where only
/// spaces and tabs are left. It is the longest that stands there. Bytes that begin no token are one, `Mark::Bad`, with all
/// that is behind them: a number past 64 bits, digits with a word directly behind them, a text without end or of more than 255
/// bytes, and any byte that is no symbol.
pub fn next_token(text: &[u8], from: usize) -> Option<Cut<'_>>
    ensures { Cuts text.now from result }
{
    let mut at = from;
    'spaces: while at < text.len() {
        if is_space(text[at]) {
            at += 1;
            continue;
        }
        let Front { lexeme, bytes } = first_token(text.split_at(at).1);
        return Some(Cut {
            token: Token {
                place: at + 1,
                lexeme,
            },
            end: at + bytes,
        });
    }
    None
}
