//! Cuts bytes into lines.
ghost use Rattle.std.specs.Prelude.{◌≡◌, ℕ, ◌<◌, ◌≤◌, ◌∷◌, ◌++◌, length, not, nat_eq};
ghost use Rattle.std.specs.List.{prefix_len};
ghost use Rattle.iq_script.specs.Lines as spec;

use iq_tokens::is_space;

/// How many bytes stand before the first LF.
fn text_len(bytes: &[u8]) -> usize
    ensures value { result ≡ prefix_len (λ (b : ℕ). not (nat_eq b 10)) bytes.now }
    ensures within { result ≤ length bytes.now }
{
    for (at, b) in bytes.iter().enumerate() {
        if *b == b'\n' {
            return at;
        }
    }
    bytes.len()
}

/// The first line with its LF, and the bytes behind it.
pub fn first_line(bytes: &[u8]) -> (&[u8], &[u8])
    requires { 0 < length bytes.now }
    ensures cut { spec.lines_of bytes.now ≡ result.0.now ∷ spec.lines_of result.1.now }
    ensures whole { bytes.now ≡ result.0.now ++ result.1.now }
    ensures shorter { length result.1.now < length bytes.now }
{
    let len = text_len(bytes);
    if len < bytes.len() {
        bytes.split_at(len + 1)
    } else {
        (bytes, &[])
    }
}

/// A line without this byte at its end.
fn without_last(line: &[u8], byte: u8) -> &[u8]
    ensures { result.now ≡ spec.without_last byte line.now }
{
    let len = line.len();
    if len > 0 && line[len - 1] == byte {
        line.split_at(len - 1).0
    } else {
        line
    }
}

/// The text of a line, without the LF at its end and a CR before that.
pub fn text_of(line: &[u8]) -> &[u8]
    ensures { result.now ≡ spec.text_of line.now }
{
    without_last(without_last(line, b'\n'), b'\r')
}

fn begins_comment(bytes: &[u8]) -> bool
    ensures { result ≡ spec.begins_comment bytes.now }
{
    bytes.starts_with(b"--")
}

/// Whether a line's text does something.
pub fn is_doing(text: &[u8]) -> bool
    ensures { result ≡ spec.is_doing text.now }
{
    let mut rest = text;
    'spaces: while !rest.is_empty() {
        if is_space(rest[0]) {
            rest = rest.split_at(1).1;
            continue;
        }
        return !begins_comment(rest);
    }
    false
}
