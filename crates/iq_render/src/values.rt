//! Names, values and rows.
ghost use Rattle.std.specs.Prelude.{◌≡◌, ◌<◌, ◌++◌, [], length, slice_index_or, OnOk, flat_map};
ghost use Rattle.std.specs.String.{string_bytes};
ghost use Rattle.iq_render.specs.Values.{name_at, then_name, then_number, quoted_byte, quoted, value_text, next_value, values_text, row_line};

use iq_base::Name;
use iq_model::{AnswerRows, Out};
use std::alloc::AllocError;

/// A name after a space.
pub(crate) fn push_name(out: &mut String, name: &Name) -> Result<(), AllocError>
    ensures { OnOk result (string_bytes out.new ≡ string_bytes out.old ++ then_name name.now) }
{
    out.push_str(" ")?;
    out.push_str(name.as_str())
}

/// The declared name at a place, after a space.
pub(crate) fn push_place(out: &mut String, names: &[Name], place: u32) -> Result<(), AllocError>
    requires { place < length names.now }
    ensures { OnOk result (string_bytes out.new ≡ string_bytes out.old ++ then_name (name_at names.now place)) }
{
    push_name(out, &names[place as usize])
}

/// A number after a space.
pub(crate) fn push_number(out: &mut String, number: u64) -> Result<(), AllocError>
    ensures { OnOk result (string_bytes out.new ≡ string_bytes out.old ++ then_number number) }
{
    write!(out, " {number}")
}

/// A word and a number after a space.
pub(crate) fn push_count(out: &mut String, word: &str, number: u64) -> Result<(), AllocError>
    ensures { OnOk result (string_bytes out.new ≡ string_bytes out.old ++ (word.now ++ then_number number)) }
{
    out.push_str(word)?;
    push_number(out, number)
}

/// A word and a name after a space.
pub(crate) fn push_named(out: &mut String, word: &str, name: &Name) -> Result<(), AllocError>
    ensures { OnOk result (string_bytes out.new ≡ string_bytes out.old ++ (word.now ++ then_name name.now)) }
{
    out.push_str(word)?;
    push_name(out, name)
}

/// Row `r` after two spaces, its values joined by commas, and the end of its line.
pub(crate) fn push_row(out: &mut String, rows: &AnswerRows, r: usize) -> Result<(), AllocError>
    requires { r < length rows.now }
    ensures { OnOk result (string_bytes out.new ≡ string_bytes out.old ++ row_line (slice_index_or rows.now r [])) }
{
    out.push_str("  ")?;
    push_values(out, rows, r)?;
    out.push_str("\n")
}

/// The values of row `r` joined by commas.
fn push_values(out: &mut String, rows: &AnswerRows, r: usize) -> Result<(), AllocError>
    requires { r < length rows.now }
    ensures { OnOk result (string_bytes out.new ≡ string_bytes out.old ++ values_text (slice_index_or rows.now r [])) }
{
    let width = rows.width(r);
    if width == 0 {
        return Ok(());
    }
    push_value(out, &rows.get(r, 0))?;
    for c in 1..width {
        out.push_str(",")?;
        push_value(out, &rows.get(r, c))?;
    }
    Ok(())
}

/// NULL, a number or a text in quotes.
fn push_value(out: &mut String, value: &Out) -> Result<(), AllocError>
    ensures { OnOk result (string_bytes out.new ≡ string_bytes out.old ++ value_text value.now) }
{
    match value {
        Out::Null => out.push_str("NULL"),
        Out::Int(number) => write!(out, "{number}"),
        Out::Text(text) => push_quoted(out, text.as_str()),
    }
}

/// A text in quotes.
fn push_quoted(out: &mut String, text: &str) -> Result<(), AllocError>
    ensures { OnOk result (string_bytes out.new ≡ string_bytes out.old ++ quoted text.now) }
{
    out.push_str("'")?;
    push_doubled(out, text)?;
    out.push_str("'")
}

/// A text with each quote doubled.
fn push_doubled(out: &mut String, text: &str) -> Result<(), AllocError>
    ensures { OnOk result (string_bytes out.new ≡ string_bytes out.old ++ flat_map quoted_byte text.now) }
{
    let mut rest = text;
    'quotes: while let Some((before, after)) = rest.split_once('\'') {
        out.push_str(before)?;
        out.push_str("''")?;
        rest = after;
    }
    out.push_str(rest)
}
