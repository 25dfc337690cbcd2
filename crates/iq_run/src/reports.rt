//! The line that standard error gets.
ghost use Rattle.std.specs.Prelude.{◌≡◌, ◌≤◌, ◌+◌, ◌++◌, codes, length};
ghost use Rattle.std.specs.Fmt.{decimal};
ghost use Rattle.arrayvec.specs.ArrayString.{array_string_len};
ghost use Rattle.iq_script.specs.Faults.{field_text};
ghost use Rattle.iq_run.specs.Reports.{report_text, IsReported};
ghost use Rattle.iq_run.specs.Streams.{output};

use crate::ends::EndCause;
use arrayvec::ArrayString;
use iq_outside::{Sink, write_all};
use iq_script::{FaultField, LineFault};
use itoa::Buffer;

/// A line for standard error, which takes no memory.
type Line = ArrayString<160>;

/// Writes the line of an end to standard error, and answers the status: that of the end, or, where the line couldn't be
/// written, that of a failed output.
pub fn report<E: Sink>(err: &mut E, met: &EndCause) -> u8
    ensures { IsReported met.now result (output E.Sink err.old err.new) }
{
    let line = line_of(met);
    match write_all(err, line.as_str().as_bytes()) {
        Ok(()) => met.status(),
        Err(_) => 7,
    }
}

/// The line of an end.
fn line_of(met: &EndCause) -> Line
    ensures { result.bytes ≡ report_text met.now }
{
    match met {
        EndCause::Done => text(""),
        EndCause::Usage => text(
            "usage: iqmux STORE format --blocks N | step | threads [--seed N] | make [--seed N] [--rows N]\n",
        ),
        EndCause::ScriptFault { line, cause } => fault_line(*line, cause),
        EndCause::ReadFault { before, after } => counts_line("iqmux: read fault ", *before, *after),
        EndCause::OutFault { before, after } => counts_line("iqmux: write fault ", *before, *after),
        EndCause::NoMemory => text("iqmux: no memory\n"),
        EndCause::TooLong => text("iqmux: too long\n"),
    }
}

/// A line of this text.
fn text(text: &str) -> Line
    requires { length text.now ≤ 160 }
    ensures { result.bytes ≡ text.now }
{
    let mut line = ArrayString::new();
    line.push_str(text);
    line
}

fn fault_line(number: u32, cause: &LineFault) -> Line
    ensures { result.bytes ≡ report_text (EndCause.ScriptFault number cause.now) }
{
    let mut line = text("iqmux: line ");
    push_number(&mut line, u64::from(number));
    line.push_str(" ");
    line.push_str(cause.name());
    push_field(&mut line, cause.field());
    line.push_str("\n");
    line
}

/// A blank, and the place or the name that a fault tells.
fn push_field(line: &mut Line, field: FaultField)
    requires { array_string_len line.old + 50 ≤ 160 }
    ensures bytes { line.new.bytes ≡ line.old.bytes ++ field_text field }
    ensures short { array_string_len line.new ≤ array_string_len line.old + 50 }
{
    match field {
        FaultField::Nothing => {}
        FaultField::Place(place) => {
            line.push_str(" ");
            push_number(line, place as u64);
        }
        FaultField::Named(name) => {
            line.push_str(" ");
            line.push_str(name.as_str());
        }
    }
}

/// What failed, and the two counts of faults.
fn counts_line(what: &str, before: u64, after: u64) -> Line
    requires { length what.now ≤ 40 }
    ensures { result.bytes ≡ what.now ++ decimal before ++ codes " " ++ decimal after ++ codes "\n" }
{
    let mut line = text(what);
    push_number(&mut line, before);
    line.push_str(" ");
    push_number(&mut line, after);
    line.push_str("\n");
    line
}

fn push_number(line: &mut Line, number: u64)
    requires { array_string_len line.old + 40 ≤ 160 }
    ensures bytes { line.new.bytes ≡ line.old.bytes ++ decimal number }
    ensures short { array_string_len line.new ≤ array_string_len line.old + 40 }
{
    let mut buffer = Buffer::new();
    line.push_str(buffer.format(number));
}
