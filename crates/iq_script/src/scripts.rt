//! Scripts, read line by line.
ghost use Rattle.std.specs.Prelude.{◌≡◌, ◌≤◌, ◌↔◌, true, IfOk, IfErr, length};
ghost use Rattle.std.specs.Str.{IsUtf8};
ghost use Rattle.iq_model.specs.Scripts.{IsRunnable};
ghost use Rattle.iq_script.specs.Lines.{lines_of};
ghost use Rattle.iq_script.specs.Pieces.{IsPieceOf, IsSyntaxOf};
ghost use Rattle.iq_script.specs.Putting.{on};
ghost use Rattle.iq_script.specs.Scripts as spec;
ghost use Rattle.iq_script.specs.Scripts.{LeadsOn, Leads, LeadTo, start, IsCause, IsScriptOf, IsRunScriptOf, IsBounded, IsPieceFlaw, IsTextFlaw, IsLineFlaw, IsReadCause, IsUnbuiltOf, IsUnbuiltIn};
ghost use Rattle.iq_script.specs.declared.scripts.TheConstants.{MOST_BYTES};

use crate::built::is_run;
use crate::faults::{Flaw, LineFault, ScriptRefusal};
use crate::lines::{first_line, is_doing, text_of};
use crate::pieces::{Piece, piece_of};
use crate::reading::Reading;
use iq_grammar::ParseFault;
use iq_model::{Line, MOST_LINES, Script};
use std::alloc::Global;

/// The most bytes that a script may have.
pub const MOST_BYTES: usize = 16_777_216;

/// What the text of a line says, if it is UTF-8 and of the grammar.
fn read_piece(alloc: Global, text: &[u8]) -> Result<Piece, Flaw>
    ensures utf8 { IfOk result (λ _. IsUtf8 text.now) }
    ensures found { IfOk result (IsPieceOf text.now) }
    ensures fault { IfErr result (IsPieceFlaw text.now) }
{
    if str::from_utf8(text).is_err() {
        return Err(Flaw::Fault(LineFault::NotUtf8));
    }
    match piece_of(alloc, text) {
        Ok(piece) => Ok(piece),
        Err(ParseFault::Syntax { place }) => Err(Flaw::Fault(LineFault::Syntax { place })),
        Err(ParseFault::NoMemory) => Err(Flaw::NoMemory),
    }
}

/// Puts a line that does something at the end; it answers how many lines of data are behind it.
fn take_text(
    alloc: Global,
    number: u32,
    text: &[u8],
    behind: &[u8],
    reading: &mut Reading,
) -> Result<u32, Flaw>
    requires { IsBounded reading.old }
    ensures ok { IfOk result (λ n. LeadsOn number text.now (lines_of behind.now) reading.old (on reading.new n)) }
    ensures fault { IfErr result (IsTextFlaw number text.now (lines_of behind.now) reading.old) }
{
    if reading.taken == MOST_LINES {
        return Err(Flaw::Fault(LineFault::TooManyLines));
    }
    let piece = read_piece(alloc, text)?;
    reading.put(alloc, number, piece, behind)
}

/// Puts a line at the end, if it does something.
fn take_line(
    alloc: Global,
    number: u32,
    line: &[u8],
    behind: &[u8],
    reading: &mut Reading,
) -> Result<u32, Flaw>
    requires { IsBounded reading.old }
    ensures ok { IfOk result (λ n. Leads number line.now (lines_of behind.now) reading.old (on reading.new n)) }
    ensures fault { IfErr result (IsLineFlaw number line.now (lines_of behind.now) reading.old) }
{
    let text = text_of(line);
    if is_doing(text) {
        return take_text(alloc, number, text, behind, reading);
    }
    Ok(0)
}

/// What all lines say together, or the first faulty one.
fn read_lines(alloc: Global, bytes: &[u8]) -> Result<Reading, ScriptRefusal>
    requires { length bytes.now ≤ MOST_BYTES }
    ensures ok { IfOk result (LeadTo 1 0 (lines_of bytes.now) start) }
    ensures fault { IfErr result (IsReadCause bytes.now) }
{
    let mut reading = Reading::start(alloc)?;
    let mut rest = bytes;
    let mut number = 0;
    let mut data_lines = 0;
    'lines: while !rest.is_empty() {
        let (line, behind) = first_line(rest);
        number += 1;
        if data_lines > 0 {
            data_lines -= 1;
        } else {
            match take_line(alloc, number, line, behind, &mut reading) {
                Ok(lines) => data_lines = lines,
                Err(Flaw::Fault(cause)) => {
                    return Err(ScriptRefusal::ScriptFault {
                        line: number,
                        cause,
                    });
                }
                Err(Flaw::NoMemory) => return Err(ScriptRefusal::NoMemory),
            }
        }
        rest = behind;
    }
    Ok(reading)
}

/// The number of the first line that isn't run today, if there is any.
fn first_unbuilt(mut lines: &[Line]) -> Option<u32>
    ensures { IsUnbuiltOf lines.entry.now result }
{
    'lines: while let [first, rest @ ..] = lines {
        if is_run(first) {
            lines = rest;
            continue;
        }
        return Some(first.number);
    }
    None
}

/// The script that was read.
fn script_of(reading: Reading) -> Script
    ensures { result ≡ spec.script_of reading }
{
    let Reading {
        nodes,
        sessions,
        lines,
        ..
    } = reading;
    Script {
        nodes,
        sessions,
        lines,
    }
}

/// The script of the whole language that the bytes are: the declared nodes and sessions, or one coordinator `c` and one session `s`
/// on it, and the step or the statement of each line that does something, with the data of each LOAD. Lines end at LF, with a CR
/// before it or none, and are numbered from 1; spaces alone, and `--` after spaces, do nothing. The refusal names the first faulty
/// line. The time is linear in the bytes.
pub fn read_any_script(alloc: Global, bytes: &[u8]) -> Result<Script, ScriptRefusal>
    requires { length bytes.now ≤ MOST_BYTES }
    ensures ok { IfOk result (IsScriptOf bytes.now) }
    ensures fault { IfErr result (IsReadCause bytes.now) }
{
    Ok(script_of(read_lines(alloc, bytes)?))
}

/// The number of the first line that isn't run today: the first declaration, or else the first such step or statement.
fn unbuilt(reading: &Reading) -> Option<u32>
    ensures { IsUnbuiltIn reading.now result }
{
    match reading.declared {
        Some(number) => Some(number),
        None => first_unbuilt(reading.lines.as_slice()),
    }
}

/// The script that the bytes are, if the program runs it today: as `read_any_script` reads it, without declarations, and with
/// statements of the forms that are run. The refusal names the first faulty line, and where there is none the first that isn't run.
pub fn read_script(alloc: Global, bytes: &[u8]) -> Result<Script, ScriptRefusal>
    requires { length bytes.now ≤ MOST_BYTES }
    ensures ok { IfOk result (IsRunScriptOf bytes.now) }
    ensures fault { IfErr result (IsCause bytes.now) }
    ensures runnable { IfOk result IsRunnable }
{
    let reading = read_lines(alloc, bytes)?;
    match unbuilt(&reading) {
        Some(line) => Err(ScriptRefusal::ScriptFault {
            line,
            cause: LineFault::Unbuilt,
        }),
        None => Ok(script_of(reading)),
    }
}
