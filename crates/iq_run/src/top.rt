//! The call that the program is.
ghost use Rattle.std.specs.Prelude.{◌≡◌, map, string_bytes, IfOk, IfErr, OnOk};
ghost use Rattle.iq_model.specs.Scripts.{IsRunnable};
ghost use Rattle.iq_run.specs.Streams.{input, output, IsReadWhole};
ghost use Rattle.iq_run.specs.Ends.{HasEnded, HasRead, IsComplete, IsMet, IsReadUpTo, IsScriptFrom, IsUnread};
ghost use Rattle.iq_script.specs.declared.scripts.TheConstants.{MOST_BYTES};

use crate::ends::{EndCause, Ended, Ran, Rest};
use crate::reports::report;
use crate::runs::run_script;
use crate::words::{Command, WordFault, read_words};
use iq_model::Script;
use iq_outside::{Device, Gate, ReadFault, Sink, Source, read_whole};
use iq_script::{MOST_BYTES, read_script};
use std::alloc::Global;
use std::sync::Wait;
use std::thread::Threads;

/// Runs the program on the words behind its name: reads the script, runs it, and writes the transcript to `out`, and to `err`
/// a line for an end other than success. Of the script it takes at most 16,777,217 bytes. It promises its return in no mode,
/// since one body serves all modes.
pub fn multiplex<
    R: Threads + Wait + Sync,
    I: Source,
    O: Sink,
    E: Sink,
    D: Device + Send,
    G: Gate + Sync,
>(
    rt: &R,
    alloc: Global,
    words: &[String],
    script: &mut I,
    out: &mut O,
    err: &mut E,
    disk: D,
    gate: &G,
) -> Ended<D>
    ensures ended { HasEnded (map string_bytes words.now) result.status
        (input I.Source script.old script.new)
        (output O.Sink out.old out.new)
        (output E.Sink err.old err.new) }
    ensures complete { IsComplete (map string_bytes words.now) result.status
        (input I.Source script.old script.new)
        (output O.Sink out.old out.new)
        (output E.Sink err.old err.new) }
    ensures device { result.rest ≡ Rest.Disk disk }
{
    let _ = rt;
    let _ = gate;
    let cause = run_words(alloc, words, script, out);
    Ended {
        status: report(err, &cause),
        rest: Rest::Disk(disk),
    }
}

/// Does what the words ask for.
fn run_words<I: Source, O: Sink>(
    alloc: Global,
    words: &[String],
    script: &mut I,
    out: &mut O,
) -> EndCause
    ensures met { IsMet (map string_bytes words.now)
        (input I.Source script.old script.new) (output O.Sink out.old out.new) result }
    ensures read { HasRead result (input I.Source script.old script.new) }
{
    match read_words(words) {
        Err(WordFault::Usage) => EndCause::Usage,
        Err(WordFault::NoMemory) => EndCause::NoMemory,
        Ok(Command::Step) => match script_of(alloc, script) {
            Err(cause) => cause,
            Ok(script) => run_script(alloc, &script, out),
        },
    }
}

/// The script that a source gives, or why it isn't read.
fn script_of<I: Source>(alloc: Global, source: &mut I) -> Result<Script, EndCause>
    ensures ok { IfOk result (IsScriptFrom (I.left source.old)) }
    ensures runnable { IfOk result IsRunnable }
    ensures whole { OnOk result (IsReadWhole (input I.Source source.old source.new)) }
    ensures up_to { OnOk result (IsReadUpTo MOST_BYTES (input I.Source source.old source.new)) }
    ensures err { IfErr result (IsUnread (input I.Source source.old source.new)) }
    ensures read { IfErr result (λ e. HasRead e (input I.Source source.old source.new)) }
{
    match read_whole(alloc, source, MOST_BYTES) {
        Err(ReadFault::Fault { before, after }) => Err(EndCause::ReadFault { before, after }),
        Err(ReadFault::TooLong) => Err(EndCause::TooLong),
        Err(ReadFault::NoMemory) => Err(EndCause::NoMemory),
        Ok(bytes) => Ok(read_script(alloc, bytes.as_slice())?),
    }
}
