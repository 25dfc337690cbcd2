//! Runs of scripts, line by line on the calling thread.
ghost use Rattle.std.specs.Prelude.{◌≡◌, [], IfOk, string_bytes};
ghost use Rattle.std.specs.List.{AllByRecursion};
ghost use Rattle.iq_base.specs.declared.refusals.Census.{Census};
ghost use Rattle.iq_model.specs.Scripts.{IsRunnable, IsRunnableLine};
ghost use Rattle.iq_plex.specs.Standing.{IsBetween};
ghost use Rattle.iq_run.specs.Streams.{output};
ghost use Rattle.iq_run.specs.Runs.{IsTranscript, EndsRun, RunsLines, no_blocks};

use crate::ends::{EndCause, Ran, Rest};
use iq_base::{Census, NoMemory};
use iq_model::{Line, Reply, Script};
use iq_outside::{Device, Sink, WriteFault, write_all};
use iq_plex::Plex;
use iq_render::transcript;
use std::alloc::Global;
use std::thread::Threads;

/// Runs the lines of a script in their order, and writes the transcript. It always returns, and makes no call of the device.
pub fn step_run<R: Threads + Sync, O: Sink, D: Device>(
    rt: &R,
    alloc: Global,
    script: &Script,
    disk: D,
    out: &mut O,
) -> Ran<D>
    requires { IsRunnable script.now }
    ensures ran { EndsRun script.now (output O.Sink out.old out.new) result.cause }
    ensures device { result.rest ≡ Rest.Disk disk }
{
    let _ = rt;
    Ran {
        cause: run_script(alloc, script, out),
        rest: Rest::Disk(disk),
    }
}

/// Runs a script and writes its transcript.
pub(crate) fn run_script<O: Sink>(alloc: Global, script: &Script, out: &mut O) -> EndCause
    requires { IsRunnable script.now }
    ensures { EndsRun script.now (output O.Sink out.old out.new) result }
{
    match transcript_of(alloc, script) {
        Err(NoMemory) => EndCause::NoMemory,
        Ok(text) => match write_all(out, text.as_str().as_bytes()) {
            Ok(()) => EndCause::Done,
            Err(WriteFault { before, after }) => EndCause::OutFault { before, after },
        },
    }
}

/// The transcript of a script that is run from no tables.
fn transcript_of(alloc: Global, script: &Script) -> Result<String, NoMemory>
    requires { IsRunnable script.now }
    ensures { IfOk result (λ text. IsTranscript script.now (string_bytes text)) }
{
    let mut plex = Plex::attach(alloc, script)?;
    let replies = run_lines(alloc, &mut plex, script.lines.as_slice())?;
    let text = transcript(alloc, replies.as_slice(), plex.history(), no_blocks())?;
    Ok(text)
}

/// No block is counted while tables are in memory.
fn no_blocks() -> Census
    ensures { result ≡ no_blocks }
{
    Census {
        free: 0,
        reserved: 0,
        private: 0,
        reached: 0,
        waiting: 0,
    }
}

/// Runs the lines of a state that is just opened, in their order. The room for their replies is taken first.
fn run_lines(alloc: Global, plex: &mut Plex, lines: &[Line]) -> Result<Vec<Reply>, NoMemory>
    requires between { IsBetween plex.old lines.now [] }
    requires runnable { AllByRecursion IsRunnableLine lines.now }
    ensures { IfOk result (λ rs. RunsLines plex.old lines.now [] rs.items plex.new) }
{
    let mut replies = Vec::with_capacity(alloc, lines.len())?;
    for line in lines {
        replies.push(plex.run_line(alloc, line))?;
    }
    Ok(replies)
}
