//! Whole runs.
ghost use Rattle.std.specs.Prelude.{◌≡◌, IfOk};
ghost use Rattle.std.specs.Option.{option_copied};
ghost use Rattle.iq_replay.specs.Start.{start};
ghost use Rattle.iq_replay.specs.Histories.{replay, reply_in, replies_of};
ghost use Rattle.iq_script_order.specs.Fixed.{IsUndisturbedRun};
ghost use Rattle.iq_plain_runs.specs.Courses.{IsRun};

use crate::course::PlainCourse;
use iq_history::Entry;
use iq_model::{Line, Reply, Script};
use iq_plain_state::{NoRun, PlainState};
use iq_plain_tables::PlainTable;
use std::alloc::Global;
use std::marker::Model;

/// A whole run: its entries, and the replies to its lines. Contracts see where it began, the state that its entries leave, and
/// its entries.
#[derive(Drop)]
pub struct PlainRun<'a> {
    course: PlainCourse<'a>,
}

impl<'a> Model for PlainRun<'a> {
    ghost use Rattle.std.specs.Coded.{codes};
    ghost use Rattle.iq_ast.specs.contracts.conditions.Cond as cond;
    ghost use Rattle.iq_plain_runs.specs.Courses.{Course, IsRun};

    ghost Value = { Course };

    ghost coded = { Prim.hlevel (codes, cond.the_row.coded) };

    ghost view = { λ it. it.course };

    ghost invariant = { λ it. IsRun it.course };
}

impl<'a> PlainRun<'a> {
    /// The entries in the order in which they came.
    pub fn entries(&self) -> &[Entry]
        ensures { result.now ≡ self.now.entries }
    {
        let _ = &self.course;
        self.course.entries()
    }

    /// The reply to a line of the script.
    pub fn reply(&self, line: &Line) -> Option<&Reply>
        ensures { option_copied result ≡ reply_in line.now.number (replies_of (replay self.now.first self.now.entries) line.now.session) }
    {
        self.course.reply(line)
    }
}

/// The run of a script in script order that nothing disturbs: from a store of so many blocks, of a device that tells what it
/// holds, or not, and over these tables. Want of memory is free. The plain program runs no LOAD, and says so. It has no blocks: it
/// frees none, and SPACE counts all but the four root blocks as free.
pub fn plain_run<'a>(
    alloc: Global,
    blocks: u32,
    told: bool,
    script: &'a Script,
    opening: &[PlainTable],
) -> Result<PlainRun<'a>, NoRun>
    ensures first { IfOk result (λ run. run.first ≡ start blocks told script.now opening.now) }
    ensures run { IfOk result (λ run. IsUndisturbedRun (start blocks told script.now opening.now) run.entries) }
{
    let state = PlainState::start(alloc, blocks, told, script, opening)?;
    let mut course = PlainCourse::begun(alloc, state);
    for line in script.lines.as_slice() {
        course = course.line(alloc, line)?;
    }
    let ended = course.close(alloc, script.sessions.len())?;
    if !ended.is_over() {
        return Err(NoRun::NotPlain);
    }
    Ok(PlainRun { course: ended })
}
