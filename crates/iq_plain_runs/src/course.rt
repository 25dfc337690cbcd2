//! A run so far: its entries, and the state that they leave.
ghost use Rattle.std.specs.Prelude.{◌≡◌, Some, IfOk};
ghost use Rattle.std.specs.Bool.{OnTrue};
ghost use Rattle.std.specs.Option.{option_copied};
ghost use Rattle.iq_replay.specs.Lines.{first_running};
ghost use Rattle.iq_replay.specs.Histories.{replay, reply_in, replies_of};
ghost use Rattle.iq_plain_runs.specs.Courses.{IsNextOf, IsRun};

use crate::ending::{first_running, is_over, is_under_way, reply};
use crate::following::next;
use crate::step_following::next_step;
use iq_base::Listed;
use iq_history::Entry;
use iq_model::{Line, Reply};
use iq_plain_state::{NoRun, PlainState};
use std::alloc::Global;
use std::marker::Model;
use std::snapshot::Snapshot;

/// Where a run began, the state that its entries leave, its entries, and the line below which no entry may fall.
#[derive(Drop)]
pub(crate) struct PlainCourse<'a> {
    first: Snapshot<PlainState<'a>>,
    state: PlainState<'a>,
    entries: Listed<Entry>,
    low: u32,
}

impl<'a> Model for PlainCourse<'a> {
    ghost use Rattle.std.specs.Coded.{codes};
    ghost use Rattle.iq_ast.specs.contracts.conditions.Cond as cond;
    ghost use Rattle.iq_plain_runs.specs.Courses.{Course, IsCourse};

    ghost Value = { Course };

    ghost coded = { Prim.hlevel (codes, cond.the_row.coded) };

    ghost view = { λ it. record { first = it.first.value; state = it.state; entries = it.entries } };

    ghost invariant = { λ it. IsCourse it.first.value it.state it.entries it.low };
}

impl<'a> PlainCourse<'a> {
    /// A run without entries.
    pub(crate) fn begun(alloc: Global, state: PlainState<'a>) -> PlainCourse<'a>
        ensures { result.first ≡ state.entry }
    {
        PlainCourse {
            first: Snapshot::of(&state),
            state,
            entries: Listed::new(alloc),
            low: 1,
        }
    }

    /// The state so far.
    pub(crate) fn state(&self) -> &PlainState<'a>
        ensures { result.now ≡ self.entry.now.state }
    {
        &self.state
    }

    /// An entry of a line comes.
    pub(crate) fn put(self, alloc: Global, entry: Entry, l: u32) -> Result<PlainCourse<'a>, NoRun>
        requires { IsNextOf self.state l entry }
        ensures { IfOk result (λ course. course.first ≡ self.entry.first) }
    {
        let PlainCourse {
            first,
            mut state,
            mut entries,
            low,
        } = self;
        if l < low {
            return Err(NoRun::NotPlain);
        }
        state.change(alloc, &entry)?;
        entries.push(entry)?;
        Ok(PlainCourse {
            first,
            state,
            entries,
            low: l,
        })
    }

    /// A session is rolled back at the script's end.
    pub(crate) fn put_close(self, alloc: Global, s: u32) -> Result<PlainCourse<'a>, NoRun>
        requires { first_running 0 self.state.sessions ≡ Some s }
        ensures { IfOk result (λ course. course.first ≡ self.entry.first) }
    {
        let PlainCourse {
            first,
            mut state,
            mut entries,
            low,
        } = self;
        let entry = Entry::Rollback { s, l: 0 };
        state.change(alloc, &entry)?;
        entries.push(entry)?;
        Ok(PlainCourse {
            first,
            state,
            entries,
            low,
        })
    }

    /// A line is run.
    pub(crate) fn line(self, alloc: Global, line: &Line) -> Result<PlainCourse<'a>, NoRun>
        ensures { IfOk result (λ course. course.first ≡ self.entry.first) }
    {
        match line.session {
            None => self.step_line(alloc, line.number),
            Some(s) => self.session_line(alloc, s, line.number),
        }
    }

    /// A step is run.
    fn step_line(self, alloc: Global, l: u32) -> Result<PlainCourse<'a>, NoRun>
        ensures { IfOk result (λ course. course.first ≡ self.entry.first) }
    {
        let Some(entry) = next_step(self.state(), alloc, l)? else {
            return Err(NoRun::NotPlain);
        };
        self.put(alloc, entry, l)
    }

    /// A session's line is run: its transaction begins, it locks, takes effect and ends, where these are wanted.
    fn session_line(self, alloc: Global, s: u32, l: u32) -> Result<PlainCourse<'a>, NoRun>
        ensures { IfOk result (λ course. course.first ≡ self.entry.first) }
    {
        let mut course = self;
        for _ in 0..4_u32 {
            if !is_under_way(course.state(), s, l) {
                break;
            }
            let Some(entry) = next(course.state(), alloc, s, l)? else {
                return Err(NoRun::NotPlain);
            };
            course = course.put(alloc, entry, l)?;
        }
        Ok(course)
    }

    /// The transactions that still run at the script's end are rolled back, in order of their sessions.
    pub(crate) fn close(self, alloc: Global, sessions: usize) -> Result<PlainCourse<'a>, NoRun>
        ensures { IfOk result (λ course. course.first ≡ self.entry.first) }
    {
        let mut course = self;
        for _ in 0..sessions {
            let Some(place) = first_running(course.state()) else {
                break;
            };
            let Ok(s) = u32::try_from(place) else {
                return Err(NoRun::NotPlain);
            };
            course = course.put_close(alloc, s)?;
        }
        Ok(course)
    }

    /// The entries in the order in which they came.
    pub(crate) fn entries(&self) -> &[Entry]
        ensures { result.now ≡ self.entry.now.entries }
    {
        self.entries.as_slice()
    }

    /// The reply to a line, if it was answered.
    pub(crate) fn reply(&self, line: &Line) -> Option<&Reply>
        ensures { option_copied result ≡ reply_in line.now.number (replies_of (replay self.entry.now.first self.entry.now.entries) line.now.session) }
    {
        reply(&self.state, line)
    }

    /// Whether it is whole: no line and no transaction is left.
    #[tactic(auto, using(crate::proofs::Comes::course_run))]
    pub(crate) fn is_over(&self) -> bool
        ensures { OnTrue result (IsRun self.entry.now) }
    {
        is_over(&self.state)
    }
}
