//! What an entry changes in the state.
ghost use Rattle.std.specs.Prelude.{◌≡◌, OnOk};
ghost use Rattle.iq_history.specs.declared.entries.Entry.TheVariants as entries;
ghost use Rattle.iq_replay.specs.Entries.{change};
ghost use Rattle.iq_script_order.specs.Fixed.{IsUndisturbed};

use crate::no_run::NoRun;
use crate::plain::is_plain;
use crate::state::PlainState;
use iq_history::Entry;
use std::alloc::Global;

impl<'a> PlainState<'a> {
    /// The state as an entry leaves it.
    #[tactic(auto, using(crate::proofs::Changed::change_begin, crate::proofs::Changed::change_lock, crate::proofs::Changed::change_refused, crate::proofs::Changed::change_commit, crate::proofs::Changed::change_end, crate::proofs::Changed::change_rollback, crate::proofs::Changed::change_savepoint, crate::proofs::Changed::change_back, crate::proofs::Changed::change_release, crate::proofs::Changed::change_sync))]
    pub fn change(&mut self, alloc: Global, entry: &Entry) -> Result<(), NoRun>
        requires { IsUndisturbed entry.now }
        ensures { OnOk result (self.new ≡ change self.old entry.now) }
    {
        match entry {
            Entry::Begin { s, l, c } => self.begin(alloc, *s, *l, *c)?,
            Entry::Lock { s, l: _, names } => self.lock(*s, names)?,
            Entry::Done { s, l } => self.done_here(alloc, *s, *l)?,
            Entry::Refused {
                s: Some(s),
                l,
                cause,
            } => self.refuse(alloc, *s, *l, cause.again())?,
            Entry::Commit { s, l, c } => self.commit(alloc, *s, *l, *c)?,
            Entry::End { s, l } => self.end(*s, *l)?,
            Entry::Rollback { s, l } => self.roll_back(*s, *l)?,
            Entry::Savepoint { s, l, name } => self.save(alloc, *s, *l, name)?,
            Entry::Back { s, l, name } => self.go_back(alloc, *s, *l, name)?,
            Entry::Release { s, l, name } => self.release(*s, *l, name)?,
            Entry::Sync { s, l, c } => self.sync(*s, *l, *c)?,
            Entry::Refused { s: None, .. }
            | Entry::Apply { .. }
            | Entry::Send { .. }
            | Entry::Lose { .. }
            | Entry::Take { .. }
            | Entry::Own { .. }
            | Entry::Restart { .. }
            | Entry::Exclude { .. }
            | Entry::Include { .. }
            | Entry::Space { .. }
            | Entry::Versions { .. } => self.step(alloc, entry)?,
            Entry::Halt { .. } => return Err(NoRun::NotPlain),
        }
        Ok(())
    }

    /// The state as an entry of a step leaves it.
    #[tactic(auto, using(crate::proofs::StepChanged::change_apply, crate::proofs::StepChanged::change_send, crate::proofs::StepChanged::change_lose, crate::proofs::StepChanged::change_take, crate::proofs::StepChanged::change_own, crate::proofs::StepChanged::change_restart, crate::proofs::StepChanged::change_exclude, crate::proofs::StepChanged::change_include, crate::proofs::StepChanged::change_space, crate::proofs::StepChanged::change_versions, crate::proofs::StepChanged::change_refused))]
    fn step(&mut self, alloc: Global, entry: &Entry) -> Result<(), NoRun>
        ensures { OnOk result (self.new ≡ change self.old entry.now) }
    {
        match entry {
            Entry::Refused { s: None, l, cause } => self.refuse_step(*l, cause.again())?,
            Entry::Apply { n, l, c } => self.apply(*n, *l, *c)?,
            Entry::Send {
                n,
                l,
                number,
                floor,
            } => self.send(*n, *l, *number, *floor)?,
            Entry::Lose { l, number } => self.lose(alloc, *l, *number)?,
            Entry::Take {
                l,
                number,
                horizon,
                freed,
            } => self.take(alloc, *l, *number, *horizon, *freed)?,
            Entry::Own {
                n: _,
                l,
                horizon,
                freed,
            } => self.own(*l, *horizon, *freed)?,
            Entry::Restart { n, l, incarnation } => self.restart(*n, *l, *incarnation)?,
            Entry::Exclude { n, l, incarnation } => self.exclude(*n, *l, *incarnation)?,
            Entry::Include { n, l, c } => self.include(*n, *l, *c)?,
            Entry::Space { l, census } => self.count(*l, *census)?,
            Entry::Versions { l } => self.tell(alloc, *l)?,
            Entry::Refused { s: Some(_), .. }
            | Entry::Begin { .. }
            | Entry::Lock { .. }
            | Entry::Done { .. }
            | Entry::Commit { .. }
            | Entry::End { .. }
            | Entry::Rollback { .. }
            | Entry::Halt { .. }
            | Entry::Savepoint { .. }
            | Entry::Back { .. }
            | Entry::Release { .. }
            | Entry::Sync { .. } => return Err(NoRun::NotPlain),
        }
        Ok(())
    }

    /// The statement of a session's line took effect.
    #[tactic(auto, using(crate::proofs::Changed::change_done))]
    fn done_here(&mut self, alloc: Global, s: u32, l: u32) -> Result<(), NoRun>
        ensures { OnOk result (self.new ≡ change self.old (entries.Done s l)) }
    {
        let Some(session) = self.session_at(s) else {
            return Err(NoRun::NotPlain);
        };
        let Some(statement) = session.statement() else {
            return Err(NoRun::NotPlain);
        };
        if !is_plain(statement) {
            return Err(NoRun::NotPlain);
        }
        self.done(alloc, s, l, statement)?;
        Ok(())
    }
}
