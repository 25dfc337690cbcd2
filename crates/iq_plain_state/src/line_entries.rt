//! What the entries of a session's line change in the state.
ghost use Rattle.std.specs.Prelude.{◌≡◌, ◌||◌, Some, IfOk, OnOk, nat_eq};
ghost use Rattle.std.specs.List.{slice_get};
ghost use Rattle.iq_statements.specs.Statements.{HasMeaning};
ghost use Rattle.iq_plain_tables.specs.Plain.{HasFewParts};
ghost use Rattle.iq_model.specs.declared.replies.Said.TheVariants as saids;
ghost use Rattle.iq_replay.specs.State.{with_session};
ghost use Rattle.iq_replay.specs.Commits.{database_of, with_commit};
ghost use Rattle.iq_replay.specs.Changes.{statement_of, begins, locks_more, takes_effect, refused, commits, ends, rolls_back, ends_line, works, saves_as, back_to, release_to, work_of, nodes_at};

use crate::commits::{committed, written_at, written_names};
use crate::state::PlainState;
use iq_ast::Statement;
use iq_base::{Locks, Name, NoMemory, Refusal};
use iq_plain_sessions::PlainWork;
use iq_plain_tables::{PlainTable, copied_tables};
use std::alloc::Global;
use std::mem;

impl<'a> PlainState<'a> {
    /// A transaction begins, with the tables of a commit.
    pub(crate) fn begin(&mut self, alloc: Global, s: u32, l: u32, c: u64) -> Result<(), NoMemory>
        ensures { OnOk result (self.new ≡ with_session s (λ session. begins (statement_of session.left) l c (database_of self.old c) session) self.old) }
    {
        let tables = copied_tables(alloc, self.database(c))?;
        self.begin_session(alloc, s, l, c, tables.as_slice())
    }

    /// A session's transaction begins with these tables.
    #[tactic(auto, using(crate::proofs::Places::changed_at_past))]
    fn begin_session(
        &mut self,
        alloc: Global,
        s: u32,
        l: u32,
        c: u64,
        tables: &[PlainTable],
    ) -> Result<(), NoMemory>
        ensures { OnOk result (self.new ≡ with_session s (λ session. begins (statement_of session.left) l c tables.now session) self.old) }
    {
        let place = s as usize;
        if place < self.sessions.len() {
            self.sessions[place].begin(alloc, l, c, tables)?;
        }
        Ok(())
    }

    /// Names are locked.
    #[tactic(auto, using(crate::proofs::Places::changed_at_past))]
    pub(crate) fn lock(&mut self, s: u32, names: &Locks) -> Result<(), NoMemory>
        ensures { OnOk result (self.new ≡ with_session s (locks_more names.now) self.old) }
    {
        let place = s as usize;
        if place < self.sessions.len() {
            self.sessions[place].lock(names)?;
        }
        Ok(())
    }

    /// The statement of a line took effect.
    #[tactic(auto, using(crate::proofs::Places::changed_at_past))]
    pub(crate) fn done(
        &mut self,
        alloc: Global,
        s: u32,
        l: u32,
        statement: &Statement,
    ) -> Result<(), NoMemory>
        requires meaning { HasMeaning statement.now }
        requires few { HasFewParts statement.now }
        ensures { OnOk result (self.new ≡ with_session s (takes_effect (Some statement.now) l) self.old) }
    {
        let place = s as usize;
        if place < self.sessions.len() {
            self.sessions[place].take(alloc, l, statement)?;
        }
        Ok(())
    }

    /// A line is refused.
    #[tactic(auto, using(crate::proofs::Places::changed_at_past))]
    pub(crate) fn refuse(
        &mut self,
        alloc: Global,
        s: u32,
        l: u32,
        cause: Refusal,
    ) -> Result<(), NoMemory>
        ensures { OnOk result (self.new ≡ with_session s (refused l cause) self.old) }
    {
        let place = s as usize;
        if place < self.sessions.len() {
            self.sessions[place].refuse(alloc, l, cause)?;
        }
        Ok(())
    }

    /// A line's transaction ends under a number.
    #[tactic(auto, using(crate::proofs::Places::changed_at_past))]
    pub(crate) fn commit_session(&mut self, s: u32, l: u32, c: u64) -> Result<(), NoMemory>
        ensures { OnOk result (self.new ≡ with_session s (commits l c) self.old) }
    {
        let place = s as usize;
        if place < self.sessions.len() {
            self.sessions[place].commit(l, c)?;
        }
        Ok(())
    }

    /// A line's transaction ends without a number.
    #[tactic(auto, using(crate::proofs::Places::changed_at_past))]
    pub(crate) fn end(&mut self, s: u32, l: u32) -> Result<(), NoMemory>
        ensures { OnOk result (self.new ≡ with_session s (ends l) self.old) }
    {
        let place = s as usize;
        if place < self.sessions.len() {
            self.sessions[place].end(l)?;
        }
        Ok(())
    }

    /// A session's transaction is rolled back.
    #[tactic(auto, using(crate::proofs::Places::changed_at_past))]
    pub(crate) fn roll_back_session(&mut self, s: u32, l: u32) -> Result<(), NoMemory>
        ensures { OnOk result (self.new ≡ with_session s (rolls_back l) self.old) }
    {
        let place = s as usize;
        if place < self.sessions.len() {
            self.sessions[place].roll_back(l)?;
        }
        Ok(())
    }

    /// A savepoint is kept.
    #[tactic(auto, using(crate::proofs::Places::changed_at_past))]
    pub(crate) fn save(
        &mut self,
        alloc: Global,
        s: u32,
        l: u32,
        name: &Name,
    ) -> Result<(), NoMemory>
        ensures { OnOk result (self.new ≡ with_session s (λ session. ends_line l (saids.Saved name.now) (works (saves_as name.now) session)) self.old) }
    {
        let place = s as usize;
        if place < self.sessions.len() {
            self.sessions[place].save(alloc, l, name)?;
        }
        Ok(())
    }

    /// A session sees the tables of a savepoint.
    #[tactic(auto, using(crate::proofs::Places::changed_at_past))]
    pub(crate) fn go_back(
        &mut self,
        alloc: Global,
        s: u32,
        l: u32,
        name: &Name,
    ) -> Result<(), NoMemory>
        ensures { OnOk result (self.new ≡ with_session s (λ session. ends_line l (saids.BackTo name.now) (works (back_to name.now) session)) self.old) }
    {
        let place = s as usize;
        if place < self.sessions.len() {
            self.sessions[place].go_back(alloc, l, name)?;
        }
        Ok(())
    }

    /// A savepoint goes.
    #[tactic(auto, using(crate::proofs::Places::changed_at_past))]
    pub(crate) fn release(&mut self, s: u32, l: u32, name: &Name) -> Result<(), NoMemory>
        ensures { OnOk result (self.new ≡ with_session s (λ session. ends_line l (saids.Released name.now) (works (release_to name.now) session)) self.old) }
    {
        let place = s as usize;
        if place < self.sessions.len() {
            self.sessions[place].release(l, name)?;
        }
        Ok(())
    }

    /// A session's line is answered that its node is at a commit.
    #[tactic(auto, using(crate::proofs::Places::changed_at_past))]
    pub(crate) fn sync_session(&mut self, s: u32, l: u32, c: u64) -> Result<(), NoMemory>
        ensures { OnOk result (self.new ≡ with_session s (ends_line l (saids.Synced c)) self.old) }
    {
        let place = s as usize;
        if place < self.sessions.len() {
            self.sessions[place].sync(l, c)?;
        }
        Ok(())
    }

    /// A session's transaction is rolled back, by its line or at the script's end.
    pub(crate) fn roll_back(&mut self, s: u32, l: u32) -> Result<(), NoMemory>
        ensures { OnOk result (self.new ≡ with_session s (rolls_back l) (record (self.old) { closing = nat_eq l 0 || self.old.closing })) }
    {
        self.close(l);
        self.roll_back_session(s, l)
    }

    /// The script's end begins, where the line is none.
    fn close(&mut self, l: u32)
        ensures { self.new ≡ record (self.old) { closing = nat_eq l 0 || self.old.closing } }
    {
        self.closing = l == 0 || self.closing;
    }

    /// A session's node is at the latest commit, and its line is answered.
    pub(crate) fn sync(&mut self, s: u32, l: u32, c: u64) -> Result<(), NoMemory>
        ensures { OnOk result (self.new ≡ with_session s (ends_line l (saids.Synced c)) (record (self.old) { nodes = nodes_at (slice_get self.old.sessions s) c self.old.nodes })) }
    {
        self.move_session(s, c);
        self.sync_session(s, l, c)
    }

    /// The work of a session's transaction is one commit more, and its node is there.
    pub(crate) fn commit(&mut self, alloc: Global, s: u32, l: u32, c: u64) -> Result<(), NoMemory>
        ensures { OnOk result (self.new ≡ with_session s (commits l c) (with_commit (work_of (slice_get self.old.sessions s)) (record (self.old) { nodes = nodes_at (slice_get self.old.sessions s) c self.old.nodes }))) }
    {
        let work = self.work_of(alloc, s)?;
        self.move_session(s, c);
        self.add_commit(alloc, &work)?;
        self.commit_session(s, l, c)
    }

    /// The work of a session's transaction.
    fn work_of(&self, alloc: Global, s: u32) -> Result<PlainWork, NoMemory>
        ensures { IfOk result (λ work. work ≡ work_of (slice_get self.now.sessions s)) }
    {
        match self.sessions.get(s as usize) {
            None => PlainWork::begun(alloc, &[]),
            Some(session) => match session.run() {
                None => PlainWork::begun(alloc, &[]),
                Some(run) => run.work().copied(alloc),
            },
        }
    }

    /// A session's node moves to a commit.
    fn move_session(&mut self, s: u32, c: u64)
        ensures { self.new ≡ record (self.old) { nodes = nodes_at (slice_get self.old.sessions s) c self.old.nodes } }
    {
        let node = match self.sessions.get(s as usize) {
            None => return,
            Some(session) => session.node(),
        };
        self.move_node(node, c);
    }

    /// One commit more, of a transaction's work.
    fn add_commit(&mut self, alloc: Global, work: &PlainWork) -> Result<(), NoMemory>
        ensures { OnOk result (self.new ≡ with_commit work.now self.old) }
    {
        let Some(c) = self.latest.checked_add(1) else {
            return Err(NoMemory);
        };
        let names = written_names(alloc, work)?;
        let tables = committed(alloc, work.seen(), names.as_slice(), self.newest.as_slice())?;
        let mut wrote = written_at(alloc, c, names.as_slice())?;
        wrote.append(&mut self.wrote)?;
        self.wrote = wrote;
        let before = mem::replace(&mut self.newest, tables);
        self.older.push(before)?;
        self.latest = c;
        Ok(())
    }
}
