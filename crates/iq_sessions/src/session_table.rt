//! All sessions of a run, and the names that they hold.
ghost use Rattle.std.specs.Prelude.{◌≡◌, ◌≤◌, ◌<◌, ◌+◌, ◌^◌, length, Some, None, IfOk, OnOk, OnErr, IfErr};
ghost use Rattle.iq_base.specs.Locks.{table_locks};
ghost use Rattle.iq_replay.specs.State.{held_by, has_name};
ghost use Rattle.iq_replay.specs.Changes.{ends_run, locks_more};
ghost use Rattle.iq_replay.specs.Lines.{runs};
ghost use Rattle.iq_sessions.specs.Bare.{was_lost};
ghost use Rattle.iq_replay.specs.Nodes.{snapshot_of};
ghost use Rattle.iq_sessions.specs.Bare.{At};
ghost use Rattle.iq_sessions.specs.Kept.{IsKeptAs};
ghost use Rattle.iq_sessions.specs.Changes.{begins_at, takes, refuses, ends_both, saves, goes_back, releases};
ghost use Rattle.iq_sessions.specs.Table.{AreCounted, IsFresh, fresh_kepts, AsksBegin, AsksOpen, AsksSave, AsksLock, AsksCommit, HasLine, CommitsAt, with_at, noting, noted_at, wanted_of, wanted_refusal};

use crate::locking::{acquire, has_name, write_names};
use crate::session::{Session, TransactionState};
use iq_base::{Locks, Name, NoMemory, Refusal, SessionSpec};
use iq_locks::LockTable;
use iq_model::Script;
use std::alloc::Global;
use std::marker::Model;

/// The sessions, the table of their locks, and the sum of the names for which their commits have room.
#[derive(Drop)]
pub struct SessionTable {
    sessions: Vec<Session>,
    locks: LockTable,
    noted: usize,
}

impl Model for SessionTable {
    ghost use Rattle.std.specs.Coded.{codes};
    ghost use Rattle.iq_ast.specs.contracts.conditions.Cond as cond;
    ghost use Rattle.iq_sessions.specs.Table.{TableState, table_of, IsTable};

    ghost Value = { TableState };

    ghost coded = { Prim.hlevel (codes, cond.the_row.coded) };

    ghost view = { λ t. table_of t.sessions.items t.locks };

    ghost invariant = { λ t. IsTable t.sessions.items t.locks t.noted };
}

impl SessionTable {
    /// The sessions of a script before their first lines. It takes the room for all names that they will hold.
    pub fn opened(alloc: Global, script: &Script) -> Result<SessionTable, NoMemory>
        requires counted { AreCounted 0 script.now.lines script.now.sessions }
        requires few { length script.now.sessions < 2 ^ 32 }
        ensures { IfOk result (IsFresh script.now) }
    {
        let specs = script.sessions.as_slice();
        let sessions = fresh_sessions(alloc, script, specs)?;
        let locks = LockTable::unlocked(alloc, specs.len() as u32)?;
        Ok(SessionTable {
            sessions,
            locks,
            noted: 0,
        })
    }

    /// The session at a place.
    pub fn session(&self, s: u32) -> &Session
        requires { s < length self.now.sessions }
        ensures { At s self.now.sessions (IsKeptAs result.now) }
    {
        &self.sessions[s as usize]
    }

    /// The names that the session at a place holds.
    pub fn held(&self, s: u32) -> &[Name]
        requires { s < length self.now.sessions }
        ensures { At s self.now.sessions (λ session. result.now ≡ held_by session.standing) }
    {
        self.locks.held(s)
    }

    /// A session's transaction begins.
    pub fn begin(&mut self, s: u32, own: bool, c: u64)
        requires { At s self.old.sessions AsksBegin }
        ensures { self.new ≡ with_at s (begins_at own c) self.old }
    {
        self.sessions[s as usize].begin(own, c);
    }

    /// A statement took effect, and created a table or none.
    pub fn take(&mut self, s: u32, created: Option<Name>)
        requires { At s self.old.sessions AsksOpen }
        ensures { self.new ≡ with_at s (takes (table_locks created)) self.old }
    {
        let held = self.locks.held(s).len();
        self.sessions[s as usize].take(held, created);
    }

    /// A line is refused: the names that it took itself are given back.
    pub fn refuse(&mut self, s: u32, cause: &Refusal)
        requires { At s self.old.sessions HasLine }
        ensures { self.new ≡ with_at s (refuses cause.now) self.old }
    {
        let kept = self.sessions[s as usize].refuse(cause);
        self.locks.keep(s, kept);
    }

    /// A line and its transaction end: all names are given back.
    pub fn end(&mut self, s: u32)
        requires { At s self.old.sessions HasLine }
        ensures { self.new ≡ with_at s ends_both self.old }
    {
        self.sessions[s as usize].end();
        self.locks.drop_all(s);
    }

    /// A transaction ends behind its session's lines: all names are given back.
    pub fn end_transaction(&mut self, s: u32)
        requires { s < length self.old.sessions }
        ensures { self.new ≡ with_at s ends_run self.old }
    {
        self.sessions[s as usize].end_transaction();
        self.locks.drop_all(s);
    }

    /// A savepoint is kept.
    pub fn save(&mut self, s: u32, name: &Name)
        requires { At s self.old.sessions AsksSave }
        ensures { self.new ≡ with_at s (saves name.now) self.old }
    {
        self.sessions[s as usize].save(name);
    }

    /// A transaction is back at a savepoint. The names that it holds stay.
    pub fn go_back(&mut self, s: u32, name: &Name)
        requires { At s self.old.sessions AsksOpen }
        ensures { self.new ≡ with_at s (goes_back name.now) self.old }
    {
        let held = self.locks.held(s).len();
        self.sessions[s as usize].go_back(held, name);
    }

    /// A savepoint goes, and those behind it.
    pub fn release(&mut self, s: u32, name: &Name)
        requires { At s self.old.sessions AsksOpen }
        ensures { self.new ≡ with_at s (releases name.now) self.old }
    {
        self.sessions[s as usize].release(name);
    }

    /// A session gets the names of a statement that it doesn't hold; or nothing changes, and the first is told that another session
    /// holds, and only where there is none the first that was written past the snapshot. It takes no memory.
    pub fn lock(&mut self, s: u32, names: &Locks, snapshot: u64) -> Result<(), Refusal>
        requires { At s self.old.sessions (AsksLock names.now snapshot) }
        ensures ok { OnOk result (At s self.old.sessions (λ session. self.new ≡ with_at s (locks_more (wanted_of names.now session)) self.old)) }
        ensures granted { OnOk result (At s self.old.sessions (λ session. wanted_refusal names.now s snapshot self.old session ≡ None)) }
        ensures err { IfErr result (λ cause. At s self.old.sessions (λ session. wanted_refusal names.now s snapshot self.old session ≡ Some cause)) }
        ensures unchanged { OnErr result (self.new ≡ self.old) }
    {
        match acquire(&mut self.locks, names, s, snapshot) {
            Ok(()) => {
                self.sessions[s as usize].lock();
                Ok(())
            }
            Err(cause) => Err(cause),
        }
    }

    /// Makes room for the names that a session's commit may write: those that it holds, and one that it creates.
    pub fn note_names(&mut self, s: u32) -> Result<(), NoMemory>
        requires { s < length self.old.sessions }
        ensures ok { OnOk result (At s self.old.sessions (λ session. self.new ≡ noting s (length (held_by session.standing) + 1) self.old)) }
        ensures err { OnErr result (self.new ≡ self.old) }
    {
        let n = self.locks.held(s).len() + 1;
        let Some(total) = self.noted.checked_add(n) else {
            return Err(NoMemory);
        };
        self.locks.name_room(total)?;
        let before = self.sessions[s as usize].noted();
        self.sessions[s as usize].note(n);
        self.noted = total - before;
        Ok(())
    }

    /// A transaction ends with a commit, which writes its names. It takes no memory.
    pub fn commit(&mut self, s: u32, c: u64)
        requires { At s self.old.sessions (AsksCommit (noted_at s self.old.noted)) }
        ensures { CommitsAt s c self.old self.new }
    {
        let session = &self.sessions[s as usize];
        let noted = session.noted();
        write_names(&mut self.locks, s, session.created(), c);
        let session = &mut self.sessions[s as usize];
        session.note(0);
        session.end();
        self.locks.drop_all(s);
        self.noted -= noted;
    }

    /// The snapshot of a running transaction.
    pub fn snapshot(&self, s: u32) -> Option<u64>
        requires { s < length self.now.sessions }
        ensures { At s self.now.sessions (λ session. result ≡ snapshot_of session.standing) }
    {
        match self.session(s).transaction() {
            TransactionState::Idle | TransactionState::Lost => None,
            TransactionState::Running(transaction) => Some(transaction.snapshot),
        }
    }

    /// Whether a transaction runs.
    pub fn runs(&self, s: u32) -> bool
        requires { s < length self.now.sessions }
        ensures { At s self.now.sessions (λ session. result ≡ runs session.standing) }
    {
        match self.session(s).transaction() {
            TransactionState::Idle | TransactionState::Lost => false,
            TransactionState::Running(_) => true,
        }
    }

    /// Whether a transaction was ended by a restart or an exclusion of its node.
    pub fn is_lost(&self, s: u32) -> bool
        requires { s < length self.now.sessions }
        ensures { At s self.now.sessions (λ session. result ≡ was_lost session.standing) }
    {
        match self.session(s).transaction() {
            TransactionState::Lost => true,
            TransactionState::Idle | TransactionState::Running(_) => false,
        }
    }

    /// Whether a transaction holds a name.
    pub fn holds(&self, s: u32, name: &Name) -> bool
        requires { s < length self.now.sessions }
        ensures { At s self.now.sessions (λ session. result ≡ has_name (held_by session.standing) name.now) }
    {
        has_name(self.held(s), name)
    }

    /// The node of a session.
    pub fn node(&self, s: u32) -> u32
        requires { s < length self.now.sessions }
        ensures { At s self.now.sessions (λ session. result ≡ session.node) }
    {
        self.session(s).node()
    }

    /// How many sessions there are.
    pub fn len(&self) -> u32
        ensures { result ≡ length self.now.sessions }
    {
        self.sessions.len() as u32
    }
}

/// The sessions before their first lines.
fn fresh_sessions(
    alloc: Global,
    script: &Script,
    specs: &[SessionSpec],
) -> Result<Vec<Session>, NoMemory>
    requires counted { AreCounted 0 script.now.lines specs.now }
    requires few { length specs.now < 2 ^ 32 }
    ensures { IfOk result (λ sessions. sessions.items ≡ fresh_kepts script.now 0 specs.now) }
{
    let mut sessions = Vec::new(alloc);
    for (place, spec) in specs.iter().enumerate() {
        sessions.push(Session::fresh(script, place as u32, spec))?;
    }
    Ok(sessions)
}
