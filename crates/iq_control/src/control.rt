//! The control of a run.
ghost use Rattle.std.specs.Prelude.{◌≡◌, ◌<◌, ◌+◌, ⊤, true, false, length, unwrap_or, None, IfOk, OnOk, OnErr, IfErr};
ghost use Rattle.std.specs.Option.{option_copied};
ghost use Rattle.iq_base.specs.Locks.{table_locks};
ghost use Rattle.iq_ast.specs.declared.statements.Statement.TheVariants as statements;
ghost use Rattle.iq_history.specs.Placed.{IsPlacedRefusal};
ghost use Rattle.iq_statements.specs.Checks.{first_refusal};
ghost use Rattle.iq_replay.specs.Causes.{faults_after};
ghost use Rattle.iq_replay.specs.Lines.{runs};
ghost use Rattle.iq_replay.specs.Nodes.{snapshot_of};
ghost use Rattle.iq_replay.specs.State.{held_by, has_name};
ghost use Rattle.iq_sessions.specs.Bare.{At, was_lost};
ghost use Rattle.iq_control.specs.Opened.{HasNames, IsControllable, IsHistoryOf, IsOpened};
ghost use Rattle.iq_sessions.specs.Table.{AsksOpen, AsksSave, AsksCommit, CommitsAt, noted_at};
ghost use Rattle.iq_control.specs.Asked.{AtLine, IsReaderName, early_checks, IsSnapshot, AsksBegin, AsksLock, AsksTake, AreFree, AreNotFree, HasHoldRoom, AsksEnd, AsksRun};
ghost use Rattle.iq_control.specs.Changes.{noted, begun, locked_more, took, refused_line, committed_at, ended, rolled_back, rolled_at_end, halted_at, saved, went_back, released};

use crate::nodes::{ControlNode, move_node};
use crate::opening::{fresh_nodes, history_for};
use crate::refusals;
use iq_ast::Statement;
use iq_base::{Locks, Name, NoMemory, Refusal};
use iq_history::{Entry, History};
use iq_model::Script;
use iq_sessions::SessionTable;
use std::alloc::Global;
use std::marker::Model;
use std::snapshot::Snapshot;

/// What the shared state keeps of nodes, sessions, transactions, locks, commit numbers and the history.
#[derive(Drop)]
pub struct Control {
    script: Snapshot<Script>,
    history: History,
    latest: u64,
    halted: Option<u64>,
    faults: u64,
    closing: bool,
    nodes: Vec<ControlNode>,
    table: SessionTable,
    ghost named: { HasNames script.value history },
}

impl Model for Control {
    ghost use Rattle.std.specs.Coded.{codes};
    ghost use Rattle.iq_ast.specs.contracts.conditions.Cond as cond;
    ghost use Rattle.iq_control.specs.Control.{ControlState};
    ghost use Rattle.iq_control.specs.Due.{IsControl};

    ghost Value = { ControlState };

    ghost coded = { Prim.hlevel (codes, cond.the_row.coded) };

    ghost view = { λ it. record {
      script = it.script.value;
      entries = it.history.entries;
      latest = it.latest;
      halted = it.halted;
      faults = it.faults;
      closing = it.closing;
      nodes = it.nodes.items;
      table = it.table;
    } };

    ghost invariant = { λ it. IsControl it.history it.latest it.nodes.items it.table };
}

impl Control {
    /// The control of a script before its first entry. It takes the room for the entries of all lines, and for all names that
    /// sessions hold, so that no later call takes memory for these.
    pub fn opened(alloc: Global, script: &Script) -> Result<Control, NoMemory>
        requires { IsControllable script.now }
        ensures { IfOk result (IsOpened script.now) }
    {
        let history = history_for(alloc, script)?;
        let nodes = fresh_nodes(alloc, script.nodes.as_slice())?;
        let table = SessionTable::opened(alloc, script)?;
        Ok(Control {
            script: Snapshot::of(script),
            history,
            latest: 0,
            halted: None,
            faults: 0,
            closing: false,
            nodes,
            table,
        })
    }

    /// The history so far.
    pub fn history(&self) -> &History
        ensures { IsHistoryOf self.now result.now }
    {
        &self.history
    }

    /// The latest commit.
    pub fn latest(&self) -> u64
        ensures { result ≡ self.now.latest }
    {
        self.latest
    }

    /// Whether a session's transaction runs.
    pub fn running(&self, s: u32) -> bool
        requires { s < length self.now.table.sessions }
        ensures { At s self.now.table.sessions (λ session. result ≡ runs session.standing) }
    {
        self.table.runs(s)
    }

    /// Whether a session's transaction was ended by a restart or an exclusion of its node.
    pub fn lost(&self, s: u32) -> bool
        requires { s < length self.now.table.sessions }
        ensures { At s self.now.table.sessions (λ session. result ≡ was_lost session.standing) }
    {
        self.table.is_lost(s)
    }

    /// Whether a session's transaction holds a name.
    pub fn holds(&self, s: u32, name: &Name) -> bool
        requires { s < length self.now.table.sessions }
        ensures { At s self.now.table.sessions (λ session. result ≡ has_name (held_by session.standing) name.now) }
    {
        self.table.holds(s, name)
    }

    /// The snapshot of a session's running transaction.
    pub fn snapshot(&self, s: u32) -> Option<u64>
        requires { s < length self.now.table.sessions }
        ensures { At s self.now.table.sessions (λ session. result ≡ snapshot_of session.standing) }
    {
        self.table.snapshot(s)
    }

    /// The first refusal of a session's line that is found before its statement's own tests, if one is.
    pub fn early_refusal(&self, s: u32, statement: &Statement) -> Option<Refusal>
        requires { s < length self.now.table.sessions }
        ensures { At s self.now.table.sessions (λ session. result ≡ first_refusal (early_checks self.now.nodes session statement.now)) }
    {
        let session = self.table.session(s);
        let node = &self.nodes[session.node() as usize];
        refusals::first(node, session.transaction(), statement)
    }

    /// The name of a session's node, where it is a reader.
    pub fn reader(&self, s: u32) -> Option<&Name>
        requires { s < length self.now.table.sessions }
        ensures { At s self.now.table.sessions (λ session. IsReaderName self.now session (option_copied result)) }
    {
        self.nodes[self.table.node(s) as usize].reader()
    }

    /// The commit that met a device fault, if one did.
    pub fn halted(&self) -> Option<u64>
        ensures { result ≡ self.now.halted }
    {
        self.halted
    }

    /// Makes room for the names that a session's commit may write: those that it holds, and one that it creates.
    pub fn note_names(&mut self, s: u32) -> Result<(), NoMemory>
        requires { s < length self.old.table.sessions }
        ensures ok { OnOk result (At s self.old.table.sessions (λ session. self.new ≡ noted s (length (held_by session.standing) + 1) self.old)) }
        ensures err { OnErr result (self.new ≡ self.old) }
    {
        self.table.note_names(s)
    }

    /// The line's transaction, which holds no name, ends.
    pub fn end(&mut self, s: u32, line: u32)
        requires { AtLine self.old s line (AsksEnd false) }
        ensures { self.new ≡ ended s line self.old }
    {
        self.table.end(s);
        self.history.push(Entry::End { s, l: line });
    }

    /// A transaction begins, the line's own or the session's, at its node's position, which is its snapshot.
    pub fn begin(&mut self, s: u32, line: u32, own: bool) -> u64
        requires { AtLine self.old s line (AsksBegin self.old own) }
        ensures snapshot { At s self.old.table.sessions (λ session. IsSnapshot self.old session result) }
        ensures begun { self.new ≡ begun s line own result self.old }
    {
        let c = self.position(s);
        self.table.begin(s, own, c);
        self.history.push(Entry::Begin { s, l: line, c });
        c
    }

    /// The position of a session's node.
    pub fn position(&self, s: u32) -> u64
        requires { s < length self.now.table.sessions }
        ensures { At s self.now.table.sessions (λ session. IsSnapshot self.now session result) }
    {
        self.nodes[self.table.node(s) as usize].position(self.latest)
    }

    /// A line's transaction gets the names that its write locks and that it doesn't hold; or nothing changes, and it is told what
    /// refuses them: a halt; then the first that another session holds; then the first that was written past its snapshot.
    pub fn lock(&mut self, s: u32, line: u32, names: Locks) -> Result<(), Refusal>
        requires at { AtLine self.old s line (AsksLock names) }
        requires few { At s self.old.table.sessions (HasHoldRoom names) }
        ensures ok { OnOk result (self.new ≡ locked_more s line names self.old) }
        ensures not_halted { OnOk result (self.old.halted ≡ None) }
        ensures free { OnOk result (At s self.old.table.sessions (AreFree self.old s names)) }
        ensures err { IfErr result (λ cause. At s self.old.table.sessions (AreNotFree self.old s names cause)) }
        ensures unchanged { OnErr result (self.new ≡ self.old) }
    {
        if let Some(commit) = self.halted {
            return Err(Refusal::Halted { commit });
        }
        let snapshot = snapshot_of(self.table.snapshot(s));
        match self.table.lock(s, &names, snapshot) {
            Ok(()) => {
                self.history.push(Entry::Lock { s, l: line, names });
                Ok(())
            }
            Err(cause) => Err(cause),
        }
    }

    /// The statement of a line took effect, and created a table or none.
    pub fn done(&mut self, s: u32, line: u32, created: Option<Name>)
        requires { AtLine self.old s line (AsksTake (table_locks created)) }
        ensures { self.new ≡ took s line (table_locks created) self.old }
    {
        self.table.take(s, created);
        self.history.push(Entry::Done { s, l: line });
    }

    /// The line is refused: the names that it took itself are given back, and its own transaction ends.
    pub fn refuse(&mut self, s: u32, line: u32, cause: &Refusal)
        requires at { AtLine self.old s line (λ session statement. ⊤) }
        requires placed { IsPlacedRefusal (length self.old.table.sessions) cause.now }
        ensures { self.new ≡ refused_line s line cause.now self.old }
    {
        self.faults = faults_after(cause, self.faults);
        self.table.refuse(s, cause);
        self.history.push(Entry::Refused {
            s: Some(s),
            l: line,
            cause: cause.again(),
        });
    }

    /// The line's transaction, which holds a name, ends with the next commit, whose number is answered. The session's node is there.
    pub fn commit(&mut self, s: u32, line: u32) -> u64
        requires at { AtLine self.old s line (AsksEnd true) }
        requires room { At s self.old.table.sessions (AsksCommit (noted_at s self.old.table.noted)) }
        ensures number { result ≡ self.old.latest + 1 }
        ensures committed { self.new ≡ committed_at s line self.new.table self.old }
        ensures table { CommitsAt s (self.old.latest + 1) self.old.table self.new.table }
    {
        let c = self.latest + 1;
        let node = self.table.node(s) as usize;
        self.table.commit(s, c);
        move_node(&mut self.nodes, node, c);
        self.history.push(Entry::Commit { s, l: line, c });
        self.latest = c;
        c
    }

    /// The next commit met a device fault, while the count of faults rose so: an own transaction ends, another goes on.
    pub fn halt(&mut self, s: u32, line: u32, before: u64, after: u64)
        requires { AtLine self.old s line (AsksEnd true) }
        ensures { self.new ≡ halted_at s line before after self.old }
    {
        let c = self.latest + 1;
        self.table.refuse(s, &Refusal::StoreFault { before, after });
        self.history.push(Entry::Halt {
            s,
            l: line,
            c,
            before,
            after,
        });
        self.halted = Some(c);
        self.faults = after;
    }

    /// The session's transaction is rolled back by its line.
    pub fn rollback(&mut self, s: u32, line: u32)
        requires { AtLine self.old s line (AsksRun self.old statements.Rollback) }
        ensures { self.new ≡ rolled_back s line self.old }
    {
        self.table.end(s);
        self.history.push(Entry::Rollback { s, l: line });
    }

    /// The transaction of the first session that still runs one is rolled back at the script's end.
    pub fn roll_back_at_end(&mut self, s: u32)
        requires { At s self.old.table.sessions (λ session. runs session.standing ≡ true) }
        ensures { self.new ≡ rolled_at_end s self.old }
    {
        self.table.end_transaction(s);
        self.history.push(Entry::Rollback { s, l: 0 });
        self.closing = true;
    }

    /// A savepoint stands, and hides an older one of its name.
    pub fn savepoint(&mut self, s: u32, line: u32, name: &Name)
        requires at { AtLine self.old s line (AsksRun self.old (statements.Savepoint name.now)) }
        requires few { At s self.old.table.sessions AsksSave }
        ensures { self.new ≡ saved s line name.now self.old }
    {
        self.table.save(s, name);
        self.history.push(Entry::Savepoint {
            s,
            l: line,
            name: name.again(),
        });
    }

    /// The transaction is back at a savepoint. The names that it holds stay.
    pub fn back_to(&mut self, s: u32, line: u32, name: &Name)
        requires at { AtLine self.old s line (AsksRun self.old (statements.BackTo name.now)) }
        requires open_still { At s self.old.table.sessions AsksOpen }
        ensures { self.new ≡ went_back s line name.now self.old }
    {
        self.table.go_back(s, name);
        self.history.push(Entry::Back {
            s,
            l: line,
            name: name.again(),
        });
    }

    /// A savepoint goes, and those behind it.
    pub fn release(&mut self, s: u32, line: u32, name: &Name)
        requires at { AtLine self.old s line (AsksRun self.old (statements.Release name.now)) }
        requires open_still { At s self.old.table.sessions AsksOpen }
        ensures { self.new ≡ released s line name.now self.old }
    {
        self.table.release(s, name);
        self.history.push(Entry::Release {
            s,
            l: line,
            name: name.again(),
        });
    }
}

/// The snapshot of a transaction, if there is one.
fn snapshot_of(snapshot: Option<u64>) -> u64
    ensures { result ≡ unwrap_or snapshot 0 }
{
    match snapshot {
        None => 0,
        Some(c) => c,
    }
}

/// The last count of faults told, after a refusal.
fn faults_after(cause: &Refusal, told: u64) -> u64
    ensures { result ≡ faults_after cause.now told }
{
    match cause {
        Refusal::StoreFault { before: _, after } => *after,
        _ => told,
    }
}
