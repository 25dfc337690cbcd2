//! One session: its transaction, and how far its lines are.
ghost use Rattle.std.specs.Prelude.{◌≡◌, ◌≤◌, ◌<◌, ◌++◌, ℕ, List, [], true, length, take, filter, ◌≢◌};
ghost use Rattle.std.specs.Option.{option_copied};
ghost use Rattle.std.specs.Bool.{OnTrue, OnFalse};
ghost use Rattle.iq_base.specs.Shorts.{Name};
ghost use Rattle.iq_base.specs.Locks.{table_locks};
ghost use Rattle.iq_replay.specs.Start.{is_of};
ghost use Rattle.iq_replay.specs.Asked.{IsOpen};
ghost use Rattle.iq_replay.specs.Causes.{tells_lost};
ghost use Rattle.iq_replay.specs.Changes.{locks_more};
ghost use Rattle.iq_sessions.specs.Kept.{HoldsFit, HasNotCreated, HasFewSaves, runs_now, stage_of, ended, Turns, fresh_kept, idled, created_of, IsUndone};
ghost use Rattle.iq_sessions.specs.Changes.{begins_at, takes, refuses, ends_both, saves, goes_back, releases};
ghost use Rattle.iq_sessions.specs.declared.session.TransactionState.TheVariants as transactions;

use crate::save_names::SaveNames;
use iq_base::{Name, Refusal, SessionSpec};
use iq_model::Script;
use std::marker::Model;
use std::snapshot::Snapshot;

/// How far the line under way is: its last entry, if it has one.
#[derive(Clone, Copy, Debug, PartialEq, Eq)]
pub enum LineStage {
    Fresh,
    Begun,
    Locked,
    Done,
}

/// A running transaction, without its tables and without the names that it holds.
#[derive(Debug, Drop)]
pub struct Transaction {
    /// Whether it is the line's own.
    pub own: bool,
    pub snapshot: u64,
    /// How many names it held as its line began.
    pub kept: usize,
    /// The table that its line created.
    pub created: Option<Name>,
    pub saves: SaveNames,
}

/// No transaction, one that a restart or an exclusion of its node ended, or a running one.
#[derive(Debug, Drop)]
pub enum TransactionState {
    Idle,
    Lost,
    Running(Transaction),
}

/// A session at its place: its node's place, its transaction, and how many of its lines have ended.
#[derive(Drop)]
pub struct Session {
    script: Snapshot<Script>,
    place: u32,
    node: u32,
    transaction: TransactionState,
    stage: LineStage,
    lines: u32,
    ended: u32,
    noted: usize,
}

impl Model for Session {
    ghost use Rattle.std.specs.Coded.{codes};
    ghost use Rattle.iq_ast.specs.contracts.conditions.Cond as cond;
    ghost use Rattle.iq_sessions.specs.Kept.{KeptSession};

    ghost Value = { KeptSession };

    ghost coded = { Prim.hlevel (codes, cond.the_row.coded) };

    ghost use Rattle.iq_sessions.specs.Kept.{left_of, IsSession};

    ghost view = { λ it. record {
      node = it.node;
      transaction = it.transaction;
      stage = it.stage;
      left = left_of it.script.value it.place it.ended;
      noted = it.noted;
    } };

    ghost invariant = { λ it. IsSession it.script.value it.place it.lines it.ended it.stage it.transaction };
}

impl Session {
    /// A session before its first line.
    pub(crate) fn fresh(script: &Script, place: u32, spec: &SessionSpec) -> Session
        requires { spec.now.lines ≡ length (filter (is_of place) script.now.lines) }
        ensures { result ≡ fresh_kept script.now place spec.now }
    {
        Session {
            script: Snapshot::of(script),
            place,
            node: spec.node,
            transaction: TransactionState::Idle,
            stage: LineStage::Fresh,
            lines: spec.lines,
            ended: 0,
            noted: 0,
        }
    }

    /// The place of its node.
    pub fn node(&self) -> u32
        ensures { result ≡ self.now.node }
    {
        self.node
    }

    /// Its transaction.
    pub fn transaction(&self) -> &TransactionState
        ensures { result.now ≡ self.now.transaction }
    {
        &self.transaction
    }

    /// How far its line is.
    pub fn stage(&self) -> LineStage
        ensures { result ≡ self.now.stage }
    {
        self.stage
    }

    /// Whether all its lines have ended.
    #[tactic(auto, using(crate::proofs::Left::drop_some))]
    pub fn has_no_line(&self) -> bool
        ensures yes { OnTrue result (self.now.left ≡ []) }
        ensures no { OnFalse result (self.now.left ≢ []) }
    {
        self.ended == self.lines
    }

    /// For how many names room is made that its commit may write.
    pub(crate) fn noted(&self) -> usize
        ensures { result ≡ self.now.noted }
    {
        self.noted
    }

    /// The table that its line created, if it has.
    pub(crate) fn created(&self) -> Option<&Name>
        ensures { option_copied result ≡ created_of self.now.transaction }
    {
        match &self.transaction {
            TransactionState::Idle | TransactionState::Lost => None,
            TransactionState::Running(transaction) => transaction.created.as_ref(),
        }
    }

    /// There is room for so many names.
    pub(crate) fn note(&mut self, n: usize)
        ensures { self.new ≡ record (self.old) { noted = n } }
    {
        self.noted = n;
    }

    /// A line before its effect has created nothing.
    fn has_not_created(&self)
        requires { IsOpen (stage_of self.now.stage) }
        ensures { HasNotCreated self.now.transaction }
    {
        let _ = &self.stage;
    }

    /// The line ends, and the next is under way.
    #[tactic(auto, using(crate::proofs::Left::drop_more))]
    fn end_line(&mut self)
        requires some { 0 < length self.old.left }
        requires clear { HasNotCreated self.old.transaction }
        ensures { self.new ≡ ended self.old }
    {
        self.stage = LineStage::Fresh;
        self.ended += 1;
    }

    /// A transaction begins at a commit: the line's own, or the session's, with whose begin the line ends.
    pub(crate) fn begin(&mut self, own: bool, c: u64)
        requires { 0 < length self.old.left }
        ensures { Turns self.old [] (begins_at own c) self.new [] self.old.noted }
    {
        self.transaction = TransactionState::Running(Transaction {
            own,
            snapshot: c,
            kept: 0,
            created: None,
            saves: SaveNames::none(),
        });
        if own {
            self.stage = LineStage::Begun;
        } else {
            self.end_line();
        }
    }

    /// Its transaction holds names more.
    pub(crate) fn lock(&mut self)
        requires open_still { IsOpen (stage_of self.old.stage) }
        requires running { runs_now self.old.transaction ≡ true }
        ensures { (names more : List Name) → HoldsFit self.old.transaction names
            → Turns self.old names (locks_more more) self.new (names ++ more) self.old.noted }
    {
        self.has_not_created();
        self.stage = LineStage::Locked;
    }

    /// The statement of its line took effect, while it held so many names, and created a table or none.
    pub(crate) fn take(&mut self, held: usize, created: Option<Name>)
        requires some { 0 < length self.old.left }
        requires open_still { IsOpen (stage_of self.old.stage) }
        ensures { (names : List Name) → HoldsFit self.old.transaction names → length names ≡ held
            → Turns self.old names (takes (table_locks created)) self.new names self.old.noted }
    {
        self.has_not_created();
        if let TransactionState::Running(transaction) = &mut self.transaction {
            if transaction.own {
                transaction.created = created;
                self.stage = LineStage::Done;
                return;
            }
            transaction.kept = held;
            self.end_line();
        }
    }

    /// Its line is refused. It keeps so many of the names that it holds.
    pub(crate) fn refuse(&mut self, cause: &Refusal) -> usize
        requires { 0 < length self.old.left }
        ensures { (names : List Name) → HoldsFit self.old.transaction names
            → Turns self.old names (refuses cause.now) self.new (take result names) self.old.noted }
    {
        let kept = self.undo(cause);
        self.end_line();
        kept
    }

    /// Its line and its transaction end.
    pub(crate) fn end(&mut self)
        requires { 0 < length self.old.left }
        ensures { (names : List Name) → Turns self.old names ends_both self.new [] self.old.noted }
    {
        self.end_transaction();
        self.end_line();
    }

    /// Its transaction ends.
    pub(crate) fn end_transaction(&mut self)
        ensures { self.new ≡ idled self.old }
    {
        self.transaction = TransactionState::Idle;
    }

    /// A savepoint is kept.
    pub(crate) fn save(&mut self, name: &Name)
        requires some { 0 < length self.old.left }
        requires open_still { IsOpen (stage_of self.old.stage) }
        requires few { HasFewSaves self.old.transaction }
        ensures { (names : List Name) → HoldsFit self.old.transaction names
            → Turns self.old names (saves name.now) self.new names self.old.noted }
    {
        self.has_not_created();
        if let TransactionState::Running(transaction) = &mut self.transaction {
            transaction.saves.push(name);
        }
        self.end_line();
    }

    /// Its transaction, which holds so many names, is back at a savepoint.
    #[tactic(auto, using(crate::proofs::Saves::saves_from_names))]
    pub(crate) fn go_back(&mut self, held: usize, name: &Name)
        requires some { 0 < length self.old.left }
        requires open_still { IsOpen (stage_of self.old.stage) }
        ensures { (names : List Name) → HoldsFit self.old.transaction names → length names ≡ held
            → Turns self.old names (goes_back name.now) self.new names self.old.noted }
    {
        self.has_not_created();
        if let TransactionState::Running(transaction) = &mut self.transaction {
            transaction.saves.keep_from(name);
            transaction.kept = held;
            self.end_line();
            return;
        }
        self.end_line();
    }

    /// A savepoint goes, and those behind it.
    #[tactic(auto, using(crate::proofs::Saves::released_names))]
    pub(crate) fn release(&mut self, name: &Name)
        requires some { 0 < length self.old.left }
        requires open_still { IsOpen (stage_of self.old.stage) }
        ensures { (names : List Name) → HoldsFit self.old.transaction names
            → Turns self.old names (releases name.now) self.new names self.old.noted }
    {
        self.has_not_created();
        if let TransactionState::Running(transaction) = &mut self.transaction {
            transaction.saves.keep_from(name);
            transaction.saves.drop_newest();
            self.end_line();
            return;
        }
        self.end_line();
    }

    /// Its transaction is as its line began: it ends where it was the line's own, and a lost one is forgotten once that is told. It
    /// keeps so many of its names.
    fn undo(&mut self, cause: &Refusal) -> usize
        ensures { IsUndone cause.now self.old self.new result }
    {
        match &mut self.transaction {
            TransactionState::Idle => 0,
            TransactionState::Lost => {
                if tells_lost(cause) {
                    self.transaction = TransactionState::Idle;
                }
                0
            }
            TransactionState::Running(transaction) => {
                if transaction.own {
                    self.transaction = TransactionState::Idle;
                    return 0;
                }
                transaction.created = None;
                transaction.kept
            }
        }
    }
}

/// Whether a refusal tells the session that its transaction was lost.
fn tells_lost(cause: &Refusal) -> bool
    ensures { result ≡ tells_lost cause.now }
{
    match cause {
        Refusal::Lost { .. } => true,
        _ => false,
    }
}
