//! The steps of a line in its own transaction.
ghost use Rattle.std.specs.Prelude.{◌≡◌, true, None, OnOk, IfOk, IfErr};
ghost use Rattle.iq_base.specs.Locks.{table_locks};
ghost use Rattle.iq_model.specs.declared.replies.Said.{Said as TheSaid};
ghost use Rattle.iq_statements.specs.Statements.{created_by};
ghost use Rattle.iq_ast.specs.declared.statements.Statement.TheVariants as statements;
ghost use Rattle.iq_replay.specs.State.{begun, locked, done};
ghost use Rattle.iq_control.specs.Asked.{is_own};
ghost use Rattle.iq_model.specs.declared.replies.Said.TheVariants as said;
ghost use Rattle.iq_render.specs.Placed.{IsPlacedSaid};
ghost use Rattle.iq_query.specs.Simple.{IsSimple};
ghost use Rattle.iq_plex.specs.Doing.{Waits, Does, HasBegun, IsNamed, HasNames, HasSaid, HasAnswered, GoesOn, Ends, MayRefuse, IsToldBy, CanRun};

use crate::plex::Plex;
use iq_ast::{Select, Statement, Write};
use iq_base::{Name, Refusal};
use iq_model::{Answer, Reply, Said};
use iq_write::names_of;
use std::alloc::Global;

impl Plex {
    /// Begins the line's own transaction at the latest commit, or answers what refuses the line before its own tests.
    pub(crate) fn begin(&mut self, line: u32, statement: &Statement) -> Result<(), Refusal>
        requires waits { Waits self.old line statement.now }
        requires own { is_own statement.now ≡ true }
        ensures on { GoesOn self.old self.new }
        ensures begun { OnOk result (Does self.new line statement.now begun HasBegun) }
        ensures refused { IfErr result (MayRefuse self.new line) }
    {
        if let Some(cause) = self.control.early_refusal(0, statement) {
            return Err(cause);
        }
        self.control.begin(0, line, true);
        Ok(())
    }

    /// The first refusal of what a write names and of its values, or want of memory.
    pub(crate) fn check(&self, alloc: Global, line: u32, write: &Write) -> Result<(), Refusal>
        requires run { CanRun write.now }
        requires begun { Does self.now line (statements.Write write.now) begun HasBegun }
        ensures named { OnOk result (Does self.now line (statements.Write write.now) begun (IsNamed (statements.Write write.now))) }
        ensures refused { IfErr result (MayRefuse self.now line) }
    {
        let _ = line;
        self.tables.check(alloc, write)
    }

    /// Locks the names of a write, and makes room for its commit; or answers what refuses them.
    pub(crate) fn lock(&mut self, line: u32, write: &Write) -> Result<(), Refusal>
        requires named { Does self.old line (statements.Write write.now) begun (IsNamed (statements.Write write.now)) }
        ensures on { GoesOn self.old self.new }
        ensures locked { OnOk result (Does self.new line (statements.Write write.now) locked (HasNames self.new (statements.Write write.now))) }
        ensures refused { IfErr result (MayRefuse self.new line) }
    {
        self.control.lock(0, line, names_of(write))?;
        self.control.note_names(0)?;
        Ok(())
    }

    /// Lets a write whose names are held take effect, and tells so; or answers what refuses it, and changes nothing.
    pub(crate) fn write(&mut self, alloc: Global, line: u32, write: &Write) -> Result<u32, Refusal>
        requires run { CanRun write.now }
        requires locked { Does self.old line (statements.Write write.now) locked (HasNames self.old (statements.Write write.now)) }
        ensures on { GoesOn self.old self.new }
        ensures done { IfOk result (λ rows. (what : TheSaid) → IsToldBy write.now rows None what → Does self.new line (statements.Write write.now) done (HasSaid self.new what)) }
        ensures refused { IfErr result (MayRefuse self.new line) }
    {
        let rows = self.tables.write(alloc, write)?;
        self.control.done(0, line, created_by(write));
        Ok(rows)
    }

    /// Commits the line's transaction, which holds a name, and answers the line.
    pub(crate) fn commit(&mut self, line: u32, write: &Write, rows: u32) -> Reply
        requires run { CanRun write.now }
        requires done { (what : TheSaid) → IsToldBy write.now rows None what → Does self.old line (statements.Write write.now) done (HasSaid self.old what) }
        ensures line { Ends self.old result self.new }
        ensures number { result.line ≡ line }
        ensures placed { IsPlacedSaid 1 1 result.said }
    {
        let commit = self.control.commit(0, line);
        Reply {
            line,
            said: told_by(write, rows, Some(commit)),
        }
    }

    /// Answers a query over the tables that the line's transaction sees, or what refuses it.
    pub(crate) fn select(
        &mut self,
        alloc: Global,
        line: u32,
        select: &Select,
    ) -> Result<Answer, Refusal>
        requires simple { IsSimple select.now }
        requires begun { Does self.old line (statements.Select select.now) begun HasBegun }
        ensures on { GoesOn self.old self.new }
        ensures done { IfOk result (λ answer. Does self.new line (statements.Select select.now) done (HasAnswered (said.Answer answer))) }
        ensures refused { IfErr result (MayRefuse self.new line) }
    {
        let answer = self.tables.select(alloc, select)?;
        self.control.done(0, line, None);
        Ok(answer)
    }

    /// Ends the line's transaction, which holds no name, and answers the line.
    pub(crate) fn end(&mut self, line: u32, select: &Select, answer: Answer) -> Reply
        requires done { Does self.old line (statements.Select select.now) done (HasAnswered (said.Answer answer)) }
        ensures line { Ends self.old result self.new }
        ensures number { result.line ≡ line }
        ensures placed { IsPlacedSaid 1 1 result.said }
    {
        let _ = select;
        self.control.end(0, line);
        Reply {
            line,
            said: Said::Answer(answer),
        }
    }
}

/// The name that a write creates beside those that it locks.
fn created_by(write: &Write) -> Option<Name>
    requires { CanRun write.now }
    ensures { table_locks result ≡ created_by write.now }
{
    match write {
        Write::CreateTable { name, .. } => Some(name.again()),
        _ => None,
    }
}

/// What a write is answered: how many rows it put in, and under which commit.
fn told_by(write: &Write, rows: u32, commit: Option<u64>) -> Said
    requires { CanRun write.now }
    ensures { IsToldBy write.now rows commit result }
{
    match write {
        Write::CreateTable { .. } => Said::Created { commit },
        Write::DropTable { .. } => Said::Dropped { commit },
        Write::Insert { .. } => Said::Inserted { rows, commit },
        Write::CreateIndex { .. }
        | Write::DropIndex { .. }
        | Write::Load { .. }
        | Write::Delete { .. }
        | Write::Update { .. } => unreachable!(),
    }
}
