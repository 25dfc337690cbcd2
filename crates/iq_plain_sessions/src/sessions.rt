//! Sessions: the line under way, the lines that are left, and the replies.
ghost use Rattle.std.specs.Prelude.{◌≡◌, IfOk, IfSome, OnOk, Some, map, unwrap_or};
ghost use Rattle.std.specs.Bool.{OnTrue, OnFalse};
ghost use Rattle.std.specs.Option.{option_copied};
ghost use Rattle.iq_statements.specs.Statements.{HasMeaning};
ghost use Rattle.iq_plain_tables.specs.Plain.{HasFewParts, HasFewWriteParts};
ghost use Rattle.iq_model.specs.declared.replies.Said.TheVariants as saids;
ghost use Rattle.iq_replay.specs.Said.{write_said, statement_said, numbered};
ghost use Rattle.iq_replay.specs.Changes.{statement_of, ends_line, ends_run, works, begins, locks_more, takes_effect, refused, commits, ends, rolls_back, saves_as, back_to, release_to, loses};
ghost use Rattle.iq_replay.specs.State.{fresh, done, idle, running, has_name, held_by};
ghost use Rattle.iq_replay.specs.Lines.{runs};
ghost use Rattle.iq_replay.specs.Histories.{HasEnded};
ghost use Rattle.iq_replay.specs.Asked.{FirstIs, IsOpen, IsUnlocked};
ghost use Rattle.iq_model.specs.declared.scripts.Deed.TheVariants as deeds;
ghost use Rattle.iq_replay.specs.Refusals.{before_line};
ghost use Rattle.iq_plain_sessions.specs.Plain.{fresh_session, run_of, was_lost};

use crate::names::has_name;
use crate::transactions::PlainTransaction;
use iq_ast::{Statement, Write};
use iq_base::{Listed, Locks, Name, NoMemory, Refusal};
use iq_model::{Deed, Line, Reply, Said};
use iq_plain_answers::answer;
use iq_plain_tables::{PlainTable, count};
use std::alloc::Global;
use std::marker::Model;

/// How far the line under way is.
#[derive(Clone, Copy, Debug, PartialEq, Eq)]
pub(crate) enum PlainStage {
    Fresh,
    Begun,
    Locked,
    Done,
}

/// A session.
#[derive(Debug, Drop)]
pub struct PlainSession<'a> {
    node: u32,
    lost: bool,
    run: Option<PlainTransaction>,
    stage: PlainStage,
    said: Option<Said>,
    left: Vec<&'a Line>,
    replies: Listed<Reply>,
}

impl<'a> Model for PlainSession<'a> {
    ghost use Rattle.std.specs.Prelude.{map};
    ghost use Rattle.std.specs.Coded.{codes};
    ghost use Rattle.iq_ast.specs.contracts.conditions.Cond as cond;
    ghost use Rattle.iq_replay.specs.State.{Session};

    ghost Value = { Session };

    ghost coded = { Prim.hlevel (codes, cond.the_row.coded) };

    ghost use Rattle.iq_plain_sessions.specs.Plain.{standing_of};
    ghost use Rattle.iq_plain_sessions.specs.Stages.{stage_of};

    ghost view = { λ it. record {
      node = it.node;
      standing = standing_of it.lost it.run;
      stage = stage_of it.stage;
      said = it.said;
      left = map (λ line. line.now) it.left.items;
      replies = it.replies;
    } };
}

impl<'a> PlainSession<'a> {
    /// A session before its first line.
    pub fn fresh(alloc: Global, node: u32, left: Vec<&'a Line>) -> PlainSession<'a>
        ensures { result ≡ fresh_session node (map (λ line. line.now) left.entry.items) }
    {
        PlainSession {
            node,
            lost: false,
            run: None,
            stage: PlainStage::Fresh,
            said: None,
            left,
            replies: Listed::new(alloc),
        }
    }

    /// The place of its node.
    pub fn node(&self) -> u32
        ensures { result ≡ self.now.node }
    {
        self.node
    }

    /// Its running transaction, if it has one.
    pub fn run(&self) -> Option<&PlainTransaction>
        ensures value { option_copied result ≡ run_of self.now.standing }
        ensures runs { IfSome result (λ run. self.now.standing ≡ running run.now) }
    {
        self.run.as_ref()
    }

    /// Whether its transaction was ended by a restart or an exclusion of its node.
    pub fn is_lost(&self) -> bool
        ensures { result ≡ was_lost self.now.standing }
    {
        self.lost && self.run.is_none()
    }

    /// Whether it has no transaction, and lost none.
    pub fn is_idle(&self) -> bool
        ensures { OnTrue result (self.now.standing ≡ idle) }
    {
        self.run.is_none() && !self.lost
    }

    /// Whether its transaction runs.
    pub fn runs(&self) -> bool
        ensures { result ≡ runs self.now.standing }
    {
        self.run.is_some()
    }

    /// Whether no line and no transaction is left.
    pub fn has_ended(&self) -> bool
        ensures { OnTrue result (HasEnded self.now) }
    {
        self.left.is_empty() && self.run.is_none()
    }

    /// Whether its line has no entry yet.
    pub fn is_fresh(&self) -> bool
        ensures { OnTrue result (self.now.stage ≡ fresh) }
    {
        match self.stage {
            PlainStage::Fresh => true,
            PlainStage::Begun | PlainStage::Locked | PlainStage::Done => false,
        }
    }

    /// Whether its line has no lock and no effect yet.
    pub fn is_unlocked(&self) -> bool
        ensures { OnTrue result (IsUnlocked self.now.stage) }
    {
        match self.stage {
            PlainStage::Fresh | PlainStage::Begun => true,
            PlainStage::Locked | PlainStage::Done => false,
        }
    }

    /// Whether its line's statement took effect.
    pub fn is_done(&self) -> bool
        ensures yes { OnTrue result (self.now.stage ≡ done) }
        ensures no { OnFalse result (IsOpen self.now.stage) }
    {
        match self.stage {
            PlainStage::Done => true,
            PlainStage::Fresh | PlainStage::Begun | PlainStage::Locked => false,
        }
    }

    /// Whether its line under way has this number.
    pub fn is_at(&self, l: u32) -> bool {
        match self.left.first() {
            None => false,
            Some(line) => line.number == l,
        }
    }

    /// The statement of its line under way, where it has this number.
    pub fn statement_at(&self, l: u32) -> Option<&'a Statement>
        ensures { IfSome result (λ statement. FirstIs self.now.left l (λ deed. deed ≡ deeds.Statement statement.now)) }
    {
        match self.left.first() {
            None => None,
            Some(line) => {
                if line.number != l {
                    return None;
                }
                match &line.deed {
                    Deed::Statement(statement) => Some(statement),
                    Deed::Step(_) => None,
                }
            }
        }
    }

    /// The transaction that it had before its line.
    pub fn before_line(&self) -> Option<&PlainTransaction>
        ensures { option_copied result ≡ before_line self.now.standing }
    {
        match &self.run {
            None => None,
            Some(run) => { if run.is_own() { None } else { Some(run) } }
        }
    }

    /// Whether its transaction holds a name.
    pub fn holds(&self, name: &Name) -> bool
        ensures { result ≡ has_name (held_by self.now.standing) name.now }
    {
        match &self.run {
            None => false,
            Some(run) => has_name(run.work().held(), name),
        }
    }

    /// The replies to its lines so far.
    pub fn replies(&self) -> &[Reply]
        ensures { result.now ≡ self.now.replies }
    {
        self.replies.as_slice()
    }

    /// The statement of the line under way.
    pub fn statement(&self) -> Option<&'a Statement>
        ensures { option_copied result ≡ statement_of self.now.left }
    {
        match self.left.first() {
            None => None,
            Some(line) => match &line.deed {
                Deed::Statement(statement) => Some(statement),
                Deed::Step(_) => None,
            },
        }
    }

    /// The line is answered, and the next is under way.
    fn end_line(&mut self, l: u32, said: Said) -> Result<(), NoMemory>
        ensures { OnOk result (self.new ≡ ends_line l said self.old) }
    {
        self.replies.push(Reply { line: l, said })?;
        if !self.left.is_empty() {
            self.left.remove(0);
        }
        self.said = None;
        self.stage = PlainStage::Fresh;
        Ok(())
    }

    /// A transaction begins.
    pub fn begin(
        &mut self,
        alloc: Global,
        l: u32,
        c: u64,
        tables: &[PlainTable],
    ) -> Result<(), NoMemory>
        ensures { OnOk result (self.new ≡ begins (statement_of self.old.left) l c tables.now self.old) }
    {
        match self.statement() {
            Some(Statement::Begin) => {
                self.run = Some(PlainTransaction::begun(alloc, false, c, tables)?);
                self.end_line(l, Said::Begun { commit: c })
            }
            Some(Statement::Write(_)) | Some(Statement::Select(_)) => {
                self.run = Some(PlainTransaction::begun(alloc, true, c, tables)?);
                self.stage = PlainStage::Begun;
                Ok(())
            }
            Some(Statement::Commit)
            | Some(Statement::Rollback)
            | Some(Statement::Savepoint(_))
            | Some(Statement::BackTo(_))
            | Some(Statement::Release(_))
            | Some(Statement::Sync)
            | None => Ok(()),
        }
    }

    /// It holds names more.
    pub fn lock(&mut self, names: &Locks) -> Result<(), NoMemory>
        ensures { OnOk result (self.new ≡ locks_more names.now self.old) }
    {
        if let Some(run) = &mut self.run {
            run.hold(names)?;
        }
        self.stage = PlainStage::Locked;
        Ok(())
    }

    /// The statement of the line takes effect.
    pub fn take(&mut self, alloc: Global, l: u32, statement: &Statement) -> Result<(), NoMemory>
        requires meaning { HasMeaning statement.now }
        requires few { HasFewParts statement.now }
        ensures { OnOk result (self.new ≡ takes_effect (Some statement.now) l self.old) }
    {
        let Some(run) = &mut self.run else {
            return Ok(());
        };
        let said = said_of(alloc, statement, run.work().seen())?;
        run.take(alloc, statement)?;
        if run.is_own() {
            self.stage = PlainStage::Done;
            self.said = said;
            return Ok(());
        }
        run.keep(alloc)?;
        self.end_line(l, said_or_ended(said))
    }

    /// The line is refused.
    pub fn refuse(&mut self, alloc: Global, l: u32, cause: Refusal) -> Result<(), NoMemory>
        ensures { OnOk result (self.new ≡ refused l cause self.old) }
    {
        if let Refusal::Lost { .. } = &cause {
            self.lost = false;
        }
        if let Some(run) = &mut self.run {
            if run.is_own() {
                self.run = None;
                self.lost = false;
            } else {
                run.undo(alloc)?;
            }
        }
        self.end_line(l, Said::Refused(cause))
    }

    /// The transaction ends under a number.
    pub fn commit(&mut self, l: u32, c: u64) -> Result<(), NoMemory>
        ensures { OnOk result (self.new ≡ commits l c self.old) }
    {
        let said = match self.said.take() {
            None => Said::Committed { commit: c },
            Some(said) => numbered(c, said),
        };
        self.end_run();
        self.end_line(l, said)
    }

    /// The transaction ends without a number.
    pub fn end(&mut self, l: u32) -> Result<(), NoMemory>
        ensures { OnOk result (self.new ≡ ends l self.old) }
    {
        let said = said_or_ended(self.said.take());
        self.end_run();
        self.end_line(l, said)
    }

    /// The transaction is rolled back, at the script's end without an answer.
    pub fn roll_back(&mut self, l: u32) -> Result<(), NoMemory>
        ensures { OnOk result (self.new ≡ rolls_back l self.old) }
    {
        self.end_run();
        if l == 0 {
            return Ok(());
        }
        self.end_line(l, Said::RolledBack)
    }

    /// No transaction runs, and none was lost.
    fn end_run(&mut self)
        ensures { self.new ≡ ends_run self.old }
    {
        self.run = None;
        self.lost = false;
    }

    /// A savepoint is kept.
    pub fn save(&mut self, alloc: Global, l: u32, name: &Name) -> Result<(), NoMemory>
        ensures { OnOk result (self.new ≡ ends_line l (saids.Saved name.now) (works (saves_as name.now) self.old)) }
    {
        if let Some(run) = &mut self.run {
            run.save(alloc, name)?;
        }
        self.end_line(l, Said::Saved { name: name.again() })
    }

    /// The tables are as at a savepoint.
    pub fn go_back(&mut self, alloc: Global, l: u32, name: &Name) -> Result<(), NoMemory>
        ensures { OnOk result (self.new ≡ ends_line l (saids.BackTo name.now) (works (back_to name.now) self.old)) }
    {
        if let Some(run) = &mut self.run {
            run.go_back(alloc, name)?;
        }
        self.end_line(l, Said::BackTo { name: name.again() })
    }

    /// A savepoint goes.
    pub fn release(&mut self, l: u32, name: &Name) -> Result<(), NoMemory>
        ensures { OnOk result (self.new ≡ ends_line l (saids.Released name.now) (works (release_to name.now) self.old)) }
    {
        if let Some(run) = &mut self.run {
            run.release(name)?;
        }
        self.end_line(l, Said::Released { name: name.again() })
    }

    /// The session's node is at a commit.
    pub fn sync(&mut self, l: u32, c: u64) -> Result<(), NoMemory>
        ensures { OnOk result (self.new ≡ ends_line l (saids.Synced c) self.old) }
    {
        self.end_line(l, Said::Synced { commit: c })
    }

    /// A running transaction is lost, where it is on this node.
    pub fn lose(&mut self, node: u32)
        ensures { self.new ≡ loses node self.old }
    {
        if self.node == node && self.run.is_some() {
            self.run = None;
            self.lost = true;
        }
    }
}

/// The running transactions of a node are lost.
pub fn lose_all(sessions: &mut [PlainSession], node: u32)
    ensures { sessions.new ≡ map (loses node) sessions.old }
{
    for session in sessions.iter_mut() {
        session.lose(node);
    }
}

/// What a statement on tables is answered.
fn said_of(
    alloc: Global,
    statement: &Statement,
    tables: &[PlainTable],
) -> Result<Option<Said>, NoMemory>
    requires { HasFewParts statement.now }
    ensures { IfOk result (λ said. said ≡ statement_said statement.now tables.now) }
{
    match statement {
        Statement::Write(write) => Ok(Some(write_said(write, tables))),
        Statement::Select(select) => Ok(Some(Said::Answer(answer(alloc, select, tables)?))),
        Statement::Begin
        | Statement::Commit
        | Statement::Rollback
        | Statement::Savepoint(_)
        | Statement::BackTo(_)
        | Statement::Release(_)
        | Statement::Sync => Ok(None),
    }
}

/// What a write is answered, before it has a number.
fn write_said(write: &Write, tables: &[PlainTable]) -> Said
    requires { HasFewWriteParts write.now }
    ensures { result ≡ write_said write.now tables.now }
{
    let commit = None;
    let rows = count(write, tables);
    match write {
        Write::CreateTable { .. } | Write::CreateIndex { .. } => Said::Created { commit },
        Write::DropTable { .. } | Write::DropIndex { .. } => Said::Dropped { commit },
        Write::Insert { .. } | Write::Load { .. } => Said::Inserted { rows, commit },
        Write::Delete { .. } => Said::Deleted { rows, commit },
        Write::Update { .. } => Said::Updated { rows, commit },
    }
}

/// What a line said, or that its transaction ended.
fn said_or_ended(said: Option<Said>) -> Said
    ensures { result ≡ unwrap_or said saids.Ended }
{
    match said {
        None => Said::Ended,
        Some(said) => said,
    }
}

/// What a line said, with the number of its commit.
fn numbered(c: u64, said: Said) -> Said
    ensures { result ≡ numbered c said }
{
    let commit = Some(c);
    match said {
        Said::Created { .. } => Said::Created { commit },
        Said::Dropped { .. } => Said::Dropped { commit },
        Said::Inserted { rows, .. } => Said::Inserted { rows, commit },
        Said::Deleted { rows, .. } => Said::Deleted { rows, commit },
        Said::Updated { rows, .. } => Said::Updated { rows, commit },
        other => other,
    }
}
