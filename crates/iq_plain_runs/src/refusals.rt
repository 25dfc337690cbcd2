//! The first refusal of a line.
ghost use Rattle.std.specs.Prelude.{◌≡◌, IfOk};
ghost use Rattle.std.specs.Option.{option_copied};
ghost use Rattle.iq_plain_tables.specs.Plain.{HasFewParts};
ghost use Rattle.iq_statements.specs.Checks.{first_refusal, first_found};
ghost use Rattle.iq_statements.specs.Statements.{HasMeaning, is_ddl};
ghost use Rattle.iq_replay.specs.Commits.{latest_of};
ghost use Rattle.iq_replay.specs.Refusals.{lost_refusal, at_node, excluded_refusal, reader_refusal, before_line, no_save, full_saves, transaction_refusal, locked_refusal, later_refusal, holder_from, line_checks};
ghost use Rattle.iq_plain_runs.specs.Firsts.{session_refusal, run_refusal, behind_refusal};

use iq_ast::{Statement, Write};
use iq_base::{Locks, Name, NoMemory, Refusal};
use iq_plain_refusals::{room_refusal, statement_refusal};
use iq_plain_sessions::{PlainNode, PlainSession, PlainTransaction, catalog, wanted};
use iq_plain_state::PlainState;
use std::alloc::Global;

/// The first refusal of a session's statement.
#[tactic(auto, using(crate::proofs::Found::line_first))]
pub(crate) fn refusal(
    state: &PlainState,
    alloc: Global,
    s: u32,
    session: &PlainSession,
    statement: &Statement,
) -> Result<Option<Refusal>, NoMemory>
    requires meaning { HasMeaning statement.now }
    requires few { HasFewParts statement.now }
    ensures { IfOk result (λ found. found ≡ first_refusal (line_checks state.now s session.now statement.now)) }
{
    state.never_halts();
    session_refusal(state, alloc, s, session, statement)
}

/// The same, as the tests follow each other.
fn session_refusal(
    state: &PlainState,
    alloc: Global,
    s: u32,
    session: &PlainSession,
    statement: &Statement,
) -> Result<Option<Refusal>, NoMemory>
    requires meaning { HasMeaning statement.now }
    requires few { HasFewParts statement.now }
    ensures { IfOk result (λ found. found ≡ session_refusal state.now s session.now statement.now) }
{
    let node = state.node_at(session.node());
    if let Some(cause) = lost_refusal(node, session) {
        return Ok(Some(cause));
    }
    if let Some(cause) = excluded_refusal(node) {
        return Ok(Some(cause));
    }
    if let Some(cause) = transaction_refusal(session.before_line(), statement) {
        return Ok(Some(cause));
    }
    if let Some(cause) = reader_refusal(node, statement) {
        return Ok(Some(cause));
    }
    run_refusal(state, alloc, s, session.run(), statement)
}

/// The first refusal that only a running transaction can meet.
fn run_refusal(
    state: &PlainState,
    alloc: Global,
    s: u32,
    run: Option<&PlainTransaction>,
    statement: &Statement,
) -> Result<Option<Refusal>, NoMemory>
    requires meaning { HasMeaning statement.now }
    requires few { HasFewParts statement.now }
    ensures { IfOk result (λ found. found ≡ run_refusal state.now s statement.now (option_copied run.entry)) }
{
    let Some(run) = run else {
        return Ok(None);
    };
    match statement_refusal(alloc, statement, run.start().seen())? {
        Some(cause) => Ok(Some(cause)),
        None => behind_refusal(state, alloc, s, run, statement),
    }
}

/// The first refusal behind the names and values of a statement.
fn behind_refusal(
    state: &PlainState,
    alloc: Global,
    s: u32,
    run: &PlainTransaction,
    statement: &Statement,
) -> Result<Option<Refusal>, NoMemory>
    requires meaning { HasMeaning statement.now }
    requires few { HasFewParts statement.now }
    ensures { IfOk result (λ found. found ≡ behind_refusal state.now s statement.now run.entry.now) }
{
    let names = wanted(statement, run);
    if let Some(cause) = locked_refusal(state, s, &names)? {
        return Ok(Some(cause));
    }
    if let Some(cause) = later_refusal(state, run.snapshot(), &names) {
        return Ok(Some(cause));
    }
    room_refusal(alloc, statement, run.start().seen())
}

/// The refusal of the first of these names that another transaction holds.
fn locked_refusal(state: &PlainState, s: u32, names: &Locks) -> Result<Option<Refusal>, NoMemory>
    ensures { IfOk result (λ found. found ≡ first_found (locked_refusal state.now.sessions s) names.now) }
{
    let (of_all, table) = names.parts();
    if of_all {
        if let Some(cause) = locked_name(state, s, &catalog())? {
            return Ok(Some(cause));
        }
    }
    match table {
        None => Ok(None),
        Some(name) => locked_name(state, s, name),
    }
}

/// The refusal of a name that another transaction holds.
fn locked_name(state: &PlainState, s: u32, name: &Name) -> Result<Option<Refusal>, NoMemory>
    ensures { IfOk result (λ found. found ≡ locked_refusal state.now.sessions s name.now) }
{
    let Some(place) = holder(state, s, name) else {
        return Ok(None);
    };
    let Ok(session) = u32::try_from(place) else {
        return Err(NoMemory);
    };
    Ok(Some(Refusal::Locked {
        table: name.again(),
        session,
    }))
}

/// The first other session whose transaction holds a name.
fn holder(state: &PlainState, asks: u32, name: &Name) -> Option<usize>
    ensures { result ≡ holder_from 0 state.now.sessions asks name.now }
{
    for (place, session) in state.sessions().iter().enumerate() {
        if place == asks as usize {
            continue;
        }
        if session.holds(name) {
            return Some(place);
        }
    }
    None
}

/// The refusal of the first of these names whose latest commit is past the snapshot.
fn later_refusal(state: &PlainState, snapshot: u64, names: &Locks) -> Option<Refusal>
    ensures { result ≡ first_found (later_refusal state.now.wrote snapshot) names.now }
{
    let (of_all, table) = names.parts();
    if of_all {
        if let Some(cause) = later_name(state, snapshot, &catalog()) {
            return Some(cause);
        }
    }
    match table {
        None => None,
        Some(name) => later_name(state, snapshot, name),
    }
}

/// The refusal of a name whose latest commit is past the snapshot.
fn later_name(state: &PlainState, snapshot: u64, name: &Name) -> Option<Refusal>
    ensures { result ≡ later_refusal state.now.wrote snapshot name.now }
{
    let commit = latest_of(state, name);
    if snapshot < commit {
        return Some(Refusal::Later {
            table: name.again(),
            commit,
        });
    }
    None
}

/// The commit that last wrote a name, 0 where none did.
fn latest_of(state: &PlainState, name: &Name) -> u64
    ensures { result ≡ latest_of name.now state.now.wrote }
{
    for written in state.wrote() {
        if written.is_named(name) {
            return written.commit();
        }
    }
    0
}

/// A session whose transaction was ended by a restart or an exclusion of its node.
fn lost_refusal(node: Option<&PlainNode>, session: &PlainSession) -> Option<Refusal>
    ensures { result ≡ lost_refusal (option_copied node.entry) session.now.standing }
{
    let node = node?;
    if session.is_lost() {
        return Some(Refusal::Lost {
            incarnation: node.incarnation(),
        });
    }
    None
}

/// A node that is excluded.
pub(crate) fn excluded_refusal(node: Option<&PlainNode>) -> Option<Refusal>
    ensures { result ≡ at_node excluded_refusal (option_copied node.entry) }
{
    let node = node?;
    if node.is_excluded() {
        return Some(Refusal::Excluded {
            node: node.name().again(),
        });
    }
    None
}

/// A write on a reader.
fn reader_refusal(node: Option<&PlainNode>, statement: &Statement) -> Option<Refusal>
    ensures { result ≡ reader_refusal (option_copied node.entry) statement.now }
{
    let node = node?;
    match statement {
        Statement::Write(_) => {
            if node.is_reader() {
                return Some(Refusal::ReadOnly {
                    node: node.name().again(),
                });
            }
            None
        }
        Statement::Select(_)
        | Statement::Begin
        | Statement::Commit
        | Statement::Rollback
        | Statement::Savepoint(_)
        | Statement::BackTo(_)
        | Statement::Release(_)
        | Statement::Sync => None,
    }
}

/// What a statement asks of the transaction that the session had.
fn transaction_refusal(run: Option<&PlainTransaction>, statement: &Statement) -> Option<Refusal>
    ensures { result ≡ transaction_refusal (option_copied run.entry) statement.now }
{
    match statement {
        Statement::Write(write) => {
            if run.is_some() && is_ddl(write) {
                return Some(Refusal::DdlInTransaction);
            }
            None
        }
        Statement::Select(_) => None,
        Statement::Begin | Statement::Sync => {
            if run.is_some() {
                return Some(Refusal::InTransaction);
            }
            None
        }
        Statement::Commit | Statement::Rollback => {
            if run.is_none() {
                return Some(Refusal::NoTransaction);
            }
            None
        }
        Statement::Savepoint(_) => full_saves(run),
        Statement::BackTo(name) | Statement::Release(name) => no_save(run, name),
    }
}

/// A transaction whose savepoints are as many as they can be, or none.
fn full_saves(run: Option<&PlainTransaction>) -> Option<Refusal>
    ensures { result ≡ full_saves (option_copied run.entry) }
{
    match run {
        None => Some(Refusal::NoTransaction),
        Some(run) => {
            if 16 <= run.saves().len() {
                return Some(Refusal::TooManySavepoints);
            }
            None
        }
    }
}

/// A transaction without a savepoint of this name, or none.
fn no_save(run: Option<&PlainTransaction>, name: &Name) -> Option<Refusal>
    ensures { result ≡ no_save (option_copied run.entry) name.now }
{
    match run {
        None => Some(Refusal::NoTransaction),
        Some(run) => {
            if run.has_save(name) {
                return None;
            }
            Some(Refusal::NoSavepoint { name: name.again() })
        }
    }
}

/// Whether a write changes schemas or indexes.
fn is_ddl(write: &Write) -> bool
    ensures { result ≡ is_ddl write.now }
{
    match write {
        Write::CreateTable { .. }
        | Write::DropTable { .. }
        | Write::CreateIndex { .. }
        | Write::DropIndex { .. } => true,
        Write::Insert { .. } | Write::Load { .. } | Write::Delete { .. } | Write::Update { .. } =>
            false,
    }
}
