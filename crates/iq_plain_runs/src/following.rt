//! The next entry of a session's line.
ghost use Rattle.std.specs.Prelude.{◌≡◌, [], IfOk, Some, None, true};
ghost use Rattle.std.specs.Bool.{OnTrue, OnFalse};
ghost use Rattle.iq_ast.specs.declared.statements.Statement.TheVariants as statements;
ghost use Rattle.iq_statements.specs.Checks.{first_refusal};
ghost use Rattle.iq_statements.specs.Statements.{HasMeaning, IsOnTables, Begins};
ghost use Rattle.iq_plain_tables.specs.Plain.{HasFewParts};
ghost use Rattle.iq_replay.specs.State.{running, done, has_some};
ghost use Rattle.iq_replay.specs.Asked.{IsOpen};
ghost use Rattle.iq_replay.specs.Refusals.{line_checks};
ghost use Rattle.iq_replay.specs.Lines.{IsEnding};
ghost use Rattle.iq_script_order.specs.Fixed.{IsCertain};
ghost use Rattle.iq_plain_runs.specs.Courses.{IsLineOf, IsFoundOf};

use crate::refusals::refusal;
use iq_ast::Statement;
use iq_base::{Locks, NoMemory, Refusal};
use iq_history::Entry;
use iq_plain_sessions::{PlainSession, PlainTransaction, wanted};
use iq_plain_state::{PlainState, is_plain};
use std::alloc::Global;

/// The next entry of a line, if it is the line under way of its session and the plain program runs its statement.
pub(crate) fn next(
    state: &PlainState,
    alloc: Global,
    s: u32,
    l: u32,
) -> Result<Option<Entry>, NoMemory>
    ensures { IfOk result (IsFoundOf state.now l) }
{
    if state.is_closing() {
        return Ok(None);
    }
    let Some(session) = state.session_at(s) else {
        return Ok(None);
    };
    let Some(statement) = session.statement_at(l) else {
        return Ok(None);
    };
    if !is_plain(statement) {
        return Ok(None);
    }
    next_of(state, alloc, s, l, session, statement)
}

/// The next entry of the line under way.
fn next_of(
    state: &PlainState,
    alloc: Global,
    s: u32,
    l: u32,
    session: &PlainSession,
    statement: &Statement,
) -> Result<Option<Entry>, NoMemory>
    requires at { IsLineOf state.now s l session.now statement.now }
    requires meaning { HasMeaning statement.now }
    requires few { HasFewParts statement.now }
    ensures { IfOk result (IsFoundOf state.now l) }
{
    if session.is_done() {
        return Ok(own_end(state, s, l, session, statement));
    }
    match refusal(state, alloc, s, session, statement)? {
        Some(cause) => Ok(refused(state, s, l, session, statement, cause)),
        None => Ok(granted(state, s, l, session, statement)),
    }
}

/// The refusal of a line.
fn refused(
    state: &PlainState,
    s: u32,
    l: u32,
    session: &PlainSession,
    statement: &Statement,
    cause: Refusal,
) -> Option<Entry>
    requires at { IsLineOf state.now s l session.now statement.now }
    requires open_still { IsOpen session.now.stage }
    requires first { first_refusal (line_checks state.now s session.now statement.now) ≡ Some cause }
    ensures { IsFoundOf state.now l result }
{
    if is_certain(&cause) {
        return Some(Entry::Refused {
            s: Some(s),
            l,
            cause,
        });
    }
    None
}

/// The next entry of a line that no test refuses.
fn granted(
    state: &PlainState,
    s: u32,
    l: u32,
    session: &PlainSession,
    statement: &Statement,
) -> Option<Entry>
    requires at { IsLineOf state.now s l session.now statement.now }
    requires open_still { IsOpen session.now.stage }
    requires meaning { HasMeaning statement.now }
    requires granted { first_refusal (line_checks state.now s session.now statement.now) ≡ None }
    ensures { IsFoundOf state.now l result }
{
    match statement {
        Statement::Write(_) | Statement::Select(_) => on_tables(state, s, l, session, statement),
        Statement::Begin => begun(state, s, l, session, statement),
        Statement::Commit => ended(state, s, l, session, statement),
        Statement::Rollback => rolled(state, s, l, session, statement),
        Statement::Savepoint(name) => Some(Entry::Savepoint {
            s,
            l,
            name: name.again(),
        }),
        Statement::BackTo(name) => Some(Entry::Back {
            s,
            l,
            name: name.again(),
        }),
        Statement::Release(name) => Some(Entry::Release {
            s,
            l,
            name: name.again(),
        }),
        Statement::Sync => Some(Entry::Sync {
            s,
            l,
            c: state.latest(),
        }),
    }
}

/// A rollback by a line.
fn rolled(
    state: &PlainState,
    s: u32,
    l: u32,
    session: &PlainSession,
    statement: &Statement,
) -> Option<Entry>
    requires at { IsLineOf state.now s l session.now statement.now }
    requires same { statement.now ≡ statements.Rollback }
    requires granted { first_refusal (line_checks state.now s session.now statement.now) ≡ None }
    ensures { IsFoundOf state.now l result }
{
    let _ = session;
    let _ = statement;
    if l == 0 {
        return None;
    }
    Some(Entry::Rollback { s, l })
}

/// The next entry of a line on tables.
fn on_tables(
    state: &PlainState,
    s: u32,
    l: u32,
    session: &PlainSession,
    statement: &Statement,
) -> Option<Entry>
    requires at { IsLineOf state.now s l session.now statement.now }
    requires open_still { IsOpen session.now.stage }
    requires tables { IsOnTables statement.now }
    requires meaning { HasMeaning statement.now }
    requires granted { first_refusal (line_checks state.now s session.now statement.now) ≡ None }
    ensures { IsFoundOf state.now l result }
{
    match session.run() {
        None => begun(state, s, l, session, statement),
        Some(run) => worked(state, s, l, session, statement, run),
    }
}

/// A transaction begins with a line.
fn begun(
    state: &PlainState,
    s: u32,
    l: u32,
    session: &PlainSession,
    statement: &Statement,
) -> Option<Entry>
    requires at { IsLineOf state.now s l session.now statement.now }
    requires begins { Begins statement.now }
    requires granted { first_refusal (line_checks state.now s session.now statement.now) ≡ None }
    ensures { IsFoundOf state.now l result }
{
    let _ = statement;
    if !session.is_fresh() || !session.is_idle() {
        return None;
    }
    let node = state.node_at(session.node())?;
    Some(Entry::Begin {
        s,
        l,
        c: node.position(state.latest()),
    })
}

/// A line on tables locks the names that it wants, or takes effect.
fn worked(
    state: &PlainState,
    s: u32,
    l: u32,
    session: &PlainSession,
    statement: &Statement,
    run: &PlainTransaction,
) -> Option<Entry>
    requires at { IsLineOf state.now s l session.now statement.now }
    requires runs { session.now.standing ≡ running run.now }
    requires open_still { IsOpen session.now.stage }
    requires tables { IsOnTables statement.now }
    requires meaning { HasMeaning statement.now }
    requires granted { first_refusal (line_checks state.now s session.now statement.now) ≡ None }
    ensures { IsFoundOf state.now l result }
{
    let names = wanted(statement, run);
    if is_empty(&names) {
        return Some(Entry::Done { s, l });
    }
    if session.is_unlocked() {
        return Some(Entry::Lock { s, l, names });
    }
    None
}

/// COMMIT ends its transaction.
fn ended(
    state: &PlainState,
    s: u32,
    l: u32,
    session: &PlainSession,
    statement: &Statement,
) -> Option<Entry>
    requires at { IsLineOf state.now s l session.now statement.now }
    requires same { statement.now ≡ statements.Commit }
    ensures { IsFoundOf state.now l result }
{
    let run = session.run()?;
    if run.is_own() {
        return None;
    }
    end_of(state, s, l, session, statement, run)
}

/// A transaction of a line's own ends once its statement took effect.
fn own_end(
    state: &PlainState,
    s: u32,
    l: u32,
    session: &PlainSession,
    statement: &Statement,
) -> Option<Entry>
    requires at { IsLineOf state.now s l session.now statement.now }
    requires done { session.now.stage ≡ done }
    ensures { IsFoundOf state.now l result }
{
    let run = session.run()?;
    if !run.is_own() {
        return None;
    }
    end_of(state, s, l, session, statement, run)
}

/// A transaction ends, with a commit where it holds a name.
fn end_of(
    state: &PlainState,
    s: u32,
    l: u32,
    session: &PlainSession,
    statement: &Statement,
    run: &PlainTransaction,
) -> Option<Entry>
    requires at { IsLineOf state.now s l session.now statement.now }
    requires runs { session.now.standing ≡ running run.now }
    requires ending { IsEnding run.now.own session.now.stage statement.now }
    ensures { IsFoundOf state.now l result }
{
    let _ = session;
    let _ = statement;
    state.never_halts();
    if !run.holds_some() {
        return Some(Entry::End { s, l });
    }
    let c = state.latest().checked_add(1)?;
    Some(Entry::Commit { s, l, c })
}

/// Whether there is no name.
fn is_empty(names: &Locks) -> bool
    ensures yes { OnTrue result (names.now ≡ []) }
    ensures no { OnFalse result (has_some names.now ≡ true) }
{
    let (of_all, table) = names.parts();
    !of_all && table.is_none()
}

/// Whether neither want of space or memory, nor a fault, a bad page or a halt gives a refusal.
pub(crate) fn is_certain(cause: &Refusal) -> bool
    ensures { OnTrue result (IsCertain cause.now) }
{
    match cause {
        Refusal::Halted { .. }
        | Refusal::NoSpace { .. }
        | Refusal::StoreFault { .. }
        | Refusal::BadPage { .. }
        | Refusal::NoMemory => false,
        _ => true,
    }
}
