//! The names that a statement locks, and those that a transaction holds.
ghost use Rattle.std.specs.Prelude.{◌≡◌};
ghost use Rattle.std.specs.Option.{option_copied};
ghost use Rattle.iq_replay.specs.State.{has_name, not_held};
ghost use Rattle.iq_replay.specs.Refusals.{wanted};
ghost use Rattle.iq_statements.specs.Statements.{locks, names_of};
ghost use Rattle.iq_plain_sessions.specs.Plain.{table_not_held};

use crate::transactions::{PlainTransaction, catalog};
use iq_ast::{Statement, Write};
use iq_base::{Locks, Name};

/// The names that a statement locks and its transaction doesn't hold.
pub fn wanted(statement: &Statement, run: &PlainTransaction) -> Locks
    ensures { result ≡ wanted statement.now run.entry.now }
{
    not_held(run.work().held(), &locks(statement))
}

/// Whether a list has a name.
pub(crate) fn has_name(names: &[Name], name: &Name) -> bool
    ensures { result ≡ has_name names.now name.now }
{
    names.iter().any(|n| n == name)
}

/// The names that aren't held yet.
#[tactic(auto, using(crate::proofs::Held::not_held_locks))]
fn not_held(held: &[Name], names: &Locks) -> Locks
    ensures { result ≡ not_held held.now names.now }
{
    let (of_all, table) = names.parts();
    let still = of_all && !has_name(held, &catalog());
    Locks::of(still, table_not_held(held, table))
}

/// The table that isn't held yet.
fn table_not_held(held: &[Name], table: Option<&Name>) -> Option<Name>
    ensures { result ≡ table_not_held held.now (option_copied table.entry) }
{
    match table {
        None => None,
        Some(name) => {
            if has_name(held, name) {
                None
            } else {
                Some(name.again())
            }
        }
    }
}

/// The names that a statement locks.
fn locks(statement: &Statement) -> Locks
    ensures { result ≡ locks statement.now }
{
    match statement {
        Statement::Write(write) => names_of(write),
        Statement::Select(_)
        | Statement::Begin
        | Statement::Commit
        | Statement::Rollback
        | Statement::Savepoint(_)
        | Statement::BackTo(_)
        | Statement::Release(_)
        | Statement::Sync => Locks::of(false, None),
    }
}

/// The names that a write locks.
fn names_of(write: &Write) -> Locks
    ensures { result ≡ names_of write.now }
{
    match write {
        Write::CreateTable { .. } => Locks::of(true, None),
        Write::DropTable { name } => Locks::of(true, Some(name.again())),
        Write::CreateIndex { table, .. }
        | Write::DropIndex { table, .. }
        | Write::Insert { table, .. }
        | Write::Load { table, .. }
        | Write::Delete { table, .. }
        | Write::Update { table, .. } => Locks::of(false, Some(table.again())),
    }
}
