//! What a statement locks, creates and leaves.
ghost use Rattle.std.specs.Prelude.{◌≡◌, [], ◌∷◌, IfOk};
ghost use Rattle.std.specs.Option.{option_copied};
ghost use Rattle.iq_base.specs.Locks.{table_locks};
ghost use Rattle.iq_statements.specs.Statements.{HasMeaning, tables_after, names_of, locks, creates};
ghost use Rattle.iq_plain_tables.specs.Plain.{HasFewParts};

use crate::databases::copied_tables;
use crate::effects::effect;
use crate::tables::{PlainTable, PlainTables};
use iq_ast::{Statement, Write};
use iq_base::{Locks, Name, NoMemory};
use std::alloc::Global;

/// Copies of the tables as a statement leaves them, where it is not refused; a query leaves them as they are.
pub fn tables_after(
    alloc: Global,
    statement: &Statement,
    tables: &[PlainTable],
) -> Result<PlainTables, NoMemory>
    requires meaning { HasMeaning statement.now }
    requires few { HasFewParts statement.now }
    ensures { IfOk result (λ after. after ≡ tables_after statement.now tables.now) }
{
    match statement {
        Statement::Write(write) => effect(alloc, write, tables),
        Statement::Select(_)
        | Statement::Begin
        | Statement::Commit
        | Statement::Rollback
        | Statement::Savepoint(_)
        | Statement::BackTo(_)
        | Statement::Release(_)
        | Statement::Sync => copied_tables(alloc, tables),
    }
}

/// The names that a statement locks; a query locks none.
pub fn locks(statement: &Statement) -> Locks
    ensures { result ≡ locks statement.now }
{
    match statement {
        Statement::Write(write) => names_of(write),
        Statement::Select(_)
        | Statement::Begin
        | Statement::Commit
        | Statement::Rollback
        | Statement::Savepoint(_)
        | Statement::BackTo(_)
        | Statement::Release(_)
        | Statement::Sync => Locks::of(false, None),
    }
}

/// The names that a write locks: the catalog's for the list of tables, and a table's for its rows and indexes.
fn names_of(write: &Write) -> Locks
    ensures { result ≡ names_of write.now }
{
    match write {
        Write::CreateTable { .. } => Locks::of(true, None),
        Write::DropTable { name } => Locks::of(true, Some(name.again())),
        Write::CreateIndex { table, .. }
        | Write::DropIndex { table, .. }
        | Write::Insert { table, .. }
        | Write::Load { table, .. }
        | Write::Delete { table, .. }
        | Write::Update { table, .. } => Locks::of(false, Some(table.again())),
    }
}

/// The name that a statement creates beside those that it locks, if it creates one.
pub fn creates(statement: &Statement) -> Option<&Name>
    ensures { table_locks (option_copied result) ≡ creates statement.now }
{
    match statement {
        Statement::Write(Write::CreateTable { name, .. }) => Some(name),
        Statement::Write(
            Write::DropTable { .. }
            | Write::CreateIndex { .. }
            | Write::DropIndex { .. }
            | Write::Insert { .. }
            | Write::Load { .. }
            | Write::Delete { .. }
            | Write::Update { .. },
        )
        | Statement::Select(_)
        | Statement::Begin
        | Statement::Commit
        | Statement::Rollback
        | Statement::Savepoint(_)
        | Statement::BackTo(_)
        | Statement::Release(_)
        | Statement::Sync => None,
    }
}
