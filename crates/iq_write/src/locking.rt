//! The names that a write locks.
ghost use Rattle.std.specs.Prelude.{◌≡◌, [], ◌∷◌};
ghost use Rattle.iq_statements.specs.Statements.{names_of};

use iq_ast::Write;
use iq_base::{Locks, Name};

/// The names that a write locks: the catalog's for the list of tables, and a table's for its rows and indexes.
pub fn names_of(write: &Write) -> Locks
    ensures { result ≡ names_of write.now }
{
    match write {
        Write::CreateTable { .. } => Locks::of(true, None),
        Write::DropTable { name } => Locks::of(true, Some(name.again())),
        Write::CreateIndex { table, .. }
        | Write::DropIndex { table, .. }
        | Write::Insert { table, .. }
        | Write::Load { table, .. }
        | Write::Delete { table, .. }
        | Write::Update { table, .. } => table_lock(table),
    }
}

/// The lock of one table.
fn table_lock(table: &Name) -> Locks
    ensures { result ≡ table.now ∷ [] }
{
    Locks::of(false, Some(table.again()))
}
