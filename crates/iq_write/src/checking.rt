//! What refuses a write before it has its locks.
ghost use Rattle.std.specs.Prelude.{◌≡◌, ◌≤◌, ◌⊎◌, ℕ, length, None, Some, OnOk, IfErr};
ghost use Rattle.iq_history.specs.Placed.{IsPlacedRefusal};
ghost use Rattle.iq_statements.specs.Checks.{first_refusal};
ghost use Rattle.iq_statements.specs.Named.{write_checks, create_checks};
ghost use Rattle.iq_database.specs.Standing.{OfDescribed, AreTables};
ghost use Rattle.iq_write.specs.Simple.{IsSimpleWrite};
ghost use Rattle.iq_write.specs.Effects.{drop_checks, insert_checks};

use crate::rows::first_bad_row;
use iq_ast::Write;
use iq_base::{Descriptor, MOST_TABLES, Name, Refusal, Row};
use iq_database::{columns_of, place_of};
use std::alloc::Global;

/// Tests what a write names and the values that it gives, over the tables of these descriptors: the first refusal that holds, or want
/// of memory. No row of the tables counts for it.
pub fn check(alloc: Global, tables: &[Descriptor], write: &Write) -> Result<(), Refusal>
    requires tables { AreTables tables.now }
    requires simple { IsSimpleWrite write.now }
    ensures granted { OnOk result (OfDescribed tables.now (λ db. first_refusal (write_checks write.now db) ≡ None)) }
    ensures placed { IfErr result (λ e. (n : ℕ) → IsPlacedRefusal n e) }
    ensures cause { IfErr result (λ e. (e ≡ Refusal.NoMemory) ⊎ OfDescribed tables.now (λ db. first_refusal (write_checks write.now db) ≡ Some e)) }
{
    match write {
        Write::CreateTable { name, schema: _ } => check_create(tables, name),
        Write::DropTable { name } => check_drop(tables, name),
        Write::Insert { table, rows } => check_insert(alloc, tables, table, rows.as_slice()),
        Write::CreateIndex { .. }
        | Write::DropIndex { .. }
        | Write::Load { .. }
        | Write::Delete { .. }
        | Write::Update { .. } => unreachable!(),
    }
}

fn check_create(tables: &[Descriptor], name: &Name) -> Result<(), Refusal>
    ensures granted { OnOk result (OfDescribed tables.now (λ db. first_refusal (create_checks name.now db) ≡ None)) }
    ensures placed { IfErr result (λ e. (n : ℕ) → IsPlacedRefusal n e) }
    ensures cause { IfErr result (λ e. OfDescribed tables.now (λ db. first_refusal (create_checks name.now db) ≡ Some e)) }
{
    match place_of(tables, name) {
        Some(_) => Err(Refusal::TableExists { name: name.again() }),
        None if tables.len() >= MOST_TABLES => Err(Refusal::CatalogFull),
        None => Ok(()),
    }
}

fn check_drop(tables: &[Descriptor], name: &Name) -> Result<(), Refusal>
    ensures granted { OnOk result (OfDescribed tables.now (λ db. first_refusal (drop_checks name.now db) ≡ None)) }
    ensures placed { IfErr result (λ e. (n : ℕ) → IsPlacedRefusal n e) }
    ensures cause { IfErr result (λ e. OfDescribed tables.now (λ db. first_refusal (drop_checks name.now db) ≡ Some e)) }
{
    match place_of(tables, name) {
        Some(_) => Ok(()),
        None => Err(Refusal::NoTable { name: name.again() }),
    }
}

fn check_insert(
    alloc: Global,
    tables: &[Descriptor],
    name: &Name,
    rows: &[Row],
) -> Result<(), Refusal>
    requires tables { AreTables tables.now }
    requires few { length rows.now ≤ 16777216 }
    ensures granted { OnOk result (OfDescribed tables.now (λ db. first_refusal (insert_checks name.now rows.now db) ≡ None)) }
    ensures placed { IfErr result (λ e. (n : ℕ) → IsPlacedRefusal n e) }
    ensures cause { IfErr result (λ e. (e ≡ Refusal.NoMemory) ⊎ OfDescribed tables.now (λ db. first_refusal (insert_checks name.now rows.now db) ≡ Some e)) }
{
    let Some(place) = place_of(tables, name) else {
        return Err(Refusal::NoTable { name: name.again() });
    };
    let columns = columns_of(alloc, &tables[place])?;
    match first_bad_row(columns.as_slice(), rows) {
        None => Ok(()),
        Some(refusal) => Err(refusal),
    }
}
