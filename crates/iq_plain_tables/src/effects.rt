//! What a write leaves, and how many rows it puts in, removes or changes.
ghost use Rattle.std.specs.Prelude.{◌≡◌, ◌≤◌, length, IfOk};
ghost use Rattle.std.specs.Option.{option_copied, option_and_then};
ghost use Rattle.iq_conditions.specs.Servers.{column_place};
ghost use Rattle.iq_statements.specs.Tables.{Table, with_changed, with_rows, with_index, without_index};
ghost use Rattle.iq_statements.specs.Effects.{effect, count, without_rows, with_changes, index_on};
ghost use Rattle.iq_statements.specs.Statements.{HasWriteMeaning};
ghost use Rattle.iq_plain_tables.specs.Plain.{HasFewWriteParts};

use crate::conditions::column_place;
use crate::databases::{copied_tables, placed, replaced, table_of, without_table};
use crate::rows::{count_true, with_changes, without_rows};
use crate::tables::{PlainTable, PlainTables};
use iq_ast::{Change, Cond, Write};
use iq_base::{Column, IndexKind, IndexSpec, Name, NoMemory, Row};
use std::alloc::Global;

/// Copies of the tables as a write leaves them, where it is not refused.
pub fn effect(alloc: Global, write: &Write, tables: &[PlainTable]) -> Result<PlainTables, NoMemory>
    requires meaning { HasWriteMeaning write.now }
    requires few { HasFewWriteParts write.now }
    ensures { IfOk result (λ after. after ≡ effect write.now tables.now) }
{
    match write {
        Write::CreateTable { name, schema } => placed(
            alloc,
            PlainTable::empty(alloc, name, schema.columns.as_slice())?,
            tables,
        ),
        Write::DropTable { name } => without_table(alloc, name, tables),
        Write::CreateIndex {
            name,
            kind,
            table,
            column,
            second,
        } => with_new_index(
            alloc,
            name,
            *kind,
            column,
            second,
            table_of(tables, table),
            tables,
        ),
        Write::DropIndex { table, name } => {
            without_old_index(alloc, name, table_of(tables, table), tables)
        }
        Write::Insert { table, rows } => {
            inserted(alloc, rows.as_slice(), table_of(tables, table), tables)
        }
        Write::Delete { table, cond } => deleted(alloc, cond, table_of(tables, table), tables),
        Write::Update {
            table,
            changes,
            cond,
        } => updated(
            alloc,
            changes.as_slice(),
            cond,
            table_of(tables, table),
            tables,
        ),
        Write::Load { .. } => unreachable!(),
    }
}

fn with_new_index(
    alloc: Global,
    name: &Name,
    kind: IndexKind,
    column: &Name,
    second: &Option<Name>,
    table: Option<&PlainTable>,
    tables: &[PlainTable],
) -> Result<PlainTables, NoMemory>
    ensures { IfOk result (λ after. after ≡ with_changed (λ (t : Table). with_index (index_on name.now kind column.now second.now t) t) (option_copied table.entry) tables.now) }
{
    match table {
        None => copied_tables(alloc, tables),
        Some(table) => {
            let index = index_on(name, kind, column, second, table);
            replaced(alloc, table.with_index(alloc, index)?, tables)
        }
    }
}

fn without_old_index(
    alloc: Global,
    name: &Name,
    table: Option<&PlainTable>,
    tables: &[PlainTable],
) -> Result<PlainTables, NoMemory>
    ensures { IfOk result (λ after. after ≡ with_changed (without_index name.now) (option_copied table.entry) tables.now) }
{
    match table {
        None => copied_tables(alloc, tables),
        Some(table) => replaced(alloc, table.without_index(alloc, name)?, tables),
    }
}

fn inserted(
    alloc: Global,
    rows: &[Row],
    table: Option<&PlainTable>,
    tables: &[PlainTable],
) -> Result<PlainTables, NoMemory>
    ensures { IfOk result (λ after. after ≡ with_changed (with_rows rows.now) (option_copied table.entry) tables.now) }
{
    match table {
        None => copied_tables(alloc, tables),
        Some(table) => replaced(alloc, table.with_rows(alloc, rows)?, tables),
    }
}

fn deleted(
    alloc: Global,
    cond: &Option<Cond>,
    table: Option<&PlainTable>,
    tables: &[PlainTable],
) -> Result<PlainTables, NoMemory>
    ensures { IfOk result (λ after. after ≡ with_changed (without_rows cond.now) (option_copied table.entry) tables.now) }
{
    match table {
        None => copied_tables(alloc, tables),
        Some(table) => replaced(alloc, without_rows(alloc, cond, table)?, tables),
    }
}

fn updated(
    alloc: Global,
    changes: &[Change],
    cond: &Option<Cond>,
    table: Option<&PlainTable>,
    tables: &[PlainTable],
) -> Result<PlainTables, NoMemory>
    ensures { IfOk result (λ after. after ≡ with_changed (with_changes changes.now cond.now) (option_copied table.entry) tables.now) }
{
    match table {
        None => copied_tables(alloc, tables),
        Some(table) => replaced(alloc, with_changes(alloc, changes, cond, table)?, tables),
    }
}

/// An index as a table keeps it, with its columns by their places.
pub fn index_on(
    name: &Name,
    kind: IndexKind,
    column: &Name,
    second: &Option<Name>,
    table: &PlainTable,
) -> IndexSpec
    ensures { result ≡ index_on name.now kind column.now second.now table.now }
{
    IndexSpec {
        name: name.again(),
        kind,
        column: place_of(table.columns(), column).unwrap_or(0),
        second: second_place(table.columns(), second),
    }
}

/// The place of a column, which 8 bits tell.
fn place_of(columns: &[Column], name: &Name) -> Option<u8>
    requires { length columns.now ≤ 256 }
    ensures { result ≡ column_place columns.now name.now }
{
    match column_place(columns, name) {
        None => None,
        Some(place) => Some(place as u8),
    }
}

fn second_place(columns: &[Column], second: &Option<Name>) -> Option<u8>
    requires { length columns.now ≤ 256 }
    ensures { result ≡ option_and_then (column_place columns.now) second.now }
{
    match second {
        None => None,
        Some(name) => place_of(columns, name),
    }
}

/// How many rows a write puts in, removes or changes.
pub fn count(write: &Write, tables: &[PlainTable]) -> u32
    requires { HasFewWriteParts write.now }
    ensures { result ≡ count write.now tables.now }
{
    match write {
        Write::CreateTable { .. }
        | Write::DropTable { .. }
        | Write::CreateIndex { .. }
        | Write::DropIndex { .. }
        | Write::Load { .. } => 0,
        Write::Insert { rows, .. } => rows.len() as u32,
        Write::Delete { table, cond } => count_true(cond, table_of(tables, table)),
        Write::Update { table, cond, .. } => count_true(cond, table_of(tables, table)),
    }
}
