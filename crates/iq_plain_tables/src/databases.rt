//! Databases: lists of tables with ascending names.
ghost use Rattle.std.specs.Prelude.{◌≡◌, ◌++◌, filter, not, IfOk, OnOk};
ghost use Rattle.std.specs.Option.{option_copied};
ghost use Rattle.iq_conditions.specs.Servers.{same_name};
ghost use Rattle.iq_statements.specs.Tables.{Table, table_of, placed, replaced, without_table, with_table, put_over, as_seen};

use crate::tables::{PlainTable, PlainTables};
use iq_base::{Listed, Name, NoMemory};
use std::alloc::Global;

/// The table of a name, if there is one.
pub fn table_of<'a>(tables: &'a [PlainTable], name: &Name) -> Option<&'a PlainTable>
    ensures { option_copied result ≡ table_of name.now tables.now }
{
    tables.iter().find(|table| table.name() == name)
}

/// The same tables once more.
pub fn copied_tables(alloc: Global, tables: &[PlainTable]) -> Result<PlainTables, NoMemory>
    ensures { IfOk result (λ copies. copies ≡ tables.now) }
{
    let mut copies = Listed::new(alloc);
    push_tables(alloc, &mut copies, tables)?;
    Ok(copies)
}

/// Copies of the tables of `db`, with the table of a name as `seen` has it, or without it where `seen` has none.
pub fn with_seen(
    alloc: Global,
    seen: &[PlainTable],
    db: &[PlainTable],
    name: &Name,
) -> Result<PlainTables, NoMemory>
    ensures { IfOk result (λ put. put ≡ as_seen (table_of name.now seen.now) name.now db.now) }
{
    as_seen(alloc, table_of(seen, name), name, db)
}

fn as_seen(
    alloc: Global,
    table: Option<&PlainTable>,
    name: &Name,
    db: &[PlainTable],
) -> Result<PlainTables, NoMemory>
    ensures { IfOk result (λ put. put ≡ as_seen (option_copied table.entry) name.now db.now) }
{
    match table {
        None => without_table(alloc, name, db),
        Some(table) => with_table(alloc, table.copied(alloc)?, db),
    }
}

/// Copies of the tables with this one, in place of the one of its name, where there is one.
pub fn with_table(
    alloc: Global,
    table: PlainTable,
    db: &[PlainTable],
) -> Result<PlainTables, NoMemory>
    ensures { IfOk result (λ put. put ≡ with_table table db.now) }
{
    if table_of(db, table.name()).is_some() {
        replaced(alloc, table, db)
    } else {
        placed(alloc, table, db)
    }
}

/// Copies of the tables with this one put in before the first whose name isn't below its own.
pub fn placed(
    alloc: Global,
    table: PlainTable,
    tables: &[PlainTable],
) -> Result<PlainTables, NoMemory>
    ensures { IfOk result (λ put. put ≡ placed table tables.now) }
{
    let mut put = Listed::new(alloc);
    for (i, other) in tables.iter().enumerate() {
        if table.name().cmp(other.name()).is_gt() {
            put.push(other.copied(alloc)?)?;
            continue;
        }
        put.push(table)?;
        push_tables(alloc, &mut put, tables.split_at(i).1)?;
        return Ok(put);
    }
    put.push(table)?;
    Ok(put)
}

/// Copies of the tables with this one in place of the one of its name.
pub fn replaced(
    alloc: Global,
    table: PlainTable,
    tables: &[PlainTable],
) -> Result<PlainTables, NoMemory>
    ensures { IfOk result (λ put. put ≡ replaced table tables.now) }
{
    let mut put = Listed::new(alloc);
    for (i, other) in tables.iter().enumerate() {
        if other.name() == table.name() {
            put.push(table)?;
            push_tables(alloc, &mut put, tables.split_at(i + 1).1)?;
            return Ok(put);
        }
        put.push(other.copied(alloc)?)?;
    }
    Ok(put)
}

/// Copies of the tables without the one of a name.
pub fn without_table(
    alloc: Global,
    name: &Name,
    tables: &[PlainTable],
) -> Result<PlainTables, NoMemory>
    ensures { IfOk result (λ kept. kept ≡ without_table name.now tables.now) }
{
    let mut kept = Listed::new(alloc);
    for table in tables {
        if table.name() == name {
            continue;
        }
        kept.push(table.copied(alloc)?)?;
    }
    Ok(kept)
}

/// Puts copies of tables at the end.
fn push_tables(alloc: Global, put: &mut PlainTables, tables: &[PlainTable]) -> Result<(), NoMemory>
    ensures { OnOk result (put.new ≡ put.old ++ tables.now) }
{
    for table in tables {
        put.push(table.copied(alloc)?)?;
    }
    Ok(())
}
