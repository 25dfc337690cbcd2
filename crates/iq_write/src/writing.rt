//! The effect of a write on descriptors and pages.
ghost use Rattle.std.specs.Prelude.{◌≡◌, ◌<◌, ◌≤◌, ◌⊎◌, ℕ, length, None, Some, OnOk, OnErr, IfOk, IfErr};
ghost use Rattle.iq_history.specs.Placed.{IsPlacedRefusal};
ghost use Rattle.iq_pages.specs.PageCalls.{view};
ghost use Rattle.iq_ast.specs.declared.statements.Write.TheVariants as writes;
ghost use Rattle.iq_base.specs.Cells.{width};
ghost use Rattle.iq_table.specs.Places.{part_at};
ghost use Rattle.iq_statements.specs.Checks.{first_refusal};
ghost use Rattle.iq_statements.specs.Named.{create_checks};
ghost use Rattle.iq_database.specs.Standing.{OfDescribed};
ghost use Rattle.iq_database.specs.LookUps.{place_from, before_from};
ghost use Rattle.iq_statements.specs.Effects.{count};
ghost use Rattle.iq_write.specs.Simple.{IsSimpleWrite, ArePlain};
ghost use Rattle.iq_write.specs.Effects.{HasEffect, HasWriteCause, KeepsOtherTables, changed_place, place_after, table_refusal, drop_checks, Creates, Removes};

use crate::rows::cells_of;
use iq_ast::Write;
use iq_base::{Column, ColumnPart, Descriptor, MOST_TABLES, Name, Refusal, Row, width};
use iq_database::{before, columns_of, copied, place_of};
use iq_pages::PageSink;
use iq_table::{Table, TableFault};
use std::alloc::Global;

/// What a write did: how many rows it put in, removed or changed, and the place in the new list of the table that it names, if that
/// is there.
#[derive(Clone, Copy, Debug, PartialEq, Eq)]
pub struct Written {
    pub rows: u32,
    pub place: Option<u32>,
}

/// Lets a write take effect on the tables of descriptors whose pages a sink tells, or answers what refuses it; then the descriptors are
/// as before, but pages of its table may be written. Objects behind a table that comes or goes have the numbers of one place further or
/// before afterwards.
pub fn write<S: PageSink>(
    alloc: Global,
    tables: &mut Vec<Descriptor>,
    write: &Write,
    sink: &mut S,
) -> Result<Written, Refusal>
    requires tables { ArePlain tables.old.items }
    requires simple { IsSimpleWrite write.now }
    ensures ok { OnOk result (HasEffect write.now tables.old.items tables.new.items (S.told sink.old) (S.told sink.new)) }
    ensures few { OnOk result (ArePlain tables.new.items) }
    ensures rows { IfOk result (λ written. OfDescribed tables.old.items (λ db. written.rows ≡ count write.now db)) }
    ensures place { IfOk result (λ written. written.place ≡ place_after write.now tables.old.items) }
    ensures unchanged { OnErr result (tables.new.items ≡ tables.old.items) }
    ensures others { KeepsOtherTables (changed_place write.now tables.old.items) (view S.PageSource sink.old) (view S.PageSource sink.new) }
    ensures later { S.faults sink.old ≤ S.faults sink.new }
    ensures placed { IfErr result (λ e. (n : ℕ) → IsPlacedRefusal n e) }
    ensures cause { IfErr result (HasWriteCause tables.old.items write.now (view S.PageSource sink.old) (view S.PageSource sink.new)) }
{
    match write {
        Write::CreateTable { name, schema } => {
            create(alloc, tables, name, schema.columns.as_slice())
        }
        Write::DropTable { name } => remove(tables, name),
        Write::Insert { table, rows } => insert(alloc, tables, table, rows.as_slice(), sink),
        Write::CreateIndex { .. }
        | Write::DropIndex { .. }
        | Write::Load { .. }
        | Write::Delete { .. }
        | Write::Update { .. } => unreachable!(),
    }
}

/// Puts a table without rows among the tables, in the order of names. It needs no page.
fn create(
    alloc: Global,
    tables: &mut Vec<Descriptor>,
    name: &Name,
    columns: &[Column],
) -> Result<Written, Refusal>
    requires tables { ArePlain tables.old.items }
    requires few { length columns.now ≤ 32 }
    ensures ok { OnOk result (Creates name.now columns.now tables.old.items tables.new.items) }
    ensures few { OnOk result (ArePlain tables.new.items) }
    ensures written { IfOk result (λ written. written ≡ record { rows = 0; place = Some (before_from 0 name.now tables.old.items) }) }
    ensures unchanged { OnErr result (tables.new.items ≡ tables.old.items) }
    ensures placed { IfErr result (λ e. (n : ℕ) → IsPlacedRefusal n e) }
    ensures cause { IfErr result (λ e. OfDescribed tables.old.items (λ db. first_refusal (create_checks name.now db) ≡ Some e) ⊎ (e ≡ Refusal.NoMemory)) }
{
    if place_of(tables.as_slice(), name).is_some() {
        return Err(Refusal::TableExists { name: name.again() });
    }
    if tables.as_slice().len() >= MOST_TABLES {
        return Err(Refusal::CatalogFull);
    }
    let place = before(tables.as_slice(), name);
    let table = Table::new(alloc, place as u32, name.again(), columns)?;
    cells_fit_pages(table.parts.columns.as_slice());
    tables.insert(place, table.parts)?;
    Ok(Written {
        rows: 0,
        place: Some(place as u32),
    })
}

/// Nothing: no cell is longer than a page, which each kind tells.
fn cells_fit_pages(parts: &[ColumnPart])
    ensures { (c : ℕ) → c < length parts.now → (2 ≤ width (part_at c parts.now).kind) × (width (part_at c parts.now).kind ≤ 257) }
{
    for part in parts {
        let _width = width(part.kind);
    }
}

/// Takes a table from among the tables. Its pages stay where they are.
fn remove(tables: &mut Vec<Descriptor>, name: &Name) -> Result<Written, Refusal>
    requires tables { ArePlain tables.old.items }
    ensures ok { OnOk result (Removes name.now tables.old.items tables.new.items) }
    ensures few { OnOk result (ArePlain tables.new.items) }
    ensures written { IfOk result (λ written. written ≡ record { rows = 0; place = None }) }
    ensures unchanged { OnErr result (tables.new.items ≡ tables.old.items) }
    ensures placed { IfErr result (λ e. (n : ℕ) → IsPlacedRefusal n e) }
    ensures cause { IfErr result (λ e. OfDescribed tables.old.items (λ db. first_refusal (drop_checks name.now db) ≡ Some e)) }
{
    let Some(place) = place_of(tables.as_slice(), name) else {
        return Err(Refusal::NoTable { name: name.again() });
    };
    tables.remove(place);
    Ok(Written {
        rows: 0,
        place: None,
    })
}

/// Puts rows behind those of a table.
fn insert<S: PageSink>(
    alloc: Global,
    tables: &mut Vec<Descriptor>,
    name: &Name,
    rows: &[Row],
    sink: &mut S,
) -> Result<Written, Refusal>
    requires tables { ArePlain tables.old.items }
    requires few { length rows.now ≤ 16777216 }
    ensures ok { OnOk result (HasEffect (writes.Insert name.now rows.now) tables.old.items tables.new.items (S.told sink.old) (S.told sink.new)) }
    ensures few { OnOk result (ArePlain tables.new.items) }
    ensures written { IfOk result (λ written. written ≡ record { rows = length rows.now; place = place_from 0 name.now tables.old.items }) }
    ensures unchanged { OnErr result (tables.new.items ≡ tables.old.items) }
    ensures others { KeepsOtherTables (place_from 0 name.now tables.old.items) (view S.PageSource sink.old) (view S.PageSource sink.new) }
    ensures later { S.faults sink.old ≤ S.faults sink.new }
    ensures placed { IfErr result (λ e. (n : ℕ) → IsPlacedRefusal n e) }
    ensures cause { IfErr result (HasWriteCause tables.old.items (writes.Insert name.now rows.now) (view S.PageSource sink.old) (view S.PageSource sink.new)) }
{
    let Some(place) = place_of(tables.as_slice(), name) else {
        return Err(Refusal::NoTable { name: name.again() });
    };
    let before = &tables[place];
    let columns = columns_of(alloc, before)?;
    let cells = cells_of(alloc, columns.as_slice(), rows)?;
    let mut table = Table {
        place: place as u32,
        parts: copied(alloc, before)?,
    };
    match table.append_rows(alloc, sink, &cells) {
        Err(fault) => Err(refusal_of(fault)),
        Ok(()) => {
            tables[place] = table.parts;
            Ok(Written {
                rows: rows.len() as u32,
                place: Some(place as u32),
            })
        }
    }
}

/// A fault of a table as a line is refused.
fn refusal_of(fault: TableFault) -> Refusal
    ensures is { result ≡ table_refusal fault }
    ensures placed { (n : ℕ) → IsPlacedRefusal n result }
{
    match fault {
        TableFault::Failed { before, after } => Refusal::StoreFault { before, after },
        TableFault::BadPage { object, page } => Refusal::BadPage { object, page },
        TableFault::NoMemory => Refusal::NoMemory,
        TableFault::TableFull { limit } => Refusal::TableFull { limit },
    }
}
