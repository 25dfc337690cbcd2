//! The rows of a table on which a condition is true: removed, changed and counted.
ghost use Rattle.std.specs.Prelude.{◌≡◌, ◌<◌, ◌^◌, Some, map, length, IfOk};
ghost use Rattle.std.specs.Option.{option_copied};
ghost use Rattle.iq_statements.specs.Rows.{kept_rows};
ghost use Rattle.iq_statements.specs.Effects.{count_true, true_rows, without_row, without_rows, put_at, changed_row, changed_rows, with_changes};
ghost use Rattle.iq_plain_tables.specs.Plain.{rows_in};

use crate::conditions::{column_place, keeps};
use crate::copies::copied_row;
use crate::tables::{PlainSlot, PlainTable};
use iq_ast::{Change, Cond};
use iq_base::{Column, Listed, NoMemory, Row, Value};
use std::alloc::Global;

/// A table without the rows on which a condition is true.
pub fn without_rows(
    alloc: Global,
    cond: &Option<Cond>,
    table: &PlainTable,
) -> Result<PlainTable, NoMemory>
    ensures { IfOk result (λ left. left ≡ without_rows cond.now table.now) }
{
    let slots = left_slots(alloc, table.columns(), cond, table.slots())?;
    table.with_slots(alloc, slots)
}

fn left_slots(
    alloc: Global,
    columns: &[Column],
    cond: &Option<Cond>,
    slots: &[PlainSlot],
) -> Result<Listed<PlainSlot>, NoMemory>
    ensures { IfOk result (λ left. left ≡ map (without_row columns.now cond.now) slots.now) }
{
    let mut left = Listed::new(alloc);
    for slot in slots {
        left.push(without_row(alloc, columns, cond, slot)?)?;
    }
    Ok(left)
}

/// A slot whose row is removed where the condition is true.
fn without_row(
    alloc: Global,
    columns: &[Column],
    cond: &Option<Cond>,
    slot: &PlainSlot,
) -> Result<PlainSlot, NoMemory>
    ensures { IfOk result (λ left. left ≡ without_row columns.now cond.now slot.now) }
{
    if keeps(columns, cond, slot.row()) {
        slot.removed(alloc)
    } else {
        slot.copied(alloc)
    }
}

/// The rows of a table on which a condition is true.
pub fn true_rows(
    alloc: Global,
    cond: &Option<Cond>,
    table: &PlainTable,
) -> Result<Listed<Row>, NoMemory>
    ensures { IfOk result (λ rows. rows ≡ true_rows cond.now table.now) }
{
    true_slots(alloc, table.columns(), cond, table.slots())
}

fn true_slots(
    alloc: Global,
    columns: &[Column],
    cond: &Option<Cond>,
    slots: &[PlainSlot],
) -> Result<Listed<Row>, NoMemory>
    ensures { IfOk result (λ rows. rows ≡ kept_rows columns.now cond.now (rows_in slots.now)) }
{
    let mut rows = Listed::new(alloc);
    for slot in slots {
        if slot.is_alive() {
            if keeps(columns, cond, slot.row()) {
                rows.push(copied_row(alloc, slot.row())?)?;
            }
        }
    }
    Ok(rows)
}

/// A table on which SET was done: each row on which the condition is true is removed, and its new form is put at the end.
pub fn with_changes(
    alloc: Global,
    changes: &[Change],
    cond: &Option<Cond>,
    table: &PlainTable,
) -> Result<PlainTable, NoMemory>
    ensures { IfOk result (λ after. after ≡ with_changes changes.now cond.now table.now) }
{
    let rows = changed_rows(alloc, changes, cond, table)?;
    without_rows(alloc, cond, table)?.with_rows(alloc, rows.as_slice())
}

/// The new forms of the rows on which the condition is true, in row order.
pub fn changed_rows(
    alloc: Global,
    changes: &[Change],
    cond: &Option<Cond>,
    table: &PlainTable,
) -> Result<Listed<Row>, NoMemory>
    ensures { IfOk result (λ rows. rows ≡ changed_rows changes.now cond.now table.now) }
{
    let rows = true_rows(alloc, cond, table)?;
    new_forms(alloc, table.columns(), changes, rows.as_slice())
}

fn new_forms(
    alloc: Global,
    columns: &[Column],
    changes: &[Change],
    rows: &[Row],
) -> Result<Listed<Row>, NoMemory>
    ensures { IfOk result (λ forms. forms ≡ map (changed_row columns.now changes.now) rows.now) }
{
    let mut forms = Listed::new(alloc);
    for row in rows {
        forms.push(changed_row(alloc, columns, changes, row.as_slice())?)?;
    }
    Ok(forms)
}

/// A row as SET changes it.
fn changed_row(
    alloc: Global,
    columns: &[Column],
    changes: &[Change],
    row: &[Value],
) -> Result<Row, NoMemory>
    ensures { IfOk result (λ form. form ≡ changed_row columns.now changes.now row.now) }
{
    let mut form = copied_row(alloc, row)?;
    for change in changes {
        form = put_at(column_place(columns, &change.column), &change.value, form);
    }
    Ok(form)
}

/// A row with one place put anew, where it has that place.
fn put_at(place: Option<usize>, value: &Value, row: Row) -> Row
    ensures { result ≡ put_at place value.now row }
{
    match place {
        None => row,
        Some(place) => put_in_row(place, value, row),
    }
}

#[tactic(auto, using(crate::proofs::Putting::put_at_set, crate::proofs::Putting::put_at_past))]
fn put_in_row(place: usize, value: &Value, row: Row) -> Row
    ensures { result ≡ put_at (Some place) value.now row }
{
    if row.len() <= place {
        return row;
    }
    let mut values = row.into_vec();
    values[place] = value.again();
    Listed::from_vec(values)
}

/// How many rows of a table a condition is true on.
pub fn count_true(cond: &Option<Cond>, table: Option<&PlainTable>) -> u32
    ensures { result ≡ count_true cond.now (option_copied table.entry) }
{
    match table {
        None => 0,
        Some(table) => count_slots(table.columns(), cond, table.slots()),
    }
}

fn count_slots(columns: &[Column], cond: &Option<Cond>, slots: &[PlainSlot]) -> u32
    requires { length slots.now < 2 ^ 32 }
    ensures { result ≡ length (kept_rows columns.now cond.now (rows_in slots.now)) }
{
    let mut count = 0;
    for slot in slots {
        if slot.is_alive() {
            if keeps(columns, cond, slot.row()) {
                count += 1;
            }
        }
    }
    count
}
