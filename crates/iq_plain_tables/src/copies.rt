//! The parts of tables once more.
ghost use Rattle.std.specs.Prelude.{◌≡◌, IfOk};

use crate::tables::PlainSlot;
use iq_base::{Column, IndexSpec, Listed, NoMemory, Row, Value};
use std::alloc::Global;

/// The same slots once more.
pub fn copied_slots(alloc: Global, slots: &[PlainSlot]) -> Result<Listed<PlainSlot>, NoMemory>
    ensures { IfOk result (λ copies. copies ≡ slots.now) }
{
    let mut copies = Listed::new(alloc);
    for slot in slots {
        copies.push(slot.copied(alloc)?)?;
    }
    Ok(copies)
}

/// The same columns once more.
pub fn copied_columns(alloc: Global, columns: &[Column]) -> Result<Listed<Column>, NoMemory>
    ensures { IfOk result (λ copies. copies ≡ columns.now) }
{
    let mut copies = Listed::new(alloc);
    for column in columns {
        copies.push(column.again())?;
    }
    Ok(copies)
}

/// The same indexes once more.
pub fn copied_indexes(alloc: Global, indexes: &[IndexSpec]) -> Result<Listed<IndexSpec>, NoMemory>
    ensures { IfOk result (λ copies. copies ≡ indexes.now) }
{
    let mut copies = Listed::new(alloc);
    for index in indexes {
        copies.push(index.again())?;
    }
    Ok(copies)
}

/// The same row once more.
pub fn copied_row(alloc: Global, row: &[Value]) -> Result<Row, NoMemory>
    ensures { IfOk result (λ copies. copies ≡ row.now) }
{
    let mut copies = Listed::new(alloc);
    for value in row {
        copies.push(value.again())?;
    }
    Ok(copies)
}
