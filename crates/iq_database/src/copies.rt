//! Descriptors once more, and their columns as statements know them.
ghost use Rattle.std.specs.Prelude.{◌≡◌, IfOk};
ghost use Rattle.iq_table.specs.Limits.{as_columns};

use iq_base::{Column, ColumnPart, Descriptor, IndexPart, Listed, NoMemory};
use std::alloc::Global;

/// The same descriptor once more.
pub fn copied(alloc: Global, table: &Descriptor) -> Result<Descriptor, NoMemory>
    ensures { IfOk result (λ copy. copy ≡ table.now) }
{
    Ok(Descriptor {
        name: table.name.again(),
        slots: table.slots,
        existence: table.existence,
        columns: copied_columns(alloc, table.columns.as_slice())?,
        indexes: copied_indexes(alloc, table.indexes.as_slice())?,
    })
}

fn copied_columns(alloc: Global, columns: &[ColumnPart]) -> Result<Listed<ColumnPart>, NoMemory>
    ensures { IfOk result (λ copy. copy ≡ columns.now) }
{
    let mut copy = Listed::new(alloc);
    for column in columns {
        copy.push(column.again())?;
    }
    Ok(copy)
}

fn copied_indexes(alloc: Global, indexes: &[IndexPart]) -> Result<Listed<IndexPart>, NoMemory>
    ensures { IfOk result (λ copy. copy ≡ indexes.now) }
{
    let mut copy = Listed::new(alloc);
    for index in indexes {
        copy.push(index.again())?;
    }
    Ok(copy)
}

/// The columns of a table as statements know them.
pub fn columns_of(alloc: Global, table: &Descriptor) -> Result<Listed<Column>, NoMemory>
    ensures { IfOk result (λ columns. columns ≡ as_columns table.now.columns) }
{
    let mut columns = Listed::new(alloc);
    for part in table.columns.as_slice() {
        columns.push(part.column())?;
    }
    Ok(columns)
}
