//! Tables as plain lists of slots.
ghost use Rattle.std.specs.Prelude.{◌≡◌, ◌≤◌, ◌<◌, ◌^◌, ◌∷◌, ◌++◌, [], map, filter, not, length, Bool, IfOk, OnOk};
ghost use Rattle.std.specs.Option.{option_copied};
ghost use Rattle.iq_base.specs.declared.descriptors.IndexSpec.{IndexSpec};
ghost use Rattle.iq_conditions.specs.Servers.{same_name};
ghost use Rattle.iq_statements.specs.Tables.{Table, table_of, with_rows, with_index, without_index, has_index, has_low_fast, is_low_fast, empty_table, live_slot};
ghost use Rattle.iq_plain_tables.specs.Plain.{rows_in};

use crate::copies::{copied_columns, copied_indexes, copied_row, copied_slots};
use iq_base::{Column, IndexKind, IndexSpec, Listed, Name, NoMemory, Row, Value};
use std::alloc::Global;
use std::marker::Model;

/// A table has fewer slots and fewer indexes than this, so that 32 bits number them. More would need more memory than there is.
const NUMBERED: usize = 4_294_967_296;

/// A row that was put into a table, and whether it is still there.
#[derive(Debug, Drop)]
pub struct PlainSlot {
    row: Row,
    alive: bool,
}

impl Model for PlainSlot {
    ghost use Rattle.iq_statements.specs.Tables.{Slot};

    ghost Value = { Slot };

    ghost view = { λ it. record { row = it.row; alive = it.alive } };
}

/// A table: its columns, its indexes in order of creation, and each row that was put into it, in order. 8 bits number its columns,
/// and 32 its indexes and its slots.
#[derive(Debug, Drop)]
pub struct PlainTable {
    name: Name,
    columns: Listed<Column>,
    indexes: Listed<IndexSpec>,
    slots: Listed<PlainSlot>,
}

impl Model for PlainTable {
    ghost use Rattle.std.specs.Prelude.{◌≤◌, ◌<◌, ◌^◌, length};
    ghost use Rattle.iq_statements.specs.Tables.{Table};

    ghost Value = { Table };

    ghost view = { λ it. record { name = it.name; columns = it.columns; indexes = it.indexes; slots = it.slots } };

    ghost invariant = { λ it. (length it.columns ≤ 256) × (length it.indexes < 2 ^ 32) × (length it.slots < 2 ^ 32) };
}

/// Tables with ascending names.
pub type PlainTables = Listed<PlainTable>;

impl PlainSlot {
    /// A row, and whether it is still there.
    pub fn of(row: Row, alive: bool) -> PlainSlot
        ensures { result ≡ record { row = row; alive = alive } }
    {
        PlainSlot { row, alive }
    }

    /// A row that is there.
    pub fn live(row: Row) -> PlainSlot
        ensures { result ≡ live_slot row }
    {
        PlainSlot { row, alive: true }
    }

    /// The row.
    pub fn row(&self) -> &[Value]
        ensures { result.now ≡ self.now.row }
    {
        self.row.as_slice()
    }

    /// Whether the row is still there.
    pub fn is_alive(&self) -> bool
        ensures { result ≡ self.now.alive }
    {
        self.alive
    }

    /// The same slot once more.
    pub fn copied(&self, alloc: Global) -> Result<PlainSlot, NoMemory>
        ensures { IfOk result (λ copy. copy ≡ self.now) }
    {
        Ok(PlainSlot {
            row: copied_row(alloc, self.row.as_slice())?,
            alive: self.alive,
        })
    }

    /// The slot without its row.
    pub fn removed(&self, alloc: Global) -> Result<PlainSlot, NoMemory>
        ensures { IfOk result (λ slot. slot ≡ record self.now { alive = Bool.false }) }
    {
        Ok(PlainSlot {
            row: copied_row(alloc, self.row.as_slice())?,
            alive: false,
        })
    }
}

impl PlainTable {
    /// A table of these parts.
    pub fn of(
        name: Name,
        columns: Listed<Column>,
        indexes: Listed<IndexSpec>,
        slots: Listed<PlainSlot>,
    ) -> PlainTable
        requires columns { length columns ≤ 256 }
        requires indexes { length indexes < 2 ^ 32 }
        requires slots { length slots < 2 ^ 32 }
        ensures { result ≡ record { name = name; columns = columns; indexes = indexes; slots = slots } }
    {
        PlainTable {
            name,
            columns,
            indexes,
            slots,
        }
    }

    /// A table of these columns without rows and indexes.
    pub fn empty(alloc: Global, name: &Name, columns: &[Column]) -> Result<PlainTable, NoMemory>
        requires { length columns.now ≤ 256 }
        ensures { IfOk result (λ table. table ≡ empty_table name.now columns.now) }
    {
        Ok(PlainTable {
            name: name.again(),
            columns: copied_columns(alloc, columns)?,
            indexes: Listed::new(alloc),
            slots: Listed::new(alloc),
        })
    }

    /// The name.
    pub fn name(&self) -> &Name
        ensures { result.now ≡ self.now.name }
    {
        &self.name
    }

    /// The columns in order.
    pub fn columns(&self) -> &[Column]
        ensures value { result.now ≡ self.now.columns }
        ensures few { length result.now ≤ 256 }
    {
        self.columns.as_slice()
    }

    /// The indexes in order of creation.
    pub fn indexes(&self) -> &[IndexSpec]
        ensures value { result.now ≡ self.now.indexes }
        ensures few { length result.now < 2 ^ 32 }
    {
        self.indexes.as_slice()
    }

    /// The slots by row id.
    pub fn slots(&self) -> &[PlainSlot]
        ensures value { result.now ≡ self.now.slots }
        ensures few { length result.now < 2 ^ 32 }
    {
        self.slots.as_slice()
    }

    /// The same table once more.
    pub fn copied(&self, alloc: Global) -> Result<PlainTable, NoMemory>
        ensures { IfOk result (λ copy. copy ≡ self.now) }
    {
        Ok(PlainTable {
            name: self.name.again(),
            columns: copied_columns(alloc, self.columns.as_slice())?,
            indexes: copied_indexes(alloc, self.indexes.as_slice())?,
            slots: copied_slots(alloc, self.slots.as_slice())?,
        })
    }

    /// The table with these slots in place of its own.
    pub fn with_slots(
        &self,
        alloc: Global,
        slots: Listed<PlainSlot>,
    ) -> Result<PlainTable, NoMemory>
        ensures { IfOk result (λ table. table ≡ record self.now { slots = slots }) }
    {
        if slots.len() >= NUMBERED {
            return Err(NoMemory);
        }
        Ok(PlainTable {
            name: self.name.again(),
            columns: copied_columns(alloc, self.columns.as_slice())?,
            indexes: copied_indexes(alloc, self.indexes.as_slice())?,
            slots,
        })
    }

    /// The table with copies of these rows at its end.
    pub fn with_rows(&self, alloc: Global, rows: &[Row]) -> Result<PlainTable, NoMemory>
        ensures { IfOk result (λ table. table ≡ with_rows rows.now self.now) }
    {
        let mut slots = copied_slots(alloc, self.slots.as_slice())?;
        push_rows(alloc, &mut slots, rows)?;
        self.with_slots(alloc, slots)
    }

    /// The table with these indexes in place of its own.
    fn with_indexes(
        &self,
        alloc: Global,
        indexes: Listed<IndexSpec>,
    ) -> Result<PlainTable, NoMemory>
        ensures { IfOk result (λ table. table ≡ record self.now { indexes = indexes }) }
    {
        if indexes.len() >= NUMBERED {
            return Err(NoMemory);
        }
        Ok(PlainTable {
            name: self.name.again(),
            columns: copied_columns(alloc, self.columns.as_slice())?,
            indexes,
            slots: copied_slots(alloc, self.slots.as_slice())?,
        })
    }

    /// The table with an index more.
    pub fn with_index(&self, alloc: Global, index: IndexSpec) -> Result<PlainTable, NoMemory>
        ensures { IfOk result (λ table. table ≡ with_index index self.now) }
    {
        let mut indexes = copied_indexes(alloc, self.indexes.as_slice())?;
        indexes.push(index)?;
        self.with_indexes(alloc, indexes)
    }

    /// The table without the index of a name.
    pub fn without_index(&self, alloc: Global, name: &Name) -> Result<PlainTable, NoMemory>
        ensures { IfOk result (λ table. table ≡ without_index name.now self.now) }
    {
        let indexes = other_indexes(alloc, name, self.indexes.as_slice())?;
        self.with_indexes(alloc, indexes)
    }

    /// Whether it has an index of this name.
    pub fn has_index(&self, name: &Name) -> bool
        ensures { result ≡ has_index name.now self.now }
    {
        self.indexes
            .as_slice()
            .iter()
            .any(|index| index.name == *name)
    }

    /// Whether it has a Low Fast index.
    pub fn has_low_fast(&self) -> bool
        ensures { result ≡ has_low_fast self.now }
    {
        self.indexes
            .as_slice()
            .iter()
            .any(|index| is_low_fast(index.kind))
    }
}

/// Whether a kind of index is Low Fast.
pub fn is_low_fast(kind: IndexKind) -> bool
    ensures { result ≡ is_low_fast kind }
{
    match kind {
        IndexKind::Lf => true,
        IndexKind::Hg | IndexKind::Hng | IndexKind::Cmp => false,
    }
}

/// The indexes without the one of a name.
fn other_indexes(
    alloc: Global,
    name: &Name,
    indexes: &[IndexSpec],
) -> Result<Listed<IndexSpec>, NoMemory>
    ensures { IfOk result (λ kept. kept ≡ filter (λ (index : IndexSpec). not (same_name index.name name.now)) indexes.now) }
{
    let mut kept = Listed::new(alloc);
    for index in indexes {
        if index.name == *name {
            continue;
        }
        kept.push(index.again())?;
    }
    Ok(kept)
}

/// Puts live copies of rows at the end.
fn push_rows(alloc: Global, slots: &mut Listed<PlainSlot>, rows: &[Row]) -> Result<(), NoMemory>
    ensures { OnOk result (slots.new ≡ slots.old ++ map live_slot rows.now) }
{
    for row in rows {
        slots.push(PlainSlot::live(copied_row(alloc, row.as_slice())?))?;
    }
    Ok(())
}
