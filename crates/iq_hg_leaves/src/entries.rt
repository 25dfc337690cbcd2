//! Entries and their order.
ghost use Rattle.std.specs.Prelude.{◌≡◌, ◌≢◌, ◌<◌, ◌^◌, ℕ, [], length, IfOk, OnOk};
ghost use Rattle.std.specs.List.{All};
ghost use Rattle.std.specs.Ordering.{ordering_then, nat_cmp};
ghost use Rattle.iq_cells.specs.Orders.{value_order};
ghost use Rattle.iq_cells.specs.Packed.{value_at};
ghost use Rattle.iq_base.specs.declared.values.Value.{Value};
ghost use Rattle.iq_base.specs.declared.values.Value.TheVariants as values;
ghost use Rattle.iq_hg_leaves.specs.Entries.{IsEntry, entry_at, with_entry};
ghost use Rattle.iq_hg_leaves.specs.Order.{entry_cmp};

use iq_base::{Kind, NoMemory, Value};
use iq_cells::Cells;
use std::alloc::Global;
use std::cmp::Ordering;
use std::marker::Model;

/// A value and a row that has it. Entries are in order of value, then of row.
#[derive(Debug, PartialEq, Eq, PartialOrd, Ord, Drop)]
pub struct Entry {
    pub value: Value,
    pub row: u32,
}

impl Entry {
    /// The same entry once more, without memory.
    pub fn again(&self) -> Entry
        ensures { result ≡ self.now }
    {
        Entry {
            value: self.value.again(),
            row: self.row,
        }
    }
}

/// Entries of a column, the cells of their values and their rows apart: 9 bytes an entry for INT.
#[derive(Debug, Drop)]
pub struct Entries {
    cells: Cells,
    rows: Vec<u32>,
}

impl Model for Entries {
    ghost use Rattle.iq_hg_leaves.specs.Entries.{EntryList, entries_in, AreJoined};

    ghost Value = { EntryList };

    ghost view = { λ e. entries_in e.cells e.rows.items };

    ghost invariant = { λ e. AreJoined e.cells e.rows.items };
}

impl Entries {
    /// No entries of a column of the kind, with memory for `count` of them.
    pub fn with_room(alloc: Global, kind: Kind, count: usize) -> Result<Entries, NoMemory>
        requires { count < 2 ^ 32 }
        ensures { IfOk result (λ list. list ≡ record { kind = kind; entries = [] }) }
    {
        Ok(Entries {
            cells: Cells::with_room(alloc, kind, count)?,
            rows: Vec::with_capacity(alloc, count)?,
        })
    }

    /// The kind of the column.
    pub fn kind(&self) -> Kind
        ensures { result ≡ self.now.kind }
    {
        self.cells.kind()
    }

    /// How many entries there are.
    #[tactic(auto, using(crate::proofs::Joined::list_long, crate::proofs::Joined::list_values))]
    pub fn len(&self) -> usize
        ensures count { result ≡ length self.now.entries }
        ensures each { All (IsEntry self.now.kind) self.now.entries }
    {
        self.rows.len()
    }

    /// An entry. It takes no memory.
    #[tactic(auto, using(crate::proofs::Joined::list_long, crate::proofs::Joined::list_values))]
    pub fn get(&self, i: usize) -> Entry
        requires { i < length self.now.entries }
        ensures { result ≡ entry_at i self.now.entries }
    {
        Entry {
            value: self.cells.get(i),
            row: self.rows[i],
        }
    }

    /// The row of an entry.
    #[tactic(auto, using(crate::proofs::Joined::list_long, crate::proofs::Joined::list_values))]
    pub fn row(&self, i: usize) -> u32
        requires { i < length self.now.entries }
        ensures { result ≡ (entry_at i self.now.entries).row }
    {
        self.rows[i]
    }

    /// The values of the entries, as a column.
    pub fn cells(&self) -> &Cells
        ensures kind { result.now.kind ≡ self.now.kind }
        ensures long { length result.now.values ≡ length self.now.entries }
        ensures each { (i : ℕ) → i < length self.now.entries → value_at i result.now.values ≡ (entry_at i self.now.entries).value }
    {
        &self.cells
    }

    /// How an entry stands to one of other entries.
    #[tactic(auto, using(crate::proofs::Joined::list_long, crate::proofs::Joined::list_values))]
    pub fn compare(&self, i: usize, other: &Entries, j: usize) -> Ordering
        requires this { i < length self.now.entries }
        requires other { j < length other.now.entries }
        ensures { result ≡ entry_cmp (entry_at i self.now.entries) (entry_at j other.now.entries) }
    {
        let order = self.cells.compare(i, &other.cells, j);
        let row = self.rows[i];
        let other_row = other.rows[j];
        rows_then(order, row, other_row)
    }

    /// How an entry stands to another. It makes no `Value` of the cell.
    #[tactic(auto, using(crate::proofs::Joined::list_long, crate::proofs::Joined::list_values))]
    pub fn compare_to(&self, i: usize, entry: &Entry) -> Ordering
        requires { i < length self.now.entries }
        ensures { result ≡ entry_cmp (entry_at i self.now.entries) entry.now }
    {
        let order = self.cells.compare_to(i, &entry.value);
        let row = self.rows[i];
        rows_then(order, row, entry.row)
    }

    /// Puts an entry at the end.
    pub fn push(&mut self, entry: &Entry) -> Result<(), NoMemory>
        requires { IsEntry self.old.kind entry.now }
        ensures { OnOk result (self.new ≡ with_entry self.old entry.now) }
    {
        let n = self.rows.len();
        self.rows.push(entry.row)?;
        match self.cells.push(&entry.value) {
            Ok(()) => Ok(()),
            Err(fault) => {
                self.rows.truncate(n);
                Err(fault)
            }
        }
    }

    /// Puts an entry of other entries of the kind at the end, by its bytes.
    #[tactic(auto, using(crate::proofs::Joined::list_long, crate::proofs::Joined::list_values))]
    pub fn push_from(&mut self, other: &Entries, i: usize) -> Result<(), NoMemory>
        requires kind { other.now.kind ≡ self.old.kind }
        requires there { i < length other.now.entries }
        ensures { OnOk result (self.new ≡ with_entry self.old (entry_at i other.now.entries)) }
    {
        self.push_cell(&other.cells, i, other.rows[i])
    }

    /// Puts a value of a column of the kind at the end, which isn't NULL, with its row.
    pub fn push_cell(&mut self, cells: &Cells, i: usize, row: u32) -> Result<(), NoMemory>
        requires kind { cells.now.kind ≡ self.old.kind }
        requires there { i < length cells.now.values }
        requires filled { value_at i cells.now.values ≢ values.Null }
        ensures { OnOk result (self.new ≡ with_entry self.old (record { value = value_at i cells.now.values; row = row })) }
    {
        let _cell = cells.cell(i);
        let n = self.rows.len();
        self.rows.push(row)?;
        match self.cells.push_from(cells, i) {
            Ok(()) => Ok(()),
            Err(fault) => {
                self.rows.truncate(n);
                Err(fault)
            }
        }
    }
}

/// How two values stand to each other, and where they are equal, how their rows do.
pub(crate) fn rows_then(order: Ordering, a: u32, b: u32) -> Ordering
    ensures { result ≡ ordering_then order (nat_cmp a b) }
{
    match order {
        Ordering::Less => Ordering::Less,
        Ordering::Equal => a.cmp(&b),
        Ordering::Greater => Ordering::Greater,
    }
}
