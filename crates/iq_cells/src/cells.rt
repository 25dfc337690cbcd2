//! The cells of one column, one behind the other.
ghost use Rattle.std.specs.Prelude.{◌≡◌, ◌↔◌, ◌<◌, ◌≤◌, [], ◌∷◌, ◌+◌, ◌^◌, length, IsTrue, IsUtf8, None, IfOk, OnOk, OnErr, IfErr};
ghost use Rattle.iq_base.specs.Cells.{IsOf, IsCell};
ghost use Rattle.iq_cells.specs.Packed.{with_more, first_values, value_at, values_in, per_page, AreCells, HoldsValues, KeepsCells};
ghost use Rattle.iq_cells.specs.Orders.{value_order};
ghost use Rattle.iq_cells.specs.Fields.{number_cause, text_cause, HasFieldCause, HasBytesCause};
ghost use Rattle.iq_cells.specs.Faults.{HasCellsCause};

use crate::fields::{FieldFault, number_cause, text_cause};
use crate::orders::{cell_order, cell_to_value, is_null_cell};
use crate::packed::{are_cells, cell_of, copy_cells, put_behind, put_text_behind};
use iq_base::{FieldCause, Kind, NoMemory, Page, Value, cell_get, width};
use std::alloc::{AllocError, Global};
use std::cmp::Ordering;
use std::marker::Model;

/// Why cells aren't taken in.
#[derive(Clone, Copy, Debug, PartialEq, Eq)]
pub enum CellsFault {
    /// The bytes of a cell are those of no value that a column of the kind may hold.
    BadCell,
    /// An allocation was refused.
    NoMemory,
}

/// Values of one kind, or NULL, as the bytes of their cells: 5 bytes a value for INT, 9 for BIGINT, and two more than the
/// greatest length for VARCHAR. Values are counted from 0.
#[derive(Debug, Drop)]
pub struct Cells {
    kind: Kind,
    bytes: Vec<u8>,
    count: usize,
}

impl Model for Cells {
    ghost use Rattle.iq_cells.specs.Packed.{Column, column_in, ArePacked};

    ghost Value = { Column };

    ghost view = { λ c. column_in c.kind c.bytes.items c.count };

    ghost invariant = { λ c. ArePacked c.kind c.bytes.items c.count };
}

impl Cells {
    /// No values of a kind. It takes no memory.
    #[tactic(auto, unfolding(crate::specs::Packed::values_in))]
    pub fn new(alloc: Global, kind: Kind) -> Cells
        ensures { result ≡ record { kind = kind; values = [] } }
    {
        Cells {
            kind,
            bytes: Vec::new(alloc),
            count: 0,
        }
    }

    /// No values of a kind, with memory for `count` of them.
    #[tactic(auto, unfolding(crate::specs::Packed::values_in))]
    pub fn with_room(alloc: Global, kind: Kind, count: usize) -> Result<Cells, NoMemory>
        requires { count < 2 ^ 32 }
        ensures { IfOk result (λ cells. cells ≡ record { kind = kind; values = [] }) }
    {
        Ok(Cells {
            kind,
            bytes: Vec::with_capacity(alloc, count * width(kind))?,
            count: 0,
        })
    }

    /// What the column may hold beside NULL.
    pub fn kind(&self) -> Kind
        ensures { result ≡ self.now.kind }
    {
        self.kind
    }

    /// How many values there are.
    pub fn len(&self) -> usize
        ensures { result ≡ length self.now.values }
    {
        self.count
    }

    /// Whether there is no value.
    pub fn is_empty(&self) -> bool
        ensures { IsTrue result ↔ (length self.now.values ≡ 0) }
    {
        self.len() == 0
    }

    /// The bytes of a value's cell, as a page holds them.
    pub fn cell(&self, i: usize) -> &[u8]
        requires { i < length self.now.values }
        ensures cell { IsCell self.now.kind (value_at i self.now.values) result.now }
    {
        cell_of(self.kind, &self.bytes, i)
    }

    /// A value. It takes no memory; a text of 255 bytes lies in the value itself.
    pub fn get(&self, i: usize) -> Value
        requires { i < length self.now.values }
        ensures { result ≡ value_at i self.now.values }
    {
        match cell_get(self.kind, self.cell(i)) {
            Ok(value) => value,
            Err(_) => unreachable!(),
        }
    }

    /// Whether a value is NULL, by the first byte of its cell.
    pub fn is_null(&self, i: usize) -> bool
        requires { i < length self.now.values }
        ensures { IsTrue result ↔ (value_at i self.now.values ≡ Value.Null) }
    {
        is_null_cell(self.kind(), self.cell(i))
    }

    /// Whether a value equals one of another column of the kind, which is where their bytes are equal.
    pub fn is_equal(&self, i: usize, other: &Cells, j: usize) -> bool
        requires kind { other.now.kind ≡ self.now.kind }
        requires this { i < length self.now.values }
        requires other { j < length other.now.values }
        ensures { IsTrue result ↔ (value_at i self.now.values ≡ value_at j other.now.values) }
    {
        self.cell(i) == other.cell(j)
    }

    /// How a value stands to one of another column, whatever the kinds, in the order of values: NULL before numbers, and those
    /// before texts; numbers by value, texts by their bytes. It makes no `Value`.
    pub fn compare(&self, i: usize, other: &Cells, j: usize) -> Ordering
        requires this { i < length self.now.values }
        requires other { j < length other.now.values }
        ensures { result ≡ value_order (value_at i self.now.values) (value_at j other.now.values) }
    {
        cell_order(self.kind(), self.cell(i), other.kind(), other.cell(j))
    }

    /// How a value of the column stands to a value, in the same order. It makes no `Value` of the cell.
    pub fn compare_to(&self, i: usize, value: &Value) -> Ordering
        requires { i < length self.now.values }
        ensures { result ≡ value_order (value_at i self.now.values) value.now }
    {
        cell_to_value(self.kind(), self.cell(i), value)
    }

    /// Puts a value at the end. The column is as before where memory is wanting.
    pub fn push(&mut self, value: &Value) -> Result<(), NoMemory>
        requires { IsOf self.old.kind value.now }
        ensures ok { OnOk result (self.new ≡ with_more self.old (value.now ∷ [])) }
        ensures err { OnErr result (self.new ≡ self.old) }
    {
        put_behind(&mut self.bytes, self.kind, value)?;
        self.count += 1;
        Ok(())
    }

    /// Puts NULL at the end. The column is as before where memory is wanting.
    pub fn push_null(&mut self) -> Result<(), NoMemory>
        ensures ok { OnOk result (self.new ≡ with_more self.old (Value.Null ∷ [])) }
        ensures err { OnErr result (self.new ≡ self.old) }
    {
        self.push(&Value::Null)
    }

    /// Puts a number at the end, or answers what is wrong with it: that the column is one of texts (`NotText`), or that the
    /// number is past its type (`Range`). At an error the column is as before.
    pub fn push_number(&mut self, number: i64) -> Result<(), FieldFault>
        ensures ok { OnOk result (self.new ≡ with_more self.old (Value.Int number ∷ [])) }
        ensures good { OnOk result (number_cause self.old.kind number ≡ None) }
        ensures err { OnErr result (self.new ≡ self.old) }
        ensures cause { IfErr result (HasFieldCause (number_cause self.old.kind number)) }
    {
        if let Some(cause) = number_cause(self.kind(), number) {
            return Err(FieldFault::Bad(cause));
        }
        self.push(&Value::Int(number))?;
        Ok(())
    }

    /// Puts the text of some bytes at the end, without a `Value` between, or answers what is wrong with them: that the column
    /// is one of numbers (`NotNumber`), that they are too many (`TextTooLong`), or that they aren't UTF-8 (`NotUtf8`), in this
    /// order. At an error the column is as before.
    pub fn push_text(&mut self, bytes: &[u8]) -> Result<(), FieldFault>
        ensures ok { OnOk result (self.new ≡ with_more self.old (Value.Text bytes.now ∷ [])) }
        ensures good { OnOk result (text_cause self.old.kind bytes.now ≡ None) }
        ensures utf8 { OnOk result (IsUtf8 bytes.now) }
        ensures err { OnErr result (self.new ≡ self.old) }
        ensures cause { IfErr result (HasBytesCause self.old.kind bytes.now) }
    {
        if let Some(cause) = text_cause(self.kind, bytes) {
            return Err(FieldFault::Bad(cause));
        }
        if str::from_utf8(bytes).is_err() {
            return Err(FieldFault::Bad(FieldCause::NotUtf8));
        }
        put_text_behind(&mut self.bytes, self.kind, bytes)?;
        self.count += 1;
        Ok(())
    }

    /// Puts a value of another column of the kind at the end, by its bytes. The column is as before where memory is wanting.
    pub fn push_from(&mut self, other: &Cells, i: usize) -> Result<(), NoMemory>
        requires kind { other.now.kind ≡ self.old.kind }
        requires there { i < length other.now.values }
        ensures ok { OnOk result (self.new ≡ with_more self.old (value_at i other.now.values ∷ [])) }
        ensures err { OnErr result (self.new ≡ self.old) }
    {
        self.bytes.extend_from_slice(other.cell(i))?;
        self.count += 1;
        Ok(())
    }

    /// Puts the values of the first `n` cells of a page at the end. The column is as before where one of these is no cell
    /// (`BadCell`), or where memory is wanting.
    pub fn extend_from_page(&mut self, page: &Page, n: usize) -> Result<(), CellsFault>
        requires { n ≤ per_page self.old.kind }
        ensures ok { OnOk result (self.new ≡ with_more self.old (values_in self.old.kind page.now n)) }
        ensures cells { OnOk result (AreCells self.old.kind page.now n) }
        ensures err { OnErr result (self.new ≡ self.old) }
        ensures cause { IfErr result (HasCellsCause self.old.kind page.now n) }
    {
        if !are_cells(self.kind, page, n) {
            return Err(CellsFault::BadCell);
        }
        self.bytes.extend_from_slice(&page[..n * width(self.kind)])?;
        self.count += n;
        Ok(())
    }

    /// Takes values off the end, so that the first `n` stay. It keeps the memory.
    pub fn truncate(&mut self, n: usize)
        requires { n ≤ length self.old.values }
        ensures { self.new ≡ first_values n self.old }
    {
        self.bytes.truncate(n * width(self.kind));
        self.count = n;
    }

    /// Writes the cells of `n` values, from value `from` on, into a page, from its cell `first` on. The cells before that one
    /// stay.
    pub fn put_in_page(&self, from: usize, n: usize, page: &mut Page, first: usize)
        requires there { from + n ≤ length self.now.values }
        requires fits { first + n ≤ per_page self.now.kind }
        ensures here { HoldsValues self.now.kind self.now.values from n page.new first }
        ensures before { KeepsCells self.now.kind first page.old page.new }
    {
        copy_cells(self.kind, &self.bytes, from, n, page, first);
    }
}

impl From<AllocError> for CellsFault {
    ghost use Rattle.std.specs.Prelude.{◌≡◌};
    ghost use Rattle.iq_cells.specs.declared.cells.CellsFault.TheVariants as faults;

    ghost from_gives = { λ _ e. e ≡ faults.NoMemory };

    fn from(_: AllocError) -> CellsFault {
        CellsFault::NoMemory
    }
}
