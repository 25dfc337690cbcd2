//! Rows, kept as one column of cells for each place.
ghost use Rattle.std.specs.Prelude.{◌≡◌, ◌↔◌, ◌<◌, ◌^◌, ℕ, [], length, slice_index_or, IsTrue, IfOk, OnOk, OnErr, IfErr};
ghost use Rattle.iq_base.specs.declared.values.Kind.TheVariants.{Int};
ghost use Rattle.iq_cells.specs.Packed.{value_at};
ghost use Rattle.iq_cells.specs.Tables.{rows_in, row_at, column_of, AreLong};
ghost use Rattle.iq_cells.specs.Fields.{first_bad_field};
ghost use Rattle.iq_cells.specs.Growing.{kinds_of, with_row, HasRowCause};

use crate::cells::Cells;
use crate::fields::{RowFault, first_bad_field};
use crate::growing::{grow, no_values};
use iq_base::{Column, NoMemory, Value};
use std::alloc::Global;
use std::marker::Model;

/// Rows of one number of values each, as one column of cells for each place. Rows and columns are counted from 0.
#[derive(Debug, Drop)]
pub struct Rows {
    columns: Vec<Cells>,
    count: usize,
}

impl Model for Rows {
    ghost use Rattle.iq_cells.specs.Tables.{RowList, rows_in, AreLong};

    ghost Value = { RowList };

    ghost view = { λ r. rows_in r.columns.items r.count };

    ghost invariant = { λ r. AreLong r.columns.items r.count };
}

impl Rows {
    /// The rows of columns that have `count` values each. It takes no memory.
    pub fn of(columns: Vec<Cells>, count: usize) -> Rows
        requires { AreLong columns.items count }
        ensures { result ≡ rows_in columns.items count }
    {
        Rows { columns, count }
    }

    /// No rows of the columns of a table.
    pub fn empty(alloc: Global, columns: &[Column]) -> Result<Rows, NoMemory>
        ensures { IfOk result (λ rows. rows ≡ record { kinds = kinds_of columns.now; rows = [] }) }
    {
        Ok(Rows {
            columns: no_values(alloc, columns, 0)?,
            count: 0,
        })
    }

    /// No rows of the columns of a table, with memory for `count` of them.
    pub fn with_room(alloc: Global, columns: &[Column], count: usize) -> Result<Rows, NoMemory>
        requires { count < 2 ^ 32 }
        ensures { IfOk result (λ rows. rows ≡ record { kinds = kinds_of columns.now; rows = [] }) }
    {
        Ok(Rows {
            columns: no_values(alloc, columns, count)?,
            count: 0,
        })
    }

    /// How many rows there are.
    pub fn len(&self) -> usize
        ensures { result ≡ length self.now.rows }
    {
        self.count
    }

    /// Whether there is no row.
    pub fn is_empty(&self) -> bool
        ensures { IsTrue result ↔ (length self.now.rows ≡ 0) }
    {
        self.len() == 0
    }

    /// How many values each row has.
    pub fn width(&self) -> usize
        ensures kinds { result ≡ length self.now.kinds }
        ensures each { (r : ℕ) → r < length self.now.rows → length (row_at r self.now.rows) ≡ result }
    {
        self.columns.len()
    }

    /// The values of one column, of all rows in their order.
    pub fn column(&self, c: usize) -> &Cells
        requires { c < length self.now.kinds }
        ensures kind { result.now.kind ≡ slice_index_or self.now.kinds c Int }
        ensures values { result.now.values ≡ column_of c self.now.rows }
    {
        &self.columns[c]
    }

    /// The value of row `r` in column `c`. It takes no memory.
    pub fn get(&self, r: usize, c: usize) -> Value
        requires row { r < length self.now.rows }
        requires column { c < length self.now.kinds }
        ensures { result ≡ value_at c (row_at r self.now.rows) }
    {
        self.column(c).get(r)
    }
    /// Puts a row at the end, or answers its first bad field: a wrong number of values before all, then one field after the
    /// other. The columns are those of the table, which the rows are for. At an error the rows are as before.
    pub fn push_row(&mut self, columns: &[Column], values: &[Value]) -> Result<(), RowFault>
        requires kinds { kinds_of columns.now ≡ self.old.kinds }
        requires few_columns { length columns.now < 2 ^ 32 }
        requires few_rows { length self.old.rows < 2 ^ 32 }
        ensures ok { OnOk result (self.new ≡ with_row self.old values.now) }
        ensures good { OnOk result (first_bad_field columns.now values.now ≡ None) }
        ensures err { OnErr result (self.new ≡ self.old) }
        ensures cause { IfErr result (HasRowCause columns.now values.now) }
    {
        if let Some(bad) = first_bad_field(columns, values) {
            return Err(RowFault::Bad(bad));
        }
        grow(&mut self.columns, self.count, values)?;
        self.count += 1;
        Ok(())
    }
}
