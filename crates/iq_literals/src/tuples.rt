//! A list of rows.
ghost use Rattle.std.specs.Prelude.{◌≡◌, [], ◌∷◌, ◌++◌, ◌↔◌, length, IsTrue, IfOk, OnOk, OnErr, MatchOption};

use crate::packing::{count_in, put_row, size_in};
use crate::values::{ValueCursor, Values};
use iq_base::{Listed, NoMemory, Row};
use std::alloc::Global;
use std::fmt;
use std::marker::Model;
use std::snapshot::Snapshot;

/// Rows in order, each value in as few bytes as it needs.
#[derive(Drop)]
pub struct Tuples {
    bytes: Vec<u8>,
    // What contracts see. It takes no bytes.
    rows: Vec<Snapshot<Values>>,
}

impl Model for Tuples {
    ghost use Rattle.std.specs.Prelude.{List, map};
    ghost use Rattle.iq_base.specs.declared.values.Value.{Value as TheValue};
    ghost use Rattle.iq_literals.specs.Packed.{AreRowsPacked};

    ghost Value = { List (List TheValue) };

    ghost view = { λ t. map (λ s. s.value) t.rows.items };

    ghost invariant = { λ t. AreRowsPacked (map (λ s. s.value) t.rows.items) t.bytes.items };
}

impl Tuples {
    /// A list without rows. It takes no memory.
    pub fn new(alloc: Global) -> Tuples
        ensures { result ≡ [] }
    {
        Tuples {
            bytes: Vec::new(alloc),
            rows: Vec::new(alloc),
        }
    }

    /// How many rows there are.
    pub fn len(&self) -> usize
        ensures { result ≡ length self.now }
    {
        self.rows.len()
    }

    /// Whether there is no row.
    pub fn is_empty(&self) -> bool
        ensures { IsTrue result ↔ (self.now ≡ []) }
    {
        self.rows.is_empty()
    }

    /// The rows from the first on, one after another.
    pub fn cursor(&self) -> RowCursor<'_>
        ensures { result ≡ self.now }
    {
        RowCursor {
            bytes: self.bytes.as_slice(),
            rows: self.rows.as_slice(),
        }
    }

    /// The same rows, each value in the memory of a `Value`.
    pub fn unpacked(&self, alloc: Global) -> Result<Listed<Row>, NoMemory>
        ensures { IfOk result (λ rows. rows ≡ self.now) }
    {
        let mut rest = self.cursor();
        let mut rows = Listed::new(alloc);
        'rows: while let Some(row) = rest.next() {
            rows.push(row.unpacked(alloc)?)?;
        }
        Ok(rows)
    }

    /// Puts a row at the end. The list is as before where memory is wanting.
    pub fn push(&mut self, row: &Values) -> Result<(), NoMemory>
        ensures ok { OnOk result (self.new ≡ self.old ++ row.now ∷ []) }
        ensures err { OnErr result (self.new ≡ self.old) }
    {
        self.rows.reserve(1)?;
        put_row(&mut self.bytes, row.bytes.as_slice())?;
        self.rows.push(Snapshot::of(row))?;
        Ok(())
    }
}

/// The rows from one place on, which are read one after another. It takes no memory.
#[derive(Drop)]
pub struct RowCursor<'a> {
    bytes: &'a [u8],
    // What contracts see. It takes no bytes.
    rows: &'a [Snapshot<Values>],
}

impl<'a> Model for RowCursor<'a> {
    ghost use Rattle.std.specs.Prelude.{List, map};
    ghost use Rattle.iq_base.specs.declared.values.Value.{Value as TheValue};
    ghost use Rattle.iq_literals.specs.Packed.{AreRowsPacked};

    ghost Value = { List (List TheValue) };

    ghost view = { λ c. map (λ s. s.value) c.rows.now };

    ghost invariant = { λ c. AreRowsPacked (map (λ s. s.value) c.rows.now) c.bytes.now };
}

impl<'a> RowCursor<'a> {
    /// The next row, if there is one.
    pub fn next(&mut self) -> Option<ValueCursor<'a>>
        ensures { MatchOption result (self.old ≡ []) (λ row. self.old ≡ row ∷ self.new) }
    {
        let (first, rest) = self.rows.split_first()?;
        let size = count_in(self.bytes);
        let (row, more) = self.bytes.split_at(size_in(self.bytes)).1.split_at(size);
        self.bytes = more;
        self.rows = rest;
        Some(ValueCursor {
            bytes: row,
            all: Snapshot::of(first),
            at: 0,
        })
    }
}

impl fmt::Debug for Tuples {
    fn fmt<W: fmt::Write>(&self, f: &mut fmt::Formatter<W>) -> fmt::Result {
        f.write_str("Listed { items: [")?;
        let mut rest = self.cursor();
        let mut between = "";
        'rows: while let Some(row) = rest.next() {
            f.write_str(between)?;
            row.print(f)?;
            between = ", ";
        }
        f.write_str("] }")
    }
}
