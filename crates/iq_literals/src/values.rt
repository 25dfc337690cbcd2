//! A list of values.
ghost use Rattle.std.specs.Prelude.{◌≡◌, [], ◌∷◌, ◌++◌, ◌<◌, ◌↔◌, length, IsTrue, IfOk, OnOk, OnErr, OnSome, MatchOption};

use crate::packing::{put_value, size_in, value_in};
use iq_base::{Listed, NoMemory, Value};
use std::alloc::Global;
use std::fmt;
use std::marker::Model;
use std::snapshot::Snapshot;

/// Values in order, each in as few bytes as it needs.
#[derive(Drop)]
pub struct Values {
    pub(crate) bytes: Vec<u8>,
    // What contracts see. It takes no bytes.
    pub(crate) values: Vec<Snapshot<Value>>,
}

impl Model for Values {
    ghost use Rattle.std.specs.Prelude.{List, map};
    ghost use Rattle.iq_base.specs.declared.values.Value.{Value as TheValue};
    ghost use Rattle.iq_literals.specs.Packed.{ArePacked};

    ghost Value = { List TheValue };

    ghost view = { λ v. map (λ s. s.value) v.values.items };

    ghost invariant = { λ v. ArePacked (map (λ s. s.value) v.values.items) v.bytes.items };
}

impl Values {
    /// A list without values. It takes no memory.
    pub fn new(alloc: Global) -> Values
        ensures { result ≡ [] }
    {
        Values {
            bytes: Vec::new(alloc),
            values: Vec::new(alloc),
        }
    }

    /// How many values there are.
    pub fn len(&self) -> usize
        ensures { result ≡ length self.now }
    {
        self.values.len()
    }

    /// Whether there is no value.
    pub fn is_empty(&self) -> bool
        ensures { IsTrue result ↔ (self.now ≡ []) }
    {
        self.values.is_empty()
    }

    /// The values from the first on, one after another.
    pub fn cursor(&self) -> ValueCursor<'_>
        ensures { result ≡ self.now }
    {
        ValueCursor {
            bytes: self.bytes.as_slice(),
            all: Snapshot::of(&Snapshot::of(self)),
            at: 0,
        }
    }

    /// The same values, each in the memory of a `Value`.
    pub fn unpacked(&self, alloc: Global) -> Result<Listed<Value>, NoMemory>
        ensures { IfOk result (λ values. values ≡ self.now) }
    {
        self.cursor().unpacked(alloc)
    }

    /// Puts a value at the end. The list is as before where memory is wanting.
    pub fn push(&mut self, value: &Value) -> Result<(), NoMemory>
        ensures ok { OnOk result (self.new ≡ self.old ++ value.now ∷ []) }
        ensures err { OnErr result (self.new ≡ self.old) }
    {
        self.values.reserve(1)?;
        put_value(&mut self.bytes, value)?;
        self.values.push(Snapshot::of(value))?;
        Ok(())
    }

    /// Takes all values away, and keeps the memory.
    pub fn clear(&mut self)
        ensures { self.new ≡ [] }
    {
        self.bytes.clear();
        self.values.clear();
    }
}

/// The values from one place on, which are read one after another. It takes no memory.
#[derive(Drop)]
pub struct ValueCursor<'a> {
    pub(crate) bytes: &'a [u8],
    // What contracts see. It takes no bytes.
    pub(crate) all: Snapshot<Snapshot<Values>>,
    pub(crate) at: usize,
}

impl<'a> Model for ValueCursor<'a> {
    ghost use Rattle.std.specs.Prelude.{List, ◌≤◌, ◌+◌, drop, length};
    ghost use Rattle.iq_base.specs.declared.values.Value.{Value as TheValue};
    ghost use Rattle.iq_literals.specs.Packed.{ArePacked};

    ghost Value = { List TheValue };

    ghost view = { λ c. drop c.at c.all.value.value };

    ghost invariant = { λ c. ArePacked (drop c.at c.all.value.value) c.bytes.now × (c.at + length c.bytes.now ≤ 9223372036854775807) };
}

impl<'a> ValueCursor<'a> {
    /// The next value, if there is one.
    pub fn next(&mut self) -> Option<Value>
        ensures { MatchOption result (self.old ≡ []) (λ value. self.old ≡ value ∷ self.new) }
    {
        if self.bytes.is_empty() {
            return None;
        }
        let value = value_in(self.bytes);
        self.bytes = self.bytes.split_at(size_in(self.bytes)).1;
        self.at += 1;
        Some(value)
    }

    /// Prints the values as a `Listed` prints its items.
    pub(crate) fn print<W: fmt::Write>(mut self, f: &mut fmt::Formatter<W>) -> fmt::Result {
        f.write_str("Listed { items: [")?;
        let mut between = "";
        'values: while let Some(value) = self.next() {
            f.write_str(between)?;
            fmt::Debug::fmt(&value, f)?;
            between = ", ";
        }
        f.write_str("] }")
    }

    /// The values, each in the memory of a `Value`.
    pub fn unpacked(mut self, alloc: Global) -> Result<Listed<Value>, NoMemory>
        ensures { IfOk result (λ values. values ≡ self.entry) }
    {
        let mut values = Listed::new(alloc);
        'values: while let Some(value) = self.next() {
            values.push(value)?;
        }
        Ok(values)
    }
}

impl fmt::Debug for Values {
    fn fmt<W: fmt::Write>(&self, f: &mut fmt::Formatter<W>) -> fmt::Result {
        self.cursor().print(f)
    }
}
