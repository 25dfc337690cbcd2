//! What a store keeps of one table: its columns, its indexes, and the objects of pages in which they lie.
ghost use Rattle.std.specs.Prelude.{◌≡◌};

use crate::lists::Listed;
use crate::refs::Ref;
use crate::schemas::{Column, IndexKind};
use crate::texts::Name;
use crate::values::Kind;

/// An index of a table: its name, its kind, and its column by its place from 0; Compare has a second column.
#[derive(Clone, Debug, PartialEq, Eq, Drop)]
pub struct IndexSpec {
    pub name: Name,
    pub kind: IndexKind,
    pub column: u8,
    pub second: Option<u8>,
}

impl IndexSpec {
    /// The same index once more, without memory.
    pub fn again(&self) -> IndexSpec
        ensures { result ≡ self.now }
    {
        IndexSpec {
            name: self.name.again(),
            kind: self.kind,
            column: self.column,
            second: self.second,
        }
    }
}

/// A column as it is stored. Its distinct values, NULL and those of removed rows among them, stand once in `values`, in order of
/// first appearance, and `cells` has for each slot the place of its value there, a code of `form` bytes (1 to 3).
#[derive(Clone, Debug, PartialEq, Eq, Drop)]
pub struct ColumnPart {
    pub name: Name,
    pub kind: Kind,
    pub null: bool,
    pub form: u8,
    pub distinct: u32,
    pub cells: Ref,
    pub values: Ref,
}

impl ColumnPart {
    /// The same column once more, without memory.
    pub fn again(&self) -> ColumnPart
        ensures { result ≡ self.now }
    {
        ColumnPart {
            name: self.name.again(),
            kind: self.kind,
            null: self.null,
            form: self.form,
            distinct: self.distinct,
            cells: self.cells,
            values: self.values,
        }
    }

    /// The column as statements know it.
    pub fn column(&self) -> Column
        ensures name { result.name ≡ self.now.name }
        ensures kind { result.kind ≡ self.now.kind }
        ensures null { result.null ≡ self.now.null }
    {
        Column {
            name: self.name.again(),
            kind: self.kind,
            null: self.null,
        }
    }
}

/// An index as it is stored: how many distinct values Low Fast has (0 for the other kinds), and its three objects, of which a
/// kind that needs fewer leaves the later ones empty.
#[derive(Clone, Debug, PartialEq, Eq, Drop)]
pub struct IndexPart {
    pub spec: IndexSpec,
    pub distinct: u32,
    pub first: Ref,
    pub second: Ref,
    pub third: Ref,
}

impl IndexPart {
    /// The same index once more, without memory.
    pub fn again(&self) -> IndexPart
        ensures { result ≡ self.now }
    {
        IndexPart {
            spec: self.spec.again(),
            distinct: self.distinct,
            first: self.first,
            second: self.second,
            third: self.third,
        }
    }
}

/// A table as it is stored: its name, how many slots it has (rows are numbered by slots, and a removed row keeps its own), the
/// bitmap of the slots whose rows are there, its columns, and its indexes in order of creation.
#[derive(Debug, Drop)]
pub struct Descriptor {
    pub name: Name,
    pub slots: u32,
    pub existence: Ref,
    pub columns: Listed<ColumnPart>,
    pub indexes: Listed<IndexPart>,
}
