//! Columns, schemas and kinds of indexes.
ghost use Rattle.std.specs.Prelude.{◌≡◌};

use crate::lists::Listed;
use crate::texts::Name;
use crate::values::Kind;

/// A column of a table: its name, what it holds, and whether NULL may stand in it.
#[derive(Clone, Debug, PartialEq, Eq, Drop)]
pub struct Column {
    pub name: Name,
    pub kind: Kind,
    pub null: bool,
}

impl Column {
    /// The same column once more, without memory.
    pub fn again(&self) -> Column
        ensures { result ≡ self.now }
    {
        Column {
            name: self.name.again(),
            kind: self.kind,
            null: self.null,
        }
    }
}

/// The columns of a table, in the order in which it was created with them.
#[derive(Debug, Drop)]
pub struct Schema {
    pub columns: Listed<Column>,
}

/// The kinds of indexes beside Fast Projection: Low Fast, High Group, High Non Group and Compare (Sybase IQ 15,
/// Performance and Tuning Guide).
#[derive(Clone, Copy, Debug, PartialEq, Eq)]
pub enum IndexKind {
    Lf,
    Hg,
    Hng,
    Cmp,
}
