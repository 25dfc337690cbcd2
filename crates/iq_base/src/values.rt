//! Values of cells, and the kinds of columns.
ghost use Rattle.std.specs.Prelude.{◌≡◌};

use crate::lists::Listed;
use crate::texts::Text;

/// What a cell of a table holds. NULL stands before all numbers, and those before all texts.
#[derive(Clone, Debug, PartialEq, Eq, PartialOrd, Ord, Hash, Drop)]
pub enum Value {
    Null,
    Int(i64),
    Text(Text),
}

impl Value {
    /// The same value once more, without memory.
    pub fn again(&self) -> Value
        ensures { result ≡ self.now }
    {
        match self {
            Value::Null => Value::Null,
            Value::Int(number) => Value::Int(*number),
            Value::Text(text) => Value::Text(text.again()),
        }
    }
}

/// What a column may hold beside NULL: numbers of 32 or of 64 bits with a sign, or texts up to a length in bytes.
#[derive(Clone, Copy, Debug, PartialEq, Eq, PartialOrd, Ord, Hash)]
pub enum Kind {
    Int,
    Big,
    Varchar(u8),
}

/// One value for each column of a table, in their order.
pub type Row = Listed<Value>;
