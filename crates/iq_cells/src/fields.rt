//! What is wrong with a field of a row: in a row first the number of values, and then one field after the other.
ghost use Rattle.std.specs.Prelude.{◌≡◌, ◌<◌, ◌^◌, length};
ghost use Rattle.iq_cells.specs.Fields.{fits_int, fits_big, number_cause, text_cause, null_cause, field_cause, first_bad_value, first_bad_field};

use iq_base::{Column, FieldCause, Kind, NoMemory, Value};

/// The first bad field of a row, counted from 1, and what is wrong with it; field 0 with `Count` for a wrong number of values.
#[derive(Clone, Copy, Debug, PartialEq, Eq)]
pub struct BadField {
    pub field: u32,
    pub cause: FieldCause,
}

/// Why a field isn't taken in.
#[derive(Clone, Copy, Debug, PartialEq, Eq)]
pub enum FieldFault {
    /// What is wrong with it.
    Bad(FieldCause),
    /// An allocation was refused.
    NoMemory,
}

impl From<NoMemory> for FieldFault {
    ghost use Rattle.std.specs.Prelude.{◌≡◌};
    ghost use Rattle.iq_cells.specs.declared.fields.FieldFault.TheVariants as faults;

    ghost from_gives = { λ _ e. e ≡ faults.NoMemory };

    fn from(_: NoMemory) -> FieldFault {
        FieldFault::NoMemory
    }
}

/// Why a row isn't taken in.
#[derive(Clone, Copy, Debug, PartialEq, Eq)]
pub enum RowFault {
    /// The first bad field.
    Bad(BadField),
    /// An allocation was refused.
    NoMemory,
}

impl From<NoMemory> for RowFault {
    ghost use Rattle.std.specs.Prelude.{◌≡◌};
    ghost use Rattle.iq_cells.specs.declared.fields.RowFault.TheVariants as faults;

    ghost from_gives = { λ _ e. e ≡ faults.NoMemory };

    fn from(_: NoMemory) -> RowFault {
        RowFault::NoMemory
    }
}

/// The first bad field of a row that is to be put into columns; none where each column may hold its value. It looks at each
/// value once.
pub fn first_bad_field(columns: &[Column], values: &[Value]) -> Option<BadField>
    requires { length columns.now < 2 ^ 32 }
    ensures { result ≡ first_bad_field columns.now values.now }
{
    if values.len() == columns.len() {
        first_bad_value(columns, values)
    } else {
        Some(BadField {
            field: 0,
            cause: FieldCause::Count,
        })
    }
}

/// What is wrong with a value in a column, if anything is.
pub fn field_cause(column: &Column, value: &Value) -> Option<FieldCause>
    ensures { result ≡ field_cause column.now value.now }
{
    match value {
        Value::Null => null_cause(column.null),
        Value::Int(number) => number_cause(column.kind, *number),
        Value::Text(text) => text_cause(column.kind, text.as_str().as_bytes()),
    }
}

/// What is wrong with NULL, which a column may hold or not.
pub fn null_cause(null: bool) -> Option<FieldCause>
    ensures { result ≡ null_cause null }
{
    if null {
        None
    } else {
        Some(FieldCause::NullRefused)
    }
}

/// What is wrong with a number in a column of the kind.
pub fn number_cause(kind: Kind, number: i64) -> Option<FieldCause>
    ensures { result ≡ number_cause kind number }
{
    match kind {
        Kind::Int => {
            if fits_int(number) {
                None
            } else {
                Some(FieldCause::Range)
            }
        }
        Kind::Big => {
            if fits_big(number) {
                None
            } else {
                Some(FieldCause::Range)
            }
        }
        Kind::Varchar(_) => Some(FieldCause::NotText),
    }
}

/// What is wrong with a text in a column of the kind, given its bytes.
pub fn text_cause(kind: Kind, text: &[u8]) -> Option<FieldCause>
    ensures { result ≡ text_cause kind text.now }
{
    match kind {
        Kind::Int | Kind::Big => Some(FieldCause::NotNumber),
        Kind::Varchar(most) => {
            if text.len() <= most as usize {
                None
            } else {
                Some(FieldCause::TextTooLong)
            }
        }
    }
}

/// The first bad value of a row.
fn first_bad_value(columns: &[Column], values: &[Value]) -> Option<BadField>
    requires { length columns.now < 2 ^ 32 }
    ensures { result ≡ first_bad_value 1 columns.now values.now }
{
    for (i, column) in columns.iter().enumerate() {
        let Some(value) = values.get(i) else {
            return None;
        };
        if let Some(cause) = field_cause(column, value) {
            return Some(BadField {
                field: i as u32 + 1,
                cause,
            });
        }
    }
    None
}

fn fits_int(number: i64) -> bool
    ensures { result ≡ fits_int number }
{
    -2_147_483_648 <= number && number <= 2_147_483_647
}

// Each number does: reading it is what tells its range.
fn fits_big(number: i64) -> bool
    ensures { result ≡ fits_big number }
{
    i64::MIN <= number && number <= i64::MAX
}
