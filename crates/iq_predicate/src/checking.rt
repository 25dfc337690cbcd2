//! What refuses a test of a table: a name that is no column, or a column beside what is of another class.
ghost use Rattle.std.specs.Prelude.{◌≡◌, ℕ, IfSome, not};
ghost use Rattle.std.specs.List.{list_any};
ghost use Rattle.std.specs.Option.{option_map};
ghost use Rattle.iq_base.specs.declared.schemas.Column.{Column as TheColumn};
ghost use Rattle.iq_base.specs.declared.values.Value.{Value as TheValue};
ghost use Rattle.iq_history.specs.Placed.{IsPlacedRefusal};
ghost use Rattle.iq_conditions.specs.Conditions.{test_names};
ghost use Rattle.iq_statements.specs.Checks.{first_found, found_if};
ghost use Rattle.iq_statements.specs.Named.{no_column};
ghost use Rattle.iq_statements.specs.Fits.{column_named, is_text, is_of_class, test_mismatch};

use iq_ast::Test;
use iq_base::{Column, Kind, Name, Refusal, Value};
use iq_database::column_place;

/// The first column that a test names and that is none of these.
pub fn unnamed(columns: &[Column], test: &Test) -> Option<Refusal>
    ensures found { result ≡ first_found (no_column columns.now) (test_names test.now) }
    ensures placed { IfSome result (λ e. (n : ℕ) → IsPlacedRefusal n e) }
{
    match test {
        Test::Columns { left, right, .. } => match no_column(columns, left) {
            Some(refusal) => Some(refusal),
            None => no_column(columns, right),
        },
        Test::Compare { column, .. }
        | Test::Between { column, .. }
        | Test::OneOf { column, .. }
        | Test::Null { column, .. } => no_column(columns, column),
    }
}

/// The refusal of a test that sets numbers beside texts: it names the column, the left one of two.
pub fn unfit(columns: &[Column], test: &Test) -> Option<Refusal>
    ensures found { result ≡ test_mismatch columns.now test.now }
    ensures placed { IfSome result (λ e. (n : ℕ) → IsPlacedRefusal n e) }
{
    match test {
        Test::Compare { column, value, .. } => {
            let kind = kind_of(columns, column)?;
            refused(!is_of_class(kind, value), column)
        }
        Test::Columns { left, right, .. } => {
            let kind = kind_of(columns, left)?;
            let other = kind_of(columns, right)?;
            refused(is_text(kind) != is_text(other), left)
        }
        Test::Between {
            column,
            low,
            high,
            ..
        } => {
            let kind = kind_of(columns, column)?;
            refused(!(is_of_class(kind, low) && is_of_class(kind, high)), column)
        }
        Test::OneOf { column, values, .. } => {
            let kind = kind_of(columns, column)?;
            refused(has_other_class(kind, values.as_slice()), column)
        }
        Test::Null { .. } => None,
    }
}

/// The refusal of a column where it is beside another class.
fn refused(found: bool, column: &Name) -> Option<Refusal>
    ensures found { result ≡ found_if found (Refusal.TypeMismatch column.now) }
    ensures placed { IfSome result (λ e. (n : ℕ) → IsPlacedRefusal n e) }
{
    found.then_some(Refusal::TypeMismatch {
        column: column.again(),
    })
}

/// What the column of a name holds, if there is one.
fn kind_of(columns: &[Column], name: &Name) -> Option<Kind>
    ensures { result ≡ option_map (λ (c : TheColumn). c.kind) (column_named columns.now name.now) }
{
    let column = columns.iter().find(|column| column.name == *name)?;
    Some(column.kind)
}

/// Whether a column holds texts; else it holds numbers.
fn is_text(kind: Kind) -> bool
    ensures { result ≡ is_text kind }
{
    match kind {
        Kind::Int | Kind::Big => false,
        Kind::Varchar(_) => true,
    }
}

/// Whether a value may stand beside a column of the kind: NULL may beside each.
fn is_of_class(kind: Kind, value: &Value) -> bool
    ensures { result ≡ is_of_class kind value.now }
{
    match value {
        Value::Null => true,
        Value::Int(_) => !is_text(kind),
        Value::Text(_) => is_text(kind),
    }
}

fn has_other_class(kind: Kind, values: &[Value]) -> bool
    ensures { result ≡ list_any (λ (value : TheValue). not (is_of_class kind value)) values.now }
{
    values.iter().any(|value| !is_of_class(kind, value))
}

/// The refusal of a name that is no column.
fn no_column(columns: &[Column], name: &Name) -> Option<Refusal>
    ensures found { result ≡ no_column columns.now name.now }
    ensures placed { IfSome result (λ e. (n : ℕ) → IsPlacedRefusal n e) }
{
    match column_place(columns, name) {
        None => Some(Refusal::NoColumn { name: name.again() }),
        Some(_) => None,
    }
}
