//! Rows of an INSERT.
ghost use Rattle.std.specs.Prelude.{◌≡◌, ◌<◌, ◌≤◌, ◌^◌, ◌⊎◌, ℕ, length, None, Some, IfOk, OnOk, IfErr, IfSome};
ghost use Rattle.iq_history.specs.Placed.{IsPlacedRefusal};
ghost use Rattle.iq_cells.specs.Growing.{kinds_of};
ghost use Rattle.iq_statements.specs.Named.{bad_row, first_bad_row};

use iq_base::{Column, Refusal, Row, Value};
use iq_cells::{BadField, RowFault, Rows, first_bad_field};
use std::alloc::Global;

/// The refusal of the first bad row, rows and fields counted from 1; none where each row fits the columns. A row with a wrong
/// number of fields is named with field 0.
pub(crate) fn first_bad_row(columns: &[Column], rows: &[Row]) -> Option<Refusal>
    requires few_columns { length columns.now < 2 ^ 32 }
    requires few_rows { length rows.now < 2 ^ 32 }
    ensures found { result ≡ first_bad_row 1 columns.now rows.now }
    ensures placed { IfSome result (λ e. (n : ℕ) → IsPlacedRefusal n e) }
{
    for (i, row) in rows.iter().enumerate() {
        if let Some(bad) = first_bad_field(columns, row.as_slice()) {
            return Some(bad_row(i as u32 + 1, bad));
        }
    }
    None
}

/// The refusal of a row for its first bad field.
fn bad_row(row: u32, bad: BadField) -> Refusal
    ensures is { Some result ≡ bad_row row (Some bad) }
    ensures placed { (n : ℕ) → IsPlacedRefusal n result }
{
    Refusal::BadRow {
        row,
        field: bad.field,
        cause: bad.cause,
    }
}

/// Rows as cells, or the refusal of the first bad one.
pub(crate) fn cells_of(alloc: Global, columns: &[Column], rows: &[Row]) -> Result<Rows, Refusal>
    requires few_columns { length columns.now < 2 ^ 32 }
    requires few_rows { length rows.now ≤ 16777216 }
    ensures cells { IfOk result (λ cells. cells ≡ record { kinds = kinds_of columns.now; rows = rows.now }) }
    ensures granted { OnOk result (first_bad_row 1 columns.now rows.now ≡ None) }
    ensures placed { IfErr result (λ e. (n : ℕ) → IsPlacedRefusal n e) }
    ensures cause { IfErr result (λ e. (e ≡ Refusal.NoMemory) ⊎ (first_bad_row 1 columns.now rows.now ≡ Some e)) }
{
    let mut cells = Rows::with_room(alloc, columns, rows.len())?;
    for (i, row) in rows.iter().enumerate() {
        match cells.push_row(columns, row.as_slice()) {
            Ok(()) => {}
            Err(RowFault::NoMemory) => return Err(Refusal::NoMemory),
            Err(RowFault::Bad(bad)) => return Err(bad_row(i as u32 + 1, bad)),
        }
    }
    Ok(cells)
}
