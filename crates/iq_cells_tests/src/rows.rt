//! Rows by their columns, and the first bad field of a row.
ghost use Rattle.std.specs.Prelude.{◌≡◌};
ghost use Rattle.iq_cells.specs.Growing.{kinds_of};

use crate::checks::same;
use crate::made::{Cell, at, value};
use iq_base::{Column, FieldCause, Kind, Name, Value};
use iq_cells::{BadField, RowFault, Rows, first_bad_field};
use std::alloc::{AllocError, Global};
use std::process::Abort;
use std::test::Fail;

/// Two numbers and a text, of which the first may not be NULL.
const COLUMNS: [(&str, Kind, bool); 3] = [
    ("n", Kind::Int, false),
    ("s", Kind::Varchar(4), true),
    ("b", Kind::Big, true),
];

fn columns(alloc: Global) -> Result<Vec<Column>, AllocError> {
    let mut columns = Vec::new(alloc);
    for (name, kind, null) in COLUMNS {
        if let Some(name) = Name::of(name) {
            columns.push(Column { name, kind, null })?;
        }
    }
    Ok(columns)
}

fn values(alloc: Global, cells: &[Cell]) -> Result<Vec<Value>, AllocError> {
    let mut values = Vec::new(alloc);
    for cell in cells {
        values.push(value(cell))?;
    }
    Ok(values)
}

/// A row that is offered, its first bad field, and how many rows there are then.
type Offer = (&'static [Cell], Option<BadField>, usize);

/// What comes of a row that is offered: its first bad field, the answer, and how many rows there are then.
type Outcome = (Option<BadField>, Result<(), RowFault>, usize);

fn push(rows: &mut Rows, columns: &[Column], values: &[Value]) -> Outcome
    requires { kinds_of columns.now ≡ rows.old.kinds }
    ensures { kinds_of columns.now ≡ rows.new.kinds }
{
    if columns.len() > 9 || rows.len() > 9 {
        return (None, Err(RowFault::NoMemory), 0);
    }
    let bad = first_bad_field(columns, values);
    let done = rows.push_row(columns, values);
    (bad, done, rows.len())
}

fn told(bad: Option<BadField>) -> Result<(), RowFault> {
    match bad {
        None => Ok(()),
        Some(bad) => Err(RowFault::Bad(bad)),
    }
}

/// Offers rows one after the other.
fn takes(
    rt: &impl Abort,
    alloc: Global,
    columns: &[Column],
    rows: &mut Rows,
    offers: &[Offer],
) -> Result<(), AllocError>
    requires { kinds_of columns.now ≡ rows.old.kinds }
{
    for (row, (cells, bad, count)) in offers.iter().enumerate() {
        let values = values(alloc, cells)?;
        let found = push(rows, columns, &values);
        same(rt, &found, &(*bad, told(*bad), *count), row);
    }
    Ok(())
}

/// The value of a row in a column, where there is one.
fn value_at(rows: &Rows, r: usize, c: usize) -> Option<Value> {
    if r < rows.len() && c < rows.width() {
        Some(rows.get(r, c))
    } else {
        None
    }
}

const GOOD: [Cell; 3] = [Cell::Int(5), Cell::Text("four"), Cell::Int(2_147_483_648)];

/// The first bad field of a row.
macro_rules! bad {
    ($field:expr, $cause:ident) => {
        Some(BadField {
            field: $field,
            cause: FieldCause::$cause,
        })
    };
}

const OFFERS: [Offer; 9] = [
    (&GOOD, None, 1),
    (&[], bad!(0, Count), 1),
    (&[Cell::Null, Cell::Null], bad!(0, Count), 1),
    (
        &[Cell::Null, Cell::Null, Cell::Null, Cell::Null],
        bad!(0, Count),
        1,
    ),
    (
        &[Cell::Text("x"), Cell::Int(5), Cell::Text("y")],
        bad!(1, NotNumber),
        1,
    ),
    (
        &[Cell::Int(2_147_483_648), Cell::Int(5), Cell::Null],
        bad!(1, Range),
        1,
    ),
    (
        &[Cell::Null, Cell::Text("fives"), Cell::Null],
        bad!(1, NullRefused),
        1,
    ),
    (
        &[Cell::Int(5), Cell::Int(2_147_483_648), Cell::Text("y")],
        bad!(2, NotText),
        1,
    ),
    (
        &[Cell::Int(5), Cell::Text("fives"), Cell::Text("y")],
        bad!(2, TextTooLong),
        1,
    ),
];

#[test]
fn a_bad_row_has_its_first_cause_and_leaves_the_rows(rt: HostRuntime) -> Result<(), Fail> {
    let columns = columns(rt.alloc())?;
    let mut kept = Rows::with_room(rt.alloc(), &columns, 4)?;
    same(
        &rt,
        &(kept.len(), kept.is_empty(), kept.width()),
        &(0, true, 3),
        0,
    );
    takes(&rt, rt.alloc(), &columns, &mut kept, &OFFERS)?;
    for (c, cell) in GOOD.iter().enumerate() {
        same(&rt, &value_at(&kept, 0, c), &Some(value(cell)), c);
    }
    Ok(())
}

const ROWS: [Offer; 3] = [
    (&[Cell::Int(0), Cell::Null, Cell::Int(9)], None, 1),
    (&[Cell::Int(1), Cell::Null, Cell::Int(-1)], None, 2),
    (&[Cell::Int(2), Cell::Null, Cell::Int(-2)], None, 3),
];

/// The value of a row in the last of three columns, read from that column.
fn of_last(rows: &Rows, r: usize) -> Option<Value> {
    if rows.width() == 3 {
        at(rows.column(2), r)
    } else {
        None
    }
}

fn are_turned(rt: &impl Abort, rows: &Rows) {
    for (r, (cells, _, _)) in ROWS.iter().enumerate() {
        for (c, cell) in cells.iter().enumerate() {
            same(rt, &value_at(rows, r, c), &Some(value(cell)), r);
        }
    }
    same(rt, &of_last(rows, 1), &Some(Value::Int(-1)), 1);
    same(rt, &of_last(rows, 2), &Some(Value::Int(-2)), 2);
    same(rt, &of_last(rows, 3), &None, 3);
}

#[test]
fn rows_are_their_columns_turned_round(rt: HostRuntime) -> Result<(), Fail> {
    let columns = columns(rt.alloc())?;
    let mut rows = Rows::empty(rt.alloc(), &columns)?;
    takes(&rt, rt.alloc(), &columns, &mut rows, &ROWS)?;
    are_turned(&rt, &rows);
    Ok(())
}
