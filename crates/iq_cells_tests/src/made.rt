//! Values that tables of cases write down, and columns of them.
use iq_base::{NoMemory, Text, Value};
use iq_cells::Cells;

/// What a value is made of.
#[derive(Clone, Copy)]
pub enum Cell {
    Null,
    Int(i64),
    Text(&'static str),
}

/// The value; a text that is too long for one is NULL.
pub fn value(cell: &Cell) -> Value {
    match cell {
        Cell::Null => Value::Null,
        Cell::Int(number) => Value::Int(*number),
        Cell::Text(text) => match Text::of(text) {
            Some(text) => Value::Text(text),
            None => Value::Null,
        },
    }
}

/// Puts a value at the end of a column that may hold it.
pub fn push(column: &mut Cells, cell: &Cell) -> Result<(), NoMemory> {
    let value = value(cell);
    if iq_base::is_of(column.kind(), &value) {
        column.push(&value)?;
    }
    Ok(())
}

/// The value at a place, if there is one.
pub fn at(column: &Cells, place: usize) -> Option<Value> {
    if place < column.len() {
        Some(column.get(place))
    } else {
        None
    }
}
