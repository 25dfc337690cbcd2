//! Rows by their numbers, and tables of them, for the other tests.
ghost use Rattle.std.specs.Prelude.{◌≡◌};
ghost use Rattle.iq_cells.specs.Growing.{kinds_of};

use iq_base::{Column, Kind, Name, NoMemory, Text, Value};
use iq_bitmap::Bitmap;
use iq_cells::Rows;
use iq_pages::MemoryPages;
use iq_table::{Table, TableFault};
use std::alloc::Global;

/// Three kinds, whose pages have 201, 144 and 112 cells.
pub const KINDS: [Kind; 3] = [Kind::Int, Kind::Varchar(5), Kind::Big];

const TEXTS: [&str; 4] = ["", "a", "né", "abcde"];

/// What stands for a call that may not be made.
pub const NO_CALL: TableFault = TableFault::TableFull { limit: 0 };

/// A table over pages in memory.
#[derive(Drop)]
pub struct Stored {
    pub table: Table,
    pub store: MemoryPages,
}

pub fn columns(alloc: Global, kinds: &[Kind; 3], null: bool) -> Result<Vec<Column>, NoMemory> {
    let mut columns = Vec::new(alloc);
    for kind in kinds {
        if let Some(name) = Name::of("x") {
            let kind = *kind;
            columns.push(Column { name, kind, null })?;
        }
    }
    Ok(columns)
}

/// One of four texts, or NULL.
fn text(i: usize) -> Value {
    if i % 5 == 4 {
        return Value::Null;
    }
    match Text::of(TEXTS[i % 4]) {
        Some(text) => Value::Text(text),
        None => Value::Null,
    }
}

/// One of 300 numbers, or NULL.
fn number(i: usize) -> Value {
    if i % 7 == 0 {
        Value::Null
    } else {
        Value::Int((i % 300) as i64 * -5_000_000_000)
    }
}

/// What row `i` has in a column: its own number, a text, a number that others have too.
pub fn value(i: usize, c: usize) -> Value {
    match c {
        0 => Value::Int((i % 1_000_000) as i64),
        1 => text(i),
        _ => number(i),
    }
}

/// Puts a row at the end, where there are few.
pub fn push(rows: &mut Rows, columns: &[Column], values: &[Value]) -> Result<(), NoMemory>
    requires { kinds_of columns.now ≡ rows.old.kinds }
    ensures { kinds_of columns.now ≡ rows.new.kinds }
{
    if rows.len() > 1_000_000 || columns.len() > 32 {
        return Err(NoMemory);
    }
    match rows.push_row(columns, values) {
        Ok(()) => Ok(()),
        Err(_) => Err(NoMemory),
    }
}

/// The rows of the numbers from one on, up to another. NULL may stand in a column that statements keep free of it.
pub fn rows(alloc: Global, from: usize, to: usize) -> Result<Rows, NoMemory> {
    let columns = columns(alloc, &KINDS, true)?;
    let mut rows = Rows::empty(alloc, &columns)?;
    'numbers: for i in from..to {
        let values = [value(i, 0), value(i, 1), value(i, 2)];
        push(&mut rows, &columns, &values)?;
    }
    Ok(rows)
}

/// A store of which one call fails.
pub fn failing(alloc: Global, call: u64) -> Result<MemoryPages, NoMemory> {
    let mut fails = Vec::new(alloc);
    fails.push(call)?;
    Ok(MemoryPages::new(alloc, fails))
}

/// A store of which no call fails.
pub fn sure(alloc: Global) -> MemoryPages {
    MemoryPages::new(alloc, Vec::new(alloc))
}

/// A table without rows at place 2, whose objects are made.
pub fn created(
    alloc: Global,
    store: &mut MemoryPages,
    kinds: &[Kind; 3],
) -> Result<Table, TableFault> {
    let Some(name) = Name::of("t") else {
        return Err(NO_CALL);
    };
    let columns = columns(alloc, kinds, false)?;
    let table = Table::new(alloc, 2, name, &columns)?;
    if table.place >= 64 || table.parts.columns.len() > 32 {
        return Err(NO_CALL);
    }
    table.create(store)?;
    Ok(table)
}

pub fn made(alloc: Global, store: MemoryPages) -> Result<Stored, TableFault> {
    let mut store = store;
    let table = created(alloc, &mut store, &KINDS)?;
    Ok(Stored { table, store })
}

/// Appends rows where the table takes them.
pub fn append(
    alloc: Global,
    table: &mut Table,
    store: &mut MemoryPages,
    rows: &Rows,
) -> Result<(), TableFault> {
    if table.place >= 64 || table.parts.columns.len() > 32 || !table.takes(rows) {
        return Err(NO_CALL);
    }
    table.append_rows(alloc, store, rows)
}

/// Appends the rows of the numbers from one on, up to another.
pub fn append_numbers(
    alloc: Global,
    stored: &mut Stored,
    from: usize,
    to: usize,
) -> Result<(), TableFault> {
    let rows = rows(alloc, from, to)?;
    append(alloc, &mut stored.table, &mut stored.store, &rows)
}

fn set(bits: &mut Bitmap, row: usize, on: bool) {
    if row < bits.len() as usize {
        bits.set(row as u32, on);
    }
}

/// A bitmap of so many rows with listed bits.
fn bits(alloc: Global, len: u32, on: &[bool]) -> Result<Bitmap, NoMemory> {
    let mut bits = Bitmap::empty(alloc, len)?;
    for (row, on) in on.iter().enumerate() {
        set(&mut bits, row, *on);
    }
    Ok(bits)
}

/// Removes the rows that are marked, where there is a mark for each, and answers how many these were.
pub fn remove(
    alloc: Global,
    table: &Table,
    store: &mut MemoryPages,
    marked: &[bool],
) -> Result<u32, TableFault> {
    let found = bits(alloc, table.parts.slots, marked)?;
    if table.place >= 64
        || found.len() as usize != marked.len()
        || found.len() != table.parts.slots
    {
        return Err(NO_CALL);
    }
    Ok(table.delete_rows(alloc, store, &found)?)
}

/// So many rows, all of them there.
pub fn numbered(alloc: Global, count: usize) -> Result<Vec<bool>, NoMemory> {
    let mut alive = Vec::new(alloc);
    for _ in 0..count {
        alive.push(true)?;
    }
    Ok(alive)
}

pub fn alive(alloc: Global, table: &Table, store: &mut MemoryPages) -> Result<Bitmap, TableFault> {
    if table.place >= 64 {
        return Err(NO_CALL);
    }
    Ok(table.alive(alloc, store)?)
}

/// The values of the last column, the first and the second, in this order, of the rows of a bitmap.
fn turned(
    alloc: Global,
    table: &Table,
    store: &mut MemoryPages,
    alive: &Bitmap,
) -> Result<Rows, TableFault> {
    if table.place >= 64 || table.parts.columns.len() != 3 || alive.len() != table.parts.slots {
        return Err(NO_CALL);
    }
    Ok(table.rows_of(alloc, store, alive, &[2, 0, 1])?)
}

/// The value of a row in a column, where there is one.
fn value_at(rows: &Rows, r: usize, c: usize) -> Option<Value> {
    if r < rows.len() && c < rows.width() {
        Some(rows.get(r, c))
    } else {
        None
    }
}

/// Whether row `r` of those that were read is the row of a number.
fn is_row(got: &Rows, r: usize, number: usize) -> bool {
    for (c, column) in [2, 0, 1].iter().enumerate() {
        if value_at(got, r, c) != Some(value(number, *column)) {
            return false;
        }
    }
    true
}

/// Whether the rows that were read are those of the numbers that are marked, in order.
fn are_rows(got: &Rows, marked: &[bool]) -> bool {
    let mut r = 0usize;
    for (number, on) in marked.iter().enumerate() {
        if *on {
            if !is_row(got, r, number) {
                return false;
            }
            r = r.saturating_add(1);
        }
    }
    got.len() == r
}

/// How many slots a table has, and whether it has the rows of the numbers that are marked, in order, with the values of each in its
/// columns.
pub fn has_rows(
    alloc: Global,
    stored: &mut Stored,
    marked: &[bool],
) -> Result<(usize, bool), TableFault> {
    let Stored { table, store } = stored;
    let alive = alive(alloc, table, store)?;
    let got = turned(alloc, table, store, &alive)?;
    Ok((alive.len() as usize, are_rows(&got, marked)))
}

/// The form of each column's codes, and how many distinct values it has.
pub fn parts_of(table: &Table) -> [(u8, u32); 3] {
    let mut parts = [(0, 0); 3];
    for (c, part) in table.parts.columns.as_slice().iter().enumerate() {
        if c < 3 {
            parts[c] = (part.form, part.distinct);
        }
    }
    parts
}
