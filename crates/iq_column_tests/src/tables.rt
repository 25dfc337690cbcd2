//! Tables beside plain lists of rows.
use crate::checks::same;
use crate::lists::{
    KINDS, Stored, append, append_numbers, columns, created, has_rows, made, numbered, parts_of,
    push, remove, sure,
};
use iq_base::{Kind, NoMemory, Value};
use iq_cells::Rows;
use iq_table::{TableFault, limit_of};
use std::alloc::Global;
use std::process::Abort;

/// Rows of several statements: an empty one, one that ends with a page of codes (1,008 rows), one that ends with a page of existence
/// (8,064 rows), and one row behind it. How many values the columns have at each end: 256 and 257 among them.
const ENDS: [usize; 8] = [0, 256, 257, 1_008, 1_009, 8_064, 8_065, 9_000];

/// Appends rows up to a number, and answers how many slots there are, and whether the rows are those of all numbers before it.
fn come_back(
    alloc: Global,
    stored: &mut Stored,
    from: usize,
    end: usize,
) -> Result<(usize, bool), TableFault> {
    append_numbers(alloc, stored, from, end)?;
    has_rows(alloc, stored, &numbered(alloc, end)?)
}

#[test]
fn rows_that_were_put_come_back(rt: HostRuntime) -> Result<(), TableFault> {
    let mut stored = made(rt.alloc(), sure(rt.alloc()))?;
    let mut from = 0;
    for end in ENDS {
        let found = come_back(rt.alloc(), &mut stored, from, end)?;
        same(&rt, &found, &(end, true), end);
        from = end;
    }
    // 9,000 numbers; four texts and NULL; 300 numbers and NULL.
    let parts = [(2, 9_000), (1, 5), (2, 301)];
    same(&rt, &parts_of(&stored.table), &parts, from);
    Ok(())
}

/// How many rows go in each step: none; a third of 8,200; one; the rest.
const GONE: [u32; 4] = [0, 2_734, 1, 5_465];

/// Whether a row goes in a step: none, some of both pages, one of the second, and all that are left.
fn goes(step: usize, row: usize) -> bool {
    match step {
        0 => false,
        1 => row % 3 == 0,
        2 => row == 8_101,
        _ => true,
    }
}

/// The rows that go in a step, of those that are there.
fn hits(alloc: Global, alive: &mut [bool], step: usize) -> Result<Vec<bool>, NoMemory> {
    let mut found = Vec::new(alloc);
    for (row, on) in alive.iter_mut().enumerate() {
        let hit = *on && goes(step, row);
        *on = *on && !hit;
        found.push(hit)?;
    }
    Ok(found)
}

/// Removes the rows of a step, and answers how many these were, and whether the others are there.
fn removed(
    alloc: Global,
    stored: &mut Stored,
    alive: &mut [bool],
    step: usize,
) -> Result<(u32, bool), TableFault> {
    let found = hits(alloc, alive, step)?;
    let count = remove(alloc, &stored.table, &mut stored.store, &found)?;
    let (slots, right) = has_rows(alloc, stored, alive)?;
    Ok((count, right && slots == 8_200))
}

#[test]
fn removed_rows_are_gone_and_their_slots_are_kept(rt: HostRuntime) -> Result<(), TableFault> {
    let mut stored = made(rt.alloc(), sure(rt.alloc()))?;
    append_numbers(rt.alloc(), &mut stored, 0, 8_200)?;
    let mut alive = numbered(rt.alloc(), 8_200)?;
    for (step, count) in GONE.iter().enumerate() {
        let found = removed(rt.alloc(), &mut stored, &mut alive, step)?;
        same(&rt, &found, &(*count, true), step);
    }
    append_numbers(rt.alloc(), &mut stored, 8_200, 8_210)?;
    add_ten(&mut alive)?;
    let found = has_rows(rt.alloc(), &mut stored, &alive)?;
    same(&rt, &found, &(8_210, true), 4);
    Ok(())
}

fn add_ten(alive: &mut Vec<bool>) -> Result<(), NoMemory> {
    for _ in 0..10 {
        alive.push(true)?;
    }
    Ok(())
}

/// A table is full exactly at its limit: numbers alone, numbers with a text of 105, 136, 194 and 195 bytes.
const LIMITS: [(Kind, u32); 6] = [
    (Kind::Big, 2_097_152),
    (Kind::Varchar(105), 262_144),
    (Kind::Varchar(106), 254_016),
    (Kind::Varchar(136), 254_016),
    (Kind::Varchar(194), 190_512),
    (Kind::Varchar(255), 127_008),
];

fn row_of_nulls(alloc: Global, kinds: &[Kind; 3]) -> Result<Rows, NoMemory> {
    let columns = columns(alloc, kinds, true)?;
    let mut rows = Rows::empty(alloc, &columns)?;
    push(
        &mut rows,
        &columns,
        &[Value::Null, Value::Null, Value::Null],
    )?;
    Ok(rows)
}

/// A table of two numbers and a column of this kind.
fn limited(alloc: Global, kind: Kind) -> Result<(Stored, Rows), TableFault> {
    let kinds = [Kind::Int, Kind::Int, kind];
    let mut store = sure(alloc);
    let table = created(alloc, &mut store, &kinds)?;
    Ok((Stored { table, store }, row_of_nulls(alloc, &kinds)?))
}

/// What appending a row to so many slots answers.
fn append_at(alloc: Global, stored: &mut Stored, slots: u32, row: &Rows) -> Result<(), TableFault> {
    stored.table.parts.slots = slots;
    append(alloc, &mut stored.table, &mut stored.store, row)
}

fn is_limit(rt: &impl Abort, alloc: Global, kind: Kind, limit: u32) -> Result<(), TableFault> {
    let (mut stored, row) = limited(alloc, kind)?;
    let at = limit as usize;
    same(rt, &limit_of(&stored.table.parts), &limit, at);
    let done = append_at(alloc, &mut stored, limit, &row);
    same(rt, &done, &Err(TableFault::TableFull { limit }), at);
    // A row less, and it is the pages that are missing.
    let done = append_at(alloc, &mut stored, limit.saturating_sub(1), &row);
    same(
        rt,
        &matches!(done, Err(TableFault::BadPage { .. })),
        &true,
        at,
    );
    Ok(())
}

#[test]
fn a_table_is_full_at_its_limit(rt: HostRuntime) -> Result<(), TableFault> {
    for (kind, limit) in LIMITS {
        is_limit(&rt, rt.alloc(), kind, limit)?;
    }
    Ok(())
}
