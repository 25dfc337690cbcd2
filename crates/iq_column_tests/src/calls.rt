//! How many calls of a store each call on a table makes, what a failed one leaves, and what hostile pages give.
use crate::checks::same;
use crate::lists::{
    KINDS, NO_CALL, Stored, alive, append, append_numbers, created, failing, made, remove, rows,
    sure,
};
use iq_base::{ColumnPart, Listed, NoMemory};
use iq_bitmap::Bitmap;
use iq_pages::{MemoryPages, PageFault, PageSink, PageSource};
use iq_table::{Table, TableFault};
use std::alloc::Global;
use std::process::Abort;

/// What each step calls, and what it answers. A page has 201, 144 and 112 values, and 1,008 codes of 1 byte.
const STEPS: [(u64, [usize; 3]); 5] = [
    // 256 rows: values and codes of each column, existence.
    ((2 + 1) + (1 + 1) + (2 + 1) + 1, [0; 3]),
    // Row 257: values and codes read, values and codes written; an object anew.
    ((2 + 1 + 1 + 1 + 1) + (1 + 2) + (2 + 2 + 1) + 2, [0; 3]),
    // No row.
    (0, [0; 3]),
    // One row removed: existence read and written.
    (1 + 1, [1, 0, 0]),
    // Existence; values and codes of two columns.
    (1 + (2 + 1) + (2 + 1), [256, 256, 2]),
];

/// The objects that are made for a table.
const MADE_BY: u64 = 1 + 2 * 3;

/// Row 200 of 257.
fn two_hundredth(alloc: Global) -> Result<Vec<bool>, NoMemory> {
    let mut marked = Vec::new(alloc);
    for row in 0..257 {
        marked.push(row == 200)?;
    }
    Ok(marked)
}

fn remove_one(alloc: Global, stored: &mut Stored) -> Result<[usize; 3], TableFault> {
    let marked = two_hundredth(alloc)?;
    let gone = remove(alloc, &stored.table, &mut stored.store, &marked)?;
    Ok([gone as usize, 0, 0])
}

/// How many rows and columns are read of the rows of a bitmap, the last column before the first.
fn read_two(
    alloc: Global,
    table: &Table,
    store: &mut MemoryPages,
    alive: &Bitmap,
) -> Result<(usize, usize), TableFault> {
    if table.place >= 64 || table.parts.columns.len() != 3 || alive.len() != table.parts.slots {
        return Err(NO_CALL);
    }
    let got = table.rows_of(alloc, store, alive, &[2, 0])?;
    Ok((got.len(), got.width()))
}

/// How many rows are there, and how many rows and columns are read.
fn read(alloc: Global, stored: &mut Stored) -> Result<[usize; 3], TableFault> {
    let Stored { table, store } = stored;
    let alive = alive(alloc, table, store)?;
    let (count, width) = read_two(alloc, table, store, &alive)?;
    Ok([alive.count() as usize, count, width])
}

fn append_some(
    alloc: Global,
    stored: &mut Stored,
    from: usize,
    to: usize,
) -> Result<[usize; 3], TableFault> {
    append_numbers(alloc, stored, from, to)?;
    Ok([0; 3])
}

/// One step, of those that STEPS lists.
fn step(alloc: Global, stored: &mut Stored, number: usize) -> Result<[usize; 3], TableFault> {
    match number {
        0 => append_some(alloc, stored, 0, 256),
        1 => append_some(alloc, stored, 256, 257),
        2 => append_some(alloc, stored, 257, 257),
        3 => remove_one(alloc, stored),
        _ => read(alloc, stored),
    }
}

fn copied(alloc: Global, parts: &[ColumnPart]) -> Result<Vec<ColumnPart>, NoMemory> {
    let mut copied = Vec::new(alloc);
    for part in parts {
        copied.push(part.again())?;
    }
    Ok(copied)
}

/// What a step answers, and whether it left the table's value as it was.
type Outcome = (Result<[usize; 3], TableFault>, bool);

fn stepped(alloc: Global, stored: &mut Stored, number: usize) -> Result<Outcome, NoMemory> {
    let slots = stored.table.parts.slots;
    let parts = copied(alloc, stored.table.parts.columns.as_slice())?;
    let done = step(alloc, stored, number);
    let columns = stored.table.parts.columns.as_slice();
    let kept = stored.table.parts.slots == slots && columns == parts.as_slice();
    Ok((done, kept))
}

/// The fault of the first call that fails.
const FAILED: TableFault = TableFault::Failed {
    before: 0,
    after: 1,
};

/// All steps, up to the one that makes the call that fails.
fn run(rt: &impl Abort, alloc: Global, call: u64) -> Result<(), TableFault> {
    let mut stored = made(alloc, failing(alloc, call)?)?;
    let mut left = call.saturating_sub(MADE_BY);
    for (number, (calls, told)) in STEPS.iter().enumerate() {
        let (done, kept) = stepped(alloc, &mut stored, number)?;
        if 0 < left && left <= *calls {
            same(rt, &(done, kept), &(Err(FAILED), true), call as usize);
            return Ok(());
        }
        same(rt, &done, &Ok(*told), call as usize);
        left = left.saturating_sub(*calls);
    }
    Ok(())
}

#[test]
fn each_page_is_touched_once_and_a_failed_call_changes_no_table(
    rt: HostRuntime,
) -> Result<(), TableFault> {
    let mut all = MADE_BY;
    for (calls, _) in STEPS {
        all = all.saturating_add(calls);
    }
    for call in MADE_BY + 1..all.saturating_add(2) {
        run(&rt, rt.alloc(), call)?;
    }
    Ok(())
}

/// A table that says it has so many slots, and so many distinct values in each column.
fn with_slots(
    alloc: Global,
    store: &mut MemoryPages,
    slots: u32,
    distinct: u32,
) -> Result<Table, TableFault> {
    let mut table = created(alloc, store, &KINDS)?;
    table.parts.slots = slots;
    table.parts.columns = with_distinct(alloc, table.parts.columns.as_slice(), distinct)?;
    Ok(table)
}

fn with_distinct(
    alloc: Global,
    parts: &[ColumnPart],
    distinct: u32,
) -> Result<Listed<ColumnPart>, NoMemory> {
    let mut told = Vec::new(alloc);
    for part in parts {
        let mut part = part.again();
        part.distinct = distinct;
        told.push(part)?;
    }
    Ok(Listed::from_vec(told))
}

/// Slots and distinct values, and which page is named: more values than slots, on the first page of values and on the second; then
/// no page of values; then none of codes.
const NAMED: [(u32, u32, u32, u32); 4] = [
    (3, 4, 514, 0),
    (300, 301, 514, 1),
    (4, 4, 514, 0),
    (4, 0, 513, 0),
];

fn append_one(alloc: Global, table: &mut Table, store: &mut MemoryPages) -> Result<(), TableFault> {
    append(alloc, table, store, &rows(alloc, 9, 10)?)
}

fn alive_count(alloc: Global, table: &Table, store: &mut MemoryPages) -> Result<u32, TableFault> {
    Ok(alive(alloc, table, store)?.count())
}

/// The fault of a table without pages of existence.
const LACKS: TableFault = TableFault::BadPage {
    object: 512,
    page: 0,
};

fn is_named(
    rt: &impl Abort,
    alloc: Global,
    store: &mut MemoryPages,
    case: &(u32, u32, u32, u32),
) -> Result<(), TableFault> {
    let (slots, distinct, object, page) = *case;
    let row = slots as usize;
    let mut table = with_slots(alloc, store, slots, distinct)?;
    let done = append_one(alloc, &mut table, store);
    same(rt, &done, &Err(TableFault::BadPage { object, page }), row);
    same(rt, &table.parts.slots, &slots, row);
    same(rt, &alive_count(alloc, &table, store), &Err(LACKS), row);
    if slots == 3 {
        let gone = remove(alloc, &table, store, &[true, false, true]);
        same(rt, &gone, &Err(LACKS), row);
    }
    Ok(())
}

#[test]
fn hostile_pages_are_named(rt: HostRuntime) -> Result<(), TableFault> {
    let mut store = sure(rt.alloc());
    for case in NAMED.iter() {
        is_named(&rt, rt.alloc(), &mut store, case)?;
    }
    Ok(())
}

fn push_sevens(store: &mut MemoryPages, object: u32) -> Result<(), PageFault> {
    if store.pages(object) > 9 {
        return Err(PageFault::NoMemory);
    }
    store.push_page(object, &[7; 1008])
}

#[test]
fn a_value_that_no_column_may_hold_is_named(rt: HostRuntime) -> Result<(), TableFault> {
    let mut store = sure(rt.alloc());
    let mut table = with_slots(rt.alloc(), &mut store, 4, 1)?;
    push_sevens(&mut store, 514)?;
    let bad = TableFault::BadPage {
        object: 514,
        page: 0,
    };
    let done = append_one(rt.alloc(), &mut table, &mut store);
    same(&rt, &done, &Err(bad), 4);
    Ok(())
}
