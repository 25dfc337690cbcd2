//! How many calls of a store each call makes, and what a failed one leaves.
use crate::checks::same;
use crate::columns::{
    CODES, VALUES, bits, chosen, ints, name, numbers, paired, push_numbers, put, scanned, value_at,
    value_of, whole,
};
use iq_ast::{Op, Test};
use iq_base::{Kind, NoMemory, Value};
use iq_cells::Cells;
use iq_fp::Fp;
use iq_pages::{MemoryPages, PageFault};
use iq_truth::Side;
use std::alloc::Global;
use std::process::Abort;

/// 48 calls in all, and what each step answers. A page has 201 cells of INT, and 1,008 codes of 1 byte or 504 of 2. What each step
/// calls: pages of distinct values that are read, of codes that are read, of values and of codes that are written, an object of
/// codes that is made anew.
const STEPS: [(u64, [i64; 3]); 10] = [
    // 250 rows, each of its own value.
    (0 + 0 + 2 + 1, [0; 3]),
    // 758 rows of these: the page of codes is full then, to its last byte.
    (2 + 1 + 0 + 1, [0; 3]),
    // NULL, on a page of codes of its own.
    (2 + 0 + 1 + 1, [0; 3]),
    // No row.
    (2 + 1 + 0 + 0, [0; 3]),
    // 6 rows more make 257 values: all codes anew.
    (2 + 2 + 1 + 3 + 1, [0; 3]),
    // A scan.
    (2 + 3, [6, 0, 0]),
    // One value.
    (1 + 1, [305, 0, 0]),
    // The values of two rows of one page of codes.
    (2 + 1, [2, 4, 7]),
    // A scan of the column with itself.
    (2 * (2 + 3), [1_014, 0, 0]),
    // All values.
    (2 + 3, [1_015, 0, 0]),
];

const FAILED: PageFault = PageFault::Failed {
    before: 0,
    after: 1,
};

/// The values of the first 250 rows once more, row by row, 758 of them.
fn full(alloc: Global) -> Result<Cells, NoMemory> {
    let mut cells = Cells::new(alloc, Kind::Int);
    for _ in 0..3 {
        push_numbers(&mut cells, 0, 250)?;
    }
    push_numbers(&mut cells, 0, 8)?;
    Ok(cells)
}

/// The rows of the first five steps.
fn rows(alloc: Global, number: usize) -> Result<Cells, NoMemory> {
    match number {
        0 => numbers(alloc, Kind::Int, 0, 250),
        1 => full(alloc),
        2 => ints(alloc, Kind::Int, &[None]),
        3 => Ok(Cells::new(alloc, Kind::Int)),
        _ => numbers(alloc, Kind::Int, 300, 306),
    }
}

/// The number of a value; -1 where there is none.
fn number_of(value: Option<Value>) -> i64 {
    match value {
        Some(Value::Int(number)) => number,
        _ => -1,
    }
}

/// How many values there are.
fn count_of(cells: &Cells) -> i64 {
    i64::try_from(cells.len()).unwrap_or(-1)
}

/// How many rows are greater than 298.
fn scan(alloc: Global, fp: &Fp, store: &mut MemoryPages) -> Result<i64, PageFault> {
    let test = Test::Compare {
        column: name()?,
        op: Op::Gt,
        value: Value::Int(298),
    };
    Ok(scanned(alloc, fp, store, &test, Side::True)?.count() as i64)
}

fn choose(alloc: Global, fp: &Fp, store: &mut MemoryPages) -> Result<[i64; 3], PageFault> {
    let rows = bits(alloc, fp.slots, &[504, 1_007])?;
    let got = chosen(alloc, fp, store, &rows)?;
    let first = number_of(value_at(&got, 0));
    Ok([count_of(&got), first, number_of(value_at(&got, 1))])
}

/// One step behind the first five, of those that STEPS lists.
fn read(
    alloc: Global,
    fp: &Fp,
    store: &mut MemoryPages,
    number: usize,
) -> Result<[i64; 3], PageFault> {
    let told = match number {
        5 => scan(alloc, fp, store)?,
        6 => number_of(Some(value_of(fp, store, 1_014)?)),
        7 => return choose(alloc, fp, store),
        8 => paired(alloc, fp, store, Op::Eq, fp, Side::True)?.count() as i64,
        _ => count_of(&whole(alloc, fp, store)?),
    };
    Ok([told, 0, 0])
}

/// One step, of those that STEPS lists.
fn step(
    alloc: Global,
    fp: &mut Fp,
    store: &mut MemoryPages,
    number: usize,
) -> Result<[i64; 3], PageFault> {
    if number < 5 {
        put(alloc, fp, store, &rows(alloc, number)?)?;
        return Ok([0; 3]);
    }
    read(alloc, fp, store, number)
}

/// What a step answers, and whether it left the column as it was.
fn stepped(
    alloc: Global,
    fp: &mut Fp,
    store: &mut MemoryPages,
    number: usize,
) -> (Result<[i64; 3], PageFault>, bool) {
    let before = *fp;
    let done = step(alloc, fp, store, number);
    (done, *fp == before)
}

fn failing(alloc: Global, call: u64) -> Result<MemoryPages, NoMemory> {
    let mut fails = Vec::new(alloc);
    fails.push(call)?;
    Ok(MemoryPages::new(alloc, fails))
}

/// All steps, where a call is to fail: the step that makes it answers so and leaves the column, and then goes through. One that widens
/// the codes ends there, since it may have made their object anew.
fn run(rt: &impl Abort, alloc: Global, call: u64) -> Result<(), NoMemory> {
    let mut store = failing(alloc, call)?;
    let mut fp = Fp::empty(CODES, VALUES, Kind::Int);
    let mut left = call;
    for (number, (calls, told)) in STEPS.iter().enumerate() {
        if 0 < left && left <= *calls {
            let failed = stepped(alloc, &mut fp, &mut store, number);
            same(rt, &failed, &(Err(FAILED), true), call as usize);
            if number == 4 {
                return Ok(());
            }
        }
        let (done, _) = stepped(alloc, &mut fp, &mut store, number);
        same(rt, &done, &Ok(*told), call as usize);
        left = left.saturating_sub(*calls);
    }
    Ok(())
}

#[test]
fn each_page_is_touched_once_and_a_failed_call_changes_no_column(
    rt: HostRuntime,
) -> Result<(), NoMemory> {
    for call in 1..50 {
        run(&rt, rt.alloc(), call)?;
    }
    Ok(())
}
