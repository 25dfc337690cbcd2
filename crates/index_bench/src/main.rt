//! Times appends of 200,000 rows to indexes over pages in memory, and rows found by them, for `bench/indexes/run.sh`.
//!
//! With an argument it prints one line a call: its name and the processor time of one call in nanoseconds, and how many rows were put
//! or found. Without one it does nothing, so that a run of all programs is short.
#![tactic(auto)]

use iq_ast::Op;
use iq_base::{Kind, NoMemory};
use iq_cells::Cells;
use iq_cmp::Cmp;
use iq_hng::{Hng, Width};
use iq_pages::{MemoryPages, PageFault};
use iq_truth::Side;
use std::alloc::Global;
use std::time::{CpuClock, Duration};
use std::{env, io};

/// How many rows are appended.
const ROWS: u32 = 200_000;

/// The objects of the indexes.
const HNG: u32 = 1;

const CMP: u32 = 2;

/// The number of a row in the first column or the second: some 100,000 of either sign, in no order.
fn number_of(row: u32, second: bool) -> i64 {
    let steps = if second { 31 } else { 7_919 };
    i64::from(row) * steps % 200_003 - 100_000
}

/// A column of numbers; each 97th row has none.
fn column(alloc: Global, second: bool) -> Result<Cells, NoMemory> {
    let mut cells = Cells::new(alloc, Kind::Int);
    for row in 0..ROWS {
        if row % 97 == 5 {
            cells.push_null()?;
        } else if cells.push_number(number_of(row, second)).is_err() {
            return Err(NoMemory);
        }
    }
    Ok(cells)
}

fn nanoseconds(from: Duration, to: Duration) -> u64 {
    let spent = to.saturating_sub(from);
    let whole = spent.as_secs().saturating_mul(1_000_000_000);
    whole.saturating_add(u64::from(spent.subsec_nanos()))
}

/// One line: the call, its time, and what it gave.
fn told<R: CpuClock + Print>(
    rt: &R,
    call: &str,
    from: Duration,
    gave: Result<u32, PageFault>,
) -> io::Result<()> {
    let time = nanoseconds(from, rt.thread_cpu_time()?);
    match gave {
        Ok(rows) => println!(rt; "{call} {time} ({rows})"),
        Err(_) => println!(rt; "{call} failed"),
    }
}

fn time_hng<R: CpuClock + Print>(
    rt: &R,
    alloc: Global,
    store: &mut MemoryPages,
    numbers: &Cells,
) -> io::Result<()> {
    let mut hng = Hng {
        object: HNG,
        slots: 0,
        width: Width::Int,
    };
    if numbers.kind() != hng.width.kind() || !hng.has_room(numbers.len()) {
        return println!(rt; "no index of the rows");
    }
    let from = rt.thread_cpu_time()?;
    let done = hng.append(alloc, store, numbers);
    told(rt, "hng_append", from, done.map(|()| hng.slots))?;
    if !hng.has_room(0) {
        return Ok(());
    }
    let from = rt.thread_cpu_time()?;
    let rows = hng.compare(alloc, store, 1_234);
    told(rt, "hng_compare", from, rows.map(|rows| rows.less.count()))?;
    let from = rt.thread_cpu_time()?;
    let rows = hng.range(alloc, store, -50_000, 1_234);
    told(rt, "hng_range", from, rows.map(|rows| rows.within.count()))
}

fn time_cmp<R: CpuClock + Print>(
    rt: &R,
    alloc: Global,
    store: &mut MemoryPages,
    first: &Cells,
    second: &Cells,
) -> io::Result<()> {
    let mut cmp = Cmp {
        object: CMP,
        slots: 0,
    };
    if first.len() != second.len() || !cmp.has_room(first.len()) {
        return println!(rt; "no index of the rows");
    }
    let from = rt.thread_cpu_time()?;
    let done = cmp.append(alloc, store, first, second);
    told(rt, "cmp_append", from, done.map(|()| cmp.slots))?;
    if !cmp.has_room(0) {
        return Ok(());
    }
    let from = rt.thread_cpu_time()?;
    let rows = cmp.relation(alloc, store, Op::Le, Side::True);
    told(rt, "cmp_relation", from, rows.map(|rows| rows.count()))
}

fn main(rt: HostRuntime) -> anyhow::Result<()> {
    if env::args(&rt)?.count() < 2 {
        return Ok(());
    }
    let alloc = rt.alloc();
    let first = column(alloc, false)?;
    let second = column(alloc, true)?;
    let mut store = MemoryPages::new(alloc, Vec::new(alloc));
    time_hng(&rt, alloc, &mut store, &first)?;
    time_cmp(&rt, alloc, &mut store, &first, &second)?;
    Ok(())
}
