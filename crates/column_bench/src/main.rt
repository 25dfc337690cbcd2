//! Times an append of 200,000 rows to a table over pages in memory, and scans of it, for `bench/columns/run.sh`.
//!
//! With an argument it prints one line a call: its name and the processor time of one call in nanoseconds; with the argument `rows`
//! it makes the rows alone, so that what the append takes of memory shows. Without one it does nothing, so that a run of all programs
//! is short.
#![tactic(auto)]

ghost use Rattle.std.specs.Prelude.{◌≡◌, ◌<◌, length, IfOk};
ghost use Rattle.iq_cells.specs.Growing.{kinds_of};

use iq_ast::{Op, Test};
use iq_base::{Column, Kind, Name, NoMemory, Text, Value};
use iq_cells::Rows;
use iq_fp::Fp;
use iq_pages::MemoryPages;
use iq_table::{Table, fp_of};
use iq_truth::Side;
use std::alloc::Global;
use std::time::{CpuClock, Duration};
use std::{env, io};

/// How many rows are appended.
const ROWS: u32 = 200_000;

/// The columns: numbers that are all different, 5,000 texts, 100 numbers, and large numbers that are all different.
const KINDS: [Kind; 4] = [Kind::Int, Kind::Varchar(8), Kind::Int, Kind::Big];

fn name_of(text: &str) -> Result<Name, NoMemory> {
    Name::of(text).ok_or(NoMemory)
}

fn columns(alloc: Global) -> Result<Vec<Column>, NoMemory> {
    let mut columns = Vec::new(alloc);
    for kind in KINDS {
        columns.push(Column {
            name: name_of("c")?,
            kind,
            null: true,
        })?;
    }
    Ok(columns)
}

/// A number below 100,000 as five digits.
fn digits(number: u32) -> Result<Value, NoMemory> {
    let mut text = [b'0'; 5];
    let mut rest = number;
    for place in [4, 3, 2, 1, 0] {
        text[place] = b'0' + (rest % 10) as u8;
        rest /= 10;
    }
    let Ok(text) = str::from_utf8(&text) else {
        return Err(NoMemory);
    };
    Ok(Value::Text(Text::of(text).ok_or(NoMemory)?))
}

fn rows(alloc: Global, columns: &[Column]) -> Result<Rows, NoMemory> {
    let mut rows = Rows::empty(alloc, columns)?;
    'numbers: for i in 0..ROWS {
        let values = [
            Value::Int(i64::from(i)),
            digits(i % 5_000)?,
            Value::Int(i64::from(i % 100)),
            Value::Int(i64::from(i) * 1_000_003),
        ];
        if rows.len() >= 1_000_000 || columns.len() > 32 {
            return Err(NoMemory);
        }
        let pushed = rows.push_row(columns, &values);
        if pushed.is_err() {
            return Err(NoMemory);
        }
    }
    Ok(rows)
}

fn nanoseconds(from: Duration, to: Duration) -> u64 {
    let spent = to.saturating_sub(from);
    let whole = spent.as_secs().saturating_mul(1_000_000_000);
    whole.saturating_add(u64::from(spent.subsec_nanos()))
}

fn time_append<R: CpuClock + Print>(
    rt: &R,
    alloc: Global,
    table: &mut Table,
    store: &mut MemoryPages,
    rows: &Rows,
) -> io::Result<()> {
    if table.place >= 64 || table.parts.columns.len() > 32 || !table.takes(rows) {
        return println!(rt; "no table of the rows");
    }
    let from = rt.thread_cpu_time()?;
    let done = table.append_rows(alloc, store, rows);
    let time = nanoseconds(from, rt.thread_cpu_time()?);
    println!(rt; "append {time} ({})", done.is_ok())
}

fn time_scan<R: CpuClock + Print>(
    rt: &R,
    alloc: Global,
    fp: &Fp,
    store: &mut MemoryPages,
    test: &Test,
    call: &str,
) -> io::Result<()> {
    let from = rt.thread_cpu_time()?;
    let found = fp.scan(alloc, store, test, Side::True);
    let time = nanoseconds(from, rt.thread_cpu_time()?);
    match found {
        Ok(bits) => println!(rt; "{call} {time} ({})", bits.count()),
        Err(_) => println!(rt; "{call} failed"),
    }
}

fn main(rt: HostRuntime) -> anyhow::Result<()> {
    let words = env::args(&rt)?.count();
    if words < 2 {
        return Ok(());
    }
    let columns = columns(rt.alloc())?;
    let rows = rows(rt.alloc(), &columns)?;
    println!(rt; "rows {}", rows.len())?;
    if words > 2 {
        return Ok(());
    }
    let mut store = MemoryPages::new(rt.alloc(), Vec::new(rt.alloc()));
    let mut table = Table::new(rt.alloc(), 0, name_of("t")?, &columns)?;
    time_append(&rt, rt.alloc(), &mut table, &mut store, &rows)?;
    for (c, number, call) in [(0, 100_000, "scan_many"), (2, 50, "scan_few")] {
        let test = Test::Compare {
            column: name_of("c")?,
            op: Op::Lt,
            value: Value::Int(number),
        };
        if c < table.parts.columns.len() {
            let fp = fp_of(0, table.parts.slots, c, &table.parts.columns.as_slice()[c]);
            time_scan(&rt, rt.alloc(), &fp, &mut store, &test, call)?;
        }
    }
    Ok(())
}
