//! Times the calls of `iq_bitmap` on bitmaps of 2,097,152 rows, for `bench/bitmap/run.sh`.
//!
//! With an argument it prints one line a call: its name and the processor time of one call in nanoseconds. Without one it
//! does nothing, so that a run of all programs is short.
#![tactic(auto)]

ghost use Rattle.std.specs.Prelude.{◌<◌};

use iq_base::NoMemory;
use iq_bitmap::Bitmap;
use std::alloc::Global;
use std::time::{CpuClock, Duration};
use std::{env, io};

/// How many rows a bitmap has: the most that the benchmark's tables have.
const ROWS: u32 = 2_097_152;

/// How many rows a page has.
const CHUNK: u32 = 8064;

/// How many pages the rows fill.
const CHUNKS: u32 = 261;

/// How often a call is repeated for one measurement.
const ROUNDS: u32 = 200;

/// A bitmap of which each row that the distance divides is set.
fn spaced(alloc: Global, rows: u32, distance: u32) -> Result<Bitmap, NoMemory>
    requires { 0 < distance }
{
    let mut bitmap = Bitmap::empty(alloc, rows)?;
    for row in 0..rows {
        if row % distance == 0 && row < bitmap.len() {
            bitmap.set(row, true);
        }
    }
    Ok(bitmap)
}

/// The time of one of the rounds in nanoseconds.
fn nanoseconds(from: Duration, to: Duration) -> u64 {
    let spent = to.saturating_sub(from);
    let whole = spent.as_secs().saturating_mul(1_000_000_000);
    whole.saturating_add(u64::from(spent.subsec_nanos())) / u64::from(ROUNDS)
}

fn time_and<R: CpuClock + Print>(rt: &R, kept: &mut Bitmap, other: &Bitmap) -> io::Result<()> {
    let from = rt.thread_cpu_time()?;
    for _ in 0..ROUNDS {
        if kept.len() == other.len() {
            kept.and_with(other);
        }
    }
    let time = nanoseconds(from, rt.thread_cpu_time()?);
    println!(rt; "and_with {time}")
}

fn time_count<R: CpuClock + Print>(rt: &R, bitmap: &mut Bitmap) -> io::Result<()> {
    let mut total = 0u64;
    let from = rt.thread_cpu_time()?;
    for round in 0..ROUNDS {
        if round < bitmap.len() {
            bitmap.set(round, false);
        }
        total = total.wrapping_add(u64::from(bitmap.count()));
    }
    let time = nanoseconds(from, rt.thread_cpu_time()?);
    println!(rt; "count {time} ({total})")
}

fn time_load<R: CpuClock + Print>(
    rt: &R,
    bitmap: &mut Bitmap,
    page: &[u8; 1008],
) -> io::Result<()> {
    let from = rt.thread_cpu_time()?;
    for _ in 0..ROUNDS {
        for chunk in 0..CHUNKS {
            if chunk * CHUNK < bitmap.len() {
                bitmap.load_page(chunk, page);
            }
        }
    }
    let time = nanoseconds(from, rt.thread_cpu_time()?);
    println!(rt; "load_page {time}")
}

fn time_store<R: CpuClock + Print>(
    rt: &R,
    bitmap: &Bitmap,
    page: &mut [u8; 1008],
) -> io::Result<()> {
    let from = rt.thread_cpu_time()?;
    for _ in 0..ROUNDS {
        for chunk in 0..CHUNKS {
            if chunk * CHUNK < bitmap.len() {
                bitmap.store_page(chunk, page);
            }
        }
    }
    let time = nanoseconds(from, rt.thread_cpu_time()?);
    println!(rt; "store_page {time} ({})", page[0])
}

fn time_walk<R: CpuClock + Print>(rt: &R, bitmap: &Bitmap) -> io::Result<()> {
    let mut total = 0u64;
    let from = rt.thread_cpu_time()?;
    for _ in 0..ROUNDS {
        for row in bitmap.rows() {
            total = total.wrapping_add(u64::from(row));
        }
    }
    let time = nanoseconds(from, rt.thread_cpu_time()?);
    println!(rt; "walk {time} ({total})")
}

fn main(rt: HostRuntime) -> anyhow::Result<()> {
    if env::args(&rt)?.count() < 2 {
        return Ok(());
    }
    let mut third = spaced(rt.alloc(), ROWS, 3)?;
    let fifth = spaced(rt.alloc(), ROWS, 5)?;
    time_and(&rt, &mut third, &fifth)?;
    time_count(&rt, &mut third)?;
    let mut page = [0x55u8; 1008];
    time_load(&rt, &mut third, &page)?;
    time_store(&rt, &third, &mut page)?;
    time_walk(&rt, &fifth)?;
    Ok(())
}
