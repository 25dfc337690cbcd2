//! Times blocks that are written to a file and read again, for `bench/blocks/run.sh`.
//!
//! With a path and a number of blocks it prints one line each for `write` and `read` of `iq_block_store`: the name, and the
//! processor time of all blocks in nanoseconds, the system's part included. Without them it does nothing, so that a run of all
//! programs is short. Below stand `iq_block_store` and `iq_outside`; nothing stands above.
#![tactic(auto)]

use iq_block_store::{BlockFault, Page, read, write};
use iq_outside::{Block, Device, FileDevice};
use std::fs::File;
use std::rt::Files;
use std::time::{CpuClock, Duration};
use std::{env, io};

/// The kind of a block that holds a page.
const PAGE: u8 = 5;

/// How often all blocks are written and read for one measurement.
const ROUNDS: u32 = 5;

/// The time between two moments in nanoseconds.
fn nanoseconds(from: Duration, to: Duration) -> u64 {
    let spent = to.saturating_sub(from);
    let whole = spent.as_secs().saturating_mul(1_000_000_000);
    whole.saturating_add(u64::from(spent.subsec_nanos()))
}

/// Writes so many blocks, each with the lowest byte of its number in front.
fn write_blocks<R: Files<File = File> + Drop>(
    disk: &mut FileDevice<R>,
    blocks: u32,
    page: &mut Page,
) -> Result<(), BlockFault> {
    for at in 0..blocks {
        page[0] = (at % 256) as u8;
        write(disk, at, PAGE, 0, page)?;
    }
    Ok(())
}

/// Reads so many blocks, and answers the sum of the bytes in front.
fn read_blocks<R: Files<File = File> + Drop>(
    disk: &mut FileDevice<R>,
    blocks: u32,
    block: &mut Block,
) -> Result<u64, BlockFault> {
    let mut sum = 0u64;
    for at in 0..blocks {
        read(disk, at, PAGE, block)?;
        sum = sum.wrapping_add(u64::from(block[16]));
    }
    Ok(sum)
}

/// Writes and reads the file once, and then as often as is measured.
fn measure<R: Files<File = File> + Drop, C: CpuClock + Print>(
    rt: &C,
    disk: &mut FileDevice<R>,
    blocks: u32,
) -> io::Result<()> {
    let mut page = [7; 1008];
    let mut block = [0; 1024];
    let mut sum = 0u64;
    if disk.resize(blocks).is_err() || write_blocks(disk, blocks, &mut page).is_err() {
        return Err(io::ErrorKind::Other.into());
    }
    let start = rt.thread_cpu_time()?;
    for _ in 0..ROUNDS {
        if write_blocks(disk, blocks, &mut page).is_err() {
            return Err(io::ErrorKind::Other.into());
        }
    }
    let written = rt.thread_cpu_time()?;
    for _ in 0..ROUNDS {
        match read_blocks(disk, blocks, &mut block) {
            Ok(more) => sum = sum.wrapping_add(more),
            Err(_) => return Err(io::ErrorKind::Other.into()),
        }
    }
    let end = rt.thread_cpu_time()?;
    println!(rt; "write {}", nanoseconds(start, written))?;
    println!(rt; "read {} ({sum})", nanoseconds(written, end))
}

fn main(rt: HostRuntime) -> io::Result<()> {
    let mut words = env::args(&rt)?;
    let _program = words.next();
    let Some(path) = words.next() else {
        return Ok(());
    };
    let Some(blocks) = words.next() else {
        return Ok(());
    };
    let Ok(blocks) = blocks.as_str().parse::<u32>() else {
        return Ok(());
    };
    measure(&rt, &mut FileDevice::new(&rt, path), blocks)
}
