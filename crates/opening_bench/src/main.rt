//! Times how a store in a file opens, for `bench/opening/run.sh`.
//!
//! With a path and a number of rounds it opens the store so often, and prints `open`, the processor time of all rounds in nanoseconds,
//! the system's part included, and how many blocks are reached. Without them it does nothing, so that a run of all programs is
//! short. Below stand `iq_opening` and `iq_outside`; nothing stands above.
#![tactic(auto)]

use iq_opening::open;
use iq_outside::FileDevice;
use std::alloc::Global;
use std::fs::File;
use std::rt::Files;
use std::time::{CpuClock, Duration};
use std::{env, io};

/// The time between two moments in nanoseconds.
fn nanoseconds(from: Duration, to: Duration) -> u64 {
    let spent = to.saturating_sub(from);
    let whole = spent.as_secs().saturating_mul(1_000_000_000);
    whole.saturating_add(u64::from(spent.subsec_nanos()))
}

/// Opens a store, and answers how many blocks are reached.
fn reached<R: Files<File = File> + Drop>(alloc: Global, rt: R, path: String) -> io::Result<u32> {
    match open(alloc, &mut FileDevice::new(rt, path)) {
        Ok(opening) => Ok(opening.reached.count()),
        Err(_) => Err(io::ErrorKind::Other.into()),
    }
}

fn main(rt: HostRuntime) -> io::Result<()> {
    let mut words = env::args(&rt)?;
    let _program = words.next();
    let Some(path) = words.next() else {
        return Ok(());
    };
    let Some(rounds) = words.next() else {
        return Ok(());
    };
    let Ok(rounds) = rounds.as_str().parse::<u32>() else {
        return Ok(());
    };
    let mut blocks = 0;
    let start = rt.thread_cpu_time()?;
    for _ in 0..rounds {
        blocks = reached(rt.alloc(), &rt, path.clone()?)?;
    }
    let end = rt.thread_cpu_time()?;
    println!(&rt; "open {} ({blocks})", nanoseconds(start, end))
}
