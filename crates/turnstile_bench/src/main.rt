//! Turns per second at one turnstile, for bench/turnstile. With no argument it does nothing.
//!
//! Contracts see a `Tally` as its count. Below stands `iq_turnstile`; nothing stands above. Only time is measured here.
#![tactic(auto)]

mod rounds;
mod tally;

use rounds::count_up;
use std::time::Instant;
use std::{env, io};

const MOST_THREADS: u32 = 64;

fn main(rt: HostRuntime) -> io::Result<()> {
    let mut words = env::args(&rt)?;
    let _program = words.next();
    let Some(threads) = words.next() else {
        return Ok(());
    };
    let Some(turns) = words.next() else {
        return Ok(());
    };
    let (Ok(threads), Ok(turns)) = (
        threads.as_str().parse::<u32>(),
        turns.as_str().parse::<u32>(),
    ) else {
        return Ok(());
    };
    if threads == 0 || threads > MOST_THREADS {
        return Ok(());
    }
    let start = Instant::now(&rt)?;
    let counted = count_up(&rt, rt.alloc(), threads, turns);
    let spent = start.elapsed(&rt)?.as_nanos();
    let Some(counted) = counted else {
        return Ok(());
    };
    println!(rt; "{counted} {spent}")
}
