//! Threads that take turns, each as many.
ghost use Rattle.std.specs.Prelude.{◌≡◌, ◌<◌, All, IfSome, length};
ghost use Rattle.iq_turnstile.specs.Passes.{IsOf, parts_of};

use crate::tally::{More, Tally};
use iq_turnstile::{Pass, Shared, Turnstile};
use std::alloc::Global;
use std::sync::Wait;
use std::thread;
use std::thread::Threads;

/// How far the tally came where each of the threads took so many turns, or nothing where memory is missing.
pub fn count_up<R: Threads + Wait + Sync>(
    rt: &R,
    alloc: Global,
    threads: u32,
    turns: u32,
) -> Option<u64>
    requires { 0 < threads }
{
    let (door, first) = Turnstile::new(alloc, Tally { count: 0 }, threads).ok()?;
    let mut passes = shared_out(alloc, &door, first, threads)?;
    take_turns(rt, &door, passes.as_mut_slice(), turns);
    let tally = door.close(passes).ok()?;
    Some(tally.count)
}

// A pass of one part for each thread.
fn shared_out<S: Shared>(
    alloc: Global,
    door: &Turnstile<S>,
    mut first: Pass<S>,
    threads: u32,
) -> Option<Vec<Pass<S>>>
    requires here { IsOf door.now first }
    ensures { IfSome result (λ passes. (0 < length passes.items) × All (IsOf door.now) passes.items) }
{
    let mut passes = Vec::new(alloc);
    for _ in 1..threads {
        if first.parts() < 2 {
            break;
        }
        passes.push(door.split(&mut first)).ok()?;
    }
    passes.push(first).ok()?;
    Some(passes)
}

fn take_turns<R: Threads + Wait + Sync>(
    rt: &R,
    door: &Turnstile<Tally>,
    passes: &mut [Pass<Tally>],
    turns: u32,
)
    requires some { 0 < length passes.old }
    requires here { All (IsOf door.now) passes.old }
    ensures { All (IsOf door.now) passes.new }
{
    let threads = passes.len();
    thread::for_each_mut(
        rt,
        passes,
        threads,
        &|_: usize, pass: &mut Pass<Tally>|
            requires { IsOf door.now pass.old }
            ensures { IsOf door.entry.now pass.exit.now }
        { take_all(rt, door, pass, turns) },
    );
}

fn take_all<R: Wait>(rt: &R, door: &Turnstile<Tally>, pass: &mut Pass<Tally>, turns: u32)
    requires { IsOf door.now pass.old }
    ensures { IsOf door.now pass.new }
{
    for _ in 0..turns {
        door.turn(rt, pass, &mut More);
    }
}
