ghost use Rattle.std.specs.Prelude.{◌≡◌, ◌<◌, All, IfSome, length, true};
ghost use Rattle.iq_state_tests.specs.Counter.{CanAdd, entry, noted, speaks_for, knows_nothing};
ghost use Rattle.iq_turnstile.specs.Passes.{IsOf, note_or, parts_of, all_parts};

use crate::counter::{Added, Adds, Counter};
use iq_turnstile::{Pass, Shared, Turnstile};
use std::sync::Wait;
use std::test::Fail;
use std::thread;
use std::thread::Threads;

// The pass of a thread, and the name that it adds under.
#[derive(Drop)]
struct Worker<S: Shared> {
    pass: Pass<S>,
    name: u32,
}

// Adds once, under a name that the pass speaks for.
fn add<R: Wait>(
    rt: &R,
    door: &Turnstile<Counter>,
    pass: &mut Pass<Counter>,
    name: u32,
    amount: u32,
) -> bool
    requires { CanAdd door.now pass.old name }
    ensures can { CanAdd door.now pass.new name }
    ensures parts { parts_of pass.new ≡ parts_of pass.old }
    ensures note { note_or knows_nothing pass.new ≡ noted result (entry name amount) (note_or knows_nothing pass.old) }
{
    let mut act = Adds::new(pass, name, amount);
    door.turn(rt, pass, &mut act);
    act.done
}

fn add_up<R: Wait>(rt: &R, door: &Turnstile<Counter>, worker: &mut Worker<Counter>)
    requires { CanAdd door.now worker.old.pass worker.old.name }
    ensures { CanAdd door.now worker.new.pass worker.new.name }
{
    for amount in 1..101 {
        add(rt, door, &mut worker.pass, worker.name, amount);
    }
}

fn add_up_all<R: Threads + Wait + Sync>(
    rt: &R,
    door: &Turnstile<Counter>,
    workers: &mut [Worker<Counter>],
)
    requires some { 0 < length workers.old }
    requires can { All (λ w. CanAdd door.now w.pass w.name) workers.old }
    ensures { All (λ w. CanAdd door.now w.pass w.name) workers.new }
{
    let threads = workers.len();
    thread::for_each_mut(
        rt,
        workers,
        threads,
        &|_: usize, worker: &mut Worker<Counter>|
            requires { CanAdd door.now worker.now.pass worker.now.name }
            ensures { CanAdd door.entry.now worker.exit.now.pass worker.exit.now.name }
        { add_up(rt, door, worker) },
    );
}

// The pass of the last worker, which is of the turnstile.
fn pop_pass(door: &Turnstile<Counter>, workers: &mut Vec<Worker<Counter>>) -> Option<Pass<Counter>>
    requires { All (λ w. CanAdd door.now w.pass w.name) workers.old.items }
    ensures pass { IfSome result (λ pass. IsOf door.now pass) }
    ensures others { All (λ w. CanAdd door.now w.pass w.name) workers.new.items }
{
    let _ = door;
    let Worker { pass, name: _ } = workers.pop()?;
    Some(pass)
}

#[test]
fn two_threads_add_and_all_of_it_is_there(rt: HostRuntime) -> Result<(), Fail> {
    let alloc = rt.alloc();
    let mut workers = Vec::with_capacity(alloc, 2)?;
    let mut passes = Vec::with_capacity(alloc, 2)?;
    let (door, mut first) = Turnstile::new(alloc, Counter::new(alloc), 2)
        .ok()
        .ok_or("memory")?;
    let second = door.split(&mut first);
    assert_eq!(rt; (first.parts(), second.parts()), (1, 1));
    workers.push_reserved(Worker {
        pass: first,
        name: 7,
    });
    workers.push_reserved(Worker {
        pass: second,
        name: 0,
    });
    add_up_all(&rt, &door, workers.as_mut_slice());
    passes.push_reserved(pop_pass(&door, &mut workers).ok_or("two workers")?);
    passes.push_reserved(pop_pass(&door, &mut workers).ok_or("two workers")?);
    let counter = door.close(passes).ok().ok_or("no pass is missing")?;
    assert_eq!(rt; counter.count(), 200);
    for name in [0, 7] {
        assert!(rt;
            counts_up(counter.history(), name),
            "{name} added 1 to 100, in the order of its turns"
        );
    }
    Ok(())
}

// Whether the amounts under the name are 1 to 100, in order.
fn counts_up(history: &[Added], name: u32) -> bool {
    let mut last: u32 = 0;
    for added in history {
        if added.by == name {
            if added.amount.checked_sub(last) != Some(1) {
                return false;
            }
            last = added.amount;
        }
    }
    last == 100
}

#[test]
fn a_missing_pass_keeps_the_state_in(rt: HostRuntime) -> Result<(), Fail> {
    let alloc = rt.alloc();
    let mut few = Vec::with_capacity(alloc, 2)?;
    let (door, mut first) = Turnstile::new(alloc, Counter::new(alloc), 2)
        .ok()
        .ok_or("memory")?;
    assert!(rt; add(&rt, &door, &mut first, 3, 4));
    let second = door.split(&mut first);
    few.push_reserved(second);
    let Err(back) = door.close(few) else {
        panic!(rt; "one pass is missing")
    };
    let mut all = back.passes;
    all.push_reserved(first);
    let counter = back.turnstile.close(all).ok().ok_or("all passes")?;
    assert_eq!(rt; counter.history(), [Added { by: 3, amount: 4 }].as_slice());
    Ok(())
}
