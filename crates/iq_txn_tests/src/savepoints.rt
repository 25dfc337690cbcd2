//! Savepoints, of which the newest of a name counts.
use crate::checks::same;
use iq_base::Name;
use iq_root::Addresses;
use iq_txn::{Savepoints, Txn};
use std::alloc::Global;
use std::test::Fail;

/// What happens to the savepoints of a transaction.
#[derive(Clone, Copy)]
enum Step {
    /// One comes, of a name, while the transaction's table has this head.
    Push(&'static str, u32),
    KeepFrom(&'static str),
    DropNewest,
}

/// What there is after a step: how many savepoints, the head that stood at the newest or 0, and whether one is named b.
type There = (usize, u32, bool);

const STEPS: [(Step, There); 8] = [
    (Step::Push("a", 4), (1, 4, false)),
    (Step::Push("b", 5), (2, 5, true)),
    (Step::Push("a", 6), (3, 6, true)),
    (Step::Push("c", 7), (4, 7, true)),
    (Step::KeepFrom("a"), (3, 6, true)),
    (Step::KeepFrom("b"), (2, 5, true)),
    (Step::DropNewest, (1, 4, false)),
    (Step::KeepFrom("c"), (0, 0, false)),
];

fn push(alloc: Global, saves: &mut Savepoints, text: &str, head: u32) {
    let mut heads = Addresses::new();
    heads.push(head);
    let mark = Txn::begun(alloc, heads).mark();
    if let Some(name) = Name::of(text) {
        if saves.len() < 16 {
            saves.push(&name, mark);
        }
    }
}

fn keep_from(saves: &mut Savepoints, text: &str) {
    if let Some(name) = Name::of(text) {
        saves.keep_from(&name);
    }
}

fn drop_newest(saves: &mut Savepoints) {
    if saves.len() > 0 {
        saves.drop_newest();
    }
}

fn has(saves: &Savepoints, text: &str) -> bool {
    match Name::of(text) {
        None => false,
        Some(name) => saves.has(&name),
    }
}

/// The head that stood at the newest savepoint, or 0.
fn newest(saves: &Savepoints) -> u32 {
    match saves.newest() {
        None => 0,
        Some(mark) => mark.heads.as_slice().first().copied().unwrap_or(0),
    }
}

#[test]
fn the_newest_savepoint_of_a_name_is_the_one(rt: HostRuntime) -> Result<(), Fail> {
    let mut saves = Savepoints::none();
    for (row, (step, there)) in STEPS.iter().enumerate() {
        match step {
            Step::Push(name, head) => push(rt.alloc(), &mut saves, name, *head),
            Step::KeepFrom(name) => keep_from(&mut saves, name),
            Step::DropNewest => drop_newest(&mut saves),
        }
        let found = (saves.len(), newest(&saves), has(&saves, "b"));
        same(&rt, &found, there, row);
    }
    Ok(())
}
