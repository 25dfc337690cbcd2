//! Blocks that a transaction takes, and that go home again.
use crate::checks::{same, same_list, same_text};
use iq_base::NoMemory;
use iq_free_list::FreeList;
use iq_root::Addresses;
use iq_txn::{Mark, Txn};
use std::alloc::{AllocError, Global};
use std::test::Fail;

/// What a transaction is asked.
#[derive(Clone, Copy)]
enum Step {
    Take(usize),
    Mark,
    SetHead(usize, u32),
    Waste(u32),
    Drop(u32),
    /// It goes back to the newest mark.
    Back,
}

/// Steps of a transaction of the heads 4, 6 and 8 over the free blocks 5, 7, 9, 12 and 15, how many blocks come at each, and what it
/// has then: the heads of its tables, and the blocks that are private, wasted and dropped.
const STEPS: [(Step, usize, &str); 7] = [
    (Step::Take(2), 2, "[4, 6, 8] [5, 7] [] []"),
    (Step::Mark, 0, "[4, 6, 8] [5, 7] [] []"),
    (Step::Take(2), 2, "[4, 6, 8] [5, 7, 9, 12] [] []"),
    (Step::SetHead(1, 9), 0, "[4, 9, 8] [5, 7, 9, 12] [] []"),
    (Step::Waste(5), 0, "[4, 9, 8] [5, 7, 9, 12] [5] []"),
    (Step::Drop(6), 0, "[4, 9, 8] [5, 7, 9, 12] [5] [6]"),
    (Step::Back, 0, "[4, 6, 8] [5, 7] [] []"),
];

/// A transaction, the newest mark of it, and the free blocks.
#[derive(Drop)]
struct Running {
    txn: Txn,
    mark: Mark,
    free: FreeList,
}

fn free_blocks(alloc: Global, blocks: &[u32]) -> Result<FreeList, NoMemory> {
    let mut free = FreeList::none(alloc, 20)?;
    for block in blocks {
        if *block < free.count() {
            free.give(*block);
        }
    }
    Ok(free)
}

/// The free blocks, taken one after the other.
fn drained(alloc: Global, free: &mut FreeList) -> Result<Vec<u32>, AllocError> {
    let mut blocks = Vec::new(alloc);
    for _ in 0..20 {
        if let Some(block) = free.take() {
            blocks.push(block)?;
        }
    }
    Ok(blocks)
}

fn heads(blocks: &[u32]) -> Addresses {
    let mut heads = Addresses::new();
    for block in blocks {
        if heads.len() < 64 {
            heads.push(*block);
        }
    }
    heads
}

fn begun(alloc: Global) -> Result<Running, NoMemory> {
    let mut txn = Txn::begun(alloc, heads(&[4, 6, 8]));
    txn.make_room(4, 1, 1)?;
    let mark = txn.mark();
    let free = free_blocks(alloc, &[9, 5, 12, 7, 15])?;
    Ok(Running { txn, mark, free })
}

/// Takes some blocks, and answers how many came.
fn take(txn: &mut Txn, free: &mut FreeList, n: usize) -> Result<usize, NoMemory> {
    txn.make_room(n, 0, 0)?;
    Ok(txn.take_from(free, n))
}

fn set_head(txn: &mut Txn, place: usize, head: u32) {
    if txn.heads().len() > place {
        txn.set_head(place, head);
    }
}

fn waste(txn: &mut Txn, block: u32) -> Result<(), NoMemory> {
    txn.make_room(0, 1, 0)?;
    txn.waste(block);
    Ok(())
}

fn drop_block(txn: &mut Txn, block: u32) -> Result<(), NoMemory> {
    txn.make_room(0, 0, 1)?;
    txn.drop_block(block);
    Ok(())
}

fn back(txn: &mut Txn, mark: &Mark, free: &mut FreeList) {
    if txn.private().iter().all(|block| *block < free.count()) {
        txn.back(mark, free);
    }
}

/// Takes a step, and answers how many blocks came.
fn go(running: &mut Running, step: &Step) -> Result<usize, NoMemory> {
    let Running { txn, mark, free } = running;
    match step {
        Step::Take(n) => return take(txn, free, *n),
        Step::Mark => *mark = txn.mark(),
        Step::SetHead(place, head) => set_head(txn, *place, *head),
        Step::Waste(block) => waste(txn, *block)?,
        Step::Drop(block) => drop_block(txn, *block)?,
        Step::Back => back(txn, mark, free),
    }
    Ok(0)
}

fn has(alloc: Global, txn: &Txn) -> Result<String, AllocError> {
    let heads = txn.heads().as_slice();
    let private = txn.private();
    let (wasted, dropped) = (txn.wasted(), txn.dropped());
    format!(in alloc; "{heads:?} {private:?} {wasted:?} {dropped:?}")
}

#[test]
fn what_was_taken_since_a_mark_goes_home(rt: HostRuntime) -> Result<(), Fail> {
    let alloc = rt.alloc();
    let mut running = begun(alloc)?;
    for (row, (step, blocks, lists)) in STEPS.iter().enumerate() {
        same(&rt, &go(&mut running, step)?, blocks, row);
        let found = has(alloc, &running.txn)?;
        same_text(&rt, found.as_str(), lists, row);
    }
    let left = drained(alloc, &mut running.free)?;
    same_list(&rt, left.as_slice(), &[9, 12, 15]);
    Ok(())
}
