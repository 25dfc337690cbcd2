//! Versions that are kept, and blocks that a horizon frees.
use crate::checks::{same, same_text};
use iq_base::{Listed, Name, NoMemory};
use iq_free_list::FreeList;
use iq_roomed::Roomed;
use iq_root::Addresses;
use iq_version_log::{Version, VersionLog};
use std::alloc::{AllocError, Global};
use std::test::Fail;

/// What a log is given.
#[derive(Clone, Copy)]
enum Step {
    /// A commit with this head of its one table dropped these blocks.
    Push(u32, [u32; 2]),
    Reclaim(u64),
}

/// Steps after an opening with the head 4, and what is there after each: the commits that are kept with their heads, and the blocks
/// that it freed.
const STEPS: [(Step, &str, &str); 5] = [
    (Step::Push(5, [11, 12]), "0: 4 1: 5", ""),
    (Step::Push(6, [21, 22]), "0: 4 1: 5 2: 6", ""),
    (Step::Push(7, [15, 14]), "0: 4 1: 5 2: 6 3: 7", ""),
    (Step::Reclaim(2), "2: 6 3: 7", "11 12 21 22"),
    (Step::Reclaim(3), "3: 7", "14 15"),
];

fn names(alloc: Global) -> Result<Listed<Name>, NoMemory> {
    let mut names = Listed::new(alloc);
    if let Some(name) = Name::of("t") {
        names.push(name)?;
    }
    Ok(names)
}

/// The head of the one table of a version.
fn of_one(head: u32) -> Addresses {
    let mut heads = Addresses::new();
    heads.push(head);
    heads
}

fn blocks(alloc: Global, dropped: &[u32]) -> Result<Roomed<u32>, NoMemory> {
    let mut list = Roomed::with_room(alloc, dropped.len())?;
    for block in dropped {
        if list.room() > 0 {
            list.push(*block);
        }
    }
    Ok(list)
}

/// A log with the head 4, and room for three versions more.
fn opened(alloc: Global) -> Result<VersionLog, NoMemory> {
    let mut log = VersionLog::opened(alloc, names(alloc)?, of_one(4))?;
    log.make_room(3)?;
    Ok(log)
}

fn version(alloc: Global, head: u32, dropped: &[u32]) -> Result<Version, NoMemory> {
    Ok(Version {
        names: names(alloc)?,
        heads: of_one(head),
        dropped: blocks(alloc, dropped)?,
    })
}

fn push(log: &mut VersionLog, version: Version) {
    if log.room() > 0 && log.latest() < 100 {
        log.push(version);
    }
}

fn reclaim(log: &mut VersionLog, free: &mut FreeList, horizon: u64) {
    let is_kept = log.base() <= horizon && horizon <= log.latest();
    if is_kept && log.is_within(free.count()) {
        log.reclaim(horizon, free);
    }
}

/// The head of the table of a commit that is kept, or 0.
fn head(log: &VersionLog, commit: u64) -> u32 {
    if log.base() <= commit && commit <= log.latest() {
        let heads = &log.version(commit).heads;
        return heads.as_slice().first().copied().unwrap_or(0);
    }
    0
}

fn kept(alloc: Global, log: &VersionLog) -> Result<String, AllocError> {
    let mut text = String::new(alloc);
    let mut before = "";
    for commit in 0..100 {
        let head = head(log, commit);
        if head > 0 {
            let one = format!(in alloc; "{before}{commit}: {head}")?;
            text.push_str(one.as_str())?;
            before = " ";
        }
    }
    Ok(text)
}

/// Takes all free blocks.
fn freed(alloc: Global, free: &mut FreeList) -> Result<String, AllocError> {
    let mut text = String::new(alloc);
    let mut before = "";
    for _ in 0..30 {
        if let Some(block) = free.take() {
            let one = format!(in alloc; "{before}{block}")?;
            text.push_str(one.as_str())?;
            before = " ";
        }
    }
    Ok(text)
}

#[test]
fn a_horizon_frees_what_was_dropped_up_to_it(rt: HostRuntime) -> Result<(), Fail> {
    let alloc = rt.alloc();
    let mut free = FreeList::none(alloc, 30)?;
    let mut log = opened(alloc)?;
    for (row, (step, versions, blocks)) in STEPS.iter().enumerate() {
        match step {
            Step::Push(head, dropped) => push(&mut log, version(alloc, *head, dropped)?),
            Step::Reclaim(horizon) => reclaim(&mut log, &mut free, *horizon),
        }
        let found = kept(alloc, &log)?;
        same_text(&rt, found.as_str(), versions, row);
        let found = freed(alloc, &mut free)?;
        same_text(&rt, found.as_str(), blocks, row);
    }
    same(&rt, &(log.base(), log.latest()), &(3, 3), 5);
    Ok(())
}
