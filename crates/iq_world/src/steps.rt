//! What each step changes, one function a step. Each is called only where its step is possible.
ghost use Rattle.std.specs.Prelude.{◌≡◌, ◌==◌, ◌<◌, ◌≤◌, ◌+◌, ◌^◌, length, take, drop, IfOk, true};
ghost use Rattle.iq_world.specs.declared.worlds.WorldStep.TheVariants.{Commit};
ghost use Rattle.iq_world.specs.World.{node_at, latest_of, run_place, run_of, report_place, report_of};
ghost use Rattle.iq_world.specs.Steps.{begun, reserving, taking, backed, ended_with, committed, synced, applied, report_sent, report_lost, report_taken, node_restarted, node_excluded, node_included};

use crate::lists::{put_all, without};
use crate::parts::{
    left_home, moved, sent_home, with_private, with_reserved, with_taken, without_run,
};
use crate::reclaim::cleared;
pub use crate::reclaim::reclaimed;
use crate::worlds::{Blocks, Reach, Report, World, WorldRun};
use iq_base::{Listed, NoMemory};
use std::alloc::Global;

/// A session runs at its node's position, with no private blocks.
pub fn begun(alloc: Global, mut world: World, session: u32, node: u32) -> Result<World, NoMemory>
    ensures { IfOk result (λ w. w ≡ begun world session node) }
{
    let run = WorldRun {
        session,
        node,
        snapshot: world.position(node),
        private: Listed::new(alloc),
    };
    world.runs.push(run)?;
    Ok(world)
}

/// The first numbers of a list, at most so many, and the others.
#[tactic(auto, using(std::proofs::lemmas::List::take_min, std::proofs::lemmas::List::drop_min))]
fn parted(alloc: Global, numbers: &[u32], most: usize) -> Result<(Vec<u32>, Vec<u32>), NoMemory>
    ensures { IfOk result (λ parts. (parts.0.items ≡ take most numbers.now) × (parts.1.items ≡ drop most numbers.now)) }
{
    let (first, others) = numbers.split_at(most.min(numbers.len()));
    let first = Vec::from_slice(alloc, first)?;
    Ok((first, Vec::from_slice(alloc, others)?))
}

/// The least 32 free blocks, or all, are reserved.
pub fn reserving(alloc: Global, mut world: World, node: u32) -> Result<World, NoMemory>
    requires { node < length world.nodes }
    ensures { IfOk result (λ w. w ≡ reserving world node) }
{
    let mut free = Vec::new(alloc);
    put_all(&mut free, world.free.as_slice())?;
    let (least, rest) = parted(alloc, free.as_slice(), 32)?;
    world.free = Listed::from_vec(rest);
    Ok(with_reserved(world, node, least))
}

/// A block from home is the last private block.
pub fn taking(alloc: Global, world: World, session: u32, block: u32) -> Result<World, NoMemory>
    requires runs { run_place world session < length world.runs }
    requires known { (run_of world session).node < length world.nodes }
    ensures { IfOk result (λ w. w ≡ taking world session block) }
{
    let run = world.run(session);
    let node = run.node;
    let mut private = Vec::from_slice(alloc, run.private.as_slice())?;
    private.push(block)?;
    let world = left_home(alloc, world, node, block)?;
    Ok(with_private(world, session, private))
}

/// The private blocks past the first ones go home.
pub fn backed(alloc: Global, world: World, session: u32, kept: u32) -> Result<World, NoMemory>
    requires runs { run_place world session < length world.runs }
    requires known { (run_of world session).node < length world.nodes }
    requires kept { kept ≤ length (run_of world session).private }
    ensures { IfOk result (λ w. w ≡ backed world session kept) }
{
    let run = world.run(session);
    let node = run.node;
    let (first, others) = run.private.as_slice().split_at(kept as usize);
    let first = Vec::from_slice(alloc, first)?;
    let others = Vec::from_slice(alloc, others)?;
    sent_home(
        alloc,
        with_private(world, session, first),
        node,
        others.as_slice(),
    )
}

/// A session's run ends, and some of its private blocks go home.
fn ended_with(alloc: Global, world: World, session: u32, blocks: &[u32]) -> Result<World, NoMemory>
    requires runs { run_place world session < length world.runs }
    requires known { (run_of world session).node < length world.nodes }
    ensures { IfOk result (λ w. w ≡ ended_with world session blocks.now) }
{
    let node = world.run(session).node;
    sent_home(alloc, without_run(world, session), node, blocks)
}

/// A session's run ends, and its private blocks go home.
pub fn ended(alloc: Global, world: World, session: u32) -> Result<World, NoMemory>
    requires runs { run_place world session < length world.runs }
    requires known { (run_of world session).node < length world.nodes }
    ensures { IfOk result (λ w. w ≡ ended_with world session (run_of world session).private) }
{
    let private = Vec::from_slice(alloc, world.run(session).private.as_slice())?;
    ended_with(alloc, world, session, private.as_slice())
}

/// A new commit reaches these blocks, and the coordinator and the committing node are at it.
pub fn committed(
    alloc: Global,
    world: World,
    session: u32,
    blocks: &[u32],
) -> Result<World, NoMemory>
    requires runs { run_place world session < length world.runs }
    requires known { (run_of world session).node < length world.nodes }
    requires room { latest_of world + 1 < 2 ^ 64 }
    ensures { IfOk result (λ w. w ≡ committed world session blocks.now) }
{
    let commit = world.latest() + 1;
    let node = world.run(session).node;
    let others = without(alloc, world.run(session).private.as_slice(), blocks)?;
    let reach = Reach {
        commit,
        blocks: Listed::from_vec(Vec::from_slice(alloc, blocks)?),
    };
    let world = ended_with(alloc, world, session, others.as_slice())?;
    let mut world = moved(moved(world, node, commit), 0, commit);
    world.reach.push(reach)?;
    Ok(world)
}

/// The node is at the latest commit.
pub fn synced(world: World, node: u32) -> World
    requires { node < length world.nodes }
    ensures { result ≡ synced world node }
{
    let latest = world.latest();
    moved(world, node, latest)
}

/// The node is at the next commit.
pub fn applied(world: World, node: u32) -> World
    requires known { node < length world.nodes }
    requires room { (node_at world node).position < latest_of world }
    ensures { result ≡ applied world node }
{
    let latest = world.latest();
    let position = world.position(node);
    prove!(position < latest);
    moved(world, node, position + 1)
}

/// A report of the node's floor is in the bag under the next number.
pub fn report_sent(mut world: World, node: u32) -> Result<World, NoMemory>
    requires { world.next + 1 < 2 ^ 32 }
    ensures { IfOk result (λ w. w ≡ report_sent world node) }
{
    let report = Report {
        number: world.next,
        node,
        floor: world.floor(node),
    };
    world.bag.push(report)?;
    world.next += 1;
    Ok(world)
}

/// A report isn't in the bag.
pub fn report_lost(mut world: World, number: u32) -> World
    requires { report_place world number < length world.bag }
    ensures { result ≡ report_lost world number }
{
    let place = world.report_place(number);
    let mut bag = world.bag.into_vec();
    bag.remove(place);
    world.bag = Listed::from_vec(bag);
    world
}

/// The node of a report has its taken floor raised, and what was dropped up to the horizon is free.
pub fn report_taken(alloc: Global, world: World, number: u32) -> Result<World, NoMemory>
    requires sent { report_place world number < length world.bag }
    requires known { (report_of world number).node < length world.nodes }
    ensures { IfOk result (λ w. w ≡ report_taken world number) }
{
    let report = world.report(number);
    reclaimed(alloc, with_taken(world, report.node, report.floor))
}

/// The node is cleared, its incarnation is one more, and it is at the latest commit.
pub fn node_restarted(alloc: Global, world: World, node: u32) -> Result<World, NoMemory>
    requires known { node < length world.nodes }
    requires room { (node_at world node).incarnation + 1 < 2 ^ 32 }
    ensures { IfOk result (λ w. w ≡ node_restarted world node) }
{
    let latest = world.latest();
    let mut world = cleared(alloc, world, node)?;
    let mut nodes = world.nodes.into_vec();
    let at = &mut nodes[node as usize];
    at.position = latest;
    at.incarnation += 1;
    at.reserved = Listed::new(alloc);
    world.nodes = Listed::from_vec(nodes);
    Ok(world)
}

/// The node is cleared, its incarnation is one more, and it is excluded where it stands.
pub fn node_excluded(alloc: Global, world: World, node: u32) -> Result<World, NoMemory>
    requires known { node < length world.nodes }
    requires room { (node_at world node).incarnation + 1 < 2 ^ 32 }
    ensures { IfOk result (λ w. w ≡ node_excluded world node) }
{
    let mut world = cleared(alloc, world, node)?;
    let mut nodes = world.nodes.into_vec();
    let at = &mut nodes[node as usize];
    at.incarnation += 1;
    at.excluded = true;
    at.reserved = Listed::new(alloc);
    world.nodes = Listed::from_vec(nodes);
    Ok(world)
}

/// The node isn't excluded, and its position and its taken floor are the latest commit.
pub fn node_included(mut world: World, node: u32) -> World
    requires { node < length world.nodes }
    ensures { result ≡ node_included world node }
{
    let commit = world.latest();
    let mut nodes = world.nodes.into_vec();
    let at = &mut nodes[node as usize];
    at.excluded = false;
    at.taken = commit;
    at.position = commit;
    world.nodes = Listed::from_vec(nodes);
    world
}
