//! The parts of which the changes of a world are made.
ghost use Rattle.std.specs.Prelude.{◌≡◌, ◌==◌, ◌<◌, nat_le, length, take, drop, IfOk};
ghost use Rattle.iq_world.specs.World.{run_place};
ghost use Rattle.iq_world.specs.Steps.{with_reserved, moved, with_taken, freed, home, sent_home, left_home, with_private, without_run};

use crate::lists::{less, put_all};
use crate::worlds::World;
use iq_base::{Listed, NoMemory};
use std::alloc::Global;

impl World {
    /// The blocks at home of a node's transactions: the free list, or the node's reservation.
    pub fn home(&self, node: u32) -> &[u32]
        ensures { result.now ≡ home self.now node }
    {
        if node == 0 {
            return self.free.as_slice();
        }
        if self.is_node(node) {
            return self.node(node).reserved.as_slice();
        }
        &[]
    }
}

/// A node at another position.
pub fn moved(mut world: World, node: u32, commit: u64) -> World
    requires { node < length world.nodes }
    ensures { result ≡ moved node commit world }
{
    let mut nodes = world.nodes.into_vec();
    let at = &mut nodes[node as usize];
    at.position = commit;
    world.nodes = Listed::from_vec(nodes);
    world
}

/// A node with another reservation.
pub fn with_reserved(mut world: World, node: u32, blocks: Vec<u32>) -> World
    requires { node < length world.nodes }
    ensures { result ≡ with_reserved node blocks.items world }
{
    let mut nodes = world.nodes.into_vec();
    let at = &mut nodes[node as usize];
    at.reserved = Listed::from_vec(blocks);
    world.nodes = Listed::from_vec(nodes);
    world
}

/// A node whose taken floor is at least a floor.
pub fn with_taken(mut world: World, node: u32, floor: u64) -> World
    requires { node < length world.nodes }
    ensures { result ≡ with_taken node floor world }
{
    let mut nodes = world.nodes.into_vec();
    let at = &mut nodes[node as usize];
    at.taken = at.taken.max(floor);
    world.nodes = Listed::from_vec(nodes);
    world
}

/// More blocks on the free list.
pub fn freed(mut world: World, blocks: &[u32]) -> Result<World, NoMemory>
    ensures { IfOk result (λ w. w ≡ freed blocks.now world) }
{
    let mut free = world.free.into_vec();
    put_all(&mut free, blocks)?;
    world.free = Listed::from_vec(free);
    Ok(world)
}

/// A session's run with other private blocks.
pub fn with_private(mut world: World, session: u32, blocks: Vec<u32>) -> World
    requires { run_place world session < length world.runs }
    ensures { result ≡ with_private session blocks.items world }
{
    let place = world.run_place(session);
    let mut runs = world.runs.into_vec();
    let at = &mut runs[place];
    at.private = Listed::from_vec(blocks);
    world.runs = Listed::from_vec(runs);
    world
}

/// A world without a session's run.
pub fn without_run(mut world: World, session: u32) -> World
    requires { run_place world session < length world.runs }
    ensures { result ≡ without_run session world }
{
    let place = world.run_place(session);
    let mut runs = world.runs.into_vec();
    runs.remove(place);
    world.runs = Listed::from_vec(runs);
    world
}

/// More blocks at home of a node's transactions.
pub fn sent_home(alloc: Global, world: World, node: u32, blocks: &[u32]) -> Result<World, NoMemory>
    requires { node < length world.nodes }
    ensures { IfOk result (λ w. w ≡ sent_home node blocks.now world) }
{
    if node == 0 {
        return freed(world, blocks);
    }
    let mut all = Vec::from_slice(alloc, world.node(node).reserved.as_slice())?;
    put_all(&mut all, blocks)?;
    Ok(with_reserved(world, node, all))
}

/// One block less at home of a node's transactions.
pub fn left_home(alloc: Global, mut world: World, node: u32, block: u32) -> Result<World, NoMemory>
    requires { node < length world.nodes }
    ensures { IfOk result (λ w. w ≡ left_home node block world) }
{
    if node == 0 {
        let mut free = world.free.into_vec();
        less(&mut free, block);
        world.free = Listed::from_vec(free);
        return Ok(world);
    }
    let mut left = Vec::from_slice(alloc, world.node(node).reserved.as_slice())?;
    less(&mut left, block);
    Ok(with_reserved(world, node, left))
}
