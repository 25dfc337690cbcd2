//! The world at the opening of a store.
ghost use Rattle.std.specs.Prelude.{◌≡◌, ◌-◌, IfOk, replicate};
ghost use Rattle.std.specs.List.{range_with_len};
ghost use Rattle.iq_world.specs.World.{without};
ghost use Rattle.iq_world.specs.Opening.{fresh_node, opening_world, CanOpen};
ghost use Rattle.iq_world.specs.Sound.{IsSound};

use crate::lists::holds;
use crate::worlds::{Reach, World, WorldNode};
use iq_base::{Listed, NoMemory};
use std::alloc::Global;

/// The blocks past the root blocks that aren't reached, ascending.
fn unreached(alloc: Global, count: u32, reached: &[u32]) -> Result<Vec<u32>, NoMemory>
    ensures { IfOk result (λ v. v.items ≡ without (range_with_len 4 (count - 4)) reached.now) }
{
    let mut free = Vec::new(alloc);
    for block in 4..count {
        if holds(reached, block) {
            continue;
        }
        free.push(block)?;
    }
    Ok(free)
}

/// A node at the opening: at commit 0, in its first incarnation.
fn fresh_node(alloc: Global) -> WorldNode
    ensures { result ≡ fresh_node }
{
    WorldNode {
        position: 0,
        taken: 0,
        incarnation: 1,
        excluded: false,
        reserved: Listed::new(alloc),
    }
}

/// So many nodes at the opening.
fn fresh_nodes(alloc: Global, nodes: u32) -> Result<Vec<WorldNode>, NoMemory>
    ensures { IfOk result (λ v. v.items ≡ replicate nodes fresh_node) }
{
    let mut all = Vec::new(alloc);
    for _node in 0..nodes {
        all.push(fresh_node(alloc))?;
    }
    Ok(all)
}

/// The world at the opening of a store.
fn opened(alloc: Global, count: u32, nodes: u32, reached: &[u32]) -> Result<World, NoMemory>
    ensures { IfOk result (λ w. w ≡ opening_world count nodes reached.now) }
{
    let free = unreached(alloc, count, reached)?;
    let nodes = fresh_nodes(alloc, nodes)?;
    let blocks = Vec::from_slice(alloc, reached)?;
    let mut reach = Listed::new(alloc);
    reach.push(Reach {
        commit: 0,
        blocks: Listed::from_vec(blocks),
    })?;
    Ok(World {
        count,
        free: Listed::from_vec(free),
        reach,
        nodes: Listed::from_vec(nodes),
        runs: Listed::new(alloc),
        bag: Listed::new(alloc),
        next: 1,
        base: 0,
    })
}

/// The world at the opening of a store of `count` blocks with these nodes, of which node 0 is the coordinator: commit 0
/// reaches the given blocks, and all others but the root blocks are free.
pub fn opening(alloc: Global, count: u32, nodes: u32, reached: &[u32]) -> Result<World, NoMemory>
    requires { CanOpen count nodes reached.now }
    ensures world { IfOk result (λ w. w ≡ opening_world count nodes reached.now) }
    ensures sound { IfOk result (λ w. IsSound w) }
{
    let world = opened(alloc, count, nodes, reached)?;
    Ok(world)
}
