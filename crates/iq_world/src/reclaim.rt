//! Giving blocks back: those of a node that is cleared, and those dropped up to the horizon.
ghost use Rattle.std.specs.Prelude.{◌≡◌, ◌<◌, nat_le, length, IfOk, not};
ghost use Rattle.std.specs.List.{filter, flat_map};
ghost use Rattle.iq_world.specs.declared.worlds.WorldRun.{WorldRun};
ghost use Rattle.iq_world.specs.declared.worlds.Reach.{Reach};
ghost use Rattle.iq_world.specs.World.{runs_on};
ghost use Rattle.iq_world.specs.Steps.{held_by, cleared, reclaimed};

use crate::parts::freed;
use crate::space::dropped_between;
use crate::worlds::{Reach, World, WorldRun};
use iq_base::{Listed, NoMemory};
use std::alloc::Global;

/// The private blocks of a node's runs, run by run.
fn private_on(alloc: Global, runs: &[WorldRun], node: u32) -> Result<Vec<u32>, NoMemory>
    ensures { IfOk result (λ v. v.items ≡ flat_map (λ (r : WorldRun). r.private) (filter (runs_on node) runs.now)) }
{
    let mut all = Vec::new(alloc);
    for run in runs {
        if run.node == node {
            all.extend_from_slice(run.private.as_slice())?;
        }
    }
    Ok(all)
}

/// The runs that aren't on a node.
fn runs_beside(mut runs: Vec<WorldRun>, node: u32) -> Vec<WorldRun>
    ensures { result.items ≡ filter (λ (r : WorldRun). not (runs_on node r)) runs.items }
{
    runs.retain(|run| run.node != node);
    runs
}

/// The reaches of a commit and those after it.
fn kept_from(mut kept: Vec<Reach>, commit: u64) -> Vec<Reach>
    ensures { result.items ≡ filter (λ (r : Reach). nat_le commit r.commit) kept.items }
{
    kept.retain(|reach| commit <= reach.commit);
    kept
}

/// The blocks in a node's reservation, and after them its runs' private ones.
fn held_by(alloc: Global, world: &World, node: u32) -> Result<Vec<u32>, NoMemory>
    requires { node < length world.now.nodes }
    ensures { IfOk result (λ v. v.items ≡ held_by world.now node) }
{
    let mut blocks = Vec::from_slice(alloc, world.node(node).reserved.as_slice())?;
    let private = private_on(alloc, world.runs.as_slice(), node)?;
    blocks.extend_from_slice(private.as_slice())?;
    Ok(blocks)
}

/// The runs of a node end, and their blocks and the node's reservation are free.
pub fn cleared(alloc: Global, mut world: World, node: u32) -> Result<World, NoMemory>
    requires { node < length world.nodes }
    ensures { IfOk result (λ w. w ≡ cleared node world) }
{
    let blocks = held_by(alloc, &world, node)?;
    world.runs = Listed::from_vec(runs_beside(world.runs.into_vec(), node));
    freed(world, blocks.as_slice())
}

/// A world without the commits before the horizon, the blocks dropped up to it being free.
pub fn reclaimed(alloc: Global, mut world: World) -> Result<World, NoMemory>
    ensures { IfOk result (λ w. w ≡ reclaimed world) }
{
    let base = world.base.max(world.horizon());
    let blocks = dropped_between(alloc, world.reach.as_slice(), world.base, base)?;
    world.reach = Listed::from_vec(kept_from(world.reach.into_vec(), base));
    world.base = base;
    freed(world, blocks.as_slice())
}
