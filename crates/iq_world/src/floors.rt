//! How far back versions are wanted.
ghost use Rattle.std.specs.Prelude.{◌≡◌, ◌==◌, ◌<◌, length, drop};
ghost use Rattle.iq_world.specs.World.{node_at};
ghost use Rattle.iq_world.specs.Floors.{floor_of, horizon_of};

use crate::worlds::{World, WorldNode};

impl World {
    /// A node's position, 0 where the world has no such node.
    pub fn position(&self, node: u32) -> u64
        ensures { result ≡ (node_at self.now node).position }
    {
        if self.is_node(node) {
            self.node(node).position
        } else {
            0
        }
    }

    /// A node's floor: the least of its position and the snapshots of its runs.
    pub fn floor(&self, node: u32) -> u64
        ensures { result ≡ floor_of self.now node }
    {
        let mut low = self.position(node);
        for run in self.runs.as_slice() {
            if run.node == node {
                low = low.min(run.snapshot);
            }
        }
        low
    }

    /// The horizon: the least of the coordinator's floor and the taken floors of the secondaries that aren't excluded.
    pub fn horizon(&self) -> u64
        ensures { result ≡ horizon_of self.now }
    {
        let mut low = self.floor(0);
        for node in secondaries(self.nodes.as_slice()) {
            if node.excluded {
                continue;
            }
            low = low.min(node.taken);
        }
        low
    }
}

/// The nodes but the coordinator.
fn secondaries(nodes: &[WorldNode]) -> &[WorldNode]
    ensures { result.now ≡ drop 1 nodes.now }
{
    match nodes {
        [_, rest @ ..] => rest,
        [] => &[],
    }
}
