//! Floors, the horizon, and what VERSIONS tells.
ghost use Rattle.std.specs.Prelude.{◌≡◌, IfOk};
ghost use Rattle.iq_replay.specs.Nodes.{snapshot_on, snapshots_on, floor_of, taken_of, bounds_from};
ghost use Rattle.iq_replay.specs.Said.{versions_from, versions_of};
ghost use Rattle.iq_floors.specs.Floors.{horizon};
ghost use Rattle.iq_plain_state.specs.Versions.{version_at};

use crate::state::PlainState;
use iq_base::{Listed, NoMemory};
use iq_floors::{floor, horizon};
use iq_model::{NodeVersion, Versions};
use iq_plain_sessions::{PlainNode, PlainSession};
use std::alloc::Global;

impl<'a> PlainState<'a> {
    /// The snapshots of the transactions that run on a node.
    fn snapshots_on(&self, alloc: Global, n: u32) -> Result<Vec<u64>, NoMemory>
        ensures { IfOk result (λ found. found.items ≡ snapshots_on self.now n) }
    {
        let mut found = Vec::new(alloc);
        for session in &self.sessions {
            if let Some(snapshot) = snapshot_on(n, session) {
                found.push(snapshot)?;
            }
        }
        Ok(found)
    }

    /// The floor of a node.
    pub fn floor_of(&self, alloc: Global, n: u32, node: &PlainNode) -> Result<u64, NoMemory>
        ensures { IfOk result (λ low. low ≡ floor_of self.now n node.now) }
    {
        let snapshots = self.snapshots_on(alloc, n)?;
        Ok(floor(node.position(self.latest), snapshots.as_slice()))
    }

    /// The taken floor of a node, which is its floor for the coordinator.
    fn taken_of(&self, alloc: Global, n: u32, node: &PlainNode) -> Result<u64, NoMemory>
        ensures { IfOk result (λ low. low ≡ taken_of self.now n node.now) }
    {
        if node.is_coordinator() {
            return self.floor_of(alloc, n, node);
        }
        Ok(node.taken())
    }

    /// What bounds the horizon, for nodes that may stand in place of the state's.
    fn bounds(&self, alloc: Global, nodes: &[PlainNode]) -> Result<Vec<u64>, NoMemory>
        ensures { IfOk result (λ found. found.items ≡ bounds_from self.now 0 nodes.now) }
    {
        let mut found = Vec::new(alloc);
        for (place, node) in nodes.iter().enumerate() {
            let Ok(n) = u32::try_from(place) else {
                return Err(NoMemory);
            };
            if node.is_excluded() {
                continue;
            }
            found.push(self.taken_of(alloc, n, node)?)?;
        }
        Ok(found)
    }

    /// The horizon, for nodes that may stand in place of the state's.
    pub fn horizon_over(&self, alloc: Global, nodes: &[PlainNode]) -> Result<u64, NoMemory>
        ensures { IfOk result (λ h. h ≡ horizon self.now.latest (bounds_from self.now 0 nodes.now)) }
    {
        let bounds = self.bounds(alloc, nodes)?;
        Ok(horizon(self.latest, bounds.as_slice()))
    }

    /// What VERSIONS tells of the nodes.
    fn node_versions(&self, alloc: Global) -> Result<Listed<NodeVersion>, NoMemory>
        ensures { IfOk result (λ told. told ≡ versions_from self.now 0 self.now.nodes) }
    {
        let mut told = Listed::new(alloc);
        for (place, node) in self.nodes.iter().enumerate() {
            let Ok(n) = u32::try_from(place) else {
                return Err(NoMemory);
            };
            told.push(self.version_of(alloc, n, node)?)?;
        }
        Ok(told)
    }

    /// What VERSIONS tells of a node.
    fn version_of(&self, alloc: Global, n: u32, node: &PlainNode) -> Result<NodeVersion, NoMemory>
        ensures { IfOk result (λ told. told ≡ version_at self.now n node.now) }
    {
        Ok(NodeVersion {
            node: n,
            position: node.position(self.latest),
            floor: self.floor_of(alloc, n, node)?,
            taken: self.taken_of(alloc, n, node)?,
            incarnation: node.incarnation(),
            excluded: node.is_excluded(),
        })
    }

    /// What VERSIONS tells.
    pub(crate) fn versions(&self, alloc: Global) -> Result<Versions, NoMemory>
        ensures { IfOk result (λ told. told ≡ versions_of self.now) }
    {
        Ok(Versions {
            latest: self.latest,
            horizon: self.base,
            nodes: self.node_versions(alloc)?,
        })
    }
}

/// The snapshot of a session's running transaction, where it is on a node.
fn snapshot_on(n: u32, session: &PlainSession) -> Option<u64>
    ensures { result ≡ snapshot_on n session.now }
{
    if session.node() != n {
        return None;
    }
    match session.run() {
        None => None,
        Some(run) => Some(run.snapshot()),
    }
}
