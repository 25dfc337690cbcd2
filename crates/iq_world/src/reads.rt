//! What a world's nodes, runs and reports say, read by their names.
ghost use Rattle.std.specs.Prelude.{◌≡◌, ◌==◌, ◌<◌, length, slice_index_or};
ghost use Rattle.std.specs.List.{position_or_len};
ghost use Rattle.iq_world.specs.World.{node_at, is_node, is_included, is_secondary, latest_of, run_place, is_running, run_of, report_place, is_sent, report_of};

use crate::worlds::{Report, World, WorldNode, WorldRun};

impl World {
    /// Whether the world has the node.
    pub fn is_node(&self, node: u32) -> bool
        ensures { result ≡ is_node self.now node }
    {
        (node as usize) < self.nodes.len()
    }

    /// The node at a place that has one.
    pub fn node(&self, node: u32) -> &WorldNode
        requires { node < length self.now.nodes }
        ensures { result.now ≡ node_at self.now node }
    {
        &self.nodes.as_slice()[node as usize]
    }

    /// The latest commit, which is the coordinator's position; 0 in a world without nodes.
    pub fn latest(&self) -> u64
        ensures { result ≡ latest_of self.now }
    {
        match self.nodes.as_slice() {
            [coordinator, ..] => coordinator.position,
            [] => 0,
        }
    }

    /// Whether the world has the node and it isn't excluded.
    pub fn is_included(&self, node: u32) -> bool
        ensures { result ≡ is_included self.now node }
    {
        self.is_node(node) && !self.node(node).excluded
    }

    /// Whether it is a node beside the coordinator that isn't excluded.
    pub fn is_secondary(&self, node: u32) -> bool
        ensures { result ≡ is_secondary self.now node }
    {
        0 < node && self.is_included(node)
    }

    /// The place of a session's run, or the number of runs where it doesn't run.
    pub fn run_place(&self, session: u32) -> usize
        ensures { result ≡ run_place self.now session }
    {
        let runs = self.runs.as_slice();
        for (at, run) in runs.iter().enumerate() {
            if run.session == session {
                return at;
            }
        }
        runs.len()
    }

    /// Whether a session runs.
    pub fn is_running(&self, session: u32) -> bool
        ensures { result ≡ is_running self.now session }
    {
        self.run_place(session) < self.runs.len()
    }

    /// The run of a session that runs.
    pub fn run(&self, session: u32) -> &WorldRun
        requires { run_place self.now session < length self.now.runs }
        ensures { result.now ≡ run_of self.now session }
    {
        &self.runs.as_slice()[self.run_place(session)]
    }

    /// The place of a report in the bag, or the number of reports where it isn't there.
    pub fn report_place(&self, number: u32) -> usize
        ensures { result ≡ report_place self.now number }
    {
        let bag = self.bag.as_slice();
        for (at, report) in bag.iter().enumerate() {
            if report.number == number {
                return at;
            }
        }
        bag.len()
    }

    /// Whether a report is in the bag.
    pub fn is_sent(&self, number: u32) -> bool
        ensures { result ≡ is_sent self.now number }
    {
        self.report_place(number) < self.bag.len()
    }

    /// A report that is in the bag.
    pub fn report(&self, number: u32) -> Report
        requires { report_place self.now number < length self.now.bag }
        ensures { result ≡ report_of self.now number }
    {
        self.bag.as_slice()[self.report_place(number)]
    }
}
