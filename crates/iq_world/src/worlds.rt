//! The world: every block's place, and how far each node, transaction and report has come.
use iq_base::Listed;

/// Numbers of blocks.
pub type Blocks = Listed<u32>;

/// What each kept commit reaches, ascending by commit.
pub type Reaches = Listed<Reach>;

/// The nodes in order of declaration. Node 0 is the coordinator.
pub type WorldNodes = Listed<WorldNode>;

/// The running transactions in order of their begins.
pub type WorldRuns = Listed<WorldRun>;

/// The reports that were sent and not lost, in order of sending.
pub type Bag = Listed<Report>;

/// A commit and the blocks that its tables reach.
#[derive(Debug, Drop)]
pub struct Reach {
    pub commit: u64,
    pub blocks: Blocks,
}

/// A report under its number from 1: the floor that a node had when it sent it.
#[derive(Clone, Copy, Debug, PartialEq, Eq)]
pub struct Report {
    pub number: u32,
    pub node: u32,
    pub floor: u64,
}

/// A node: the commit that its new transactions see, the greatest floor of it that was taken, how often it was restarted
/// or excluded and one more, whether it is excluded, and the blocks that it has reserved.
#[derive(Debug, Drop)]
pub struct WorldNode {
    pub position: u64,
    pub taken: u64,
    pub incarnation: u32,
    pub excluded: bool,
    pub reserved: Blocks,
}

/// A running transaction: its session and that session's node, the commit that it sees, and the blocks that it has taken,
/// in order of taking.
#[derive(Debug, Drop)]
pub struct WorldRun {
    pub session: u32,
    pub node: u32,
    pub snapshot: u64,
    pub private: Blocks,
}

/// A store of `count` blocks and all who use it. Blocks 0 to 3 are the root blocks. `next` is the number of the next
/// report, and `base` the greatest horizon up to which dropped blocks were freed.
#[derive(Debug, Drop)]
pub struct World {
    pub count: u32,
    pub free: Blocks,
    pub reach: Reaches,
    pub nodes: WorldNodes,
    pub runs: WorldRuns,
    pub bag: Bag,
    pub next: u32,
    pub base: u64,
}

/// What can happen to a world. A session is named by its place, a node by its place among the nodes, a report by its
/// number.
#[derive(Debug, Drop)]
pub enum WorldStep {
    Begin { session: u32, node: u32 },
    Reserve { node: u32 },
    Take { session: u32, block: u32 },
    Back { session: u32, kept: u32 },
    Commit { session: u32, reach: Blocks },
    End { session: u32 },
    Sync { node: u32 },
    Apply { node: u32 },
    Send { node: u32 },
    Lose { number: u32 },
    TakeReport { number: u32 },
    Own,
    Restart { node: u32 },
    Exclude { node: u32 },
    Include { node: u32 },
}
