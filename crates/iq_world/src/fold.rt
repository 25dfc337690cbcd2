//! Whether a step is possible, the world after it, and the world after all steps.
ghost use Rattle.std.specs.Prelude.{◌≡◌, ℕ, ◌<◌, length, IfOk, true};
ghost use Rattle.iq_world.specs.Steps.{possible, change, after, after_all, can_commit, can_end};
ghost use Rattle.iq_world.specs.Sound.{IsSound};
ghost use Rattle.iq_world.specs.Laws.{EachStep, WaitsSince, IsFreedInTime, KeepsLive};

use crate::lists::{are_distinct, are_from, holds};
use crate::space::reach_of;
use crate::steps;
use crate::worlds::{World, WorldStep};
use iq_base::NoMemory;
use std::alloc::Global;

impl World {
    /// Whether a session's run may end in a commit that reaches these blocks.
    fn can_commit(&self, session: u32, blocks: &[u32]) -> bool
        ensures { result ≡ can_commit self.now session blocks.now }
    {
        self.is_running(session)
            && self.latest() < u64::MAX
            && are_distinct(blocks)
            && are_from(
                blocks,
                reach_of(self.reach.as_slice(), self.latest()),
                self.run(session).private.as_slice(),
            )
    }

    /// Whether a node's incarnation may rise: that of a secondary that isn't excluded.
    fn can_end(&self, node: u32) -> bool
        ensures { result ≡ can_end self.now node }
    {
        self.is_secondary(node) && self.node(node).incarnation < u32::MAX
    }

    /// Whether a step is possible.
    #[tactic(auto, unfolding(crate::specs::Steps::possible))]
    pub fn allows(&self, step: &WorldStep) -> bool
        ensures { result ≡ possible self.now step.now }
    {
        match step {
            WorldStep::Begin { session, node } => {
                !self.is_running(*session) && self.is_included(*node)
            }
            WorldStep::Reserve { node } => {
                self.is_secondary(*node)
                    && self.node(*node).reserved.len() == 0
                    && self.free.len() != 0
            }
            WorldStep::Take { session, block } => {
                self.is_running(*session) && holds(self.home(self.run(*session).node), *block)
            }
            WorldStep::Back { session, kept } => {
                self.is_running(*session) && *kept as usize <= self.run(*session).private.len()
            }
            WorldStep::Commit { session, reach } => self.can_commit(*session, reach.as_slice()),
            WorldStep::End { session } => self.is_running(*session),
            WorldStep::Sync { node } => self.is_included(*node),
            WorldStep::Apply { node } => {
                self.is_included(*node) && self.position(*node) < self.latest()
            }
            WorldStep::Send { node } => self.is_secondary(*node) && self.next < u32::MAX,
            WorldStep::Lose { number } => self.is_sent(*number),
            WorldStep::TakeReport { number } => self.is_sent(*number),
            WorldStep::Own => true,
            WorldStep::Restart { node } => self.can_end(*node),
            WorldStep::Exclude { node } => self.can_end(*node),
            WorldStep::Include { node } => self.is_node(*node) && self.node(*node).excluded,
        }
    }
}

/// What a possible step changes.
#[tactic(auto, unfolding(crate::specs::Steps::possible, crate::specs::Steps::change))]
fn changed(alloc: Global, world: World, step: &WorldStep) -> Result<World, NoMemory>
    requires sound { IsSound world }
    requires possible { possible world step.now ≡ true }
    ensures { IfOk result (λ w. w ≡ change world step.now) }
{
    match step {
        WorldStep::Begin { session, node } => steps::begun(alloc, world, *session, *node),
        WorldStep::Reserve { node } => steps::reserving(alloc, world, *node),
        WorldStep::Take { session, block } => steps::taking(alloc, world, *session, *block),
        WorldStep::Back { session, kept } => steps::backed(alloc, world, *session, *kept),
        WorldStep::Commit { session, reach } => {
            steps::committed(alloc, world, *session, reach.as_slice())
        }
        WorldStep::End { session } => steps::ended(alloc, world, *session),
        WorldStep::Sync { node } => Ok(steps::synced(world, *node)),
        WorldStep::Apply { node } => Ok(steps::applied(world, *node)),
        WorldStep::Send { node } => steps::report_sent(world, *node),
        WorldStep::Lose { number } => Ok(steps::report_lost(world, *number)),
        WorldStep::TakeReport { number } => steps::report_taken(alloc, world, *number),
        WorldStep::Own => steps::reclaimed(alloc, world),
        WorldStep::Restart { node } => steps::node_restarted(alloc, world, *node),
        WorldStep::Exclude { node } => steps::node_excluded(alloc, world, *node),
        WorldStep::Include { node } => Ok(steps::node_included(world, *node)),
    }
}

/// The world after a step, as it was where the step isn't possible.
#[tactic(auto, unfolding(crate::specs::Steps::after))]
pub fn after(alloc: Global, world: World, step: &WorldStep) -> Result<World, NoMemory>
    requires { IsSound world }
    ensures after { IfOk result (λ w. w ≡ after world step.now) }
    ensures sound { IfOk result (λ w. IsSound w) }
{
    if world.allows(step) {
        let next = changed(alloc, world, step)?;
        Ok(next)
    } else {
        Ok(world)
    }
}

/// The world after all steps, one after the other. It takes time and memory in proportion to the world for each step.
pub fn world_law(alloc: Global, first: World, steps: &[WorldStep]) -> Result<World, NoMemory>
    requires { IsSound first }
    ensures fold { IfOk result (λ w. w ≡ after_all first steps.now) }
    ensures sound { IfOk result (λ w. IsSound w) }
    ensures each { EachStep first steps.now }
    ensures in_time { (b c : ℕ) → WaitsSince first b c → IsFreedInTime first b c }
    ensures live { KeepsLive first }
{
    let mut world = first;
    for step in steps {
        world = after(alloc, world, step)?;
    }
    Ok(world)
}
