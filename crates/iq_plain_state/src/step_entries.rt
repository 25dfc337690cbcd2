//! What the entries of steps change in the state.
ghost use Rattle.std.specs.Prelude.{◌≡◌, ◌++◌, ◌∷◌, [], ◌+◌, OnOk};
ghost use Rattle.iq_model.specs.declared.replies.Said.TheVariants as saids;
ghost use Rattle.iq_model.specs.declared.answers.Sent.TheVariants as sents;
ghost use Rattle.iq_replay.specs.State.{with_node, moved_to};
ghost use Rattle.iq_replay.specs.Nodes.{report_of};
ghost use Rattle.iq_replay.specs.Changes.{step_ends, without_report, with_taken, with_base, with_lost, restarted, excluded, included};
ghost use Rattle.iq_replay.specs.Said.{versions_of};

use crate::reports::{nodes_taking, report_of, without_report};
use crate::state::PlainState;
use iq_base::{Census, NoMemory, Refusal};
use iq_model::{Freed, Reply, Said, Sent};
use iq_plain_sessions::{PlainReport, lose_all};
use std::alloc::Global;

impl<'a> PlainState<'a> {
    /// A step is answered.
    fn end_step(&mut self, l: u32, said: Said) -> Result<(), NoMemory>
        ensures { OnOk result (self.new ≡ step_ends l said self.old) }
    {
        if l == 0 {
            return Ok(());
        }
        self.replies.push(Reply { line: l, said })?;
        if !self.steps.is_empty() {
            self.steps.remove(0);
        }
        Ok(())
    }

    /// A step is refused.
    pub(crate) fn refuse_step(&mut self, l: u32, cause: Refusal) -> Result<(), NoMemory>
        ensures { OnOk result (self.new ≡ step_ends l (saids.Refused cause) self.old) }
    {
        self.end_step(l, Said::Refused(cause))
    }

    /// A node moves to a commit.
    pub(crate) fn apply(&mut self, n: u32, l: u32, c: u64) -> Result<(), NoMemory>
        ensures { OnOk result (self.new ≡ step_ends l (saids.Applied c) (with_node n (moved_to c) self.old)) }
    {
        self.move_node(n, c);
        self.end_step(l, Said::Applied { commit: c })
    }

    /// A node's floor is in the bag under a number.
    pub(crate) fn send(&mut self, n: u32, l: u32, number: u32, floor: u64) -> Result<(), NoMemory>
        ensures { OnOk result (self.new ≡ step_ends l (saids.Sent (sents.Bagged number floor)) (record (self.old) { bag = self.old.bag ++ record { number = number; node = n; floor = floor } ∷ []; next = number + 1 })) }
    {
        self.add_report(n, number, floor)?;
        self.end_step(l, Said::Sent(Sent::Bagged { number, floor }))
    }

    /// A report more is in the bag.
    fn add_report(&mut self, n: u32, number: u32, floor: u64) -> Result<(), NoMemory>
        ensures { OnOk result (self.new ≡ record (self.old) { bag = self.old.bag ++ record { number = number; node = n; floor = floor } ∷ []; next = number + 1 }) }
    {
        let Some(next) = number.checked_add(1) else {
            return Err(NoMemory);
        };
        self.bag.push(PlainReport::of(number, n, floor))?;
        self.next = next;
        Ok(())
    }

    /// A report is lost.
    pub(crate) fn lose(&mut self, alloc: Global, l: u32, number: u32) -> Result<(), NoMemory>
        ensures { OnOk result (self.new ≡ step_ends l (saids.Lost number) (record (self.old) { bag = without_report number self.old.bag })) }
    {
        self.drop_report(alloc, number)?;
        self.end_step(l, Said::Lost { number })
    }

    /// A report is no longer in the bag.
    fn drop_report(&mut self, alloc: Global, number: u32) -> Result<(), NoMemory>
        ensures { OnOk result (self.new ≡ record (self.old) { bag = without_report number self.old.bag }) }
    {
        self.bag = without_report(alloc, self.bag.as_slice(), number)?;
        Ok(())
    }

    /// A report is taken: the floor of its node, and the base.
    pub(crate) fn take(
        &mut self,
        alloc: Global,
        l: u32,
        number: u32,
        horizon: u64,
        freed: u32,
    ) -> Result<(), NoMemory>
        ensures { OnOk result (self.new ≡ step_ends l (saids.Taken (record { horizon = horizon; freed = freed })) (with_base horizon (with_taken (report_of number self.old.bag) self.old))) }
    {
        self.take_up(alloc, number)?;
        self.raise(horizon);
        self.end_step(l, Said::Taken(Freed { horizon, freed }))
    }

    /// The taken floor of a report's node is at least the report's floor.
    fn take_up(&mut self, alloc: Global, number: u32) -> Result<(), NoMemory>
        ensures { OnOk result (self.new ≡ with_taken (report_of number self.old.bag) self.old) }
    {
        let taken = match report_of(self.bag.as_slice(), number) {
            None => return Ok(()),
            Some(report) => nodes_taking(alloc, self.nodes.as_slice(), report)?,
        };
        self.nodes = taken;
        Ok(())
    }

    /// The base is at least a horizon.
    fn raise(&mut self, horizon: u64)
        ensures { self.new ≡ with_base horizon self.old }
    {
        self.base = self.base.max(horizon);
    }

    /// The coordinator's own report is taken.
    pub(crate) fn own(&mut self, l: u32, horizon: u64, freed: u32) -> Result<(), NoMemory>
        ensures { OnOk result (self.new ≡ step_ends l (saids.Sent (sents.Own horizon freed)) (with_base horizon self.old)) }
    {
        self.raise(horizon);
        self.end_step(l, Said::Sent(Sent::Own { horizon, freed }))
    }

    /// The running transactions of a node are lost.
    fn lose_runs(&mut self, n: u32)
        ensures { self.new ≡ with_lost n self.old }
    {
        lose_all(&mut self.sessions, n);
    }

    /// A node starts again at the latest commit.
    pub(crate) fn restart(&mut self, n: u32, l: u32, incarnation: u32) -> Result<(), NoMemory>
        ensures { OnOk result (self.new ≡ step_ends l (saids.Restarted incarnation) (with_lost n (with_node n (restarted self.old.latest incarnation) self.old))) }
    {
        self.restart_node(n, incarnation);
        self.lose_runs(n);
        self.end_step(l, Said::Restarted { incarnation })
    }

    /// A node is excluded.
    pub(crate) fn exclude(&mut self, n: u32, l: u32, incarnation: u32) -> Result<(), NoMemory>
        ensures { OnOk result (self.new ≡ step_ends l (saids.Excluded incarnation) (with_lost n (with_node n (excluded incarnation) self.old))) }
    {
        self.exclude_node(n, incarnation);
        self.lose_runs(n);
        self.end_step(l, Said::Excluded { incarnation })
    }

    /// A node is included again at a commit.
    pub(crate) fn include(&mut self, n: u32, l: u32, c: u64) -> Result<(), NoMemory>
        ensures { OnOk result (self.new ≡ step_ends l (saids.Included c) (with_node n (included c) self.old)) }
    {
        self.include_node(n, c);
        self.end_step(l, Said::Included { commit: c })
    }

    /// A node's incarnation and position as it starts again.
    #[tactic(auto, using(crate::proofs::Places::changed_at_past))]
    fn restart_node(&mut self, n: u32, incarnation: u32)
        ensures { self.new ≡ with_node n (restarted self.old.latest incarnation) self.old }
    {
        let place = n as usize;
        if place < self.nodes.len() {
            self.nodes[place].restart(self.latest, incarnation);
        }
    }

    /// A node's incarnation as it is excluded.
    #[tactic(auto, using(crate::proofs::Places::changed_at_past))]
    fn exclude_node(&mut self, n: u32, incarnation: u32)
        ensures { self.new ≡ with_node n (excluded incarnation) self.old }
    {
        let place = n as usize;
        if place < self.nodes.len() {
            self.nodes[place].exclude(incarnation);
        }
    }

    /// A node's position and taken floor as it is included.
    #[tactic(auto, using(crate::proofs::Places::changed_at_past))]
    fn include_node(&mut self, n: u32, c: u64)
        ensures { self.new ≡ with_node n (included c) self.old }
    {
        let place = n as usize;
        if place < self.nodes.len() {
            self.nodes[place].include(c);
        }
    }

    /// The blocks are counted.
    pub(crate) fn count(&mut self, l: u32, census: Census) -> Result<(), NoMemory>
        ensures { OnOk result (self.new ≡ step_ends l (saids.Space census) self.old) }
    {
        self.end_step(l, Said::Space(census))
    }

    /// The versions are told.
    pub(crate) fn tell(&mut self, alloc: Global, l: u32) -> Result<(), NoMemory>
        ensures { OnOk result (self.new ≡ step_ends l (saids.Versions (versions_of self.old)) self.old) }
    {
        let versions = self.versions(alloc)?;
        self.end_step(l, Said::Versions(versions))
    }
}
