//! Nodes, reports, and commits of names.
ghost use Rattle.std.specs.Prelude.{◌≡◌};
ghost use Rattle.std.specs.Bool.{OnTrue};
ghost use Rattle.iq_conditions.specs.Servers.{same_name};
ghost use Rattle.iq_replay.specs.State.{moved_to};
ghost use Rattle.iq_replay.specs.Nodes.{is_coordinator, is_reader, node_position};
ghost use Rattle.iq_replay.specs.Changes.{restarted, excluded, included, taken_up};
ghost use Rattle.iq_replay.specs.Commits.{written_at};
ghost use Rattle.iq_replay.specs.Start.{node_start};

use iq_base::{Name, NodeKind, NodeSpec};
use std::marker::Model;

/// A node: its position, its incarnation, the floor that was taken of it, and whether it is excluded.
#[derive(Debug, Drop)]
pub struct PlainNode {
    name: Name,
    kind: NodeKind,
    position: u64,
    incarnation: u32,
    taken: u64,
    excluded: bool,
}

impl Model for PlainNode {
    ghost use Rattle.iq_replay.specs.State.{Node};

    ghost Value = { Node };

    ghost view = { λ it. record {
      name = it.name;
      kind = it.kind;
      position = it.position;
      incarnation = it.incarnation;
      taken = it.taken;
      excluded = it.excluded;
    } };
}

impl PlainNode {
    /// A node before the first line.
    pub fn fresh(spec: &NodeSpec) -> PlainNode
        ensures { result ≡ node_start spec.now }
    {
        PlainNode {
            name: spec.name.again(),
            kind: spec.kind,
            position: 0,
            incarnation: 1,
            taken: 0,
            excluded: false,
        }
    }

    /// The same node once more.
    pub fn again(&self) -> PlainNode
        ensures { result ≡ self.now }
    {
        PlainNode {
            name: self.name.again(),
            kind: self.kind,
            position: self.position,
            incarnation: self.incarnation,
            taken: self.taken,
            excluded: self.excluded,
        }
    }

    /// Its name.
    pub fn name(&self) -> &Name
        ensures { result.now ≡ self.now.name }
    {
        &self.name
    }

    /// Whether this is its name.
    pub fn is_named(&self, name: &Name) -> bool
        ensures value { result ≡ same_name self.now.name name.now }
        ensures yes { OnTrue result (self.now.name ≡ name.now) }
    {
        self.name == *name
    }

    /// Whether it is the coordinator.
    pub fn is_coordinator(&self) -> bool
        ensures { result ≡ is_coordinator self.now.kind }
    {
        match self.kind {
            NodeKind::Coordinator => true,
            NodeKind::Writer | NodeKind::Reader => false,
        }
    }

    /// Whether it only reads.
    pub fn is_reader(&self) -> bool
        ensures { result ≡ is_reader self.now.kind }
    {
        match self.kind {
            NodeKind::Reader => true,
            NodeKind::Coordinator | NodeKind::Writer => false,
        }
    }

    /// Its position, which is the latest commit for the coordinator.
    pub fn position(&self, latest: u64) -> u64
        ensures { result ≡ node_position latest self.now }
    {
        match self.kind {
            NodeKind::Coordinator => latest,
            NodeKind::Writer | NodeKind::Reader => self.position,
        }
    }

    /// Its incarnation.
    pub fn incarnation(&self) -> u32
        ensures { result ≡ self.now.incarnation }
    {
        self.incarnation
    }

    /// The floor that was taken of it.
    pub fn taken(&self) -> u64
        ensures { result ≡ self.now.taken }
    {
        self.taken
    }

    /// Whether it is excluded.
    pub fn is_excluded(&self) -> bool
        ensures { result ≡ self.now.excluded }
    {
        self.excluded
    }

    /// Moves to a commit.
    pub fn move_to(&mut self, c: u64)
        ensures { self.new ≡ moved_to c self.old }
    {
        self.position = c;
    }

    /// Starts again at a commit.
    pub fn restart(&mut self, c: u64, incarnation: u32)
        ensures { self.new ≡ restarted c incarnation self.old }
    {
        self.incarnation = incarnation;
        self.position = c;
    }

    /// Is excluded.
    pub fn exclude(&mut self, incarnation: u32)
        ensures { self.new ≡ excluded incarnation self.old }
    {
        self.incarnation = incarnation;
        self.excluded = true;
    }

    /// Is included again, at a commit.
    pub fn include(&mut self, c: u64)
        ensures { self.new ≡ included c self.old }
    {
        self.excluded = false;
        self.position = c;
        self.taken = c;
    }

    /// Its taken floor is at least this.
    pub fn take_up(&mut self, floor: u64)
        ensures { self.new ≡ taken_up floor self.old }
    {
        self.taken = self.taken.max(floor);
    }
}

/// A report of a node's floor.
#[derive(Debug, Drop)]
pub struct PlainReport {
    number: u32,
    node: u32,
    floor: u64,
}

impl Model for PlainReport {
    ghost use Rattle.iq_replay.specs.State.{Report};

    ghost Value = { Report };

    ghost view = { λ it. record { number = it.number; node = it.node; floor = it.floor } };
}

impl PlainReport {
    /// A report.
    pub fn of(number: u32, node: u32, floor: u64) -> PlainReport
        ensures { result ≡ record { number = number; node = node; floor = floor } }
    {
        PlainReport {
            number,
            node,
            floor,
        }
    }

    /// The same report once more.
    pub fn again(&self) -> PlainReport
        ensures { result ≡ self.now }
    {
        PlainReport {
            number: self.number,
            node: self.node,
            floor: self.floor,
        }
    }

    /// Its number.
    pub fn number(&self) -> u32
        ensures { result ≡ self.now.number }
    {
        self.number
    }

    /// The place of its node.
    pub fn node(&self) -> u32
        ensures { result ≡ self.now.node }
    {
        self.node
    }

    /// The floor.
    pub fn floor(&self) -> u64
        ensures { result ≡ self.now.floor }
    {
        self.floor
    }
}

/// A name, and a commit that wrote it.
#[derive(Debug, Drop)]
pub struct PlainWritten {
    name: Name,
    commit: u64,
}

impl Model for PlainWritten {
    ghost use Rattle.iq_replay.specs.State.{Written};

    ghost Value = { Written };

    ghost view = { λ it. record { name = it.name; commit = it.commit } };
}

impl PlainWritten {
    /// A commit wrote a name.
    pub fn at(c: u64, name: &Name) -> PlainWritten
        ensures { result ≡ written_at c name.now }
    {
        PlainWritten {
            name: name.again(),
            commit: c,
        }
    }

    /// Whether this is its name.
    pub fn is_named(&self, name: &Name) -> bool
        ensures { result ≡ same_name self.now.name name.now }
    {
        self.name == *name
    }

    /// The commit.
    pub fn commit(&self) -> u64
        ensures { result ≡ self.now.commit }
    {
        self.commit
    }
}
