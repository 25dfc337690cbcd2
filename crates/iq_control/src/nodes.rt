//! The nodes of a run.
ghost use Rattle.std.specs.Prelude.{◌≡◌, ◌<◌, length, Some, None, if◌then◌else◌};
ghost use Rattle.iq_replay.specs.State.{changed_at, moved_to};
ghost use Rattle.iq_replay.specs.Start.{node_start};
ghost use Rattle.iq_replay.specs.Nodes.{node_position, is_reader};
ghost use Rattle.iq_replay.specs.Refusals.{excluded_refusal, reader_refusal};
ghost use Rattle.std.specs.Option.{option_copied};

use iq_ast::Statement;
use iq_base::{Name, NodeKind, NodeSpec, Refusal};
use std::marker::Model;

/// A node: its name, its kind, its position, its incarnation, its taken floor, and whether it is excluded.
#[derive(Debug, Drop)]
pub struct ControlNode {
    name: Name,
    kind: NodeKind,
    position: u64,
    incarnation: u32,
    taken: u64,
    excluded: bool,
}

impl Model for ControlNode {
    ghost use Rattle.iq_replay.specs.State.{Node};

    ghost Value = { Node };

    ghost view = { λ it. record {
      name = it.name;
      kind = it.kind;
      position = it.position;
      incarnation = it.incarnation;
      taken = it.taken;
      excluded = it.excluded;
    } };
}

impl ControlNode {
    /// A node before the first entry.
    pub(crate) fn fresh(spec: &NodeSpec) -> ControlNode
        ensures { result ≡ node_start spec.now }
    {
        ControlNode {
            name: spec.name.again(),
            kind: spec.kind,
            position: 0,
            incarnation: 1,
            taken: 0,
            excluded: false,
        }
    }

    /// Its position, where this is the latest commit.
    pub fn position(&self, latest: u64) -> u64
        ensures { result ≡ node_position latest self.now }
    {
        match self.kind {
            NodeKind::Coordinator => latest,
            NodeKind::Writer | NodeKind::Reader => self.position,
        }
    }

    /// Its incarnation.
    pub fn incarnation(&self) -> u32
        ensures { result ≡ self.now.incarnation }
    {
        self.incarnation
    }

    /// Its name, where it is a reader.
    pub fn reader(&self) -> Option<&Name>
        ensures { option_copied result ≡ (if is_reader self.now.kind then Some self.now.name else None) }
    {
        match self.kind {
            NodeKind::Reader => Some(&self.name),
            NodeKind::Coordinator | NodeKind::Writer => None,
        }
    }

    /// The refusal of a node that is excluded.
    pub(crate) fn excluded_refusal(&self) -> Option<Refusal>
        ensures { result ≡ excluded_refusal self.now }
    {
        if self.excluded {
            return Some(Refusal::Excluded {
                node: self.name.again(),
            });
        }
        None
    }

    /// The refusal of a write on a reader.
    pub(crate) fn reader_refusal(&self, statement: &Statement) -> Option<Refusal>
        ensures { result ≡ reader_refusal (Some self.now) statement.now }
    {
        match statement {
            Statement::Write(_) => match self.reader() {
                None => None,
                Some(name) => Some(Refusal::ReadOnly { node: name.again() }),
            },
            Statement::Select(_)
            | Statement::Begin
            | Statement::Commit
            | Statement::Rollback
            | Statement::Savepoint(_)
            | Statement::BackTo(_)
            | Statement::Release(_)
            | Statement::Sync => None,
        }
    }

    /// It moves to a commit.
    pub(crate) fn move_to(&mut self, c: u64)
        ensures { self.new ≡ moved_to c self.old }
    {
        self.position = c;
    }
}

/// The node at a place moves to a commit.
#[tactic(auto, using(crate::proofs::Moves::set_is_changed))]
pub(crate) fn move_node(nodes: &mut Vec<ControlNode>, n: usize, c: u64)
    requires { n < length nodes.old.items }
    ensures { nodes.new.items ≡ changed_at n (moved_to c) nodes.old.items }
{
    nodes[n].move_to(c);
}
