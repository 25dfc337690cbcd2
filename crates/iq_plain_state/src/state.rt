//! The state of a run: what the entries of its history leave.
ghost use Rattle.std.specs.Prelude.{◌≡◌, [], None, IfSome, IsSomeAnd};
ghost use Rattle.std.specs.Bool.{OnFalse};
ghost use Rattle.std.specs.List.{slice_get};
ghost use Rattle.std.specs.Option.{option_copied};
ghost use Rattle.iq_model.specs.declared.scripts.Deed.TheVariants as deeds;
ghost use Rattle.iq_replay.specs.Asked.{FirstIs};
ghost use Rattle.iq_replay.specs.Nodes.{node_named};
ghost use Rattle.iq_replay.specs.State.{with_node, moved_to};
ghost use Rattle.iq_replay.specs.Commits.{database_of};

use iq_base::{Listed, Name};
use iq_model::{Deed, Line, Reply, Step};
use iq_plain_sessions::{PlainNode, PlainReport, PlainSession, PlainWritten};
use iq_plain_tables::{PlainTable, PlainTables};
use std::marker::Model;

/// The commits, the nodes, the reports, the sessions, the steps that are left and the replies of steps. Nothing has halted, and no
/// fault was told.
#[derive(Debug, Drop)]
pub struct PlainState<'a> {
    pub(crate) blocks: u32,
    pub(crate) told: bool,
    pub(crate) latest: u64,
    pub(crate) newest: PlainTables,
    pub(crate) older: Vec<PlainTables>,
    pub(crate) wrote: Vec<PlainWritten>,
    pub(crate) nodes: Vec<PlainNode>,
    pub(crate) bag: Vec<PlainReport>,
    pub(crate) next: u32,
    pub(crate) base: u64,
    pub(crate) closing: bool,
    pub(crate) sessions: Vec<PlainSession<'a>>,
    pub(crate) steps: Vec<&'a Line>,
    pub(crate) replies: Listed<Reply>,
}

impl<'a> Model for PlainState<'a> {
    ghost use Rattle.std.specs.Prelude.{map, None};
    ghost use Rattle.std.specs.Coded.{codes};
    ghost use Rattle.iq_ast.specs.contracts.conditions.Cond as cond;
    ghost use Rattle.iq_replay.specs.State.{State};

    ghost Value = { State };

    ghost coded = { Prim.hlevel (codes, cond.the_row.coded) };

    ghost view = { λ it. record {
      blocks = it.blocks;
      told = it.told;
      latest = it.latest;
      newest = it.newest;
      older = it.older.items;
      wrote = it.wrote.items;
      nodes = it.nodes.items;
      bag = it.bag.items;
      next = it.next;
      base = it.base;
      halted = None;
      faults = 0;
      closing = it.closing;
      sessions = it.sessions.items;
      steps = map (λ line. line.now) it.steps.items;
      replies = it.replies;
    } };
}

impl<'a> PlainState<'a> {
    /// The count of blocks.
    pub fn blocks(&self) -> u32
        ensures { result ≡ self.now.blocks }
    {
        self.blocks
    }

    /// The latest commit.
    pub fn latest(&self) -> u64
        ensures { result ≡ self.now.latest }
    {
        self.latest
    }

    /// Whether the script's end has begun.
    pub fn is_closing(&self) -> bool
        ensures { result ≡ self.now.closing }
    {
        self.closing
    }

    /// Nothing has halted: the plain program meets no fault.
    pub fn never_halts(&self)
        ensures { self.now.halted ≡ None }
    {
        let _ = &self.closing;
    }

    /// The sessions.
    pub fn sessions(&self) -> &[PlainSession<'a>]
        ensures { result.now ≡ self.now.sessions }
    {
        self.sessions.as_slice()
    }

    /// Which commit wrote a name, the newest first.
    pub fn wrote(&self) -> &[PlainWritten]
        ensures { result.now ≡ self.now.wrote }
    {
        self.wrote.as_slice()
    }

    /// The replies of steps.
    pub fn replies(&self) -> &[Reply]
        ensures { result.now ≡ self.now.replies }
    {
        self.replies.as_slice()
    }

    /// Whether a step is left.
    pub fn has_step(&self) -> bool
        ensures { OnFalse result (self.now.steps ≡ []) }
    {
        !self.steps.is_empty()
    }

    /// The nodes.
    pub fn nodes(&self) -> &[PlainNode]
        ensures { result.now ≡ self.now.nodes }
    {
        self.nodes.as_slice()
    }

    /// The node at a place.
    pub fn node_at(&self, n: u32) -> Option<&PlainNode>
        ensures { option_copied result ≡ slice_get self.now.nodes n }
    {
        self.nodes.get(n as usize)
    }

    /// The first node of a name.
    pub fn node_named(&self, name: &Name) -> Option<&PlainNode>
        ensures { option_copied result ≡ node_named self.now name.now }
    {
        self.nodes.iter().find(|node| node.is_named(name))
    }

    /// The place of the first node of a name.
    pub fn place_named(&self, name: &Name) -> Option<u32>
        ensures { IfSome result (λ n. IsSomeAnd (slice_get self.now.nodes n) (λ node. node.name ≡ name.now)) }
    {
        for (place, node) in self.nodes.iter().enumerate() {
            if node.is_named(name) {
                return u32::try_from(place).ok();
            }
        }
        None
    }

    /// The session at a place.
    pub fn session_at(&self, s: u32) -> Option<&PlainSession<'a>>
        ensures { option_copied result ≡ slice_get self.now.sessions s }
    {
        self.sessions.get(s as usize)
    }

    /// The reports that are in the bag.
    pub fn bag(&self) -> &[PlainReport]
        ensures { result.now ≡ self.now.bag }
    {
        self.bag.as_slice()
    }

    /// The next report's number.
    pub fn next_number(&self) -> u32
        ensures { result ≡ self.now.next }
    {
        self.next
    }

    /// The first step that is left, where it has this number.
    pub fn step_at(&self, l: u32) -> Option<&'a Step>
        ensures { IfSome result (λ step. FirstIs self.now.steps l (λ deed. deed ≡ deeds.Step step.now)) }
    {
        match self.steps.first() {
            None => None,
            Some(line) => {
                if line.number != l {
                    return None;
                }
                match &line.deed {
                    Deed::Statement(_) => None,
                    Deed::Step(step) => Some(step),
                }
            }
        }
    }

    /// The tables of a commit.
    pub(crate) fn database(&self, c: u64) -> &[PlainTable]
        ensures { result.now ≡ database_of self.now c }
    {
        if c == self.latest {
            return self.newest.as_slice();
        }
        match self.older.get(c as usize) {
            None => &[],
            Some(tables) => tables.as_slice(),
        }
    }

    /// A node moves to a commit.
    #[tactic(auto, using(crate::proofs::Places::changed_at_past))]
    pub(crate) fn move_node(&mut self, n: u32, c: u64)
        ensures { self.new ≡ with_node n (moved_to c) self.old }
    {
        let place = n as usize;
        if place < self.nodes.len() {
            self.nodes[place].move_to(c);
        }
    }
}
