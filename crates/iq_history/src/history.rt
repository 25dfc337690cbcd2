//! The list of entries, with the names by which they are printed.
ghost use Rattle.std.specs.Prelude.{◌≡◌, ◌≤◌, ◌<◌, ◌↔◌, [], length, IsTrue, IfOk, OnOk, OnErr};
ghost use Rattle.iq_history.specs.Placed.{IsPlaced};
ghost use Rattle.iq_history.specs.State.{ArePlaced, IsBegun, HasSameEntries, IsPushed};

use crate::entries::Entry;
use iq_base::{Listed, Name, NoMemory};
use std::alloc::Global;
use std::marker::Model;

/// The entries of a run so far, and the declared names of its nodes and sessions, the coordinator's first. Entries name both
/// by their places in the order of declaration.
#[derive(Debug, Drop)]
pub struct History {
    nodes: Listed<Name>,
    sessions: Listed<Name>,
    entries: Vec<Entry>,
}

impl Model for History {
    ghost use Rattle.std.specs.Prelude.{◌-◌, vec_len};
    ghost use Rattle.std.specs.Vec.{vec_capacity};
    ghost use Rattle.iq_history.specs.State.{HistoryState, ArePlaced};

    ghost Value = { HistoryState };

    ghost view = { λ h. record {
      nodes = h.nodes;
      sessions = h.sessions;
      entries = h.entries.items;
      room = vec_capacity h.entries - vec_len h.entries;
    } };

    ghost invariant = { λ h. ArePlaced h.nodes h.sessions h.entries.items };
}

impl History {
    /// A history of these nodes and sessions, without entries and without room.
    pub fn begun(alloc: Global, nodes: &[Name], sessions: &[Name]) -> Result<History, NoMemory>
        ensures { IfOk result (λ h. IsBegun nodes.now sessions.now h) }
    {
        Ok(History {
            nodes: copied_names(alloc, nodes)?,
            sessions: copied_names(alloc, sessions)?,
            entries: Vec::new(alloc),
        })
    }

    /// The declared names of the nodes, the coordinator's first.
    pub fn nodes(&self) -> &[Name]
        ensures { result.now ≡ self.now.nodes }
    {
        self.nodes.as_slice()
    }

    /// The declared names of the sessions.
    pub fn sessions(&self) -> &[Name]
        ensures { result.now ≡ self.now.sessions }
    {
        self.sessions.as_slice()
    }

    /// The entries in the order in which they came.
    pub fn entries(&self) -> &[Entry]
        ensures value { result.now ≡ self.now.entries }
        ensures placed { ArePlaced self.now.nodes self.now.sessions self.now.entries }
    {
        self.entries.as_slice()
    }

    /// How many entries there are.
    pub fn len(&self) -> usize
        ensures { result ≡ length self.now.entries }
    {
        self.entries.len()
    }

    /// Whether there is no entry.
    pub fn is_empty(&self) -> bool
        ensures { IsTrue result ↔ (self.now.entries ≡ []) }
    {
        self.entries.is_empty()
    }

    /// How many more entries can be put without memory.
    pub fn room(&self) -> usize
        ensures { result ≡ self.now.room }
    {
        self.entries.capacity() - self.entries.len()
    }

    /// Makes room for `n` entries more, of which every later `push` uses one. Nothing changes where memory is wanting.
    pub fn reserve(&mut self, n: u32) -> Result<(), NoMemory>
        ensures ok { OnOk result (n ≤ self.new.room) }
        ensures same { HasSameEntries self.old self.new }

        // Memory is wanted only where the room is too small.
        ensures err { OnErr result (self.new ≡ self.old) }
        ensures cause { OnErr result (self.old.room < n) }
    {
        self.entries.reserve(n as usize)?;
        Ok(())
    }

    /// Puts an entry at the end, into room that was made before. It takes no memory.
    pub fn push(&mut self, entry: Entry)
        requires room { 0 < self.old.room }
        requires placed { IsPlaced (length self.old.nodes) (length self.old.sessions) entry }
        ensures { IsPushed self.old entry self.new }
    {
        self.entries.push(entry).unwrap();
    }
}

/// The same names once more.
fn copied_names(alloc: Global, names: &[Name]) -> Result<Listed<Name>, NoMemory>
    ensures { IfOk result (λ copies. copies ≡ names.now) }
{
    let mut copies = Listed::new(alloc);
    for name in names {
        copies.push(name.again())?;
    }
    Ok(copies)
}
