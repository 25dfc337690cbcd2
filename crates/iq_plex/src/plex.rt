//! The shared state of one coordinator and its session.
ghost use Rattle.std.specs.Prelude.{IfOk};
ghost use Rattle.iq_model.specs.Scripts.{IsRunnable};
ghost use Rattle.iq_control.specs.Opened.{IsHistoryOf};

use iq_base::NoMemory;
use iq_control::Control;
use iq_history::History;
use iq_memory::MemoryTables;
use iq_model::Script;
use std::alloc::Global;

/// The state that the session's lines change step by step: what the session sees of tables stands in memory.
#[derive(Drop)]
pub struct Plex {
    pub(crate) control: Control,
    pub(crate) tables: MemoryTables,
}

impl Plex {
    ghost use Rattle.iq_plex.specs.Standing.{IsAttached};

    /// Opens the state for a script, without tables. It takes the room for the entries of all lines, so that no later call
    /// takes memory for an entry.
    pub fn attach(alloc: Global, script: &Script) -> Result<Plex, NoMemory>
        requires { IsRunnable script.now }
        ensures { IfOk result (IsAttached script.now) }
    {
        Ok(Plex {
            control: Control::opened(alloc, script)?,
            tables: MemoryTables::new(alloc)?,
        })
    }

    /// The history so far, under the script's names.
    pub fn history(&self) -> &History
        ensures { IsHistoryOf self.now.control result.now }
    {
        self.control.history()
    }
}
