//! Where the control of a run starts.
ghost use Rattle.std.specs.Prelude.{◌≡◌, ◌<◌, ◌^◌, IfOk, map};
ghost use Rattle.iq_base.specs.declared.nodes.NodeSpec.{NodeSpec};
ghost use Rattle.iq_base.specs.declared.nodes.SessionSpec.{SessionSpec};
ghost use Rattle.iq_replay.specs.Start.{node_start};
ghost use Rattle.iq_control.specs.Opened.{IsControllable, IsReady, entries_due};

use crate::nodes::ControlNode;
use iq_base::{Name, NoMemory, NodeSpec, SessionSpec};
use iq_history::History;
use iq_model::Script;
use std::alloc::Global;

/// The nodes before the first entry.
pub(crate) fn fresh_nodes(alloc: Global, specs: &[NodeSpec]) -> Result<Vec<ControlNode>, NoMemory>
    ensures { IfOk result (λ nodes. nodes.items ≡ map node_start specs.now) }
{
    let mut nodes = Vec::new(alloc);
    for spec in specs {
        nodes.push(ControlNode::fresh(spec))?;
    }
    Ok(nodes)
}

/// A history without entries that has the room for those of all lines: five of a session's line, one of a step, one at the end of
/// a session.
pub(crate) fn history_for(alloc: Global, script: &Script) -> Result<History, NoMemory>
    requires { IsControllable script.now }
    ensures { IfOk result (IsReady script.now) }
{
    let nodes = node_names(alloc, script.nodes.as_slice())?;
    let sessions = session_names(alloc, script.sessions.as_slice())?;
    let mut history = History::begun(alloc, nodes.as_slice(), sessions.as_slice())?;
    let due = entries_of(script.sessions.as_slice());
    history.reserve(due + script.sessions.len() as u32 + script.lines.len() as u32)?;
    Ok(history)
}

/// Five entries for each line of the sessions.
fn entries_of(specs: &[SessionSpec]) -> u32
    requires { entries_due specs.now < 2 ^ 32 }
    ensures { result ≡ entries_due specs.now }
{
    let mut due = 0;
    for spec in specs {
        due += 5 * spec.lines;
    }
    due
}

fn node_names(alloc: Global, nodes: &[NodeSpec]) -> Result<Vec<Name>, NoMemory>
    ensures { IfOk result (λ names. names.items ≡ map (λ (n : NodeSpec). n.name) nodes.now) }
{
    let mut names = Vec::new(alloc);
    for node in nodes {
        names.push(node.name.again())?;
    }
    Ok(names)
}

fn session_names(alloc: Global, sessions: &[SessionSpec]) -> Result<Vec<Name>, NoMemory>
    ensures { IfOk result (λ names. names.items ≡ map (λ (n : SessionSpec). n.name) sessions.now) }
{
    let mut names = Vec::new(alloc);
    for session in sessions {
        names.push(session.name.again())?;
    }
    Ok(names)
}
