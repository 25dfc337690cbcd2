//! Where a run starts.
ghost use Rattle.std.specs.Prelude.{◌≡◌, IfOk, map, filter};
ghost use Rattle.iq_model.specs.declared.scripts.Line.{Line};
ghost use Rattle.iq_replay.specs.Start.{start, node_start, is_of, is_step, sessions_from};

use crate::state::PlainState;
use iq_base::{Listed, NoMemory, NodeSpec, SessionSpec};
use iq_model::{Line, Script};
use iq_plain_sessions::{PlainNode, PlainSession};
use iq_plain_tables::{PlainTable, copied_tables};
use std::alloc::Global;

impl<'a> PlainState<'a> {
    /// The state before the first entry of a script, over some tables.
    pub fn start(
        alloc: Global,
        blocks: u32,
        told: bool,
        script: &'a Script,
        opening: &[PlainTable],
    ) -> Result<PlainState<'a>, NoMemory>
        ensures { IfOk result (λ state. state ≡ start blocks told script.now opening.now) }
    {
        let lines = script.lines.as_slice();
        Ok(PlainState {
            blocks,
            told,
            latest: 0,
            newest: copied_tables(alloc, opening)?,
            older: Vec::new(alloc),
            wrote: Vec::new(alloc),
            nodes: fresh_nodes(alloc, script.nodes.as_slice())?,
            bag: Vec::new(alloc),
            next: 1,
            base: 0,
            closing: false,
            sessions: fresh_sessions(alloc, lines, script.sessions.as_slice())?,
            steps: steps_of(alloc, lines)?,
            replies: Listed::new(alloc),
        })
    }
}

/// The nodes before the first line.
fn fresh_nodes(alloc: Global, specs: &[NodeSpec]) -> Result<Vec<PlainNode>, NoMemory>
    ensures { IfOk result (λ nodes. nodes.items ≡ map node_start specs.now) }
{
    let mut nodes = Vec::new(alloc);
    for spec in specs {
        nodes.push(PlainNode::fresh(spec))?;
    }
    Ok(nodes)
}

/// The sessions before the first line, each with its own lines.
fn fresh_sessions<'a>(
    alloc: Global,
    lines: &'a [Line],
    specs: &[SessionSpec],
) -> Result<Vec<PlainSession<'a>>, NoMemory>
    ensures { IfOk result (λ sessions. sessions.items ≡ sessions_from 0 lines.now specs.now) }
{
    let mut sessions = Vec::new(alloc);
    for (place, spec) in specs.iter().enumerate() {
        sessions.push(PlainSession::fresh(alloc, spec.node, lines_of(alloc, place, lines)?))?;
    }
    Ok(sessions)
}

/// The lines of the session at a place.
fn lines_of<'a>(alloc: Global, place: usize, lines: &'a [Line]) -> Result<Vec<&'a Line>, NoMemory>
    ensures { IfOk result (λ found. map (λ line. line.now) found.items ≡ filter (is_of place) lines.now) }
{
    let mut found = Vec::new(alloc);
    for line in lines {
        if is_of(place, line) {
            found.push(line)?;
        }
    }
    Ok(found)
}

/// The steps among the lines.
fn steps_of<'a>(alloc: Global, lines: &'a [Line]) -> Result<Vec<&'a Line>, NoMemory>
    ensures { IfOk result (λ found. map (λ line. line.now) found.items ≡ filter is_step lines.now) }
{
    let mut found = Vec::new(alloc);
    for line in lines {
        if line.session.is_none() {
            found.push(line)?;
        }
    }
    Ok(found)
}

/// Whether a line is of the session at a place.
fn is_of(place: usize, line: &Line) -> bool
    ensures { result ≡ is_of place line.now }
{
    match line.session {
        None => false,
        Some(s) => s as usize == place,
    }
}
