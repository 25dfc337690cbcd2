//! What a run says, as printed texts beside those of a table.
ghost use Rattle.std.specs.Prelude.{length};
ghost use Rattle.std.specs.Bool.{OnTrue};
ghost use Rattle.iq_render.specs.Placed.{ArePlacedVersions, IsPlacedSaid};

use crate::script::{Lines, Plex, name, script};
use iq_base::{Listed, Name, Refusal};
use iq_history::History;
use iq_model::{NodeVersion, Reply, Said};
use iq_plain_runs::plain_run;
use iq_render::replies_part;
use std::alloc::Global;
use std::process::Abort;
use std::test::Fail;

/// How many blocks the store has.
const BLOCKS: u32 = 64;

/// Compares what the lines of a table are answered, from a store without tables, with what the table says.
pub fn says<R: Abort + AllocGlobal>(rt: &R, plex: &Plex, lines: Lines) -> Result<(), Fail> {
    let alloc = rt.alloc();
    let history = named_history(alloc, plex)?;
    let script = script(alloc, plex, lines)?;
    let run = plain_run(alloc, BLOCKS, true, &script, &[])?;
    for (line, (_, text, said)) in script.lines.as_slice().iter().zip(lines) {
        let reply = run.reply(line).ok_or("a reply")?;
        let got = printed(alloc, &history, reply)?;
        let want = format!(in alloc; "@{} {said}\n", line.number)?;
        assert_eq!(rt; got.as_str(), want.as_str(), "{text}");
    }
    Ok(())
}

/// Compares the number of entries that a run of these lines has.
pub fn has_entries<R: Abort + AllocGlobal>(
    rt: &R,
    plex: &Plex,
    lines: Lines,
    count: usize,
) -> Result<(), Fail> {
    let script = script(rt.alloc(), plex, lines)?;
    let run = plain_run(rt.alloc(), BLOCKS, true, &script, &[])?;
    assert_eq!(rt; run.entries().len(), count);
    Ok(())
}

/// A history without entries, by whose names replies are printed.
fn named_history(alloc: Global, plex: &Plex) -> Result<History, Fail> {
    let mut nodes = Listed::new(alloc);
    for (text, _) in plex.nodes {
        nodes.push(name(text)?)?;
    }
    let mut sessions = Listed::new(alloc);
    for (text, _) in plex.sessions {
        sessions.push(name(text)?)?;
    }
    let history = History::begun(alloc, nodes.as_slice(), sessions.as_slice())?;
    Ok(history)
}

fn printed(alloc: Global, history: &History, reply: &Reply) -> Result<String, Fail> {
    if !is_placed(history.nodes(), history.sessions(), &reply.said) {
        Err("a reply of declared names")?
    }
    Ok(replies_part(alloc, std::slice::from_ref(reply), history)?)
}

/// Whether what is said names declared nodes and sessions alone.
fn is_placed(nodes: &[Name], sessions: &[Name], said: &Said) -> bool
    ensures { OnTrue result (IsPlacedSaid (length nodes.now) (length sessions.now) said.now) }
{
    match said {
        Said::Versions(versions) => are_placed(nodes, versions.nodes.as_slice()),
        Said::Refused(Refusal::Locked { session, .. }) => (*session as usize) < sessions.len(),
        _ => true,
    }
}

fn are_placed(nodes: &[Name], versions: &[NodeVersion]) -> bool
    ensures { OnTrue result (ArePlacedVersions (length nodes.now) versions.now) }
{
    versions
        .iter()
        .all(|version| (version.node as usize) < nodes.len())
}
