//! Steps by short names, and the parts of a world in words.
use iq_base::{Listed, NoMemory};
use iq_world::{World, WorldNode, WorldStep};
use std::alloc::Global;

/// A session begins a transaction on a node.
pub fn begin(session: u32, node: u32) -> WorldStep {
    WorldStep::Begin { session, node }
}

pub fn reserve(node: u32) -> WorldStep {
    WorldStep::Reserve { node }
}

/// A session takes a block.
pub fn take(session: u32, block: u32) -> WorldStep {
    WorldStep::Take { session, block }
}

/// A session keeps so many of its blocks, and gives the others back.
pub fn back(session: u32, kept: u32) -> WorldStep {
    WorldStep::Back { session, kept }
}

/// A session commits, and the commit reaches these blocks.
pub fn commit(alloc: Global, session: u32, blocks: &[u32]) -> Result<WorldStep, NoMemory> {
    Ok(WorldStep::Commit {
        session,
        reach: Listed::from_vec(Vec::from_slice(alloc, blocks)?),
    })
}

pub fn end(session: u32) -> WorldStep {
    WorldStep::End { session }
}

pub fn sync(node: u32) -> WorldStep {
    WorldStep::Sync { node }
}

pub fn apply(node: u32) -> WorldStep {
    WorldStep::Apply { node }
}

pub fn send(node: u32) -> WorldStep {
    WorldStep::Send { node }
}

pub fn lose(number: u32) -> WorldStep {
    WorldStep::Lose { number }
}

pub fn take_report(number: u32) -> WorldStep {
    WorldStep::TakeReport { number }
}

pub fn own() -> WorldStep {
    WorldStep::Own
}

pub fn restart(node: u32) -> WorldStep {
    WorldStep::Restart { node }
}

pub fn exclude(node: u32) -> WorldStep {
    WorldStep::Exclude { node }
}

pub fn include(node: u32) -> WorldStep {
    WorldStep::Include { node }
}

/// A part of a world under its name.
#[derive(Drop)]
pub struct Part {
    name: String,
    text: String,
}

/// Numbers in order of their list, each run of numbers that rise by one as its first and its last.
fn said_numbers(alloc: Global, numbers: &[u32]) -> Result<String, NoMemory> {
    let mut text = String::new(alloc);
    let mut run = None;
    for number in numbers {
        let next = *number;
        run = match run {
            Some((first, last)) if follows(last, next) => Some((first, next)),
            Some((first, last)) => {
                push_run(&mut text, first, last)?;
                Some((next, next))
            }
            None => Some((next, next)),
        };
    }
    match run {
        Some((first, last)) => push_run(&mut text, first, last)?,
        None => text.push_str("none")?,
    }
    Ok(text)
}

/// Whether a number is one more than another.
fn follows(last: u32, next: u32) -> bool {
    last.checked_add(1) == Some(next)
}

fn push_run(text: &mut String, first: u32, last: u32) -> Result<(), NoMemory> {
    if text.len() > 0 {
        text.push_str(" ")?;
    }
    if first == last {
        write!(text, "{first}")?;
    } else {
        write!(text, "{first}-{last}")?;
    }
    Ok(())
}

/// All parts of a world: its free blocks, what each kept commit reaches, its nodes, its runs, its reports, the next report's
/// number and the base.
pub fn parts_of(alloc: Global, world: &World) -> Result<Vec<Part>, NoMemory> {
    let mut parts = Vec::new(alloc);
    parts.push(Part {
        name: format!(in alloc; "free")?,
        text: said_numbers(alloc, world.free.as_slice())?,
    })?;
    for reach in world.reach.as_slice() {
        let commit = reach.commit;
        parts.push(Part {
            name: format!(in alloc; "commit {commit}")?,
            text: said_numbers(alloc, reach.blocks.as_slice())?,
        })?;
    }
    for (place, node) in world.nodes.as_slice().iter().enumerate() {
        push_node(alloc, &mut parts, place, node)?;
    }
    push_runs(alloc, &mut parts, world)?;
    push_reports(alloc, &mut parts, world)?;
    Ok(parts)
}

/// A node's position; of a secondary also its taken floor, its incarnation and its reservation.
fn push_node(
    alloc: Global,
    parts: &mut Vec<Part>,
    place: usize,
    node: &WorldNode,
) -> Result<(), NoMemory> {
    let position = node.position;
    let taken = node.taken;
    let life = node.incarnation;
    let excluded = if node.excluded { " excluded" } else { "" };
    let text = if place == 0 {
        format!(in alloc; "at {position}")?
    } else {
        format!(in alloc; "at {position} taken {taken} life {life}{excluded}")?
    };
    parts.push(Part {
        name: format!(in alloc; "node {place}")?,
        text,
    })?;
    parts.push(Part {
        name: format!(in alloc; "reserved {place}")?,
        text: said_numbers(alloc, node.reserved.as_slice())?,
    })?;
    Ok(())
}

fn push_runs(alloc: Global, parts: &mut Vec<Part>, world: &World) -> Result<(), NoMemory> {
    for run in world.runs.as_slice() {
        let session = run.session;
        let node = run.node;
        let snapshot = run.snapshot;
        let private = said_numbers(alloc, run.private.as_slice())?;
        parts.push(Part {
            name: format!(in alloc; "run {session}")?,
            text: format!(in alloc; "on {node} sees {snapshot} has {private}")?,
        })?;
    }
    Ok(())
}

fn push_reports(alloc: Global, parts: &mut Vec<Part>, world: &World) -> Result<(), NoMemory> {
    for report in world.bag.as_slice() {
        let number = report.number;
        let node = report.node;
        let floor = report.floor;
        parts.push(Part {
            name: format!(in alloc; "report {number}")?,
            text: format!(in alloc; "of {node} floor {floor}")?,
        })?;
    }
    let next = world.next;
    let base = world.base;
    parts.push(Part {
        name: format!(in alloc; "next")?,
        text: format!(in alloc; "{next}")?,
    })?;
    parts.push(Part {
        name: format!(in alloc; "base")?,
        text: format!(in alloc; "{base}")?,
    })?;
    Ok(())
}

/// The text of the part of a name.
fn text_of<'a>(parts: &'a [Part], name: &str) -> Option<&'a str> {
    for part in parts {
        if part.name.as_str() == name {
            return Some(part.text.as_str());
        }
    }
    None
}

fn push_said(text: &mut String, said: &str) -> Result<(), NoMemory> {
    if text.len() > 0 {
        text.push_str("; ")?;
    }
    text.push_str(said)?;
    Ok(())
}

/// The parts that a step brought or changed; behind them, as `no NAME`, those that are gone.
pub fn said_changes(
    alloc: Global,
    can: bool,
    old: &[Part],
    new: &[Part],
) -> Result<String, NoMemory> {
    let mut text = String::new(alloc);
    if !can {
        text.push_str("can't be")?;
    }
    for part in new {
        let name = part.name.as_str();
        let said = part.text.as_str();
        if text_of(old, name) != Some(said) {
            push_said(&mut text, format!(in alloc; "{name} {said}")?.as_str())?;
        }
    }
    for part in old {
        let name = part.name.as_str();
        if text_of(new, name).is_none() {
            push_said(&mut text, format!(in alloc; "no {name}")?.as_str())?;
        }
    }
    Ok(text)
}
