//! Scripts of a plex, read from tables of texts.
use iq_base::{Listed, Name, NodeKind, NodeSpec, SessionSpec};
use iq_grammar::parse;
use iq_model::{Deed, Line, Script, Step};
use std::alloc::Global;
use std::test::Fail;

/// Who runs a line, what the line says, and what it is answered. A step of the multiplex has `-` for a session.
pub type Lines = &'static [(&'static str, &'static str, &'static str)];

/// The nodes by their kinds, and the sessions by their nodes' places.
#[derive(Clone, Copy)]
pub struct Plex {
    pub nodes: &'static [(&'static str, NodeKind)],
    pub sessions: &'static [(&'static str, u32)],
}

/// The session s alone on the coordinator c.
pub const ALONE: Plex = Plex {
    nodes: &[("c", NodeKind::Coordinator)],
    sessions: &[("s", 0)],
};

/// The sessions a and b on the coordinator c.
pub const PAIR: Plex = Plex {
    nodes: &[("c", NodeKind::Coordinator)],
    sessions: &[("a", 0), ("b", 0)],
};

/// The session a on the coordinator c, and b on the reader r1.
pub const READER: Plex = Plex {
    nodes: &[("c", NodeKind::Coordinator), ("r1", NodeKind::Reader)],
    sessions: &[("a", 0), ("b", 1)],
};

/// The session a on the coordinator c, and b on the writer w1.
pub const WRITER: Plex = Plex {
    nodes: &[("c", NodeKind::Coordinator), ("w1", NodeKind::Writer)],
    sessions: &[("a", 0), ("b", 1)],
};

pub fn name(text: &str) -> Result<Name, Fail> {
    Ok(Name::of(text).ok_or("a name")?)
}

/// The number of the line at a place, from 1.
fn number(place: usize) -> Result<u32, Fail> {
    Ok(u32::try_from(place.saturating_add(1))?)
}

/// The script of these lines, which are numbered from 1.
pub fn script(alloc: Global, plex: &Plex, lines: Lines) -> Result<Script, Fail> {
    let mut script = Script {
        nodes: nodes(alloc, plex)?,
        sessions: sessions(alloc, plex)?,
        lines: Listed::new(alloc),
    };
    for (place, (who, text, _)) in lines.iter().enumerate() {
        let line = line(alloc, plex, number(place)?, who, text)?;
        script.lines.push(line)?;
    }
    Ok(script)
}

fn nodes(alloc: Global, plex: &Plex) -> Result<Listed<NodeSpec>, Fail> {
    let mut nodes = Listed::new(alloc);
    for (text, kind) in plex.nodes {
        nodes.push(NodeSpec {
            name: name(text)?,
            kind: *kind,
        })?;
    }
    Ok(nodes)
}

fn sessions(alloc: Global, plex: &Plex) -> Result<Listed<SessionSpec>, Fail> {
    let mut sessions = Listed::new(alloc);
    for (text, node) in plex.sessions {
        sessions.push(SessionSpec {
            name: name(text)?,
            node: *node,
            lines: 0,
        })?;
    }
    Ok(sessions)
}

fn line(alloc: Global, plex: &Plex, number: u32, who: &str, text: &str) -> Result<Line, Fail> {
    if who == "-" {
        return Ok(Line {
            number,
            session: None,
            deed: Deed::Step(step(text)?),
        });
    }
    Ok(Line {
        number,
        session: Some(place_of(plex, who)?),
        deed: Deed::Statement(parse(alloc, text)?),
    })
}

/// The place of a session.
fn place_of(plex: &Plex, who: &str) -> Result<u32, Fail> {
    for (place, (text, _)) in plex.sessions.iter().enumerate() {
        if *text == who {
            return Ok(u32::try_from(place)?);
        }
    }
    Err("a session")?
}

/// A step from its word and what it is of: nothing, a number or a node's name.
fn step(text: &str) -> Result<Step, Fail> {
    let Some((word, of)) = text.split_once(' ') else {
        return step_of_all(text);
    };
    match of.parse::<u32>() {
        Ok(number) => step_of_report(word, number),
        Err(_) => step_of_node(word, name(of)?),
    }
}

fn step_of_all(word: &str) -> Result<Step, Fail> {
    match word {
        "SPACE" => Ok(Step::Space),
        "VERSIONS" => Ok(Step::Versions),
        _ => Err("a step")?,
    }
}

fn step_of_report(word: &str, number: u32) -> Result<Step, Fail> {
    match word {
        "LOSE" => Ok(Step::Lose(number)),
        "TAKE" => Ok(Step::Take(number)),
        _ => Err("a step of a report")?,
    }
}

fn step_of_node(word: &str, node: Name) -> Result<Step, Fail> {
    match word {
        "APPLY" => Ok(Step::Apply(node)),
        "REPORT" => Ok(Step::Report(node)),
        "RESTART" => Ok(Step::Restart(node)),
        "EXCLUDE" => Ok(Step::Exclude(node)),
        "INCLUDE" => Ok(Step::Include(node)),
        _ => Err("a step of a node")?,
    }
}
