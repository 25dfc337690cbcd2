//! Scripts as they are run.
use iq_ast::Statement;
use iq_base::{Listed, Name, NodeSpec, SessionSpec};

/// The most lines of a script beside empty ones, comments and the data of a LOAD.
pub const MOST_LINES: usize = 100_000;

/// A step of the multiplex itself, which belongs to no session.
#[derive(Debug, Drop)]
pub enum Step {
    Apply(Name),
    Report(Name),
    Lose(u32),
    Take(u32),
    Restart(Name),
    Exclude(Name),
    Include(Name),
    Space,
    Versions,
}

/// What a line does.
#[derive(Debug, Drop)]
pub enum Deed {
    Statement(Statement),
    Step(Step),
}

/// One line: its number in the text from 1, and its session's place, which it has exactly where its deed is a statement.
#[derive(Debug, Drop)]
pub struct Line {
    pub number: u32,
    pub session: Option<u32>,
    pub deed: Deed,
}

/// A script: the declared nodes, the coordinator first, the declared sessions, and the lines in text order.
#[derive(Debug, Drop)]
pub struct Script {
    pub nodes: Listed<NodeSpec>,
    pub sessions: Listed<SessionSpec>,
    pub lines: Listed<Line>,
}
