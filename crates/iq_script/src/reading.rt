//! The script under way, line by line.
ghost use Rattle.std.specs.Prelude.{◌≡◌, ◌≤◌, [], ◌∷◌, length, IfOk};
ghost use Rattle.iq_script.specs.Lines.{lines_of};
ghost use Rattle.iq_script.specs.Putting as spec;
ghost use Rattle.iq_script.specs.Putting.{Changes, Steps, HasRoom};
ghost use Rattle.iq_script.specs.Scripts.{start};

use crate::faults::{Flaw, LineFault};
use crate::loads::{Loaded, with_data};
use crate::pieces::Piece;
use iq_ast::Statement;
use iq_base::{Listed, Name, NoMemory, NodeKind, NodeSpec, SessionSpec};
use iq_grammar::Directive;
use iq_model::{Deed, Line, Step};
use std::alloc::Global;

/// The most nodes of a script.
pub const MOST_NODES: usize = 8;

/// The most sessions of a script.
pub const MOST_SESSIONS: usize = 32;

/// What the lines so far say: the number of the first declaration, the nodes and sessions, and the steps and statements; and how
/// many lines did something.
#[derive(Debug, Drop)]
pub struct Reading {
    pub declared: Option<u32>,
    pub nodes: Listed<NodeSpec>,
    pub sessions: Listed<SessionSpec>,
    pub lines: Listed<Line>,
    pub taken: usize,
}

fn name_of(text: &str) -> Name
    requires { length text.now ≤ 30 }
    ensures { result ≡ text.now }
{
    match Name::of(text) {
        Some(name) => name,
        None => unreachable!(),
    }
}

fn node_place(nodes: &[NodeSpec], name: &Name) -> Option<usize>
    ensures { result ≡ spec.node_place name.now nodes.now }
{
    nodes.iter().position(|node| node.name == *name)
}

fn session_place(sessions: &[SessionSpec], name: &Name) -> Option<usize>
    ensures { result ≡ spec.session_place name.now sessions.now }
{
    sessions.iter().position(|session| session.name == *name)
}

fn has_node(nodes: &[NodeSpec], name: &Name) -> bool
    ensures { result ≡ spec.has_node name.now nodes.now }
{
    nodes.iter().any(|node| node.name == *name)
}

fn has_session(sessions: &[SessionSpec], name: &Name) -> bool
    ensures { result ≡ spec.has_session name.now sessions.now }
{
    sessions.iter().any(|session| session.name == *name)
}

/// One line more for the session at this place.
fn count_line(sessions: Listed<SessionSpec>, place: usize) -> Listed<SessionSpec>
    ensures { result ≡ spec.counted_at place sessions }
{
    let mut items = sessions.into_vec();
    if place < items.len() {
        items[place].lines = items[place].lines.saturating_add(1);
    }
    Listed::from_vec(items)
}

fn nodes(alloc: Global, name: Name, kind: NodeKind) -> Result<Listed<NodeSpec>, NoMemory>
    ensures { IfOk result (λ nodes. nodes ≡ spec.node name kind ∷ []) }
{
    let mut nodes = Listed::new(alloc);
    nodes.push(NodeSpec { name, kind })?;
    Ok(nodes)
}

impl Reading {
    /// Before the first line: one coordinator `c`, and one session `s` on it.
    pub fn start(alloc: Global) -> Result<Reading, NoMemory>
        ensures { IfOk result (λ r. r ≡ start) }
    {
        let nodes = nodes(alloc, name_of("c"), NodeKind::Coordinator)?;
        let mut sessions = Listed::new(alloc);
        sessions.push(SessionSpec {
            name: name_of("s"),
            node: 0,
            lines: 0,
        })?;
        Ok(Reading {
            declared: None,
            nodes,
            sessions,
            lines: Listed::new(alloc),
            taken: 0,
        })
    }

    fn is_declared(&self, name: &Name) -> bool
        ensures { result ≡ spec.is_declared name.now self.now }
    {
        has_node(self.nodes.as_slice(), name) || has_session(self.sessions.as_slice(), name)
    }

    fn first_node(
        &mut self,
        alloc: Global,
        number: u32,
        name: Name,
        kind: NodeKind,
    ) -> Result<(), Flaw>
        ensures { Changes (spec.first_node number name kind self.old) result self.new }
    {
        match kind {
            NodeKind::Coordinator => {
                self.nodes = nodes(alloc, name, kind)?;
                self.sessions = Listed::new(alloc);
                self.declared = Some(number);
                Ok(())
            }
            NodeKind::Writer | NodeKind::Reader => Err(Flaw::Fault(LineFault::NoCoordinator)),
        }
    }

    fn more_node(&mut self, name: Name, kind: NodeKind) -> Result<(), Flaw>
        ensures { Changes (spec.more_node name kind self.old) result self.new }
    {
        if self.is_declared(&name) {
            return Err(Flaw::Fault(LineFault::NodeTwice { name }));
        }
        if self.nodes.len() < MOST_NODES {
            self.nodes.push(NodeSpec { name, kind })?;
            return Ok(());
        }
        Err(Flaw::Fault(LineFault::TooManyNodes))
    }

    fn later_node(&mut self, name: Name, kind: NodeKind) -> Result<(), Flaw>
        ensures { Changes (spec.later_node name kind self.old) result self.new }
    {
        match kind {
            NodeKind::Coordinator => Err(Flaw::Fault(LineFault::SecondCoordinator)),
            NodeKind::Writer | NodeKind::Reader => self.more_node(name, kind),
        }
    }

    fn put_node(
        &mut self,
        alloc: Global,
        number: u32,
        name: Name,
        kind: NodeKind,
    ) -> Result<(), Flaw>
        ensures { Changes (spec.in_time self.old.lines (spec.put_node self.old.declared number name kind self.old)) result self.new }
    {
        if !self.lines.is_empty() {
            return Err(Flaw::Fault(LineFault::LateDeclaration));
        }
        match self.declared {
            None => self.first_node(alloc, number, name, kind),
            Some(_) => self.later_node(name, kind),
        }
    }

    fn session_on(&mut self, name: Name, on: Name) -> Result<(), Flaw>
        requires { length self.old.nodes ≤ MOST_NODES }
        ensures { Changes (spec.session_on name on (spec.node_place on self.old.nodes) self.old) result self.new }
    {
        let Some(place) = node_place(self.nodes.as_slice(), &on) else {
            return Err(Flaw::Fault(LineFault::UnknownNode { name: on }));
        };
        if self.sessions.len() < MOST_SESSIONS {
            self.sessions.push(SessionSpec {
                name,
                node: place as u32,
                lines: 0,
            })?;
            return Ok(());
        }
        Err(Flaw::Fault(LineFault::TooManySessions))
    }

    fn put_session(&mut self, name: Name, on: Name) -> Result<(), Flaw>
        requires { length self.old.nodes ≤ MOST_NODES }
        ensures { Changes (spec.in_time self.old.lines (spec.put_session self.old.declared name on self.old)) result self.new }
    {
        if !self.lines.is_empty() {
            return Err(Flaw::Fault(LineFault::LateDeclaration));
        }
        if self.declared.is_none() {
            return Err(Flaw::Fault(LineFault::NoCoordinator));
        }
        if self.is_declared(&name) {
            return Err(Flaw::Fault(LineFault::SessionTwice { name }));
        }
        self.session_on(name, on)
    }

    fn put_step(&mut self, number: u32, step: Step) -> Result<(), Flaw>
        ensures { Changes (spec.put_step number step self.old) result self.new }
    {
        self.lines.push(Line {
            number,
            session: None,
            deed: Deed::Step(step),
        })?;
        Ok(())
    }

    fn put_directive(
        &mut self,
        alloc: Global,
        number: u32,
        directive: Directive,
    ) -> Result<(), Flaw>
        requires { length self.old.nodes ≤ MOST_NODES }
        ensures { Changes (spec.put_directive number directive self.old) result self.new }
    {
        match directive {
            Directive::Node { name, kind } => self.put_node(alloc, number, name, kind),
            Directive::Session { name, node } => self.put_session(name, node),
            Directive::Apply(name) => self.put_step(number, Step::Apply(name)),
            Directive::Report(name) => self.put_step(number, Step::Report(name)),
            Directive::Lose(report) => self.put_step(number, Step::Lose(report)),
            Directive::Take(report) => self.put_step(number, Step::Take(report)),
            Directive::Restart(name) => self.put_step(number, Step::Restart(name)),
            Directive::Exclude(name) => self.put_step(number, Step::Exclude(name)),
            Directive::Include(name) => self.put_step(number, Step::Include(name)),
            Directive::Space => self.put_step(number, Step::Space),
            Directive::Versions => self.put_step(number, Step::Versions),
        }
    }

    /// The place of the session that is named, or of the first.
    fn place_of(&self, name: Option<Name>) -> Result<usize, LineFault>
        ensures { result ≡ spec.place_of name self.now.sessions }
    {
        match name {
            None => match self.sessions.as_slice() {
                [] => Err(LineFault::UnknownSession { name: name_of("s") }),
                [_, ..] => Ok(0),
            },
            Some(name) => match session_place(self.sessions.as_slice(), &name) {
                None => Err(LineFault::UnknownSession { name }),
                Some(place) => Ok(place),
            },
        }
    }

    fn put_statement(
        &mut self,
        alloc: Global,
        number: u32,
        name: Option<Name>,
        statement: Statement,
        behind: &[u8],
    ) -> Result<u32, Flaw>
        requires { length self.old.sessions ≤ MOST_SESSIONS }
        ensures { Steps (spec.put_statement number name statement (lines_of behind.now) self.old) result self.new }
    {
        let place = self.place_of(name)?;
        let Loaded {
            statement,
            data_lines,
        } = with_data(alloc, statement, behind)?;
        self.lines.push(Line {
            number,
            session: Some(place as u32),
            deed: Deed::Statement(statement),
        })?;
        let sessions = std::mem::replace(&mut self.sessions, Listed::new(alloc));
        self.sessions = count_line(sessions, place);
        Ok(data_lines)
    }

    fn put_piece(
        &mut self,
        alloc: Global,
        number: u32,
        piece: Piece,
        behind: &[u8],
    ) -> Result<u32, Flaw>
        requires nodes { length self.old.nodes ≤ MOST_NODES }
        requires sessions { length self.old.sessions ≤ MOST_SESSIONS }
        ensures { Steps (spec.put_piece number piece (lines_of behind.now) self.old) result self.new }
    {
        match piece {
            Piece::Statement { session, statement } => {
                self.put_statement(alloc, number, session, statement, behind)
            }
            Piece::Directive(directive) => {
                self.put_directive(alloc, number, directive)?;
                Ok(0)
            }
        }
    }

    /// Puts what a line says at the end, if it may stand there; it answers how many lines of data are behind it.
    pub fn put(
        &mut self,
        alloc: Global,
        number: u32,
        piece: Piece,
        behind: &[u8],
    ) -> Result<u32, Flaw>
        requires { HasRoom self.old }
        ensures { Steps (spec.put number piece (lines_of behind.now) self.old) result self.new }
    {
        self.taken += 1;
        self.put_piece(alloc, number, piece, behind)
    }
}
