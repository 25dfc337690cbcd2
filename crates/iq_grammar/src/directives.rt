//! Directives: the lines of a script that belong to no session.
use iq_base::{Name, NodeKind};

/// A declaration of a node or a session, or a step of the multiplex itself.
#[derive(Debug, Drop)]
pub enum Directive {
    Node { name: Name, kind: NodeKind },
    Session { name: Name, node: Name },
    Apply(Name),
    Report(Name),
    Lose(u32),
    Take(u32),
    Restart(Name),
    Exclude(Name),
    Include(Name),
    Space,
    Versions,
}
