//! Declared nodes and sessions.
use crate::texts::Name;

/// What a node may do. The coordinator keeps the free list and the version log, a writer writes, a reader only reads
/// (Using Sybase IQ Multiplex).
#[derive(Clone, Copy, Debug, PartialEq, Eq)]
pub enum NodeKind {
    Coordinator,
    Writer,
    Reader,
}

/// A declared node.
#[derive(Debug, Drop)]
pub struct NodeSpec {
    pub name: Name,
    pub kind: NodeKind,
}

/// A declared session: its node's place from 0, and how many lines of the script are its own.
#[derive(Debug, Drop)]
pub struct SessionSpec {
    pub name: Name,
    pub node: u32,
    pub lines: u32,
}
