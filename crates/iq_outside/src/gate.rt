//! What surrounds each session line.

/// Is called before and after each session line of a run on threads, outside every turn. It changes no answer.
pub trait Gate {
    /// Before a session's line runs.
    fn before(&self, session: u32, line: u32);

    /// After it ran.
    fn after(&self, session: u32, line: u32);
}

/// A gate that does nothing. It is the shipped one.
#[derive(Clone, Copy, Debug, PartialEq, Eq)]
pub struct OpenGate;

impl Gate for OpenGate {
    fn before(&self, _session: u32, _line: u32) {}

    fn after(&self, _session: u32, _line: u32) {}
}
