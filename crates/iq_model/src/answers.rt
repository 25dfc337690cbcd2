//! What queries and steps answer.
ghost use Rattle.std.specs.Prelude.{◌≡◌};
ghost use Rattle.iq_model.specs.Outs.{out_of};

use crate::answer_rows::AnswerRows;
use iq_base::{Letters, Listed, Text, Value};

/// A value of an answer. Sums are of whole numbers of 128 bits.
#[derive(Debug, Drop)]
pub enum Out {
    Null,
    Int(i128),
    Text(Text),
}

impl Out {
    /// The same value once more, without memory.
    pub fn again(&self) -> Out
        ensures { result ≡ self.now }
    {
        match self {
            Out::Null => Out::Null,
            Out::Int(number) => Out::Int(*number),
            Out::Text(text) => Out::Text(text.again()),
        }
    }
}

/// A value of a table as it is answered.
pub fn out_of(value: &Value) -> Out
    ensures { result ≡ out_of value.now }
{
    match value {
        Value::Null => Out::Null,
        Value::Int(number) => Out::Int(i128::from(*number)),
        Value::Text(text) => Out::Text(text.again()),
    }
}

/// What a query answers: its rows, or under EXPLAIN the texts of its plan.
#[derive(Debug, Drop)]
pub enum Answer {
    Rows(AnswerRows),
    Plan(Listed<Letters>),
}

/// The latest commit, the horizon last used for freeing, and a row for each node.
#[derive(Debug, Drop)]
pub struct Versions {
    pub latest: u64,
    pub horizon: u64,
    pub nodes: Listed<NodeVersion>,
}

/// What sending a report did: a secondary's floor is in the mail bag under a number; the coordinator's own is taken at once.
#[derive(Clone, Copy, Debug, PartialEq, Eq)]
pub enum Sent {
    Bagged { number: u32, floor: u64 },
    Own { horizon: u64, freed: u32 },
}

/// What taking a report did: the horizon then, and how many blocks were freed up to it.
#[derive(Clone, Copy, Debug, PartialEq, Eq)]
pub struct Freed {
    pub horizon: u64,
    pub freed: u32,
}

/// What VERSIONS tells of one node, which it names by its place.
#[derive(Clone, Copy, Debug, PartialEq, Eq)]
pub struct NodeVersion {
    pub node: u32,
    pub position: u64,
    pub floor: u64,
    pub taken: u64,
    pub incarnation: u32,
    pub excluded: bool,
}
