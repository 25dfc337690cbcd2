//! A High Group index.
use iq_base::Kind;

/// The two objects of a High Group index, its leaves and its directory, what its column may hold, and the rows of its table, removed
/// ones too.
#[derive(Clone, Copy, Debug, PartialEq, Eq)]
pub struct Hg {
    pub leaves: u32,
    pub directory: u32,
    pub kind: Kind,
    pub slots: u32,
}
