//! What a line is answered.
use crate::answers::{Answer, Freed, Sent, Versions};
use iq_base::{Census, Name, Refusal};

/// The answer of one line. `commit` is the number under which an autocommit line is committed.
#[derive(Debug, Drop)]
pub enum Said {
    Created { commit: Option<u64> },
    Dropped { commit: Option<u64> },
    Inserted { rows: u32, commit: Option<u64> },
    Deleted { rows: u32, commit: Option<u64> },
    Updated { rows: u32, commit: Option<u64> },
    Answer(Answer),
    Begun { commit: u64 },
    Committed { commit: u64 },
    Ended,
    RolledBack,
    Saved { name: Name },
    BackTo { name: Name },
    Released { name: Name },
    Synced { commit: u64 },
    Applied { commit: u64 },
    Sent(Sent),
    Lost { number: u32 },
    Taken(Freed),
    Restarted { incarnation: u32 },
    Excluded { incarnation: u32 },
    Included { commit: u64 },
    Space(Census),
    Versions(Versions),
    Refused(Refusal),
}

/// A line's number and its answer.
#[derive(Debug, Drop)]
pub struct Reply {
    pub line: u32,
    pub said: Said,
}
