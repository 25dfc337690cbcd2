//! Entries of a history.
use iq_base::{Census, Locks, Name, Refusal};

/// One step at the shared state. `s` is a session's place and `n` a node's, in the order of declaration from 0; `l` is the
/// line that the step belongs to, 0 for agents and for the end of the script; `c` is a commit.
#[derive(Debug, Drop)]
pub enum Entry {
    /// A transaction begins with snapshot `c`.
    Begin {
        s: u32,
        l: u32,
        c: u64,
    },
    /// The names are locked.
    Lock {
        s: u32,
        l: u32,
        names: Locks,
    },
    /// A table statement took effect.
    Done {
        s: u32,
        l: u32,
    },
    /// The line is refused; a step has no session.
    Refused {
        s: Option<u32>,
        l: u32,
        cause: Refusal,
    },
    /// The transaction ends with the number `c`.
    Commit {
        s: u32,
        l: u32,
        c: u64,
    },
    /// The transaction ends without a number.
    End {
        s: u32,
        l: u32,
    },
    /// The transaction is rolled back.
    Rollback {
        s: u32,
        l: u32,
    },
    /// Commit `c` met a device fault, while the device's count rose from `before` to `after`.
    Halt {
        s: u32,
        l: u32,
        c: u64,
        before: u64,
        after: u64,
    },
    Savepoint {
        s: u32,
        l: u32,
        name: Name,
    },
    Back {
        s: u32,
        l: u32,
        name: Name,
    },
    Release {
        s: u32,
        l: u32,
        name: Name,
    },
    /// The session's node moves to the log's end.
    Sync {
        s: u32,
        l: u32,
        c: u64,
    },
    /// The node applies one record of the version log.
    Apply {
        n: u32,
        l: u32,
        c: u64,
    },
    /// The node's floor is in the mail bag under a number.
    Send {
        n: u32,
        l: u32,
        number: u32,
        floor: u64,
    },
    Lose {
        l: u32,
        number: u32,
    },
    Take {
        l: u32,
        number: u32,
        horizon: u64,
        freed: u32,
    },
    /// The coordinator's report, taken where it is made.
    Own {
        n: u32,
        l: u32,
        horizon: u64,
        freed: u32,
    },
    Restart {
        n: u32,
        l: u32,
        incarnation: u32,
    },
    /// The node is excluded, and its transactions end.
    Exclude {
        n: u32,
        l: u32,
        incarnation: u32,
    },
    /// The node is included again, at commit `c`.
    Include {
        n: u32,
        l: u32,
        c: u64,
    },
    Space {
        l: u32,
        census: Census,
    },
    Versions {
        l: u32,
    },
}
