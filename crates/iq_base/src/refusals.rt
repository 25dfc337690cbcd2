//! Why a line is refused.
ghost use Rattle.std.specs.Prelude.{◌≡◌};

use crate::memory::NoMemory;
use crate::texts::Name;
use std::alloc::{AllocError, AllocFailed};

/// Where the blocks of a store are: on the free list, reserved for secondaries, private to running transactions, reached by
/// the latest commit, and waiting to be freed. With the four root blocks these are all blocks.
#[derive(Clone, Copy, Debug, PartialEq, Eq)]
pub struct Census {
    pub free: u32,
    pub reserved: u32,
    pub private: u32,
    pub reached: u32,
    pub waiting: u32,
}

/// What is wrong with a value of an inserted or loaded row.
#[derive(Clone, Copy, Debug, PartialEq, Eq)]
pub enum FieldCause {
    /// The row has not one value for each column; named with field 0.
    Count,
    /// A number column is given what is no number.
    NotNumber,
    /// A text column is given what is no text.
    NotText,
    /// A number is outside the column's type.
    Range,
    /// NULL is given to a column that may not hold it.
    NullRefused,
    /// A text is longer than the column's length.
    TextTooLong,
    /// The bytes of a text aren't UTF-8.
    NotUtf8,
}

/// Why a line is refused, with the names and numbers that show it. No variant needs memory. Session places are counted from 0
/// in the order of declaration.
#[derive(Clone, Debug, Drop)]
pub enum Refusal {
    /// A restart or an exclusion of the session's node ended its transaction; the node's incarnation now.
    Lost {
        incarnation: u32,
    },
    /// The session's node, or a step's, is excluded.
    Excluded {
        node: Name,
    },
    /// BEGIN or SYNC inside a transaction.
    InTransaction,
    /// COMMIT, ROLLBACK or a savepoint statement outside a transaction.
    NoTransaction,
    /// No savepoint of that name stands.
    NoSavepoint {
        name: Name,
    },
    /// 16 savepoints stand.
    TooManySavepoints,
    /// CREATE or DROP inside a transaction.
    DdlInTransaction,
    /// A write statement on a reader.
    ReadOnly {
        node: Name,
    },
    /// The name is none of the tables seen.
    NoTable {
        name: Name,
    },
    /// The name is one of the tables seen.
    TableExists {
        name: Name,
    },
    /// The first name, in text order, that is no column.
    NoColumn {
        name: Name,
    },
    /// The table has no such index.
    NoIndex {
        name: Name,
    },
    /// The table has that index.
    IndexExists {
        name: Name,
    },
    /// 64 tables, or 32 indexes of the table, are there.
    CatalogFull,
    /// The first column, in text order, that is used with a value or a column of another class.
    TypeMismatch {
        column: Name,
    },
    /// A column that isn't a grouping column, beside an aggregate or GROUP BY.
    NotGrouped {
        column: Name,
    },
    /// SET of NULL to a column that may not hold it.
    NullRefused {
        column: Name,
    },
    /// SET of a text longer than the column's length.
    TextTooLong {
        column: Name,
    },
    /// The first bad value of the rows, rows and fields counted from 1; field 0 for a wrong number of fields.
    BadRow {
        row: u32,
        field: u32,
        cause: FieldCause,
    },
    /// A write after that commit met a device fault.
    Halted {
        commit: u64,
    },
    /// Another running transaction holds the name.
    Locked {
        table: Name,
        session: u32,
    },
    /// The name's latest commit is past the snapshot.
    Later {
        table: Name,
        commit: u64,
    },
    /// The slots would pass the table's row limit.
    TableFull {
        limit: u32,
    },
    /// The index can't be on this column.
    IndexUnfit {
        column: Name,
    },
    /// The slots have more distinct values than the index serves.
    TooManyDistinct {
        index: Name,
        distinct: u32,
    },
    /// No block is free for the transaction; the census then.
    NoSpace {
        census: Census,
    },
    /// The device's count of faults rose so in a turn of the line.
    StoreFault {
        before: u64,
        after: u64,
    },
    /// The bytes of a page aren't of their form.
    BadPage {
        object: u32,
        page: u32,
    },
    /// The node isn't declared.
    NoNode {
        name: Name,
    },
    /// The node is the coordinator.
    IsCoordinator {
        name: Name,
    },
    /// The node isn't excluded.
    NotExcluded {
        node: Name,
    },
    /// No report of that number is in the bag.
    NoReport {
        number: u32,
    },
    /// The node's position is the end of the version log.
    AtEnd {
        commit: u64,
    },
    /// An allocation was refused.
    NoMemory,
}

impl Refusal {
    /// The same refusal once more, without memory.
    pub fn again(&self) -> Refusal
        ensures { result ≡ self.now }
    {
        match self {
            Refusal::Lost { incarnation } => Refusal::Lost {
                incarnation: *incarnation,
            },
            Refusal::Excluded { node } => Refusal::Excluded { node: node.again() },
            Refusal::InTransaction => Refusal::InTransaction,
            Refusal::NoTransaction => Refusal::NoTransaction,
            Refusal::NoSavepoint { name } => Refusal::NoSavepoint { name: name.again() },
            Refusal::TooManySavepoints => Refusal::TooManySavepoints,
            Refusal::DdlInTransaction => Refusal::DdlInTransaction,
            Refusal::ReadOnly { node } => Refusal::ReadOnly { node: node.again() },
            Refusal::NoTable { name } => Refusal::NoTable { name: name.again() },
            Refusal::TableExists { name } => Refusal::TableExists { name: name.again() },
            Refusal::NoColumn { name } => Refusal::NoColumn { name: name.again() },
            Refusal::NoIndex { name } => Refusal::NoIndex { name: name.again() },
            Refusal::IndexExists { name } => Refusal::IndexExists { name: name.again() },
            Refusal::CatalogFull => Refusal::CatalogFull,
            Refusal::TypeMismatch { column } => Refusal::TypeMismatch {
                column: column.again(),
            },
            Refusal::NotGrouped { column } => Refusal::NotGrouped {
                column: column.again(),
            },
            Refusal::NullRefused { column } => Refusal::NullRefused {
                column: column.again(),
            },
            Refusal::TextTooLong { column } => Refusal::TextTooLong {
                column: column.again(),
            },
            Refusal::BadRow { row, field, cause } => Refusal::BadRow {
                row: *row,
                field: *field,
                cause: *cause,
            },
            Refusal::Halted { commit } => Refusal::Halted { commit: *commit },
            Refusal::Locked { table, session } => Refusal::Locked {
                table: table.again(),
                session: *session,
            },
            Refusal::Later { table, commit } => Refusal::Later {
                table: table.again(),
                commit: *commit,
            },
            Refusal::TableFull { limit } => Refusal::TableFull { limit: *limit },
            Refusal::IndexUnfit { column } => Refusal::IndexUnfit {
                column: column.again(),
            },
            Refusal::TooManyDistinct { index, distinct } => Refusal::TooManyDistinct {
                index: index.again(),
                distinct: *distinct,
            },
            Refusal::NoSpace { census } => Refusal::NoSpace { census: *census },
            Refusal::StoreFault { before, after } => Refusal::StoreFault {
                before: *before,
                after: *after,
            },
            Refusal::BadPage { object, page } => Refusal::BadPage {
                object: *object,
                page: *page,
            },
            Refusal::NoNode { name } => Refusal::NoNode { name: name.again() },
            Refusal::IsCoordinator { name } => Refusal::IsCoordinator { name: name.again() },
            Refusal::NotExcluded { node } => Refusal::NotExcluded { node: node.again() },
            Refusal::NoReport { number } => Refusal::NoReport { number: *number },
            Refusal::AtEnd { commit } => Refusal::AtEnd { commit: *commit },
            Refusal::NoMemory => Refusal::NoMemory,
        }
    }
}

impl From<NoMemory> for Refusal {
    ghost use Rattle.std.specs.Prelude.{◌≡◌};
    ghost use Rattle.iq_base.specs.declared.refusals.Refusal.TheVariants as refusals;

    ghost from_gives = { λ _ e. e ≡ refusals.NoMemory };

    fn from(_: NoMemory) -> Refusal {
        Refusal::NoMemory
    }
}

impl From<AllocError> for Refusal {
    ghost use Rattle.std.specs.Prelude.{◌≡◌};
    ghost use Rattle.iq_base.specs.declared.refusals.Refusal.TheVariants as refusals;

    ghost from_gives = { λ _ e. e ≡ refusals.NoMemory };

    fn from(_: AllocError) -> Refusal {
        Refusal::NoMemory
    }
}

impl<T: Drop> From<AllocFailed<T>> for Refusal {
    ghost use Rattle.std.specs.Prelude.{◌≡◌};
    ghost use Rattle.iq_base.specs.declared.refusals.Refusal.TheVariants as refusals;

    ghost from_gives = { λ _ e. e ≡ refusals.NoMemory };

    fn from(_: AllocFailed<T>) -> Refusal {
        Refusal::NoMemory
    }
}
