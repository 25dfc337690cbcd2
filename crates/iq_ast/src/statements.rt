//! Statements.
use crate::conditions::Cond;
use iq_base::{IndexKind, Listed, Name, Row, Schema, Value};

/// One member of a SELECT's list.
#[derive(Debug, Drop)]
pub enum Item {
    Plain(Name),
    CountAll,
    Count(Name),
    Sum(Name),
    Min(Name),
    Max(Name),
}

/// One column of ORDER BY; `desc` reverses the order, NULL with it.
#[derive(Debug, Drop)]
pub struct Order {
    pub column: Name,
    pub desc: bool,
}

/// One assignment of SET.
#[derive(Debug, Drop)]
pub struct Change {
    pub column: Name,
    pub value: Value,
}

/// A query. `items` is empty where the text has `*`, which means all columns in order.
#[derive(Debug, Drop)]
pub struct Select {
    pub explain: bool,
    pub items: Listed<Item>,
    pub table: Name,
    pub cond: Option<Cond>,
    pub group: Listed<Name>,
    pub order: Listed<Order>,
}

/// A statement that changes tables. `text` of a LOAD has its CSV bytes.
#[derive(Debug, Drop)]
pub enum Write {
    CreateTable {
        name: Name,
        schema: Schema,
    },
    DropTable {
        name: Name,
    },
    CreateIndex {
        name: Name,
        kind: IndexKind,
        table: Name,
        column: Name,
        second: Option<Name>,
    },
    DropIndex {
        table: Name,
        name: Name,
    },
    Insert {
        table: Name,
        rows: Listed<Row>,
    },
    Load {
        table: Name,
        rows: u32,
        text: Listed<u8>,
    },
    Delete {
        table: Name,
        cond: Option<Cond>,
    },
    Update {
        table: Name,
        changes: Listed<Change>,
        cond: Option<Cond>,
    },
}

/// A statement of a session.
#[derive(Debug, Drop)]
pub enum Statement {
    Write(Write),
    Select(Select),
    Begin,
    Commit,
    Rollback,
    Savepoint(Name),
    BackTo(Name),
    Release(Name),
    Sync,
}
