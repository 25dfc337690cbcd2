//! The data of a LOAD.
ghost use Rattle.std.specs.Prelude.{◌≡◌, ◌≤◌, ◌<◌, length, take, IfSome, None};
ghost use Rattle.iq_script.specs.Lines.{lines_of};
ghost use Rattle.iq_script.specs.Putting as spec;
ghost use Rattle.iq_script.specs.Putting.{IsDataOf, Loads};

use crate::faults::{Flaw, LineFault};
use crate::lines::first_line;
use iq_ast::{Statement, Write};
use iq_base::{Listed, Name};
use std::alloc::Global;

/// A statement with its data, and how many lines of a script these are.
#[derive(Debug, Drop)]
pub struct Loaded {
    pub statement: Statement,
    pub data_lines: u32,
}

/// The data that a LOAD wants: for its table, so many lines.
#[derive(Debug, Drop)]
pub struct Wanted {
    pub table: Name,
    pub rows: u32,
}

/// How many bytes so many of the lines are that the bytes begin with, their ends with them; `None` where there are fewer lines.
fn data_len(bytes: &[u8], lines: u32) -> Option<usize>
    ensures some { IfSome result (λ n. IsDataOf lines (lines_of bytes.now) (take n bytes.now)) }
    ensures within { IfSome result (λ n. n ≤ length bytes.now) }
    ensures none { result ≡ None → length (lines_of bytes.now) < lines }
{
    let mut rest = bytes;
    for i in 0..lines {
        if rest.is_empty() {
            return None;
        }
        rest = first_line(rest).1;
    }
    Some(bytes.len() - rest.len())
}

/// A LOAD with its data, which are copied once.
fn load(alloc: Global, table: Name, rows: u32, behind: &[u8]) -> Result<Loaded, Flaw>
    ensures { Loads (spec.load table rows (lines_of behind.now)) result }
{
    let Some(len) = data_len(behind, rows) else {
        return Err(Flaw::Fault(LineFault::ShortLoad));
    };
    let data = behind.split_at(len).0;
    let mut text = Vec::with_capacity(alloc, data.len())?;
    text.extend_from_slice(data)?;
    Ok(Loaded {
        statement: Statement::Write(Write::Load {
            table,
            rows,
            text: Listed::from_vec(text),
        }),
        data_lines: rows,
    })
}

/// What data a write wants: a LOAD alone does.
fn wanted_by(write: &Write) -> Option<Wanted>
    ensures { result ≡ spec.wanted_by write.now }
{
    match write {
        Write::Load { table, rows, .. } => Some(Wanted {
            table: table.again(),
            rows: *rows,
        }),
        Write::CreateTable { .. }
        | Write::DropTable { .. }
        | Write::CreateIndex { .. }
        | Write::DropIndex { .. }
        | Write::Insert { .. }
        | Write::Delete { .. }
        | Write::Update { .. } => None,
    }
}

fn wanted_of(statement: &Statement) -> Option<Wanted>
    ensures { result ≡ spec.wanted_of statement.now }
{
    match statement {
        Statement::Write(write) => wanted_by(write),
        Statement::Select(_)
        | Statement::Begin
        | Statement::Commit
        | Statement::Rollback
        | Statement::Savepoint(_)
        | Statement::BackTo(_)
        | Statement::Release(_)
        | Statement::Sync => None,
    }
}

/// A statement with its data, where it has any, of the lines behind it.
pub fn with_data(alloc: Global, statement: Statement, behind: &[u8]) -> Result<Loaded, Flaw>
    ensures { Loads (spec.with_data statement (lines_of behind.now)) result }
{
    match wanted_of(&statement) {
        Some(Wanted { table, rows }) => load(alloc, table, rows, behind),
        None => Ok(Loaded {
            statement,
            data_lines: 0,
        }),
    }
}
