//! The work of a commit: its names, and its tables.
ghost use Rattle.std.specs.Prelude.{◌≡◌, ◌++◌, IfOk, map, fold};
ghost use Rattle.iq_replay.specs.Commits.{written_names, with_seen, table_names, written_at};

use iq_base::{Listed, Name, NoMemory};
use iq_plain_sessions::{PlainWork, PlainWritten, catalog, copied_names};
use iq_plain_tables::{PlainTable, PlainTables, copied_tables, with_seen};
use std::alloc::Global;

/// The names that a transaction writes at its commit.
pub(crate) fn written_names(alloc: Global, work: &PlainWork) -> Result<Listed<Name>, NoMemory>
    ensures { IfOk result (λ names. names ≡ written_names work.now) }
{
    let mut names = copied_names(alloc, work.held())?;
    for name in work.created() {
        names.push(name.again())?;
    }
    Ok(names)
}

/// Tables with the tables of these names as they are seen.
pub(crate) fn committed(
    alloc: Global,
    seen: &[PlainTable],
    names: &[Name],
    tables: &[PlainTable],
) -> Result<PlainTables, NoMemory>
    ensures { IfOk result (λ put. put ≡ fold (with_seen seen.now) tables.now (table_names names.now)) }
{
    let of_all = catalog();
    let mut put = copied_tables(alloc, tables)?;
    for name in names {
        if *name == of_all {
            continue;
        }
        put = with_seen(alloc, seen, put.as_slice(), name)?;
    }
    Ok(put)
}

/// These names as a commit wrote them.
pub(crate) fn written_at(
    alloc: Global,
    c: u64,
    names: &[Name],
) -> Result<Vec<PlainWritten>, NoMemory>
    ensures { IfOk result (λ wrote. wrote.items ≡ map (written_at c) names.now) }
{
    let mut wrote = Vec::new(alloc);
    for name in names {
        wrote.push(PlainWritten::at(c, name))?;
    }
    Ok(wrote)
}
