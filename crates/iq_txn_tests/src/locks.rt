//! Who gets a name, and why another doesn't.
use crate::checks::same_text;
use iq_base::{Name, NoMemory, Refusal};
use iq_locks::LockTable;
use std::alloc::{AllocError, Global};
use std::process::Abort;
use std::test::Fail;

/// What happens to a table of locks.
#[derive(Clone, Copy)]
enum Step {
    /// A session asks for names, with a snapshot.
    Ask(u32, &'static [&'static str], u64),
    /// A commit writes a name.
    Wrote(&'static str, u64),
    /// A session keeps the first names that it holds.
    Keep(u32, usize),
    DropAll(u32),
}

/// Steps of three sessions, and what comes of each: what the session that asks holds then, or who holds the name, or which commit
/// wrote it.
const BY_SNAPSHOT: [(Step, &str); 8] = [
    (Step::Ask(1, &["t"], 0), "t "),
    (Step::Ask(2, &["t"], 0), "locked t 1"),
    (Step::Ask(1, &["t", "u"], 0), "t u "),
    (Step::Wrote("t", 3), "wrote t 3"),
    // What a session holds isn't refused again, whatever was written since.
    (Step::Ask(1, &["u", "t"], 0), "t u "),
    (Step::DropAll(1), ""),
    (Step::Ask(2, &["t"], 0), "later t 3"),
    (Step::Ask(2, &["t"], 3), "t "),
];

const BY_ORDER: [(Step, &str); 10] = [
    (Step::Wrote("a", 5), "wrote a 5"),
    (Step::Wrote("c", 7), "wrote c 7"),
    (Step::Wrote("a", 6), "wrote a 6"),
    (Step::Ask(0, &["b"], 0), "b "),
    (Step::Ask(1, &["a", "b"], 4), "locked b 0"),
    (Step::Ask(1, &["c", "a"], 6), "later c 7"),
    (Step::Ask(1, &["a", "d"], 6), "a d "),
    (Step::Keep(1, 1), "a "),
    (Step::Ask(1, &["d", "b"], 6), "locked b 0"),
    (Step::Ask(0, &["d"], 6), "b d "),
];

fn names(alloc: Global, texts: &[&str]) -> Result<Vec<Name>, AllocError> {
    let mut names = Vec::new(alloc);
    for text in texts {
        if let Some(name) = Name::of(text) {
            names.push(name)?;
        }
    }
    Ok(names)
}

/// The names that a session holds, each with a space behind it.
fn held(alloc: Global, table: &LockTable, s: u32) -> Result<String, AllocError> {
    let mut held = String::new(alloc);
    if table.sessions() > s {
        for name in table.held(s) {
            held.push_str(name.as_str())?;
            held.push_str(" ")?;
        }
    }
    Ok(held)
}

/// A session asks for names, where that may be done.
fn acquire(table: &mut LockTable, names: &[Name], s: u32, snapshot: u64) -> Result<(), Refusal> {
    if table.sessions() <= s {
        return Err(Refusal::NoTransaction);
    }
    let count = table.held(s).len() + names.len();
    if count > 64 {
        return Err(Refusal::NoTransaction);
    }
    table.acquire(names, s, snapshot)
}

fn ask(
    alloc: Global,
    table: &mut LockTable,
    texts: &[&str],
    s: u32,
    snapshot: u64,
) -> Result<String, AllocError> {
    match acquire(table, names(alloc, texts)?.as_slice(), s, snapshot) {
        Ok(()) => held(alloc, table, s),
        Err(Refusal::Locked { table, session }) => { format!(in alloc; "locked {table} {session}") }
        Err(Refusal::Later { table, commit }) => format!(in alloc; "later {table} {commit}"),
        Err(_) => String::from_str(alloc, "another refusal"),
    }
}

/// A commit writes a name; which is the last that did then.
fn write(table: &mut LockTable, text: &str, commit: u64) -> Result<u64, NoMemory> {
    table.name_room(1)?;
    match Name::of(text) {
        None => Ok(0),
        Some(name) => {
            table.wrote(&name, commit);
            Ok(table.latest(&name))
        }
    }
}

fn keep(table: &mut LockTable, s: u32, n: usize) {
    if table.sessions() > s {
        table.keep(s, n);
    }
}

fn drop_all(table: &mut LockTable, s: u32) {
    if table.sessions() > s {
        table.drop_all(s);
    }
}

/// Takes a step, and tells what comes of it.
fn go(alloc: Global, table: &mut LockTable, step: &Step) -> Result<String, NoMemory> {
    match step {
        Step::Ask(s, names, snapshot) => Ok(ask(alloc, table, names, *s, *snapshot)?),
        Step::Wrote(name, commit) => {
            let latest = write(table, name, *commit)?;
            Ok(format!(in alloc; "wrote {name} {latest}")?)
        }
        Step::Keep(s, n) => {
            keep(table, *s, *n);
            Ok(held(alloc, table, *s)?)
        }
        Step::DropAll(s) => {
            drop_all(table, *s);
            Ok(held(alloc, table, *s)?)
        }
    }
}

fn goes(
    rt: &impl Abort,
    alloc: Global,
    sessions: u32,
    steps: &[(Step, &str)],
) -> Result<(), NoMemory> {
    let mut table = LockTable::unlocked(alloc, sessions)?;
    for (row, (step, told)) in steps.iter().enumerate() {
        let found = go(alloc, &mut table, step)?;
        same_text(rt, found.as_str(), told, row);
    }
    Ok(())
}

#[test]
fn a_name_is_held_by_one_session_and_not_past_its_snapshot(rt: HostRuntime) -> Result<(), Fail> {
    Ok(goes(&rt, rt.alloc(), 3, &BY_SNAPSHOT)?)
}

#[test]
fn a_lock_of_another_is_told_before_a_later_commit(rt: HostRuntime) -> Result<(), Fail> {
    Ok(goes(&rt, rt.alloc(), 2, &BY_ORDER)?)
}
