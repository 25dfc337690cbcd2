//! Entries of the history.
ghost use Rattle.std.specs.Prelude.{◌≡◌, ◌<◌, ◌∷◌, [], ◌++◌, length, OnOk, flat_map};
ghost use Rattle.std.specs.String.{string_bytes};
ghost use Rattle.iq_history.specs.Placed.{IsPlaced, IsPlacedSession};
ghost use Rattle.iq_history.specs.State.{ArePlaced};
ghost use Rattle.iq_render.specs.Values.{then_name, then_number};
ghost use Rattle.iq_render.specs.Entries.{placed_text, step_text, refused_text, entry_text, numbered_lines};

use crate::refusals::{push_census_numbers, push_refusal};
use crate::values::{push_name, push_number, push_place};
use iq_base::{Locks, Name};
use iq_history::Entry;
use std::alloc::AllocError;

/// The entries, each on a line after its number from 1.
pub(crate) fn push_entries(
    out: &mut String,
    nodes: &[Name],
    sessions: &[Name],
    entries: &[Entry],
) -> Result<(), AllocError>
    requires { ArePlaced nodes.now sessions.now entries.now }
    ensures { OnOk result (string_bytes out.new ≡ string_bytes out.old ++ numbered_lines nodes.now sessions.now 1 entries.now) }
{
    for (i, entry) in entries.iter().enumerate() {
        let number = i + 1;
        write!(out, "#{number} ")?;
        push_entry(out, nodes, sessions, entry)?;
        out.push_str("\n")?;
    }
    Ok(())
}

/// An entry: its word, its session or node, its line and its numbers.
pub(crate) fn push_entry(
    out: &mut String,
    nodes: &[Name],
    sessions: &[Name],
    entry: &Entry,
) -> Result<(), AllocError>
    requires { IsPlaced (length nodes.now) (length sessions.now) entry.now }
    ensures { OnOk result (string_bytes out.new ≡ string_bytes out.old ++ entry_text nodes.now sessions.now entry.now) }
{
    match entry {
        Entry::Begin { s, l, c } => push_placed_count(out, "begin", sessions, *s, *l, *c),
        Entry::Lock { s, l, names } => {
            push_placed(out, "lock", sessions, *s, *l)?;
            push_locks(out, names)
        }
        Entry::Done { s, l } => push_placed(out, "done", sessions, *s, *l),
        Entry::Refused { s, l, cause } => {
            push_refused(out, sessions, *s, *l)?;
            push_refusal(out, sessions, cause)
        }
        Entry::Commit { s, l, c } => push_placed_count(out, "commit", sessions, *s, *l, *c),
        Entry::End { s, l } => push_placed(out, "end", sessions, *s, *l),
        Entry::Rollback { s, l } => push_placed(out, "rollback", sessions, *s, *l),
        Entry::Halt {
            s,
            l,
            c,
            before,
            after,
        } => {
            push_placed_count(out, "halt", sessions, *s, *l, *c)?;
            push_number(out, *before)?;
            push_number(out, *after)
        }
        Entry::Savepoint { s, l, name } => push_placed_name(
            out,
            "savepoint",
            sessions,
            *s,
            *l,
            name,
        ),
        Entry::Back { s, l, name } => push_placed_name(out, "back", sessions, *s, *l, name),
        Entry::Release { s, l, name } => push_placed_name(out, "release", sessions, *s, *l, name),
        Entry::Sync { s, l, c } => push_placed_count(out, "sync", sessions, *s, *l, *c),
        Entry::Apply { n, l, c } => push_placed_count(out, "apply", nodes, *n, *l, *c),
        Entry::Send {
            n,
            l,
            number,
            floor,
        } => {
            push_placed_count(out, "send", nodes, *n, *l, *number as u64)?;
            push_number(out, *floor)
        }
        Entry::Lose { l, number } => push_step_count(out, "lose", *l, *number as u64),
        Entry::Take {
            l,
            number,
            horizon,
            freed,
        } => {
            push_step_count(out, "take", *l, *number as u64)?;
            push_number(out, *horizon)?;
            push_number(out, *freed as u64)
        }
        Entry::Own {
            n,
            l,
            horizon,
            freed,
        } => {
            push_placed_count(out, "own", nodes, *n, *l, *horizon)?;
            push_number(out, *freed as u64)
        }
        Entry::Restart { n, l, incarnation } => push_placed_count(
            out,
            "restart",
            nodes,
            *n,
            *l,
            *incarnation as u64,
        ),
        Entry::Exclude { n, l, incarnation } => push_placed_count(
            out,
            "exclude",
            nodes,
            *n,
            *l,
            *incarnation as u64,
        ),
        Entry::Include { n, l, c } => push_placed_count(out, "include", nodes, *n, *l, *c),
        Entry::Space { l, census } => {
            push_step(out, "space", *l)?;
            push_census_numbers(out, census)
        }
        Entry::Versions { l } => push_step(out, "versions", *l),
    }
}

/// A word, the name at a place, and a line.
fn push_placed(
    out: &mut String,
    word: &str,
    names: &[Name],
    place: u32,
    l: u32,
) -> Result<(), AllocError>
    requires { place < length names.now }
    ensures { OnOk result (string_bytes out.new ≡ string_bytes out.old ++ placed_text word.now names.now place l) }
{
    out.push_str(word)?;
    push_place(out, names, place)?;
    push_number(out, l as u64)
}

/// A word, the name at a place, a line and a number.
fn push_placed_count(
    out: &mut String,
    word: &str,
    names: &[Name],
    place: u32,
    l: u32,
    number: u64,
) -> Result<(), AllocError>
    requires { place < length names.now }
    ensures { OnOk result (string_bytes out.new ≡ string_bytes out.old ++ (placed_text word.now names.now place l ++ then_number number)) }
{
    push_placed(out, word, names, place, l)?;
    push_number(out, number)
}

/// A word, the name at a place, a line and a name.
fn push_placed_name(
    out: &mut String,
    word: &str,
    names: &[Name],
    place: u32,
    l: u32,
    name: &Name,
) -> Result<(), AllocError>
    requires { place < length names.now }
    ensures { OnOk result (string_bytes out.new ≡ string_bytes out.old ++ (placed_text word.now names.now place l ++ then_name name.now)) }
{
    push_placed(out, word, names, place, l)?;
    push_name(out, name)
}

/// A word of a step without session and node, and a line.
fn push_step(out: &mut String, word: &str, l: u32) -> Result<(), AllocError>
    ensures { OnOk result (string_bytes out.new ≡ string_bytes out.old ++ step_text word.now l) }
{
    out.push_str(word)?;
    out.push_str(" -")?;
    push_number(out, l as u64)
}

/// A word of a step without session and node, a line and a number.
fn push_step_count(out: &mut String, word: &str, l: u32, number: u64) -> Result<(), AllocError>
    ensures { OnOk result (string_bytes out.new ≡ string_bytes out.old ++ (step_text word.now l ++ then_number number)) }
{
    push_step(out, word, l)?;
    push_number(out, number)
}

/// The word of a refused line, its session, or of a step none, and the line.
fn push_refused(
    out: &mut String,
    sessions: &[Name],
    s: Option<u32>,
    l: u32,
) -> Result<(), AllocError>
    requires { IsPlacedSession (length sessions.now) s }
    ensures { OnOk result (string_bytes out.new ≡ string_bytes out.old ++ (refused_text sessions.now s l ++ 32 ∷ [])) }
{
    match s {
        Some(s) => push_placed(out, "refused", sessions, s, l)?,
        None => push_step(out, "refused", l)?,
    }
    out.push_str(" ")
}

/// The locked names, each after a space.
fn push_locks(out: &mut String, names: &Locks) -> Result<(), AllocError>
    ensures { OnOk result (string_bytes out.new ≡ string_bytes out.old ++ flat_map then_name names.now) }
{
    let (catalog, table) = names.parts();
    if catalog {
        out.push_str(" catalog")?;
    }
    match table {
        None => Ok(()),
        Some(name) => push_name(out, name),
    }
}
