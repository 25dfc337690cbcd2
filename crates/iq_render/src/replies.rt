//! Replies.
ghost use Rattle.std.specs.Prelude.{◌≡◌, ◌<◌, ◌++◌, length, OnOk, flat_map};
ghost use Rattle.std.specs.String.{string_bytes};
ghost use Rattle.iq_render.specs.Values.{then_number, row_line};
ghost use Rattle.iq_render.specs.Placed.{ArePlacedVersions, IsPlacedSaid, IsPlacedRefused, IsPlacedTold};
ghost use Rattle.iq_render.specs.Replies.{commit_text, freed_text, latest_text, census_words, answer_text, sent_text, said_text};
ghost use Rattle.iq_render.specs.Replies.{plan_line, version_numbers, excluded_text, version_line, answer_lines, said_lines, reply_text};

use crate::refusals::push_refusal;
use crate::values::{push_count, push_named, push_place, push_row};
use iq_base::{Census, Letters, Name};
use iq_model::{Answer, AnswerRows, Freed, NodeVersion, Reply, Said, Sent};
use std::alloc::AllocError;

/// The reply of one line and its rows.
pub(crate) fn push_reply(
    out: &mut String,
    nodes: &[Name],
    sessions: &[Name],
    reply: &Reply,
) -> Result<(), AllocError>
    requires { IsPlacedSaid (length nodes.now) (length sessions.now) reply.now.said }
    ensures { OnOk result (string_bytes out.new ≡ string_bytes out.old ++ reply_text nodes.now sessions.now reply.now) }
{
    let line = reply.line;
    write!(out, "@{line} ")?;
    push_said(out, sessions, &reply.said)?;
    out.push_str("\n")?;
    push_said_lines(out, nodes, &reply.said)
}

/// What is said of a line.
fn push_said(out: &mut String, sessions: &[Name], said: &Said) -> Result<(), AllocError>
    requires { IsPlacedRefused (length sessions.now) said.now }
    ensures { OnOk result (string_bytes out.new ≡ string_bytes out.old ++ said_text sessions.now said.now) }
{
    match said {
        Said::Created { commit } => push_changed(out, "created", *commit),
        Said::Dropped { commit } => push_changed(out, "dropped", *commit),
        Said::Inserted { rows, commit } => push_counted(out, "inserted", *rows, *commit),
        Said::Deleted { rows, commit } => push_counted(out, "deleted", *rows, *commit),
        Said::Updated { rows, commit } => push_counted(out, "updated", *rows, *commit),
        Said::Answer(answer) => push_answer(out, answer),
        Said::Begun { commit } => push_count(out, "begun", *commit),
        Said::Committed { commit } => push_count(out, "committed", *commit),
        Said::Ended => out.push_str("ended"),
        Said::RolledBack => out.push_str("rolled back"),
        Said::Saved { name } => push_named(out, "savepoint", name),
        Said::BackTo { name } => push_named(out, "back to", name),
        Said::Released { name } => push_named(out, "released", name),
        Said::Synced { commit } => push_count(out, "synced", *commit),
        Said::Applied { commit } => push_count(out, "applied", *commit),
        Said::Sent(sent) => push_sent(out, sent),
        Said::Lost { number } => push_count(out, "lost", *number as u64),
        Said::Taken(Freed { horizon, freed }) => push_freed(out, *horizon, *freed),
        Said::Restarted { incarnation } => push_count(out, "restarted", *incarnation as u64),
        Said::Excluded { incarnation } => push_count(out, "excluded", *incarnation as u64),
        Said::Included { commit } => push_count(out, "included", *commit),
        Said::Space(census) => {
            out.push_str("space")?;
            push_census_words(out, census)
        }
        Said::Versions(versions) => push_latest(out, versions.latest, versions.horizon),
        Said::Refused(cause) => {
            out.push_str("refused ")?;
            push_refusal(out, sessions, cause)
        }
    }
}

/// A word, and the number under which an autocommit line is committed.
fn push_changed(out: &mut String, word: &str, commit: Option<u64>) -> Result<(), AllocError>
    ensures { OnOk result (string_bytes out.new ≡ string_bytes out.old ++ (word.now ++ commit_text commit)) }
{
    out.push_str(word)?;
    match commit {
        None => Ok(()),
        Some(commit) => push_count(out, " commit", commit),
    }
}

/// A word, how many rows were changed, and the number under which an autocommit line is committed.
fn push_counted(
    out: &mut String,
    word: &str,
    rows: u32,
    commit: Option<u64>,
) -> Result<(), AllocError>
    ensures { OnOk result (string_bytes out.new ≡ string_bytes out.old ++ (word.now ++ then_number rows ++ commit_text commit)) }
{
    push_count(out, word, rows as u64)?;
    push_changed(out, "", commit)
}

/// How many rows follow.
fn push_answer(out: &mut String, answer: &Answer) -> Result<(), AllocError>
    ensures { OnOk result (string_bytes out.new ≡ string_bytes out.old ++ answer_text answer.now) }
{
    match answer {
        Answer::Rows(rows) => push_count(out, "rows", rows.len() as u64),
        Answer::Plan(texts) => push_count(out, "plan", texts.len() as u64),
    }
}

/// What sending a report did.
fn push_sent(out: &mut String, sent: &Sent) -> Result<(), AllocError>
    ensures { OnOk result (string_bytes out.new ≡ string_bytes out.old ++ sent_text sent.now) }
{
    match sent {
        Sent::Bagged { number, floor } => {
            push_count(out, "sent", *number as u64)?;
            push_count(out, " floor", *floor)
        }
        Sent::Own { horizon, freed } => push_freed(out, *horizon, *freed),
    }
}

/// The horizon, and how many blocks were freed.
fn push_freed(out: &mut String, horizon: u64, freed: u32) -> Result<(), AllocError>
    ensures { OnOk result (string_bytes out.new ≡ string_bytes out.old ++ freed_text horizon freed) }
{
    push_count(out, "horizon", horizon)?;
    push_count(out, " freed", freed as u64)
}

/// The latest commit and the horizon.
fn push_latest(out: &mut String, latest: u64, horizon: u64) -> Result<(), AllocError>
    ensures { OnOk result (string_bytes out.new ≡ string_bytes out.old ++ latest_text latest horizon) }
{
    out.push_str("versions")?;
    push_count(out, " latest", latest)?;
    push_count(out, " horizon", horizon)
}

/// The five numbers of a census, each after its word.
pub(crate) fn push_census_words(out: &mut String, census: &Census) -> Result<(), AllocError>
    ensures { OnOk result (string_bytes out.new ≡ string_bytes out.old ++ census_words census.now) }
{
    push_count(out, " free", census.free as u64)?;
    push_count(out, " reserved", census.reserved as u64)?;
    push_count(out, " private", census.private as u64)?;
    push_count(out, " reached", census.reached as u64)?;
    push_count(out, " waiting", census.waiting as u64)
}

/// The rows that follow.
fn push_said_lines(out: &mut String, nodes: &[Name], said: &Said) -> Result<(), AllocError>
    requires { IsPlacedTold (length nodes.now) said.now }
    ensures { OnOk result (string_bytes out.new ≡ string_bytes out.old ++ said_lines nodes.now said.now) }
{
    match said {
        Said::Answer(Answer::Rows(rows)) => push_rows(out, rows),
        Said::Answer(Answer::Plan(texts)) => push_plan(out, texts.as_slice()),
        Said::Versions(versions) => push_versions(out, nodes, versions.nodes.as_slice()),
        _ => Ok(()),
    }
}

/// The rows of a table.
fn push_rows(out: &mut String, rows: &AnswerRows) -> Result<(), AllocError>
    ensures { OnOk result (string_bytes out.new ≡ string_bytes out.old ++ flat_map row_line rows.now) }
{
    for r in 0..rows.len() {
        push_row(out, rows, r)?;
    }
    Ok(())
}

/// The rows of a plan.
fn push_plan(out: &mut String, texts: &[Letters]) -> Result<(), AllocError>
    ensures { OnOk result (string_bytes out.new ≡ string_bytes out.old ++ flat_map plan_line texts.now) }
{
    for text in texts {
        out.push_str("  ")?;
        out.push_str(text.as_str())?;
        out.push_str("\n")?;
    }
    Ok(())
}

/// What is told of each node.
fn push_versions(
    out: &mut String,
    nodes: &[Name],
    versions: &[NodeVersion],
) -> Result<(), AllocError>
    requires { ArePlacedVersions (length nodes.now) versions.now }
    ensures { OnOk result (string_bytes out.new ≡ string_bytes out.old ++ flat_map (version_line nodes.now) versions.now) }
{
    for version in versions {
        push_version(out, nodes, version)?;
    }
    Ok(())
}

/// What is told of one node.
fn push_version(out: &mut String, nodes: &[Name], version: &NodeVersion) -> Result<(), AllocError>
    requires { version.now.node < length nodes.now }
    ensures { OnOk result (string_bytes out.new ≡ string_bytes out.old ++ version_line nodes.now version.now) }
{
    out.push_str(" ")?;
    push_place(out, nodes, version.node)?;
    push_version_numbers(out, version)?;
    push_excluded(out, version.excluded)?;
    out.push_str("\n")
}

/// The numbers that are told of one node, each after its word.
fn push_version_numbers(out: &mut String, version: &NodeVersion) -> Result<(), AllocError>
    ensures { OnOk result (string_bytes out.new ≡ string_bytes out.old ++ version_numbers version.now) }
{
    push_count(out, " position", version.position)?;
    push_count(out, " floor", version.floor)?;
    push_count(out, " taken", version.taken)?;
    push_count(out, " incarnation", version.incarnation as u64)
}

/// A word behind an excluded node's numbers.
fn push_excluded(out: &mut String, excluded: bool) -> Result<(), AllocError>
    ensures { OnOk result (string_bytes out.new ≡ string_bytes out.old ++ excluded_text excluded) }
{
    if excluded {
        return out.push_str(" excluded");
    }
    Ok(())
}
