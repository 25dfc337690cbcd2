//! The transcript and its parts.
ghost use Rattle.std.specs.Prelude.{◌≡◌, ◌++◌, IfOk, OnOk};
ghost use Rattle.std.specs.String.{string_bytes};
ghost use Rattle.iq_render.specs.Placed.{ArePlacedReplies};
ghost use Rattle.iq_render.specs.Whole.{replies_text, entries_text, census_line, history_text, transcript_text, summary_text};

use crate::entries::push_entries;
use crate::replies::{push_census_words, push_reply};
use crate::values::push_count;
use iq_base::{Census, NoMemory};
use iq_history::History;
use iq_model::Reply;
use std::alloc::{AllocError, Global};

/// The printed form of a run: the replies in the order given, the history and the census. The time and the memory are linear
/// in the length of the text.
pub fn transcript(
    alloc: Global,
    replies: &[Reply],
    history: &History,
    census: Census,
) -> Result<String, NoMemory>
    requires { ArePlacedReplies replies.now history.now }
    ensures { IfOk result (λ text. string_bytes text ≡ transcript_text replies.now history.now census) }
{
    let mut out = String::new(alloc);
    push_replies(&mut out, replies, history)?;
    push_history(&mut out, history)?;
    push_census_line(&mut out, &census)?;
    Ok(out)
}

/// The printed form of a run without its history: the replies and the census.
pub fn summary(
    alloc: Global,
    replies: &[Reply],
    history: &History,
    census: Census,
) -> Result<String, NoMemory>
    requires { ArePlacedReplies replies.now history.now }
    ensures { IfOk result (λ text. string_bytes text ≡ summary_text replies.now history.now census) }
{
    let mut out = String::new(alloc);
    push_replies(&mut out, replies, history)?;
    push_census_line(&mut out, &census)?;
    Ok(out)
}

/// The replies alone, each with its rows.
pub fn replies_part(alloc: Global, replies: &[Reply], history: &History) -> Result<String, NoMemory>
    requires { ArePlacedReplies replies.now history.now }
    ensures { IfOk result (λ text. string_bytes text ≡ replies_text replies.now history.now) }
{
    let mut out = String::new(alloc);
    push_replies(&mut out, replies, history)?;
    Ok(out)
}

/// The history from the line with its length on, and the census, which is the last line.
pub fn history_part(alloc: Global, history: &History, census: Census) -> Result<String, NoMemory>
    ensures { IfOk result (λ text. string_bytes text ≡ history_text history.now census) }
{
    let mut out = String::new(alloc);
    push_history(&mut out, history)?;
    push_census_line(&mut out, &census)?;
    Ok(out)
}

/// The replies in their order.
fn push_replies(out: &mut String, replies: &[Reply], history: &History) -> Result<(), AllocError>
    requires { ArePlacedReplies replies.now history.now }
    ensures { OnOk result (string_bytes out.new ≡ string_bytes out.old ++ replies_text replies.now history.now) }
{
    let nodes = history.nodes();
    let sessions = history.sessions();
    for reply in replies {
        push_reply(out, nodes, sessions, reply)?;
    }
    Ok(())
}

/// How many entries there are, and the entries.
fn push_history(out: &mut String, history: &History) -> Result<(), AllocError>
    ensures { OnOk result (string_bytes out.new ≡ string_bytes out.old ++ entries_text history.now) }
{
    push_count(out, "history", history.len() as u64)?;
    out.push_str("\n")?;
    push_entries(out, history.nodes(), history.sessions(), history.entries())
}

/// Where the blocks are.
fn push_census_line(out: &mut String, census: &Census) -> Result<(), AllocError>
    ensures { OnOk result (string_bytes out.new ≡ string_bytes out.old ++ census_line census.now) }
{
    out.push_str("census")?;
    push_census_words(out, census)?;
    out.push_str("\n")
}
