//! The end of a script.
ghost use Rattle.std.specs.Prelude.{◌≡◌};
ghost use Rattle.std.specs.Bool.{OnTrue};
ghost use Rattle.std.specs.Option.{option_copied};
ghost use Rattle.iq_replay.specs.Lines.{first_running};
ghost use Rattle.iq_replay.specs.Histories.{AllEnded, reply_in, replies_of};
ghost use Rattle.iq_plain_runs.specs.Courses.{IsOver};

use iq_model::{Line, Reply};
use iq_plain_sessions::PlainSession;
use iq_plain_state::PlainState;

/// Whether a line is under way in a session.
pub(crate) fn is_under_way(state: &PlainState, s: u32, l: u32) -> bool {
    match state.session_at(s) {
        None => false,
        Some(session) => session.is_at(l),
    }
}

/// The first session whose transaction runs.
pub(crate) fn first_running(state: &PlainState) -> Option<usize>
    ensures { result ≡ first_running 0 state.now.sessions }
{
    for (place, session) in state.sessions().iter().enumerate() {
        if session.runs() {
            return Some(place);
        }
    }
    None
}

/// Whether no line and no transaction is left.
pub(crate) fn is_over(state: &PlainState) -> bool
    ensures { OnTrue result (IsOver state.now) }
{
    if state.has_step() {
        return false;
    }
    all_ended(state.sessions())
}

/// The reply to a line, if it was answered.
pub(crate) fn reply<'s>(state: &'s PlainState, line: &Line) -> Option<&'s Reply>
    ensures { option_copied result ≡ reply_in line.now.number (replies_of state.now line.now.session) }
{
    match line.session {
        None => reply_in(line.number, state.replies()),
        Some(s) => match state.session_at(s) {
            None => None,
            Some(session) => reply_in(line.number, session.replies()),
        },
    }
}

/// The first reply with a line's number.
fn reply_in(l: u32, replies: &[Reply]) -> Option<&Reply>
    ensures { option_copied result ≡ reply_in l replies.now }
{
    replies.iter().find(|reply| reply.line == l)
}

/// Whether all sessions have ended.
fn all_ended(sessions: &[PlainSession]) -> bool
    ensures { OnTrue result (AllEnded sessions.now) }
{
    for session in sessions {
        if !session.has_ended() {
            return false;
        }
    }
    true
}
