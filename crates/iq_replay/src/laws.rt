//! Laws of histories. Each is the contract of a function that does nothing.
ghost use Rattle.std.specs.Prelude.{◌≡◌, ◌≢◌, ◌≤◌, ◌+◌, ◌++◌, ◌∷◌, ◌||◌, [], ℕ, Bool, true, false, List, Option, Some, None, length, nat_le};
ghost use Rattle.std.specs.List.{range_with_len, slice_get};
ghost use Rattle.iq_history.specs.declared.entries.Entry.{Entry};
ghost use Rattle.iq_model.specs.declared.scripts.Script.{Script};
ghost use Rattle.iq_statements.specs.Tables.{Database};
ghost use Rattle.iq_replay.specs.State.{State, Session};
ghost use Rattle.iq_replay.specs.Start.{start};
ghost use Rattle.iq_replay.specs.Commits.{database_of};
ghost use Rattle.iq_replay.specs.Entries.{IsPossible, change};
ghost use Rattle.iq_replay.specs.Histories.{replay, IsLegal, IsInOrder, closes, line_of};
ghost use Rattle.iq_replay.specs.Laws.{commit_in, commits_in, is_of_report, node_changed, low_behind, IsOther, AreMade, HasSameConstants, HasSameCommits, HasSameReports};

/// What the entries of two lists leave is what the second leave after the first, and both lists are legal where the whole is.
pub fn histories_are_put_together()
    ensures state { (s : State) (es fs : List Entry) → replay s (es ++ fs) ≡ replay (replay s es) fs }
    ensures legal { (s : State) (es fs : List Entry) → IsLegal s es → IsLegal (replay s es) fs → IsLegal s (es ++ fs) }
    ensures front { (s : State) (es fs : List Entry) → IsLegal s (es ++ fs) → IsLegal s es }
    ensures rest { (s : State) (es fs : List Entry) → IsLegal s (es ++ fs) → IsLegal (replay s es) fs }
    ensures one_more { (s : State) (es : List Entry) (e : Entry) → IsLegal s es → IsPossible (replay s es) e
        → IsLegal s (es ++ e ∷ []) }
{}

/// A history whose lines never fall has one entry more whose line isn't below the last one.
pub fn lines_never_fall()
    ensures { (low : ℕ) (es : List Entry) (e : Entry) → IsInOrder low es
        → (closes e || nat_le (low_behind low es) (line_of e)) ≡ true → IsInOrder low (es ++ e ∷ []) }
{}

/// The commits of a legal history are numbered from the one behind the latest on, and the last is then the latest.
pub fn commits_are_numbered_without_a_gap()
    ensures numbers { (s : State) (es : List Entry) → IsLegal s es
        → commits_in es ≡ range_with_len (s.latest + 1) (length (commits_in es)) }
    ensures latest { (s : State) (es : List Entry) → IsLegal s es → (replay s es).latest ≡ s.latest + length (commits_in es) }
{}

/// The snapshot of each running transaction, and the position of each node, is a commit that was made.
pub fn snapshots_are_commits_that_were_made()
    ensures { (blocks : ℕ) (told : Bool) (script : Script) (opening : Database) (es : List Entry)
        → IsLegal (start blocks told script opening) es → AreMade (replay (start blocks told script opening) es) }
{}

/// A commit that was made keeps its tables, whatever entries come.
pub fn a_commit_keeps_its_tables()
    ensures { (blocks : ℕ) (told : Bool) (script : Script) (opening : Database) (es fs : List Entry) (c : ℕ)
        → c ≤ (replay (start blocks told script opening) es).latest
        → database_of (replay (start blocks told script opening) (es ++ fs)) c
        ≡ database_of (replay (start blocks told script opening) es) c }
{}

/// What an entry leaves alone: the constants of the run, the commits unless it makes one, the reports unless it is of one, the
/// sessions whose it isn't and whose node it doesn't restart, and the nodes that it doesn't move.
pub fn a_change_leaves_alone()
    ensures constants { (s : State) (e : Entry) → HasSameConstants s (change s e) }
    ensures commits { (s : State) (e : Entry) → commit_in e ≡ None → HasSameCommits s (change s e) }
    ensures reports { (s : State) (e : Entry) → is_of_report e ≡ false → HasSameReports s (change s e) }
    ensures sessions { (s : State) (e : Entry) (place : ℕ) (session : Session)
        → slice_get s.sessions place ≡ Some session → IsOther place session e
        → slice_get (change s e).sessions place ≡ Some session }
    ensures nodes { (s : State) (e : Entry) (n : ℕ) → node_changed s e ≢ Some n
        → slice_get (change s e).nodes n ≡ slice_get s.nodes n }
{}
