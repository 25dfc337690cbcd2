//! Two writers of one table: the second is refused while the first holds the name, and once the first has committed past its
//! snapshot.
ghost use Rattle.std.specs.Prelude.{◌≡◌, ◌∷◌, [], Some, None, codes};
ghost use Rattle.iq_history.specs.declared.entries.Entry.TheVariants as entries;
ghost use Rattle.iq_base.specs.declared.refusals.Refusal.TheVariants as refusals;
ghost use Rattle.iq_replay.specs.Histories.{replay, replies, IsLegal, IsWhole, IsInOrder};
ghost use Rattle.iq_replay_tests.specs.Words.{with_entry, without_entry};
ghost use Rattle.iq_replay_tests.specs.Locking.{script, before, history, answered};

/// The second writer is refused Locked and then Later, and writes once it has moved to the latest commit.
pub fn two_writers_of_a_table()
    ensures whole { IsWhole before history }
    ensures ordered { IsInOrder 1 history }
    ensures replied { replies (replay before history) script.lines ≡ answered }
{}

/// A commit has the next number, a write has its lock, Later names the name's latest commit, and a snapshot is the position.
pub fn other_histories_of_two_writers()
    ensures a_number_is_left_out { ¬ (IsLegal before
        (with_entry 17 (entries.Commit 1 15 4) history)) }
    ensures a_write_without_its_lock { ¬ (IsLegal before (without_entry 15 history)) }
    ensures later_than_the_commit_before { ¬ (IsLegal before
        (with_entry 11 (entries.Refused (Some 1) 12 (refusals.Later (codes "t") 1)) history)) }
    ensures a_line_is_left_out { ¬ (IsLegal before (without_entry 13 history)) }
{}
