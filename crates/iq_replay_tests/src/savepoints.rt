//! Savepoints: back to one, back to it again, released; what a transaction refuses; and sixteen of them at most.
ghost use Rattle.std.specs.Prelude.{◌≡◌, ◌∷◌, [], Some, None, codes};
ghost use Rattle.iq_history.specs.declared.entries.Entry.TheVariants as entries;
ghost use Rattle.iq_base.specs.declared.refusals.Refusal.TheVariants as refusals;
ghost use Rattle.iq_replay.specs.Histories.{replay, replies, IsLegal, IsWhole, IsInOrder};
ghost use Rattle.iq_replay_tests.specs.Words.{with_entry, without_entry};
ghost use Rattle.iq_replay_tests.specs.Savepoints.{script, before, history, answered};

/// ROLLBACK TO takes away what came behind the savepoint and keeps it; RELEASE keeps the work; the 17th is refused.
pub fn savepoints_of_a_transaction()
    ensures whole { IsWhole before history }
    ensures ordered { IsInOrder 1 history }
    ensures replied { replies (replay before history) script.lines ≡ answered }
{}

/// A commit has the next number, a savepoint stands until it is released, and it isn't made outside a transaction.
pub fn other_histories_of_savepoints()
    ensures a_number_is_left_out { ¬ (IsLegal before
        (with_entry 18 (entries.Commit 0 15 3) history)) }
    ensures a_savepoint_is_not_released { ¬ (IsLegal before (without_entry 13 history)) }
    ensures back_to_a_released_one { ¬ (IsLegal before
        (with_entry 14 (entries.Back 0 11 (codes "p")) history)) }
    ensures ended_without_a_number { ¬ (IsLegal before (with_entry 18 (entries.End 0 15) history)) }
{}
