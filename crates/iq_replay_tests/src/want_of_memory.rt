//! Want of memory may come before a session is told that its transaction was lost, and leaves it lost.
ghost use Rattle.std.specs.Prelude.{◌≡◌, ◌∷◌, [], Some, None, codes};
ghost use Rattle.iq_history.specs.declared.entries.Entry.TheVariants as entries;
ghost use Rattle.iq_base.specs.declared.refusals.Refusal.TheVariants as refusals;
ghost use Rattle.iq_replay.specs.Histories.{replay, replies, IsLegal, IsWhole, IsInOrder};
ghost use Rattle.iq_replay_tests.specs.Words.{with_entry, without_entry};
ghost use Rattle.iq_replay_tests.specs.WantOfMemory.{script, before, history, answered};

/// The line that lacks memory is answered so; the next one is told of the loss, and the one after it has no transaction.
pub fn want_of_memory_before_a_loss()
    ensures whole { IsWhole before history }
    ensures ordered { IsInOrder 1 history }
    ensures replied { replies (replay before history) script.lines ≡ answered }
{}

/// A loss is told before all else, with the incarnation of now.
pub fn other_histories_of_a_loss()
    ensures a_loss_is_not_told { ¬ (IsLegal before
        (with_entry 13 (entries.Refused (Some 2) 14 refusals.NoTransaction) history)) }
    ensures the_incarnation_before { ¬ (IsLegal before
        (with_entry 12 (entries.Refused (Some 2) 13 (refusals.Lost 1)) history)) }
    ensures a_transaction_goes_on { ¬ (IsLegal before (with_entry 12 (entries.End 2 13) history)) }
{}
