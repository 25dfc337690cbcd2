//! A restart ends the transactions of its node and gives back its reservation; the session learns it at its next line.
ghost use Rattle.std.specs.Prelude.{◌≡◌, ◌∷◌, [], Some, None, codes};
ghost use Rattle.iq_history.specs.declared.entries.Entry.TheVariants as entries;
ghost use Rattle.iq_base.specs.declared.refusals.Refusal.TheVariants as refusals;
ghost use Rattle.iq_replay.specs.Histories.{replay, replies, IsLegal, IsWhole, IsInOrder};
ghost use Rattle.iq_replay_tests.specs.Words.{with_entry, without_entry, census};
ghost use Rattle.iq_replay_tests.specs.Restarts.{script, before, history, answered};

/// After a restart the session is told Lost once, and then has no transaction.
pub fn a_restart_ends_transactions()
    ensures whole { IsWhole before history }
    ensures ordered { IsInOrder 1 history }
    ensures replied { replies (replay before history) script.lines ≡ answered }
{}

/// An incarnation is the next one, a lost transaction is told before all else, the census is all blocks.
pub fn other_histories_of_a_restart()
    ensures an_incarnation_is_left_out { ¬ (IsLegal before
        (with_entry 9 (entries.Restart 1 10 3) history)) }
    ensures a_loss_is_not_told { ¬ (IsLegal before
        (with_entry 11 (entries.Refused (Some 1) 12 refusals.NoTransaction) history)) }
    ensures a_block_is_missing { ¬ (IsLegal before
        (with_entry 10 (entries.Space 11 (census 58 0 0 1 0)) history)) }
{}
