//! Sessions on threads: entries of several lines come between each other, want of memory may come anywhere, and faults are counted upwards.
ghost use Rattle.std.specs.Prelude.{◌≡◌, ◌∷◌, [], Some, None, codes};
ghost use Rattle.iq_history.specs.declared.entries.Entry.TheVariants as entries;
ghost use Rattle.iq_base.specs.declared.refusals.Refusal.TheVariants as refusals;
ghost use Rattle.iq_replay.specs.Histories.{replay, replies, IsLegal, IsWhole, IsInOrder};
ghost use Rattle.iq_replay_tests.specs.Words.{with_entry, without_entry};
ghost use Rattle.iq_replay_tests.specs.Interleaved.{script, before, history, answered};

/// A writer whose transaction is lost in the middle of its line, a halted commit, and a query refused for a page.
pub fn lines_between_each_other()
    ensures whole { IsWhole before history }
    ensures replied { replies (replay before history) script.lines ≡ answered }
{}

/// Counts of faults go upwards; a page is bad only where the device isn't honest; a lost line takes no effect; the script's end comes last.
pub fn other_histories_between_each_other()
    ensures a_fault_counted_twice { ¬ (IsLegal before
        (with_entry 25 (entries.Refused (Some 0) 18 (refusals.StoreFault 0 3)) history)) }
    ensures a_lock_after_the_halt { ¬ (IsLegal before
        (with_entry 25 (entries.Lock 0 18 (codes "catalog" ∷ codes "t" ∷ [])) history)) }
    ensures a_bad_page_of_an_honest_device { ¬ (IsLegal before
        (with_entry 25 (entries.Refused (Some 0) 18 (refusals.BadPage 256 0)) history)) }
    ensures an_effect_of_a_lost_line { ¬ (IsLegal before
        (with_entry 8 (entries.Done 2 14) history)) }
    ensures a_loss_is_not_told { ¬ (IsLegal before
        (with_entry 8 (entries.Refused (Some 2) 14 refusals.NoTransaction) history)) }
    ensures the_end_before_the_last_line { ¬ (IsLegal before
        (with_entry 24 (entries.Rollback 1 0) history)) }
{}
