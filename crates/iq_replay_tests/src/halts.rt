//! A device fault in a commit halts the store for writers; reads go on.
ghost use Rattle.std.specs.Prelude.{◌≡◌, ◌∷◌, [], Some, None, codes};
ghost use Rattle.iq_history.specs.declared.entries.Entry.TheVariants as entries;
ghost use Rattle.iq_base.specs.declared.refusals.Refusal.TheVariants as refusals;
ghost use Rattle.iq_replay.specs.Histories.{replay, replies, IsLegal, IsWhole, IsInOrder};
ghost use Rattle.iq_replay_tests.specs.Words.{with_entry, without_entry};
ghost use Rattle.iq_replay_tests.specs.Halts.{script, before, history, answered};

/// The commit that met the fault is refused StoreFault, later writes Halted, and queries are answered.
pub fn a_device_fault_halts_commits()
    ensures whole { IsWhole before history }
    ensures ordered { IsInOrder 1 history }
    ensures replied { replies (replay before history) script.lines ≡ answered }
{}

/// After a halt nothing is locked; no commit was made; the fault's count rose; Halted names the commit and comes after it alone.
pub fn other_histories_of_a_halt()
    ensures a_lock_after_the_halt { ¬ (IsLegal before
        (with_entry 9 (entries.Lock 0 3 (codes "t" ∷ [])) history)) }
    ensures the_halted_commit_counts { ¬ (IsLegal before
        (with_entry 8 (entries.Begin 0 3 2) history)) }
    ensures no_fault_was_counted { ¬ (IsLegal before
        (with_entry 7 (entries.Halt 0 2 2 1 1) history)) }
    ensures another_commit_halts { ¬ (IsLegal before
        (with_entry 7 (entries.Halt 0 2 1 0 1) history)) }
    ensures halted_names_another { ¬ (IsLegal before
        (with_entry 9 (entries.Refused (Some 0) 3 (refusals.Halted 1)) history)) }
    ensures a_commit_is_refused_without_halt { ¬ (IsLegal before
        (with_entry 7 (entries.Refused (Some 0) 2 (refusals.StoreFault 0 1)) history)) }
    ensures halted_before_any_halt { ¬ (IsLegal before
        (with_entry 7 (entries.Refused (Some 0) 2 (refusals.Halted 2)) history)) }
{}
