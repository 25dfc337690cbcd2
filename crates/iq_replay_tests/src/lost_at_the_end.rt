//! A restart or a halt between a statement's effect and its commit.
ghost use Rattle.std.specs.Prelude.{◌≡◌, ◌∷◌, [], Some, None, codes};
ghost use Rattle.iq_history.specs.declared.entries.Entry.TheVariants as entries;
ghost use Rattle.iq_base.specs.declared.refusals.Refusal.TheVariants as refusals;
ghost use Rattle.iq_replay.specs.Histories.{replay, replies, IsLegal, IsWhole, IsInOrder};
ghost use Rattle.iq_replay_tests.specs.Words.{with_entry, without_entry};
ghost use Rattle.iq_replay_tests.specs.LostAtTheEnd.{script, before, history, answered};

/// Behind its effect a line is told that its transaction was lost, or that commits have halted.
pub fn lost_and_halted_behind_the_effect()
    ensures whole { IsWhole before history }
    ensures replied { replies (replay before history) script.lines ≡ answered }
{}

/// Behind its effect a line neither commits what was lost or halted, nor lacks memory, nor meets a fault without a halt.
pub fn other_histories_behind_the_effect()
    ensures a_commit_of_a_lost_transaction { ¬ (IsLegal before
        (with_entry 14 (entries.Commit 2 11 3) history)) }
    ensures want_of_memory_behind_the_effect { ¬ (IsLegal before
        (with_entry 14 (entries.Refused (Some 2) 11 refusals.NoMemory) history)) }
    ensures a_commit_after_the_halt { ¬ (IsLegal before
        (with_entry 24 (entries.Commit 0 16 3) history)) }
    ensures want_of_memory_behind_a_halt { ¬ (IsLegal before
        (with_entry 24 (entries.Refused (Some 0) 16 refusals.NoMemory) history)) }
    ensures a_fault_without_a_halt { ¬ (IsLegal before
        (with_entry 24 (entries.Refused (Some 0) 16 (refusals.StoreFault 7 8)) history)) }
    ensures a_halt_without_a_fault { ¬ (IsLegal before
        (with_entry 23 (entries.Halt 1 15 3 5 5) history)) }
{}
