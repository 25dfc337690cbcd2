//! Writes that find no free block: the refusal tells the census, where the names are locked and nothing is free.
ghost use Rattle.std.specs.Prelude.{◌≡◌, ◌∷◌, [], Some, None, codes};
ghost use Rattle.iq_history.specs.declared.entries.Entry.TheVariants as entries;
ghost use Rattle.iq_base.specs.declared.refusals.Refusal.TheVariants as refusals;
ghost use Rattle.iq_replay.specs.Histories.{replay, replies, IsLegal, IsWhole, IsInOrder};
ghost use Rattle.iq_replay_tests.specs.Words.{with_entry, without_entry, no_space};
ghost use Rattle.iq_replay_tests.specs.FullStores.{script, before, history, answered};

/// INSERT, DELETE and CREATE find no block, DROP TABLE needs none.
pub fn a_full_store()
    ensures whole { IsWhole before history }
    ensures ordered { IsInOrder 1 history }
    ensures replied { replies (replay before history) script.lines ≡ answered }
{}

/// Nothing is free, all blocks are counted, and the names were locked before.
pub fn other_histories_of_a_full_store()
    ensures a_block_is_free { ¬ (IsLegal before
        (with_entry 6 (entries.Refused (Some 0) 2 (no_space 1 9 20 5 25)) history)) }
    ensures a_block_too_many { ¬ (IsLegal before
        (with_entry 6 (entries.Refused (Some 0) 2 (no_space 0 10 20 5 26)) history)) }
    ensures without_its_lock { ¬ (IsLegal before
        (with_entry 5 (entries.Refused (Some 0) 2 (no_space 0 10 20 5 25)) history)) }
{}
