//! Versions beneath a reader: it sees its snapshot whatever is committed meanwhile, and reports may be late or taken twice.
ghost use Rattle.std.specs.Prelude.{◌≡◌, ◌∷◌, [], Some, None, codes};
ghost use Rattle.iq_history.specs.declared.entries.Entry.TheVariants as entries;
ghost use Rattle.iq_base.specs.declared.refusals.Refusal.TheVariants as refusals;
ghost use Rattle.iq_replay.specs.Histories.{replay, replies, IsLegal, IsWhole, IsInOrder};
ghost use Rattle.iq_replay_tests.specs.Words.{with_entry, without_entry};
ghost use Rattle.iq_replay_tests.specs.Reports.{script, before, history, answered};

/// A reader keeps its snapshot through two commits; late and repeated reports free what no node needs.
pub fn versions_beneath_a_reader()
    ensures whole { IsWhole before history }
    ensures ordered { IsInOrder 1 history }
    ensures replied { replies (replay before history) script.lines ≡ answered }
{}

/// A horizon is the least of all floors, a record is applied after the one before it, a floor is the node's.
pub fn other_histories_beneath_a_reader()
    ensures a_horizon_below_the_floors { ¬ (IsLegal before
        (with_entry 26 (entries.Take 19 2 3 6) history)) }
    ensures a_record_is_left_out { ¬ (IsLegal before (without_entry 22 history)) }
    ensures a_query_that_takes_no_effect { ¬ (IsLegal before (without_entry 18 history)) }
    ensures a_floor_below_the_position { ¬ (IsLegal before
        (with_entry 24 (entries.Send 1 17 2 3) history)) }
{}
