//! Steps of an excluded node are refused, and so is the inclusion of a node that isn't there; its session is told twice.
ghost use Rattle.std.specs.Prelude.{◌≡◌, ◌∷◌, [], Some, None, codes};
ghost use Rattle.iq_history.specs.declared.entries.Entry.TheVariants as entries;
ghost use Rattle.iq_base.specs.declared.refusals.Refusal.TheVariants as refusals;
ghost use Rattle.iq_replay.specs.Histories.{replay, replies, IsLegal, IsWhole, IsInOrder};
ghost use Rattle.iq_replay_tests.specs.Words.{with_entry, without_entry};
ghost use Rattle.iq_replay_tests.specs.ExcludedSteps.{script, before, history, answered};

/// Exclusion, APPLY and RESTART of an excluded node are refused; its session is told Lost, and then Excluded at each line.
pub fn steps_of_an_excluded_node()
    ensures whole { IsWhole before history }
    ensures ordered { IsInOrder 1 history }
    ensures replied { replies (replay before history) script.lines ≡ answered }
{}

/// A node is excluded once, applies nothing meanwhile, and isn't restarted.
pub fn other_steps_of_an_excluded_node()
    ensures excluded_twice { ¬ (IsLegal before (with_entry 20 (entries.Exclude 1 13 3) history)) }
    ensures a_record_is_applied { ¬ (IsLegal before
        (with_entry 21 (entries.Apply 1 14 3) history)) }
    ensures an_excluded_node_is_restarted { ¬ (IsLegal before
        (with_entry 22 (entries.Restart 1 15 3) history)) }
    ensures a_query_of_an_excluded_node { ¬ (IsLegal before
        (with_entry 24 (entries.Begin 1 17 2) history)) }
{}
