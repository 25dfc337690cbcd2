//! A server that is excluded: its transactions end, it holds nothing back, and it is included at the latest commit.
ghost use Rattle.std.specs.Prelude.{◌≡◌, ◌∷◌, [], Some, None, codes};
ghost use Rattle.iq_history.specs.declared.entries.Entry.TheVariants as entries;
ghost use Rattle.iq_base.specs.declared.refusals.Refusal.TheVariants as refusals;
ghost use Rattle.iq_replay.specs.Histories.{replay, replies, IsLegal, IsWhole, IsInOrder};
ghost use Rattle.iq_replay_tests.specs.Words.{with_entry, without_entry};
ghost use Rattle.iq_replay_tests.specs.Exclusion.{script, before, history, answered};

/// The session is told of its loss and then of the exclusion; what waited for the reader is freed; it comes back at the latest commit.
pub fn an_excluded_reader()
    ensures whole { IsWhole before history }
    ensures ordered { IsInOrder 1 history }
    ensures replied { replies (replay before history) script.lines ≡ answered }
{}

/// An incarnation is the next one, an excluded node bounds no horizon and takes no step, and a loss is told first.
pub fn other_histories_of_an_exclusion()
    ensures an_incarnation_is_left_out { ¬ (IsLegal before
        (with_entry 19 (entries.Exclude 1 12 3) history)) }
    ensures a_horizon_of_an_excluded_node { ¬ (IsLegal before
        (with_entry 23 (entries.Own 0 16 2 7) history)) }
    ensures a_step_of_an_excluded_node { ¬ (IsLegal before
        (with_entry 21 (entries.Sync 1 14 4) history)) }
    ensures a_loss_is_not_told { ¬ (IsLegal before (without_entry 20 history)) }
{}
