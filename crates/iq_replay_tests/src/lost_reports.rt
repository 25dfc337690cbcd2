//! A report that is lost is neither taken nor lost again, and a later one does its work; steps that are refused.
ghost use Rattle.std.specs.Prelude.{◌≡◌, ◌∷◌, [], Some, None, codes};
ghost use Rattle.iq_history.specs.declared.entries.Entry.TheVariants as entries;
ghost use Rattle.iq_base.specs.declared.refusals.Refusal.TheVariants as refusals;
ghost use Rattle.iq_replay.specs.Histories.{replay, replies, IsLegal, IsWhole, IsInOrder};
ghost use Rattle.iq_replay_tests.specs.Words.{with_entry, without_entry, census};
ghost use Rattle.iq_replay_tests.specs.LostReports.{script, before, history, answered};

/// A report that is lost can't be taken; the next frees what waits. The coordinator isn't restarted, nor a node that isn't there.
pub fn a_lost_report()
    ensures whole { IsWhole before history }
    ensures ordered { IsInOrder 1 history }
    ensures replied { replies (replay before history) script.lines ≡ answered }
{}

/// A lost report is gone, numbers of reports aren't used again, blocks stay all blocks.
pub fn other_histories_of_a_lost_report()
    ensures a_lost_report_is_taken { ¬ (IsLegal before
        (with_entry 11 (entries.Take 10 1 2 1) history)) }
    ensures a_number_used_again { ¬ (IsLegal before
        (with_entry 14 (entries.Send 1 13 1 2) history)) }
    ensures the_coordinator_is_restarted { ¬ (IsLegal before
        (with_entry 17 (entries.Restart 0 16 2) history)) }
    ensures a_block_too_many { ¬ (IsLegal before
        (with_entry 13 (entries.Space 12 (census 53 0 0 7 1)) history)) }
{}
