//! The law of script order. It is the contract of a function that does nothing.
ghost use Rattle.std.specs.Prelude.{◌≡◌, ℕ, Bool, List};
ghost use Rattle.iq_history.specs.declared.entries.Entry.{Entry};
ghost use Rattle.iq_model.specs.declared.scripts.Script.{Script};
ghost use Rattle.iq_statements.specs.Tables.{Database};
ghost use Rattle.iq_replay.specs.Start.{start};
ghost use Rattle.iq_replay.specs.Histories.{replay, replies};
ghost use Rattle.iq_script_order.specs.Fixed.{IsNumberedScript, IsUndisturbedRun, replies_uncounted, HasSameTables};

/// Two whole histories of one script and one opening, whose lines never fall and that nothing disturbed, make the same commits with
/// the same tables, and answer each line the same, but for numbers of blocks.
pub fn script_order_fixes_replies_and_tables()
    ensures tables { (blocks : ℕ) (told : Bool) (script : Script) (opening : Database) (es fs : List Entry)
        → IsNumberedScript script
        → IsUndisturbedRun (start blocks told script opening) es
        → IsUndisturbedRun (start blocks told script opening) fs
        → HasSameTables (replay (start blocks told script opening) es) (replay (start blocks told script opening) fs) }
    ensures replies { (blocks : ℕ) (told : Bool) (script : Script) (opening : Database) (es fs : List Entry)
        → IsNumberedScript script
        → IsUndisturbedRun (start blocks told script opening) es
        → IsUndisturbedRun (start blocks told script opening) fs
        → replies_uncounted (replies (replay (start blocks told script opening) fs) script.lines)
        ≡ replies_uncounted (replies (replay (start blocks told script opening) es) script.lines) }
{}
