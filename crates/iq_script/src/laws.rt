//! Laws about scripts and their faults.
ghost use Rattle.std.specs.Prelude.{ℕ, List};
ghost use Rattle.iq_script.specs.Scripts.{HasOneScript, HasOneFault, IsNotBoth, IsRunOrRefused};

/// Bytes are one script at most.
pub fn one_script()
    ensures { (bytes : List ℕ) → HasOneScript bytes }
{}

/// Bytes that are a script have no fault, and bytes with a fault are no script.
pub fn script_or_fault()
    ensures { (bytes : List ℕ) → IsNotBoth bytes }
{}

/// Bytes are refused for one line at most, and one cause.
pub fn one_fault()
    ensures { (bytes : List ℕ) → HasOneFault bytes }
{}

/// Bytes of a script that is run are not refused.
pub fn run_or_refused()
    ensures { (bytes : List ℕ) → IsRunOrRefused bytes }
{}
