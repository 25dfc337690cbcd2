//! Reads a script from its bytes.
//!
//! Contracts see the bytes as a list, cut into lines with their ends by `lines_of`, and what they are by a walk over these lines:
//! a script by `IsScriptOf`, its first faulty line by `IsFirstFault`, and the first line that the program doesn't run today by
//! `IsUnbuilt`. Below stand `iq_grammar`, which reads statements, declarations and steps, and `iq_model`, whose scripts are made;
//! above stands the program. Its one law: bytes either are one script, or have one first faulty line, and never both.
#![tactic(auto)]

mod built;
mod faults;
mod laws;
mod lines;
mod loads;
mod pieces;
mod reading;
mod scripts;

pub use built::is_built;
pub use faults::{FaultField, LineFault, ScriptRefusal};
pub use iq_model::MOST_LINES;
pub use laws::{one_fault, one_script, run_or_refused, script_or_fault};
pub use reading::{MOST_NODES, MOST_SESSIONS};
pub use scripts::{MOST_BYTES, read_any_script, read_script};
