//! How a run ends.
ghost use Rattle.std.specs.Prelude.{◌≡◌};
ghost use Rattle.iq_run.specs.Reports.{end_of};

use iq_outside::Device;
use iq_script::{LineFault, ScriptRefusal};

/// Why a run ended, with the numbers that show it.
#[derive(Debug, Drop)]
pub enum EndCause {
    /// The whole script was read and run, and the whole transcript written.
    Done,
    /// The words aren't of the grammar.
    Usage,
    /// The first faulty line, counted from 1, and what is wrong with it; or that it isn't run today, where no line is faulty.
    ScriptFault { line: u32, cause: LineFault },
    /// The script's source failed: its count of faults rose from the one number to the other.
    ReadFault { before: u64, after: u64 },
    /// The output failed: its count of faults rose so. Where standard error fails the status is this one's, without a cause.
    OutFault { before: u64, after: u64 },
    /// An allocation was refused.
    NoMemory,
    /// More than 16,777,216 bytes of script came.
    TooLong,
}

impl From<ScriptRefusal> for EndCause {
    ghost from_gives = { λ refusal e. e ≡ end_of refusal };

    fn from(refusal: ScriptRefusal) -> EndCause {
        match refusal {
            ScriptRefusal::ScriptFault { line, cause } => EndCause::ScriptFault { line, cause },
            ScriptRefusal::NoMemory => EndCause::NoMemory,
        }
    }
}

impl EndCause {
    ghost use Rattle.std.specs.Prelude.{◌≡◌};
    ghost use Rattle.iq_run.specs.Reports.{status_of};

    /// The exit status of the program.
    pub fn status(&self) -> u8
        ensures { result ≡ status_of self.now }
    {
        match self {
            EndCause::Done => 0,
            EndCause::Usage => 2,
            EndCause::ScriptFault { .. } => 3,
            EndCause::ReadFault { .. } => 6,
            EndCause::OutFault { .. } => 7,
            EndCause::NoMemory => 8,
            EndCause::TooLong => 9,
        }
    }
}

/// What a run hands back: the device that it was given.
#[derive(Drop)]
pub enum Rest<D: Device> {
    Disk(D),
}

/// How a run of a script ended.
#[derive(Drop)]
pub struct Ran<D: Device> {
    pub cause: EndCause,
    pub rest: Rest<D>,
}

/// How the program ended.
#[derive(Drop)]
pub struct Ended<D: Device> {
    pub status: u8,
    pub rest: Rest<D>,
}
