//! Writing a whole piece.
ghost use Rattle.std.specs.Prelude.{◌≡◌, ◌≤◌, ◌++◌, Some, codes, OnOk, OnErr, IfErr};
ghost use Rattle.std.specs.Fmt.{decimal};
ghost use Rattle.iq_outside.specs.Faults.{RoseWithin};
ghost use Rattle.iq_outside.specs.Streams.{Grows};
ghost use Rattle.iq_outside.specs.Whole.{GrowsByFront};

use crate::Sink;
use std::error::Error;
use std::fmt;

/// A sink failed: its count of faults rose from the one number to the other.
#[derive(Clone, Copy, Debug, PartialEq, Eq)]
pub struct WriteFault {
    pub before: u64,
    pub after: u64,
}

impl fmt::Display for WriteFault {
    ghost output = { λ e.
        Some (codes "a write failed: " ++ decimal e.before ++ codes " to " ++ decimal e.after) };

    fn fmt<W: fmt::Write>(&self, f: &mut fmt::Formatter<W>) -> fmt::Result {
        let before = self.before;
        let after = self.after;
        write!(f, "a write failed: {before} to {after}")
    }
}

impl Error for WriteFault {}

/// Writes all the bytes, in as many writes as the sink asks for. At a fault some front of them was written, and not all; no
/// write follows it.
pub fn write_all<O: Sink>(sink: &mut O, bytes: &[u8]) -> Result<(), WriteFault>
    ensures ok { OnOk result (Grows bytes.now (O.written sink.old) (O.written sink.new)) }
    ensures calm { OnOk result (O.faults sink.new ≡ O.faults sink.old) }
    ensures front { OnErr result (GrowsByFront bytes.now (O.written sink.old) (O.written sink.new)) }
    ensures cause { IfErr result (λ e. RoseWithin (O.faults sink.old) e.before e.after (O.faults sink.new)) }
    ensures later { O.faults sink.old ≤ O.faults sink.new }
{
    let mut at = 0;
    'writing: while at < bytes.len() {
        let before = sink.faults();
        match sink.write(bytes.split_at(at).1) {
            Ok(n) => at += n,
            Err(_) => {
                let after = sink.faults();
                return Err(WriteFault { before, after });
            }
        }
    }
    Ok(())
}
