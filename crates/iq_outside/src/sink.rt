//! Where bytes go.
ghost use Rattle.std.specs.Prelude.{◌≡◌, ℕ, List, Option};
ghost use Rattle.iq_outside.specs.Streams.{WritesFront};

use crate::Failed;

/// A stream that takes bytes.
pub trait Sink {
    /// The bytes that it has taken, where it tells them.
    ghost written: { Self → Option (List ℕ) };

    /// How many calls have failed. A count at the last value of a `u64` stays there.
    ghost faults: { Self → ℕ };

    /// Takes bytes from the front of a piece, and answers how many: of a piece that isn't empty at least one.
    fn write(&mut self, from: &[u8]) -> Result<usize, Failed>
        ensures { WritesFront result from.now
            (written self.old) (written self.new) (faults self.old) (faults self.new) };

    /// How many calls have failed.
    fn faults(&self) -> u64
        ensures { result ≡ faults self.now };
}
