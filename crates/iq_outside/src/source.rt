//! Where bytes come from.
ghost use Rattle.std.specs.Prelude.{◌≡◌, ℕ, List, Option};
ghost use Rattle.iq_outside.specs.Streams.{ReadsFront};

use crate::Failed;

/// A stream of bytes that comes to an end.
pub trait Source {
    /// The bytes still to come, where the source tells them.
    ghost left: { Self → Option (List ℕ) };

    /// How many calls have failed. A count at the last value of a `u64` stays there.
    ghost faults: { Self → ℕ };

    /// Puts the next bytes at the front of a buffer, and answers how many they are. Into a buffer that isn't empty it
    /// answers 0 only at the end of the input.
    fn read(&mut self, into: &mut [u8]) -> Result<usize, Failed>
        ensures { ReadsFront result into.old into.new
            (left self.old) (left self.new) (faults self.old) (faults self.new) };

    /// How many calls have failed.
    fn faults(&self) -> u64
        ensures { result ≡ faults self.now };
}
