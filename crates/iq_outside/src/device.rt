//! Where blocks are kept.
ghost use Rattle.std.specs.Prelude.{◌≡◌, ℕ, List, Option, Some, Bool, IsTrue};
ghost use Rattle.iq_outside.specs.Devices.{seen, HasPlace, Counts, Reads, Writes, Resizes, Syncs, WholeMayStay};

use crate::Failed;

/// The bytes of one block.
pub type Block = [u8; 1024];

/// A list of blocks that is kept over a stop. What was written since the last sync that succeeded may then be lost or torn.
pub trait Device: Drop {
    /// The blocks as a read gives them, where the device tells them.
    ghost blocks: { Self → Option (List (List ℕ)) };

    /// How many calls have failed. A count at the last value of a `u64` stays there.
    ghost faults: { Self → ℕ };

    /// Whether the device tells what a stop may leave.
    ghost tells: { Self → Bool };

    /// The number of the present moment.
    ghost clock: { Self → ℕ };

    /// What a stop at a moment up to the present one may have left.
    ghost image: { Self → ℕ → List (List ℕ) → Type 0 };

    /// Which bytes were whole in a block at a moment up to the present one: those of the last sync that succeeded, and those of
    /// each write since. A stop may leave these there, or parts of them.
    ghost whole: { Self → ℕ → ℕ → List ℕ → Type 0 };

    /// How many blocks there are.
    fn count(&mut self) -> Result<u32, Failed>
        ensures { Counts result (seen blocks faults tells clock image whole self.old)
            (seen blocks faults tells clock image whole self.new) };

    /// Makes it so many blocks. New ones are filled with zeros, and those past the end are lost.
    fn resize(&mut self, count: u32) -> Result<(), Failed>
        ensures { Resizes count result (seen blocks faults tells clock image whole self.old)
            (seen blocks faults tells clock image whole self.new) };

    /// Reads a block, with a number from 0.
    fn read(&mut self, at: u32, into: &mut Block) -> Result<(), Failed>
        requires { HasPlace (blocks self.old) at }
        ensures { Reads at into.new result (seen blocks faults tells clock image whole self.old)
            (seen blocks faults tells clock image whole self.new) };

    /// Writes a block. Until a sync, a stop may leave any bytes there; so may a failed write.
    fn write(&mut self, at: u32, from: &Block) -> Result<(), Failed>
        requires { HasPlace (blocks self.old) at }
        ensures { Writes at from.now result (seen blocks faults tells clock image whole self.old)
            (seen blocks faults tells clock image whole self.new) };

    /// After it succeeded, a stop leaves what was written before.
    fn sync(&mut self) -> Result<(), Failed>
        ensures { Syncs result (seen blocks faults tells clock image whole self.old)
            (seen blocks faults tells clock image whole self.new) };

    /// How many calls have failed.
    fn faults(&self) -> u64
        ensures { result ≡ faults self.now };

    /// The number of the present moment, which never falls. A device that tells no images may answer 0 always.
    fn clock(&self) -> u64
        ensures { result ≡ clock self.now };

    /// A stop may leave all as it is read now.
    ghost reads_now: { (device : Self) (all : List (List ℕ)) → IsTrue (tells device)
        → blocks device ≡ Some all → image device (clock device) all };

    /// And it may leave any bytes that are whole in a block now.
    ghost stays_whole: { (device : Self)
        → WholeMayStay (seen blocks faults tells clock image whole device) };
}
