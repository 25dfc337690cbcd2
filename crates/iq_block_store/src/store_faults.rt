//! Calls of a device that tell by which counts they failed.
ghost use Rattle.std.specs.Prelude.{◌≡◌, ◌<◌, ◌^◌, ℕ, List, Some, length, IfErr, IfOk};
ghost use Rattle.iq_outside.specs.DeviceCalls.{HasResized, HasSynced};
ghost use Rattle.iq_block_store.specs.Faults.{IsRise};
ghost use Rattle.iq_block_store.specs.Looks.{HasLooked};

use iq_outside::Device;
use std::error::Error;
use std::fmt;

/// The device failed: its count of faults rose from the one number to the other.
#[derive(Clone, Copy, Debug, PartialEq, Eq)]
pub struct StoreFault {
    pub before: u64,
    pub after: u64,
}

impl fmt::Display for StoreFault {
    fn fmt<W: fmt::Write>(&self, f: &mut fmt::Formatter<W>) -> fmt::Result {
        write!(f, "the device failed: {} to {}", self.before, self.after)
    }
}

impl Error for StoreFault {}

/// How many blocks there are. One call of the device, which takes no memory.
pub fn count_of<D: Device>(disk: &mut D) -> Result<u32, StoreFault>
    ensures looked { HasLooked D.Device disk.old disk.new }
    ensures count { IfOk result (λ n. (all : List (List ℕ)) → D.blocks disk.old ≡ Some all
        → n ≡ length all) }
    ensures fits { IfOk result (λ n. n < 2 ^ 32) }
    ensures cause { IfErr result (λ e. IsRise e (D.faults disk.old) (D.faults disk.new)) }
{
    let before = disk.faults();
    match disk.count() {
        Ok(count) => Ok(count),
        Err(_) => {
            let after = disk.faults();
            Err(StoreFault { before, after })
        }
    }
}

/// Makes it so many blocks: new ones are filled with zeros, and those past the end are lost.
pub fn resize<D: Device>(disk: &mut D, count: u32) -> Result<(), StoreFault>
    ensures resized { HasResized D.Device count result disk.old disk.new }
    ensures cause { IfErr result (λ e. IsRise e (D.faults disk.old) (D.faults disk.new)) }
{
    let before = disk.faults();
    match disk.resize(count) {
        Ok(()) => Ok(()),
        Err(_) => {
            let after = disk.faults();
            Err(StoreFault { before, after })
        }
    }
}

/// Syncs: after it succeeded, a stop leaves what was written before.
pub fn sync<D: Device>(disk: &mut D) -> Result<(), StoreFault>
    ensures synced { HasSynced D.Device result disk.old disk.new }
    ensures cause { IfErr result (λ e. IsRise e (D.faults disk.old) (D.faults disk.new)) }
{
    let before = disk.faults();
    match disk.sync() {
        Ok(()) => Ok(()),
        Err(_) => {
            let after = disk.faults();
            Err(StoreFault { before, after })
        }
    }
}
