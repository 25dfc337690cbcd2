//! Single steps at a device, each of whose errors tells its cause.
ghost use Rattle.std.specs.Prelude.{◌≡◌, ◌<◌, ◌≤◌, ℕ, List, Some, length, IfErr};
ghost use Rattle.iq_outside.specs.Devices.{HasPlace};
ghost use Rattle.iq_outside.specs.DeviceCalls.{HasWritten};
ghost use Rattle.iq_block_store.specs.Frames.{framed};
ghost use Rattle.iq_root.specs.Publishing.{HasKept};
ghost use Rattle.iq_root.specs.Causes.{HasFault};

use crate::RootFault;
use iq_base::Page;
use iq_block_store::{BlockFault, sync, write};
use iq_outside::Device;

/// Writes a block of a kind that has no level.
pub fn put<D: Device>(disk: &mut D, at: u32, kind: u8, payload: &Page) -> Result<(), RootFault>
    requires { HasPlace (D.blocks disk.old) at }
    ensures written { HasWritten D.Device at (framed kind at 0 payload.now) result
        disk.old disk.new }
    ensures cause { IfErr result (λ e. HasFault e (D.faults disk.old) (D.faults disk.new)) }
{
    match write(disk, at, kind, 0, payload) {
        Ok(()) => Ok(()),
        Err(BlockFault::StoreFault { before, after }) => {
            Err(RootFault::StoreFault { before, after })
        }
        Err(BlockFault::BadHeader { .. }) => unreachable!(),
    }
}

/// Writes a block, and syncs.
pub fn keep<D: Device>(disk: &mut D, at: u32, kind: u8, payload: &Page) -> Result<(), RootFault>
    requires { HasPlace (D.blocks disk.old) at }
    ensures kept { HasKept D.Device at (framed kind at 0 payload.now) result disk.old disk.new }
    ensures cause { IfErr result (λ e. HasFault e (D.faults disk.old) (D.faults disk.new)) }
    ensures later { D.faults disk.old ≤ D.faults disk.new }
{
    put(disk, at, kind, payload)?;
    Ok(sync(disk)?)
}
