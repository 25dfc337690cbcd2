//! Reading and writing one block.
ghost use Rattle.std.specs.Prelude.{◌≡◌, ◌<◌, ℕ, true, List, Some, length, IfErr, OnOk};
ghost use Rattle.iq_outside.specs.Devices.{HasPlace};
ghost use Rattle.iq_outside.specs.DeviceCalls.{HasWritten};
ghost use Rattle.iq_block_store.specs.Frames.{has_header, framed};
ghost use Rattle.iq_block_store.specs.Faults.{ReadFails, WriteFails, IsBlockAt, CameUnlessFault};
ghost use Rattle.iq_block_store.specs.Looks.{HasLooked};

use crate::frames;
use iq_base::Page;
use iq_outside::{Block, Device};
use std::error::Error;
use std::fmt;

/// Why a block wasn't read or written.
#[derive(Clone, Copy, Debug, PartialEq, Eq)]
pub enum BlockFault {
    /// The device failed: its count of faults rose from the one number to the other.
    StoreFault { before: u64, after: u64 },
    /// The block isn't of that kind and place.
    BadHeader { block: u32 },
}

impl fmt::Display for BlockFault {
    fn fmt<W: fmt::Write>(&self, f: &mut fmt::Formatter<W>) -> fmt::Result {
        match self {
            BlockFault::StoreFault { before, after } => {
                write!(f, "the device failed: {before} to {after}")
            }
            BlockFault::BadHeader { block } => write!(f, "block {block} has another header"),
        }
    }
}

impl Error for BlockFault {}

/// Reads a block of a kind, header and payload. It takes no memory.
pub fn read<D: Device>(disk: &mut D, at: u32, kind: u8, into: &mut Block) -> Result<(), BlockFault>
    requires { HasPlace (D.blocks disk.old) at }
    ensures looked { HasLooked D.Device disk.old disk.new }
    ensures header { OnOk result (has_header kind at into.new ≡ true) }
    ensures block { OnOk result (IsBlockAt at into.new (D.blocks disk.old)) }
    ensures cause { IfErr result (λ e.
        ReadFails e kind at into.new (D.faults disk.old) (D.faults disk.new)) }
    ensures came { IfErr result (λ e. CameUnlessFault e at into.new (D.blocks disk.old)) }
{
    let before = disk.faults();
    match disk.read(at, into) {
        Ok(()) if frames::has_header(kind, at, into) => Ok(()),
        Ok(()) => Err(BlockFault::BadHeader { block: at }),
        Err(_) => {
            let after = disk.faults();
            Err(BlockFault::StoreFault { before, after })
        }
    }
}

/// Writes a block of a kind, with its header. The level is that of a map, else 0. It takes no memory.
pub fn write<D: Device>(
    disk: &mut D,
    at: u32,
    kind: u8,
    level: u32,
    payload: &Page,
) -> Result<(), BlockFault>
    requires { HasPlace (D.blocks disk.old) at }
    ensures written { HasWritten D.Device at (framed kind at level payload.now) result
        disk.old disk.new }
    ensures cause { IfErr result (λ e. WriteFails e (D.faults disk.old) (D.faults disk.new)) }
{
    let before = disk.faults();
    match disk.write(at, &frames::frame(kind, at, level, payload)) {
        Ok(()) => Ok(()),
        Err(_) => {
            let after = disk.faults();
            Err(BlockFault::StoreFault { before, after })
        }
    }
}
