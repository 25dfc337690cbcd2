//! Making an empty store.
ghost use Rattle.std.specs.Prelude.{◌≡◌, ◌<◌, ◌≤◌, ℕ, List, Some, length, OnOk, IfErr};
ghost use Rattle.iq_outside.specs.Devices.{resized};
ghost use Rattle.iq_outside.specs.DeviceCalls.{KeepsPast, IsSettled};
ghost use Rattle.iq_root.specs.Roots.{newest};
ghost use Rattle.iq_root.specs.Pages.{RootFits};
ghost use Rattle.iq_root.specs.Publishing.{with_slot};
ghost use Rattle.iq_root.specs.Formatting.{empty_root, formatted};
ghost use Rattle.iq_root.specs.Causes.{HasFault};

use crate::pages::{body_page, gate_page};
use crate::steps::put;
use crate::{Addresses, Root, RootFault};
use iq_block_store::{BODY, GATE, resize, sync};
use iq_outside::Device;

/// The format of a store that is made now.
const FORMAT: u32 = 2;

/// Makes the device a store of so many blocks without tables, of generation 1. Blocks past the roots keep their bytes where they
/// had any. A stop within it may leave anything. It takes no memory of its own.
pub fn format<D: Device>(disk: &mut D, count: u32) -> Result<(), RootFault>
    requires { 4 ≤ count }
    ensures ok { OnOk result ((all : List (List ℕ)) → D.blocks disk.old ≡ Some all
        → D.blocks disk.new ≡ Some (formatted count (resized count all))) }
    ensures newest { OnOk result ((all : List (List ℕ)) → D.blocks disk.old ≡ Some all
        → newest (formatted count (resized count all)) ≡ Some (empty_root 1 count)) }
    ensures settled { OnOk result (IsSettled D.Device disk.new) }
    ensures past { KeepsPast D.Device disk.old disk.new }
    ensures cause { IfErr result (λ e. HasFault e (D.faults disk.old) (D.faults disk.new)) }
    ensures later { D.faults disk.old ≤ D.faults disk.new }
{
    resize(disk, count)?;
    put_slot(disk, 0, &empty_root(0, count), 0)?;
    put_slot(disk, 1, &empty_root(1, count), 1)?;
    Ok(sync(disk)?)
}

/// The root of a store without tables.
fn empty_root(generation: u64, count: u32) -> Root
    ensures { result ≡ empty_root generation count }
{
    Root {
        generation,
        format: FORMAT,
        count,
        tables: Addresses::new(),
    }
}

/// Writes the body and the gate of a slot.
fn put_slot<D: Device>(disk: &mut D, slot: u32, root: &Root, gate: u64) -> Result<(), RootFault>
    requires slot { slot < 2 }
    requires long { (all : List (List ℕ)) → D.blocks disk.old ≡ Some all → 4 ≤ length all }
    ensures ok { OnOk result ((all : List (List ℕ)) → D.blocks disk.old ≡ Some all
        → D.blocks disk.new ≡ Some (with_slot slot root.now gate all)) }
    ensures long { OnOk result ((all : List (List ℕ)) → D.blocks disk.new ≡ Some all → 4 ≤ length all) }
    ensures fits { RootFits root.now }
    ensures past { KeepsPast D.Device disk.old disk.new }
    ensures cause { IfErr result (λ e. HasFault e (D.faults disk.old) (D.faults disk.new)) }
    ensures later { D.faults disk.old ≤ D.faults disk.new }
{
    let body = body_page(root);
    put(disk, 2 * slot, BODY, &body)?;
    put(disk, 2 * slot + 1, GATE, &gate_page(gate))
}
