//! Objects that are closed one after the other.
ghost use Rattle.std.specs.Prelude.{◌≡◌, ◌<◌, ℕ, [], length, slice_index_or, OnOk, IfErr};
ghost use Rattle.std.specs.List.{All};
ghost use Rattle.iq_block_map.specs.Refs.{IsIn, WhereTold};
ghost use Rattle.iq_block_map.specs.Takers.{AreSpare};
ghost use Rattle.iq_block_map.specs.Writing.{HasPut};
ghost use Rattle.iq_objects.specs.Open.{Stands};
ghost use Rattle.iq_objects.specs.Changes.{IsWriteFault};
ghost use Rattle.iq_table_objects.specs.Opening.{IsSettled, AreStanding, SamePages, AreSettled};

use crate::Slot;
use iq_block_map::{MapFault, Taker};
use iq_outside::Device;

/// Closes an object, and keeps its new reference.
pub(crate) fn close_slot<D: Device, T: Taker>(
    disk: &mut D,
    space: &mut T,
    slot: &mut Slot,
) -> Result<(), MapFault>
    requires spare { AreSpare (D.blocks disk.old) (T.left space.old) }
    requires stands { WhereTold (D.blocks disk.old) (Stands (T.left space.old) slot.old.object) }
    ensures put { HasPut D.Device (T.left space.old) (T.left space.new) disk.old disk.new }
    ensures spare { AreSpare (D.blocks disk.new) (T.left space.new) }
    ensures stands { WhereTold (D.blocks disk.new) (Stands (T.left space.new) slot.new.object) }
    ensures pages { slot.new.object.pages ≡ slot.old.object.pages }
    ensures lost { OnOk result (slot.new.object.lost ≡ slot.old.object.lost) }
    ensures settled { OnOk result (WhereTold (D.blocks disk.new)
        (IsSettled (T.left space.new) slot.new)) }
    ensures size { OnOk result (slot.new.reference.pages ≡ length slot.new.object.pages) }
    ensures is_in { OnOk result (IsIn (D.blocks disk.new) slot.new.reference) }
    ensures cause { IfErr result (λ e. IsWriteFault (T.left space.new ≡ [])
        e (D.faults disk.old) (D.faults disk.new)) }
{
    slot.reference = slot.object.close(disk, space)?;
    Ok(())
}

/// Closes all objects, in order. After an `Err` those before the one at fault have their new references.
pub(crate) fn close_all<D: Device, T: Taker>(
    disk: &mut D,
    space: &mut T,
    slots: &mut [Slot],
) -> Result<(), MapFault>
    requires spare { AreSpare (D.blocks disk.old) (T.left space.old) }
    requires stands { AreStanding (D.blocks disk.old) (T.left space.old) slots.old }
    ensures put { HasPut D.Device (T.left space.old) (T.left space.new) disk.old disk.new }
    ensures spare { AreSpare (D.blocks disk.new) (T.left space.new) }
    ensures stands { AreStanding (D.blocks disk.new) (T.left space.new) slots.new }
    ensures pages { SamePages slots.old slots.new }
    ensures settled { OnOk result (AreSettled (D.blocks disk.new) (T.left space.new) slots.new) }
    ensures cause { IfErr result (λ e. IsWriteFault (T.left space.new ≡ [])
        e (D.faults disk.old) (D.faults disk.new)) }
{
    for k in 0..slots.len() {
        close_slot(disk, space, &mut slots[k])?;
    }
    Ok(())
}
