//! Objects that are opened one after the other.
ghost use Rattle.std.specs.Prelude.{◌≡◌, IfOk, IfErr};
ghost use Rattle.std.specs.List.{All};
ghost use Rattle.iq_block_map.specs.Refs.{IsIn};
ghost use Rattle.iq_block_store.specs.Looks.{HasLooked};
ghost use Rattle.iq_table_objects.specs.Opening.{IsSlotOpened, references_of, IsOpenFault};

use crate::Slot;
use iq_base::Ref;
use iq_block_map::MapFault;
use iq_objects::OpenObject;
use iq_outside::Device;
use std::alloc::Global;

/// Opens the objects of references, in order. It reads each map once and no page.
pub(crate) fn open_all<D: Device>(
    alloc: Global,
    disk: &mut D,
    references: &[Ref],
) -> Result<Vec<Slot>, MapFault>
    requires each { All (IsIn (D.blocks disk.old)) references.now }
    ensures looked { HasLooked D.Device disk.old disk.new }
    ensures each { IfOk result (λ slots. references_of slots.items ≡ references.now) }
    ensures opened { IfOk result (λ slots. All (IsSlotOpened (D.blocks disk.old)) slots.items) }
    ensures cause { IfErr result (λ e. IsOpenFault references.now (D.blocks disk.old)
        e (D.faults disk.old) (D.faults disk.new)) }
{
    let mut slots = Vec::with_capacity(alloc, references.len())?;
    for reference in references {
        let object = OpenObject::open(alloc, disk, *reference)?;
        slots.push(Slot {
            reference: *reference,
            object,
        })?;
    }
    Ok(slots)
}
