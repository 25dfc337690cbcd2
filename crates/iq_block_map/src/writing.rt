//! Writing blocks that were taken for it.
ghost use Rattle.std.specs.Prelude.{◌≡◌, ◌+◌, ◌≤◌, ◌<◌, ◌^◌, ℕ, ◌∷◌, List, [], Some, length, IfOk, IfErr, slice_set};
ghost use Rattle.iq_block_store.specs.Frames.{framed};
ghost use Rattle.iq_block_map.specs.Refs.{IsPlace, WhereTold};
ghost use Rattle.iq_block_map.specs.Objects.{HoldsPage};
ghost use Rattle.iq_block_map.specs.Takers.{AreSpare};
ghost use Rattle.iq_block_map.specs.Writing.{HasPut};
ghost use Rattle.iq_block_map.specs.Causes.{IsPutFault, NoneLeft};

use crate::{MapFault, Taker};
use iq_block_store::{BlockFault, PAGE, Page, write};
use iq_outside::Device;

/// Takes a block and writes a page into it, outside of any object. One block is taken and written, also where that fails; no memory
/// is taken. `NoSpace` comes where no block is left.
pub fn put_page<D: Device, T: Taker>(
    disk: &mut D,
    space: &mut T,
    page: &Page,
) -> Result<u32, MapFault>
    requires spare { AreSpare (D.blocks disk.old) (T.left space.old) }
    ensures put { HasPut D.Device (T.left space.old) (T.left space.new) disk.old disk.new }
    ensures spare { AreSpare (D.blocks disk.new) (T.left space.new) }
    ensures left { IfOk result (λ at. T.left space.old ≡ at ∷ T.left space.new) }
    ensures is_in { IfOk result (IsPlace (D.blocks disk.new)) }
    ensures page { IfOk result (λ at. WhereTold (D.blocks disk.new) (HoldsPage page.now at)) }
    ensures cause { IfErr result (λ e. IsPutFault (NoneLeft (T.left space.old) (T.left space.new))
        e (D.faults disk.old) (D.faults disk.new)) }
{
    put(disk, space, PAGE, 0, page)
}

/// Takes a block and writes it, of any kind. The level is that of a map, else 0. One block is taken and written, also where that
/// fails; no memory is taken. `NoSpace` comes where no block is left.
pub fn put<D: Device, T: Taker>(
    disk: &mut D,
    space: &mut T,
    kind: u8,
    level: u32,
    payload: &Page,
) -> Result<u32, MapFault>
    requires spare { AreSpare (D.blocks disk.old) (T.left space.old) }
    ensures put { HasPut D.Device (T.left space.old) (T.left space.new) disk.old disk.new }
    ensures spare { AreSpare (D.blocks disk.new) (T.left space.new) }
    ensures is_in { IfOk result (IsPlace (D.blocks disk.new)) }
    ensures most { length (T.left space.old) ≤ length (T.left space.new) + 1 }
    ensures fits { IfOk result (λ at. at < 2 ^ 32) }
    ensures left { IfOk result (λ at. T.left space.old ≡ at ∷ T.left space.new) }
    ensures block { IfOk result (λ at. (all : List (List ℕ)) → D.blocks disk.old ≡ Some all
        → D.blocks disk.new ≡ Some (slice_set all at (framed kind at level payload.now))) }
    ensures cause { IfErr result (λ e. IsPutFault (NoneLeft (T.left space.old) (T.left space.new))
        e (D.faults disk.old) (D.faults disk.new)) }
{
    let Some(at) = space.take() else {
        return Err(MapFault::NoSpace);
    };
    match write(disk, at, kind, level, payload) {
        Ok(()) => Ok(at),
        Err(BlockFault::StoreFault { before, after }) => Err(MapFault::StoreFault {
            before,
            after,
        }),
        Err(BlockFault::BadHeader { .. }) => unreachable!(),
    }
}
