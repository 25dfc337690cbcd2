//! Writing one page of an object.
ghost use Rattle.iq_base.specs.declared.sizes.TheConstants.{MOST_PAGES};
ghost use Rattle.std.specs.Prelude.{◌≡◌, ◌≤◌, ◌<◌, ◌+◌, length, IfOk, IfErr};
ghost use Rattle.iq_block_map.specs.Objects.{leaf_count};
ghost use Rattle.iq_block_map.specs.Refs.{IsIn};
ghost use Rattle.iq_block_map.specs.Takers.{AreSpare};
ghost use Rattle.iq_block_map.specs.Writing.{HasPut};
ghost use Rattle.iq_block_map.specs.Paging.{replacing, appending, HasPaged, TellsBadPaged, LacksPaging};
ghost use Rattle.iq_block_map.specs.Causes.{IsEditFault};

use crate::editing::remap;
use crate::writing::put;
use crate::{MapFault, Taker};
use iq_base::Ref;
use iq_block_store::{PAGE, Page};
use iq_outside::Device;

/// Makes an object of another by writing one of its pages anew. It takes and writes a block for the page and one for each map that
/// changes: 2 blocks a page, or 3 where the object has more than 252 pages; and no memory. To write many pages, put each by
/// `put_page`, and make the maps once by `remap`.
pub fn with_page<D: Device, T: Taker>(
    disk: &mut D,
    space: &mut T,
    object: Ref,
    n: u32,
    from: &Page,
) -> Result<Ref, MapFault>
    requires object { IsIn (D.blocks disk.old) object }
    requires page { n < object.pages }
    requires spare { AreSpare (D.blocks disk.old) (T.left space.old) }
    ensures put { HasPut D.Device (T.left space.old) (T.left space.new) disk.old disk.new }
    ensures spare { AreSpare (D.blocks disk.new) (T.left space.new) }
    ensures most { length (T.left space.old)
        ≤ length (T.left space.new) + (leaf_count object.pages + 2) }
    ensures ok { IfOk result (HasPaged (D.blocks disk.old) (D.blocks disk.new)
        object (replacing n) from.now (T.left space.old) (T.left space.new)) }
    ensures is_in { IfOk result (IsIn (D.blocks disk.new)) }
    ensures pages { IfOk result (λ new. new.pages ≡ object.pages) }
    ensures cause { IfErr result (λ e. IsEditFault
        (TellsBadPaged (D.blocks disk.old) (D.blocks disk.new)
        object (replacing n) from.now (T.left space.old))
        (LacksPaging (D.blocks disk.old) object (replacing n) (T.left space.old) (T.left space.new))
        e (D.faults disk.old) (D.faults disk.new)) }
{
    let at = put(disk, space, PAGE, 0, from)?;
    remap(disk, space, object, &[(n, at)], &[])
}

/// Makes an object of another by writing one page more. It takes and writes a block for the page and one for each map that changes:
/// 2 blocks a page, or 3 where the object has 252 pages or more; and no memory. To write many pages, put each by `put_page`, and
/// make the maps once by `remap`.
pub fn push<D: Device, T: Taker>(
    disk: &mut D,
    space: &mut T,
    object: Ref,
    from: &Page,
) -> Result<Ref, MapFault>
    requires object { IsIn (D.blocks disk.old) object }
    requires most { object.pages < MOST_PAGES }
    requires spare { AreSpare (D.blocks disk.old) (T.left space.old) }
    ensures put { HasPut D.Device (T.left space.old) (T.left space.new) disk.old disk.new }
    ensures spare { AreSpare (D.blocks disk.new) (T.left space.new) }
    ensures most { length (T.left space.old)
        ≤ length (T.left space.new) + (leaf_count (object.pages + 1) + 2) }
    ensures ok { IfOk result (HasPaged (D.blocks disk.old) (D.blocks disk.new)
        object appending from.now (T.left space.old) (T.left space.new)) }
    ensures is_in { IfOk result (IsIn (D.blocks disk.new)) }
    ensures pages { IfOk result (λ new. new.pages ≡ object.pages + 1) }
    ensures cause { IfErr result (λ e. IsEditFault
        (TellsBadPaged (D.blocks disk.old) (D.blocks disk.new)
        object appending from.now (T.left space.old))
        (LacksPaging (D.blocks disk.old) object appending (T.left space.old) (T.left space.new))
        e (D.faults disk.old) (D.faults disk.new)) }
{
    let at = put(disk, space, PAGE, 0, from)?;
    remap(disk, space, object, &[], &[at])
}
