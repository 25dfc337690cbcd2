//! The free blocks of a store that was opened.
ghost use Rattle.std.specs.Prelude.{◌≡◌, drop, length, IfOk};
ghost use Rattle.iq_opening.specs.Free.{unset_from};

use iq_base::NoMemory;
use iq_bitmap::Bitmap;
use iq_free_list::FreeList;
use std::alloc::Global;

/// The list of free blocks: those behind the four of the roots that aren't reached. It takes a bit for each block of the store, and
/// costs a step for each.
pub fn free_list(alloc: Global, reached: &Bitmap) -> Result<FreeList, NoMemory>
    ensures count { IfOk result (λ free. free.count ≡ length reached.now) }
    ensures blocks { IfOk result (λ free. free.blocks ≡ unset_from 4 (drop 4 reached.now)) }
{
    let mut free = FreeList::none(alloc, reached.len())?;
    for block in 4..reached.len() {
        if !reached.get(block) {
            free.give(block);
        }
    }
    Ok(free)
}
