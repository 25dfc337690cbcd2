//! Calls one after the other, on any device and with any taker: each hands on what the next one asks for.
ghost use Rattle.iq_block_map.specs.Takers.{AreSpare};

use super::*;
use iq_block_map::{most_maps, put_page};

/// Adds two pages to an object without pages, and reads the second. No test of a reference stands between.
fn push_twice<D: Device, T: Taker>(
    disk: &mut D,
    space: &mut T,
    into: &mut Page,
) -> Result<Ref, MapFault>
    requires { AreSpare (D.blocks disk.old) (T.left space.old) }
{
    let one = push(disk, space, EMPTY, &[7; 1008])?;
    let two = push(disk, space, one, &[8; 1008])?;
    page(disk, two, 1, into)?;
    Ok(two)
}

/// Puts a page into a block, makes an object of it by one remap, and reads it.
fn put_and_map<D: Device, T: Taker>(
    disk: &mut D,
    space: &mut T,
    into: &mut Page,
) -> Result<Ref, MapFault>
    requires { AreSpare (D.blocks disk.old) (T.left space.old) }
{
    let at = put_page(disk, space, &[9; 1008])?;
    let object = remap(disk, space, EMPTY, &[], &[at])?;
    page(disk, object, 0, into)?;
    Ok(object)
}

/// Counts, and calls the one or the other where the blocks may be taken.
fn grown(disk: &mut SureDevice, twice: bool, into: &mut Page) -> Result<Ref, MapFault> {
    let mut space = Spares::new(4, 20);
    let count = count_for(disk, EMPTY)?;
    if !are_spare(count, &space) {
        Err(NO_CALL)
    } else if twice {
        push_twice(disk, &mut space, into)
    } else {
        put_and_map(disk, &mut space, into)
    }
}

/// The root and the pages of an object that grew, and the first byte of the page that was read.
fn told(alloc: Global, twice: bool) -> Result<(u32, u32, u8), MapFault> {
    let mut bytes = [0; 1008];
    let object = grown(&mut zeros(alloc, 20)?, twice, &mut bytes)?;
    Ok((object.root, object.pages, bytes[0]))
}

#[test]
fn a_new_object_is_handed_on(rt: HostRuntime) -> Result<(), Fail> {
    let alloc = rt.alloc();
    same(&rt, &told(alloc, true)?, &(7, 2, 8), 0);
    same(&rt, &told(alloc, false)?, &(5, 1, 9), 1);
    Ok(())
}

/// The pages of an object, and the most maps that an edit takes.
const MOST: [(u32, u32); 5] = [(0, 1), (1, 2), (252, 2), (253, 3), (63504, 253)];

fn most(pages: u32) -> u32 {
    if pages <= 63504 { most_maps(pages) } else { 0 }
}

#[test]
fn an_edit_takes_no_more_than_its_most(rt: HostRuntime) {
    for (row, (pages, maps)) in MOST.iter().enumerate() {
        same(&rt, &most(*pages), maps, row);
    }
}
