//! Objects written on a device that fails, or without a block to take.
use super::*;
use iq_outside::MemoryDevice;
use std::process::Abort;

/// A device of these blocks whose call of this number fails.
fn failing(alloc: Global, blocks: &[Block], call: u64) -> Result<MemoryDevice, MapFault> {
    if blocks.len() > 20 {
        return Err(NO_CALL);
    }
    Ok(MemoryDevice::new(blocks.to_vec(alloc)?, [call].to_vec(alloc)?))
}

/// What putting page 300 into block 5 answers, and whether the next count is told.
fn changed(disk: &mut MemoryDevice, object: Ref) -> (Option<MapFault>, bool) {
    let outcome = change(disk, &mut Spares::new(10, 20), object, 300, 5);
    (outcome.err(), disk.count().is_ok())
}

/// Whether the object has 600 pages in block 4.
fn is_old(alloc: Global, disk: &mut MemoryDevice, object: Ref) -> Result<bool, MapFault> {
    let read = walk(alloc, disk, object, false)?;
    Ok(read == around(alloc, 4, 4, 600)?)
}

#[test]
fn a_failed_call_keeps_the_old_object(rt: HostRuntime) -> Result<(), Fail> {
    let alloc = rt.alloc();
    let (blocks, object) = store(alloc, 600)?;
    // The first call is the test's own. Two maps are read and two written.
    for call in 2..8 {
        let mut disk = failing(alloc, &blocks, call as u64)?;
        let wanted = if call < 7 {
            (Some(FIRST), true)
        } else {
            (None, false)
        };
        same(&rt, &changed(&mut disk, object), &wanted, call);
        same(&rt, &is_old(alloc, &mut disk, object)?, &true, call);
    }
    Ok(())
}

/// What comes of putting page 252 elsewhere, and of a page more.
type Outcomes = (Option<MapFault>, Option<MapFault>);

const NO_SPACE: Option<MapFault> = Some(MapFault::NoSpace);

/// How many blocks are left to take, and what comes of it.
const SPARE: [(u32, Outcomes); 4] = [
    (0, (NO_SPACE, NO_SPACE)),
    (1, (NO_SPACE, NO_SPACE)),
    (2, (None, NO_SPACE)),
    (3, (None, None)),
];

fn grown(disk: &mut SureDevice, object: Ref, spare: u32) -> Outcomes {
    let end = spare.saturating_add(10);
    let changed = change(disk, &mut Spares::new(10, end), object, 252, 5).err();
    let put = put(disk, &mut Spares::new(10, end), object, 253, 5).err();
    (changed, put)
}

/// A device of these blocks.
fn sure(alloc: Global, blocks: &[Block]) -> Result<SureDevice, MapFault> {
    if blocks.len() > 20 {
        return Err(NO_CALL);
    }
    Ok(SureDevice::new(blocks.to_vec(alloc)?))
}

fn told(rt: &impl Abort, disk: &mut SureDevice, object: Ref, row: &(u32, Outcomes)) {
    let (spare, outcomes) = row;
    same(rt, &grown(disk, object, *spare), outcomes, *spare as usize);
    let page = ends(disk, object, 252);
    same(rt, &page, &Ok(SEVENS), *spare as usize);
}

#[test]
fn a_call_without_a_block_to_take_is_told(rt: HostRuntime) -> Result<(), Fail> {
    let alloc = rt.alloc();
    let (blocks, object) = store(alloc, 253)?;
    for row in SPARE.iter() {
        told(&rt, &mut sure(alloc, &blocks)?, object, row);
    }
    Ok(())
}
