//! Descriptors on a device that fails, and without a block to take.
use crate::stores::{NO_CALL, put, same, store, table, to_take, zeros};
use iq_base::Descriptor;
use iq_descriptors::{DescriptorFault, read};
use iq_outside::{Block, MemoryDevice};
use std::alloc::Global;
use std::test::Fail;

/// What a device that failed once tells.
const ROSE: Option<DescriptorFault> = Some(DescriptorFault::StoreFault {
    before: 0,
    after: 1,
});

/// A device of these blocks whose call of this number fails.
fn failing(alloc: Global, blocks: &[Block], call: u64) -> Result<MemoryDevice, DescriptorFault> {
    if blocks.len() > 20 {
        return Err(NO_CALL);
    }
    Ok(MemoryDevice::new(blocks.to_vec(alloc)?, [call].to_vec(alloc)?))
}

fn written(alloc: Global, disk: &mut MemoryDevice, table: &Descriptor) -> Option<DescriptorFault> {
    put(alloc, disk, &mut to_take(8), table).err()
}

#[test]
fn a_call_that_fails_is_told(rt: HostRuntime) -> Result<(), Fail> {
    let alloc = rt.alloc();
    let wanted = table(alloc, "t", 19, 31)?;
    let (full, made) = store(alloc, &wanted)?;
    let empty = zeros(alloc)?;
    for call in 1..6 {
        // To write, the first call is the test's own, and three blocks are written. To read, the blocks are counted, and three read.
        let mut disk = failing(alloc, empty.blocks(), call)?;
        let wrote = match call {
            1 => Some(NO_CALL),
            5 => None,
            _ => ROSE,
        };
        same(
            &rt,
            &written(alloc, &mut disk, &wanted),
            &wrote,
            call as usize,
        );
        let mut disk = failing(alloc, full.blocks(), call)?;
        let found = if call < 5 { ROSE } else { None };
        same(
            &rt,
            &read(alloc, &mut disk, made.head).err(),
            &found,
            call as usize,
        );
    }
    Ok(())
}

#[test]
fn a_descriptor_without_blocks_to_take_is_told(rt: HostRuntime) -> Result<(), Fail> {
    let alloc = rt.alloc();
    let wanted = table(alloc, "t", 20, 31)?;
    for left in 0..6 {
        let mut disk = zeros(alloc)?;
        let outcome = put(alloc, &mut disk, &mut to_take(left), &wanted).err();
        let told = if left < 4 {
            Some(DescriptorFault::NoSpace)
        } else {
            None
        };
        same(&rt, &outcome, &told, left as usize);
    }
    Ok(())
}
