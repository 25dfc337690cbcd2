//! The bytes of a header, and the counts of a fault.
use crate::checks::same;
use iq_block_store::{BlockFault, read, write};
use iq_outside::{Block, Device, MemoryDevice, SureDevice};
use std::alloc::{AllocError, Global};
use std::test::Fail;

/// What stands for a device that can't count, or has no block 1.
const NO_BLOCK: BlockFault = BlockFault::BadHeader { block: 99 };

/// Counts, and then writes block 1 where there is one, as a body of sevens.
fn put<D: Device>(disk: &mut D, level: u32) -> Result<(), BlockFault> {
    match disk.count() {
        Ok(count) if count > 1 => write(disk, 1, 1, level, &[7; 1008]),
        _ => Err(NO_BLOCK),
    }
}

/// Counts, and then reads block 1 where there is one.
fn get<D: Device>(disk: &mut D, kind: u8) -> Result<Block, BlockFault> {
    let mut block = [0; 1024];
    match disk.count() {
        Ok(count) if count > 1 => read(disk, 1, kind, &mut block)?,
        _ => return Err(NO_BLOCK),
    }
    Ok(block)
}

/// What is read as a kind: the header, and the first and the last byte behind it.
type Told = Result<([u8; 16], u8, u8), BlockFault>;

/// Writes, and reads what was written as this kind.
fn again<D: Device>(disk: &mut D, kind: u8, level: u32) -> Told {
    put(disk, level)?;
    told(disk, kind)
}

fn told<D: Device>(disk: &mut D, kind: u8) -> Told {
    let block = get(disk, kind)?;
    let mut header = [0; 16];
    header.copy_from_slice(&block[..16]);
    Ok((header, block[16], block[1023]))
}

/// The header of block 1 as a page of kind 1.
const HEADER: [u8; 16] = *b"IQB1\x01\0\0\0\x01\0\0\0\0\0\0\0";

/// The kind that a block is read as, the level that it was written with, and what is read.
const KINDS: [(u8, u32, Told); 3] = [
    (1, 0, Ok((HEADER, 7, 7))),
    // Another kind.
    (2, 0, Err(BlockFault::BadHeader { block: 1 })),
    // A level, and no map.
    (1, 3, Err(BlockFault::BadHeader { block: 1 })),
];

#[test]
fn a_block_says_what_it_is(rt: HostRuntime) -> Result<(), Fail> {
    let mut disk = SureDevice::new([[0; 1024]; 2].to_vec(rt.alloc())?);
    for (row, (kind, level, wanted)) in KINDS.iter().enumerate() {
        same(&rt, &again(&mut disk, *kind, *level), wanted, row);
    }
    Ok(())
}

/// The fault that makes one more of so many.
fn fault(before: u64) -> Result<(), BlockFault> {
    Err(BlockFault::StoreFault {
        before,
        after: before.saturating_add(1),
    })
}

/// Two blocks, whose second and sixth call fail.
fn failing(alloc: Global) -> Result<MemoryDevice, AllocError> {
    let blocks = [[0; 1024]; 2].to_vec(alloc)?;
    Ok(MemoryDevice::new(blocks, [2, 6].to_vec(alloc)?))
}

/// Reads block 1 as a page of kind 1.
fn read_one(disk: &mut MemoryDevice) -> Result<(), BlockFault> {
    let (_, first, last) = told(disk, 1)?;
    if (first, last) == (7, 7) {
        Ok(())
    } else {
        Err(NO_BLOCK)
    }
}

#[test]
fn a_fault_of_the_device_is_told_by_its_counts(rt: HostRuntime) -> Result<(), Fail> {
    let mut disk = failing(rt.alloc())?;
    same(&rt, &put(&mut disk, 0), &fault(0), 0);
    same(&rt, &put(&mut disk, 0), &Ok(()), 1);
    same(&rt, &read_one(&mut disk), &fault(1), 2);
    same(&rt, &read_one(&mut disk), &Ok(()), 3);
    Ok(())
}
