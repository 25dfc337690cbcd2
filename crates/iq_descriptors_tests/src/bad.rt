//! Blocks that are no descriptor: each byte that is wrong, and the block that is told.
use crate::stores::{NO_CALL, block_at, same, store, table};
use iq_descriptors::{DescriptorFault, read};
use iq_outside::{Device, SureDevice};
use std::alloc::Global;
use std::test::Fail;

/// Puts a byte into a block.
fn put_byte(disk: &mut SureDevice, block: u32, at: usize, byte: u8) {
    let mut bytes = block_at(disk, block);
    if let Some(place) = bytes.get_mut(at) {
        *place = byte;
    }
    match disk.count() {
        Ok(count) if block < count => disk.write(block, &bytes).ok(),
        _ => None,
    };
}

/// A block, a place, and a byte put there; and the block that is then bad. The head is block 12, and the others are 10 and 11.
const ROWS: [(u32, usize, u8, u32); 17] = [
    // The header of the head, and of the others.
    (12, 0, 0, 12),
    (12, 4, 5, 12),
    (12, 8, 11, 12),
    (12, 12, 1, 12),
    (10, 4, 4, 10),
    (11, 8, 10, 11),
    // Addresses below 4, past the end, of the root, of a block without a header, and of none in the middle or behind the last.
    (12, 16, 3, 12),
    (12, 20, 20, 12),
    (12, 21, 1, 12),
    (12, 16, 13, 13),
    (12, 16, 0, 12),
    (12, 20, 0, 12),
    (12, 24, 11, 12),
    // The two others in each other's place.
    (12, 16, 11, 12),
    // The text: a name without bytes, other counts, and a byte behind the end.
    (12, 28, 0, 12),
    (12, 59, 20, 12),
    (11, 1023, 1, 12),
];

fn told(
    alloc: Global,
    row: &(u32, usize, u8, u32),
) -> Result<Option<DescriptorFault>, DescriptorFault> {
    let (block, at, byte, _) = *row;
    let (mut disk, made) = store(alloc, &table(alloc, "t", 19, 30)?)?;
    put_byte(&mut disk, block, at, byte);
    Ok(read(alloc, &mut disk, made.head).err())
}

#[test]
fn the_block_that_is_bad_is_told(rt: HostRuntime) -> Result<(), Fail> {
    let alloc = rt.alloc();
    for (k, row) in ROWS.iter().enumerate() {
        same(
            &rt,
            &told(alloc, row)?,
            &Some(DescriptorFault::Bad { block: row.3 }),
            k,
        );
    }
    Ok(())
}

/// Heads that are no address of the store, and one that is a block of zeros.
const HEADS: [u32; 5] = [0, 3, 20, 4_294_967_295, 15];

#[test]
fn a_head_that_is_none_is_told(rt: HostRuntime) -> Result<(), Fail> {
    let alloc = rt.alloc();
    let (mut disk, _) = store(alloc, &table(alloc, "t", 1, 0)?)?;
    for (k, head) in HEADS.iter().enumerate() {
        let outcome = read(alloc, &mut disk, *head).err().unwrap_or(NO_CALL);
        same(&rt, &outcome, &DescriptorFault::Bad { block: *head }, k);
    }
    Ok(())
}
