//! Descriptors written and read, and their bytes.
use crate::stores::{block_at, blocks_of, same, store, table};
use iq_base::Descriptor;
use iq_descriptors::{DescriptorFault, read};
use std::alloc::Global;
use std::process::Abort;
use std::test::Fail;

/// Columns, indexes, and the blocks of the descriptor, the head first: 12 bytes of addresses, 45 of head, 55 a column and 62 an
/// index, in blocks of 1,008. The third fills 3 blocks to the last byte.
const SIZES: [(usize, usize, &[u32]); 6] = [
    (1, 0, &[10]),
    (17, 0, &[10]),
    (18, 0, &[11, 10]),
    (19, 31, &[12, 10, 11]),
    (20, 31, &[13, 10, 11, 12]),
    (32, 32, &[13, 10, 11, 12]),
];

/// Writes a table and reads it: its blocks as they were written, and as they are read.
fn round(
    rt: &impl Abort,
    alloc: Global,
    wanted: &Descriptor,
    blocks: &[u32],
    row: usize,
) -> Result<(), DescriptorFault> {
    let (mut disk, made) = store(alloc, wanted)?;
    same(rt, &made.blocks.as_slice(), &blocks, row);
    same(rt, &made.head, &blocks.first().copied().unwrap_or(0), row);
    same(rt, &(blocks_of(wanted) as usize), &blocks.len(), row);
    let found = read(alloc, &mut disk, made.head)?;
    same(rt, &found.blocks.as_slice(), &blocks, row);
    same(
        rt,
        &found.table.columns.as_slice(),
        &wanted.columns.as_slice(),
        row,
    );
    same(
        rt,
        &found.table.indexes.as_slice(),
        &wanted.indexes.as_slice(),
        row,
    );
    Ok(())
}

#[test]
fn tables_of_every_size_are_read_as_they_were_written(rt: HostRuntime) -> Result<(), Fail> {
    let alloc = rt.alloc();
    for (row, (columns, indexes, blocks)) in SIZES.iter().enumerate() {
        let wanted = table(alloc, "t", *columns, *indexes)?;
        round(&rt, alloc, &wanted, blocks, row)?;
    }
    Ok(())
}

/// Bytes of the blocks of a table t of 18 columns: the block, the place, and what stands there.
const BYTES: [(u32, usize, &[u8]); 6] = [
    // A head: the mark, the kind, its number; the address of the other block, and none behind it; the name of the table.
    (
        11,
        0,
        &[0x49, 0x51, 0x42, 0x31, 3, 0, 0, 0, 11, 0, 0, 0, 0, 0, 0, 0],
    ),
    (11, 16, &[10, 0, 0, 0, 0, 0, 0, 0, 0, 0, 0, 0]),
    (11, 28, &[1, b't', 0]),
    // 18 columns and no index, 3 slots, and the existence bitmap.
    (
        11,
        59,
        &[18, 0, 3, 0, 0, 0, 9, 0, 0, 0, 1, 0, 0, 0, 2, b'a', b'a'],
    ),
    (
        10,
        0,
        &[0x49, 0x51, 0x42, 0x31, 3, 0, 0, 0, 10, 0, 0, 0, 0, 0, 0, 0],
    ),
    // Of the last column, which begins at byte 992 of the pages, the other block has the bytes from 16 on, up to 1,047.
    (
        10,
        16,
        &[0, 0, 0, 0, 0, 0, 0, 0, 0, 0, 0, 0, 0, 0, 0, 1, 0, 1, 1, 2],
    ),
];

#[test]
fn a_descriptor_of_two_blocks_has_these_bytes(rt: HostRuntime) -> Result<(), Fail> {
    let alloc = rt.alloc();
    let (disk, made) = store(alloc, &table(alloc, "t", 18, 0)?)?;
    assert_eq!(rt; made.blocks.as_slice(), [11, 10].as_slice());
    for (row, (block, at, wanted)) in BYTES.iter().enumerate() {
        let bytes = block_at(&disk, *block);
        let found = bytes.get(*at..*at + wanted.len()).unwrap_or(&[]);
        same(&rt, &found, wanted, row);
    }
    let last = block_at(&disk, 10);
    same(
        &rt,
        &last.get(55..1024).unwrap_or(&[]).iter().all(|b| *b == 0),
        &true,
        6,
    );
    Ok(())
}
