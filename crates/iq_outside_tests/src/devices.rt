//! Devices.
use iq_outside::{Block, Device, Failed, FileDevice, FuseDevice, MemoryDevice, Pick, SureDevice};
use std::alloc::{AllocError, Global};
use std::fs;
use std::test::Fail;

/// A call of a device, with the byte of which a written block is full.
#[derive(Clone, Copy)]
enum Call {
    Count,
    Resize(u32),
    Write(u32, u8),
    Sync,
}

use Call::*;

fn full(byte: u8) -> Block {
    [byte; 1024]
}

fn disk(alloc: Global, bytes: &[u8]) -> Result<Vec<Block>, AllocError> {
    let mut blocks = Vec::new(alloc);
    for byte in bytes {
        blocks.push(full(*byte))?;
    }
    Ok(blocks)
}

/// Counts, and then writes where there is such a block.
fn put<D: Device>(disk: &mut D, at: u32, byte: u8) -> Result<(), Failed> {
    if at >= disk.count()? {
        return Err(Failed);
    }
    disk.write(at, &full(byte))
}

/// Counts, and then reads where there is such a block.
fn get<D: Device>(disk: &mut D, at: u32) -> Result<(u8, u8), Failed> {
    if at >= disk.count()? {
        return Err(Failed);
    }
    let mut block = full(77);
    disk.read(at, &mut block)?;
    Ok((block[0], block[1023]))
}

/// Makes the calls, and answers how many of them were Ok.
fn passed<D: Device>(disk: &mut D, calls: &[Call]) -> u64 {
    let mut passed = 0u64;
    for call in calls {
        let outcome = match call {
            Count => disk.count().map(|_| ()),
            Resize(count) => disk.resize(*count),
            Write(at, byte) => put(disk, *at, *byte),
            Sync => disk.sync(),
        };
        if outcome.is_ok() {
            passed = passed.saturating_add(1);
        }
    }
    passed
}

/// The first and the last byte of each of the first blocks.
fn ends<D: Device>(disk: &mut D) -> [Result<(u8, u8), Failed>; 3] {
    [get(disk, 0), get(disk, 1), get(disk, 2)]
}

/// What a stop leaves of two blocks after so many calls.
fn stopped(alloc: Global, calls: u64, pick: Pick) -> Result<Option<SureDevice>, AllocError> {
    let blocks = disk(alloc, &[1, 2])?;
    if blocks.len() > 2 {
        return Ok(None);
    }
    let mut fuse = FuseDevice::new(blocks, calls);
    passed(
        &mut fuse,
        &[Write(0, 7), Sync, Write(0, 8), Write(0, 9), Write(1, 5)],
    );
    Ok(Some(fuse.crash(pick)))
}

#[test]
fn a_stop_leaves_old_bytes_or_new(rt: HostRuntime) -> Result<(), Fail> {
    // The calls that pass, the pick, and the ends of the two blocks after the stop. A write is two calls.
    let rows: [(u64, Pick, (u8, u8), (u8, u8)); 9] = [
        (0, Pick::New, (1, 1), (2, 2)),
        (2, Pick::Old, (1, 1), (2, 2)),
        (2, Pick::New, (7, 7), (2, 2)),
        (2, Pick::Torn, (7, 1), (2, 2)),
        (3, Pick::Old, (7, 7), (2, 2)),
        (7, Pick::Old, (7, 7), (2, 2)),
        (7, Pick::New, (9, 9), (2, 2)),
        (7, Pick::Torn, (9, 7), (2, 2)),
        (9, Pick::Torn, (9, 7), (5, 2)),
    ];
    for (row, (calls, pick, first, second)) in rows.iter().enumerate() {
        let Some(mut left) = stopped(rt.alloc(), *calls, *pick)? else {
            continue;
        };
        assert_eq!(rt;
            ends(&mut left),
            [Ok(*first), Ok(*second), Err(Failed)],
            "row {row}"
        );
    }
    Ok(())
}

#[test]
fn a_device_in_memory_fails_where_it_is_told_to(rt: HostRuntime) -> Result<(), Fail> {
    let alloc = rt.alloc();
    let mut memory = MemoryDevice::new(Vec::new(alloc), [2, 6].to_vec(alloc)?);
    let calls = [Resize(2), Count, Count, Write(1, 4), Sync, Sync, Resize(3)];
    assert_eq!(rt; passed(&mut memory, &calls), 5);
    assert_eq!(rt; ends(&mut memory), [Ok((0, 0)), Ok((4, 4)), Ok((0, 0))]);
    assert_eq!(rt; memory.faults(), 2);
    assert_eq!(rt; memory.clock(), 4);
    Ok(())
}

#[test]
fn a_file_keeps_blocks_at_their_places(rt: HostRuntime) -> Result<(), Fail> {
    let alloc = rt.alloc();
    let mut file = FileDevice::new(&rt, String::from_str(alloc, "store.iq")?);
    assert_eq!(rt; passed(&mut file, &[Count]), 0, "it isn't made by a count");
    assert_eq!(rt; passed(&mut file, &[Resize(2), Write(1, 4), Sync]), 3);
    assert_eq!(rt; ends(&mut file), [Ok((0, 0)), Ok((4, 4)), Err(Failed)]);
    assert_eq!(rt; file.faults(), 1);
    assert_eq!(rt; fs::read(&rt, "store.iq")?.len(), 2048);

    fs::write(&rt, "odd.iq", "three")?;
    let mut odd = FileDevice::new(&rt, String::from_str(alloc, "odd.iq")?);
    assert_eq!(rt; passed(&mut odd, &[Count]), 0);
    assert_eq!(rt; odd.faults(), 1);
    Ok(())
}

/// Sets the file's length and counts, and then counts by a device that opens it anew.
fn counts(rt: &HostRuntime, blocks: u32) -> Result<[bool; 2], AllocError> {
    let alloc = rt.alloc();
    let mut file = FileDevice::new(rt, String::from_str(alloc, "long.iq")?);
    let kept = passed(&mut file, &[Resize(blocks), Count]) == 2;
    let mut again = FileDevice::new(rt, String::from_str(alloc, "long.iq")?);
    Ok([kept, again.count() == Ok(blocks)])
}

#[test]
fn a_file_has_at_most_a_gigabyte(rt: HostRuntime) -> Result<(), Fail> {
    // A file without bytes takes no room. How many blocks it is long, and whether that is counted.
    let rows: [(u32, bool); 4] = [
        (1_048_576, true),
        (1_048_577, false),
        (2_000_000, false),
        (3, true),
    ];
    for (blocks, right) in rows.iter() {
        assert_eq!(rt; counts(&rt, *blocks)?, [*right, *right], "{blocks} blocks");
    }
    Ok(())
}
