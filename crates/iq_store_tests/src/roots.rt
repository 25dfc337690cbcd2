//! Roots that are published and read again, also where a run stops, and the bytes of an empty store.
use crate::checks::same;
use iq_outside::{Block, Device, FuseDevice, MemoryDevice, Pick, SureDevice};
use iq_root::{Addresses, Root, RootFault, format, newest_root, publish};
use std::alloc::{AllocError, Global};
use std::test::Fail;

/// A root with two tables.
fn root(generation: u64, format: u32) -> Root {
    let mut tables = Addresses::new();
    tables.push(4);
    tables.push(9);
    Root {
        generation,
        format,
        count: 12,
        tables,
    }
}

/// Counts, and then publishes where there are slots.
fn put<D: Device>(disk: &mut D, root: &Root) -> Result<(), RootFault> {
    match disk.count() {
        Ok(count) if count >= 4 => publish(disk, root),
        _ => Err(RootFault::NoRoot),
    }
}

/// An empty store of 12 blocks.
fn store(alloc: Global) -> SureDevice {
    let mut disk = SureDevice::new(Vec::new(alloc));
    let _ = format(&mut disk, 12);
    disk
}

/// What a stop leaves, after so many calls, of a device that publishes a root of this generation, and whether publishing was Ok.
fn left(
    disk: &SureDevice,
    alloc: Global,
    generation: u64,
    calls: u64,
    pick: Pick,
) -> Result<(bool, SureDevice), AllocError> {
    let blocks = disk.blocks().to_vec(alloc)?;
    if blocks.len() > 12 {
        return Ok((false, store(alloc)));
    }
    let mut fuse = FuseDevice::new(blocks, calls);
    let done = put(&mut fuse, &root(generation, 2)).is_ok();
    Ok((done, fuse.crash(pick)))
}

/// The generation of the newest root, or 0.
fn newest(disk: &mut SureDevice) -> u64 {
    match newest_root(disk) {
        Ok(root) => root.generation,
        Err(_) => 0,
    }
}

/// Publishes on a device that stops after so many calls, and answers whether that was Ok and which generation a stop leaves.
fn stopped(alloc: Global, calls: u64, pick: Pick) -> Result<(bool, u64), AllocError> {
    let (done, mut left) = left(&store(alloc), alloc, 2, calls, pick)?;
    Ok((done, newest(&mut left)))
}

/// How many calls pass, whether publishing is Ok, and the generations by old, new and torn blocks. The first call counts; then each
/// of closed gate, body and open gate is a write and a sync.
const STOPS: [(u64, bool, [u64; 3]); 9] = [
    (0, false, [1, 1, 1]),
    (1, false, [1, 1, 1]),
    (2, false, [1, 1, 1]),
    (3, false, [1, 1, 1]),
    (4, false, [1, 1, 1]),
    (5, false, [1, 1, 1]),
    (6, false, [1, 2, 2]),
    (7, true, [2, 2, 2]),
    (8, true, [2, 2, 2]),
];

#[test]
fn a_stop_within_publish_leaves_the_last_root_or_the_new_one(rt: HostRuntime) -> Result<(), Fail> {
    let alloc = rt.alloc();
    for (row, (calls, done, [old, new, torn])) in STOPS.iter().enumerate() {
        same(
            &rt,
            &stopped(alloc, *calls, Pick::Old)?,
            &(*done, *old),
            row,
        );
        same(
            &rt,
            &stopped(alloc, *calls, Pick::New)?,
            &(*done, *new),
            row,
        );
        same(
            &rt,
            &stopped(alloc, *calls, Pick::Torn)?,
            &(*done, *torn),
            row,
        );
    }
    Ok(())
}

/// Stops once while generation 2 is published, and once more while the next root after what was left is. Answers whether each
/// stop left the last root or the new one, and the new one where publishing was done.
fn goes_on(
    alloc: Global,
    calls: u64,
    first: Pick,
    again: u64,
    second: Pick,
) -> Result<bool, AllocError> {
    let (_, mut once) = left(&store(alloc), alloc, 2, calls, first)?;
    let last = newest(&mut once);
    let next = last.saturating_add(1);
    let (_, mut twice) = left(&once, alloc, next, again, second)?;
    let new = newest(&mut twice);
    Ok((last == 1 || last == 2) && (new == next || new == last && again < 7))
}

const PICKS: [(Pick, Pick); 9] = [
    (Pick::Old, Pick::Old),
    (Pick::Old, Pick::New),
    (Pick::Old, Pick::Torn),
    (Pick::New, Pick::Old),
    (Pick::New, Pick::New),
    (Pick::New, Pick::Torn),
    (Pick::Torn, Pick::Old),
    (Pick::Torn, Pick::New),
    (Pick::Torn, Pick::Torn),
];

#[test]
fn two_stops_leave_the_last_root_or_the_new_one(rt: HostRuntime) -> Result<(), Fail> {
    // How many calls pass before the first stop, and how many before the second.
    for calls in 0..64 {
        for (first, second) in PICKS.iter() {
            let right = goes_on(rt.alloc(), calls / 8, *first, calls % 8, *second)?;
            same(&rt, &right, &true, calls as usize);
        }
    }
    Ok(())
}

/// A block of these bytes, and zeros.
fn block(front: &[u8; 36]) -> Block {
    let mut block = [0; 1024];
    block.split_at_mut(36).0.copy_from_slice(front);
    block
}

/// The front of each root block of an empty store of 64 blocks.
const ROOTS: [&[u8; 36]; 4] = [
    b"IQB1\x01\0\0\0\0\0\0\0\0\0\0\0\0\0\0\0\0\0\0\0\x02\0\0\0\x40\0\0\0\0\0\0\0",
    b"IQB1\x02\0\0\0\x01\0\0\0\0\0\0\0\0\0\0\0\0\0\0\0\0\0\0\0\0\0\0\0\0\0\0\0",
    b"IQB1\x01\0\0\0\x02\0\0\0\0\0\0\0\x01\0\0\0\0\0\0\0\x02\0\0\0\x40\0\0\0\0\0\0\0",
    b"IQB1\x02\0\0\0\x03\0\0\0\0\0\0\0\x01\0\0\0\0\0\0\0\0\0\0\0\0\0\0\0\0\0\0\0",
];

/// A store of 64 blocks.
fn formatted(alloc: Global) -> Result<SureDevice, RootFault> {
    let mut disk = SureDevice::new(Vec::new(alloc));
    format(&mut disk, 64)?;
    Ok(disk)
}

#[test]
fn an_empty_store_has_these_roots(rt: HostRuntime) -> Result<(), Fail> {
    let disk = formatted(rt.alloc())?;
    same(&rt, &disk.blocks().len(), &64, 64);
    for (place, (found, front)) in disk.blocks().iter().zip(ROOTS.iter()).enumerate() {
        same(&rt, found, &block(front), place);
    }
    Ok(())
}

/// What the newest root says: its generation, its format, its count, and the heads of its tables.
type Told = (u64, u32, u32, Option<[u32; 2]>);

fn told(disk: &mut SureDevice) -> Result<Told, RootFault> {
    let root = newest_root(disk)?;
    let tables = match root.tables.as_slice() {
        [first, second] => Some([*first, *second]),
        _ => None,
    };
    Ok((root.generation, root.format, root.count, tables))
}

#[test]
fn a_root_is_read_as_it_was_published(rt: HostRuntime) -> Result<(), Fail> {
    let mut disk = store(rt.alloc());
    for (generation, format) in [(2, 1), (3, 2)] {
        let published = put(&mut disk, &root(generation, format));
        same(&rt, &published, &Ok(()), generation as usize);
        let wanted = (generation, format, 12, Some([4, 9]));
        same(&rt, &told(&mut disk)?, &wanted, generation as usize);
    }
    Ok(())
}

/// What is told of a device of so many blocks of zeros.
fn told_of_zeros(alloc: Global, count: u32) -> Result<Told, RootFault> {
    let mut disk = SureDevice::new(Vec::new(alloc));
    match disk.resize(count) {
        Ok(()) => told(&mut disk),
        Err(_) => Err(RootFault::StoreFault {
            before: 0,
            after: 1,
        }),
    }
}

/// What formatting tells of a device whose second call fails.
fn format_fails(alloc: Global) -> Result<Result<(), RootFault>, AllocError> {
    let mut failing = MemoryDevice::new(Vec::new(alloc), [2].to_vec(alloc)?);
    Ok(format(&mut failing, 8))
}

#[test]
fn a_device_without_a_valid_slot_has_no_root(rt: HostRuntime) -> Result<(), Fail> {
    let alloc = rt.alloc();
    let none = Err(RootFault::NoRoot);
    same(&rt, &told(&mut SureDevice::new(Vec::new(alloc))), &none, 0);
    same(&rt, &told_of_zeros(alloc, 5), &none, 5);
    let fault = Err(RootFault::StoreFault {
        before: 0,
        after: 1,
    });
    same(&rt, &format_fails(alloc)?, &fault, 8);
    Ok(())
}
