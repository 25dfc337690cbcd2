//! Maps that aren't right.
use super::*;
use iq_block_map::{RawMap, maps, read_page, read_raw_map};
use iq_block_store::{BlockFault, MAP};

/// The payload of a map whose first two numbers are these, below 256, and whose others are zero.
fn starting(numbers: [u8; 2]) -> Page {
    let mut page = [0; 1008];
    page[0] = numbers[0];
    page[4] = numbers[1];
    page
}

/// The payload of a map whose numbers are all 4.
fn fours() -> Page {
    let mut page = [0; 1008];
    for k in 0..252 {
        page[4 * k] = 4;
    }
    page
}

/// The level and the first numbers of the map in block 8, and the pages of the object whose root it is.
type Map = (u32, [u8; 2], u32);

/// A map, the block that is bad to a walk over the object's maps, if any is, and the one that is bad to a read of page 0.
const ROWS: [(Map, Option<u32>, u32); 11] = [
    ((1, [8, 0], 1), None, 8),
    ((1, [9, 0], 1), None, 9),
    ((1, [3, 0], 1), Some(8), 8),
    ((1, [12, 0], 1), Some(8), 8),
    ((1, [9, 9], 1), Some(8), 8),
    ((1, [9, 0], 2), Some(8), 8),
    ((2, [9, 0], 1), Some(8), 8),
    ((2, [8, 8], 253), Some(8), 8),
    ((2, [9, 10], 253), Some(9), 9),
    ((1, [9, 10], 253), Some(8), 8),
    ((2, [9, 0], 253), Some(8), 8),
];

/// The device with the map, and the object.
fn mapped(alloc: Global, map: &Map) -> Result<(SureDevice, Ref), MapFault> {
    let (level, numbers, pages) = *map;
    let mut disk = zeros(alloc, 12)?;
    frame(&mut disk, 8, MAP, level, &starting(numbers))?;
    Ok((disk, Ref { root: 8, pages }))
}

/// The block that a walk to the pages finds bad, one to all that the object reaches, a change of page 0, and a write of it.
fn edited(alloc: Global, disk: &mut SureDevice, object: Ref) -> [Option<MapFault>; 4] {
    [
        walk(alloc, disk, object, false).err(),
        walk(alloc, disk, object, true).err(),
        change(disk, &mut Spares::new(10, 12), object, 0, 5).err(),
        put(disk, &mut Spares::new(10, 12), object, 0, 5).err(),
    ]
}

fn bad(block: u32) -> MapFault {
    MapFault::BadMap { block }
}

fn bad_or_none(block: Option<u32>) -> Option<MapFault> {
    match block {
        None => None,
        Some(block) => Some(bad(block)),
    }
}

#[test]
fn bad_bytes_are_told_by_their_block(rt: HostRuntime) -> Result<(), Fail> {
    for (row, (map, block, first)) in ROWS.iter().enumerate() {
        let (mut disk, object) = mapped(rt.alloc(), map)?;
        let found = edited(rt.alloc(), &mut disk, object);
        same(&rt, &found, &[bad_or_none(*block); 4], row);
        same(&rt, &ends(&mut disk, object, 0), &Err(bad(*first)), row);
    }
    Ok(())
}

/// A device with an object of 253 pages in block 4: its topmost map is block 8, its first leaf block 9, and its last one, block 10,
/// is bad.
fn half_bad(alloc: Global) -> Result<SureDevice, MapFault> {
    let mut disk = zeros(alloc, 20)?;
    frame(&mut disk, 4, PAGE, 0, &[7; 1008])?;
    frame(&mut disk, 8, MAP, 2, &starting([9, 10]))?;
    frame(&mut disk, 9, MAP, 1, &fours())?;
    frame(&mut disk, 10, MAP, 1, &starting([3, 0]))?;
    Ok(disk)
}

/// That object.
const HALF_BAD: Ref = Ref {
    root: 8,
    pages: 253,
};

/// Puts page 0 of it into block 5.
fn changed(disk: &mut SureDevice) -> Result<Ref, MapFault> {
    change(disk, &mut Spares::new(11, 20), HALF_BAD, 0, 5)
}

/// The three maps of an object.
fn three_maps(alloc: Global, disk: &mut SureDevice, object: Ref) -> Result<[u32; 3], MapFault> {
    count_for(disk, object)?;
    match maps(alloc, disk, object)?.as_slice() {
        [a, b, c] => Ok([*a, *b, *c]),
        _ => Err(NO_CALL),
    }
}

#[test]
fn a_bad_leaf_that_is_not_touched_is_shared(rt: HostRuntime) -> Result<(), Fail> {
    let alloc = rt.alloc();
    let mut disk = half_bad(alloc)?;
    let new = changed(&mut disk)?;
    let wanted = Ref {
        root: 12,
        pages: 253,
    };
    same(&rt, &new, &wanted, 0);
    let maps = three_maps(alloc, &mut disk, new)?;
    same(&rt, &maps, &[12, 11, 10], 1);
    same(&rt, &ends(&mut disk, HALF_BAD, 0), &Ok(SEVENS), 2);
    same(&rt, &ends(&mut disk, new, 252), &Err(bad(10)), 3);
    let walked = walk(alloc, &mut disk, new, true).err();
    same(&rt, &walked, &Some(bad(10)), 4);
    Ok(())
}

const BAD_LEAF: Option<MapFault> = Some(MapFault::BadMap { block: 10 });

const NO_SPACE: Option<MapFault> = Some(MapFault::NoSpace);

/// The page that changes, the blocks that are left, and the fault: page 252 is in the bad leaf, and page 0 isn't. The next page,
/// 253, goes into the bad leaf too.
const TAKEN: [(u32, u32, Option<MapFault>); 7] = [
    (252, 0, BAD_LEAF),
    (252, 9, BAD_LEAF),
    (0, 0, NO_SPACE),
    (0, 1, NO_SPACE),
    (0, 2, None),
    (253, 1, BAD_LEAF),
    (253, 9, BAD_LEAF),
];

/// Changes a page or adds one, and answers the fault, and whether blocks are left.
fn taken(alloc: Global, n: u32, spare: u32) -> Result<(Option<MapFault>, bool), MapFault> {
    let mut disk = half_bad(alloc)?;
    let mut space = Spares::new(11, spare.saturating_add(11));
    let outcome = if n < 253 {
        change(&mut disk, &mut space, HALF_BAD, n, 5)
    } else {
        put(&mut disk, &mut space, HALF_BAD, n, 5)
    };
    Ok((outcome.err(), space.next < space.end))
}

#[test]
fn a_bad_leaf_is_told_before_want_of_space(rt: HostRuntime) -> Result<(), Fail> {
    for (row, (n, spare, fault)) in TAKEN.iter().enumerate() {
        let (found, left) = taken(rt.alloc(), *n, *spare)?;
        same(&rt, &found, fault, row);
        let is_full = found == NO_SPACE;
        same(&rt, &(is_full && left), &false, row);
    }
    Ok(())
}

/// Counts, and reads the level and the numbers of a map where there is such a block.
fn raw_at<D: Device>(disk: &mut D, at: u32) -> Result<RawMap, BlockFault> {
    match disk.count() {
        Ok(count) if at < count => read_raw_map(disk, at),
        _ => Err(BlockFault::BadHeader { block: 99 }),
    }
}

/// Counts, and reads the page in a block where there is such: its first byte and its last.
fn ends_at<D: Device>(disk: &mut D, at: u32) -> Result<(u8, u8), MapFault> {
    let mut bytes = [0; 1008];
    match disk.count() {
        Ok(count) if at < count => read_page(disk, at, &mut bytes)?,
        _ => return Err(NO_CALL),
    }
    Ok((bytes[0], bytes[1007]))
}

/// The level, and the first and the last number of the map in a block.
fn raw_told(disk: &mut SureDevice, at: u32) -> Result<(u32, u32, u32), BlockFault> {
    let raw = raw_at(disk, at)?;
    Ok((raw.level, raw.numbers[0], raw.numbers[251]))
}

#[test]
fn a_map_is_read_as_it_stands_in_its_block(rt: HostRuntime) -> Result<(), Fail> {
    let mut disk = half_bad(rt.alloc())?;
    same(&rt, &raw_told(&mut disk, 10), &Ok((1, 3, 0)), 0);
    let none = Err(BlockFault::BadHeader { block: 4 });
    same(&rt, &raw_told(&mut disk, 4), &none, 1);
    same(&rt, &ends_at(&mut disk, 4), &Ok((7, 7)), 2);
    same(&rt, &ends_at(&mut disk, 9), &Err(bad(9)), 3);
    Ok(())
}
