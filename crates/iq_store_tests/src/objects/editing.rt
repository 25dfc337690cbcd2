//! Objects edited: the blocks that are taken, and what the new object reaches.
use super::*;
use iq_block_map::maps;
use std::process::Abort;

/// A device of 80 blocks, of which those from 60 on are spare, and an object whose pages go round in blocks 4 to 59.
#[derive(Drop)]
struct Made {
    disk: SureDevice,
    space: Spares,
    object: Ref,
}

fn of_pages(alloc: Global, pages: usize) -> Result<Made, MapFault> {
    let mut disk = zeros(alloc, 80)?;
    let mut space = Spares::new(60, 80);
    let all = around(alloc, 4, 59, pages)?;
    let object = add(&mut disk, &mut space, EMPTY, &all)?;
    Ok(Made {
        disk,
        space,
        object,
    })
}

/// How many blocks a change took, and whether it left the object as it was.
type Taken = (u32, bool);

impl Made {
    fn taken(&self, first: u32, new: Ref) -> Taken {
        (self.space.next.wrapping_sub(first), new == self.object)
    }

    /// Adds pages.
    fn add(&mut self, added: &[u32]) -> Result<Taken, MapFault> {
        let first = self.space.next;
        let new = add(&mut self.disk, &mut self.space, self.object, added)?;
        Ok(self.taken(first, new))
    }

    /// Puts a page elsewhere.
    fn change(&mut self, n: u32, at: u32) -> Result<Taken, MapFault> {
        let first = self.space.next;
        let new = change(&mut self.disk, &mut self.space, self.object, n, at)?;
        Ok(self.taken(first, new))
    }
}

/// The pages, how many are added, and the blocks that are taken for it.
const ADDED: [(usize, usize, u32); 8] = [
    (600, 1, 2),
    (600, 0, 0),
    (504, 1, 2),
    (252, 1, 2),
    (251, 1, 1),
    (0, 1, 1),
    (0, 253, 3),
    (1, 503, 3),
];

/// The pages, the page that is put elsewhere, its new block, and the blocks that are taken for it.
const CHANGED: [(usize, u32, u32, u32); 6] = [
    (600, 300, 5, 2),
    (600, 0, 5, 2),
    (600, 599, 5, 2),
    (600, 300, 24, 0),
    (252, 251, 5, 1),
    (252, 251, 31, 0),
];

#[test]
fn a_map_is_taken_where_its_pages_change(rt: HostRuntime) -> Result<(), Fail> {
    let alloc = rt.alloc();
    for (row, (pages, more, taken)) in ADDED.iter().enumerate() {
        let found = of_pages(alloc, *pages)?.add(&around(alloc, 5, 7, *more)?)?;
        same(&rt, &found, &(*taken, *more == 0), row);
    }
    for (row, (pages, n, at, taken)) in CHANGED.iter().enumerate() {
        let found = of_pages(alloc, *pages)?.change(*n, *at)?;
        same(&rt, &found, &(*taken, *taken == 0), row);
    }
    Ok(())
}

/// How many blocks an object reaches, the first four and the last three.
fn reached(made: &mut Made, alloc: Global) -> Result<(usize, [u32; 4], [u32; 3]), MapFault> {
    let reached = walk(alloc, &mut made.disk, made.object, true)?;
    match reached.as_slice() {
        [a, b, c, d, .., x, y, z] => Ok((reached.len(), [*a, *b, *c, *d], [*x, *y, *z])),
        _ => Err(NO_CALL),
    }
}

/// Adds a page, and hands on the object.
fn extended(made: &mut Made, at: u32) -> Result<Ref, MapFault> {
    made.object = add(&mut made.disk, &mut made.space, made.object, &[at])?;
    Ok(made.object)
}

#[test]
fn a_leaf_stays_reached_by_the_map_above_it(rt: HostRuntime) -> Result<(), Fail> {
    let mut made = of_pages(rt.alloc(), 252)?;
    let leaf = Ref {
        root: 60,
        pages: 252,
    };
    same(&rt, &made.object, &leaf, 0);
    let object = Ref {
        root: 62,
        pages: 253,
    };
    same(&rt, &extended(&mut made, 9)?, &object, 1);
    let wanted = (256, [62, 60, 4, 5], [31, 61, 9]);
    same(&rt, &reached(&mut made, rt.alloc())?, &wanted, 2);
    Ok(())
}

/// The pages and the maps.
const PAGES: [(usize, usize); 7] = [
    (0, 0),
    (1, 1),
    (252, 1),
    (253, 3),
    (504, 3),
    (600, 4),
    (63504, 253),
];

/// Adds pages to an object that has none, and answers how many it has then, whether they are those that a walk comes to, and how
/// many maps it reaches.
fn walked(alloc: Global, pages: usize) -> Result<(usize, bool, usize), MapFault> {
    let mut disk = zeros(alloc, 320)?;
    let mut space = Spares::new(60, 320);
    let all = around(alloc, 4, 59, pages)?;
    let object = add(&mut disk, &mut space, EMPTY, &all)?;
    let read = walk(alloc, &mut disk, object, false)?;
    let reached = walk(alloc, &mut disk, object, true)?.len();
    Ok((
        object.pages as usize,
        read == all,
        reached.wrapping_sub(pages),
    ))
}

#[test]
fn an_object_has_the_pages_that_were_added(rt: HostRuntime) -> Result<(), Fail> {
    for (pages, maps) in PAGES.iter() {
        let found = walked(rt.alloc(), *pages)?;
        same(&rt, &found, &(*pages, true, *maps), *pages);
    }
    Ok(())
}

/// A device of 20 blocks, of which those from 4 on are spare.
#[derive(Drop)]
struct Growing {
    disk: SureDevice,
    space: Spares,
}

impl Growing {
    fn put(&mut self, object: Ref, n: u32, byte: u8) -> Result<Ref, MapFault> {
        put(&mut self.disk, &mut self.space, object, n, byte)
    }

    fn ends(&mut self, object: Ref, n: u32) -> Result<(u32, u8, u8), MapFault> {
        ends(&mut self.disk, object, n)
    }
}

fn without_objects(alloc: Global) -> Result<Growing, MapFault> {
    let disk = zeros(alloc, 20)?;
    let space = Spares::new(4, 20);
    Ok(Growing { disk, space })
}

/// An object, the next one with a page more, and one whose first page is another.
fn three(growing: &mut Growing) -> Result<[Ref; 3], MapFault> {
    let one = growing.put(EMPTY, 0, 7)?;
    let two = growing.put(one, 1, 8)?;
    let new = growing.put(two, 0, 9)?;
    Ok([one, two, new])
}

/// A page more than a full map holds.
fn more(growing: &mut Growing, pages: &[u32]) -> Result<Ref, MapFault> {
    let full = add(&mut growing.disk, &mut growing.space, EMPTY, pages)?;
    growing.put(full, 252, 5)
}

#[test]
fn an_old_object_reads_as_before(rt: HostRuntime) -> Result<(), Fail> {
    let mut growing = without_objects(rt.alloc())?;
    let [one, two, new] = three(&mut growing)?;
    same(&rt, &[one.pages, two.pages, new.pages], &[1, 2, 2], 0);
    same(&rt, &growing.ends(one, 0), &Ok(SEVENS), 1);
    same(&rt, &growing.ends(two, 0), &Ok(SEVENS), 2);
    same(&rt, &growing.ends(two, 1), &Ok((6, 8, 8)), 3);
    same(&rt, &growing.ends(new, 0), &Ok((8, 9, 9)), 4);
    same(&rt, &growing.ends(new, 1), &Ok((6, 8, 8)), 5);
    let more = more(&mut growing, &around(rt.alloc(), 4, 4, 252)?)?;
    // A page and two maps.
    same(&rt, &growing.space.next, &14, 6);
    same(&rt, &growing.ends(more, 251), &Ok(SEVENS), 7);
    same(&rt, &growing.ends(more, 252), &Ok((11, 5, 5)), 8);
    Ok(())
}

/// A page of 600, the maps after it is put into block 5, the topmost one first, and the leaf that is dropped.
const DROPPED: [(u32, [u32; 4], u32); 4] = [
    (0, [65, 64, 61, 62], 60),
    (251, [65, 64, 61, 62], 60),
    (252, [65, 60, 64, 62], 61),
    (599, [65, 60, 61, 64], 62),
];

/// The maps of the object.
fn four_maps(alloc: Global, made: &mut Made) -> Result<[u32; 4], MapFault> {
    count_for(&mut made.disk, made.object)?;
    match maps(alloc, &mut made.disk, made.object)?.as_slice() {
        [a, b, c, d] => Ok([*a, *b, *c, *d]),
        _ => Err(NO_CALL),
    }
}

/// Puts a page into block 5, and hands on the object.
fn moved(made: &mut Made, n: u32) -> Result<(), MapFault> {
    made.object = change(&mut made.disk, &mut made.space, made.object, n, 5)?;
    Ok(())
}

/// How many blocks the object reaches, and whether this is one of them.
fn reaches(alloc: Global, made: &mut Made, block: u32) -> Result<(usize, bool), MapFault> {
    let reached = walk(alloc, &mut made.disk, made.object, true)?;
    Ok((reached.len(), reached.contains(&block)))
}

fn drops(rt: &impl Abort, alloc: Global, row: &(u32, [u32; 4], u32)) -> Result<(), MapFault> {
    let (n, after, dropped) = row;
    let mut made = of_pages(alloc, 600)?;
    let before = four_maps(alloc, &mut made)?;
    same(rt, &before, &[63, 60, 61, 62], *n as usize);
    moved(&mut made, *n)?;
    same(rt, &four_maps(alloc, &mut made)?, after, *n as usize);
    let found = reaches(alloc, &mut made, *dropped)?;
    same(rt, &found, &(604, false), *n as usize);
    Ok(())
}

#[test]
fn a_new_object_reaches_old_maps_and_taken_ones(rt: HostRuntime) -> Result<(), Fail> {
    for row in DROPPED.iter() {
        drops(&rt, rt.alloc(), row)?;
    }
    Ok(())
}
