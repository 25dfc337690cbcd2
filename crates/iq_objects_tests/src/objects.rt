//! Objects that are opened, changed and closed on devices in memory.
ghost use Rattle.std.specs.Prelude.{◌≡◌, ◌-◌, ◌<◌, ◌^◌, List, ℕ, Option, Some, length, IsTrue, IfOk};
ghost use Rattle.std.specs.List.{range_with_len};
ghost use Rattle.iq_block_map.specs.Refs.{IsIn, WhereTold};
ghost use Rattle.iq_block_map.specs.Takers.{AreSpare};
ghost use Rattle.iq_objects.specs.Open.{Stands};

use crate::checks::same;
use iq_base::Ref;
use iq_block_map::{MapFault, Taker, page};
use iq_block_store::Page;
use iq_objects::OpenObject;
use iq_outside::{Block, Device, MemoryDevice, SureDevice};
use std::alloc::Global;
use std::test::Fail;

/// What stands for a device that can't count, or a call that may not be made.
const NO_CALL: MapFault = MapFault::BadMap { block: 99 };

/// The blocks from one on, before an end.
#[derive(Debug, Drop)]
struct Spares {
    next: u32,
    end: u32,
}

impl Taker for Spares {
    ghost left = { λ s. range_with_len s.next (s.end - s.next) };

    fn take(&mut self) -> Option<u32> {
        if self.next >= self.end {
            return None;
        }
        self.next += 1;
        Some(self.next - 1)
    }
}

/// Whether the spare blocks are some of so many.
fn are_spare(count: u32, space: &Spares) -> bool
    ensures { IsTrue result → (told : Option (List (List ℕ))) → ((all : List (List ℕ)) → told ≡ Some all → count ≡ length all)
        → AreSpare told (range_with_len space.now.next (space.now.end - space.now.next)) }
{
    4 <= space.next && space.end <= count
}

/// Puts pages at the end of an object, each of its own bytes.
fn grow<D: Device, T: Taker>(
    disk: &mut D,
    space: &mut T,
    object: &mut OpenObject,
    count: u32,
) -> Result<(), MapFault>
    requires spare { AreSpare (D.blocks disk.old) (T.left space.old) }
    requires stands { WhereTold (D.blocks disk.old) (Stands (T.left space.old) object.old) }
    ensures spare { AreSpare (D.blocks disk.new) (T.left space.new) }
    ensures stands { WhereTold (D.blocks disk.new) (Stands (T.left space.new) object.new) }
{
    for k in 0..count {
        if object.len() >= 63504 {
            return Err(NO_CALL);
        }
        object.push_page(disk, space, &[(k % 251) as u8; 1008])?;
    }
    Ok(())
}

/// Writes a page anew, where there is one of this number.
fn set<D: Device, T: Taker>(
    disk: &mut D,
    space: &mut T,
    object: &mut OpenObject,
    n: u32,
    byte: u8,
) -> Result<(), MapFault>
    requires spare { AreSpare (D.blocks disk.old) (T.left space.old) }
    requires stands { WhereTold (D.blocks disk.old) (Stands (T.left space.old) object.old) }
    ensures spare { AreSpare (D.blocks disk.new) (T.left space.new) }
    ensures stands { WhereTold (D.blocks disk.new) (Stands (T.left space.new) object.new) }
{
    if n as usize >= object.len() {
        return Ok(());
    }
    object.set_page(disk, space, n, &[byte; 1008])
}

/// Writes the first page and the last one anew, and the first one again.
fn change<D: Device, T: Taker>(
    disk: &mut D,
    space: &mut T,
    object: &mut OpenObject,
) -> Result<(), MapFault>
    requires spare { AreSpare (D.blocks disk.old) (T.left space.old) }
    requires stands { WhereTold (D.blocks disk.old) (Stands (T.left space.old) object.old) }
    ensures spare { AreSpare (D.blocks disk.new) (T.left space.new) }
    ensures stands { WhereTold (D.blocks disk.new) (Stands (T.left space.new) object.new) }
{
    let last = object.len().saturating_sub(1) as u32;
    set(disk, space, object, 0, 253)?;
    set(disk, space, object, last, 254)?;
    set(disk, space, object, 0, 255)
}

/// An object of so many pages that is closed, changed and closed again; both references.
fn run<D: Device, T: Taker>(
    disk: &mut D,
    space: &mut T,
    object: &mut OpenObject,
    count: u32,
) -> Result<(Ref, Ref), MapFault>
    requires spare { AreSpare (D.blocks disk.old) (T.left space.old) }
    requires stands { WhereTold (D.blocks disk.old) (Stands (T.left space.old) object.old) }
    ensures spare { AreSpare (D.blocks disk.new) (T.left space.new) }
    ensures stands { WhereTold (D.blocks disk.new) (Stands (T.left space.new) object.new) }
{
    grow(disk, space, object, count)?;
    let old = object.close(disk, space)?;
    change(disk, space, object)?;
    let new = object.close(disk, space)?;
    Ok((old, new))
}

/// The same from an empty object on, where the blocks may be taken.
fn begin<D: Device>(
    disk: &mut D,
    space: &mut Spares,
    object: &mut OpenObject,
    count: u32,
) -> Result<(Ref, Ref), MapFault>
    requires { (told : Option (List (List ℕ))) (left : List ℕ) → AreSpare told left → (all : List (List ℕ)) → length all < 2 ^ 32 → Stands left object.old all }
{
    match disk.count() {
        Ok(blocks) if are_spare(blocks, space) => run(disk, space, object, count),
        _ => Err(NO_CALL),
    }
}

/// A device of so many blocks of zeros.
fn zeros(alloc: Global, count: u32) -> Result<SureDevice, MapFault> {
    let mut disk = SureDevice::new(Vec::new(alloc));
    match disk.resize(count) {
        Ok(()) => Ok(disk),
        Err(_) => Err(MapFault::NoMemory),
    }
}

/// The first bytes of the first and the last page of an object, where it may stand in the device, and how many pages it has.
fn ends<D: Device>(alloc: Global, disk: &mut D, object: Ref) -> Result<(u8, u8, usize), MapFault> {
    let count = match disk.count() {
        Ok(count) => count,
        Err(_) => return Err(NO_CALL),
    };
    if object.pages > 63504 || object.pages > 0 && (object.root < 4 || object.root >= count) {
        return Err(NO_CALL);
    }
    let opened = OpenObject::open(alloc, disk, object)?;
    let mut first: Page = [0; 1008];
    let mut last: Page = [0; 1008];
    let pages = opened.len();
    if pages > 0 {
        opened.page(disk, 0, &mut first)?;
        opened.page(disk, (pages - 1) as u32, &mut last)?;
    }
    Ok((first[0], last[0], pages))
}

/// What is told of an object that was written, changed and closed.
#[derive(Debug, PartialEq, Drop)]
struct Outcome {
    taken: u32,
    lost: usize,
    old: (u8, u8, usize),
    new: (u8, u8, usize),
}

fn told(alloc: Global, count: u32) -> Result<Outcome, MapFault> {
    let mut disk = zeros(alloc, 600)?;
    let mut space = Spares { next: 4, end: 600 };
    let mut object = OpenObject::empty(alloc);
    let (old, new) = begin(&mut disk, &mut space, &mut object, count)?;
    Ok(Outcome {
        taken: space.next.saturating_sub(4),
        lost: object.lost().len(),
        old: ends(alloc, &mut disk, old)?,
        new: ends(alloc, &mut disk, new)?,
    })
}

/// How many pages, the blocks taken and lost, and the ends of the old object and the new one.
const SIZES: [(u32, u32, usize, (u8, u8), (u8, u8)); 7] = [
    (0, 0, 0, (0, 0), (0, 0)),
    (1, 6, 4, (0, 0), (255, 255)),
    (251, 256, 4, (0, 250), (255, 254)),
    (252, 257, 4, (0, 0), (255, 254)),
    (253, 262, 6, (0, 1), (255, 254)),
    (504, 513, 6, (0, 1), (255, 254)),
    (505, 515, 6, (0, 2), (255, 254)),
];

#[test]
fn an_object_is_read_as_it_was_written_and_the_old_one_stays(rt: HostRuntime) -> Result<(), Fail> {
    let alloc = rt.alloc();
    for (row, size) in SIZES.iter().enumerate() {
        let (count, taken, lost, old, new) = *size;
        let pages = count as usize;
        let wanted = Outcome {
            taken,
            lost,
            old: (old.0, old.1, pages),
            new: (new.0, new.1, pages),
        };
        same(&rt, &told(alloc, count)?, &wanted, row);
    }
    Ok(())
}

/// A device of blocks of zeros whose call of this number fails.
fn failing(alloc: Global, call: u64) -> Result<MemoryDevice, MapFault> {
    let blocks: [Block; 20] = [[0; 1024]; 20];
    Ok(MemoryDevice::new(blocks.to_vec(alloc)?, [call].to_vec(alloc)?))
}

/// Two pages, the first of which is written twice more: why the call failed, how many pages there are, and how many blocks are lost.
fn failed(disk: &mut MemoryDevice, space: &mut Spares, object: &mut OpenObject) -> Option<MapFault>
    requires { (told : Option (List (List ℕ))) (left : List ℕ) → AreSpare told left → (all : List (List ℕ)) → length all < 2 ^ 32 → Stands left object.old all }
{
    begin(disk, space, object, 2).err()
}

const FIRST: Option<MapFault> = Some(MapFault::StoreFault {
    before: 0,
    after: 1,
});

/// The call that fails, the pages then, and the lost blocks: each write that fails loses its block.
const CALLS: [(u64, Option<MapFault>, usize, usize); 8] = [
    (2, FIRST, 0, 1),
    (3, FIRST, 1, 1),
    (4, FIRST, 2, 1),
    (5, FIRST, 2, 1),
    (6, FIRST, 2, 3),
    (7, FIRST, 2, 4),
    (8, FIRST, 2, 5),
    (9, None, 2, 4),
];

#[test]
fn a_failed_call_keeps_the_pages_and_loses_its_block(rt: HostRuntime) -> Result<(), Fail> {
    let alloc = rt.alloc();
    for (row, (call, cause, pages, lost)) in CALLS.iter().enumerate() {
        let mut object = OpenObject::empty(alloc);
        let mut space = Spares { next: 4, end: 20 };
        let found = failed(&mut failing(alloc, *call)?, &mut space, &mut object);
        same(&rt, &found, cause, row);
        same(
            &rt,
            &(object.len(), object.lost().len()),
            &(*pages, *lost),
            row,
        );
    }
    Ok(())
}

const NO_SPACE: Option<MapFault> = Some(MapFault::NoSpace);

/// How many blocks are left to take, what comes of it, and the pages then.
const SPARE: [(u32, Option<MapFault>, usize, usize); 8] = [
    (0, NO_SPACE, 0, 0),
    (1, NO_SPACE, 1, 0),
    (2, NO_SPACE, 2, 0),
    (3, NO_SPACE, 2, 0),
    (4, NO_SPACE, 2, 2),
    (5, NO_SPACE, 2, 3),
    (6, NO_SPACE, 2, 4),
    (7, None, 2, 4),
];

#[test]
fn a_call_without_a_block_to_take_keeps_the_pages(rt: HostRuntime) -> Result<(), Fail> {
    let alloc = rt.alloc();
    for (row, (spare, cause, pages, lost)) in SPARE.iter().enumerate() {
        let mut object = OpenObject::empty(alloc);
        let mut space = Spares {
            next: 4,
            end: spare.saturating_add(4),
        };
        let found = failed(&mut failing(alloc, 99)?, &mut space, &mut object);
        same(&rt, &found, cause, row);
        same(
            &rt,
            &(object.len(), object.lost().len()),
            &(*pages, *lost),
            row,
        );
    }
    Ok(())
}

#[test]
fn a_bad_map_is_told_and_an_object_is_cleared(rt: HostRuntime) -> Result<(), Fail> {
    let alloc = rt.alloc();
    let mut disk = zeros(alloc, 20)?;
    let bad = ends(alloc, &mut disk, Ref { root: 5, pages: 1 });
    same(&rt, &bad, &Err(MapFault::BadMap { block: 5 }), 0);
    let mut object = OpenObject::empty(alloc);
    let mut space = Spares { next: 4, end: 20 };
    begin(&mut disk, &mut space, &mut object, 2)?;
    object.clear()?;
    same(&rt, &(object.len(), object.lost().len()), &(0, 7), 1);
    Ok(())
}
