//! Objects of pages: what no clause says, that calls succeed, how many blocks they take, and how many they read.
mod editing;
mod failing;
mod growing;
mod reading;
mod wrong;

ghost use Rattle.std.specs.Prelude.{◌≡◌, ◌-◌, true, List, ℕ, Option, Some, length, IsTrue, IfOk};
ghost use Rattle.std.specs.List.{All, range_with_len};
ghost use Rattle.iq_block_map.specs.Maps.{is_address};
ghost use Rattle.iq_block_map.specs.Refs.{IsIn};
ghost use Rattle.iq_block_map.specs.Takers.{AreSpare};

use crate::checks::same;
use iq_base::Ref;
use iq_block_map::{MapFault, Taker, addresses, blocks, page, push, remap, with_page};
use iq_block_store::{PAGE, Page, write};
use iq_outside::{Block, Device, SureDevice};
use std::alloc::{AllocError, Global};
use std::test::Fail;

/// An object without pages.
const EMPTY: Ref = Ref { root: 0, pages: 0 };

/// What stands for a device that can't count, or a call that may not be made.
const NO_CALL: MapFault = MapFault::BadMap { block: 99 };

/// The blocks from one on, before an end.
#[derive(Debug, Drop)]
struct Spares {
    next: u32,
    end: u32,
}

impl Taker for Spares {
    ghost left = { λ s. range_with_len s.next (s.end - s.next) };

    fn take(&mut self) -> Option<u32> {
        if self.next >= self.end {
            return None;
        }
        self.next += 1;
        Some(self.next - 1)
    }
}

impl Spares {
    fn new(next: u32, end: u32) -> Spares {
        Spares { next, end }
    }
}

/// Some numbers that go up one by one, and from a last one again from the first on.
fn around(alloc: Global, first: u32, last: u32, count: usize) -> Result<Vec<u32>, AllocError> {
    let mut numbers = Vec::new(alloc);
    let mut next = first;
    for _ in 0..count {
        numbers.push(next)?;
        next = if next < last { next + 1 } else { first };
    }
    Ok(numbers)
}

/// A device of so many blocks of zeros.
fn zeros(alloc: Global, count: u32) -> Result<SureDevice, MapFault> {
    let mut disk = SureDevice::new(Vec::new(alloc));
    match disk.resize(count) {
        Ok(()) => Ok(disk),
        Err(_) => Err(MapFault::NoMemory),
    }
}

/// Counts, and tells whether an object may stand in the device.
fn count_for<D: Device>(disk: &mut D, object: Ref) -> Result<u32, MapFault>
    ensures count { IfOk result (λ n. (all : List (List ℕ)) → D.blocks disk.new ≡ Some all → n ≡ length all) }
    ensures object { IfOk result (λ _. IsIn (D.blocks disk.new) object) }
{
    match disk.count() {
        Ok(count) if object.pages == 0 => Ok(count),
        Ok(count) if object.pages <= 63504 && 4 <= object.root && object.root < count => Ok(count),
        _ => Err(NO_CALL),
    }
}

/// Whether pages may be in these blocks, of so many.
#[tactic(auto, using(iq_block_map::proofs::NamedLemmas::each_of))]
fn are_blocks(count: u32, blocks: &[u32]) -> bool
    ensures { IsTrue result → All (λ a. is_address count a ≡ true) blocks.now }
{
    blocks.iter().all(|a| 4 <= *a && *a < count)
}

/// Whether the spare blocks are some of so many.
fn are_spare(count: u32, space: &Spares) -> bool
    ensures { IsTrue result → (told : Option (List (List ℕ))) → ((all : List (List ℕ)) → told ≡ Some all → count ≡ length all)
        → AreSpare told (range_with_len space.now.next (space.now.end - space.now.next)) }
{
    4 <= space.next && space.end <= count
}

/// Counts, and adds pages where that may be done.
fn add<D: Device>(
    disk: &mut D,
    space: &mut Spares,
    old: Ref,
    added: &[u32],
) -> Result<Ref, MapFault> {
    let count = count_for(disk, old)?;
    if are_blocks(count, added)
        && are_spare(count, space)
        && added.len() <= 63504 - old.pages as usize
    {
        remap(disk, space, old, &[], added)
    } else {
        Err(NO_CALL)
    }
}

/// Counts, and puts a page in another block where that may be done.
fn change<D: Device>(
    disk: &mut D,
    space: &mut Spares,
    old: Ref,
    n: u32,
    at: u32,
) -> Result<Ref, MapFault> {
    let count = count_for(disk, old)?;
    if are_blocks(count, &[at]) && are_spare(count, space) && n < old.pages {
        remap(disk, space, old, &[(n, at)], &[])
    } else {
        Err(NO_CALL)
    }
}

/// Counts, and reads the blocks of the pages, or all that the object reaches.
fn walk<D: Device>(
    alloc: Global,
    disk: &mut D,
    object: Ref,
    maps: bool,
) -> Result<Vec<u32>, MapFault> {
    count_for(disk, object)?;
    if maps {
        blocks(alloc, disk, object)
    } else {
        addresses(alloc, disk, object)
    }
}

/// Counts, and reads a page: its block, its first byte and its last.
fn ends<D: Device>(disk: &mut D, object: Ref, n: u32) -> Result<(u32, u8, u8), MapFault> {
    count_for(disk, object)?;
    if n >= object.pages {
        return Err(NO_CALL);
    }
    let mut bytes = [0; 1008];
    let at = page(disk, object, n, &mut bytes)?;
    Ok((at, bytes[0], bytes[1007]))
}

/// Counts, and writes a page full of a byte: one of the object, or one more behind its last.
fn put<D: Device>(
    disk: &mut D,
    space: &mut Spares,
    object: Ref,
    n: u32,
    byte: u8,
) -> Result<Ref, MapFault> {
    let count = count_for(disk, object)?;
    if !are_spare(count, space) {
        Err(NO_CALL)
    } else if n < object.pages {
        with_page(disk, space, object, n, &[byte; 1008])
    } else if object.pages < 63504 {
        push(disk, space, object, &[byte; 1008])
    } else {
        Err(NO_CALL)
    }
}

/// Counts, and writes a block where there is such.
fn frame<D: Device>(
    disk: &mut D,
    at: u32,
    kind: u8,
    level: u32,
    payload: &Page,
) -> Result<(), MapFault> {
    let written = match disk.count() {
        Ok(count) if at < count => write(disk, at, kind, level, payload).is_ok(),
        _ => false,
    };
    if written { Ok(()) } else { Err(NO_CALL) }
}

/// A device with an object of so many pages, all in block 4.
fn store(alloc: Global, pages: usize) -> Result<(Vec<Block>, Ref), MapFault> {
    let mut disk = zeros(alloc, 20)?;
    frame(&mut disk, 4, PAGE, 0, &[7; 1008])?;
    let mut space = Spares::new(5, 10);
    let object = add(&mut disk, &mut space, EMPTY, &around(alloc, 4, 4, pages)?)?;
    Ok((disk.blocks().to_vec(alloc)?, object))
}

/// The fault of a device that failed for the first time.
const FIRST: MapFault = MapFault::StoreFault {
    before: 0,
    after: 1,
};

/// Block 4, and the first and the last byte of a page of sevens that stands in it.
const SEVENS: (u32, u8, u8) = (4, 7, 7);
