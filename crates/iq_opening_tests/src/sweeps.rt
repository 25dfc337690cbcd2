//! Each byte of some blocks changed: what opening tells, and what the plain program tells.
use crate::checks::same;
use crate::images::two_tables;
use crate::large::{one_high_object, two_descriptor_blocks};
use iq_base::NoMemory;
use iq_opening::{OpenFault, StoreCause, open};
use iq_outside::{Block, SureDevice};
use iq_plain_opening::plain_opened;
use std::alloc::Global;
use std::test::Fail;

/// A cause and the block that shows it, or how many blocks are reached.
type Told = Result<u32, (u32, StoreCause)>;

/// What opening tells of blocks.
fn told(alloc: Global, blocks: Vec<Block>) -> Result<Told, NoMemory> {
    if blocks.len() > 1000 {
        return Err(NoMemory);
    }
    match open(alloc, &mut SureDevice::new(blocks)) {
        Ok(opening) => Ok(Ok(opening.reached.count())),
        Err(OpenFault::NotAStore { block, cause }) => Ok(Err((block, cause))),
        Err(OpenFault::NoMemory | OpenFault::StoreFault { .. }) => Err(NoMemory),
    }
}

/// What the plain program tells of them.
fn told_plainly(alloc: Global, blocks: &[Block]) -> Result<Told, NoMemory> {
    match plain_opened(alloc, blocks)? {
        Ok(reached) => {
            let mut count = 0u32;
            for bit in reached.as_slice() {
                if *bit {
                    count = count.saturating_add(1);
                }
            }
            Ok(Ok(count))
        }
        Err(fault) => Ok(Err((fault.block, fault.cause))),
    }
}

/// The two tables with one byte of a block replaced, and what both tell.
fn both(
    alloc: Global,
    blocks: &Vec<Block>,
    at: usize,
    byte: usize,
    value: u8,
) -> Result<(Told, Told), NoMemory> {
    let mut changed = blocks.clone()?;
    if let Some(block) = changed.get_mut(at) {
        if byte < 1024 {
            block[byte] = value;
        }
    }
    let expected = told_plainly(alloc, &changed)?;
    Ok((told(alloc, changed)?, expected))
}

/// The first byte of some blocks, each from a byte to another, at which both tell otherwise where it is 0 or 8.
fn first_difference(
    alloc: Global,
    blocks: &Vec<Block>,
    rows: &[(usize, usize, usize)],
) -> Result<Option<(usize, usize)>, NoMemory> {
    for (at, from, end) in rows {
        for byte in *from..*end {
            for value in [0, 8] {
                let (found, expected) = both(alloc, blocks, *at, byte, value)?;
                if found != expected {
                    return Ok(Some((*at, byte)));
                }
            }
        }
    }
    Ok(None)
}

/// The root, the descriptors, maps of several objects, and a page: each with the bytes in use.
const TABLES: [(usize, usize, usize); 7] = [
    (2, 0, 48),
    (3, 0, 24),
    (4, 0, 300),
    (7, 0, 24),
    (8, 0, 20),
    (63, 0, 36),
    (67, 0, 130),
];

#[test]
fn opening_tells_what_the_definition_says(rt: HostRuntime) -> Result<(), Fail> {
    let blocks = two_tables(rt.alloc())?;
    let found = first_difference(rt.alloc(), &blocks, &TABLES)?;
    same(&rt, &found, &None, "a block and its byte");
    Ok(())
}

/// The reference of the cells; the map at the top, and both that it names.
const HIGH: [(usize, usize, usize); 4] = [(4, 112, 120), (38, 8, 28), (39, 8, 20), (292, 8, 24)];

#[test]
fn it_tells_so_of_maps_above_maps(rt: HostRuntime) -> Result<(), Fail> {
    let blocks = one_high_object(rt.alloc())?;
    let found = first_difference(rt.alloc(), &blocks, &HIGH)?;
    same(&rt, &found, &None, "a block and its byte");
    Ok(())
}

/// The addresses of the other blocks and the counts; the end of the first block, and the front of the second.
const TWO_BLOCKS: [(usize, usize, usize); 4] = [
    (4, 16, 28),
    (4, 59, 65),
    (4, 1008, 1024),
    (5, 0, 60),
];

#[test]
fn it_tells_so_of_descriptors_of_two_blocks(rt: HostRuntime) -> Result<(), Fail> {
    let blocks = two_descriptor_blocks(rt.alloc())?;
    let found = first_difference(rt.alloc(), &blocks, &TWO_BLOCKS)?;
    same(&rt, &found, &None, "a block and its byte");
    Ok(())
}
