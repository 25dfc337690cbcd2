//! Hostile images: which block and cause is told of each.
use crate::checks::same;
use crate::images::{poke, two_tables};
use iq_base::NoMemory;
use iq_opening::{OpenFault, StoreCause, open};
use iq_outside::SureDevice;
use std::alloc::Global;
use std::process::Abort;
use std::test::Fail;

/// Some bytes from a place of a block on.
#[derive(Clone, Copy)]
pub struct Edit(pub u32, pub usize, pub &'static [u8]);

/// What opening the two tables answers after some bytes were changed.
pub fn fault_after(alloc: Global, edits: &[Edit]) -> Result<Option<OpenFault>, NoMemory> {
    let mut blocks = two_tables(alloc)?;
    for Edit(at, byte, bytes) in edits {
        poke(&mut blocks, *at, *byte, bytes);
    }
    if blocks.len() > 1000 {
        return Ok(None);
    }
    Ok(open(alloc, &mut SureDevice::new(blocks)).err())
}

/// What is told of a block with a cause.
pub fn not_a_store(block: u32, cause: StoreCause) -> Option<OpenFault> {
    Some(OpenFault::NotAStore { block, cause })
}

/// Some bytes that are changed, and what is told then.
#[derive(Clone, Copy)]
pub struct Row(
    pub &'static str,
    pub &'static [Edit],
    pub u32,
    pub StoreCause,
);

pub fn are_told(rt: &impl Abort, alloc: Global, rows: &[Row]) -> Result<(), NoMemory> {
    for Row(told, edits, block, cause) in rows {
        let found = fault_after(alloc, edits)?;
        same(rt, &found, &not_a_store(*block, *cause), told);
    }
    Ok(())
}

/// Where in the head of t the reference of existence begins, each column, and each index.
pub const EXISTENCE: usize = 65;

pub const COLUMN_A: usize = 73;

pub const COLUMN_B: usize = 128;

pub const COLUMN_C: usize = 183;

pub const INDEX_L: usize = 238;

pub const INDEX_H: usize = 300;

pub const INDEX_N: usize = 362;

pub const INDEX_M: usize = 424;

const ADDRESSES: [Row; 36] = [
    Row(
        "the root names one block twice",
        &[Edit(2, 40, &[4])],
        4,
        StoreCause::Shared,
    ),
    Row(
        "the root names a root",
        &[Edit(2, 36, &[3])],
        2,
        StoreCause::OutOfRange,
    ),
    Row(
        "the root names no block",
        &[Edit(2, 40, &[80])],
        2,
        StoreCause::OutOfRange,
    ),
    Row(
        "the root names a page",
        &[Edit(2, 40, &[6])],
        6,
        StoreCause::Shared,
    ),
    Row(
        "the root names a zero block",
        &[Edit(2, 40, &[74])],
        74,
        StoreCause::BadHeader,
    ),
    Row(
        "a map names itself",
        &[Edit(7, 16, &[7])],
        7,
        StoreCause::Shared,
    ),
    Row(
        "a map names a root",
        &[Edit(7, 16, &[3])],
        7,
        StoreCause::OutOfRange,
    ),
    Row(
        "a map names nothing",
        &[Edit(7, 16, &[0])],
        7,
        StoreCause::OutOfRange,
    ),
    Row(
        "a map names no block",
        &[Edit(7, 16, &[80])],
        7,
        StoreCause::OutOfRange,
    ),
    Row(
        "a map names a far block",
        &[Edit(7, 19, &[1])],
        7,
        StoreCause::OutOfRange,
    ),
    Row(
        "a map names an older page",
        &[Edit(9, 16, &[8])],
        8,
        StoreCause::Shared,
    ),
    Row(
        "a map names a page of the table before",
        &[Edit(70, 16, &[8])],
        8,
        StoreCause::Shared,
    ),
    Row(
        "a map names the next descriptor",
        &[Edit(7, 16, &[67])],
        67,
        StoreCause::BadHeader,
    ),
    Row(
        "two places of a map are one",
        &[Edit(63, 20, &[64])],
        64,
        StoreCause::Shared,
    ),
    Row(
        "a map has a place too many",
        &[Edit(7, 20, &[74])],
        7,
        StoreCause::BadMap,
    ),
    Row(
        "the last place of a map",
        &[Edit(7, 1020, &[1])],
        7,
        StoreCause::BadMap,
    ),
    Row(
        "a map of level 2 for one of level 1",
        &[Edit(7, 12, &[2])],
        7,
        StoreCause::BadHeader,
    ),
    Row(
        "a map of level 0",
        &[Edit(7, 12, &[0])],
        7,
        StoreCause::BadHeader,
    ),
    Row(
        "a map's mark",
        &[Edit(7, 0, &[0])],
        7,
        StoreCause::BadHeader,
    ),
    Row(
        "a map with a page's kind",
        &[Edit(7, 4, &[5])],
        7,
        StoreCause::BadHeader,
    ),
    Row(
        "a map of another place",
        &[Edit(7, 8, &[9])],
        7,
        StoreCause::BadHeader,
    ),
    Row(
        "a page with a map's kind",
        &[Edit(8, 4, &[4])],
        8,
        StoreCause::BadHeader,
    ),
    Row(
        "a page with a level",
        &[Edit(8, 12, &[1])],
        8,
        StoreCause::BadHeader,
    ),
    Row(
        "a page of another place",
        &[Edit(8, 9, &[1])],
        8,
        StoreCause::BadHeader,
    ),
    Row(
        "the bytes behind a page's kind",
        &[Edit(8, 5, &[1])],
        8,
        StoreCause::BadHeader,
    ),
    Row(
        "a descriptor with a page's kind",
        &[Edit(4, 4, &[5])],
        4,
        StoreCause::BadHeader,
    ),
    Row(
        "a second block that is a root",
        &[Edit(4, 16, &[2])],
        4,
        StoreCause::OutOfRange,
    ),
    Row(
        "a second block that is the head",
        &[Edit(4, 16, &[4])],
        4,
        StoreCause::Shared,
    ),
    Row(
        "a second block without its header",
        &[Edit(4, 16, &[74])],
        74,
        StoreCause::BadHeader,
    ),
    Row(
        "a fourth block past the end",
        &[Edit(4, 24, &[99])],
        4,
        StoreCause::OutOfRange,
    ),
    Row(
        "the existence bitmap is a root",
        &[Edit(4, EXISTENCE, &[3])],
        4,
        StoreCause::OutOfRange,
    ),
    Row(
        "the existence bitmap is past the end",
        &[Edit(4, EXISTENCE, &[80])],
        4,
        StoreCause::OutOfRange,
    ),
    Row(
        "the existence bitmap is the head",
        &[Edit(4, EXISTENCE, &[4])],
        4,
        StoreCause::Shared,
    ),
    Row(
        "the existence bitmap is a page",
        &[Edit(4, EXISTENCE, &[6])],
        6,
        StoreCause::BadHeader,
    ),
    Row(
        "the last index's bitmap is past the end",
        &[Edit(4, INDEX_M + 38, &[80])],
        4,
        StoreCause::OutOfRange,
    ),
    Row(
        "an object of u in one of t",
        &[Edit(67, EXISTENCE, &[5])],
        5,
        StoreCause::Shared,
    ),
];

#[test]
fn addresses_and_blocks(rt: HostRuntime) -> Result<(), Fail> {
    Ok(are_told(&rt, rt.alloc(), &ADDRESSES)?)
}

const ROOTS: [Row; 11] = [
    Row("a closed gate", &[Edit(3, 16, &[0])], 0, StoreCause::NoRoot),
    Row("another gate", &[Edit(3, 16, &[2])], 0, StoreCause::NoRoot),
    Row(
        "the other parity",
        &[Edit(2, 16, &[2]), Edit(3, 16, &[2])],
        0,
        StoreCause::NoRoot,
    ),
    Row("format 0", &[Edit(2, 24, &[0])], 0, StoreCause::NoRoot),
    Row("format 3", &[Edit(2, 24, &[3])], 0, StoreCause::NoRoot),
    Row("65 tables", &[Edit(2, 32, &[65])], 0, StoreCause::NoRoot),
    Row("format 1", &[Edit(2, 24, &[1])], 2, StoreCause::OldFormat),
    Row(
        "format 1 of another size",
        &[Edit(2, 24, &[1, 0, 0, 0, 9])],
        2,
        StoreCause::OldFormat,
    ),
    Row(
        "a block too few",
        &[Edit(2, 28, &[79])],
        2,
        StoreCause::Size,
    ),
    Row(
        "a block too many",
        &[Edit(2, 28, &[81])],
        2,
        StoreCause::Size,
    ),
    Row(
        "a size before a bad table",
        &[Edit(2, 28, &[81]), Edit(2, 36, &[3])],
        2,
        StoreCause::Size,
    ),
];

#[test]
fn roots(rt: HostRuntime) -> Result<(), Fail> {
    Ok(are_told(&rt, rt.alloc(), &ROOTS)?)
}
