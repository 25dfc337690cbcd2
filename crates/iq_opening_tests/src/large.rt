//! Images with a map above maps, and with descriptors of two blocks.
use crate::checks::same;
use crate::images::{EMPTY, column, descriptor, header, name, number, object, poke, root, zeros};
use iq_base::{Descriptor, Kind, Listed, NoMemory, Ref};
use iq_opening::{OpenFault, StoreCause, open};
use iq_outside::{Block, SureDevice};
use std::alloc::Global;
use std::process::Abort;
use std::test::Fail;

/// A store of 300 blocks with a table of 255,000 slots: head 4; existence 5, 6 to 37; cells of 253 pages: the map at the top 38, the
/// first leaf 39 with 40 to 291, the second 292 with 293; values 294, 295.
pub fn one_high_object(alloc: Global) -> Result<Vec<Block>, NoMemory> {
    let mut blocks = zeros(alloc, 300)?;
    root(&mut blocks, 1, 2, 300, &[4]);
    header(&mut blocks, 38, 4, 2);
    number(&mut blocks, 38, 16, 39);
    number(&mut blocks, 38, 20, 292);
    let _ = object(&mut blocks, 39, 252);
    let _ = object(&mut blocks, 292, 1);
    let cells = Ref {
        root: 38,
        pages: 253,
    };
    let existence = object(&mut blocks, 5, 32);
    let mut columns = Listed::new(alloc);
    columns.push(column("x", Kind::Int, cells, object(&mut blocks, 294, 1)))?;
    let table = Descriptor {
        name: name("w"),
        slots: 255_000,
        existence,
        columns,
        indexes: Listed::new(alloc),
    };
    let _ = descriptor(alloc, &mut blocks, &table, &[4])?;
    Ok(blocks)
}

/// A store of 90 blocks with a table of 18 columns, without rows: blocks 4 and 5 are its descriptor, and a column has no cells and one
/// distinct value in two blocks each, from 6 on. The text of the last column begins in block 4 and goes on in block 5.
pub fn two_descriptor_blocks(alloc: Global) -> Result<Vec<Block>, NoMemory> {
    let mut blocks = zeros(alloc, 90)?;
    root(&mut blocks, 1, 2, 90, &[4]);
    let names = [
        "a", "b", "c", "d", "e", "f", "g", "h", "i", "j", "k", "l", "m", "n", "o", "p", "q", "r",
    ];
    let mut columns = Listed::new(alloc);
    for (k, text) in names.iter().enumerate() {
        let values = object(&mut blocks, 6 + 2 * k as u32 % 64, 1);
        columns.push(column(text, Kind::Int, EMPTY, values))?;
    }
    let table = Descriptor {
        name: name("t"),
        slots: 0,
        existence: EMPTY,
        columns,
        indexes: Listed::new(alloc),
    };
    let _ = descriptor(alloc, &mut blocks, &table, &[4, 5])?;
    Ok(blocks)
}

/// A byte that is changed, and what is told then.
#[derive(Clone, Copy)]
struct Row(&'static str, u32, usize, u8, Option<(u32, StoreCause)>);

fn is_told(rt: &impl Abort, alloc: Global, blocks: Vec<Block>, row: &Row) {
    let Row(told, at, byte, value, cause) = row;
    let found = fault_of(blocks, *at, *byte, *value, alloc);
    same(rt, &found, &expected(*cause), told);
}

/// What opening blocks answers after a byte was changed.
fn fault_of(
    mut blocks: Vec<Block>,
    at: u32,
    byte: usize,
    value: u8,
    alloc: Global,
) -> Option<OpenFault> {
    poke(&mut blocks, at, byte, &[value]);
    if blocks.len() > 1000 {
        return Some(OpenFault::NoMemory);
    }
    open(alloc, &mut SureDevice::new(blocks)).err()
}

/// A cause as opening tells it.
fn expected(cause: Option<(u32, StoreCause)>) -> Option<OpenFault> {
    match cause {
        None => None,
        Some((block, cause)) => Some(OpenFault::NotAStore { block, cause }),
    }
}

const HIGH: [Row; 13] = [
    Row("nothing", 299, 0, 1, None),
    Row(
        "the top names itself",
        38,
        16,
        38,
        Some((38, StoreCause::Shared)),
    ),
    Row(
        "the top is of level 1",
        38,
        12,
        1,
        Some((38, StoreCause::BadHeader)),
    ),
    Row(
        "a leaf is of level 2",
        39,
        12,
        2,
        Some((39, StoreCause::BadHeader)),
    ),
    Row(
        "the top has a leaf too many",
        38,
        24,
        5,
        Some((38, StoreCause::BadMap)),
    ),
    Row(
        "the second leaf is a page of existence",
        38,
        21,
        0,
        Some((36, StoreCause::Shared)),
    ),
    Row(
        "the second leaf is a page",
        38,
        20,
        39,
        Some((295, StoreCause::BadHeader)),
    ),
    Row(
        "the second leaf is past the end",
        38,
        21,
        2,
        Some((38, StoreCause::OutOfRange)),
    ),
    Row(
        "the second leaf has a page too many",
        292,
        20,
        6,
        Some((292, StoreCause::BadMap)),
    ),
    Row(
        "the second leaf names a page of existence",
        292,
        17,
        0,
        Some((37, StoreCause::Shared)),
    ),
    Row(
        "the last page has another kind",
        293,
        4,
        4,
        Some((293, StoreCause::BadHeader)),
    ),
    Row(
        "the last page of the first leaf",
        291,
        4,
        4,
        Some((291, StoreCause::BadHeader)),
    ),
    Row(
        "the first leaf names the top",
        39,
        16,
        38,
        Some((38, StoreCause::Shared)),
    ),
];

#[test]
fn maps_above_maps(rt: HostRuntime) -> Result<(), Fail> {
    for row in HIGH.iter() {
        is_told(&rt, rt.alloc(), one_high_object(rt.alloc())?, row);
    }
    Ok(())
}

const TWO_BLOCKS: [Row; 7] = [
    Row("nothing", 89, 0, 1, None),
    Row(
        "no second block",
        4,
        16,
        0,
        Some((4, StoreCause::BadCatalog)),
    ),
    Row(
        "a gap before a block",
        4,
        24,
        50,
        Some((50, StoreCause::BadHeader)),
    ),
    Row(
        "the second block is no descriptor",
        5,
        4,
        5,
        Some((5, StoreCause::BadHeader)),
    ),
    Row(
        "the padding of the second block",
        5,
        1023,
        1,
        Some((4, StoreCause::BadCatalog)),
    ),
    Row(
        "a reference of the second block",
        5,
        47,
        2,
        Some((5, StoreCause::OutOfRange)),
    ),
    Row(
        "a reference of the first block",
        4,
        1000,
        2,
        Some((4, StoreCause::OutOfRange)),
    ),
];

/// The image with the second address moved to the third place.
fn with_a_gap(alloc: Global) -> Result<Vec<Block>, NoMemory> {
    let mut blocks = two_descriptor_blocks(alloc)?;
    poke(&mut blocks, 4, 16, &[0, 0, 0, 0, 5]);
    Ok(blocks)
}

const GAP: Row = Row(
    "a gap among the addresses",
    89,
    0,
    1,
    Some((4, StoreCause::BadCatalog)),
);

/// The image with a third block that isn't needed.
fn with_a_block_more(alloc: Global) -> Result<Vec<Block>, NoMemory> {
    let mut blocks = two_descriptor_blocks(alloc)?;
    header(&mut blocks, 50, 3, 0);
    Ok(blocks)
}

const MORE: Row = Row(
    "a block more than the text needs",
    4,
    20,
    50,
    Some((4, StoreCause::BadCatalog)),
);

#[test]
fn descriptors_of_two_blocks(rt: HostRuntime) -> Result<(), Fail> {
    let alloc = rt.alloc();
    for row in TWO_BLOCKS.iter() {
        is_told(&rt, alloc, two_descriptor_blocks(alloc)?, row);
    }
    is_told(&rt, alloc, with_a_gap(alloc)?, &GAP);
    is_told(&rt, alloc, with_a_block_more(alloc)?, &MORE);
    Ok(())
}
