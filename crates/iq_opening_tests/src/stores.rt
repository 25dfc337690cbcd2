//! Right stores, and devices that fail.
use crate::checks::same;
use crate::hostile::not_a_store;
use crate::images::{root, two_tables, zeros};
use iq_base::NoMemory;
use iq_opening::{OpenFault, Opening, StoreCause, free_list, open};
use iq_outside::{Block, MemoryDevice, SureDevice};
use std::alloc::Global;
use std::process::Abort;
use std::test::Fail;

/// Opens blocks that are few.
fn opened(alloc: Global, blocks: Vec<Block>) -> Result<Opening, OpenFault> {
    if blocks.len() > 1000 {
        return Err(OpenFault::NoMemory);
    }
    open(alloc, &mut SureDevice::new(blocks))
}

/// The names of the tables, one after the other, and how many blocks are reached.
fn told(alloc: Global, blocks: Vec<Block>) -> Result<(String, u32), NoMemory> {
    let mut names = String::new(alloc);
    match opened(alloc, blocks) {
        Ok(opening) => {
            for table in opening.tables.as_slice() {
                names.push_str(table.table.name.as_str())?;
            }
            Ok((names, opening.reached.count()))
        }
        Err(_) => Ok((names, 0)),
    }
}

/// Asserts which tables some blocks have, and how many blocks are reached.
fn have(
    rt: &impl Abort,
    alloc: Global,
    blocks: Vec<Block>,
    tables: &str,
    count: u32,
) -> Result<(), NoMemory> {
    let (names, reached) = told(alloc, blocks)?;
    same(rt, &(names.as_str() == tables), &true, tables);
    same(rt, &reached, &count, tables);
    Ok(())
}

/// Some blocks of zeros, and a root of this generation in them.
fn rooted(alloc: Global, count: u32, generation: u8) -> Result<Vec<Block>, NoMemory> {
    let mut blocks = zeros(alloc, count as usize)?;
    root(&mut blocks, generation, 2, count, &[]);
    Ok(blocks)
}

#[test]
fn a_store_opens_with_its_tables_and_what_they_reach(rt: HostRuntime) -> Result<(), Fail> {
    let alloc = rt.alloc();
    // Blocks 4 to 73.
    have(&rt, alloc, two_tables(alloc)?, "tu", 70)?;
    // An empty store of 4 blocks.
    have(&rt, alloc, rooted(alloc, 4, 1)?, "", 0)?;
    same(&rt, &fault(alloc, rooted(alloc, 4, 1)?), &None, "no table");
    Ok(())
}

/// How many blocks of the two tables are free, and the least of them.
fn free(alloc: Global) -> Result<(u32, Option<u32>), OpenFault> {
    let opening = opened(alloc, two_tables(alloc)?)?;
    let mut free = free_list(alloc, &opening.reached)?;
    Ok((free.len(), free.take()))
}

#[test]
fn the_blocks_that_nothing_reaches_are_free(rt: HostRuntime) -> Result<(), Fail> {
    same(&rt, &free(rt.alloc())?, &(6, Some(74)), "blocks 74 to 79");
    Ok(())
}

/// What is told of some blocks.
fn fault(alloc: Global, blocks: Vec<Block>) -> Option<OpenFault> {
    opened(alloc, blocks).err()
}

/// So many blocks, and what is told where slot 0 has a root.
const FEW: [(u32, StoreCause); 4] = [
    (0, StoreCause::NoRoot),
    (1, StoreCause::NoRoot),
    (2, StoreCause::Size),
    (3, StoreCause::Size),
];

#[test]
fn a_device_of_few_blocks_is_no_store(rt: HostRuntime) -> Result<(), Fail> {
    let alloc = rt.alloc();
    for (count, cause) in FEW.iter() {
        let found = fault(alloc, zeros(alloc, *count as usize)?);
        same(&rt, &found, &not_a_store(0, StoreCause::NoRoot), "zeros");
        let found = fault(alloc, rooted(alloc, *count, 2)?);
        same(&rt, &found, &not_a_store(0, *cause), "slot 0");
    }
    Ok(())
}

/// What opening the two tables tells where the call of this number fails.
fn failing(alloc: Global, call: u64) -> Result<Option<OpenFault>, NoMemory> {
    let blocks = two_tables(alloc)?;
    if blocks.len() > 80 {
        return Err(NoMemory);
    }
    let mut disk = MemoryDevice::new(blocks, [call].to_vec(alloc)?);
    Ok(open(alloc, &mut disk).err())
}

#[test]
fn each_call_that_fails_is_told_and_each_block_is_read_once(rt: HostRuntime) -> Result<(), Fail> {
    let first = Some(OpenFault::StoreFault {
        before: 0,
        after: 1,
    });
    // Two counts, the four blocks of both slots but the gate of the bad one, and the 70 reached blocks.
    for call in 1..76 {
        same(
            &rt,
            &failing(rt.alloc(), call)?,
            &first,
            "a call of opening",
        );
    }
    same(&rt, &failing(rt.alloc(), 76)?, &None, "no call of opening");
    Ok(())
}
