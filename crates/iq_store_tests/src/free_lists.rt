//! Which blocks are taken first.
use crate::checks::same;
use iq_base::NoMemory;
use iq_free_list::FreeList;
use std::alloc::Global;
use std::test::Fail;

fn of(alloc: Global, blocks: &[u32]) -> Result<FreeList, NoMemory> {
    let mut list = FreeList::none(alloc, 12)?;
    for block in blocks {
        if *block < list.count() {
            list.give(*block);
        }
    }
    Ok(list)
}

fn all(list: &mut FreeList) -> [Option<u32>; 4] {
    [list.take(), list.take(), list.take(), list.take()]
}

/// Takes two blocks into another list of as many, and answers how many came.
fn take_two(list: &mut FreeList, taken: &mut FreeList) -> u32 {
    if list.count() == taken.count() {
        list.take_many(2, taken)
    } else {
        0
    }
}

#[test]
fn the_least_blocks_are_taken_first(rt: HostRuntime) -> Result<(), Fail> {
    let alloc = rt.alloc();
    let mut list = of(alloc, &[9, 4, 7, 4])?;
    let mut taken = of(alloc, &[5])?;
    same(&rt, &list.len(), &3, 0);
    same(&rt, &take_two(&mut list, &mut taken), &2, 1);
    same(&rt, &all(&mut list), &[Some(9), None, None, None], 2);
    let three = [Some(4), Some(5), Some(7), None];
    same(&rt, &all(&mut taken), &three, 3);
    same(&rt, &list.is_empty(), &true, 4);
    Ok(())
}
