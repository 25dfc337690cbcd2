//! Lists with room.
use crate::checks::{same, same_list};
use iq_base::NoMemory;
use iq_roomed::Roomed;
use std::test::Fail;

/// Puts 0 and 1 into the room that there is.
fn fill(list: &mut Roomed<u32>) {
    for n in 0..2 {
        if list.room() > 0 {
            list.push(n);
        }
    }
}

/// Makes more room, and answers how much there is then.
fn grow(list: &mut Roomed<u32>) -> Result<usize, NoMemory> {
    list.reserve(3)?;
    Ok(list.room())
}

/// Puts 7 in place of the first of two items, and drops the other.
fn cut(list: &mut Roomed<u32>) {
    if list.len() == 2 {
        list.set(0, 7);
        list.truncate(1);
    }
}

#[test]
fn items_go_into_room_that_was_made(rt: HostRuntime) -> Result<(), Fail> {
    let mut list = Roomed::with_room(rt.alloc(), 2)?;
    same(&rt, &(list.is_empty(), list.room() >= 2), &(true, true), 0);
    fill(&mut list);
    same_list(&rt, list.as_slice(), &[0, 1]);
    same(&rt, &(grow(&mut list)? >= 3), &true, 1);
    cut(&mut list);
    same_list(&rt, list.as_slice(), &[7]);
    Ok(())
}
