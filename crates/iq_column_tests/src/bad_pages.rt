//! A bad page of a later object, which leaves every page of the table as it was.
use crate::checks::same;
use crate::lists::{Stored, append_numbers, failing, made, parts_of, sure};
use iq_base::Page;
use iq_pages::{MemoryPages, PageFault, PageSink, PageSource};
use iq_table::TableFault;
use std::alloc::Global;
use std::process::Abort;

// Objects of the table at place 2: existence, then codes and values of each column.
const EXISTENCE: u32 = 512;

const SECOND_CODES: u32 = 515;

const THIRD_CODES: u32 = 517;

const THIRD_VALUES: u32 = 518;

/// What is done to an object, whose first page is bad then.
#[derive(Clone, Copy, Debug, PartialEq, Eq)]
enum Harm {
    /// Its second cell of 9 bytes becomes the first.
    RepeatsAValue,
    /// It has no pages.
    LosesItsPages,
    /// Its first code of 1 byte becomes 255.
    HasAGreatCode,
}

const HARMS: [(u32, Harm); 4] = [
    (THIRD_VALUES, Harm::RepeatsAValue),
    (SECOND_CODES, Harm::LosesItsPages),
    (THIRD_CODES, Harm::HasAGreatCode),
    (EXISTENCE, Harm::LosesItsPages),
];

fn page_of(store: &mut MemoryPages, object: u32, page: u32) -> Result<Page, PageFault> {
    let mut bytes = [0; 1008];
    if page >= store.pages(object) {
        return Err(PageFault::BadPage { object, page });
    }
    store.page(object, page, &mut bytes)?;
    Ok(bytes)
}

fn set_page(store: &mut MemoryPages, object: u32, bytes: &Page) -> Result<(), PageFault> {
    if store.pages(object) == 0 {
        return Err(PageFault::BadPage { object, page: 0 });
    }
    store.set_page(object, 0, bytes)
}

fn do_harm(store: &mut MemoryPages, object: u32, harm: Harm) -> Result<(), PageFault> {
    if harm == Harm::LosesItsPages {
        return store.new_object(object);
    }
    let mut bytes = page_of(store, object, 0)?;
    if harm == Harm::HasAGreatCode {
        bytes[0] = 255;
    } else {
        bytes.copy_within(0..9, 9);
    }
    set_page(store, object, &bytes)
}

/// Whether an object has the same pages in two stores.
fn is_same(
    store: &mut MemoryPages,
    other: &mut MemoryPages,
    object: u32,
) -> Result<bool, PageFault> {
    let count = store.pages(object);
    if count != other.pages(object) {
        return Ok(false);
    }
    for page in 0..count {
        if page_of(store, object, page)? != page_of(other, object, page)? {
            return Ok(false);
        }
    }
    Ok(true)
}

/// Whether all objects of the table have the same pages in two stores.
fn are_same(store: &mut MemoryPages, other: &mut MemoryPages) -> Result<bool, PageFault> {
    for object in EXISTENCE..THIRD_VALUES + 1 {
        if !is_same(store, other, object)? {
            return Ok(false);
        }
    }
    Ok(true)
}

/// A table of the first 250 rows.
fn filled(alloc: Global, store: MemoryPages) -> Result<Stored, TableFault> {
    let mut stored = made(alloc, store)?;
    append_numbers(alloc, &mut stored, 0, 250)?;
    Ok(stored)
}

/// What appending the rows up to a number answers, and whether every page is left as it was.
type Outcome = (Result<(), TableFault>, bool);

fn left(alloc: Global, stored: &mut Stored, to: usize) -> Result<Outcome, TableFault> {
    let mut kept = stored.store.copied()?;
    let done = append_numbers(alloc, stored, 250, to);
    Ok((done, are_same(&mut stored.store, &mut kept)?))
}

/// The first and the third column get more than 256 values, so that their codes are to be written anew; the second stays.
const MORE: usize = 2_000;

/// How many slots there are, and the parts of the columns.
fn sizes(stored: &Stored) -> (u32, [(u8, u32); 3]) {
    (stored.table.parts.slots, parts_of(&stored.table))
}

/// Harms an object, and asserts that an append names its first page and leaves all as it was.
fn is_named(
    rt: &impl Abort,
    alloc: Global,
    stored: &mut Stored,
    object: u32,
    how: Harm,
) -> Result<(), TableFault> {
    do_harm(&mut stored.store, object, how)?;
    let before = sizes(stored);
    same(rt, &before.0, &250, object as usize);
    let left = left(alloc, stored, MORE)?;
    let bad = TableFault::BadPage { object, page: 0 };
    same(rt, &left, &(Err(bad), true), object as usize);
    same(rt, &sizes(stored), &before, object as usize);
    Ok(())
}

/// Does the same append to the sound pages, which writes all of them.
fn goes_on(
    rt: &impl Abort,
    alloc: Global,
    stored: &mut Stored,
    sound: MemoryPages,
) -> Result<(), TableFault> {
    stored.store = sound;
    append_numbers(alloc, stored, 250, MORE)?;
    let parts = [(2, 2_000), (1, 5), (2, 301)];
    same(rt, &sizes(stored), &(2_000, parts), MORE);
    Ok(())
}

#[test]
fn a_bad_page_of_any_object_leaves_every_page(rt: HostRuntime) -> Result<(), TableFault> {
    for (object, how) in HARMS {
        let mut stored = filled(rt.alloc(), sure(rt.alloc()))?;
        let sound = stored.store.copied()?;
        is_named(&rt, rt.alloc(), &mut stored, object, how)?;
        goes_on(&rt, rt.alloc(), &mut stored, sound)?;
    }
    Ok(())
}

/// Seven objects are made, and 2, 1 and 2 pages of values, a page of codes for each column and one of existence are written; each
/// column reads its values and its last page of codes, and then existence is read.
const LAST_READ: u64 = 7 + (5 + 3 + 1) + (5 + 3) + 1;

/// Whether an append of one row fails, and leaves every page, where this call does.
fn fails(alloc: Global, call: u64) -> Result<(bool, bool), TableFault> {
    let mut stored = filled(alloc, failing(alloc, call)?)?;
    let (done, kept) = left(alloc, &mut stored, 251)?;
    Ok((matches!(done, Err(TableFault::Failed { .. })), kept))
}

#[test]
fn a_failed_read_of_existence_leaves_every_page(rt: HostRuntime) -> Result<(), TableFault> {
    for call in 17..LAST_READ + 1 {
        let found = fails(rt.alloc(), call)?;
        same(&rt, &found, &(true, true), call as usize);
    }
    Ok(())
}
