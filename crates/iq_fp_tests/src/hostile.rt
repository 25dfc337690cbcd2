//! Pages whose bytes no writer left: the fault that is answered, and that nothing changes.
use crate::checks::same;
use crate::columns::{
    CODES, NO_CALL, VALUES, bits, chosen, column, ints, name, numbers, paired, put, scanned, sure,
    value_of, whole,
};
use iq_ast::{Op, Test};
use iq_base::{Kind, Page};
use iq_cells::Cells;
use iq_fp::Fp;
use iq_pages::{MemoryPages, PageFault, PageSink, PageSource};
use iq_truth::Side;
use std::alloc::Global;
use std::process::Abort;

const BAD_CODES: Option<PageFault> = Some(PageFault::BadPage {
    object: CODES,
    page: 0,
});

const NO_CODES: Option<PageFault> = Some(PageFault::BadPage {
    object: CODES,
    page: 1,
});

const BAD_VALUES: Option<PageFault> = Some(PageFault::BadPage {
    object: VALUES,
    page: 0,
});

const NO_VALUES: Option<PageFault> = Some(PageFault::BadPage {
    object: VALUES,
    page: 1,
});

fn scan_fault(alloc: Global, fp: &Fp, store: &mut MemoryPages) -> Result<(), PageFault> {
    let test = Test::Null {
        column: name()?,
        negated: false,
    };
    scanned(alloc, fp, store, &test, Side::True)?;
    Ok(())
}

fn choose_last(
    alloc: Global,
    fp: &Fp,
    store: &mut MemoryPages,
    last: u32,
) -> Result<(), PageFault> {
    chosen(alloc, fp, store, &bits(alloc, fp.slots, &[last])?)?;
    Ok(())
}

/// What reading a whole column answers, and what reading its last row does.
fn read(alloc: Global, fp: &Fp, store: &mut MemoryPages) -> [Option<PageFault>; 4] {
    let last = fp.slots.saturating_sub(1);
    [
        scan_fault(alloc, fp, store).err(),
        whole(alloc, fp, store).err(),
        choose_last(alloc, fp, store, last).err(),
        value_of(fp, store, last).err(),
    ]
}

fn page_of(store: &mut MemoryPages, object: u32) -> Result<Page, PageFault> {
    let mut page = [0; 1008];
    if store.pages(object) == 0 {
        return Err(NO_CALL);
    }
    store.page(object, 0, &mut page)?;
    Ok(page)
}

fn set_page(store: &mut MemoryPages, object: u32, page: &Page) -> Result<(), PageFault> {
    if store.pages(object) == 0 {
        return Err(NO_CALL);
    }
    store.set_page(object, 0, page)
}

fn set_byte(store: &mut MemoryPages, object: u32, at: usize, byte: u8) -> Result<(), PageFault> {
    let mut page = page_of(store, object)?;
    if let Some(place) = page.get_mut(at) {
        *place = byte;
    }
    set_page(store, object, &page)
}

/// What there is of a column: its value, how many pages its objects have, and the first of each.
type State = (Fp, [u32; 2], Page, Page);

fn seen(fp: &Fp, store: &mut MemoryPages) -> Result<State, PageFault> {
    let codes = page_of(store, CODES)?;
    let values = page_of(store, VALUES)?;
    let counts = [store.pages(CODES), store.pages(VALUES)];
    Ok((*fp, counts, codes, values))
}

/// The fault of an append, and whether all is as before.
fn append(
    alloc: Global,
    fp: &mut Fp,
    store: &mut MemoryPages,
    more: &Cells,
) -> Result<(Option<PageFault>, bool), PageFault> {
    let before = seen(fp, store)?;
    let fault = put(alloc, fp, store, more).err();
    Ok((fault, seen(fp, store)? == before))
}

/// A column of 5, NULL, 5, 6, whose values are 5, NULL, 6, with one byte of one object changed, and said to have so many rows and
/// distinct values: the fault of each call that reads it, of a pair with itself, and of an append.
#[derive(Clone, Copy)]
struct Case {
    byte: (u32, usize, u8),
    said: (u32, u32),
    read: [Option<PageFault>; 4],
    pair: Option<PageFault>,
    append: Option<PageFault>,
}

const CASES: [Case; 6] = [
    // The last row's code isn't below 3.
    Case {
        byte: (CODES, 3, 3),
        said: (4, 3),
        read: [BAD_CODES; 4],
        pair: BAD_CODES,
        append: None,
    },
    // The cell of 6 begins with 2.
    Case {
        byte: (VALUES, 10, 2),
        said: (4, 3),
        read: [BAD_VALUES; 4],
        pair: BAD_VALUES,
        append: BAD_VALUES,
    },
    // The 6 becomes a 5, which stands before it too: only an append can tell.
    Case {
        byte: (VALUES, 11, 5),
        said: (4, 3),
        read: [None; 4],
        pair: None,
        append: BAD_VALUES,
    },
    // The cell of NULL has a byte. The last row's value is another, on the same page, and is read alone.
    Case {
        byte: (VALUES, 9, 1),
        said: (4, 3),
        read: [BAD_VALUES, BAD_VALUES, BAD_VALUES, None],
        pair: BAD_VALUES,
        append: BAD_VALUES,
    },
    // A page of codes too few.
    Case {
        byte: (CODES, 3, 2),
        said: (1_012, 3),
        read: [NO_CODES; 4],
        pair: NO_CODES,
        append: NO_CODES,
    },
    // A page of values too few.
    Case {
        byte: (VALUES, 10, 1),
        said: (210, 203),
        read: [NO_VALUES, NO_VALUES, NO_VALUES, None],
        pair: NO_VALUES,
        append: NO_VALUES,
    },
];

fn hostile(alloc: Global, store: &mut MemoryPages, case: &Case) -> Result<Fp, PageFault> {
    let cells = ints(alloc, Kind::Int, &[Some(5), None, Some(5), Some(6)])?;
    let mut fp = column(alloc, store, (CODES, VALUES), &cells)?;
    set_byte(store, case.byte.0, case.byte.1, case.byte.2)?;
    fp.slots = case.said.0;
    fp.distinct = case.said.1;
    Ok(fp)
}

fn is_told(rt: &impl Abort, alloc: Global, case: &Case, row: usize) -> Result<(), PageFault> {
    let mut store = sure(alloc);
    let mut fp = hostile(alloc, &mut store, case)?;
    same(rt, &read(alloc, &fp, &mut store), &case.read, row);
    let pair = paired(alloc, &fp, &mut store, Op::Eq, &fp, Side::True).err();
    same(rt, &pair, &case.pair, row);
    let more = ints(alloc, Kind::Int, &[Some(77)])?;
    let (fault, kept) = append(alloc, &mut fp, &mut store, &more)?;
    same(rt, &(fault, kept), &(case.append, fault.is_some()), row);
    Ok(())
}

#[test]
fn hostile_bytes_are_told_and_change_nothing(rt: HostRuntime) -> Result<(), PageFault> {
    for (row, case) in CASES.iter().enumerate() {
        is_told(&rt, rt.alloc(), case, row)?;
    }
    Ok(())
}

#[test]
fn a_code_that_is_none_where_all_are_written_anew(rt: HostRuntime) -> Result<(), PageFault> {
    // 255 values, of which the first row's code becomes 255; two more values, so that codes of 2 bytes are needed.
    let mut store = sure(rt.alloc());
    let cells = numbers(rt.alloc(), Kind::Int, 0, 255)?;
    let more = numbers(rt.alloc(), Kind::Int, 255, 257)?;
    let mut fp = column(rt.alloc(), &mut store, (CODES, VALUES), &cells)?;
    set_byte(&mut store, CODES, 0, 255)?;
    let found = append(rt.alloc(), &mut fp, &mut store, &more)?;
    same(&rt, &found, &(BAD_CODES, true), 0);
    Ok(())
}
