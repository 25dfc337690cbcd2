//! Pieces of one width over pages.
use crate::checks::same;
use crate::columns::{NO_CALL, differ, numbers, sure};
use iq_base::{Kind, NoMemory, Page};
use iq_cells::Cells;
use iq_pages::{MemoryPages, PageFault, PageSource};
use iq_pieces::{CodeList, Codes, append_behind, load_last, read, read_page, rewrite};
use std::alloc::Global;

/// Codes of 3 bytes behind so many of object 9.
fn put(store: &mut MemoryPages, count: u32, codes: &[u32]) -> Result<(), PageFault> {
    let mut last = [0; 1008];
    load_last(store, 9, count, 3, &mut last)?;
    put_codes(store, count, codes, &last)
}

fn put_codes(
    store: &mut MemoryPages,
    count: u32,
    codes: &[u32],
    last: &Page,
) -> Result<(), PageFault> {
    let fit = codes.iter().all(|code| *code < 16_777_216);
    if !fit || codes.len() >= 1_000 || count >= 1_000 || count / 336 > store.pages(9) {
        return Err(NO_CALL);
    }
    append_behind(store, 9, count, &Codes::<3>::of(codes), last)
}

/// So many codes of 3 bytes of object 9, each below a number.
fn got(
    alloc: Global,
    store: &mut MemoryPages,
    count: u32,
    below: u32,
) -> Result<Vec<u32>, PageFault> {
    let mut list = CodeList::<3>::new(alloc, below);
    read(store, 9, count, &mut list)?;
    Ok(list.into_codes())
}

/// Object 9 anew, of codes of 1 byte.
fn renew(store: &mut MemoryPages, codes: &[u32]) -> Result<(), PageFault> {
    let fit = codes.iter().all(|code| *code < 256);
    if !fit || codes.len() >= 1_000 {
        return Err(NO_CALL);
    }
    rewrite(store, 9, &Codes::<1>::of(codes))
}

fn page(store: &mut MemoryPages, n: u32) -> Result<Page, PageFault> {
    let mut page = [7; 1008];
    read_page(store, 9, n, &mut page)?;
    Ok(page)
}

const FEW: [u32; 2] = [5, 16_777_215];

/// 336 codes of 3 bytes, which fill a page.
fn full(alloc: Global) -> Result<Vec<u32>, NoMemory> {
    let mut codes = Vec::new(alloc);
    codes.extend_from_slice(&[1, 16_777_215, 65_536])?;
    for code in 3..336 {
        codes.push(code)?;
    }
    Ok(codes)
}

/// Puts a few codes, none, and the few again behind a full page.
fn put_few(store: &mut MemoryPages) -> Result<(), PageFault> {
    put(store, 336, &FEW)?;
    put(store, 338, &[])?;
    put(store, 338, &FEW)
}

/// The codes of the full page, and the few behind them, twice.
fn all_codes(alloc: Global) -> Result<Vec<u32>, NoMemory> {
    let mut codes = full(alloc)?;
    codes.extend_from_slice(&FEW)?;
    codes.extend_from_slice(&FEW)?;
    Ok(codes)
}

#[test]
fn codes_lie_one_behind_the_other(rt: HostRuntime) -> Result<(), PageFault> {
    let mut store = sure(rt.alloc());
    let wanted = all_codes(rt.alloc())?;
    put(&mut store, 0, &full(rt.alloc())?)?;
    same(&rt, &store.pages(9), &1, 0);
    put_few(&mut store)?;
    same(&rt, &store.pages(9), &2, 1);
    let all = got(rt.alloc(), &mut store, 340, 16_777_216)?;
    same(&rt, &(all.as_slice() == wanted.as_slice()), &true, 2);
    let bad = PageFault::BadPage { object: 9, page: 0 };
    let fault = got(rt.alloc(), &mut store, 340, 16_777_215).err();
    same(&rt, &fault, &Some(bad), 3);
    Ok(())
}

/// The first three bytes of a page of object 9.
fn front(store: &mut MemoryPages, n: u32) -> Result<[u8; 3], PageFault> {
    let page = page(store, n)?;
    Ok([page[0], page[1], page[2]])
}

#[test]
fn an_object_of_codes_is_made_anew(rt: HostRuntime) -> Result<(), PageFault> {
    let mut store = sure(rt.alloc());
    put(&mut store, 0, &[1, 2, 3])?;
    renew(&mut store, &[250, 4])?;
    same(&rt, &store.pages(9), &1, 0);
    same(&rt, &front(&mut store, 0), &Ok([250, 4, 0]), 1);
    let none = PageFault::BadPage { object: 9, page: 1 };
    same(&rt, &front(&mut store, 1), &Err(none), 2);
    Ok(())
}

/// Cells behind so many of object 2, the last page of which is read.
fn put_cells(store: &mut MemoryPages, count: u32, cells: &Cells) -> Result<Page, PageFault> {
    let mut last = [0; 1008];
    load_last(store, 2, count, 9, &mut last)?;
    put_behind(store, count, cells, &last)?;
    Ok(last)
}

/// The same, where it is known.
fn put_behind(
    store: &mut MemoryPages,
    count: u32,
    cells: &Cells,
    last: &Page,
) -> Result<(), PageFault> {
    if cells.kind() != Kind::Big || cells.len() >= 1_000 || count >= 1_000 {
        return Err(NO_CALL);
    }
    if count / 112 > store.pages(2) {
        return Err(NO_CALL);
    }
    append_behind(store, 2, count, cells, last)
}

fn got_cells(alloc: Global, store: &mut MemoryPages, count: u32) -> Result<Cells, PageFault> {
    let mut cells = Cells::new(alloc, Kind::Big);
    read(store, 2, count, &mut cells)?;
    Ok(cells)
}

/// A page that begins with the cells from one on.
fn page_from(cells: &Cells, from: usize) -> Page {
    let mut page = [0; 1008];
    if cells.kind() == Kind::Big && from <= cells.len() && cells.len() - from <= 112 {
        cells.put_in_page(from, cells.len() - from, &mut page, 0);
    }
    page
}

/// Puts 115 cells, and 185 behind them by the last page, which is known.
fn put_all(alloc: Global, store: &mut MemoryPages) -> Result<(), PageFault> {
    let first = numbers(alloc, Kind::Big, 0, 115)?;
    let more = numbers(alloc, Kind::Big, 115, 300)?;
    put_cells(store, 0, &first)?;
    put_behind(store, 115, &more, &page_from(&first, 112))
}

/// The cell of one number behind 300, and whether the last page was read as it stands.
fn put_one(alloc: Global, store: &mut MemoryPages, all: &Cells) -> Result<bool, PageFault> {
    let one = numbers(alloc, Kind::Big, 300, 301)?;
    Ok(put_cells(store, 300, &one)? == page_from(all, 224))
}

#[test]
fn cells_go_behind_a_last_page_that_is_known(rt: HostRuntime) -> Result<(), PageFault> {
    let mut store = sure(rt.alloc());
    let all = numbers(rt.alloc(), Kind::Big, 0, 300)?;
    put_all(rt.alloc(), &mut store)?;
    same(&rt, &store.pages(2), &3, 0);
    let got = got_cells(rt.alloc(), &mut store, 300)?;
    same(&rt, &differ(&got, &all), &None, 1);
    // Cells that come one by one, whose last page is read each time.
    same(&rt, &put_one(rt.alloc(), &mut store, &all)?, &true, 2);
    Ok(())
}

#[test]
fn an_object_with_a_page_too_few_is_told(rt: HostRuntime) -> Result<(), PageFault> {
    let mut store = sure(rt.alloc());
    put_all(rt.alloc(), &mut store)?;
    let more = numbers(rt.alloc(), Kind::Big, 115, 300)?;
    // One page that is to be read, and one before those that are to be written.
    let third = Some(PageFault::BadPage { object: 2, page: 3 });
    same(&rt, &put_cells(&mut store, 337, &more).err(), &third, 0);
    same(&rt, &put_cells(&mut store, 448, &more).err(), &third, 1);
    let read = got_cells(rt.alloc(), &mut store, 337).err();
    same(&rt, &read, &third, 2);
    Ok(())
}
