//! An index whose leaves are written one after the other, each about as long as the others, and then its directory.
use iq_base::{Kind, width};
use iq_cells::Cells;
use iq_hg::Hg;
use iq_hg_leaves::{Entries, leaf_page, page_of, put_entry, sorted};
use iq_pages::{MemoryPages, PageSink, PageSource};
use std::alloc::Global;
use std::process::Abort;
use std::test::Fail;

pub const LEAVES: u32 = 71;

pub const DIRECTORY: u32 = 72;

/// The values of a column, in leaves and a directory.
pub fn built(
    rt: &impl Abort,
    alloc: Global,
    store: &mut MemoryPages,
    cells: &Cells,
) -> Result<Hg, Fail> {
    assert!(rt; cells.len() < 4294967295);
    let entries = sorted(alloc, cells, 0)?;
    let parts = entries.len().div_ceil(1000 / (width(cells.kind()) + 4));
    let mut firsts = Vec::new(alloc);
    let mut from = 0;
    for part in 0..parts {
        assert!(rt; from <= entries.len() && part < 63504);
        let n = (entries.len() - from) / (parts - part);
        assert!(rt; n <= entries.len() - from);
        firsts.push(from)?;
        let next = if part + 1 < parts { part as u32 + 2 } else { 0 };
        put_leaf(rt, alloc, store, &entries, from, n, next)?;
        from += n;
    }
    put_directory(rt, alloc, store, &entries, &firsts)?;
    Ok(Hg {
        leaves: LEAVES,
        directory: DIRECTORY,
        kind: cells.kind(),
        slots: cells.len() as u32,
    })
}

fn put_leaf(
    rt: &impl Abort,
    alloc: Global,
    store: &mut MemoryPages,
    entries: &Entries,
    from: usize,
    n: usize,
    next: u32,
) -> Result<(), Fail> {
    assert!(rt; from <= entries.len() && n <= entries.len() - from);
    assert!(rt; n <= 1000 / (width(entries.kind()) + 4));
    let page = leaf_page(alloc, entries, from, n, next)?;
    assert!(rt; store.pages(LEAVES) < 63504);
    store.push_page(LEAVES, &page)?;
    Ok(())
}

/// A page of the directory for each so many leaves, by the places of their first entries.
fn put_directory(
    rt: &impl Abort,
    alloc: Global,
    store: &mut MemoryPages,
    entries: &Entries,
    firsts: &[usize],
) -> Result<(), Fail> {
    let per = 1004 / (width(entries.kind()) + 8);
    for p in 0..firsts.len().div_ceil(per) {
        let end = firsts.len().min(p * per + per);
        let mut bytes = Vec::new(alloc);
        bytes.extend_from_slice(&((end - p * per) as u32).to_le_bytes())?;
        for leaf in p * per..end {
            let first = firsts[leaf];
            assert!(rt; first < entries.len() && leaf < 63504);
            put_entry(&mut bytes, entries, first)?;
            bytes.extend_from_slice(&(leaf as u32).to_le_bytes())?;
        }
        assert!(rt; bytes.len() <= 1008 && store.pages(DIRECTORY) < 63504);
        store.push_page(DIRECTORY, &page_of(&bytes))?;
    }
    Ok(())
}
