//! Pages that are bad.
use crate::building::{DIRECTORY, LEAVES, built};
use iq_ast::Bound;
use iq_base::{Kind, PAGE_BYTES, Value};
use iq_cells::Cells;
use iq_hg::Hg;
use iq_pages::{MemoryPages, PageFault, PageSink, PageSource};
use std::alloc::Global;
use std::process::Abort;
use std::test::Fail;

/// The page that the fault of a range names, where a page of an object is all of this byte.
fn named(
    rt: &impl Abort,
    alloc: Global,
    object: u32,
    page: u32,
    byte: u8,
) -> Result<Option<(u32, u32)>, Fail> {
    let mut cells = Cells::new(alloc, Kind::Int);
    for i in 0..300 {
        cells.push_number(i).map_err(|_| "no number of the kind")?;
    }
    let mut store = MemoryPages::new(alloc, Vec::new(alloc));
    let hg = built(rt, alloc, &mut store, &cells)?;
    assert!(rt; page < store.pages(object));
    store.set_page(object, page, &[byte; PAGE_BYTES])?;
    let from = Bound::Incl(Value::Int(0));
    match hg.range(alloc, &mut store, &from, &Bound::Free) {
        Err(PageFault::BadPage { object, page }) => Ok(Some((object, page))),
        Err(_) | Ok(_) => Ok(None),
    }
}

#[test]
fn a_bad_page_is_named(rt: HostRuntime) -> Result<(), Fail> {
    let alloc = rt.alloc();
    // 300 numbers are in 3 leaves. A page of zeros is a leaf without entries, and the last one.
    for (object, page, byte, fault) in [
        (LEAVES, 0, 255, Some((LEAVES, 0))),
        (LEAVES, 2, 255, Some((LEAVES, 2))),
        (LEAVES, 2, 0, None),
        (DIRECTORY, 0, 255, Some((DIRECTORY, 0))),
        (DIRECTORY, 0, 0, Some((DIRECTORY, 0))),
    ] {
        assert_eq!(rt; named(&rt, alloc, object, page, byte)?, fault);
    }
    Ok(())
}
