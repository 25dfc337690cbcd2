//! Which page is told of pages that are no descriptor's.
use crate::tables::table;
use iq_base::{NoMemory, Page};
use iq_catalog::{CatalogFault, get, is_storable, put};
use std::alloc::Global;
use std::test::Fail;

/// Some bytes from a byte of the pages on.
#[derive(Clone, Copy)]
struct Edit(usize, &'static [u8]);

/// The pages of a table of 32 columns and 32 indexes: column k begins at byte 57 + 55 k, index k at 1817 + 62 k, and the text ends
/// before byte 3801. So column 17 begins at 992 and index 3 at 2003, each before the end of a page, which comes at 1008 and 2016; and
/// index 19 begins at 2995, before the end of the third at 3024.
fn four_pages(alloc: Global) -> Result<Vec<Page>, NoMemory> {
    let table = table(alloc, 32, 32)?;
    if is_storable(&table) {
        put(alloc, &table)
    } else {
        Ok(Vec::new(alloc))
    }
}

/// Writes some bytes from a byte of the pages on.
fn change(pages: &mut [Page], at: usize, bytes: &[u8]) {
    for (k, byte) in bytes.iter().enumerate() {
        let place = at.saturating_add(k);
        if let Some(page) = pages.get_mut(place / 1008) {
            page[place % 1008] = *byte;
        }
    }
}

/// The pages with some edits.
fn changed(pages: &Vec<Page>, edits: &[Edit]) -> Result<Vec<Page>, NoMemory> {
    let mut changed = pages.clone()?;
    for Edit(at, bytes) in edits {
        change(&mut changed, *at, bytes);
    }
    Ok(changed)
}

/// What is wrong, the bytes that make it so, and the page.
#[derive(Clone, Copy)]
struct Row(&'static str, &'static [Edit], u32);

#[test]
fn the_page_of_the_first_byte_that_contradicts_is_told(rt: HostRuntime) -> Result<(), Fail> {
    let rows = [
        Row("an address", &[Edit(0, &[1])], 0),
        Row("no name", &[Edit(12, &[0, 0])], 0),
        Row("33 columns", &[Edit(43, &[33])], 0),
        Row("34 indexes, of as many pages", &[Edit(44, &[34])], 0),
        Row("64 indexes, of more pages", &[Edit(44, &[64])], 0),
        Row("slots past the limit", &[Edit(45, &[1, 0, 32])], 0),
        Row(
            "slots past the limit of a text that stands behind",
            &[Edit(45, &[0, 0, 32]), Edit(1793, &[3, 1])],
            0,
        ),
        Row("an LF of 32 columns", &[Edit(43, &[31])], 1),
        Row("bytes of an index behind the last", &[Edit(44, &[31])], 3),
        Row(
            "a name of 31 bytes before the page's end",
            &[Edit(992, &[31])],
            0,
        ),
        Row(
            "a byte behind that name, in the next page",
            &[Edit(1010, &[1])],
            1,
        ),
        Row(
            "a name that is no text behind the page's end",
            &[Edit(992, b"\x12qqqqqqqqqqqqqqqqq\xc8")],
            0,
        ),
        Row("a name as in the column before", &[Edit(1159, b"t")], 1),
        Row("a name as in a column behind", &[Edit(224, b"u")], 1),
        Row("a kind 4", &[Edit(1078, &[4])], 1),
        Row("a number with a length", &[Edit(1794, &[1])], 1),
        Row("2 where NULL may stand", &[Edit(1025, &[2])], 1),
        Row("a form 2 for two values", &[Edit(1026, &[2])], 1),
        Row("a form 1 for 257 values", &[Edit(1027, &[1, 1])], 1),
        Row("pages of cells without a root", &[Edit(1031, &[0])], 1),
        Row("63,505 pages of values", &[Edit(1043, &[0x11, 0xf8])], 1),
        Row(
            "no name of an index before the page's end",
            &[Edit(2003, &[0])],
            1,
        ),
        Row("a byte behind it, in the next page", &[Edit(2020, &[1])], 2),
        Row("a kind 0 of indexes", &[Edit(2034, &[0])], 2),
        Row("an index of column 32", &[Edit(2035, &[32])], 2),
        Row("a second column of HNG", &[Edit(2036, &[1])], 2),
        Row("a distinct value of HNG", &[Edit(2037, &[1])], 2),
        Row("no root of a first object", &[Edit(2041, &[0])], 2),
        Row("a root of a second without pages", &[Edit(2049, &[1])], 2),
        Row("no root of a third object", &[Edit(2057, &[0])], 2),
        Row("a name as in the index before", &[Edit(2997, b"s")], 2),
        Row("a kind behind that name", &[Edit(3026, &[7])], 3),
        Row("a name as in the last index", &[Edit(2128, b"bf")], 3),
        Row("the last reference", &[Edit(3793, &[0])], 3),
        Row("the first byte behind the text", &[Edit(3801, &[1])], 3),
        Row("the last byte", &[Edit(4031, &[1])], 3),
        Row(
            "the second page before the last byte",
            &[Edit(4031, &[1]), Edit(1078, &[4])],
            1,
        ),
        Row(
            "the padding before a kind",
            &[Edit(2034, &[0]), Edit(1010, &[1])],
            1,
        ),
    ];
    let alloc = rt.alloc();
    let pages = four_pages(alloc)?;
    assert_eq!(rt; pages.len(), 4);
    for Row(told, edits, page) in rows {
        let changed = changed(&pages, edits)?;
        let fault = get(alloc, &changed).err();
        assert_eq!(rt; fault, Some(CatalogFault::BadCatalog { page }), "{told}");
    }
    Ok(())
}

#[test]
fn another_number_of_pages_is_told_with_the_first(rt: HostRuntime) -> Result<(), Fail> {
    let alloc = rt.alloc();
    let none = Some(CatalogFault::BadCatalog { page: 0 });
    for count in 0..4 {
        let mut pages = four_pages(alloc)?;
        pages.truncate(count);
        change(&mut pages, 1010, &[1]);
        assert_eq!(rt; get(alloc, &pages).err(), none, "{count} pages of 4");
    }
    let mut pages = four_pages(alloc)?;
    pages.push([0; 1008])?;
    assert_eq!(rt;
        get(alloc, &pages).err(),
        none,
        "a page of zeros behind them"
    );
    Ok(())
}
