//! Descriptors as pages, and back.
use crate::tables::{mixed, of_kind, table};
use iq_base::{Descriptor, Kind, NoMemory, PAGE_BYTES, Page};
use iq_catalog::{CatalogFault, fits_slots, get, is_storable, put, slot_limit};
use std::alloc::Global;
use std::test::Fail;

/// The pages of a table, where it may be stored.
fn stored(alloc: Global, table: &Descriptor) -> Result<Option<Vec<Page>>, NoMemory> {
    if is_storable(table) {
        Ok(Some(put(alloc, table)?))
    } else {
        Ok(None)
    }
}

/// The one page of the mixed table, or zeros.
fn mixed_page(alloc: Global) -> Result<Page, NoMemory> {
    let pages = stored(alloc, &mixed(alloc)?)?;
    match pages {
        Some(pages) if pages.len() == 1 => Ok(pages[0]),
        _ => Ok([0; 1008]),
    }
}

/// The page with some bytes from a place on, where they fit.
fn with(mut page: Page, at: usize, bytes: &[u8]) -> Page {
    if at <= PAGE_BYTES && bytes.len() <= PAGE_BYTES - at {
        page[at..at + bytes.len()].copy_from_slice(bytes);
    }
    page
}

#[test]
fn a_table_of_three_columns_and_two_indexes_has_these_bytes(rt: HostRuntime) -> Result<(), Fail> {
    // What isn't 0: place and bytes, by the table of the format.
    let rows: [(usize, &[u8]); 26] = [
        (12, &[1, b't']),
        (43, &[3, 2, 3]),
        (49, &[9, 0, 0, 0, 1]),
        (57, &[1, b'a']),
        (88, &[1, 0, 0, 1, 2]),
        (96, &[10, 0, 0, 0, 1]),
        (104, &[11, 0, 0, 0, 1]),
        (112, &[1, b'b']),
        (143, &[1, 0, 1, 1, 2]),
        (151, &[10, 0, 0, 0, 1]),
        (159, &[11, 0, 0, 0, 1]),
        (167, &[1, b'c']),
        (198, &[3, 8, 1, 1, 2]),
        (206, &[10, 0, 0, 0, 1]),
        (214, &[11, 0, 0, 0, 1]),
        (222, &[1, b'l']),
        (253, &[1, 0, 255, 2]),
        (260, &[12, 0, 0, 0, 1]),
        (268, &[0]),
        (276, &[13, 0, 0, 0, 1]),
        (284, &[1, b'm']),
        (315, &[4, 0, 1, 0]),
        (322, &[12, 0, 0, 0, 1]),
        (330, &[0]),
        (338, &[13, 0, 0, 0, 1]),
        (346, &[0]),
    ];
    let mut page = [0; 1008];
    for (at, bytes) in rows {
        page = with(page, at, bytes);
    }
    let alloc = rt.alloc();
    assert_eq!(rt; mixed_page(alloc)?.as_slice(), page.as_slice());
    Ok(())
}

#[test]
fn tables_of_every_size_are_read_as_they_were_stored(rt: HostRuntime) -> Result<(), Fail> {
    // Columns, indexes, and pages: 12 bytes of addresses, 45 of head, 55 a column and 62 an index. The fifth fills 3 pages.
    let rows: [(usize, usize, usize); 8] = [
        (1, 0, 1),
        (17, 0, 1),
        (18, 0, 2),
        (1, 15, 2),
        (19, 31, 3),
        (20, 31, 4),
        (32, 0, 2),
        (32, 32, 4),
    ];
    let alloc = rt.alloc();
    for (columns, indexes, count) in rows {
        let table = table(alloc, columns, indexes)?;
        let pages = stored(alloc, &table)?.ok_or("it may be stored")?;
        assert_eq!(rt;
            pages.len(),
            count,
            "{columns} columns and {indexes} indexes"
        );
        let read = get(alloc, pages.as_slice())?;
        assert_eq!(rt; read.columns.as_slice(), table.columns.as_slice());
        assert_eq!(rt; read.indexes.as_slice(), table.indexes.as_slice());
        assert_eq!(rt; read.slots, 3);
    }
    Ok(())
}

#[test]
fn pages_in_another_number_or_order_are_none(rt: HostRuntime) -> Result<(), Fail> {
    let alloc = rt.alloc();
    let bad = CatalogFault::BadCatalog { page: 0 };
    assert_eq!(rt; get(alloc, &[]).err(), Some(bad));
    let page = mixed_page(alloc)?;
    assert_eq!(rt; get(alloc, &[page]).err(), None);
    assert_eq!(rt; get(alloc, &[page, [0; 1008]]).err(), Some(bad));
    assert_eq!(rt; get(alloc, &[[0; 1008], page]).err(), Some(bad));
    assert_eq!(rt; get(alloc, &[page, page]).err(), Some(bad));
    let large = stored(alloc, &table(alloc, 32, 32)?)?.ok_or("it may be stored")?;
    assert_eq!(rt;
        get(alloc, large.as_slice().split_at(large.len() / 2).0).err(),
        Some(bad)
    );
    assert_eq!(rt;
        get(alloc, large.as_slice().split_at(large.len() / 2).1).err(),
        Some(bad)
    );
    Ok(())
}

#[test]
fn each_rule_broken_in_turn_is_refused(rt: HostRuntime) -> Result<(), Fail> {
    // What is wrong, and the bytes that make it so in the page of the mixed table.
    let rows: [(&str, usize, &[u8]); 39] = [
        ("an address that isn't 0", 0, &[1]),
        ("a table without a name", 12, &[0, 0]),
        ("a name of 31 bytes", 12, &[31]),
        ("a byte behind a name", 14, &[1]),
        ("a name past ASCII", 12, &[2, 0xc3, 0xa9]),
        ("a name that is no UTF-8", 13, &[0xff]),
        ("no column", 43, &[0]),
        ("a column less", 43, &[2]),
        ("33 columns", 43, &[33]),
        ("255 columns and indexes", 43, &[255, 255]),
        ("an index less", 44, &[1]),
        ("an index more", 44, &[3]),
        ("a slot too many", 45, &[1, 0, 4]),
        ("a root without pages", 53, &[0]),
        ("pages without a root", 49, &[0]),
        ("63,505 pages", 53, &[0x11, 0xf8]),
        ("a kind 0", 88, &[0]),
        ("a kind 4", 88, &[4]),
        ("a number with a length", 89, &[1]),
        ("a flag of NULL that is 2", 90, &[2]),
        ("a form 0", 91, &[0]),
        ("a form 2 for two values", 91, &[2]),
        ("a form 4", 91, &[4]),
        ("a form 1 for 257 values", 92, &[1, 1]),
        ("a form 2 for 65,537 values", 91, &[2, 1, 0, 1]),
        ("a text of no bytes", 199, &[0]),
        ("two columns of one name", 113, b"a"),
        ("an index of kind 0", 253, &[0]),
        ("an index of kind 5", 253, &[5]),
        ("an index of a column past the last", 254, &[3]),
        ("an LF of two columns", 255, &[1]),
        ("an LF of 1,001 values", 256, &[0xe9, 3]),
        ("a CMP of one column", 317, &[255]),
        ("a CMP of a column with itself", 317, &[0]),
        ("a CMP with a column past the last", 317, &[3]),
        ("a CMP with a value", 318, &[1]),
        ("two indexes of one name", 285, b"l"),
        ("a byte behind the text", 346, &[1]),
        ("a byte at the end", 1007, &[1]),
    ];
    let alloc = rt.alloc();
    let page = mixed_page(alloc)?;
    for (what, at, bytes) in rows {
        let fault = get(alloc, &[with(page, at, bytes)]).err();
        assert_eq!(rt; fault, Some(CatalogFault::BadCatalog { page: 0 }), "{what}");
    }
    Ok(())
}

#[test]
fn each_limit_itself_is_kept(rt: HostRuntime) -> Result<(), Fail> {
    // What is so, and the bytes that make it so in the page of the mixed table.
    let rows: [(&str, usize, &[u8]); 11] = [
        ("a blank as name", 13, b" "),
        ("262,144 slots", 45, &[0, 0, 4]),
        ("63,504 pages", 53, &[0x10, 0xf8]),
        ("the last root", 49, &[255, 255, 255, 255]),
        ("NULL may stand", 90, &[1]),
        ("256 values", 92, &[0, 1]),
        ("257 values", 91, &[2, 1, 1]),
        ("65,536 values", 91, &[2, 0, 0, 1]),
        ("65,537 values", 91, &[3, 1, 0, 1]),
        ("a text of one byte", 199, &[1]),
        ("an LF of 1,000 values", 256, &[0xe8, 3]),
    ];
    let alloc = rt.alloc();
    let page = mixed_page(alloc)?;
    for (what, at, bytes) in rows {
        assert_eq!(rt; get(alloc, &[with(page, at, bytes)]).err(), None, "{what}");
    }
    Ok(())
}

#[test]
fn the_longest_text_tells_how_many_slots_there_may_be(rt: HostRuntime) -> Result<(), Fail> {
    // The kind of the column, whether it has an LF index, and the slots.
    let rows: [(Kind, bool, u32); 11] = [
        (Kind::Int, false, 2_097_152),
        (Kind::Big, false, 2_097_152),
        (Kind::Int, true, 262_144),
        (Kind::Varchar(1), false, 262_144),
        (Kind::Varchar(105), true, 262_144),
        (Kind::Varchar(106), false, 254_016),
        (Kind::Varchar(136), false, 254_016),
        (Kind::Varchar(137), false, 190_512),
        (Kind::Varchar(194), true, 190_512),
        (Kind::Varchar(195), false, 127_008),
        (Kind::Varchar(255), false, 127_008),
    ];
    let alloc = rt.alloc();
    for (kind, low_fast, slots) in rows {
        let table = of_kind(alloc, kind, low_fast)?;
        assert_eq!(rt; slot_limit(&table), slots, "{kind:?} {low_fast}");
        assert!(rt; is_storable(&table), "{kind:?} {low_fast}");
    }
    Ok(())
}

/// The bytes behind an index's name: its kind and column, and how many pages its three objects have.
fn index_of(kind: u8, column: u8, first: u8, second: u8, third: u8) -> [u8; 31] {
    [
        kind, column, 255, 0, 0, 0, 0, 12, 0, 0, 0, first, 0, 0, 0, second, 0, 0, 0, second, 0, 0,
        0, third, 0, 0, 0, third, 0, 0, 0,
    ]
}

#[test]
fn objects_have_the_pages_that_slots_and_values_ask_for(rt: HostRuntime) -> Result<(), Fail> {
    // What is so, the bytes that make it so in a page of a table that fits, and whether it still does. A directory of an HG on INT
    // has 77 leaves a page.
    let rows: [(&str, usize, &[u8], bool); 18] = [
        ("nothing is changed", 0, &[], true),
        ("an existence bitmap of two pages", 53, &[2], false),
        ("a slot in a second chunk", 45, &[0x81, 0x1f], false),
        ("codes of two pages", 100, &[2], false),
        ("values of two pages", 108, &[2], false),
        ("an LF with values of two pages", 264, &[2], false),
        ("an LF without numbers", 268, &[0, 0, 0, 0, 0], false),
        ("an LF with two bitmaps", 280, &[2], true),
        ("a CMP of a number and a text", 317, &[2], false),
        ("a CMP of one page", 326, &[1], false),
        ("a CMP with a second object", 330, &[20, 0, 0, 0, 1], false),
        ("an HNG on INT", 253, &index_of(3, 0, 33, 0, 0), true),
        (
            "an HNG on INT of 65 pages",
            253,
            &index_of(3, 0, 65, 0, 0),
            false,
        ),
        ("an HNG on a text", 253, &index_of(3, 2, 33, 0, 0), false),
        ("an HG of 77 leaves", 253, &index_of(2, 0, 77, 1, 0), true),
        ("an HG of 78 leaves", 253, &index_of(2, 0, 78, 1, 0), false),
        (
            "an HG of 78 leaves and two pages",
            253,
            &index_of(2, 0, 78, 2, 0),
            true,
        ),
        (
            "an HG with a third object",
            253,
            &index_of(2, 0, 77, 1, 1),
            false,
        ),
    ];
    let alloc = rt.alloc();
    let page = with(mixed_page(alloc)?, 268, &[14, 0, 0, 0, 1]);
    let page = with(with(page, 326, &[3]), 338, &[0, 0, 0, 0, 0]);
    for (what, at, bytes, fits) in rows {
        let table = get(alloc, &[with(page, at, bytes)])?;
        assert_eq!(rt; fits_slots(&table), fits, "{what}");
    }
    Ok(())
}
