//! Hostile descriptors: each field out of its range, one at a time, and page counts that the slots don't ask for.
use crate::checks::same;
use crate::hostile::{
    COLUMN_A, COLUMN_B, COLUMN_C, EXISTENCE, Edit, INDEX_H, INDEX_L, INDEX_M, INDEX_N, fault_after,
    not_a_store,
};
use iq_base::NoMemory;
use iq_opening::StoreCause;
use std::alloc::Global;
use std::process::Abort;
use std::test::Fail;

/// Bytes that are changed so that the descriptor of t is none.
#[derive(Clone, Copy)]
struct Row(&'static str, &'static [Edit]);

fn are_bad_catalogs(rt: &impl Abort, alloc: Global, rows: &[Row]) -> Result<(), NoMemory> {
    for Row(told, edits) in rows {
        let found = fault_after(alloc, edits)?;
        same(rt, &found, &not_a_store(4, StoreCause::BadCatalog), told);
    }
    Ok(())
}

const FIELDS: [Row; 41] = [
    Row("no name", &[Edit(4, 28, &[0])]),
    Row("a name of 31 bytes", &[Edit(4, 28, &[31])]),
    Row("a byte behind the name", &[Edit(4, 30, &[1])]),
    Row("a name that isn't ASCII", &[Edit(4, 29, &[200])]),
    Row("no column", &[Edit(4, 59, &[0])]),
    Row("one column too few", &[Edit(4, 59, &[2])]),
    Row("33 columns", &[Edit(4, 59, &[33])]),
    Row("one index too few", &[Edit(4, 60, &[3])]),
    Row("33 indexes", &[Edit(4, 60, &[33])]),
    Row("slots past the limit", &[Edit(4, 61, &[1, 0, 4, 0])]),
    Row(
        "the bitmap of existence has no root",
        &[Edit(4, EXISTENCE, &[0])],
    ),
    Row(
        "more pages than an object has",
        &[Edit(4, EXISTENCE + 4, &[17, 248])],
    ),
    Row("no name of a column", &[Edit(4, COLUMN_A, &[0])]),
    Row("two columns of one name", &[Edit(4, COLUMN_B + 1, &[b'a'])]),
    Row("a kind 0 of values", &[Edit(4, COLUMN_A + 31, &[0])]),
    Row("a kind 4 of values", &[Edit(4, COLUMN_A + 31, &[4])]),
    Row("a length of a number", &[Edit(4, COLUMN_A + 32, &[1])]),
    Row("no length of a text", &[Edit(4, COLUMN_C + 32, &[0])]),
    Row("2 where NULL may stand", &[Edit(4, COLUMN_A + 33, &[2])]),
    Row("a form 0", &[Edit(4, COLUMN_A + 34, &[0])]),
    Row("a form of too many bytes", &[Edit(4, COLUMN_A + 34, &[2])]),
    Row("a form of too few bytes", &[Edit(4, COLUMN_A + 36, &[1])]),
    Row(
        "no root of a column's cells",
        &[Edit(4, COLUMN_A + 39, &[0])],
    ),
    Row(
        "no root of a column's values",
        &[Edit(4, COLUMN_A + 47, &[0])],
    ),
    Row("no name of an index", &[Edit(4, INDEX_L, &[0])]),
    Row("two indexes of one name", &[Edit(4, INDEX_H + 1, &[b'l'])]),
    Row("a kind 0 of indexes", &[Edit(4, INDEX_L + 31, &[0])]),
    Row("a kind 5 of indexes", &[Edit(4, INDEX_L + 31, &[5])]),
    Row(
        "an index of a fourth column",
        &[Edit(4, INDEX_L + 32, &[3])],
    ),
    Row("a second column of LF", &[Edit(4, INDEX_L + 33, &[1])]),
    Row("no second column of CMP", &[Edit(4, INDEX_M + 33, &[255])]),
    Row(
        "a fourth column as the second",
        &[Edit(4, INDEX_M + 33, &[3])],
    ),
    Row(
        "a second column that is the first",
        &[Edit(4, INDEX_M + 33, &[0])],
    ),
    Row(
        "1,001 distinct values of LF",
        &[Edit(4, INDEX_L + 34, &[233, 3])],
    ),
    Row("a distinct value of HG", &[Edit(4, INDEX_H + 34, &[1])]),
    Row(
        "no root of an index's first",
        &[Edit(4, INDEX_L + 38, &[0])],
    ),
    Row(
        "no root of an index's second",
        &[Edit(4, INDEX_L + 46, &[0])],
    ),
    Row(
        "no root of an index's third",
        &[Edit(4, INDEX_L + 54, &[0])],
    ),
    Row(
        "a root of an object without pages",
        &[Edit(4, INDEX_H + 54, &[74])],
    ),
    Row(
        "the first byte behind the text",
        &[Edit(4, INDEX_M + 62, &[1])],
    ),
    Row("the last byte of the page", &[Edit(4, 1023, &[1])]),
];

const RENAMED: [Edit; 2] = [Edit(4, 29, &[b'v']), Edit(2, 32, &[1])];

#[test]
fn each_field_keeps_to_its_range(rt: HostRuntime) -> Result<(), Fail> {
    are_bad_catalogs(&rt, rt.alloc(), &FIELDS)?;
    // Another name alone is none of these faults.
    let renamed = fault_after(rt.alloc(), &RENAMED)?;
    same(&rt, &renamed, &None, "the name of the table behind");
    Ok(())
}

const ORDERS: [Row; 2] = [
    Row("u before t", &[Edit(2, 36, &[67]), Edit(2, 40, &[4])]),
    Row(
        "t behind ts",
        &[
            Edit(2, 36, &[67]),
            Edit(2, 40, &[4]),
            Edit(67, 28, &[2, 116, 115]),
        ],
    ),
];

/// Two tables of one name.
const TWICE: [Edit; 1] = [Edit(67, 29, &[b't'])];

#[test]
fn tables_stand_in_the_order_of_their_names(rt: HostRuntime) -> Result<(), Fail> {
    are_bad_catalogs(&rt, rt.alloc(), &ORDERS)?;
    let found = fault_after(rt.alloc(), &TWICE)?;
    let wanted = not_a_store(67, StoreCause::BadCatalog);
    same(&rt, &found, &wanted, "two tables of one name");
    Ok(())
}

const PAGES: [Row; 30] = [
    Row(
        "no bitmap of existence",
        &[Edit(4, EXISTENCE, &[0, 0, 0, 0, 0])],
    ),
    Row("two pages of existence", &[Edit(4, EXISTENCE + 4, &[2])]),
    Row("no cells", &[Edit(4, COLUMN_A + 39, &[0, 0, 0, 0, 0])]),
    Row("two pages of cells", &[Edit(4, COLUMN_A + 43, &[2])]),
    Row("no values", &[Edit(4, COLUMN_B + 47, &[0, 0, 0, 0, 0])]),
    Row("two pages of values", &[Edit(4, COLUMN_C + 51, &[2])]),
    Row("no distinct value", &[Edit(4, COLUMN_A + 35, &[0])]),
    Row(
        "as many distinct values as need a page more",
        &[Edit(4, COLUMN_A + 35, &[202])],
    ),
    Row(
        "no values of LF",
        &[Edit(4, INDEX_L + 38, &[0, 0, 0, 0, 0])],
    ),
    Row("two pages of values of LF", &[Edit(4, INDEX_L + 42, &[2])]),
    Row(
        "no numbers of LF",
        &[Edit(4, INDEX_L + 46, &[0, 0, 0, 0, 0])],
    ),
    Row("two pages of numbers of LF", &[Edit(4, INDEX_L + 50, &[2])]),
    Row(
        "values of LF that need two pages of numbers",
        &[Edit(4, INDEX_L + 34, &[8])],
    ),
    Row("no leaf of HG", &[Edit(4, INDEX_H + 38, &[0, 0, 0, 0, 0])]),
    Row(
        "leaves of HG for two pages of directory",
        &[Edit(4, INDEX_H + 42, &[61])],
    ),
    Row(
        "no directory of HG",
        &[Edit(4, INDEX_H + 46, &[0, 0, 0, 0, 0])],
    ),
    Row(
        "two pages of directory of HG",
        &[Edit(4, INDEX_H + 50, &[2])],
    ),
    Row(
        "a third object of HG",
        &[Edit(4, INDEX_H + 54, &[74, 0, 0, 0, 1])],
    ),
    Row("32 pages of HNG", &[Edit(4, INDEX_N + 42, &[32])]),
    Row("34 pages of HNG", &[Edit(4, INDEX_N + 42, &[34])]),
    Row(
        "a second object of HNG",
        &[Edit(4, INDEX_N + 46, &[74, 0, 0, 0, 1])],
    ),
    Row(
        "a third object of HNG",
        &[Edit(4, INDEX_N + 54, &[74, 0, 0, 0, 1])],
    ),
    Row("HNG on texts", &[Edit(4, INDEX_N + 32, &[2])]),
    Row("two pages of CMP", &[Edit(4, INDEX_M + 42, &[2])]),
    Row("four pages of CMP", &[Edit(4, INDEX_M + 42, &[4])]),
    Row(
        "a second object of CMP",
        &[Edit(4, INDEX_M + 46, &[74, 0, 0, 0, 1])],
    ),
    Row(
        "a third object of CMP",
        &[Edit(4, INDEX_M + 54, &[74, 0, 0, 0, 1])],
    ),
    Row("CMP of a number and a text", &[Edit(4, INDEX_M + 33, &[2])]),
    Row("no slots", &[Edit(4, 61, &[0])]),
    Row("slots of two bitmaps", &[Edit(4, 61, &[129, 31])]),
];

#[test]
fn each_object_has_the_pages_that_the_slots_ask_for(rt: HostRuntime) -> Result<(), Fail> {
    Ok(are_bad_catalogs(&rt, rt.alloc(), &PAGES)?)
}
