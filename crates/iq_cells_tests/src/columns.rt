//! Columns and codes beside bytes that were written down by hand.
use crate::checks::{same, same_bytes, same_codes};
use crate::made::{Cell, at, push, value};
use iq_base::{Kind, NoMemory, Page};
use iq_cells::{Cells, CellsFault, FieldFault, code_at, codes_of, put_code, value_order};
use std::alloc::Global;
use std::cmp::Ordering;
use std::process::Abort;
use std::test::Fail;

/// Two values of a kind, and the bytes of both in a page.
type Bytes = (Kind, Cell, Cell, &'static [u8]);

const BYTES: [Bytes; 4] = [
    (
        Kind::Int,
        Cell::Int(-2),
        Cell::Null,
        &[1, 254, 255, 255, 255, 0, 0, 0, 0, 0],
    ),
    (
        Kind::Big,
        Cell::Null,
        Cell::Int(258),
        &[0, 0, 0, 0, 0, 0, 0, 0, 0, 1, 2, 1, 0, 0, 0, 0, 0, 0],
    ),
    (
        Kind::Varchar(4),
        Cell::Text("né"),
        Cell::Text(""),
        &[1, 3, 110, 195, 169, 0, 1, 0, 0, 0, 0, 0],
    ),
    (Kind::Varchar(0), Cell::Null, Cell::Text(""), &[0, 0, 1, 0]),
];

/// A page of sevens with the two values of a column behind its first cell.
fn page_of(column: &Cells) -> Page {
    let mut page = [7; 1008];
    let width = iq_base::width(column.kind());
    if column.len() == 2 && 3 * width <= page.len() {
        column.put_in_page(0, 2, &mut page, 1);
    }
    page
}

/// The bytes of the second and the third cell of a page.
fn behind(kind: Kind, page: &Page) -> &[u8] {
    let width = iq_base::width(kind);
    &page[width..3 * width]
}

/// Whether the first cell of a page is of sevens.
fn keeps_sevens(kind: Kind, page: &Page) -> bool {
    page[..iq_base::width(kind)] == [7; 1008][..iq_base::width(kind)]
}

/// The column of the second and the third cell of a page, without values where these are no cells.
fn read(alloc: Global, kind: Kind, page: &mut Page) -> Cells {
    let width = iq_base::width(kind);
    page.copy_within(width..3 * width, 0);
    let mut column = Cells::new(alloc, kind);
    let _ = column.extend_from_page(page, 2);
    column
}

/// Whether the first value is NULL, if there is one.
fn begins_with_null(column: &Cells) -> Option<bool> {
    if column.is_empty() {
        None
    } else {
        Some(column.is_null(0))
    }
}

/// Puts both values into a column with room, and answers whether it had none before.
fn fill(column: &mut Cells, case: &Bytes) -> Result<bool, NoMemory> {
    let was_empty = column.is_empty();
    push(column, &case.1)?;
    push(column, &case.2)?;
    Ok(was_empty)
}

/// The column of a case, read from the cells of a page.
fn comes_back(rt: &impl Abort, column: &Cells, case: &Bytes, row: usize) {
    same(rt, &column.len(), &2, row);
    let (first, second) = (value(&case.1), value(&case.2));
    let is_null = matches!(case.1, Cell::Null);
    same(rt, &at(column, 0), &Some(first), row);
    same(rt, &at(column, 1), &Some(second), row);
    same(rt, &begins_with_null(column), &Some(is_null), row);
}

fn has_bytes(rt: &impl Abort, alloc: Global, case: &Bytes, row: usize) -> Result<(), NoMemory> {
    let mut column = Cells::with_room(alloc, case.0, 2)?;
    same(rt, &fill(&mut column, case)?, &true, row);
    let mut page = page_of(&column);
    same_bytes(rt, behind(case.0, &page), case.3, row);
    same(rt, &keeps_sevens(case.0, &page), &true, row);
    comes_back(rt, &read(alloc, case.0, &mut page), case, row);
    Ok(())
}

#[test]
fn a_column_has_the_bytes_of_the_page(rt: HostRuntime) -> Result<(), Fail> {
    for (row, case) in BYTES.iter().enumerate() {
        has_bytes(&rt, rt.alloc(), case, row)?;
    }
    Ok(())
}

/// Two cells, of which the second is none.
const OTHER: [(Kind, [u8; 10]); 4] = [
    (Kind::Int, [1, 5, 0, 0, 0, 2, 0, 0, 0, 0]),
    (Kind::Int, [1, 5, 0, 0, 0, 0, 0, 0, 0, 1]),
    (Kind::Varchar(3), [1, 1, 97, 0, 0, 1, 4, 97, 97, 97]),
    (Kind::Varchar(3), [1, 1, 97, 0, 0, 1, 1, 255, 0, 0]),
];

/// A column of NULL.
fn null(alloc: Global, kind: Kind) -> Result<Cells, NoMemory> {
    let mut column = Cells::new(alloc, kind);
    column.push_null()?;
    Ok(column)
}

/// What reading some cells behind a column answers, and how many values it has then.
fn extended(column: &mut Cells, bytes: &[u8; 10], n: usize) -> (Result<(), CellsFault>, usize) {
    let mut page = [0; 1008];
    page[..10].copy_from_slice(bytes);
    if n > 1008 / iq_base::width(column.kind()) {
        return (Err(CellsFault::NoMemory), 0);
    }
    let done = column.extend_from_page(&page, n);
    (done, column.len())
}

#[test]
fn other_bytes_leave_a_column_as_it_was(rt: HostRuntime) -> Result<(), Fail> {
    for (row, (kind, bytes)) in OTHER.iter().enumerate() {
        let mut column = null(rt.alloc(), *kind)?;
        let two = extended(&mut column, bytes, 2);
        same(&rt, &two, &(Err(CellsFault::BadCell), 1), row);
        let one = extended(&mut column, bytes, 1);
        same(&rt, &one, &(Ok(()), 2), row);
    }
    Ok(())
}

const NUMBERS: [i64; 7] = [-129, -1, 0, 1, 255, 256, 65_536];

const TEXTS: [&str; 7] = ["", "a", "aa", "ab", "b", "né", "o"];

/// NULL, and then the numbers in their order.
fn ints(alloc: Global) -> Result<Cells, FieldFault> {
    let mut column = null(alloc, Kind::Int)?;
    for number in NUMBERS {
        column.push_number(number)?;
    }
    Ok(column)
}

/// NULL, and then the texts in their order.
fn words(alloc: Global) -> Result<Cells, FieldFault> {
    let mut column = null(alloc, Kind::Varchar(8))?;
    for text in TEXTS {
        column.push_text(text.as_bytes())?;
    }
    Ok(column)
}

/// How a value of a column stands to another one of it, and whether both are equal, if both are there.
fn stands(column: &Cells, i: usize, j: usize) -> Option<(Ordering, bool)> {
    if i < column.len() && j < column.len() {
        let order = column.compare(i, column, j);
        Some((order, column.is_equal(i, column, j)))
    } else {
        None
    }
}

/// Asserts that each of eight values is less than those behind it.
fn are_ordered(rt: &impl Abort, column: &Cells) {
    for i in 0..8 {
        for j in 0..8 {
            same(rt, &stands(column, i, j), &Some((i.cmp(&j), i == j)), i);
        }
    }
}

/// Keeps the first three values where there are as many, and answers how many there are then.
fn cut(column: &mut Cells) -> usize {
    if column.len() > 3 {
        column.truncate(3);
    }
    column.len()
}

#[test]
fn cells_are_ordered_by_value(rt: HostRuntime) -> Result<(), Fail> {
    let mut ints = ints(rt.alloc())?;
    let words = words(rt.alloc())?;
    same(&rt, &(ints.kind(), ints.len()), &(Kind::Int, 8), 0);
    same(&rt, &(words.kind(), words.len()), &(Kind::Varchar(8), 8), 1);
    are_ordered(&rt, &ints);
    are_ordered(&rt, &words);
    same(&rt, &cut(&mut ints), &3, 2);
    same(&rt, &at(&ints, 2), &Some(value(&Cell::Int(-1))), 3);
    Ok(())
}

/// How a number stands to a text, and to NULL.
const KINDS: [(Cell, Cell, Ordering); 2] = [
    (Cell::Int(9), Cell::Text(""), Ordering::Less),
    (Cell::Int(-9), Cell::Null, Ordering::Greater),
];

#[test]
fn values_of_two_kinds_are_ordered(rt: HostRuntime) {
    for (row, (a, b, order)) in KINDS.iter().enumerate() {
        same(&rt, &value_order(&value(a), &value(b)), order, row);
    }
}

/// A page with two codes of three bytes, the second at its end.
fn coded() -> Page {
    let mut page = [0; 1008];
    put_code::<3>(0x01_02_03, &mut page, 1);
    put_code::<3>(0xff_ff_ff, &mut page, 335);
    page
}

/// Codes of three bytes, of two and of one.
fn codes_at(page: &Page) -> (u32, u32, u32) {
    let three = code_at::<3>(page, 1);
    let two = code_at::<2>(page, 2);
    (three, two, code_at::<1>(page, 5))
}

#[test]
fn codes_lie_with_their_lowest_byte_first(rt: HostRuntime) -> Result<(), Fail> {
    let page = coded();
    same_bytes(&rt, &page[2..7], &[0, 3, 2, 1, 0], 0);
    same_bytes(&rt, &page[1004..], &[0, 255, 255, 255], 1);
    same(&rt, &codes_at(&page), &(66_051, 258, 1), 2);
    let mut codes = vec![in rt.alloc(); 7]?;
    codes_of::<2>(&page, 3, &mut codes)?;
    same_codes(&rt, &codes, &[7, 0, 768, 258], 3);
    Ok(())
}
