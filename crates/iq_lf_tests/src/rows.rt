//! The Low Fast index beside plain lists of values.
use iq_ast::Op;
use iq_base::{Kind, Value};
use iq_bitmap::Bitmap;
use iq_cells::Cells;
use iq_lf::{Lf, LfFault};
use iq_pages::{MemoryPages, PageSource};
use iq_truth::{Side, comparison};
use std::alloc::Global;
use std::process::Abort;
use std::test::Fail;

const FIRST: u32 = 65;

const SECOND: u32 = 66;

const THIRD: u32 = 67;

/// An index without rows.
pub(crate) fn empty(kind: Kind) -> Lf {
    Lf {
        first: FIRST,
        second: SECOND,
        third: THIRD,
        kind,
        slots: 0,
        distinct: 0,
    }
}

/// The value of row `i` where there are so many distinct ones: each fifth is NULL.
pub(crate) fn value(i: u32, distinct: u32) -> Value {
    if i % 5 == 4 {
        Value::Null
    } else {
        Value::Int(i64::from(i / 5 * 4 + i % 5) % i64::from(distinct.max(1)))
    }
}

/// The values of some rows.
pub(crate) fn cells(alloc: Global, from: u32, to: u32, distinct: u32) -> Result<Cells, Fail> {
    let mut cells = Cells::new(alloc, Kind::Int);
    for i in from..to {
        match value(i, distinct) {
            Value::Int(number) => cells
                .push_number(number)
                .map_err(|_| "no number of the kind")?,
            Value::Null | Value::Text(_) => cells.push_null()?,
        }
    }
    Ok(cells)
}

/// Puts rows behind, where they are of the kind and find room.
pub(crate) fn put(
    rt: &impl Abort,
    alloc: Global,
    lf: &mut Lf,
    store: &mut MemoryPages,
    values: &Cells,
) -> Result<(), LfFault> {
    assert!(rt; values.kind() == lf.kind && lf.has_room(values.len()));
    lf.append(alloc, store, values)
}

/// Whether a set of rows is that of the rows that equal a value.
fn is_set_of(rows: &Bitmap, distinct: u32, number: i64) -> bool {
    (0..rows.len()).all(|i| {
        rows.get(i) == Side::True.has(comparison(Op::Eq, &value(i, distinct), &Value::Int(number)))
    })
}

#[test]
fn rows_in_pieces_are_found_as_in_plain_lists(rt: HostRuntime) -> Result<(), Fail> {
    let alloc = rt.alloc();
    let mut store = MemoryPages::new(alloc, Vec::new(alloc));
    let mut lf = empty(Kind::Int);
    // Pieces without rows, and that end before, at and behind the border of a chunk.
    for end in [0, 5, 20, 8063, 8064, 8065, 8070, 24_200] {
        let values = cells(alloc, lf.slots, end, 9)?;
        assert!(rt; put(&rt, alloc, &mut lf, &mut store, &values).is_ok());
        for number in [0, 1, 8, 9, -1] {
            assert!(rt; lf.has_room(0));
            let rows = lf.equal(alloc, &mut store, &Value::Int(number))?;
            assert!(rt; rows.len() == end && is_set_of(&rows, 9, number));
        }
    }
    assert_eq!(rt;
        (store.pages(FIRST), store.pages(SECOND), store.pages(THIRD)),
        (1, 2, 33)
    );
    Ok(())
}

/// A text that begins as every other, and one byte more.
fn text(i: u32) -> [u8; 6] {
    [97, 97, 97, 97, 97, 97 + (i % 7) as u8]
}

fn are_same(one: &Bitmap, other: &Bitmap) -> bool {
    if one.len() != other.len() {
        return false;
    }
    for row in 0..one.len() {
        if one.get(row) != other.get(row) {
            return false;
        }
    }
    true
}

#[test]
fn many_small_appends_stand_for_what_a_large_one_does(rt: HostRuntime) -> Result<(), Fail> {
    let alloc = rt.alloc();
    let kind = Kind::Varchar(6);
    let (mut small_store, mut large_store) = (
        MemoryPages::new(alloc, Vec::new(alloc)),
        MemoryPages::new(alloc, Vec::new(alloc)),
    );
    let (mut small, mut large) = (empty(kind), empty(kind));
    let mut all = Cells::new(alloc, kind);
    for i in 0..60 {
        let mut one = Cells::new(alloc, kind);
        if i % 11 == 10 {
            one.push_null()?;
        } else {
            one.push_text(&text(i)).map_err(|_| "no text of the kind")?;
        }
        assert!(rt; one.len() == 1 && one.kind() == all.kind());
        all.push_from(&one, 0)?;
        assert!(rt; put(&rt, alloc, &mut small, &mut small_store, &one).is_ok());
    }
    assert!(rt; put(&rt, alloc, &mut large, &mut large_store, &all).is_ok());
    assert_eq!(rt; (small.slots, small.distinct), (60, 7));
    assert!(rt; small == large && small.has_room(0) && all.len() == 60);
    for i in 0..7 {
        let value = all.get(i);
        let few = small.equal(alloc, &mut small_store, &value)?;
        let many = large.equal(alloc, &mut large_store, &value)?;
        assert!(rt; few.len() == 60 && are_same(&few, &many));
    }
    Ok(())
}

#[test]
fn more_than_a_thousand_distinct_values_are_refused(rt: HostRuntime) -> Result<(), Fail> {
    let alloc = rt.alloc();
    let mut store = MemoryPages::new(alloc, Vec::new(alloc));
    let mut lf = empty(Kind::Int);
    let values = cells(alloc, 0, 1250, 1000)?;
    assert!(rt; put(&rt, alloc, &mut lf, &mut store, &values).is_ok());
    assert_eq!(rt; (lf.slots, lf.distinct), (1250, 1000));
    let values = cells(alloc, 1250, 2500, 1001)?;
    let refused = put(&rt, alloc, &mut lf, &mut store, &values);
    assert!(rt; matches!(refused, Err(LfFault::TooManyDistinct)));
    assert_eq!(rt; (lf.slots, lf.distinct), (1250, 1000));
    let values = cells(alloc, 0, 1250, 1000)?;
    assert!(rt; put(&rt, alloc, &mut lf, &mut store, &values).is_ok());
    assert_eq!(rt;
        (store.pages(FIRST), store.pages(SECOND), store.pages(THIRD)),
        (5, 131, 1000)
    );
    Ok(())
}
