//! Ranges, and tests on each side, beside plain lists.
use crate::building::{DIRECTORY, LEAVES, built};
use iq_ast::{Bound, Op, Test};
use iq_base::{Kind, Name, Text, Value};
use iq_bitmap::Bitmap;
use iq_cells::{Cells, value_order};
use iq_hg::Hg;
use iq_pages::{MemoryPages, PageSource};
use iq_truth::{Side, truth_on};
use std::alloc::Global;
use std::cmp::Ordering;
use std::process::Abort;
use std::test::Fail;

const OPS: [Op; 6] = [Op::Eq, Op::Ne, Op::Lt, Op::Le, Op::Gt, Op::Ge];

/// A number of row `i`, and NULL at each seventh row.
fn number(i: u32) -> Value {
    if i % 7 == 3 {
        Value::Null
    } else {
        Value::Int((i % 13) as i64 - 6)
    }
}

fn numbers(alloc: Global, count: u32) -> Result<Cells, Fail> {
    let mut cells = Cells::new(alloc, Kind::Int);
    for i in 0..count {
        match number(i) {
            Value::Int(n) => cells.push_number(n).map_err(|_| "no number of the kind")?,
            Value::Null | Value::Text(_) => cells.push_null()?,
        }
    }
    Ok(cells)
}

fn is_in(v: &Value, low: i64, high: i64) -> bool {
    match v {
        Value::Int(n) => low <= *n && *n < high,
        Value::Null | Value::Text(_) => false,
    }
}

/// Whether the rows of each range are those of the plain list: from a number on, and below another.
fn ranges_agree(alloc: Global, hg: &Hg, store: &mut MemoryPages) -> Result<bool, Fail> {
    for (low, high) in [(-6, -5), (-9, 9), (0, 1), (2, 6), (7, 9), (-9, -6), (3, 3)] {
        let rows = hg.range(
            alloc,
            store,
            &Bound::Incl(Value::Int(low)),
            &Bound::Excl(Value::Int(high)),
        )?;
        for i in 0..rows.len() {
            if rows.get(i) != is_in(&number(i), low, high) {
                return Ok(false);
            }
        }
    }
    Ok(true)
}

/// Whether the rows on each side of each comparison are those of the plain list.
fn sides_agree(alloc: Global, hg: &Hg, store: &mut MemoryPages) -> Result<bool, Fail> {
    for op in OPS {
        let column = Name::of("c").ok_or("no name")?;
        let test = Test::Compare {
            column,
            op,
            value: Value::Int(2),
        };
        for side in [Side::True, Side::False] {
            let rows = hg.scan(alloc, store, &test, side)?;
            for i in 0..rows.len() {
                if rows.get(i) != side.has(truth_on(&test, &number(i))) {
                    return Ok(false);
                }
            }
        }
    }
    Ok(true)
}

#[test]
fn ranges_and_tests_are_those_of_plain_lists(rt: HostRuntime) -> Result<(), Fail> {
    let alloc = rt.alloc();
    // No leaf, one, two, and so many that a page of the directory doesn't name them; six of seven rows have a number.
    for (count, leaves, directory) in [
        (0, 0, 0),
        (5, 1, 1),
        (129, 1, 1),
        (131, 2, 1),
        (10500, 82, 2),
    ] {
        let mut store = MemoryPages::new(alloc, Vec::new(alloc));
        let hg = built(&rt, alloc, &mut store, &numbers(alloc, count)?)?;
        assert_eq!(rt;
            (store.pages(LEAVES), store.pages(DIRECTORY)),
            (leaves, directory)
        );
        assert!(rt; ranges_agree(alloc, &hg, &mut store)?);
        assert!(rt; sides_agree(alloc, &hg, &mut store)?);
    }
    Ok(())
}

/// The rows of one number among 100,000, each of which 20 rows have, where the call with this number fails.
fn rows_of_one(rt: &impl Abort, alloc: Global, fails: u64) -> Result<Option<u32>, Fail> {
    let mut cells = Cells::with_room(alloc, Kind::Int, 100000)?;
    for i in 0..100000 {
        cells
            .push_number(i % 5000)
            .map_err(|_| "no number of the kind")?;
    }
    let mut store = MemoryPages::new(alloc, vec![in alloc; fails]?);
    let hg = built(rt, alloc, &mut store, &cells)?;
    assert_eq!(rt; (store.pages(LEAVES), store.pages(DIRECTORY)), (901, 12));
    let one = Bound::Incl(Value::Int(2499));
    match hg.range(alloc, &mut store, &one, &one) {
        Ok(rows) => Ok(Some(rows.count())),
        Err(_) => Ok(None),
    }
}

#[test]
fn an_equality_reads_few_pages_of_many(rt: HostRuntime) -> Result<(), Fail> {
    let alloc = rt.alloc();
    // 913 calls write the pages. 12 pages are halved in 4 steps, one is read once more, and then at most 2 leaves and half as many more
    // as there are rows: 17 calls.
    assert_eq!(rt; rows_of_one(&rt, alloc, 913 + 18)?, Some(20));
    assert_eq!(rt; rows_of_one(&rt, alloc, 913 + 5)?, None);
    Ok(())
}
