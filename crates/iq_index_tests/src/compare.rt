//! The Compare index beside plain lists of values.
use iq_ast::Op;
use iq_base::{Kind, Value};
use iq_bitmap::Bitmap;
use iq_cells::Cells;
use iq_cmp::Cmp;
use iq_pages::{MemoryPages, PageFault, PageSource};
use iq_truth::{Side, comparison};
use std::alloc::Global;
use std::process::Abort;
use std::test::Fail;

const OBJECT: u32 = 67;

const OPS: [Op; 6] = [Op::Eq, Op::Ne, Op::Lt, Op::Le, Op::Gt, Op::Ge];

/// A number of row `i` for a column, and NULL at each seventh or fifth row.
fn value(i: u32, second: bool) -> Value {
    if second {
        if i % 5 == 4 {
            Value::Null
        } else {
            Value::Int((i % 11) as i64 - 5)
        }
    } else if i % 7 == 3 {
        Value::Null
    } else {
        Value::Int((i % 13) as i64 - 6)
    }
}

/// The values of some rows in a column.
fn cells(alloc: Global, from: u32, to: u32, second: bool) -> Result<Cells, Fail> {
    let mut cells = Cells::new(alloc, Kind::Big);
    for i in from..to {
        match value(i, second) {
            Value::Int(number) => cells
                .push_number(number)
                .map_err(|_| "no number of the kind")?,
            Value::Null | Value::Text(_) => cells.push_null()?,
        }
    }
    Ok(cells)
}

/// Puts rows behind, where they find room.
fn put(
    rt: &impl Abort,
    alloc: Global,
    cmp: &mut Cmp,
    store: &mut MemoryPages,
    first: &Cells,
    second: &Cells,
) -> Result<(), PageFault> {
    assert!(rt; first.len() == second.len() && cmp.has_room(first.len()));
    cmp.append(alloc, store, first, second)
}

fn related(
    rt: &impl Abort,
    alloc: Global,
    cmp: &Cmp,
    store: &mut MemoryPages,
    op: Op,
    side: Side,
) -> Result<Bitmap, PageFault> {
    assert!(rt; cmp.has_room(0));
    cmp.relation(alloc, store, op, side)
}

/// Whether the rows on each side of each operator are those of the plain lists.
fn agrees(
    rt: &impl Abort,
    alloc: Global,
    cmp: &Cmp,
    store: &mut MemoryPages,
) -> Result<bool, PageFault> {
    for op in OPS {
        for side in [Side::True, Side::False] {
            let rows = related(rt, alloc, cmp, store, op, side)?;
            for i in 0..rows.len() {
                let truth = comparison(op, &value(i, false), &value(i, true));
                if rows.get(i) != side.has(truth) {
                    return Ok(false);
                }
            }
        }
    }
    Ok(true)
}

#[test]
fn rows_in_pieces_are_related_as_plain_lists(rt: HostRuntime) -> Result<(), Fail> {
    let alloc = rt.alloc();
    let mut store = MemoryPages::new(alloc, Vec::new(alloc));
    let mut cmp = Cmp {
        object: OBJECT,
        slots: 0,
    };
    // Pieces that begin and end within a page, at its end, and without rows; and one over several chunks.
    for (end, pages) in [(0, 0), (5, 3), (8064, 3), (8064, 3), (8065, 6), (24200, 12)] {
        let from = cmp.slots;
        let first = cells(alloc, from, end, false)?;
        let second = cells(alloc, from, end, true)?;
        put(&rt, alloc, &mut cmp, &mut store, &first, &second)?;
        assert_eq!(rt; (cmp.slots, store.pages(OBJECT)), (end, pages));
        assert!(rt; agrees(&rt, alloc, &cmp, &mut store)?);
    }
    Ok(())
}

#[test]
fn each_call_that_fails_is_told(rt: HostRuntime) -> Result<(), Fail> {
    let alloc = rt.alloc();
    for call in 1..14 {
        let mut store = MemoryPages::new(alloc, vec![in alloc; call]?);
        let mut cmp = Cmp {
            object: OBJECT,
            slots: 0,
        };
        let first = cells(alloc, 0, 9, false)?;
        let second = cells(alloc, 0, 9, true)?;
        let mut outcome = put(&rt, alloc, &mut cmp, &mut store, &first, &second);
        if outcome.is_ok() {
            outcome = put(&rt, alloc, &mut cmp, &mut store, &first, &second);
        }
        match outcome {
            // Three pages are put behind, and then read and written.
            Err(PageFault::Failed { before, after }) => {
                assert!(rt; call < 10);
                assert_eq!(rt; (before, after), (0, 1));
                assert_eq!(rt; cmp.slots, if call < 4 { 0 } else { 9 });
            }
            Ok(()) => assert_eq!(rt; (call > 9, cmp.slots), (true, 18)),
            Err(_) => panic!(rt; "another fault"),
        }
    }
    Ok(())
}

#[test]
fn a_page_that_lacks_is_named(rt: HostRuntime) -> Result<(), Fail> {
    let alloc = rt.alloc();
    let mut store = MemoryPages::new(alloc, Vec::new(alloc));
    let mut cmp = Cmp {
        object: OBJECT,
        slots: 0,
    };
    let first = cells(alloc, 0, 9, false)?;
    let second = cells(alloc, 0, 9, true)?;
    put(&rt, alloc, &mut cmp, &mut store, &first, &second)?;
    // An index of more rows than its pages hold.
    let long = Cmp {
        object: OBJECT,
        slots: 9000,
    };
    for (op, page) in [(Op::Lt, 3), (Op::Eq, 4), (Op::Ge, 4), (Op::Ne, 3)] {
        match related(&rt, alloc, &long, &mut store, op, Side::True) {
            Err(
                PageFault::BadPage {
                    object,
                    page: named,
                },
            ) => assert_eq!(rt; (object, named), (OBJECT, page)),
            Ok(_) | Err(_) => panic!(rt; "no bad page"),
        }
    }
    let mut longer = Cmp {
        object: OBJECT,
        slots: 9000,
    };
    match put(&rt, alloc, &mut longer, &mut store, &first, &second) {
        Err(PageFault::BadPage { object, page }) => assert_eq!(rt;
            (object, page, longer.slots),
            (OBJECT, 3, 9000)
        ),
        Ok(()) | Err(_) => panic!(rt; "no bad page"),
    }
    Ok(())
}
