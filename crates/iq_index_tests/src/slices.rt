//! The High Non Group index beside plain lists of numbers.
use iq_ast::Op;
use iq_base::{Kind, Value};
use iq_bitmap::Bitmap;
use iq_cells::Cells;
use iq_hng::{Compared, Hng, Ranged, Width};
use iq_pages::{MemoryPages, PageFault, PageSource};
use iq_truth::{Side, between, comparison};
use std::alloc::Global;
use std::process::Abort;
use std::test::Fail;

const OBJECT: u32 = 67;

/// Numbers of 32 bits, the ends too, and NULL; each row has the next one, and after the last the first again.
const NUMBERS: [Option<i64>; 9] = [
    Some(-2_147_483_648),
    Some(-1),
    None,
    Some(0),
    Some(1),
    Some(2_147_483_647),
    Some(5),
    Some(-5),
    Some(5),
];

/// What is compared with: each number, numbers beside these, and numbers beyond all.
const OTHERS: [i64; 12] = [
    -2_147_483_648,
    -2_147_483_647,
    -1,
    0,
    1,
    2_147_483_647,
    5,
    -4,
    2_147_483_648,
    -2_147_483_649,
    i64::MAX,
    i64::MIN,
];

/// The value of row `i`.
fn value(i: u32) -> Value {
    match NUMBERS[(i % 9) as usize] {
        None => Value::Null,
        Some(number) => Value::Int(number),
    }
}

/// The values of some rows.
fn cells(alloc: Global, kind: Kind, from: u32, to: u32) -> Result<Cells, Fail> {
    let mut cells = Cells::new(alloc, kind);
    for i in from..to {
        match value(i) {
            Value::Int(number) => cells
                .push_number(number)
                .map_err(|_| "no number of the kind")?,
            Value::Null | Value::Text(_) => cells.push_null()?,
        }
    }
    Ok(cells)
}

/// Puts rows behind, where they are of the kind and find room.
fn put(
    rt: &impl Abort,
    alloc: Global,
    hng: &mut Hng,
    store: &mut MemoryPages,
    numbers: &Cells,
) -> Result<(), PageFault> {
    assert!(rt; numbers.kind() == hng.width.kind() && hng.has_room(numbers.len()));
    hng.append(alloc, store, numbers)
}

fn compared(
    rt: &impl Abort,
    alloc: Global,
    hng: &Hng,
    store: &mut MemoryPages,
    number: i64,
) -> Result<Compared, PageFault> {
    assert!(rt; hng.has_room(0));
    hng.compare(alloc, store, number)
}

/// Whether a set of rows is that of an operator over the plain list.
fn is_set_of(rows: &Bitmap, op: Op, number: i64) -> bool {
    (0..rows.len()).all(|i| {
        rows.get(i) == Side::True.has(comparison(op, &value(i), &Value::Int(number)))
    })
}

/// Whether the rows stand to each of the other numbers as those of the plain list.
fn agrees(
    rt: &impl Abort,
    alloc: Global,
    hng: &Hng,
    store: &mut MemoryPages,
) -> Result<bool, PageFault> {
    for number in OTHERS {
        let rows = compared(rt, alloc, hng, store, number)?;
        if !is_set_of(&rows.less, Op::Lt, number)
            || !is_set_of(&rows.equal, Op::Eq, number)
            || !is_set_of(&rows.greater, Op::Gt, number)
        {
            return Ok(false);
        }
    }
    Ok(true)
}

#[test]
fn numbers_in_pieces_are_compared_as_plain_lists(rt: HostRuntime) -> Result<(), Fail> {
    let alloc = rt.alloc();
    for (width, kind, planes) in [(Width::Int, Kind::Int, 33), (Width::Big, Kind::Big, 65)] {
        let mut store = MemoryPages::new(alloc, Vec::new(alloc));
        let mut hng = Hng {
            object: OBJECT,
            slots: 0,
            width,
        };
        // Pieces without rows, and that begin and end within a page.
        for (end, chunks) in [(0, 0), (5, 1), (20, 1), (8070, 2)] {
            let numbers = cells(alloc, kind, hng.slots, end)?;
            put(&rt, alloc, &mut hng, &mut store, &numbers)?;
            assert_eq!(rt; (hng.slots, store.pages(OBJECT)), (end, planes * chunks));
            assert!(rt; agrees(&rt, alloc, &hng, &mut store)?);
        }
    }
    Ok(())
}

/// Ranges: over all numbers, of one number, between two, past either end of 32 bits, beyond all, and that end before they begin.
const RANGES: [(i64, i64); 16] = [
    (-2_147_483_648, 2_147_483_647),
    (-1, -1),
    (-5, 5),
    (0, 2_147_483_647),
    (-2_147_483_648, 0),
    (-2_147_483_647, 2_147_483_646),
    (6, 1_000),
    (-2_147_483_649, -1),
    (1, 2_147_483_648),
    (i64::MIN, i64::MAX),
    (2_147_483_648, i64::MAX),
    (i64::MIN, -2_147_483_649),
    (5, -5),
    (1, 0),
    (2_147_483_648, 0),
    (0, -2_147_483_649),
];

fn ranged(
    rt: &impl Abort,
    alloc: Global,
    hng: &Hng,
    store: &mut MemoryPages,
    low: i64,
    high: i64,
) -> Result<Ranged, PageFault> {
    assert!(rt; hng.has_room(0));
    hng.range(alloc, store, low, high)
}

/// Whether a set of rows is that of BETWEEN over the plain list.
fn is_set_between(rows: &Bitmap, low: i64, high: i64) -> bool {
    (0..rows.len()).all(|i| {
        rows.get(i) == Side::True.has(between(&value(i), &Value::Int(low), &Value::Int(high)))
    })
}

#[test]
fn ranges_are_those_of_plain_lists(rt: HostRuntime) -> Result<(), Fail> {
    let alloc = rt.alloc();
    for (width, kind) in [(Width::Int, Kind::Int), (Width::Big, Kind::Big)] {
        let mut store = MemoryPages::new(alloc, Vec::new(alloc));
        let mut hng = Hng {
            object: OBJECT,
            slots: 0,
            width,
        };
        let numbers = cells(alloc, kind, 0, 8070)?;
        put(&rt, alloc, &mut hng, &mut store, &numbers)?;
        for (low, high) in RANGES {
            let rows = ranged(&rt, alloc, &hng, &mut store, low, high)?;
            assert!(rt; rows.within.len() == hng.slots && is_set_between(&rows.within, low, high));
            assert!(rt;
                is_set_of(&rows.below, Op::Lt, low) && is_set_of(&rows.above, Op::Gt, high)
            );
        }
    }
    Ok(())
}

/// Ranges over the least number of 64 bits, 0, the greatest one and NULL, and how many rows are below, within and above.
const WIDE: [(i64, i64, [u32; 3]); 7] = [
    (i64::MIN, i64::MAX, [0, 3, 0]),
    (
        -9_223_372_036_854_775_807,
        9_223_372_036_854_775_806,
        [1, 1, 1],
    ),
    (i64::MAX, i64::MAX, [2, 1, 0]),
    (i64::MIN, i64::MIN, [0, 1, 2]),
    (1, i64::MAX, [2, 1, 0]),
    (-1, 0, [1, 1, 1]),
    (i64::MAX, i64::MIN, [2, 0, 2]),
];

#[test]
fn the_ends_of_64_bits_are_in_ranges(rt: HostRuntime) -> Result<(), Fail> {
    let alloc = rt.alloc();
    let mut store = MemoryPages::new(alloc, Vec::new(alloc));
    let mut hng = Hng {
        object: OBJECT,
        slots: 0,
        width: Width::Big,
    };
    let mut numbers = Cells::new(alloc, Kind::Big);
    numbers.push_null()?;
    for number in [i64::MIN, 0, i64::MAX] {
        numbers
            .push_number(number)
            .map_err(|_| "no number of the kind")?;
    }
    put(&rt, alloc, &mut hng, &mut store, &numbers)?;
    for (low, high, counts) in WIDE {
        let rows = ranged(&rt, alloc, &hng, &mut store, low, high)?;
        assert_eq!(rt;
            [rows.below.count(), rows.within.count(), rows.above.count()],
            counts
        );
    }
    Ok(())
}

/// The sum of the numbers of which a comparison is true, by the plain list.
fn plain_sum(slots: u32, op: Op, number: i64) -> i128 {
    let mut sum = 0_i128;
    for i in 0..slots {
        let value = value(i);
        if Side::True.has(comparison(op, &value, &Value::Int(number))) {
            sum = match value {
                Value::Int(number) => sum.saturating_add(i128::from(number)),
                Value::Null | Value::Text(_) => sum,
            };
        }
    }
    sum
}

/// The sum of the numbers of some rows, by the index.
fn sum(
    rt: &impl Abort,
    alloc: Global,
    hng: &Hng,
    store: &mut MemoryPages,
    rows: &Bitmap,
) -> Result<i128, PageFault> {
    assert!(rt; hng.has_room(0) && rows.len() == hng.slots);
    hng.sum(alloc, store, rows)
}

/// Whether the sums of the numbers below another one and above it are those of the plain list.
fn sums_agree(
    rt: &impl Abort,
    alloc: Global,
    hng: &Hng,
    store: &mut MemoryPages,
    number: i64,
) -> Result<bool, PageFault> {
    let rows = compared(rt, alloc, hng, store, number)?;
    let less = sum(rt, alloc, hng, store, &rows.less)?;
    let greater = sum(rt, alloc, hng, store, &rows.greater)?;
    Ok(
        less == plain_sum(hng.slots, Op::Lt, number)
            && greater == plain_sum(hng.slots, Op::Gt, number),
    )
}

#[test]
fn numbers_are_summed_as_plain_lists(rt: HostRuntime) -> Result<(), Fail> {
    let alloc = rt.alloc();
    for (width, kind) in [(Width::Int, Kind::Int), (Width::Big, Kind::Big)] {
        let mut store = MemoryPages::new(alloc, Vec::new(alloc));
        let mut hng = Hng {
            object: OBJECT,
            slots: 0,
            width,
        };
        let numbers = cells(alloc, kind, 0, 8070)?;
        put(&rt, alloc, &mut hng, &mut store, &numbers)?;
        for number in OTHERS {
            assert!(rt; sums_agree(&rt, alloc, &hng, &mut store, number)?);
        }
    }
    Ok(())
}

#[test]
fn a_plane_that_lacks_is_named(rt: HostRuntime) -> Result<(), Fail> {
    let alloc = rt.alloc();
    let mut store = MemoryPages::new(alloc, Vec::new(alloc));
    let long = Hng {
        object: OBJECT,
        slots: 9,
        width: Width::Int,
    };
    match compared(&rt, alloc, &long, &mut store, 1) {
        Err(PageFault::BadPage { object, page }) => assert_eq!(rt; (object, page), (OBJECT, 0)),
        Ok(_) | Err(_) => panic!(rt; "no bad page"),
    }
    Ok(())
}
