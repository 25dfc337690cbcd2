//! Each test of a row on values and NULL, both sides, beside a plain evaluation row by row.
use crate::checks::same;
use crate::columns::{CODES, NO_CALL, VALUES, column, ints, name, scanned, sure};
use iq_ast::{Op, Test};
use iq_base::{Kind, Listed, Value};
use iq_fp::Fp;
use iq_pages::{MemoryPages, PageFault};
use iq_truth::{Side, Truth, negated, truth_on};
use std::alloc::Global;
use std::process::Abort;

const OPS: [Op; 6] = [Op::Eq, Op::Ne, Op::Lt, Op::Le, Op::Gt, Op::Ge];

const ROWS: [Option<i64>; 9] = [
    None,
    Some(3),
    Some(-7),
    None,
    Some(0),
    Some(3),
    Some(2_147_483_647),
    Some(-2_147_483_648),
    Some(4),
];

const LITERALS: [Option<i64>; 5] = [None, Some(3), Some(-8), Some(0), Some(9_000_000_000)];

// Whether the operator holds of two numbers.
fn holds(op: Op, a: i64, b: i64) -> bool {
    match op {
        Op::Eq => a == b,
        Op::Ne => a != b,
        Op::Lt => a < b,
        Op::Le => a <= b,
        Op::Gt => a > b,
        Op::Ge => a >= b,
    }
}

// What a comparison of two numbers or NULL says: None for unknown.
fn compared(op: Op, a: Option<i64>, b: Option<i64>) -> Option<bool> {
    match (a, b) {
        (Some(a), Some(b)) => Some(holds(op, a, b)),
        (Some(_), None) | (None, Some(_)) | (None, None) => None,
    }
}

fn not(a: Option<bool>) -> Option<bool> {
    match a {
        Some(a) => Some(!a),
        None => None,
    }
}

// AND and OR, from the table of nine that SQL gives.
fn and(a: Option<bool>, b: Option<bool>) -> Option<bool> {
    match (a, b) {
        (Some(false), _) | (_, Some(false)) => Some(false),
        (Some(true), Some(true)) => Some(true),
        (None, _) | (_, None) => None,
    }
}

fn or(a: Option<bool>, b: Option<bool>) -> Option<bool> {
    not(and(not(a), not(b)))
}

fn value(number: Option<i64>) -> Value {
    match number {
        Some(number) => Value::Int(number),
        None => Value::Null,
    }
}

/// What is said of each row.
type Said = [Option<bool>; 9];

/// A column of the rows, and its pages.
#[derive(Drop)]
struct Made {
    fp: Fp,
    store: MemoryPages,
}

fn of_rows(alloc: Global) -> Result<Made, PageFault> {
    let mut store = sure(alloc);
    let cells = ints(alloc, Kind::Int, &ROWS)?;
    let fp = column(alloc, &mut store, (CODES, VALUES), &cells)?;
    Ok(Made { fp, store })
}

/// Which rows a scan finds.
fn on_side(
    alloc: Global,
    made: &mut Made,
    test: &Test,
    side: Side,
) -> Result<[bool; 9], PageFault> {
    let found = scanned(alloc, &made.fp, &mut made.store, test, side)?;
    if found.len() != 9 {
        return Err(NO_CALL);
    }
    let mut rows = [false; 9];
    for i in 0..9 {
        rows[i] = found.get(i as u32);
    }
    Ok(rows)
}

/// What a scan of each side says of each row; a row may be on one side alone.
fn on_sides(alloc: Global, made: &mut Made, test: &Test) -> Result<Said, PageFault> {
    let on = on_side(alloc, made, test, Side::True)?;
    let off = on_side(alloc, made, test, Side::False)?;
    let mut rows = [None; 9];
    for i in 0..9 {
        rows[i] = match (on[i], off[i]) {
            (true, false) => Some(true),
            (false, true) => Some(false),
            (false, false) => None,
            (true, true) => return Err(NO_CALL),
        };
    }
    Ok(rows)
}

/// What the test says of each row's value.
fn spoken(test: &Test) -> Said {
    let mut rows = [None; 9];
    for i in 0..9 {
        rows[i] = match truth_on(test, &value(ROWS[i])) {
            Truth::True => Some(true),
            Truth::False => Some(false),
            Truth::Unknown => None,
        };
    }
    rows
}

/// Asserts what a test says of each row, and both sides of it and of its negation.
fn says(
    rt: &impl Abort,
    alloc: Global,
    made: &mut Made,
    test: Test,
    want: &Said,
) -> Result<(), PageFault> {
    same(rt, &spoken(&test), want, 0);
    same(rt, &on_sides(alloc, made, &test)?, want, 1);
    let test = negated(test);
    let mut other = *want;
    for row in other.iter_mut() {
        *row = not(*row);
    }
    same(rt, &on_sides(alloc, made, &test)?, &other, 2);
    Ok(())
}

fn comparison(op: Op, literal: Option<i64>) -> Result<Test, PageFault> {
    Ok(Test::Compare {
        column: name()?,
        op,
        value: value(literal),
    })
}

#[test]
fn a_comparison_with_a_value(rt: HostRuntime) -> Result<(), PageFault> {
    let mut made = of_rows(rt.alloc())?;
    for op in OPS {
        for literal in LITERALS {
            let mut want = [None; 9];
            for i in 0..9 {
                want[i] = compared(op, ROWS[i], literal);
            }
            says(&rt, rt.alloc(), &mut made, comparison(op, literal)?, &want)?;
        }
    }
    Ok(())
}

/// A range, and what it says of each row.
fn range(low: Option<i64>, high: Option<i64>) -> Result<(Test, Said), PageFault> {
    let test = Test::Between {
        column: name()?,
        negated: false,
        low: value(low),
        high: value(high),
    };
    let mut want = [None; 9];
    for i in 0..9 {
        want[i] = and(
            compared(Op::Ge, ROWS[i], low),
            compared(Op::Le, ROWS[i], high),
        );
    }
    Ok((test, want))
}

/// NOT IN of two values, and what it says of each row.
fn list(alloc: Global, first: Option<i64>, second: Option<i64>) -> Result<(Test, Said), PageFault> {
    let mut values = Listed::new(alloc);
    values.push(value(first))?;
    values.push(value(second))?;
    let test = Test::OneOf {
        column: name()?,
        negated: true,
        values,
    };
    let mut want = [None; 9];
    for i in 0..9 {
        want[i] = not(or(
            compared(Op::Eq, ROWS[i], first),
            compared(Op::Eq, ROWS[i], second),
        ));
    }
    Ok((test, want))
}

#[test]
fn a_range_and_a_list(rt: HostRuntime) -> Result<(), PageFault> {
    let mut made = of_rows(rt.alloc())?;
    for low in LITERALS {
        for high in LITERALS {
            let (test, want) = range(low, high)?;
            says(&rt, rt.alloc(), &mut made, test, &want)?;
            let (test, want) = list(rt.alloc(), low, high)?;
            says(&rt, rt.alloc(), &mut made, test, &want)?;
        }
    }
    Ok(())
}

#[test]
fn null_and_a_list_of_nothing(rt: HostRuntime) -> Result<(), PageFault> {
    let mut made = of_rows(rt.alloc())?;
    let mut null = [None; 9];
    for i in 0..9 {
        null[i] = Some(ROWS[i].is_none());
    }
    let is_null = Test::Null {
        column: name()?,
        negated: false,
    };
    let none = Test::OneOf {
        column: name()?,
        negated: false,
        values: Listed::new(rt.alloc()),
    };
    says(&rt, rt.alloc(), &mut made, is_null, &null)?;
    says(&rt, rt.alloc(), &mut made, none, &[Some(false); 9])
}
