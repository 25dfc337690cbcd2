//! Columns around the numbers of distinct values at which codes become wider.
use crate::checks::same;
use crate::columns::{
    CODES, VALUES, chosen, differ, ints, name, numbers, push_numbers, put, scanned, sure, value_at,
    value_of, whole,
};
use iq_ast::{Op, Test};
use iq_base::{Kind, Value};
use iq_fp::{Fp, code_bytes};
use iq_pages::{MemoryPages, PageFault};
use iq_truth::Side;
use std::alloc::Global;
use std::process::Abort;

/// A column of NULL, of so many numbers from 0 on, of all of these once more, and of NULL.
fn filled(alloc: Global, store: &mut MemoryPages, count: i64) -> Result<Fp, PageFault> {
    let mut fp = Fp::empty(CODES, VALUES, Kind::Int);
    let null = ints(alloc, Kind::Int, &[None])?;
    let all = numbers(alloc, Kind::Int, 0, count)?;
    put(alloc, &mut fp, store, &null)?;
    put(alloc, &mut fp, store, &all)?;
    put(alloc, &mut fp, store, &all)?;
    put(alloc, &mut fp, store, &null)?;
    Ok(fp)
}

/// A row by itself and among all, and how many rows there are.
type Found = (Value, Option<Value>, usize);

fn row_of(alloc: Global, fp: &Fp, store: &mut MemoryPages, row: u32) -> Result<Found, PageFault> {
    let got = whole(alloc, fp, store)?;
    let alone = value_of(fp, store, row)?;
    Ok((alone, value_at(&got, row as usize), got.len()))
}

/// The first row and the last are NULL; the numbers stand between, each from 0 on, twice.
fn has_rows(
    rt: &impl Abort,
    alloc: Global,
    fp: &Fp,
    store: &mut MemoryPages,
    count: i64,
) -> Result<(), PageFault> {
    let end = fp.slots;
    let rows = [
        (0, None),
        (end.saturating_sub(1), None),
        (1, Some(0)),
        (end / 2, Some(0)),
        (end.saturating_sub(2), Some(count.saturating_sub(1))),
    ];
    for (row, number) in rows {
        let found = row_of(alloc, fp, store, row)?;
        let wanted = (value(number), Some(value(number)), end as usize);
        same(rt, &found, &wanted, row as usize);
    }
    Ok(())
}

fn value(number: Option<i64>) -> Value {
    match number {
        None => Value::Null,
        Some(number) => Value::Int(number),
    }
}

/// How many rows are at least a number, how many below it, and how many values those rows have.
fn found(
    alloc: Global,
    fp: &Fp,
    store: &mut MemoryPages,
    least: i64,
) -> Result<(u32, u32, usize), PageFault> {
    let test = Test::Compare {
        column: name()?,
        op: Op::Ge,
        value: Value::Int(least),
    };
    let found = scanned(alloc, fp, store, &test, Side::True)?;
    let others = scanned(alloc, fp, store, &test, Side::False)?;
    let values = chosen(alloc, fp, store, &found)?;
    Ok((found.count(), others.count(), values.len()))
}

/// So many numbers; how many distinct values with NULL, and how many bytes a code has.
const CASES: [(i64, u32, usize); 4] = [
    (255, 256, 1),
    (256, 257, 2),
    (65_535, 65_536, 2),
    (65_536, 65_537, 3),
];

fn comes_back(
    rt: &impl Abort,
    alloc: Global,
    case: &(i64, u32, usize),
    row: usize,
) -> Result<(), PageFault> {
    let (count, distinct, bytes) = *case;
    let mut store = sure(alloc);
    let fp = filled(alloc, &mut store, count)?;
    let form = (fp.distinct, code_bytes(fp.distinct));
    same(rt, &form, &(distinct, bytes), row);
    has_rows(rt, alloc, &fp, &mut store, count)?;
    let found = found(alloc, &fp, &mut store, count.saturating_sub(3))?;
    let below = distinct.saturating_mul(2).saturating_sub(8);
    same(rt, &found, &(6, below, 6), row);
    Ok(())
}

#[test]
fn values_come_back_in_each_form(rt: HostRuntime) -> Result<(), PageFault> {
    for (row, case) in CASES.iter().enumerate() {
        comes_back(&rt, rt.alloc(), case, row)?;
    }
    Ok(())
}

#[test]
fn one_statement_widens_codes_from_one_byte_to_three(rt: HostRuntime) -> Result<(), PageFault> {
    let mut store = sure(rt.alloc());
    let mut fp = Fp::empty(CODES, VALUES, Kind::Big);
    let mut want = ints(rt.alloc(), Kind::Big, &[Some(9), None, Some(9), Some(-1)])?;
    let more = numbers(rt.alloc(), Kind::Big, -1, 65_600)?;
    put(rt.alloc(), &mut fp, &mut store, &want)?;
    same(&rt, &code_bytes(fp.distinct), &1, 0);
    put(rt.alloc(), &mut fp, &mut store, &more)?;
    same(
        &rt,
        &(fp.distinct, code_bytes(fp.distinct)),
        &(65_602, 3),
        1,
    );
    push_numbers(&mut want, -1, 65_600)?;
    let got = whole(rt.alloc(), &fp, &mut store)?;
    same(&rt, &differ(&got, &want), &None, 2);
    Ok(())
}
