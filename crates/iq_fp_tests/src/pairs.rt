//! Comparisons of two columns, of kinds that differ in width.
use crate::checks::same;
use crate::columns::{column, ints, paired, sure, texts};
use iq_ast::Op;
use iq_base::Kind;
use iq_bitmap::Bitmap;
use iq_fp::Fp;
use iq_pages::{MemoryPages, PageFault};
use iq_truth::Side;
use std::alloc::Global;

/// A column of INT and one of BIGINT.
fn numbers(alloc: Global, store: &mut MemoryPages) -> Result<(Fp, Fp), PageFault> {
    let left = [Some(1), Some(-1), None, Some(5), None, Some(2)];
    let right = [Some(1), Some(9_000_000_000), Some(0), None, None, Some(-3)];
    let left = ints(alloc, Kind::Int, &left)?;
    let right = ints(alloc, Kind::Big, &right)?;
    let left = column(alloc, store, (1, 2), &left)?;
    Ok((left, column(alloc, store, (3, 4), &right)?))
}

/// A column of short texts and one of longer ones.
fn words(alloc: Global, store: &mut MemoryPages) -> Result<(Fp, Fp), PageFault> {
    let left = [Some("a"), Some("b"), None, Some(""), None, Some("zz")];
    let right = [Some("a"), Some("bcd"), Some(""), None, None, Some("z")];
    let left = texts(alloc, Kind::Varchar(2), &left)?;
    let right = texts(alloc, Kind::Varchar(9), &right)?;
    let left = column(alloc, store, (5, 6), &left)?;
    Ok((left, column(alloc, store, (7, 8), &right)?))
}

/// Row 0 is equal, row 1 less, row 5 greater; in the others a value is NULL.
const CASES: [(Op, &[u32], &[u32]); 6] = [
    (Op::Eq, &[0], &[1, 5]),
    (Op::Ne, &[1, 5], &[0]),
    (Op::Lt, &[1], &[0, 5]),
    (Op::Le, &[0, 1], &[5]),
    (Op::Gt, &[5], &[0, 1]),
    (Op::Ge, &[0, 5], &[1]),
];

/// Whether the rows of a bitmap that are set are these.
fn has_rows(found: &Bitmap, rows: &[u32]) -> bool {
    let mut rest = rows.iter();
    for row in found.rows() {
        if rest.next() != Some(&row) {
            return false;
        }
    }
    rest.next().is_none()
}

/// Whether a comparison finds these rows on one side, and those on the other.
fn finds(
    alloc: Global,
    store: &mut MemoryPages,
    columns: &(Fp, Fp),
    case: &(Op, &[u32], &[u32]),
) -> Result<(bool, bool), PageFault> {
    let (op, on, off) = *case;
    let (left, right) = columns;
    let found = paired(alloc, left, store, op, right, Side::True)?;
    let others = paired(alloc, left, store, op, right, Side::False)?;
    Ok((has_rows(&found, on), has_rows(&others, off)))
}

#[test]
fn two_columns_are_compared_row_by_row(rt: HostRuntime) -> Result<(), PageFault> {
    let mut store = sure(rt.alloc());
    let numbers = numbers(rt.alloc(), &mut store)?;
    let words = words(rt.alloc(), &mut store)?;
    for (row, case) in CASES.iter().enumerate() {
        let found = finds(rt.alloc(), &mut store, &numbers, case)?;
        same(&rt, &found, &(true, true), row);
        let found = finds(rt.alloc(), &mut store, &words, case)?;
        same(&rt, &found, &(true, true), row);
    }
    Ok(())
}
