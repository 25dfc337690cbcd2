//! What a test of one column says of a value of it.
ghost use Rattle.std.specs.Prelude.{◌≡◌, ◌<◌, length};
ghost use Rattle.iq_cells.specs.Packed.{value_at};
ghost use Rattle.iq_truth.specs.Comparisons.{comparison, between, one_of, is_null};
ghost use Rattle.iq_truth.specs.Tests.{negated_where, truth_on};

use crate::comparing::{between, compared, comparison, is_null, one_of};
use crate::truth::Truth;
use iq_ast::{Op, Test};
use iq_base::Value;
use iq_cells::Cells;

/// What a test says of a value of its column. A test of two columns is taken as one of a column with itself.
pub fn truth_on(test: &Test, value: &Value) -> Truth
    ensures { result ≡ truth_on value.now test.now }
{
    match test {
        Test::Compare {
            column: _,
            op,
            value: other,
        } => comparison(*op, value, other),
        Test::Columns {
            left: _,
            op,
            right: _,
        } => comparison(*op, value, value),
        Test::Between {
            column: _,
            negated,
            low,
            high,
        } => negated_where(*negated, between(value, low, high)),
        Test::OneOf {
            column: _,
            negated,
            values,
        } => negated_where(*negated, one_of(value, values.as_slice())),
        Test::Null { column: _, negated } => negated_where(*negated, Truth::of(is_null(value))),
    }
}

/// A truth, or its negation.
fn negated_where(negated: bool, truth: Truth) -> Truth
    ensures { result ≡ negated_where negated truth }
{
    if negated { truth.not() } else { truth }
}

/// What a test says of a value of a column that lies in memory as cells. It makes no `Value` of the cell, and compares it at
/// most once for each value that the test names. A test of two columns is taken as one of the column with itself.
pub fn truth_at(test: &Test, cells: &Cells, i: usize) -> Truth
    requires { i < length cells.now.values }
    ensures { result ≡ truth_on (value_at i cells.now.values) test.now }
{
    match test {
        Test::Compare {
            column: _,
            op,
            value,
        } => comparison_at(*op, cells, i, value),
        Test::Columns {
            left: _,
            op,
            right: _,
        } => comparison_of(*op, cells, i, cells, i),
        Test::Between {
            column: _,
            negated,
            low,
            high,
        } => negated_where(*negated, between_at(cells, i, low, high)),
        Test::OneOf {
            column: _,
            negated,
            values,
        } => negated_where(*negated, one_of_at(cells, i, values.as_slice())),
        Test::Null { column: _, negated } => negated_where(
            *negated,
            Truth::of(is_null_at(cells, i)),
        ),
    }
}

/// What a comparison of a value of a column with a value says.
pub fn comparison_at(op: Op, cells: &Cells, i: usize, value: &Value) -> Truth
    requires { i < length cells.now.values }
    ensures { result ≡ comparison op (value_at i cells.now.values) value.now }
{
    if is_null_at(cells, i) || is_null(value) {
        Truth::Unknown
    } else {
        Truth::of(compared(op, cells.compare_to(i, value)))
    }
}

/// What a comparison of values of two columns says, whatever their kinds.
pub fn comparison_of(op: Op, left: &Cells, i: usize, right: &Cells, j: usize) -> Truth
    requires left { i < length left.now.values }
    requires right { j < length right.now.values }
    ensures { result ≡ comparison op (value_at i left.now.values) (value_at j right.now.values) }
{
    if is_null_at(left, i) || is_null_at(right, j) {
        Truth::Unknown
    } else {
        Truth::of(compared(op, left.compare(i, right, j)))
    }
}

fn between_at(cells: &Cells, i: usize, low: &Value, high: &Value) -> Truth
    requires { i < length cells.now.values }
    ensures { result ≡ between (value_at i cells.now.values) low.now high.now }
{
    comparison_at(Op::Ge, cells, i, low).and(comparison_at(Op::Le, cells, i, high))
}

fn one_of_at(cells: &Cells, i: usize, values: &[Value]) -> Truth
    requires { i < length cells.now.values }
    ensures { result ≡ one_of (value_at i cells.now.values) values.now }
{
    let mut truth = Truth::False;
    for value in values {
        truth = truth.or(comparison_at(Op::Eq, cells, i, value));
    }
    truth
}

/// Whether a value of a column is NULL.
fn is_null_at(cells: &Cells, i: usize) -> bool
    requires { i < length cells.now.values }
    ensures { result ≡ is_null (value_at i cells.now.values) }
{
    cells.is_null(i)
}
