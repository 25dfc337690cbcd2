//! Comparisons of values.
ghost use Rattle.std.specs.Prelude.{◌≡◌};
ghost use Rattle.iq_truth.specs.Comparisons.{compared, comparison, between, one_of, is_null};

use crate::truth::Truth;
use iq_ast::Op;
use iq_base::Value;
use iq_cells::value_order;
use std::cmp::Ordering;

/// Whether an operator holds of two values that stand to each other in this order.
pub fn compared(op: Op, order: Ordering) -> bool
    ensures { result ≡ compared op order }
{
    match op {
        Op::Eq => order == Ordering::Equal,
        Op::Ne => order != Ordering::Equal,
        Op::Lt => order == Ordering::Less,
        Op::Le => order != Ordering::Greater,
        Op::Gt => order == Ordering::Greater,
        Op::Ge => order != Ordering::Less,
    }
}

/// Whether a value is NULL.
pub fn is_null(value: &Value) -> bool
    ensures { result ≡ is_null value.now }
{
    match value {
        Value::Null => true,
        Value::Int(_) | Value::Text(_) => false,
    }
}

/// What a comparison of two values says: unknown where one is NULL, else true or false by number or by bytes.
pub fn comparison(op: Op, a: &Value, b: &Value) -> Truth
    ensures { result ≡ comparison op a.now b.now }
{
    if is_null(a) || is_null(b) {
        Truth::Unknown
    } else {
        Truth::of(compared(op, value_order(a, b)))
    }
}

/// What BETWEEN says: at least `low`, and at most `high`.
pub fn between(value: &Value, low: &Value, high: &Value) -> Truth
    ensures { result ≡ between value.now low.now high.now }
{
    comparison(Op::Ge, value, low).and(comparison(Op::Le, value, high))
}

/// What IN says: equal to one of the values. It compares with each of them.
pub fn one_of(value: &Value, values: &[Value]) -> Truth
    ensures { result ≡ one_of value.now values.now }
{
    let mut truth = Truth::False;
    for other in values {
        truth = truth.or(comparison(Op::Eq, value, other));
    }
    truth
}
