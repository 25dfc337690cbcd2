//! Whether a value is wanted, or stands before or behind what is.
ghost use Rattle.std.specs.Prelude.{◌≡◌, ◌<◌, not, length};
ghost use Rattle.std.specs.Ordering.{is_lt, is_gt};
ghost use Rattle.iq_cells.specs.Packed.{value_at};
ghost use Rattle.iq_hg.specs.Bounds.{is_wanted, is_past, is_under, meets_low, meets_high};

use crate::wanted::Wanted;
use iq_ast::Bound;
use iq_base::Value;
use iq_cells::{Cells, value_order};
use iq_truth::truth_at;
use std::cmp::Ordering;

/// Whether value i of a column, which isn't NULL, is wanted. It makes no `Value` of the cell.
pub(crate) fn is_wanted(wanted: &Wanted<'_>, cells: &Cells, i: usize) -> bool
    requires { i < length cells.now.values }
    ensures { result ≡ is_wanted wanted.now (value_at i cells.now.values) }
{
    match wanted {
        Wanted::Between(low, high) => meets_low(low, cells, i) && meets_high(high, cells, i),
        Wanted::OnSide(test, side) => side.has(truth_at(test, cells, i)),
    }
}

/// Whether value i of a column stands behind all that is wanted.
pub(crate) fn is_past(wanted: &Wanted<'_>, cells: &Cells, i: usize) -> bool
    requires { i < length cells.now.values }
    ensures { result ≡ is_past wanted.now (value_at i cells.now.values) }
{
    match wanted {
        Wanted::Between(_, high) => !meets_high(high, cells, i),
        Wanted::OnSide(_, _) => false,
    }
}

fn meets_low(low: &Bound, cells: &Cells, i: usize) -> bool
    requires { i < length cells.now.values }
    ensures { result ≡ meets_low low.now (value_at i cells.now.values) }
{
    match low {
        Bound::Free => true,
        Bound::Incl(value) => !is_less(cells.compare_to(i, value)),
        Bound::Excl(value) => is_greater(cells.compare_to(i, value)),
    }
}

fn meets_high(high: &Bound, cells: &Cells, i: usize) -> bool
    requires { i < length cells.now.values }
    ensures { result ≡ meets_high high.now (value_at i cells.now.values) }
{
    match high {
        Bound::Free => true,
        Bound::Incl(value) => !is_greater(cells.compare_to(i, value)),
        Bound::Excl(value) => is_less(cells.compare_to(i, value)),
    }
}

/// Whether a value stands before that of a lower bound.
pub(crate) fn is_under(low: &Bound, value: &Value) -> bool
    ensures { result ≡ is_under low.now value.now }
{
    match low {
        Bound::Free => false,
        Bound::Incl(other) => is_less(value_order(value, other)),
        Bound::Excl(other) => is_less(value_order(value, other)),
    }
}

fn is_less(order: Ordering) -> bool
    ensures { result ≡ is_lt order }
{
    match order {
        Ordering::Less => true,
        Ordering::Equal => false,
        Ordering::Greater => false,
    }
}

fn is_greater(order: Ordering) -> bool
    ensures { result ≡ is_gt order }
{
    match order {
        Ordering::Less => false,
        Ordering::Equal => false,
        Ordering::Greater => true,
    }
}
