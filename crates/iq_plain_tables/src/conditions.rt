//! The truth of a condition on a row.
ghost use Rattle.std.specs.Prelude.{◌≡◌, map};
ghost use Rattle.std.specs.Option.{option_copied};
ghost use Rattle.iq_truth.specs.Tests.{test_truth, negated_where};
ghost use Rattle.iq_conditions.specs.Conditions.{cond_truth, all_truths, any_truth};
ghost use Rattle.iq_conditions.specs.Servers.{column_place};
ghost use Rattle.iq_statements.specs.Rows.{value_named, value_at, value_or_null, is_true, keeps};

use iq_ast::{Cond, Test};
use iq_base::{Column, Name, Value};
use iq_truth::{Truth, between, comparison, is_null, one_of};

/// Whether a condition is true of a row; without one every row is kept.
pub fn keeps(columns: &[Column], cond: &Option<Cond>, row: &[Value]) -> bool
    ensures { result ≡ keeps columns.now cond.now row.now }
{
    match cond {
        None => true,
        Some(cond) => is_true(truth(cond, columns, row)),
    }
}

fn is_true(truth: Truth) -> bool
    ensures { result ≡ is_true truth }
{
    truth == Truth::True
}

/// The truth of a condition on a row.
#[cycle(truths)]
pub fn truth(cond: &Cond, columns: &[Column], row: &[Value]) -> Truth
    ensures { result ≡ cond_truth (value_named columns.now row.now) cond.now }
{
    match cond {
        Cond::Test(test) => truth_of_test(test, columns, row),
        Cond::Not(inner) => truth(inner.get(), columns, row).not(),
        Cond::And(members) => all_of(members.as_slice(), columns, row),
        Cond::Or(members) => any_of(members.as_slice(), columns, row),
    }
}

/// AND of several conditions on a row.
#[cycle(truths)]
fn all_of(members: &[Cond], columns: &[Column], row: &[Value]) -> Truth
    ensures { result ≡ all_truths (map (cond_truth (value_named columns.now row.now)) members.now) }
{
    let mut all = Truth::True;
    for member in members {
        all = all.and(truth(member, columns, row));
    }
    all
}

/// OR of several conditions on a row.
#[cycle(truths)]
fn any_of(members: &[Cond], columns: &[Column], row: &[Value]) -> Truth
    ensures { result ≡ any_truth (map (cond_truth (value_named columns.now row.now)) members.now) }
{
    let mut any = Truth::False;
    for member in members {
        any = any.or(truth(member, columns, row));
    }
    any
}

/// What a test says of a row.
fn truth_of_test(test: &Test, columns: &[Column], row: &[Value]) -> Truth
    ensures { result ≡ test_truth (value_named columns.now row.now) test.now }
{
    match test {
        Test::Compare { column, op, value } => comparison(
            *op,
            &value_named(columns, row, column),
            value,
        ),
        Test::Columns { left, op, right } => comparison(
            *op,
            &value_named(columns, row, left),
            &value_named(columns, row, right),
        ),
        Test::Between {
            column,
            negated,
            low,
            high,
        } => {
            negated_where(
                *negated,
                between(&value_named(columns, row, column), low, high),
            )
        }
        Test::OneOf {
            column,
            negated,
            values,
        } => {
            negated_where(
                *negated,
                one_of(&value_named(columns, row, column), values.as_slice()),
            )
        }
        Test::Null { column, negated } => {
            negated_where(
                *negated,
                Truth::of(is_null(&value_named(columns, row, column))),
            )
        }
    }
}

/// A truth, or its negation where NOT stands in the test.
fn negated_where(negated: bool, truth: Truth) -> Truth
    ensures { result ≡ negated_where negated truth }
{
    if negated { truth.not() } else { truth }
}

/// The place of a column in its table, if there is one of this name.
pub fn column_place(columns: &[Column], name: &Name) -> Option<usize>
    ensures { result ≡ column_place columns.now name.now }
{
    columns.iter().position(|column| column.name == *name)
}

/// The value of a column in a row; NULL where there is none.
pub fn value_named(columns: &[Column], row: &[Value], name: &Name) -> Value
    ensures { result ≡ value_named columns.now row.now name.now }
{
    value_at(column_place(columns, name), row)
}

/// The value at a place of a row; NULL where there is none.
pub fn value_at(place: Option<usize>, row: &[Value]) -> Value
    ensures { result ≡ value_at place row.now }
{
    match place {
        None => Value::Null,
        Some(place) => value_or_null(row.get(place)),
    }
}

/// A value, or NULL where there is none.
fn value_or_null(value: Option<&Value>) -> Value
    ensures { result ≡ value_or_null (option_copied value.entry) }
{
    match value {
        None => Value::Null,
        Some(value) => value.again(),
    }
}
