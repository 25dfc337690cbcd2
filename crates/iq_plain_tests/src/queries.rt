//! What queries answer.
use crate::made::{
    all_where, both, compare, either, four_rows, keeps, name, not_so, ordered, plans, select,
    tells, text, with_low_fast,
};
use iq_ast::{Cond, Item, Op, Test};
use iq_base::{Listed, Value};
use std::alloc::Global;
use std::test::Fail;

#[test]
fn without_a_condition_all_rows_are_kept(rt: HostRuntime) -> Result<(), Fail> {
    keeps(&rt, rt.alloc(), None, "1,x,;2,NULL,;NULL,y,;2,x,;")
}

#[test]
fn not_leaves_unknown_out(rt: HostRuntime) -> Result<(), Fail> {
    let cond = not_so(rt.alloc(), compare("a", Op::Eq, Value::Int(2))?)?;
    keeps(&rt, rt.alloc(), Some(cond), "1,x,;")
}

#[test]
fn or_keeps_what_one_of_its_members_keeps(rt: HostRuntime) -> Result<(), Fail> {
    let one = compare("a", Op::Eq, Value::Int(1))?;
    let cond = either(rt.alloc(), one, compare("b", Op::Eq, text("y")?)?)?;
    keeps(&rt, rt.alloc(), Some(cond), "1,x,;NULL,y,;")
}

#[test]
fn and_keeps_what_each_of_its_members_keeps(rt: HostRuntime) -> Result<(), Fail> {
    let one = compare("a", Op::Eq, Value::Int(2))?;
    let cond = both(rt.alloc(), one, compare("b", Op::Eq, text("x")?)?)?;
    keeps(&rt, rt.alloc(), Some(cond), "2,x,;")
}

fn numbers_of_a(alloc: Global) -> Result<Listed<Item>, Fail> {
    let mut items = Listed::new(alloc);
    items.push(Item::CountAll)?;
    items.push(Item::Count(name("a")?))?;
    items.push(Item::Sum(name("a")?))?;
    items.push(Item::Max(name("a")?))?;
    Ok(items)
}

#[test]
fn aggregates_leave_null_out(rt: HostRuntime) -> Result<(), Fail> {
    let query = select(rt.alloc(), numbers_of_a(rt.alloc())?, None)?;
    tells(
        &rt,
        rt.alloc(),
        &query,
        &four_rows(rt.alloc())?,
        "4,3,5,2,;",
    )
}

#[test]
fn aggregates_of_no_row_are_one_row(rt: HostRuntime) -> Result<(), Fail> {
    let never = compare("a", Op::Gt, Value::Int(9))?;
    let query = select(rt.alloc(), numbers_of_a(rt.alloc())?, Some(never))?;
    tells(
        &rt,
        rt.alloc(),
        &query,
        &four_rows(rt.alloc())?,
        "0,0,NULL,NULL,;",
    )
}

fn a_and_least_b(alloc: Global) -> Result<Listed<Item>, Fail> {
    let mut items = Listed::new(alloc);
    items.push(Item::Plain(name("a")?))?;
    items.push(Item::CountAll)?;
    items.push(Item::Min(name("b")?))?;
    Ok(items)
}

#[test]
fn groups_come_in_the_order_of_their_keys(rt: HostRuntime) -> Result<(), Fail> {
    let mut query = select(rt.alloc(), a_and_least_b(rt.alloc())?, None)?;
    query.group.push(name("a")?)?;
    let tables = four_rows(rt.alloc())?;
    tells(&rt, rt.alloc(), &query, &tables, "NULL,1,y,;1,1,x,;2,2,x,;")
}

#[test]
fn groups_are_ordered_as_asked(rt: HostRuntime) -> Result<(), Fail> {
    let mut query = select(rt.alloc(), a_and_least_b(rt.alloc())?, None)?;
    query.group.push(name("a")?)?;
    query.order = ordered(rt.alloc(), "a", true)?;
    let tables = four_rows(rt.alloc())?;
    tells(&rt, rt.alloc(), &query, &tables, "2,2,x,;1,1,x,;NULL,1,y,;")
}

#[test]
fn ascending_puts_null_first(rt: HostRuntime) -> Result<(), Fail> {
    let mut query = all_where(rt.alloc(), None)?;
    query.order = ordered(rt.alloc(), "a", false)?;
    let tables = four_rows(rt.alloc())?;
    tells(
        &rt,
        rt.alloc(),
        &query,
        &tables,
        "NULL,y,;1,x,;2,NULL,;2,x,;",
    )
}

#[test]
fn descending_puts_null_last_and_keeps_ties(rt: HostRuntime) -> Result<(), Fail> {
    let mut query = all_where(rt.alloc(), None)?;
    query.order = ordered(rt.alloc(), "a", true)?;
    let tables = four_rows(rt.alloc())?;
    tells(
        &rt,
        rt.alloc(),
        &query,
        &tables,
        "2,NULL,;2,x,;1,x,;NULL,y,;",
    )
}

#[test]
fn a_plan_without_a_condition_reads_all(rt: HostRuntime) -> Result<(), Fail> {
    plans(
        &rt,
        rt.alloc(),
        &four_rows(rt.alloc())?,
        None,
        "all via existence;",
    )
}

#[test]
fn a_plan_carries_not_and_names_what_serves(rt: HostRuntime) -> Result<(), Fail> {
    let null_b = Cond::Test(Test::Null {
        column: name("b")?,
        negated: false,
    });
    let one = either(rt.alloc(), compare("a", Op::Eq, Value::Int(2))?, null_b)?;
    let cond = Some(not_so(rt.alloc(), one)?);
    let tables = with_low_fast(rt.alloc())?;
    plans(
        &rt,
        rt.alloc(),
        &tables,
        cond,
        "a <> 2 via LF i;b IS NOT NULL via FP;",
    )
}

#[test]
fn a_plan_of_between_null_is_two_comparisons(rt: HostRuntime) -> Result<(), Fail> {
    let cond = Some(Cond::Test(Test::Between {
        column: name("a")?,
        negated: false,
        low: Value::Null,
        high: Value::Int(5),
    }));
    let tables = with_low_fast(rt.alloc())?;
    plans(
        &rt,
        rt.alloc(),
        &tables,
        cond,
        "a >= NULL via none;a <= 5 via LF i;",
    )
}

#[test]
fn a_plan_of_in_leaves_its_nulls_out(rt: HostRuntime) -> Result<(), Fail> {
    let mut values = Listed::new(rt.alloc());
    values.push(text("it's")?)?;
    values.push(Value::Null)?;
    let cond = Some(Cond::Test(Test::OneOf {
        column: name("b")?,
        negated: false,
        values,
    }));
    let tables = with_low_fast(rt.alloc())?;
    plans(&rt, rt.alloc(), &tables, cond, "b IN ('it''s') via FP;")
}
