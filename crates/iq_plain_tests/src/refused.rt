//! The first refusals of statements.
ghost use Rattle.std.specs.Prelude.{IfOk};
ghost use Rattle.iq_plain_tables.specs.Plain.{HasFewParts};

use crate::made::{all_where, compare, four_rows, name, new_index, refuses, same, select, text};
use iq_ast::{Change, Item, Op, Statement, Write};
use iq_base::{FieldCause, IndexKind, Listed, Refusal, Value};
use iq_plain_refusals::{room_refusal, statement_refusal};
use std::alloc::Global;
use std::test::Fail;

#[test]
fn a_text_in_a_column_of_numbers_is_a_bad_row(rt: HostRuntime) -> Result<(), Fail> {
    let alloc = rt.alloc();
    let tables = four_rows(alloc)?;
    let mut row = Listed::new(alloc);
    row.push(text("1")?)?;
    row.push(Value::Null)?;
    let mut rows = Listed::new(alloc);
    rows.push(row)?;
    let insert = Statement::Write(Write::Insert {
        table: name("t")?,
        rows,
    });
    let found = statement_refusal(alloc, &insert, tables.as_slice())?;
    let bad = Refusal::BadRow {
        row: 1,
        field: 1,
        cause: FieldCause::NotNumber,
    };
    same(&rt, &found, &Some(bad))
}

#[test]
fn a_query_of_no_table_is_refused(rt: HostRuntime) -> Result<(), Fail> {
    let mut query = all_where(rt.alloc(), None)?;
    query.table = name("u")?;
    refuses(
        &rt,
        rt.alloc(),
        query,
        Refusal::NoTable { name: name("u")? },
    )
}

#[test]
fn a_name_that_is_no_column_is_refused(rt: HostRuntime) -> Result<(), Fail> {
    let query = all_where(rt.alloc(), Some(compare("c", Op::Eq, Value::Int(1))?))?;
    refuses(
        &rt,
        rt.alloc(),
        query,
        Refusal::NoColumn { name: name("c")? },
    )
}

#[test]
fn a_text_beside_numbers_is_refused(rt: HostRuntime) -> Result<(), Fail> {
    let query = all_where(rt.alloc(), Some(compare("a", Op::Eq, text("1")?)?))?;
    refuses(
        &rt,
        rt.alloc(),
        query,
        Refusal::TypeMismatch { column: name("a")? },
    )
}

#[test]
fn a_column_beside_a_count_is_refused(rt: HostRuntime) -> Result<(), Fail> {
    let mut items = Listed::new(rt.alloc());
    items.push(Item::CountAll)?;
    items.push(Item::Plain(name("b")?))?;
    let query = select(rt.alloc(), items, None)?;
    refuses(
        &rt,
        rt.alloc(),
        query,
        Refusal::NotGrouped { column: name("b")? },
    )
}

#[test]
fn a_good_query_is_not_refused(rt: HostRuntime) -> Result<(), Fail> {
    let query = all_where(rt.alloc(), Some(compare("a", Op::Eq, Value::Int(1))?))?;
    let tables = four_rows(rt.alloc())?;
    let found = statement_refusal(rt.alloc(), &Statement::Select(query), tables.as_slice())?;
    assert!(rt; found.is_none());
    Ok(())
}

/// UPDATE t SET b = a text of six letters, where five find room
fn long_update(alloc: Global) -> Result<Statement, Fail>
    ensures { IfOk result HasFewParts }
{
    let mut changes = Listed::new(alloc);
    changes.push(Change {
        column: name("b")?,
        value: text("abcdef")?,
    })?;
    Ok(Statement::Write(Write::Update {
        table: name("t")?,
        changes,
        cond: None,
    }))
}

#[test]
fn a_long_text_of_set_is_refused(rt: HostRuntime) -> Result<(), Fail> {
    let tables = four_rows(rt.alloc())?;
    let update = long_update(rt.alloc())?;
    let found = statement_refusal(rt.alloc(), &update, tables.as_slice())?;
    let column = name("b")?;
    same(&rt, &found, &Some(Refusal::TextTooLong { column }))
}

#[test]
fn a_long_text_of_set_is_no_want_of_room(rt: HostRuntime) -> Result<(), Fail> {
    let tables = four_rows(rt.alloc())?;
    let update = long_update(rt.alloc())?;
    assert!(rt; room_refusal(rt.alloc(), &update, tables.as_slice())?.is_none());
    Ok(())
}

#[test]
fn an_index_that_does_not_fit_is_refused_for_its_column(rt: HostRuntime) -> Result<(), Fail> {
    let tables = four_rows(rt.alloc())?;
    let unfit = Statement::Write(new_index(IndexKind::Hng, "b")?);
    assert!(rt; statement_refusal(rt.alloc(), &unfit, tables.as_slice())?.is_none());
    let found = room_refusal(rt.alloc(), &unfit, tables.as_slice())?;
    same(
        &rt,
        &found,
        &Some(Refusal::IndexUnfit { column: name("b")? }),
    )
}

#[test]
fn an_index_that_fits_is_not_refused(rt: HostRuntime) -> Result<(), Fail> {
    let tables = four_rows(rt.alloc())?;
    let low_fast = Statement::Write(new_index(IndexKind::Lf, "b")?);
    assert!(rt; room_refusal(rt.alloc(), &low_fast, tables.as_slice())?.is_none());
    Ok(())
}

#[test]
fn an_index_that_is_not_there_is_not_dropped(rt: HostRuntime) -> Result<(), Fail> {
    let tables = four_rows(rt.alloc())?;
    let drop = Statement::Write(Write::DropIndex {
        table: name("t")?,
        name: name("i")?,
    });
    let found = statement_refusal(rt.alloc(), &drop, tables.as_slice())?;
    same(&rt, &found, &Some(Refusal::NoIndex { name: name("i")? }))
}
