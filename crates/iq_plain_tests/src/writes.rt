//! What writes leave, lock and create.
use crate::made::{
    all_where, compare, empty_table, four_rows, name, same, tells, text, with_low_fast,
};
use iq_ast::{Change, Op, Statement, Write};
use iq_base::{Listed, Locks, Value};
use iq_plain_tables::{copied_tables, count, creates, locks, table_of, tables_after, with_seen};
use std::test::Fail;

#[test]
fn delete_removes_the_rows_of_which_its_condition_is_true(rt: HostRuntime) -> Result<(), Fail> {
    let tables = four_rows(rt.alloc())?;
    let write = Write::Delete {
        table: name("t")?,
        cond: Some(compare("a", Op::Eq, Value::Int(2))?),
    };
    assert_eq!(rt; count(&write, tables.as_slice()), 2);
    let after = tables_after(rt.alloc(), &Statement::Write(write), tables.as_slice())?;
    tells(
        &rt,
        rt.alloc(),
        &all_where(rt.alloc(), None)?,
        &after,
        "1,x,;NULL,y,;",
    )
}

#[test]
fn delete_without_a_condition_removes_all(rt: HostRuntime) -> Result<(), Fail> {
    let tables = four_rows(rt.alloc())?;
    let write = Write::Delete {
        table: name("t")?,
        cond: None,
    };
    assert_eq!(rt; count(&write, tables.as_slice()), 4);
    let after = tables_after(rt.alloc(), &Statement::Write(write), tables.as_slice())?;
    tells(&rt, rt.alloc(), &all_where(rt.alloc(), None)?, &after, "")
}

fn set_b() -> Result<Change, Fail> {
    Ok(Change {
        column: name("b")?,
        value: text("z")?,
    })
}

#[test]
fn update_puts_new_forms_at_the_end(rt: HostRuntime) -> Result<(), Fail> {
    let tables = four_rows(rt.alloc())?;
    let mut changes = Listed::new(rt.alloc());
    changes.push(set_b()?)?;
    let write = Write::Update {
        table: name("t")?,
        changes,
        cond: Some(compare("a", Op::Eq, Value::Int(1))?),
    };
    assert_eq!(rt; count(&write, tables.as_slice()), 1);
    let after = tables_after(rt.alloc(), &Statement::Write(write), tables.as_slice())?;
    let all = all_where(rt.alloc(), None)?;
    tells(&rt, rt.alloc(), &all, &after, "2,NULL,;NULL,y,;2,x,;1,z,;")
}

#[test]
fn an_index_comes_and_goes(rt: HostRuntime) -> Result<(), Fail> {
    let with = with_low_fast(rt.alloc())?;
    let drop = Statement::Write(Write::DropIndex {
        table: name("t")?,
        name: name("i")?,
    });
    let back = tables_after(rt.alloc(), &drop, with.as_slice())?;
    same(&rt, &back, &four_rows(rt.alloc())?)
}

#[test]
fn a_table_goes(rt: HostRuntime) -> Result<(), Fail> {
    let tables = four_rows(rt.alloc())?;
    let drop = Statement::Write(Write::DropTable { name: name("t")? });
    let none = tables_after(rt.alloc(), &drop, tables.as_slice())?;
    assert!(rt; none.is_empty());
    assert!(rt; table_of(none.as_slice(), &name("t")?).is_none());
    Ok(())
}

#[test]
fn commit_leaves_the_tables_as_they_are(rt: HostRuntime) -> Result<(), Fail> {
    let tables = four_rows(rt.alloc())?;
    let after = tables_after(rt.alloc(), &Statement::Commit, tables.as_slice())?;
    same(&rt, &after, &tables)
}

#[test]
fn drop_table_locks_the_catalog_and_the_table(rt: HostRuntime) -> Result<(), Fail> {
    let drop = Statement::Write(Write::DropTable { name: name("t")? });
    same(&rt, &locks(&drop), &Locks::of(true, Some(name("t")?)))?;
    same(&rt, &locks(&Statement::Commit), &Locks::of(false, None))?;
    assert!(rt; creates(&drop).is_none());
    Ok(())
}

#[test]
fn a_table_is_put_over_as_it_is_seen(rt: HostRuntime) -> Result<(), Fail> {
    let full = four_rows(rt.alloc())?;
    let empty = empty_table(rt.alloc())?;
    let seen = with_seen(rt.alloc(), full.as_slice(), empty.as_slice(), &name("t")?)?;
    same(&rt, &seen, &full)
}

#[test]
fn a_table_that_is_not_seen_is_left_out(rt: HostRuntime) -> Result<(), Fail> {
    let full = four_rows(rt.alloc())?;
    let none = Listed::new(rt.alloc());
    let unseen = with_seen(rt.alloc(), none.as_slice(), full.as_slice(), &name("t")?)?;
    assert!(rt; unseen.is_empty());
    same(&rt, &copied_tables(rt.alloc(), full.as_slice())?, &full)
}
