//! A table, and statements on it, built by hand; answers as texts.
ghost use Rattle.std.specs.Prelude.{◌<◌, length, IfOk};
ghost use Rattle.iq_statements.specs.Statements.{HasWriteMeaning};
ghost use Rattle.iq_plain_tables.specs.Plain.{HasFewWriteParts};

use iq_ast::{Cond, Item, Op, Order, Select, Statement, Test, Write};
use iq_base::{Column, IndexKind, Kind, Letters, Listed, Name, Refusal, Schema, Text, Value};
use iq_model::{Answer, AnswerRows, Out};
use iq_plain_answers::answer;
use iq_plain_refusals::statement_refusal;
use iq_plain_tables::{PlainTable, PlainTables, tables_after};
use sqlite_items::{Boxed, Items};
use std::alloc::Global;
use std::fmt::Debug;
use std::process::Abort;
use std::test::Fail;

pub fn name(text: &str) -> Result<Name, Fail> {
    Ok(Name::of(text).ok_or("a name")?)
}

pub fn text(text: &str) -> Result<Value, Fail> {
    Ok(Value::Text(Text::of(text).ok_or("a text")?))
}

fn column(text: &str, kind: Kind) -> Result<Column, Fail> {
    Ok(Column {
        name: name(text)?,
        kind,
        null: true,
    })
}

/// CREATE TABLE t (a INT, b VARCHAR(5))
pub fn empty_table(alloc: Global) -> Result<PlainTables, Fail> {
    let mut columns = Listed::new(alloc);
    columns.push(column("a", Kind::Int)?)?;
    columns.push(column("b", Kind::Varchar(5))?)?;
    let create = Statement::Write(Write::CreateTable {
        name: name("t")?,
        schema: Schema { columns },
    });
    let none = Listed::new(alloc);
    Ok(tables_after(alloc, &create, none.as_slice())?)
}

/// INSERT INTO t VALUES (a, b)
pub fn with_row(
    alloc: Global,
    tables: &PlainTables,
    a: Value,
    b: Value,
) -> Result<PlainTables, Fail> {
    let mut row = Listed::new(alloc);
    row.push(a)?;
    row.push(b)?;
    let mut rows = Listed::new(alloc);
    rows.push(row)?;
    let insert = Statement::Write(Write::Insert {
        table: name("t")?,
        rows,
    });
    Ok(tables_after(alloc, &insert, tables.as_slice())?)
}

/// The table with the rows (1, 'x'), (2, NULL), (NULL, 'y') and (2, 'x').
pub fn four_rows(alloc: Global) -> Result<PlainTables, Fail> {
    let tables = empty_table(alloc)?;
    let tables = with_row(alloc, &tables, Value::Int(1), text("x")?)?;
    let tables = with_row(alloc, &tables, Value::Int(2), Value::Null)?;
    let tables = with_row(alloc, &tables, Value::Null, text("y")?)?;
    with_row(alloc, &tables, Value::Int(2), text("x")?)
}

/// CREATE kind INDEX i ON t (column)
pub fn new_index(kind: IndexKind, column: &str) -> Result<Write, Fail>
    ensures meaning { IfOk result HasWriteMeaning }
    ensures few { IfOk result HasFewWriteParts }
{
    Ok(Write::CreateIndex {
        name: name("i")?,
        kind,
        table: name("t")?,
        column: name(column)?,
        second: None,
    })
}

pub fn compare(column: &str, op: Op, value: Value) -> Result<Cond, Fail> {
    Ok(Cond::Test(Test::Compare {
        column: name(column)?,
        op,
        value,
    }))
}

pub fn not_so(alloc: Global, cond: Cond) -> Result<Cond, Fail> {
    Ok(Cond::Not(Boxed::new(alloc, cond)?))
}

pub fn both(alloc: Global, one: Cond, other: Cond) -> Result<Cond, Fail> {
    Ok(Cond::And(two(alloc, one, other)?))
}

pub fn either(alloc: Global, one: Cond, other: Cond) -> Result<Cond, Fail> {
    Ok(Cond::Or(two(alloc, one, other)?))
}

fn two(alloc: Global, one: Cond, other: Cond) -> Result<Items<Cond>, Fail> {
    let mut members = Items::new(alloc);
    members.push(one)?;
    members.push(other)?;
    Ok(members)
}

/// SELECT items FROM t
pub fn select(alloc: Global, items: Listed<Item>, cond: Option<Cond>) -> Result<Select, Fail> {
    Ok(Select {
        explain: false,
        items,
        table: name("t")?,
        cond,
        group: Listed::new(alloc),
        order: Listed::new(alloc),
    })
}

/// SELECT * FROM t WHERE cond
pub fn all_where(alloc: Global, cond: Option<Cond>) -> Result<Select, Fail> {
    select(alloc, Listed::new(alloc), cond)
}

/// ORDER BY column
pub fn ordered(alloc: Global, column: &str, desc: bool) -> Result<Listed<Order>, Fail> {
    let mut orders = Listed::new(alloc);
    orders.push(Order {
        column: name(column)?,
        desc,
    })?;
    Ok(orders)
}

/// The answer of a query as a text: a comma behind each value and a semicolon behind each row.
pub fn told(alloc: Global, select: &Select, tables: &[PlainTable]) -> Result<String, Fail> {
    match answer(alloc, select, tables)? {
        Answer::Rows(rows) => rows_text(alloc, &rows),
        Answer::Plan(texts) => plan_text(alloc, texts.as_slice()),
    }
}

fn rows_text(alloc: Global, rows: &AnswerRows) -> Result<String, Fail> {
    let mut out = String::new(alloc);
    for r in 0..rows.len() {
        push_row(&mut out, rows, r)?;
        out.push_str(";")?;
    }
    Ok(out)
}

fn push_row(out: &mut String, rows: &AnswerRows, r: usize) -> Result<(), Fail>
    requires { r < length rows.now }
{
    for c in 0..rows.width(r) {
        match rows.get(r, c) {
            Out::Null => out.push_str("NULL,")?,
            Out::Int(number) => write!(out, "{number},")?,
            Out::Text(text) => {
                out.push_str(text.as_str())?;
                out.push_str(",")?;
            }
        }
    }
    Ok(())
}

fn plan_text(alloc: Global, texts: &[Letters]) -> Result<String, Fail> {
    let mut out = String::new(alloc);
    for text in texts {
        out.push_str(text.as_str())?;
        out.push_str(";")?;
    }
    Ok(out)
}

/// Compares what a query answers with a text.
pub fn tells<R: Abort + AllocGlobal>(
    rt: &R,
    alloc: Global,
    select: &Select,
    tables: &PlainTables,
    want: &str,
) -> Result<(), Fail> {
    let got = told(alloc, select, tables.as_slice())?;
    assert_eq!(rt; got.as_str(), want);
    Ok(())
}

/// Compares what SELECT * FROM t WHERE cond answers over the four rows with a text.
pub fn keeps<R: Abort + AllocGlobal>(
    rt: &R,
    alloc: Global,
    cond: Option<Cond>,
    want: &str,
) -> Result<(), Fail> {
    let tables = four_rows(alloc)?;
    tells(rt, alloc, &all_where(alloc, cond)?, &tables, want)
}

/// Compares the plan of SELECT * FROM t WHERE cond with a text.
pub fn plans<R: Abort + AllocGlobal>(
    rt: &R,
    alloc: Global,
    tables: &PlainTables,
    cond: Option<Cond>,
    want: &str,
) -> Result<(), Fail> {
    let mut query = all_where(alloc, cond)?;
    query.explain = true;
    tells(rt, alloc, &query, tables, want)
}

/// The table with the four rows and a Low Fast index i on a.
pub fn with_low_fast(alloc: Global) -> Result<PlainTables, Fail> {
    let tables = four_rows(alloc)?;
    let index = Statement::Write(new_index(IndexKind::Lf, "a")?);
    Ok(tables_after(alloc, &index, tables.as_slice())?)
}

/// The first refusal of a query over the four rows, as it shows.
pub fn refuses<R: Abort + AllocGlobal>(
    rt: &R,
    alloc: Global,
    query: Select,
    want: Refusal,
) -> Result<(), Fail> {
    let tables = four_rows(alloc)?;
    let found = statement_refusal(alloc, &Statement::Select(query), tables.as_slice())?;
    same(rt, &found, &Some(want))
}

/// Compares two values by what they show.
pub fn same<R: Abort + AllocGlobal, T: Debug>(rt: &R, got: &T, want: &T) -> Result<(), Fail> {
    let got = format!(in rt.alloc(); "{got:?}")?;
    let want = format!(in rt.alloc(); "{want:?}")?;
    assert_eq!(rt; got.as_str(), want.as_str());
    Ok(())
}
