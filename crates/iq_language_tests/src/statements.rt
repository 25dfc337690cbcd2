//! Texts and what they spell.
use iq_ast::{Statement, Write};
use iq_base::Value;
use iq_grammar::{ParseFault, parse, parse_bytes, parse_directive};
use std::alloc::{AllocError, Global};
use std::process::Abort;
use std::test::Fail;

/// Texts, and the statement that each spells, or the place of its fault.
const STATEMENTS: [(&str, &str); 45] = [
    (
        "CREATE TABLE t (x INT NULL)",
        "Write(CreateTable { name: t, schema: Schema { columns: Listed { items: [Column { name: x, kind: Int, null: true }] } } })",
    ),
    (
        "\tcreate\tTable T_2( X int ,_y9 BIGINT not null,z varchar(255)null ) ; ",
        "Write(CreateTable { name: t_2, schema: Schema { columns: Listed { items: [Column { name: x, kind: Int, null: true }, Column { name: _y9, kind: Big, null: false }, Column { name: z, kind: Varchar(255), null: true }] } } })",
    ),
    (
        "CREATE TABLE abcdefghijklmnopqrstuvwxyz0123 (x INTEGER)",
        "Write(CreateTable { name: abcdefghijklmnopqrstuvwxyz0123, schema: Schema { columns: Listed { items: [Column { name: x, kind: Int, null: true }] } } })",
    ),
    (
        "INSERT INTO t VALUES (1, NULL), (-9223372036854775808, 9223372036854775807)",
        "Write(Insert { table: t, rows: Listed { items: [Listed { items: [Int(1), Null] }, Listed { items: [Int(-9223372036854775808), Int(9223372036854775807)] }] } })",
    ),
    (
        "insert into t values(-0,0000000000000000000000000000007),('');",
        "Write(Insert { table: t, rows: Listed { items: [Listed { items: [Int(0), Int(7)] }, Listed { items: [Text()] }] } })",
    ),
    (
        "SELECT y, x, Y FROM t",
        "Select(Select { explain: false, items: Listed { items: [Plain(y), Plain(x), Plain(y)] }, table: t, cond: None, group: Listed { items: [] }, order: Listed { items: [] } })",
    ),
    (
        "explain select * from fromage ;",
        "Select(Select { explain: true, items: Listed { items: [] }, table: fromage, cond: None, group: Listed { items: [] }, order: Listed { items: [] } })",
    ),
    (
        "Select Count ( * ),sum(x) From t group by y order by y desc,x asc",
        "Select(Select { explain: false, items: Listed { items: [CountAll, Sum(x)] }, table: t, cond: None, group: Listed { items: [y] }, order: Listed { items: [Order { column: y, desc: true }, Order { column: x, desc: false }] } })",
    ),
    ("DROP TABLE t", "Write(DropTable { name: t })"),
    ("DROP INDEX t.i", "Write(DropIndex { table: t, name: i })"),
    (
        "CREATE CMP INDEX i ON t (a, b)",
        "Write(CreateIndex { name: i, kind: Cmp, table: t, column: a, second: Some(b) })",
    ),
    (
        "LOAD TABLE t ROWS 1000000",
        "Write(Load { table: t, rows: 1000000, text: Listed { items: [] } })",
    ),
    ("ROLLBACK TO SAVEPOINT p", "BackTo(p)"),
    ("", "1"),
    (" ", "2"),
    (";", "1"),
    ("CREATE", "7"),
    ("CREATE TABLE t", "15"),
    ("CREATE TABLE t (x)", "18"),
    ("CREATE TABLE t (x INT NULL,)", "28"),
    ("CREATE TABLE t (x INT NULL y INT NULL)", "28"),
    ("CREATE TABLE order (x INT NULL)", "14"),
    ("CREATE TABLE t (Catalog INT NULL)", "17"),
    (
        "CREATE TABLE abcdefghijklmnopqrstuvwxyz01234 (x INT NULL)",
        "14",
    ),
    ("CREATE TABLE 1t (x INT NULL)", "14"),
    ("CREATE TABLEt (x INT NULL)", "8"),
    ("CREATE LF INDEX i ON t (a, b)", "26"),
    ("DROP INDEX i", "13"),
    ("INSERT INTO t VALUES", "21"),
    ("INSERT INTO t VALUES ()", "23"),
    ("INSERT INTO t VALUES (1),", "26"),
    ("INSERT INTO t VALUES (1) (2)", "26"),
    ("INSERT INTO t VALUES (1 2)", "25"),
    ("INSERT INTO t VALUES (x)", "23"),
    ("INSERT INTO t VALUES (-9223372036854775809)", "23"),
    ("INSERT INTO t VALUES (--1)", "23"),
    ("INSERT INTO t VALUES (1_)", "23"),
    ("INSERT INTO t; VALUES (1)", "14"),
    ("SELECT x, FROM t", "11"),
    ("SELECT x FROM t, u", "16"),
    ("SELECT x FROM t WHERE x", "24"),
    ("SELECT x FROM t WHERE x NOT = 1", "29"),
    ("SELECT x FROM t WHERE x BETWEEN 1", "34"),
    ("SELECT x FROM t WHERE (x = 1", "29"),
    ("s: SELECT x FROM t", "1"),
];

/// Texts, and the directive that each spells, or the place of its fault.
const DIRECTIVES: [(&str, &str); 12] = [
    ("NODE a COORDINATOR", "Node { name: a, kind: Coordinator }"),
    ("node a\treader ;", "Node { name: a, kind: Reader }"),
    ("SESSION a ON b", "Session { name: a, node: b }"),
    ("APPLY a", "Apply(a)"),
    ("TAKE 0004294967295", "Take(4294967295)"),
    ("ALTER MULTIPLEX SERVER a STATUS INCLUDED", "Include(a)"),
    ("SPACE;", "Space"),
    ("", "1"),
    ("SYNC", "1"),
    ("NODE a", "7"),
    ("SPACE;;", "7"),
    ("ALTER MULTIPLEX SERVER a STATUS", "32"),
];

/// 32 columns.
const MANY: &str =
    "a INT NULL, b INT NULL, c INT NULL, d INT NULL, e INT NULL, f INT NULL, g INT NULL, h INT NULL, i INT NULL, j INT NULL, k INT NULL, l INT NULL, m INT NULL, n INT NULL, o INT NULL, p INT NULL, q INT NULL, r INT NULL, s INT NULL, t INT NULL, u INT NULL, v INT NULL, w INT NULL, x INT NULL, y INT NULL, z INT NULL, a0 INT NULL, a1 INT NULL, a2 INT NULL, a3 INT NULL, a4 INT NULL, a5 INT NULL";

fn fault(alloc: Global, fault: ParseFault) -> Result<String, AllocError> {
    match fault {
        ParseFault::Syntax { place } => format!(in alloc; "{place}"),
        ParseFault::NoMemory => String::from_str(alloc, "no memory"),
    }
}

fn shown(alloc: Global, text: &str) -> Result<String, AllocError> {
    match parse(alloc, text) {
        Ok(statement) => format!(in alloc; "{statement:?}"),
        Err(told) => fault(alloc, told),
    }
}

fn directed(alloc: Global, text: &str) -> Result<String, AllocError> {
    match parse_directive(alloc, text.as_bytes()) {
        Ok(directive) => format!(in alloc; "{directive:?}"),
        Err(told) => fault(alloc, told),
    }
}

fn are_spelled<R: Abort + AllocGlobal>(rt: &R, table: &[(&str, &str)]) -> Result<(), Fail> {
    for (text, statement) in table {
        let read = shown(rt.alloc(), text)?;
        assert!(rt; read.as_str() == *statement, "{text} is read as {read}");
    }
    Ok(())
}

fn are_directed<R: Abort + AllocGlobal>(rt: &R, table: &[(&str, &str)]) -> Result<(), Fail> {
    for (text, directive) in table {
        let read = directed(rt.alloc(), text)?;
        assert!(rt; read.as_str() == *directive, "{text} is read as {read}");
    }
    Ok(())
}

#[test]
fn a_text_spells_its_statement_or_has_a_place(rt: HostRuntime) -> Result<(), Fail> {
    are_spelled(&rt, &STATEMENTS)
}

#[test]
fn a_text_spells_its_directive_or_has_a_place(rt: HostRuntime) -> Result<(), Fail> {
    are_directed(&rt, &DIRECTIVES)
}

#[test]
fn a_table_has_32_columns_at_most(rt: HostRuntime) -> Result<(), Fail> {
    let most = format!(in rt.alloc(); "CREATE TABLE t ({MANY})")?;
    assert!(rt; parse(rt.alloc(), most.as_str()).is_ok());
    let more = format!(in rt.alloc(); "CREATE TABLE t ({MANY}, z9 INT NULL)")?;
    let read = shown(rt.alloc(), more.as_str())?;
    assert_eq!(rt; read.as_str(), "407");
    Ok(())
}

#[test]
fn a_long_insert_is_read_with_its_values(rt: HostRuntime) -> Result<(), Fail> {
    let mut text = String::from_str(rt.alloc(), "INSERT INTO t VALUES (7)")?;
    for _ in 1..10_000 {
        text.push_str(",(7)")?;
    }
    match parse_bytes(rt.alloc(), text.as_bytes()) {
        Ok(Statement::Write(Write::Insert { table: _, rows })) => {
            assert_eq!(rt; rows.len(), 10_000);
            for row in rows.as_slice() {
                assert_eq!(rt; row.as_slice(), [Value::Int(7)].as_slice());
            }
        }
        other => assert!(rt; false, "read as {other:?}"),
    }
    Ok(())
}
