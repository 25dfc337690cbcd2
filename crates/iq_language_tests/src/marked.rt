//! Lines that are no statement and no directive, each with a mark before the first byte of the token that is told.
use crate::faults::told;
use std::alloc::{AllocError, Global};
use std::process::Abort;
use std::test::Fail;

/// Tables and indexes that are made or dropped.
const MADE: [&str; 52] = [
    "CREATE ^",
    "CREATE ^VIEW v (x INT)",
    "CREATE TABLE ^(x INT)",
    "CREATE TABLE ^table (x INT)",
    "CREATE TABLE ^'t' (x INT)",
    "CREATE TABLE t^.u (x INT)",
    "CREATE TABLE t ^x INT",
    "CREATE TABLE t (^1 INT)",
    "CREATE TABLE t (^values INT)",
    "CREATE TABLE t (x^)",
    "CREATE TABLE t (x ^TEXT)",
    "CREATE TABLE t (x VARCHAR^)",
    "CREATE TABLE t (x VARCHAR(^0))",
    "CREATE TABLE t (x VARCHAR(^-1))",
    "CREATE TABLE t (x VARCHAR(^a))",
    "CREATE TABLE t (x VARCHAR(1)^",
    "CREATE TABLE t (x VARCHAR(1^, y INT)",
    "CREATE TABLE t (x INT NOT^)",
    "CREATE TABLE t (x INT NOT ^NOT NULL)",
    "CREATE TABLE t (x INT NULL ^NULL)",
    "CREATE TABLE t (x INT NOT NULL ^NULL)",
    "CREATE TABLE t (x INT,^)",
    "CREATE TABLE t (x INT ^y INT)",
    "CREATE TABLE t (x INT, y INT^",
    "CREATE TABLE t (x INT) ^t",
    "CREATE TABLE t (x INT, y INT, ^x BIGINT)",
    "CREATE ^INDEX i ON t (x)",
    "CREATE LF ^i ON t (x)",
    "CREATE LF INDEX ^ON t (x)",
    "CREATE LF INDEX i ^t (x)",
    "CREATE LF INDEX i ON ^(x)",
    "CREATE LF INDEX i ON t ^x",
    "CREATE LF INDEX i ON t (^)",
    "CREATE LF INDEX i ON t (x^, y)",
    "CREATE LF INDEX i ON t (x) ^(y)",
    "CREATE HG INDEX ^1 ON t (x)",
    "CREATE HNG INDEX i ON t (x^",
    "CREATE CMP INDEX i ON t (x^)",
    "CREATE CMP INDEX i ON t (x, ^)",
    "CREATE CMP INDEX i ON t (x, y^, z)",
    "CREATE CMP INDEX i ON t (x, ^X)",
    "CREATE CMP ^TABLE t (x INT)",
    "DROP ^t",
    "DROP TABLE ^",
    "DROP TABLE ^1",
    "DROP TABLE ^integer",
    "DROP TABLE t^, u",
    "DROP INDEX ^.i",
    "DROP INDEX t ^i",
    "DROP INDEX t.^",
    "DROP INDEX t.^5",
    "DROP INDEX t.i^.j",
];

/// Rows that are put, loaded, changed or deleted.
const CHANGED: [&str; 43] = [
    "INSERT ^t VALUES (1)",
    "INSERT INTO ^VALUES (1)",
    "INSERT INTO t ^(1)",
    "INSERT INTO t ^(x) VALUES (1)",
    "INSERT INTO t VALUES ^1",
    "INSERT INTO t VALUES (^)",
    "INSERT INTO t VALUES (^x)",
    "INSERT INTO t VALUES (1 ^2)",
    "INSERT INTO t VALUES (1) ^(2)",
    "INSERT INTO t VALUES (1),^",
    "INSERT INTO t VALUES (1), ^2",
    "INSERT INTO t VALUES (1), (^,)",
    "INSERT INTO t VALUES (^NOT NULL)",
    "INSERT INTO t VALUES (1^.5)",
    "INSERT INTO t VALUES (^-)",
    "INSERT INTO t VALUES (^--1)",
    "INSERT INTO t VALUES (^-9223372036854775809)",
    "INSERT INTO t VALUES (^99999999999999999999999999999999999999999)",
    "INSERT INTO t VALUES (^1_)",
    "INSERT INTO t VALUES (1, ^\"a\")",
    "INSERT INTO t VALUES ('a'^b')",
    "INSERT INTO t VALUES ('a' ^'b')",
    "INSERT INTO t VALUES (^''')",
    "INSERT INTO t VALUES ('a', ^')",
    "LOAD ^t ROWS 1",
    "LOAD TABLE ^ROWS 1",
    "LOAD TABLE t ^1",
    "LOAD TABLE t ROWS ^x",
    "LOAD TABLE t ROWS ^-1",
    "LOAD TABLE t ROWS 1 ^2",
    "DELETE ^t",
    "DELETE ^* FROM t",
    "DELETE FROM ^WHERE x = 1",
    "DELETE FROM t ^x = 1",
    "DELETE FROM t WHERE ^",
    "UPDATE ^SET x = 1",
    "UPDATE t ^x = 1",
    "UPDATE t SET ^1 = x",
    "UPDATE t SET x ^1",
    "UPDATE t SET x = ^y",
    "UPDATE t SET x = 1 ^y = 2",
    "UPDATE t SET x = 1, ^WHERE y = 1",
    "UPDATE t SET x = 1 WHERE ^1 = x",
];

/// Queries without a condition.
const QUERIES: [&str; 31] = [
    "SELECT ^FROM t",
    "SELECT ^1 FROM t",
    "SELECT *^, x FROM t",
    "SELECT x, ^* FROM t",
    "SELECT x, ^FROM t",
    "SELECT COUNT ^x FROM t",
    "SELECT COUNT(^) FROM t",
    "SELECT COUNT(^1) FROM t",
    "SELECT SUM(^*) FROM t",
    "SELECT MIN(x^, y) FROM t",
    "SELECT MAX(x ^FROM t",
    "SELECT x FROM ^1",
    "SELECT x FROM ^catalog",
    "SELECT ^join FROM t",
    "SELECT x FROM t^, u",
    "SELECT x FROM t ^AS u",
    "SELECT x FROM t ^inner",
    "SELECT x FROM t ^#",
    "SELECT x FROM t ^$",
    "SELECT x^\0 FROM t",
    "SELECT x FROM t\t^\x0b",
    "EXPLAIN ^DELETE FROM t",
    "EXPLAIN ^EXPLAIN SELECT x FROM t",
    "SELECT x FROM t GROUP ^x",
    "SELECT x FROM t GROUP BY ^",
    "SELECT x FROM t GROUP BY x, ^ORDER BY x",
    "SELECT x FROM t GROUP BY x ^WHERE x = 1",
    "SELECT x FROM t ORDER ^x",
    "SELECT x FROM t ORDER BY ^1",
    "SELECT x FROM t ORDER BY x ASC ^DESC",
    "SELECT x FROM t ORDER BY x ^GROUP BY x",
];

/// Conditions, which stand behind a WHERE.
const CONDITIONS: [&str; 38] = [
    "^= 1",
    "x ^",
    "x = ^",
    "x = ^= 1",
    "x =^= 1",
    "x =^< 1",
    "x < ^> 1",
    "x ^! 1",
    "x <^!",
    "x BETWEEN ^AND 2",
    "x BETWEEN 1 ^2",
    "x BETWEEN 1 AND ^",
    "x BETWEEN 1 AND ^y",
    "x BETWEEN ^y AND 2",
    "x IN ^1",
    "x IN (^)",
    "x IN (^y)",
    "x IN (1 ^2)",
    "x IN (1, ^)",
    "x IN (1^",
    "x IS ^1",
    "x IS NOT ^1",
    "x IS NULL ^NULL",
    "x NOT ^= 1",
    "x NOT ^NULL",
    "NOT ^",
    "NOT ^1 = x",
    "x = 1 AND ^",
    "x = 1 AND NOT ^OR y = 2",
    "x = 1 OR ^OR y = 2",
    "x = 1 ^y = 2",
    "(x = 1^",
    "(^)",
    "x = 1^)",
    "(x = 1) ^(y = 2)",
    "(x = 1) AND ^)",
    "((x = 1) OR (y = 2)^",
    "x^.y = 1",
];

/// Transactions, and lines that begin as nothing does.
const OTHERS: [&str; 22] = [
    "BEGIN ^",
    "BEGIN ^WORK",
    "BEGIN TRANSACTION ^t",
    "COMMIT ^TRANSACTION",
    "ROLLBACK ^TRANSACTION",
    "ROLLBACK TO ^a",
    "ROLLBACK TO SAVEPOINT ^",
    "SAVEPOINT ^",
    "SAVEPOINT ^1",
    "SAVEPOINT ^versions",
    "SAVEPOINT a ^b",
    "RELEASE ^a",
    "RELEASE SAVEPOINT ^select",
    "SYNC ^1",
    "^'x'",
    "^5",
    "^* FROM t",
    "^,",
    "^t",
    "^@",
    "^(SELECT x FROM t)",
    "^\u{e9}",
];

/// Declarations and steps.
const DIRECTIVES: [&str; 24] = [
    "NODE ^1 WRITER",
    "NODE c ^SERVER",
    "SESSION ^ON c",
    "SESSION a ^c",
    "SESSION a ON ^1",
    "SESSION a ON c ^d",
    "APPLY ^",
    "APPLY w^, v",
    "REPORT ^node",
    "REPORT ^",
    "LOSE ^",
    "LOSE ^x",
    "LOSE 1 ^2",
    "TAKE ^x",
    "RESTART ^",
    "RESTART w ^x",
    "ALTER ^SERVER w",
    "ALTER MULTIPLEX ^w",
    "ALTER MULTIPLEX SERVER ^STATUS EXCLUDED",
    "ALTER MULTIPLEX SERVER w ^EXCLUDED",
    "ALTER MULTIPLEX SERVER w STATUS ^",
    "ALTER MULTIPLEX SERVER w STATUS EXCLUDED ^x",
    "SPACE;^;",
    "VERSIONS ^1",
];

/// The bytes of a text without its mark behind those of a front, and the place of the mark from 1.
fn unmarked(alloc: Global, front: &str, marked: &str) -> Result<(Vec<u8>, usize), AllocError> {
    let mut script = Vec::new(alloc);
    script.extend_from_slice(front.as_bytes())?;
    let mut place = 0;
    for byte in marked.as_bytes() {
        if *byte == b'^' {
            place = script.len() + 1;
        } else {
            script.push(*byte)?;
        }
    }
    Ok((script, place))
}

fn are_told<R: Abort + AllocGlobal>(rt: &R, front: &str, table: &[&str]) -> Result<(), Fail> {
    for marked in table {
        let (script, place) = unmarked(rt.alloc(), front, marked)?;
        let wanted = format!(in rt.alloc(); "1 Syntax {place}")?;
        let read = told(rt.alloc(), &script)?;
        assert!(rt;
            read.as_str() == wanted.as_str(),
            "{front}{marked} is told as {read}"
        );
    }
    Ok(())
}

#[test]
fn what_makes_or_drops_is_told_by_its_first_wrong_token(rt: HostRuntime) -> Result<(), Fail> {
    are_told(&rt, "", &MADE)
}

#[test]
fn what_changes_rows_is_told_by_its_first_wrong_token(rt: HostRuntime) -> Result<(), Fail> {
    are_told(&rt, "", &CHANGED)
}

#[test]
fn a_query_is_told_by_its_first_wrong_token(rt: HostRuntime) -> Result<(), Fail> {
    are_told(&rt, "", &QUERIES)
}

#[test]
fn a_condition_is_told_by_its_first_wrong_token(rt: HostRuntime) -> Result<(), Fail> {
    are_told(&rt, "SELECT x FROM t WHERE ", &CONDITIONS)
}

#[test]
fn any_other_line_is_told_by_its_first_wrong_token(rt: HostRuntime) -> Result<(), Fail> {
    are_told(&rt, "", &OTHERS)
}

#[test]
fn a_directive_is_told_by_its_first_wrong_token(rt: HostRuntime) -> Result<(), Fail> {
    are_told(&rt, "", &DIRECTIVES)
}
