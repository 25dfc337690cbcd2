//! Texts of each form, and what is printed of them.
use crate::printed::{printed, shown};
use std::process::Abort;
use std::test::Fail;

/// Texts, and the one text that is printed of the statement of each.
const TEXTS: &[(&str, &str)] = &[
    (
        "create table T(x int,Y integer null,z bigint not null,v varchar(255) , w VARCHAR (1) NOT NULL);",
        "CREATE TABLE t (x INT, y INT, z BIGINT NOT NULL, v VARCHAR(255), w VARCHAR(1) NOT NULL)",
    ),
    ("drop table t", "DROP TABLE t"),
    ("create lf index i on t(x)", "CREATE LF INDEX i ON t (x)"),
    ("create hg index i on t(x)", "CREATE HG INDEX i ON t (x)"),
    ("create hng index i on t(x)", "CREATE HNG INDEX i ON t (x)"),
    (
        "create cmp index i on t(x,y)",
        "CREATE CMP INDEX i ON t (x, y)",
    ),
    ("drop index t . i", "DROP INDEX t.i"),
    ("insert into t values(1)", "INSERT INTO t VALUES (1)"),
    (
        "insert into t values (-007,null,'') , ( 'it''s' , -0 , '''' )",
        "INSERT INTO t VALUES (-7, NULL, ''), ('it''s', 0, '''')",
    ),
    (
        "INSERT INTO t VALUES (9223372036854775807, -9223372036854775808)",
        "INSERT INTO t VALUES (9223372036854775807, -9223372036854775808)",
    ),
    (
        "INSERT INTO t VALUES ('NULL', ' a,(b);--c ', 'ß€')",
        "INSERT INTO t VALUES ('NULL', ' a,(b);--c ', 'ß€')",
    ),
    ("load table t rows 1", "LOAD TABLE t ROWS 1"),
    ("load table t rows 1000000;", "LOAD TABLE t ROWS 1000000"),
    ("delete from t", "DELETE FROM t"),
    ("delete from t where x=1", "DELETE FROM t WHERE x = 1"),
    ("update t set x=1", "UPDATE t SET x = 1"),
    (
        "update t set x=null,y='a' where x<>1",
        "UPDATE t SET x = NULL, y = 'a' WHERE x <> 1",
    ),
    ("select*from t", "SELECT * FROM t"),
    ("explain select * from t", "EXPLAIN SELECT * FROM t"),
    (
        "select x,count(*),count(x),sum(x),min(x),max(x) from t",
        "SELECT x, COUNT(*), COUNT(x), SUM(x), MIN(x), MAX(x) FROM t",
    ),
    ("select x from t group by x", "SELECT x FROM t GROUP BY x"),
    (
        "select x from t where x=1 group by x,y order by x asc,y desc,z",
        "SELECT x FROM t WHERE x = 1 GROUP BY x, y ORDER BY x, y DESC, z",
    ),
    (
        "select * from t order by x desc",
        "SELECT * FROM t ORDER BY x DESC",
    ),
    ("begin transaction", "BEGIN TRANSACTION"),
    ("commit", "COMMIT"),
    ("rollback", "ROLLBACK"),
    ("savepoint A_1", "SAVEPOINT a_1"),
    ("rollback to savepoint p", "ROLLBACK TO SAVEPOINT p"),
    ("release savepoint p", "RELEASE SAVEPOINT p"),
    ("sync ;", "SYNC"),
    ("delete from t where x!=1", "DELETE FROM t WHERE x <> 1"),
    ("delete from t where x<-1", "DELETE FROM t WHERE x < -1"),
    ("delete from t where x<=y", "DELETE FROM t WHERE x <= y"),
    ("delete from t where x>null", "DELETE FROM t WHERE x > NULL"),
    ("delete from t where x>='a'", "DELETE FROM t WHERE x >= 'a'"),
    (
        "delete from t where x between 1 and 2",
        "DELETE FROM t WHERE x BETWEEN 1 AND 2",
    ),
    (
        "delete from t where x not between null and 'b'",
        "DELETE FROM t WHERE x NOT BETWEEN NULL AND 'b'",
    ),
    (
        "delete from t where x in(1)",
        "DELETE FROM t WHERE x IN (1)",
    ),
    (
        "delete from t where x not in(1,null,'a')",
        "DELETE FROM t WHERE x NOT IN (1, NULL, 'a')",
    ),
    (
        "delete from t where x is null",
        "DELETE FROM t WHERE x IS NULL",
    ),
    (
        "delete from t where x is not null",
        "DELETE FROM t WHERE x IS NOT NULL",
    ),
    ("delete from t where (x=1)", "DELETE FROM t WHERE x = 1"),
    ("delete from t where ((x=1))", "DELETE FROM t WHERE x = 1"),
    (
        "delete from t where not not x=1",
        "DELETE FROM t WHERE NOT NOT x = 1",
    ),
    (
        "delete from t where not(x=1)",
        "DELETE FROM t WHERE NOT x = 1",
    ),
    (
        "delete from t where not(x=1 and y=2)",
        "DELETE FROM t WHERE NOT (x = 1 AND y = 2)",
    ),
    (
        "delete from t where not(x=1 or y=2)",
        "DELETE FROM t WHERE NOT (x = 1 OR y = 2)",
    ),
    (
        "delete from t where not x=1 and y=2",
        "DELETE FROM t WHERE NOT x = 1 AND y = 2",
    ),
    (
        "delete from t where a=1 and b=2 or c=3",
        "DELETE FROM t WHERE a = 1 AND b = 2 OR c = 3",
    ),
    (
        "delete from t where (a=1 and b=2) or c=3",
        "DELETE FROM t WHERE a = 1 AND b = 2 OR c = 3",
    ),
    (
        "delete from t where a=1 and (b=2 or c=3)",
        "DELETE FROM t WHERE a = 1 AND (b = 2 OR c = 3)",
    ),
    (
        "delete from t where a=1 and (b=2 and c=3)",
        "DELETE FROM t WHERE a = 1 AND (b = 2 AND c = 3)",
    ),
    (
        "delete from t where (a=1 or b=2) or c=3",
        "DELETE FROM t WHERE (a = 1 OR b = 2) OR c = 3",
    ),
    (
        "delete from t where a=1 or (b=2 or (c=3 and d=4))",
        "DELETE FROM t WHERE a = 1 OR (b = 2 OR c = 3 AND d = 4)",
    ),
    (
        "delete from t where a=1 or b=2 or c=3 and d=4 and e=5",
        "DELETE FROM t WHERE a = 1 OR b = 2 OR c = 3 AND d = 4 AND e = 5",
    ),
    (
        "delete from t where ((a=1 or not b=2) and c=3) or d=4",
        "DELETE FROM t WHERE (a = 1 OR NOT b = 2) AND c = 3 OR d = 4",
    ),
];

/// That each text is printed as the one beside it.
fn prints<R: Abort + AllocGlobal>(rt: &R, rows: &[(&str, &str)]) -> Result<(), Fail> {
    for (text, one) in rows {
        assert_eq!(rt; printed(rt.alloc(), text)?.as_str(), *one);
    }
    Ok(())
}

/// That each of these pairs of texts spells one statement.
fn spell_one<R: Abort + AllocGlobal>(rt: &R, rows: &[(&str, &str)]) -> Result<(), Fail> {
    for (text, one) in rows {
        assert_eq!(rt; shown(rt.alloc(), one)?, shown(rt.alloc(), text)?);
        assert_eq!(rt; printed(rt.alloc(), one)?.as_str(), *one);
    }
    Ok(())
}

#[test]
fn a_statement_is_printed_as_one_text(rt: HostRuntime) -> Result<(), Fail> {
    prints(&rt, TEXTS)
}

#[test]
fn what_is_printed_is_the_statement_of_the_text(rt: HostRuntime) -> Result<(), Fail> {
    spell_one(&rt, TEXTS)
}
