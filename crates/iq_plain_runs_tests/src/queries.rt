//! What queries answer as the tables change beneath them.
use crate::replies::{has_entries, says};
use crate::script::{ALONE, Lines};
use std::test::Fail;

#[test]
fn a_script_without_lines_has_no_entries(rt: HostRuntime) -> Result<(), Fail> {
    has_entries(&rt, &ALONE, &[], 0)
}

const EMPTY: Lines = &[
    ("s", "CREATE TABLE t (x INT NULL)", "created commit 1"),
    (
        "s",
        "SELECT COUNT(*), SUM(x), MIN(x) FROM t",
        "rows 1\n  0,NULL,NULL",
    ),
    ("s", "SELECT x FROM t", "rows 0"),
];

#[test]
fn aggregates_of_an_empty_table_are_one_row(rt: HostRuntime) -> Result<(), Fail> {
    says(&rt, &ALONE, EMPTY)
}

const NULLS: Lines = &[
    ("s", "CREATE TABLE t (x INT NULL)", "created commit 1"),
    (
        "s",
        "INSERT INTO t VALUES (1), (2), (NULL)",
        "inserted 3 commit 2",
    ),
    ("s", "SELECT x FROM t WHERE x <> 1", "rows 1\n  2"),
    ("s", "SELECT x FROM t WHERE NOT x <> 1", "rows 1\n  1"),
    ("s", "SELECT x FROM t WHERE x IS NULL", "rows 1\n  NULL"),
    ("s", "SELECT x FROM t WHERE x = NULL", "rows 0"),
    ("s", "SELECT x FROM t WHERE x NOT IN (1, NULL)", "rows 0"),
];

#[test]
fn null_is_neither_equal_nor_unequal(rt: HostRuntime) -> Result<(), Fail> {
    says(&rt, &ALONE, NULLS)
}

const REMOVED: Lines = &[
    ("s", "CREATE TABLE t (x INT NULL)", "created commit 1"),
    ("s", "CREATE LF INDEX l ON t (x)", "created commit 2"),
    ("s", "CREATE HG INDEX h ON t (x)", "created commit 3"),
    ("s", "INSERT INTO t VALUES (5)", "inserted 1 commit 4"),
    ("s", "DELETE FROM t", "deleted 1 commit 5"),
    ("s", "INSERT INTO t VALUES (5)", "inserted 1 commit 6"),
    ("s", "SELECT COUNT(*) FROM t WHERE x = 5", "rows 1\n  1"),
    ("s", "DROP INDEX t.l", "dropped commit 7"),
    ("s", "SELECT COUNT(*) FROM t WHERE x = 5", "rows 1\n  1"),
    (
        "s",
        "EXPLAIN SELECT COUNT(*) FROM t WHERE x = 5",
        "plan 1\n  x = 5 via HG h",
    ),
];

#[test]
fn a_removed_row_is_found_by_no_index(rt: HostRuntime) -> Result<(), Fail> {
    says(&rt, &ALONE, REMOVED)
}

const COMPARED: Lines = &[
    (
        "s",
        "CREATE TABLE t (a INT NULL, b INT NULL)",
        "created commit 1",
    ),
    ("s", "CREATE CMP INDEX k ON t (a, b)", "created commit 2"),
    (
        "s",
        "INSERT INTO t VALUES (1, 2), (2, 2), (3, 2), (NULL, 2)",
        "inserted 4 commit 3",
    ),
    ("s", "SELECT a, b FROM t WHERE a < b", "rows 1\n  1,2"),
    ("s", "SELECT a, b FROM t WHERE a = b", "rows 1\n  2,2"),
    ("s", "SELECT a, b FROM t WHERE a > b", "rows 1\n  3,2"),
    (
        "s",
        "SELECT a, b FROM t WHERE a <> b",
        "rows 2\n  1,2\n  3,2",
    ),
    (
        "s",
        "EXPLAIN SELECT a FROM t WHERE b > a",
        "plan 1\n  b > a via CMP k",
    ),
];

#[test]
fn two_columns_are_compared_row_by_row(rt: HostRuntime) -> Result<(), Fail> {
    says(&rt, &ALONE, COMPARED)
}

const GROUPED: Lines = &[
    (
        "s",
        "CREATE TABLE t (r VARCHAR(5) NULL, v INT NULL)",
        "created commit 1",
    ),
    (
        "s",
        "INSERT INTO t VALUES ('b',1), ('a',2), ('b',NULL), (NULL,4), ('a',-2)",
        "inserted 5 commit 2",
    ),
    (
        "s",
        "SELECT r, COUNT(*), COUNT(v), SUM(v), MAX(v) FROM t GROUP BY r",
        "rows 3\n  NULL,1,1,4,4\n  'a',2,2,0,2\n  'b',2,1,1,1",
    ),
    (
        "s",
        "SELECT r, v FROM t ORDER BY r DESC, v",
        "rows 5\n  'b',NULL\n  'b',1\n  'a',-2\n  'a',2\n  NULL,4",
    ),
    ("s", "SELECT v, COUNT(*) FROM t", "refused NotGrouped v"),
    ("s", "SELECT SUM(r) FROM t", "refused TypeMismatch r"),
    ("s", "SELECT z FROM t", "refused NoColumn z"),
    (
        "s",
        "UPDATE t SET v = 9 WHERE r = 'a'",
        "updated 2 commit 3",
    ),
    ("s", "SELECT v FROM t", "rows 5\n  1\n  NULL\n  4\n  9\n  9"),
];

#[test]
fn groups_are_ordered_by_their_keys_and_rows_as_asked(rt: HostRuntime) -> Result<(), Fail> {
    says(&rt, &ALONE, GROUPED)
}

const PLANES: Lines = &[
    ("s", "CREATE TABLE t (x INT NOT NULL)", "created commit 1"),
    ("s", "CREATE HNG INDEX h ON t (x)", "created commit 2"),
    (
        "s",
        "INSERT INTO t VALUES (-2147483648), (-1), (0), (2147483647)",
        "inserted 4 commit 3",
    ),
    (
        "s",
        "SELECT x FROM t WHERE x BETWEEN -1 AND 2147483647",
        "rows 3\n  -1\n  0\n  2147483647",
    ),
    (
        "s",
        "SELECT x FROM t WHERE x < 0",
        "rows 2\n  -2147483648\n  -1",
    ),
    ("s", "SELECT SUM(x) FROM t", "rows 1\n  -2"),
    (
        "s",
        "EXPLAIN SELECT x FROM t WHERE x < 0",
        "plan 1\n  x < 0 via HNG h",
    ),
    (
        "s",
        "INSERT INTO t VALUES (2147483648)",
        "refused BadRow 1 1 Range",
    ),
];

#[test]
fn numbers_reach_from_the_least_to_the_greatest(rt: HostRuntime) -> Result<(), Fail> {
    says(&rt, &ALONE, PLANES)
}

const COLUMNS: Lines = &[
    (
        "s",
        "CREATE TABLE t (x INT NULL, y INT NULL)",
        "created commit 1",
    ),
    (
        "s",
        "INSERT INTO t VALUES (1, 10), (2, NULL)",
        "inserted 2 commit 2",
    ),
    ("s", "SELECT x, y FROM t", "rows 2\n  1,10\n  2,NULL"),
];

#[test]
fn a_first_run_has_an_entry_for_each_step_of_its_lines(rt: HostRuntime) -> Result<(), Fail> {
    says(&rt, &ALONE, COLUMNS)?;
    has_entries(&rt, &ALONE, COLUMNS, 11)
}
