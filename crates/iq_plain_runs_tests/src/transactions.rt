//! Lines of one session: alone, in transactions, and with savepoints.
use crate::replies::{has_entries, says};
use crate::script::{ALONE, Lines, PAIR};
use std::test::Fail;

const SINGLE_LINES: Lines = &[
    ("s", "SELECT * FROM t", "refused NoTable t"),
    ("s", "CREATE TABLE t (x INT NULL)", "created commit 1"),
    ("s", "INSERT INTO t VALUES (1)", "inserted 1 commit 2"),
    ("s", "CREATE TABLE t (x INT NULL)", "refused TableExists t"),
    ("s", "INSERT INTO t VALUES (2)", "inserted 1 commit 3"),
    ("s", "SELECT * FROM t", "rows 2\n  1\n  2"),
    ("s", "DROP TABLE t", "dropped commit 4"),
    ("s", "SELECT * FROM t", "refused NoTable t"),
];

#[test]
fn lines_alone_are_committed_one_by_one(rt: HostRuntime) -> Result<(), Fail> {
    says(&rt, &ALONE, SINGLE_LINES)
}

const COMMITTED: Lines = &[
    ("s", "CREATE TABLE t (x INT NULL)", "created commit 1"),
    ("s", "BEGIN TRANSACTION", "begun 1"),
    ("s", "INSERT INTO t VALUES (1)", "inserted 1"),
    ("s", "INSERT INTO t VALUES (2)", "inserted 1"),
    ("s", "SELECT * FROM t", "rows 2\n  1\n  2"),
    ("s", "COMMIT", "committed 2"),
    ("s", "BEGIN TRANSACTION", "begun 2"),
    ("s", "SELECT * FROM t", "rows 2\n  1\n  2"),
    ("s", "COMMIT", "ended"),
];

#[test]
fn a_transaction_is_committed_as_one(rt: HostRuntime) -> Result<(), Fail> {
    says(&rt, &ALONE, COMMITTED)
}

const ROLLED_BACK: Lines = &[
    ("s", "CREATE TABLE t (x INT NULL)", "created commit 1"),
    ("s", "BEGIN TRANSACTION", "begun 1"),
    ("s", "INSERT INTO t VALUES (1)", "inserted 1"),
    ("s", "ROLLBACK", "rolled back"),
    ("s", "SELECT * FROM t", "rows 0"),
    ("s", "ROLLBACK", "refused NoTransaction"),
    ("s", "COMMIT", "refused NoTransaction"),
];

#[test]
fn a_rollback_leaves_nothing(rt: HostRuntime) -> Result<(), Fail> {
    says(&rt, &ALONE, ROLLED_BACK)
}

const SAVED: Lines = &[
    ("s", "CREATE TABLE t (x INT NULL)", "created commit 1"),
    ("s", "BEGIN TRANSACTION", "begun 1"),
    ("s", "INSERT INTO t VALUES (1)", "inserted 1"),
    ("s", "SAVEPOINT p", "savepoint p"),
    ("s", "INSERT INTO t VALUES (2)", "inserted 1"),
    ("s", "ROLLBACK TO SAVEPOINT p", "back to p"),
    ("s", "SELECT * FROM t", "rows 1\n  1"),
    ("s", "INSERT INTO t VALUES (3)", "inserted 1"),
    ("s", "RELEASE SAVEPOINT p", "released p"),
    ("s", "ROLLBACK TO SAVEPOINT p", "refused NoSavepoint p"),
    ("s", "COMMIT", "committed 2"),
    ("s", "SELECT * FROM t", "rows 2\n  1\n  3"),
];

#[test]
fn a_savepoint_gives_its_tables_back(rt: HostRuntime) -> Result<(), Fail> {
    says(&rt, &ALONE, SAVED)
}

const SAVED_AGAIN: Lines = &[
    ("s", "CREATE TABLE t (x INT NULL)", "created commit 1"),
    ("s", "BEGIN TRANSACTION", "begun 1"),
    ("s", "INSERT INTO t VALUES (1)", "inserted 1"),
    ("s", "SAVEPOINT p", "savepoint p"),
    ("s", "INSERT INTO t VALUES (2)", "inserted 1"),
    ("s", "ROLLBACK TO SAVEPOINT p", "back to p"),
    ("s", "INSERT INTO t VALUES (3)", "inserted 1"),
    ("s", "ROLLBACK TO SAVEPOINT p", "back to p"),
    ("s", "INSERT INTO t VALUES (4)", "inserted 1"),
    ("s", "RELEASE SAVEPOINT p", "released p"),
    ("s", "ROLLBACK TO SAVEPOINT p", "refused NoSavepoint p"),
    ("s", "SELECT x FROM t", "rows 2\n  1\n  4"),
    (
        "s",
        "CREATE TABLE u (y INT NULL)",
        "refused DdlInTransaction",
    ),
    ("s", "BEGIN TRANSACTION", "refused InTransaction"),
    ("s", "COMMIT", "committed 2"),
    ("s", "COMMIT", "refused NoTransaction"),
];

#[test]
fn a_savepoint_is_gone_back_to_as_often_as_wanted(rt: HostRuntime) -> Result<(), Fail> {
    says(&rt, &ALONE, SAVED_AGAIN)
}

const MANY_SAVED: Lines = &[
    ("s", "BEGIN TRANSACTION", "begun 0"),
    ("s", "SAVEPOINT p0", "savepoint p0"),
    ("s", "SAVEPOINT p1", "savepoint p1"),
    ("s", "SAVEPOINT p2", "savepoint p2"),
    ("s", "SAVEPOINT p3", "savepoint p3"),
    ("s", "SAVEPOINT p4", "savepoint p4"),
    ("s", "SAVEPOINT p5", "savepoint p5"),
    ("s", "SAVEPOINT p6", "savepoint p6"),
    ("s", "SAVEPOINT p7", "savepoint p7"),
    ("s", "SAVEPOINT p8", "savepoint p8"),
    ("s", "SAVEPOINT p9", "savepoint p9"),
    ("s", "SAVEPOINT p10", "savepoint p10"),
    ("s", "SAVEPOINT p11", "savepoint p11"),
    ("s", "SAVEPOINT p12", "savepoint p12"),
    ("s", "SAVEPOINT p13", "savepoint p13"),
    ("s", "SAVEPOINT p14", "savepoint p14"),
    ("s", "SAVEPOINT p15", "savepoint p15"),
    ("s", "SAVEPOINT p16", "refused TooManySavepoints"),
];

#[test]
fn a_transaction_has_sixteen_savepoints_at_most(rt: HostRuntime) -> Result<(), Fail> {
    says(&rt, &ALONE, MANY_SAVED)
}

const REFUSED: Lines = &[
    ("s", "CREATE TABLE t (x INT NULL)", "created commit 1"),
    ("s", "BEGIN TRANSACTION", "begun 1"),
    ("s", "BEGIN TRANSACTION", "refused InTransaction"),
    ("s", "DROP TABLE t", "refused DdlInTransaction"),
    ("s", "SYNC", "refused InTransaction"),
    ("s", "COMMIT", "ended"),
];

#[test]
fn a_transaction_refuses_another_and_tables(rt: HostRuntime) -> Result<(), Fail> {
    says(&rt, &ALONE, REFUSED)
}

const RUNNING: Lines = &[
    ("a", "BEGIN TRANSACTION", "begun 0"),
    ("b", "BEGIN TRANSACTION", "begun 0"),
];

#[test]
fn what_still_runs_at_the_end_is_rolled_back(rt: HostRuntime) -> Result<(), Fail> {
    says(&rt, &PAIR, RUNNING)?;
    has_entries(&rt, &PAIR, RUNNING, 4)
}
