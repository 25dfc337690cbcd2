//! Lines of several sessions: locks, later commits, and a reader's position.
use crate::replies::{has_entries, says};
use crate::script::{Lines, PAIR, READER, WRITER};
use std::test::Fail;

const TWO_WRITERS: Lines = &[
    ("a", "CREATE TABLE t (x INT NULL)", "created commit 1"),
    ("a", "BEGIN TRANSACTION", "begun 1"),
    ("b", "BEGIN TRANSACTION", "begun 1"),
    ("a", "INSERT INTO t VALUES (1)", "inserted 1"),
    ("b", "INSERT INTO t VALUES (2)", "refused Locked t a"),
    ("a", "COMMIT", "committed 2"),
    ("b", "INSERT INTO t VALUES (3)", "refused Later t 2"),
    ("b", "SELECT * FROM t", "rows 0"),
    ("b", "COMMIT", "ended"),
    ("b", "INSERT INTO t VALUES (4)", "inserted 1 commit 3"),
    ("b", "SELECT * FROM t", "rows 2\n  1\n  4"),
];

#[test]
fn the_first_writer_wins(rt: HostRuntime) -> Result<(), Fail> {
    says(&rt, &PAIR, TWO_WRITERS)
}

const LOCKED: Lines = &[
    ("a", "CREATE TABLE t (x INT NULL)", "created commit 1"),
    ("b", "SYNC", "synced 1"),
    ("a", "BEGIN TRANSACTION", "begun 1"),
    ("a", "INSERT INTO t VALUES (1)", "inserted 1"),
    ("b", "BEGIN TRANSACTION", "begun 1"),
    ("b", "INSERT INTO t VALUES (2)", "refused Locked t a"),
    ("a", "COMMIT", "committed 2"),
    ("b", "INSERT INTO t VALUES (2)", "refused Later t 2"),
    ("b", "ROLLBACK", "rolled back"),
    ("b", "SYNC", "synced 2"),
    ("b", "INSERT INTO t VALUES (2)", "inserted 1 commit 3"),
    ("b", "SELECT x FROM t", "rows 2\n  1\n  2"),
];

#[test]
fn a_writer_on_another_node_writes_once_it_is_at_the_latest_commit(
    rt: HostRuntime,
) -> Result<(), Fail> {
    says(&rt, &WRITER, LOCKED)?;
    has_entries(&rt, &WRITER, LOCKED, 21)
}

const LOCKED_BEHIND_A_SAVEPOINT: Lines = &[
    ("a", "CREATE TABLE t (x INT NULL)", "created commit 1"),
    ("a", "BEGIN TRANSACTION", "begun 1"),
    ("a", "SAVEPOINT p", "savepoint p"),
    ("a", "INSERT INTO t VALUES (1)", "inserted 1"),
    ("a", "ROLLBACK TO SAVEPOINT p", "back to p"),
    ("b", "INSERT INTO t VALUES (2)", "refused Locked t a"),
    ("a", "ROLLBACK", "rolled back"),
    ("b", "INSERT INTO t VALUES (3)", "inserted 1 commit 2"),
    ("b", "SELECT * FROM t", "rows 1\n  3"),
];

#[test]
fn locks_stay_behind_a_savepoint(rt: HostRuntime) -> Result<(), Fail> {
    says(&rt, &PAIR, LOCKED_BEHIND_A_SAVEPOINT)
}

const POSITIONED: Lines = &[
    ("a", "CREATE TABLE t (x INT NULL)", "created commit 1"),
    ("a", "INSERT INTO t VALUES (1)", "inserted 1 commit 2"),
    ("b", "SELECT * FROM t", "refused NoTable t"),
    ("b", "SYNC", "synced 2"),
    ("b", "SELECT * FROM t", "rows 1\n  1"),
    ("a", "INSERT INTO t VALUES (2)", "inserted 1 commit 3"),
    ("b", "SELECT * FROM t", "rows 1\n  1"),
    ("b", "INSERT INTO t VALUES (3)", "refused ReadOnly r1"),
    ("b", "BEGIN TRANSACTION", "begun 2"),
    ("b", "SYNC", "refused InTransaction"),
    ("b", "ROLLBACK", "rolled back"),
];

#[test]
fn a_reader_reads_at_its_position(rt: HostRuntime) -> Result<(), Fail> {
    says(&rt, &READER, POSITIONED)
}
