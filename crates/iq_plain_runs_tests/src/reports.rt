//! Positions and floors: APPLY, REPORT, LOSE, TAKE, SPACE and VERSIONS. The plain program has no blocks, so that it frees none.
use crate::replies::says;
use crate::script::{ALONE, Lines, READER};
use std::test::Fail;

const READ_BENEATH: Lines = &[
    ("a", "CREATE TABLE t (x INT NULL)", "created commit 1"),
    ("a", "INSERT INTO t VALUES (1)", "inserted 1 commit 2"),
    ("b", "SYNC", "synced 2"),
    ("b", "BEGIN TRANSACTION", "begun 2"),
    ("a", "INSERT INTO t VALUES (2)", "inserted 1 commit 3"),
    ("a", "DELETE FROM t", "deleted 2 commit 4"),
    ("b", "SELECT * FROM t", "rows 1\n  1"),
    ("-", "REPORT r1", "sent 1 floor 2"),
    ("-", "TAKE 1", "horizon 2 freed 0"),
    ("b", "COMMIT", "ended"),
    ("-", "APPLY r1", "applied 3"),
    ("b", "SELECT * FROM t", "rows 2\n  1\n  2"),
];

#[test]
fn a_reader_reads_beneath_later_commits(rt: HostRuntime) -> Result<(), Fail> {
    says(&rt, &READER, READ_BENEATH)
}

const REPORTED: Lines = &[
    ("a", "CREATE TABLE t (x INT NULL)", "created commit 1"),
    ("a", "INSERT INTO t VALUES (1), (2)", "inserted 2 commit 2"),
    ("b", "SYNC", "synced 2"),
    ("b", "BEGIN TRANSACTION", "begun 2"),
    ("a", "DELETE FROM t WHERE x = 1", "deleted 1 commit 3"),
    ("a", "DELETE FROM t", "deleted 1 commit 4"),
    ("b", "SELECT x FROM t", "rows 2\n  1\n  2"),
    ("-", "REPORT r1", "sent 1 floor 2"),
    ("-", "TAKE 1", "horizon 2 freed 0"),
    ("b", "COMMIT", "ended"),
    ("-", "APPLY r1", "applied 3"),
    ("-", "APPLY r1", "applied 4"),
    ("-", "REPORT r1", "sent 2 floor 4"),
    ("-", "TAKE 1", "horizon 2 freed 0"),
    ("-", "TAKE 2", "horizon 4 freed 0"),
    ("-", "TAKE 1", "horizon 4 freed 0"),
    (
        "-",
        "SPACE",
        "space free 60 reserved 0 private 0 reached 0 waiting 0",
    ),
    ("-", "APPLY r1", "refused AtEnd 4"),
    ("b", "DELETE FROM t", "refused ReadOnly r1"),
    (
        "-",
        "VERSIONS",
        "versions latest 4 horizon 4\n  c position 4 floor 4 taken 4 incarnation 1\n  r1 position 4 floor 4 taken 4 incarnation 1",
    ),
];

#[test]
fn the_horizon_follows_a_reader_and_its_reports(rt: HostRuntime) -> Result<(), Fail> {
    says(&rt, &READER, REPORTED)
}

const REPORTED_LATE: Lines = &[
    ("a", "CREATE TABLE t (x INT NULL)", "created commit 1"),
    ("a", "INSERT INTO t VALUES (1)", "inserted 1 commit 2"),
    ("-", "APPLY r1", "applied 1"),
    ("-", "REPORT r1", "sent 1 floor 1"),
    ("-", "APPLY r1", "applied 2"),
    ("-", "REPORT r1", "sent 2 floor 2"),
    ("-", "TAKE 1", "horizon 1 freed 0"),
    ("-", "TAKE 2", "horizon 2 freed 0"),
    ("-", "TAKE 1", "horizon 2 freed 0"),
    ("-", "APPLY r1", "refused AtEnd 2"),
    (
        "-",
        "SPACE",
        "space free 60 reserved 0 private 0 reached 0 waiting 0",
    ),
    (
        "-",
        "VERSIONS",
        "versions latest 2 horizon 2\n  c position 2 floor 2 taken 2 incarnation 1\n  r1 position 2 floor 2 taken 2 incarnation 1",
    ),
];

#[test]
fn a_late_report_takes_nothing_back(rt: HostRuntime) -> Result<(), Fail> {
    says(&rt, &READER, REPORTED_LATE)
}

const REPORT_LOST: Lines = &[
    ("a", "CREATE TABLE t (x INT NULL)", "created commit 1"),
    ("b", "SYNC", "synced 1"),
    ("-", "REPORT r1", "sent 1 floor 1"),
    ("-", "LOSE 1", "lost 1"),
    ("-", "TAKE 1", "refused NoReport 1"),
    ("-", "LOSE 1", "refused NoReport 1"),
    ("-", "REPORT c", "horizon 0 freed 0"),
    ("-", "REPORT r1", "sent 2 floor 1"),
    ("-", "TAKE 2", "horizon 1 freed 0"),
    ("-", "REPORT c", "horizon 1 freed 0"),
    ("-", "REPORT zz", "refused NoNode zz"),
];

#[test]
fn a_report_that_is_lost_is_gone(rt: HostRuntime) -> Result<(), Fail> {
    says(&rt, &READER, REPORT_LOST)
}

const REPORTED_AGAIN: Lines = &[
    ("a", "CREATE TABLE t (x INT NULL)", "created commit 1"),
    ("a", "INSERT INTO t VALUES (1), (2)", "inserted 2 commit 2"),
    ("b", "SYNC", "synced 2"),
    ("-", "REPORT r1", "sent 1 floor 2"),
    ("-", "LOSE 1", "lost 1"),
    ("-", "TAKE 1", "refused NoReport 1"),
    ("-", "LOSE 1", "refused NoReport 1"),
    (
        "-",
        "SPACE",
        "space free 60 reserved 0 private 0 reached 0 waiting 0",
    ),
    ("-", "REPORT r1", "sent 2 floor 2"),
    ("-", "TAKE 2", "horizon 2 freed 0"),
    ("-", "REPORT c", "horizon 2 freed 0"),
    ("-", "RESTART c", "refused IsCoordinator c"),
    ("-", "RESTART zz", "refused NoNode zz"),
];

#[test]
fn a_report_behind_a_lost_one_has_the_next_number(rt: HostRuntime) -> Result<(), Fail> {
    says(&rt, &READER, REPORTED_AGAIN)
}

const REPORTED_ALONE: Lines = &[
    (
        "s",
        "CREATE TABLE t (x VARCHAR(255) NULL)",
        "created commit 1",
    ),
    ("s", "INSERT INTO t VALUES ('a')", "inserted 1 commit 2"),
    ("-", "REPORT c", "horizon 2 freed 0"),
    ("s", "BEGIN TRANSACTION", "begun 2"),
    (
        "-",
        "SPACE",
        "space free 60 reserved 0 private 0 reached 0 waiting 0",
    ),
    ("s", "DELETE FROM t", "deleted 1"),
    ("s", "COMMIT", "committed 3"),
];

#[test]
fn a_coordinator_alone_reports_its_latest_commit(rt: HostRuntime) -> Result<(), Fail> {
    says(&rt, &ALONE, REPORTED_ALONE)
}
