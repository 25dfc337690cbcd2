//! Nodes that start again, are excluded, and are included again.
use crate::replies::says;
use crate::script::{Lines, WRITER};
use std::test::Fail;

const RESTARTED: Lines = &[
    ("a", "CREATE TABLE t (x INT NULL)", "created commit 1"),
    ("b", "SYNC", "synced 1"),
    ("b", "BEGIN TRANSACTION", "begun 1"),
    ("b", "INSERT INTO t VALUES (7)", "inserted 1"),
    ("a", "INSERT INTO t VALUES (8)", "refused Locked t b"),
    ("-", "RESTART w1", "restarted 2"),
    ("a", "INSERT INTO t VALUES (8)", "inserted 1 commit 2"),
    ("b", "COMMIT", "refused Lost 2"),
    ("b", "COMMIT", "refused NoTransaction"),
    ("b", "INSERT INTO t VALUES (7)", "refused Later t 2"),
    ("-", "RESTART w1", "restarted 3"),
    ("b", "INSERT INTO t VALUES (7)", "inserted 1 commit 3"),
    ("a", "SELECT * FROM t", "rows 2\n  8\n  7"),
    ("-", "RESTART c", "refused IsCoordinator c"),
];

#[test]
fn a_restart_ends_the_transactions_of_its_node(rt: HostRuntime) -> Result<(), Fail> {
    says(&rt, &WRITER, RESTARTED)
}

const LOST: Lines = &[
    ("a", "CREATE TABLE t (x INT NULL)", "created commit 1"),
    ("b", "SYNC", "synced 1"),
    ("b", "BEGIN TRANSACTION", "begun 1"),
    ("b", "INSERT INTO t VALUES (7)", "inserted 1"),
    (
        "-",
        "SPACE",
        "space free 60 reserved 0 private 0 reached 0 waiting 0",
    ),
    ("-", "RESTART w1", "restarted 2"),
    (
        "-",
        "SPACE",
        "space free 60 reserved 0 private 0 reached 0 waiting 0",
    ),
    ("b", "COMMIT", "refused Lost 2"),
    ("b", "COMMIT", "refused NoTransaction"),
    ("b", "INSERT INTO t VALUES (7)", "inserted 1 commit 2"),
];

#[test]
fn a_lost_transaction_is_told_once(rt: HostRuntime) -> Result<(), Fail> {
    says(&rt, &WRITER, LOST)
}

const EXCLUDED: Lines = &[
    ("a", "CREATE TABLE t (x INT NULL)", "created commit 1"),
    ("b", "BEGIN TRANSACTION", "begun 0"),
    ("-", "EXCLUDE w1", "excluded 2"),
    ("b", "SELECT * FROM t", "refused Lost 2"),
    ("b", "SELECT * FROM t", "refused Excluded w1"),
    ("b", "SYNC", "refused Excluded w1"),
    ("-", "EXCLUDE w1", "refused Excluded w1"),
    ("-", "APPLY w1", "refused Excluded w1"),
    ("-", "REPORT w1", "refused Excluded w1"),
    ("-", "RESTART w1", "refused Excluded w1"),
    ("-", "EXCLUDE c", "refused IsCoordinator c"),
    ("-", "INCLUDE c", "refused IsCoordinator c"),
];

#[test]
fn an_excluded_node_does_nothing(rt: HostRuntime) -> Result<(), Fail> {
    says(&rt, &WRITER, EXCLUDED)
}

const INCLUDED: Lines = &[
    ("-", "EXCLUDE w1", "excluded 2"),
    ("a", "CREATE TABLE t (x INT NULL)", "created commit 1"),
    ("-", "REPORT c", "horizon 1 freed 0"),
    (
        "-",
        "VERSIONS",
        "versions latest 1 horizon 1\n  c position 1 floor 1 taken 1 incarnation 1\n  w1 position 0 floor 0 taken 0 incarnation 2 excluded",
    ),
    ("-", "INCLUDE w1", "included 1"),
    ("-", "INCLUDE w1", "refused NotExcluded w1"),
    ("b", "SELECT * FROM t", "rows 0"),
    (
        "-",
        "VERSIONS",
        "versions latest 1 horizon 1\n  c position 1 floor 1 taken 1 incarnation 1\n  w1 position 1 floor 1 taken 1 incarnation 2",
    ),
];

#[test]
fn an_included_node_is_at_the_latest_commit(rt: HostRuntime) -> Result<(), Fail> {
    says(&rt, &WRITER, INCLUDED)
}
