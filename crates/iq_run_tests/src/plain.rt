//! Runs compared with the plain program, which computes the definitions on lists; what it answers is printed here by hand.
ghost use Rattle.std.specs.Prelude.{◌<◌, length};

use iq_base::Refusal;
use iq_history::Entry;
use iq_model::{Answer, AnswerRows, Out, Reply, Said};
use iq_outside::{SureDevice, SureSink};
use iq_plain_runs::plain_run;
use iq_run::step_run;
use iq_script::{MOST_BYTES, read_script};
use std::fmt::Write;
use std::process::Abort;
use std::sync::Wait;
use std::test::Fail;
use std::thread::Threads;

/// Prints a refusal that the scripts here meet.
fn push_refusal(text: &mut String, cause: &Refusal) -> Result<(), Fail> {
    match cause {
        Refusal::NoTable { name } => write!(text, "NoTable {name}")?,
        Refusal::TableExists { name } => write!(text, "TableExists {name}")?,
        Refusal::NoColumn { name } => write!(text, "NoColumn {name}")?,
        Refusal::TypeMismatch { column } => write!(text, "TypeMismatch {column}")?,
        Refusal::BadRow { row, field, cause } => write!(text, "BadRow {row} {field} {cause:?}")?,
        other => write!(text, "{other:?}")?,
    }
    Ok(())
}

/// Prints a row of an answer, whose texts have no quotes.
fn push_row(text: &mut String, rows: &AnswerRows, r: usize) -> Result<(), Fail>
    requires { r < length rows.now }
{
    let mut before = "  ";
    for c in 0..rows.width(r) {
        text.push_str(before)?;
        match rows.get(r, c) {
            Out::Null => text.push_str("NULL")?,
            Out::Int(number) => write!(text, "{number}")?,
            Out::Text(value) => {
                let value = value.as_str();
                write!(text, "'{value}'")?
            }
        }
        before = ",";
    }
    text.push_str("\n")?;
    Ok(())
}

/// Prints a reply.
fn push_reply(text: &mut String, reply: &Reply) -> Result<(), Fail> {
    let line = reply.line;
    match &reply.said {
        Said::Created {
            commit: Some(commit),
        } => write!(text, "@{line} created commit {commit}\n")?,
        Said::Dropped {
            commit: Some(commit),
        } => write!(text, "@{line} dropped commit {commit}\n")?,
        Said::Inserted {
            rows,
            commit: Some(commit),
        } => write!(text, "@{line} inserted {rows} commit {commit}\n")?,
        Said::Answer(Answer::Rows(rows)) => {
            let count = rows.len();
            write!(text, "@{line} rows {count}\n")?;
            for r in 0..count {
                push_row(text, rows, r)?;
            }
        }
        Said::Refused(cause) => {
            write!(text, "@{line} refused ")?;
            push_refusal(text, cause)?;
            text.push_str("\n")?;
        }
        other => write!(text, "{other:?}")?,
    }
    Ok(())
}

/// Prints an entry behind its number.
fn push_entry(text: &mut String, entry: &Entry) -> Result<(), Fail> {
    match entry {
        Entry::Begin { s: 0, l, c } => write!(text, "begin s {l} {c}")?,
        Entry::Lock { s: 0, l, names } => {
            write!(text, "lock s {l}")?;
            let (catalog, table) = names.parts();
            if catalog {
                text.push_str(" catalog")?;
            }
            if let Some(name) = table {
                write!(text, " {name}")?;
            }
        }
        Entry::Done { s: 0, l } => write!(text, "done s {l}")?,
        Entry::Refused {
            s: Some(0),
            l,
            cause,
        } => {
            write!(text, "refused s {l} ")?;
            push_refusal(text, cause)?;
        }
        Entry::Commit { s: 0, l, c } => write!(text, "commit s {l} {c}")?,
        Entry::End { s: 0, l } => write!(text, "end s {l}")?,
        other => write!(text, "{other:?}")?,
    }
    text.push_str("\n")?;
    Ok(())
}

/// Runs a script both ways, and compares what is printed.
fn agrees<R: Threads + Wait + Sync + Abort + AllocGlobal>(rt: &R, text: &str) -> Result<(), Fail> {
    let alloc = rt.alloc();
    assert!(rt; text.len() <= MOST_BYTES);
    let script = read_script(alloc, text.as_bytes())?;
    let mut out = SureSink::new(alloc);
    let ran = step_run(
        rt,
        alloc,
        &script,
        SureDevice::new(Vec::new(alloc)),
        &mut out,
    );
    assert_eq!(rt; ran.cause.status(), 0);
    let plain = plain_run(alloc, 4, true, &script, &[])?;
    let mut want = String::new(alloc);
    for line in script.lines.as_slice() {
        push_reply(&mut want, plain.reply(line).ok_or("a reply")?)?;
    }
    let count = plain.entries().len();
    write!(want, "history {count}\n")?;
    for (at, entry) in plain.entries().iter().enumerate() {
        let number = at.saturating_add(1);
        write!(want, "#{number} ")?;
        push_entry(&mut want, entry)?;
    }
    want.push_str("census free 0 reserved 0 private 0 reached 0 waiting 0\n")?;
    assert_eq!(rt; out.written(), want.as_str().as_bytes());
    Ok(())
}

#[test]
fn a_run_is_that_of_the_plain_program(rt: HostRuntime) -> Result<(), Fail> {
    agrees(&rt, "")?;
    agrees(
        &rt,
        "CREATE TABLE t (x INT NULL, y INT NULL)
INSERT INTO t VALUES (1, 10), (2, NULL)
SELECT x, y FROM t
SELECT COUNT(*) FROM t
CREATE TABLE u (z INT NULL)
CREATE TABLE a (z INT NULL)
INSERT INTO u VALUES (2147483647), (-2147483648), (NULL)
SELECT z FROM a
SELECT z, z FROM u
SELECT COUNT(*) FROM a
SELECT y, x, y FROM t
",
    )?;
    agrees(
        &rt,
        "SELECT x FROM t
INSERT INTO t VALUES (1)
CREATE TABLE t (x INT NULL)
CREATE TABLE T (y INT NULL)
INSERT INTO t VALUES (1), (2, 3), (NULL)
INSERT INTO t VALUES (1), (2)
SELECT y, z FROM t
SELECT x, z FROM t
INSERT INTO t VALUES (3)
SELECT x FROM t
",
    )
}

#[test]
fn types_and_tests_are_those_of_the_plain_program(rt: HostRuntime) -> Result<(), Fail> {
    agrees(
        &rt,
        "CREATE TABLE t (a INT NOT NULL, b BIGINT, c VARCHAR(5))
INSERT INTO t VALUES (1, 9223372036854775807, 'one'), (2, NULL, 'two'), (3, -9223372036854775808, NULL)
INSERT INTO t VALUES (4, 4, ''), (NULL, 1, 'x')
INSERT INTO t VALUES (4, 'x', 'x')
INSERT INTO t VALUES (4, 1, 2)
INSERT INTO t VALUES (2147483648, 1, 'x')
INSERT INTO t VALUES (4, 1, 'sixsix')
SELECT * FROM t
SELECT c, a FROM t WHERE a >= 2
SELECT a FROM t WHERE b <> -9223372036854775808
SELECT COUNT(*) FROM t WHERE c IS NULL
SELECT a FROM t WHERE c IN ('two', 'one', NULL)
SELECT a FROM t WHERE a NOT BETWEEN 2 AND 2
SELECT a FROM t WHERE a < b
SELECT a FROM t WHERE c = 1
SELECT a FROM t WHERE a = c
SELECT a FROM t WHERE d = 1
SELECT z FROM t WHERE d = 1
DROP TABLE u
DROP TABLE t
SELECT * FROM t
CREATE TABLE t (z INT)
SELECT COUNT(*) FROM t WHERE z = NULL
",
    )
}

#[test]
fn rows_over_several_pages_are_those_of_the_plain_program(rt: HostRuntime) -> Result<(), Fail> {
    let alloc = rt.alloc();
    let mut script = String::from_str(alloc, "CREATE TABLE t (x INT NULL, y INT NULL)\n")?;
    for line in 0..9 {
        script.push_str("INSERT INTO t VALUES (-1, NULL)")?;
        for row in 0..87 + line {
            write!(script, ", ({row}, {line})")?;
        }
        script.push_str("\nSELECT y, x FROM t\nSELECT COUNT(*) FROM t\n")?;
    }
    agrees(&rt, script.as_str())
}
