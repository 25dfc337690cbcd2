//! Whole runs over streams in memory: what is printed, where and with which status.
use iq_outside::{
    MemorySink, MemorySource, OpenGate, Sink, Source, SureDevice, SureSink, SureSource, read_whole,
};
use iq_run::multiplex;
use std::alloc::Global;
use std::fmt::Write;
use std::process::Abort;
use std::sync::Wait;
use std::test::Fail;
use std::thread::Threads;

/// A first run.
const FIRST: &str = "CREATE TABLE t (x INT NULL, y INT NULL)
INSERT INTO t VALUES (1, 10), (2, NULL)
SELECT x, y FROM t
";

/// What a first run prints.
const FIRST_SAYS: &str = "@1 created commit 1
@2 inserted 2 commit 2
@3 rows 2
  1,10
  2,NULL
history 11
#1 begin s 1 0
#2 lock s 1 catalog
#3 done s 1
#4 commit s 1 1
#5 begin s 2 1
#6 lock s 2 t
#7 done s 2
#8 commit s 2 2
#9 begin s 3 2
#10 done s 3
#11 end s 3
census free 0 reserved 0 private 0 reached 0 waiting 0
";

/// What a script without statements prints.
const NOTHING_SAYS: &str = "history 0\ncensus free 0 reserved 0 private 0 reached 0 waiting 0\n";

fn words(alloc: Global, words: &[&str]) -> Result<Vec<String>, Fail> {
    let mut list = Vec::new(alloc);
    for word in words {
        list.push(String::from_str(alloc, word)?)?;
    }
    Ok(list)
}

/// Runs the program on a source and a sink, and answers the status and what standard error got.
fn run<R: Threads + Wait + Sync + AllocGlobal, I: Source, O: Sink>(
    rt: &R,
    said: &[&str],
    source: &mut I,
    out: &mut O,
) -> Result<(u8, SureSink), Fail> {
    let alloc = rt.alloc();
    let said = words(alloc, said)?;
    let mut err = SureSink::new(alloc);
    let ended = multiplex(
        rt,
        alloc,
        said.as_slice(),
        source,
        out,
        &mut err,
        SureDevice::new(Vec::new(alloc)),
        &OpenGate,
    );
    Ok((ended.status, err))
}

/// Runs a script, and compares the status, the front of what is printed, and what standard error gets.
fn prints<R: Threads + Wait + Sync + Abort + AllocGlobal>(
    rt: &R,
    script: &[u8],
    status: u8,
    out: &str,
    err: &str,
) -> Result<(), Fail> {
    let alloc = rt.alloc();
    let mut source = SureSource::new(script.to_vec(alloc)?);
    let mut sink = SureSink::new(alloc);
    let (got, said) = run(rt, &["s", "step"], &mut source, &mut sink)?;
    assert_eq!(rt; got, status);
    assert_eq!(rt; sink.written(), out.as_bytes());
    assert_eq!(rt; said.written(), err.as_bytes());
    Ok(())
}

#[test]
fn a_first_run_prints_its_replies_and_history(rt: HostRuntime) -> Result<(), Fail> {
    prints(&rt, FIRST.as_bytes(), 0, FIRST_SAYS, "")?;
    prints(&rt, b"", 0, NOTHING_SAYS, "")?;
    prints(&rt, b"-- only a remark", 0, NOTHING_SAYS, "")
}

#[test]
fn a_line_that_is_refused_changes_nothing(rt: HostRuntime) -> Result<(), Fail> {
    let script = "CREATE TABLE t (x INT NULL)
CREATE TABLE T (y INT NULL)
INSERT INTO t VALUES (1), (2, 3), (NULL)
INSERT INTO u VALUES (1, 1)
SELECT y, z FROM t
SELECT y FROM u
INSERT INTO t VALUES (-7), (NULL)
SELECT COUNT(*) FROM t
SELECT x, x FROM t;
";
    let says = "@1 created commit 1
@2 refused TableExists t
@3 refused BadRow 2 0 Count
@4 refused NoTable u
@5 refused NoColumn y
@6 refused NoTable u
@7 inserted 2 commit 2
@8 rows 1
  2
@9 rows 2
  -7,-7
  NULL,NULL
history 24
#1 begin s 1 0
#2 lock s 1 catalog
#3 done s 1
#4 commit s 1 1
#5 begin s 2 1
#6 refused s 2 TableExists t
#7 begin s 3 1
#8 refused s 3 BadRow 2 0 Count
#9 begin s 4 1
#10 refused s 4 NoTable u
#11 begin s 5 1
#12 refused s 5 NoColumn y
#13 begin s 6 1
#14 refused s 6 NoTable u
#15 begin s 7 1
#16 lock s 7 t
#17 done s 7
#18 commit s 7 2
#19 begin s 8 2
#20 done s 8
#21 end s 8
#22 begin s 9 2
#23 done s 9
#24 end s 9
census free 0 reserved 0 private 0 reached 0 waiting 0
";
    prints(&rt, script.as_bytes(), 0, says, "")
}

#[test]
fn other_words_are_a_usage_fault(rt: HostRuntime) -> Result<(), Fail> {
    let rows: [&[&str]; 6] = [
        &[],
        &["s"],
        &["", "step"],
        &["-s", "step"],
        &["s", "Step"],
        &["s", "step", "step"],
    ];
    for row in &rows {
        let alloc = rt.alloc();
        let mut source = SureSource::new(FIRST.as_bytes().to_vec(alloc)?);
        let mut sink = SureSink::new(alloc);
        let (status, err) = run(&rt, row, &mut source, &mut sink)?;
        assert_eq!(rt; status, 2, "{row:?}");
        assert!(rt; sink.written().is_empty(), "{row:?}");
        let left = read_whole(alloc, &mut source, FIRST.len())?;
        assert_eq!(rt; left.as_slice(), FIRST.as_bytes(), "{row:?}");
        assert!(rt;
            err.written().starts_with(b"usage: iqmux STORE "),
            "{row:?}"
        );
    }
    Ok(())
}

#[test]
fn a_source_that_fails_at_its_first_read_is_named(rt: HostRuntime) -> Result<(), Fail> {
    let alloc = rt.alloc();
    let mut source = MemorySource::new(FIRST.as_bytes().to_vec(alloc)?, vec![in alloc; 1]?);
    let mut sink = SureSink::new(alloc);
    let (status, err) = run(&rt, &["s", "step"], &mut source, &mut sink)?;
    assert_eq!(rt; status, 6);
    assert!(rt; sink.written().is_empty());
    assert_eq!(rt; err.written(), "iqmux: read fault 0 1\n".as_bytes());
    Ok(())
}

#[test]
fn a_sink_that_fails_at_its_second_write_has_one_byte(rt: HostRuntime) -> Result<(), Fail> {
    let alloc = rt.alloc();
    let mut source = SureSource::new(FIRST.as_bytes().to_vec(alloc)?);
    let mut sink = MemorySink::slow(1, vec![in alloc; 2]?);
    let (status, err) = run(&rt, &["s", "step"], &mut source, &mut sink)?;
    assert_eq!(rt; status, 7);
    assert_eq!(rt; sink.written(), "@".as_bytes());
    assert_eq!(rt; err.written(), "iqmux: write fault 0 1\n".as_bytes());
    Ok(())
}

#[test]
fn a_script_is_read_up_to_16_mib(rt: HostRuntime) -> Result<(), Fail> {
    let alloc = rt.alloc();
    let mut remark = vec![in alloc; b'-'; 16_777_216]?;
    prints(&rt, remark.as_slice(), 0, NOTHING_SAYS, "")?;
    remark.push(b'-')?;
    prints(&rt, remark.as_slice(), 9, "", "iqmux: too long\n")
}

#[test]
fn the_first_faulty_line_is_named(rt: HostRuntime) -> Result<(), Fail> {
    let script = b"\nSELECT x FROM t\n-- \nSELEC x FROM t\nSELEC";
    prints(&rt, script, 3, "", "iqmux: line 4 Syntax 1\n")
}

#[test]
fn a_run_of_many_rows_prints_each_row(rt: HostRuntime) -> Result<(), Fail> {
    // 61 lines of 1,018 tuples, between a table's making and two queries of it.
    let alloc = rt.alloc();
    let mut script = String::from_str(alloc, "CREATE TABLE t (x INT NULL)\n")?;
    for _ in 0..61 {
        script.push_str("INSERT INTO t VALUES  (7)")?;
        for _ in 1..1_018 {
            script.push_str(",(7)")?;
        }
        script.push_str("   \n")?;
    }
    script.push_str("SELECT COUNT(*) FROM t\nSELECT x FROM t\n")?;
    let mut source = SureSource::new(script.as_bytes().to_vec(alloc)?);
    let mut sink = SureSink::new(alloc);
    let (status, err) = run(&rt, &["s", "step"], &mut source, &mut sink)?;
    assert_eq!(rt; status, 0);
    assert!(rt; err.written().is_empty());
    let mut says = String::from_str(alloc, "@1 created commit 1\n")?;
    for line in 2..63u32 {
        write!(says, "@{line} inserted 1018 commit {line}\n")?;
    }
    says.push_str("@63 rows 1\n  62098\n@64 rows 62098\n")?;
    for _ in 0..62_098 {
        says.push_str("  7\n")?;
    }
    says.push_str("history 254\n#1 begin s 1 0\n")?;
    assert!(rt; sink.written().starts_with(says.as_bytes()));
    Ok(())
}
