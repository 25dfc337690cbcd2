//! Scripts, and what is read of them.
use iq_script::{MOST_BYTES, read_any_script};
use std::alloc::{AllocError, Global};
use std::process::Abort;
use std::test::Fail;

/// Bytes of scripts, and what is read of their nodes, sessions and lines.
const SCRIPTS: [(&[u8], &str); 17] = [
    (b"", "c Coordinator; s 0 0;"),
    (
        b"\n\r\n \t\r\n-- \xff\0\n \t-- x\r\n--",
        "c Coordinator; s 0 0;",
    ),
    (b"SYNC", "c Coordinator; s 0 1; 1 Some(0) Statement(Sync)"),
    (
        b"sync ; \r",
        "c Coordinator; s 0 1; 1 Some(0) Statement(Sync)",
    ),
    (
        b"\n--\nCOMMIT;\r\n\r\n  S:rollback\n",
        "c Coordinator; s 0 2; 3 Some(0) Statement(Commit) 5 Some(0) Statement(Rollback)",
    ),
    (
        b"SPACE\nAPPLY C;\nTAKE 4294967295\nLOSE -0",
        "c Coordinator; s 0 0; 1 None Step(Space) 2 None Step(Apply(c)) 3 None Step(Take(4294967295)) 4 None Step(Lose(0))",
    ),
    (
        b"REPORT r\nRESTART r\nVERSIONS",
        "c Coordinator; s 0 0; 1 None Step(Report(r)) 2 None Step(Restart(r)) 3 None Step(Versions)",
    ),
    (
        b"alter multiplex server r status excluded\nALTER MULTIPLEX SERVER r STATUS INCLUDED;",
        "c Coordinator; s 0 0; 1 None Step(Exclude(r)) 2 None Step(Include(r))",
    ),
    (b"NODE x COORDINATOR", "x Coordinator;"),
    (
        b"node x coordinator;\nSESSION a ON x\nNODE y WRITER\nNODE z READER\nSESSION b ON z\nSESSION d ON y",
        "x Coordinator; y Writer; z Reader; a 0 0; b 2 0; d 1 0;",
    ),
    (
        b"NODE x COORDINATOR\nSESSION a ON x\nSESSION b ON x\nb: SYNC\nSYNC\nb: BEGIN TRANSACTION\nSPACE",
        "x Coordinator; a 0 1; b 0 2; 4 Some(1) Statement(Sync) 5 Some(0) Statement(Sync) 6 Some(1) Statement(Begin) 7 None Step(Space)",
    ),
    (
        b"LOAD TABLE t ROWS 2\n1,a\r\n\n-- x",
        "c Coordinator; s 0 1; 1 Some(0) Statement(Write(Load { table: t, rows: 2, text: Listed { items: [49, 44, 97, 13, 10, 10] } }))",
    ),
    (
        b"s: LOAD TABLE t ROWS 1\n\xff",
        "c Coordinator; s 0 1; 1 Some(0) Statement(Write(Load { table: t, rows: 1, text: Listed { items: [255] } }))",
    ),
    (
        b"LOAD TABLE t ROWS 1\nNODE\nSYNC",
        "c Coordinator; s 0 2; 1 Some(0) Statement(Write(Load { table: t, rows: 1, text: Listed { items: [78, 79, 68, 69, 10] } })) 3 Some(0) Statement(Sync)",
    ),
    (
        b"LOAD TABLE t ROWS 1\nLOAD TABLE t ROWS 9\nSYNC",
        "c Coordinator; s 0 2; 1 Some(0) Statement(Write(Load { table: t, rows: 1, text: Listed { items: [76, 79, 65, 68, 32, 84, 65, 66, 76, 69, 32, 116, 32, 82, 79, 87, 83, 32, 57, 10] } })) 3 Some(0) Statement(Sync)",
    ),
    (
        b"SAVEPOINT coordinators\nRELEASE SAVEPOINT failover",
        "c Coordinator; s 0 2; 1 Some(0) Statement(Savepoint(coordinators)) 2 Some(0) Statement(Release(failover))",
    ),
    (
        b"DELETE FROM t WHERE x = 'a''b'",
        "c Coordinator; s 0 1; 1 Some(0) Statement(Write(Delete { table: t, cond: Some(Test(Compare { column: x, op: Eq, value: Text(a'b) })) }))",
    ),
];

fn shown(alloc: Global, bytes: &[u8]) -> Result<String, AllocError> {
    let mut text = String::new(alloc);
    if bytes.len() > MOST_BYTES {
        return Ok(text);
    }
    match read_any_script(alloc, bytes) {
        Err(refusal) => text.push_str(format!(in alloc; "{refusal:?}")?.as_str())?,
        Ok(script) => {
            for node in script.nodes.as_slice() {
                text.push_str(format!(in alloc;
                    "{} {:?}; ",
                    node.name.as_str(),
                    node.kind
                )?.as_str())?;
            }
            for session in script.sessions.as_slice() {
                text.push_str(format!(in alloc;
                    "{} {} {}; ",
                    session.name.as_str(),
                    session.node,
                    session.lines
                )?
                .as_str())?;
            }
            for line in script.lines.as_slice() {
                text.push_str(format!(in alloc;
                    "{} {:?} {:?} ",
                    line.number, line.session, line.deed
                )?.as_str())?;
            }
        }
    }
    Ok(text)
}

fn are_read<R: Abort + AllocGlobal>(rt: &R, table: &[(&[u8], &str)]) -> Result<(), Fail> {
    for (bytes, script) in table {
        let read = shown(rt.alloc(), bytes)?;
        assert!(rt;
            read.as_str().trim_end() == *script,
            "{script} is read as {read}"
        );
    }
    Ok(())
}

#[test]
fn a_script_is_read_with_its_nodes_sessions_lines_and_data(rt: HostRuntime) -> Result<(), Fail> {
    are_read(&rt, &SCRIPTS)
}
