//! Scripts that are refused, each with its first faulty line and what is wrong with it.
use iq_script::{FaultField, LineFault, MOST_BYTES, ScriptRefusal, read_script};
use std::alloc::{AllocError, Global};
use std::process::Abort;
use std::test::Fail;

/// Lines, their ends and their numbers: bytes of scripts, and the line and the fault that is told.
const LINES: [(&[u8], &str); 16] = [
    (b";\n", "1 Syntax 1"),
    (b"-\n", "1 Syntax 1"),
    (b"- - x\n", "1 Syntax 1"),
    (b"\r\r\n", "1 Syntax 1"),
    (b"\n\nDROP\nDROP", "3 Syntax 5"),
    (b"SELECT x FROM t\r\r\n", "1 Syntax 16"),
    (b"SELECT x\rFROM t\n", "1 Syntax 9"),
    (b"SELECT x FROM\r\nt\r\n", "1 Syntax 14"),
    (b"SELECT x FROM t; SELECT x FROM t", "1 Syntax 18"),
    (b"SELECT x FROM t;;", "1 Syntax 17"),
    (b"SELECT x FROM t -- all", "1 Syntax 17"),
    (b"-- \xff\nSELECT \xff", "2 NotUtf8"),
    (b"\xff", "1 NotUtf8"),
    (b"SELECT 'a\xc3'", "1 NotUtf8"),
    (b"SELECT \xc3\xa9 FROM t", "1 Syntax 8"),
    (b"SELEC x\n\xff", "1 Syntax 1"),
];

/// The place within a statement: bytes of scripts, and the line and the fault that is told.
const PLACES: [(&[u8], &str); 20] = [
    (b"SELEC x", "1 Syntax 1"),
    (b"SELECT x FROM", "1 Syntax 14"),
    (b"  SELECT x FROM select", "1 Syntax 17"),
    (b"SELECT x y FROM t", "1 Syntax 10"),
    (
        b"SELECT aaaaaaaaaaaaaaaaaaaaaaaaaaaaaaa FROM t",
        "1 Syntax 8",
    ),
    (b"INSERT INTO t VALUES (12ab)", "1 Syntax 23"),
    (b"INSERT INTO t VALUES (9223372036854775808)", "1 Syntax 23"),
    (b"INSERT INTO t VALUES ('ab)", "1 Syntax 23"),
    (b"INSERT INTO t VALUES ('ab'')", "1 Syntax 23"),
    (b"INSERT INTO t VALUES (- 1)", "1 Syntax 23"),
    (b"INSERT INTO t VALUES (+1)", "1 Syntax 23"),
    (b"INSERT INTO t VALUES (1,)", "1 Syntax 25"),
    (b"CREATE TABLE t ()", "1 Syntax 17"),
    (b"CREATE TABLE t (x INT NULL, X INT)", "1 Syntax 29"),
    (b"CREATE TABLE t (x VARCHAR(256))", "1 Syntax 27"),
    (b"CREATE CMP INDEX k ON t (a, a)", "1 Syntax 29"),
    (b"UPDATE t SET x = 1, x = 2", "1 Syntax 21"),
    (b"LOAD TABLE t ROWS 0", "1 Syntax 19"),
    (b"LOAD TABLE t ROWS 1000001", "1 Syntax 19"),
    (b"SYNC SYNC", "1 Syntax 6"),
];

/// Sessions, and places behind their names: bytes of scripts, and the line and the fault that is told.
const SESSIONS: [(&[u8], &str); 15] = [
    (b"s: SELEC x", "1 Syntax 4"),
    (b"  s:\tSELECT x FROM", "1 Syntax 19"),
    (b"s:", "1 Syntax 3"),
    (b"s: ;", "1 Syntax 4"),
    (b"s: APPLY c", "1 Syntax 4"),
    (b"s: t: SYNC", "1 Syntax 4"),
    (b"s : SYNC", "1 Syntax 1"),
    (b"select: SYNC", "1 Syntax 7"),
    (b"node: SYNC", "1 Syntax 5"),
    (b": SYNC", "1 Syntax 1"),
    (b"zz: SYNC", "1 UnknownSession zz"),
    (b"NODE c COORDINATOR\nSYNC", "2 UnknownSession s"),
    (b"NODE c COORDINATOR\ns: SYNC", "2 UnknownSession s"),
    (
        b"NODE c COORDINATOR\nSESSION a ON c\ns: SYNC",
        "3 UnknownSession s",
    ),
    (b"b: SELEC x\nb: SYNC", "1 Syntax 4"),
];

/// Declarations and steps: bytes of scripts, and the line and the fault that is told.
const DIRECTIVES: [(&[u8], &str); 24] = [
    (b"NODE", "1 Syntax 5"),
    (b"NODE c", "1 Syntax 7"),
    (b"NODE writer WRITER", "1 Syntax 6"),
    (b"NODE c COORDINATOR c", "1 Syntax 20"),
    (b"SESSION a IN c", "1 Syntax 11"),
    (b"TAKE -1", "1 Syntax 6"),
    (b"TAKE 4294967296", "1 Syntax 6"),
    (b"LOSE 'x'", "1 Syntax 6"),
    (b"APPLY 1", "1 Syntax 7"),
    (b"SPACE 1", "1 Syntax 7"),
    (b"ALTER MULTIPLEX SERVER w STATUS WRITER", "1 Syntax 33"),
    (b"ALTER TABLE t", "1 Syntax 7"),
    (b"NODE a WRITER", "1 NoCoordinator"),
    (b"SESSION a ON c", "1 NoCoordinator"),
    (
        b"NODE a COORDINATOR\nNODE b COORDINATOR",
        "2 SecondCoordinator",
    ),
    (
        b"NODE a COORDINATOR\nNODE a COORDINATOR",
        "2 SecondCoordinator",
    ),
    (b"NODE a COORDINATOR\nNODE A WRITER", "2 NodeTwice a"),
    (
        b"NODE a COORDINATOR\nSESSION s ON a\nNODE s READER",
        "3 NodeTwice s",
    ),
    (b"NODE a COORDINATOR\nSESSION a ON a", "2 SessionTwice a"),
    (
        b"NODE a COORDINATOR\nSESSION s ON a\nSESSION s ON b",
        "3 SessionTwice s",
    ),
    (b"NODE a COORDINATOR\nSESSION s ON b", "2 UnknownNode b"),
    (b"SYNC\nNODE a COORDINATOR", "2 LateDeclaration"),
    (b"SPACE\nSESSION a ON c", "2 LateDeclaration"),
    (
        b"NODE a COORDINATOR\nVERSIONS\nNODE a COORDINATOR",
        "3 LateDeclaration",
    ),
];

/// Data lines: bytes of scripts, and the line and the fault that is told.
const DATA: [(&[u8], &str); 5] = [
    (b"LOAD TABLE t ROWS 1", "1 ShortLoad"),
    (b"LOAD TABLE t ROWS 1\n", "1 ShortLoad"),
    (b"LOAD TABLE t ROWS 3\n\n\n", "1 ShortLoad"),
    (b"b: LOAD TABLE t ROWS 9", "1 UnknownSession b"),
    (b"LOAD TABLE t ROWS 2\n\xff\nSELEC\nSELEC", "4 Syntax 1"),
];

/// What is right, and isn't run today: bytes of scripts, and the line and the fault that is told.
const UNBUILT: [(&[u8], &str); 6] = [
    (b"SYNC", "1 Unbuilt"),
    (b"SELECT x FROM t\n\nDELETE FROM t\nSYNC", "3 Unbuilt"),
    (
        b"NODE c COORDINATOR\nSESSION s ON c\nSELECT x FROM t",
        "1 Unbuilt",
    ),
    (b"--\nSELECT x FROM t\nVERSIONS", "3 Unbuilt"),
    (b"DELETE FROM t\nDROP", "2 Syntax 5"),
    (b"SELECT x FROM t WHERE x = 1 AND x = 2", "1 Unbuilt"),
];

fn fault(alloc: Global, cause: &LineFault) -> Result<String, AllocError> {
    let name = cause.name();
    match cause.field() {
        FaultField::Nothing => String::from_str(alloc, name),
        FaultField::Place(place) => format!(in alloc; "{name} {place}"),
        FaultField::Named(told) => {
            let text = told.as_str();
            format!(in alloc; "{name} {text}")
        }
    }
}

fn refused(alloc: Global, refusal: &ScriptRefusal) -> Result<String, AllocError> {
    match refusal {
        ScriptRefusal::NoMemory => String::from_str(alloc, "no memory"),
        ScriptRefusal::ScriptFault { line, cause } => {
            let fault = fault(alloc, cause)?;
            let text = fault.as_str();
            format!(in alloc; "{line} {text}")
        }
    }
}

/// What is told of a script: the line and the fault, or that it is read.
pub fn told(alloc: Global, bytes: &[u8]) -> Result<String, AllocError> {
    if bytes.len() > MOST_BYTES {
        return String::from_str(alloc, "too long");
    }
    match read_script(alloc, bytes) {
        Ok(script) => String::from_str(alloc, "read"),
        Err(refusal) => refused(alloc, &refusal),
    }
}

fn are_told<R: Abort + AllocGlobal>(rt: &R, table: &[(&[u8], &str)]) -> Result<(), Fail> {
    for (bytes, fault) in table {
        let read = told(rt.alloc(), bytes)?;
        assert!(rt; read.as_str() == *fault, "{fault} is told as {read}");
    }
    Ok(())
}

#[test]
fn the_first_faulty_line_is_told_by_its_number(rt: HostRuntime) -> Result<(), Fail> {
    are_told(&rt, &LINES)
}

#[test]
fn a_wrong_token_is_told_by_its_place(rt: HostRuntime) -> Result<(), Fail> {
    are_told(&rt, &PLACES)
}

#[test]
fn a_place_counts_the_name_of_the_session(rt: HostRuntime) -> Result<(), Fail> {
    are_told(&rt, &SESSIONS)
}

#[test]
fn a_directive_is_told_where_it_may_not_stand(rt: HostRuntime) -> Result<(), Fail> {
    are_told(&rt, &DIRECTIVES)
}

#[test]
fn data_are_passed_or_wanting(rt: HostRuntime) -> Result<(), Fail> {
    are_told(&rt, &DATA)
}

#[test]
fn what_is_right_may_be_unbuilt(rt: HostRuntime) -> Result<(), Fail> {
    are_told(&rt, &UNBUILT)
}
