//! Texts at their limits.
use crate::faults::told;
use std::alloc::{AllocError, Global};
use std::test::Fail;

fn times(alloc: Global, text: &str, count: u32) -> Result<String, AllocError> {
    let mut all = String::new(alloc);
    for _ in 0..count {
        all.push_str(text)?;
    }
    Ok(all)
}

/// A front, a text so many times, an end, and what is told of the script.
const REPEATED: [(&str, &str, u32, &str, &str); 15] = [
    ("-- one\n\n", "SELECT x FROM t\n", 100_000, "\n--", "read"),
    (
        "-- one\n\n",
        "SELECT x FROM t\n",
        100_000,
        "\nSELECT x",
        "100004 TooManyLines",
    ),
    (
        "",
        "SELECT x FROM t\n",
        100_000,
        "\u{e9}",
        "100001 TooManyLines",
    ),
    (
        "NODE c COORDINATOR\n",
        "SPACE\n",
        99_999,
        "SPACE",
        "100001 TooManyLines",
    ),
    (
        "LOAD TABLE t ROWS 1000000\n",
        "SELEC\n",
        1_000_000,
        "",
        "1 Unbuilt",
    ),
    (
        "LOAD TABLE t ROWS 1000000\n",
        "SELEC\n",
        999_999,
        "",
        "1 ShortLoad",
    ),
    ("SELECT x FROM t", " ", 5_000, "", "read"),
    ("INSERT INTO t VALUES (1)", ",(1)", 50_000, "", "read"),
    ("INSERT INTO t VALUES (1", ",1", 50_000, ")", "read"),
    (
        "INSERT INTO t VALUES (1",
        ",1",
        50_000,
        "",
        "1 Syntax 100024",
    ),
    ("INSERT INTO t VALUES (", ",", 1_000_000, "", "1 Syntax 23"),
    ("SELECT x FROM t WHERE ", "(", 1_000_000, "", "1 Syntax 87"),
    (
        "SELECT x FROM t WHERE ",
        "NOT ",
        100_000,
        "",
        "1 Syntax 279",
    ),
    ("INSERT INTO t VALUES ('", "a", 255, "')", "read"),
    ("INSERT INTO t VALUES ('", "a", 256, "')", "1 Syntax 23"),
];

#[test]
fn texts_at_their_limits_are_read_or_told(rt: HostRuntime) -> Result<(), Fail> {
    for (front, text, count, end, wanted) in REPEATED {
        let middle = times(rt.alloc(), text, count)?;
        let script = format!(in rt.alloc(); "{front}{middle}{end}")?;
        let read = told(rt.alloc(), script.as_bytes())?;
        assert_eq!(rt; read.as_str(), wanted);
    }
    Ok(())
}

/// Declarations of eight nodes and of 32 sessions.
fn declared(alloc: Global, nodes: u32, sessions: u32) -> Result<String, AllocError> {
    let mut text = String::from_str(alloc, "NODE c COORDINATOR\n")?;
    for node in 1..nodes {
        text.push_str(format!(in alloc; "NODE n{node} READER\n")?.as_str())?;
    }
    for session in 0..sessions {
        text.push_str(format!(in alloc; "SESSION s{session} ON c\n")?.as_str())?;
    }
    Ok(text)
}

#[test]
fn a_script_has_8_nodes_and_32_sessions_at_most(rt: HostRuntime) -> Result<(), Fail> {
    for (nodes, sessions, wanted) in [
        (8, 32, "1 Unbuilt"),
        (9, 1, "9 TooManyNodes"),
        (1, 33, "34 TooManySessions"),
        (8, 33, "41 TooManySessions"),
    ] {
        let script = declared(rt.alloc(), nodes, sessions)?;
        let read = told(rt.alloc(), script.as_bytes())?;
        assert_eq!(rt; read.as_str(), wanted);
    }
    Ok(())
}
