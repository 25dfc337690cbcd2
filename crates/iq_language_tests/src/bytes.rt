//! Every byte at every place of a line.
use crate::faults::told;
use std::alloc::{AllocError, Global};
use std::test::Fail;

/// The line.
const LINE: &[u8] = b"INSERT INTO t VALUES (-1, 'a')";

/// The bytes that may begin a word.
const LETTERS: &[u8] = b"ABCDEFGHIJKLMNOPQRSTUVWXYZ_abcdefghijklmnopqrstuvwxyz";

const DIGITS: &[u8] = b"0123456789";

/// For each place of the line what is told where another byte stands there: of most bytes, and of those that are named; a byte past 127 is no
/// UTF-8.
const PLACES: [(&str, &[(&[u8], &str)]); 30] = [
    (
        "1 Syntax 1",
        &[
            (b"\t ", "1 Syntax 2"),
            (b"\n", "2 Syntax 1"),
            (b"Ii", "read"),
        ],
    ),
    ("1 Syntax 1", &[(b":", "1 Syntax 3"), (b"Nn", "read")]),
    ("1 Syntax 1", &[(b"Ss", "read")]),
    ("1 Syntax 1", &[(b":", "1 Syntax 5"), (b"Ee", "read")]),
    ("1 Syntax 1", &[(b":", "1 Syntax 6"), (b"Rr", "read")]),
    ("1 Syntax 1", &[(b":", "1 Syntax 8"), (b"Tt", "read")]),
    (
        "1 Syntax 7",
        &[
            (b"\t ", "read"),
            (LETTERS, "1 Syntax 1"),
            (DIGITS, "1 Syntax 1"),
        ],
    ),
    ("1 Syntax 8", &[(b"\t ", "1 Syntax 9"), (b"Ii", "read")]),
    ("1 Syntax 8", &[(b"Nn", "read")]),
    ("1 Syntax 8", &[(b"Tt", "read")]),
    ("1 Syntax 8", &[(b"Oo", "read")]),
    (
        "1 Syntax 12",
        &[
            (b"\t ", "read"),
            (LETTERS, "1 Syntax 8"),
            (DIGITS, "1 Syntax 8"),
        ],
    ),
    ("1 Syntax 13", &[(b"\t ", "1 Syntax 15"), (LETTERS, "read")]),
    (
        "1 Syntax 14",
        &[
            (b"\t ", "read"),
            (LETTERS, "1 Syntax 22"),
            (DIGITS, "1 Syntax 22"),
        ],
    ),
    ("1 Syntax 15", &[(b"\t ", "1 Syntax 16"), (b"Vv", "read")]),
    ("1 Syntax 15", &[(b"Aa", "read")]),
    ("1 Syntax 15", &[(b"Ll", "read")]),
    ("1 Syntax 15", &[(b"Uu", "read")]),
    ("1 Syntax 15", &[(b"Ee", "read")]),
    ("1 Syntax 15", &[(b"Ss", "read")]),
    (
        "1 Syntax 21",
        &[
            (b"\t ", "read"),
            (b"(", "1 Syntax 22"),
            (LETTERS, "1 Syntax 15"),
            (DIGITS, "1 Syntax 15"),
        ],
    ),
    ("1 Syntax 22", &[(b"\t ", "1 Syntax 23"), (b"(", "read")]),
    (
        "1 Syntax 23",
        &[(DIGITS, "read"), (b"\t -", "read"), (b"'", "1 Syntax 28")],
    ),
    ("1 Syntax 23", &[(DIGITS, "read")]),
    (
        "1 Syntax 25",
        &[
            (DIGITS, "1 Syntax 27"),
            (b"\t )", "1 Syntax 27"),
            (b",", "read"),
            (LETTERS, "1 Syntax 23"),
        ],
    ),
    (
        "1 Syntax 26",
        &[
            (b"\t ", "read"),
            (b"'", "1 Syntax 28"),
            (DIGITS, "1 Syntax 27"),
        ],
    ),
    ("1 Syntax 27", &[(b"\t ", "1 Syntax 28"), (b"'", "read")]),
    ("read", &[(b"\n'", "1 Syntax 27")]),
    ("1 Syntax 27", &[(b"'", "read")]),
    (
        "1 Syntax 30",
        &[
            (b"\t ,", "1 Syntax 31"),
            (b"'", "1 Syntax 27"),
            (b")", "read"),
        ],
    ),
];

/// The line with another byte at a place.
fn changed(alloc: Global, place: usize, byte: u8) -> Result<Vec<u8>, AllocError> {
    let mut bytes = Vec::new(alloc);
    for (at, old) in LINE.iter().enumerate() {
        bytes.push(if at == place { byte } else { *old })?;
    }
    Ok(bytes)
}

/// What is wanted of a byte at a place.
fn wanted<'a>(most: &'a str, others: &'a [(&'a [u8], &'a str)], byte: u8) -> &'a str {
    if byte > 127 {
        return "1 NotUtf8";
    }
    for (bytes, fault) in others {
        if bytes.contains(&byte) {
            return fault;
        }
    }
    most
}

#[test]
fn every_byte_at_every_place_is_read_or_told(rt: HostRuntime) -> Result<(), Fail> {
    for (place, (most, others)) in PLACES.iter().enumerate() {
        for byte in 0..=255 {
            let read = told(rt.alloc(), &changed(rt.alloc(), place, byte)?)?;
            let fault = wanted(most, others, byte);
            assert!(rt;
                read.as_str() == fault,
                "{byte} at {place} is told as {read}"
            );
        }
    }
    Ok(())
}
