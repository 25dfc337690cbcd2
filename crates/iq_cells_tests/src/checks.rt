//! Comparing what was found with what is wanted. It is a function of its own, so that it is proved once and not at each use.
use std::fmt::Debug;
use std::process::Abort;

/// Asserts that two values are the same, in a row of a table.
pub fn same<T: PartialEq + Debug>(rt: &impl Abort, found: &T, wanted: &T, row: usize) {
    assert_eq!(rt; *found, *wanted, "row {row}");
}

/// Asserts that two lists of bytes are the same, in a row of a table.
pub fn same_bytes(rt: &impl Abort, found: &[u8], wanted: &[u8], row: usize) {
    assert_eq!(rt; found, wanted, "row {row}");
}

/// Asserts that two lists of codes are the same, in a row of a table.
pub fn same_codes(rt: &impl Abort, found: &[u32], wanted: &[u32], row: usize) {
    assert_eq!(rt; found, wanted, "row {row}");
}
