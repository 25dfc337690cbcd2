//! Comparing what was found with what is wanted. It is a function of its own, so that it is proved once and not at each use.
use std::fmt::Debug;
use std::process::Abort;

/// Asserts that two values are the same, in a row of a table.
pub fn same<T: PartialEq + Debug>(rt: &impl Abort, found: &T, wanted: &T, row: usize) {
    assert_eq!(rt; *found, *wanted, "row {row}");
}
