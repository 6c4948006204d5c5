//! The one assertion of these tests.

use std::fmt::Debug;
use std::process::Abort;

/// Asserts that both are the same, at this row. In a function of its own, so that the assertion is proved once.
pub fn same<T: PartialEq + Debug>(rt: &impl Abort, found: &T, wanted: &T, row: u32) {
    assert_eq!(rt; found, wanted, "row {row}");
}
