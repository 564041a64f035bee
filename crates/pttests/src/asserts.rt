//! Assertions of all tests of the crate. They are functions because each use of a macro that prints its operands costs
//! a proof of its own.

use std::fmt::Debug;
use std::process::Abort;

/// Fails the test unless the two are equal.
pub fn assert_same<T: PartialEq + Debug>(rt: &impl Abort, actual: &T, expected: &T) {
    assert_eq!(rt; actual, expected);
}

/// Fails the test unless the two are equal, and prints `of`.
pub fn assert_same_for<W: Debug, T: PartialEq + Debug>(
    rt: &impl Abort,
    of: &W,
    actual: &T,
    expected: &T,
) {
    assert_eq!(rt; actual, expected, "{of:?}");
}

/// Fails the test unless `condition` holds, and prints `of`.
pub fn assert_for<W: Debug>(rt: &impl Abort, of: &W, condition: bool) {
    assert!(rt; condition, "{of:?}");
}
