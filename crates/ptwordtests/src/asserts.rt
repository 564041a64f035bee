//! Assertions that the other modules share: each use of `assert_eq!` writes out both values, and costs its own proof.

use std::fmt::Debug;
use std::process::Abort;

/// Fails the test unless the two are equal.
pub fn assert_same<T: PartialEq + Debug>(rt: &impl Abort, actual: &T, expected: &T) {
    assert_eq!(rt; actual, expected);
}

/// Fails the test unless the two are equal, and prints the context `of`.
pub fn assert_same_for<W: Debug, T: PartialEq + Debug>(
    rt: &impl Abort,
    of: &W,
    actual: &T,
    expected: &T,
) {
    assert_eq!(rt; actual, expected, "{of:?}");
}

/// Fails the test unless the condition holds, and prints the context `of`.
pub fn assert_for<W: Debug>(rt: &impl Abort, of: &W, condition: bool) {
    assert!(rt; condition, "{of:?}");
}
