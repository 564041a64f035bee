//! Assertions for all tests. They are functions because each expansion of an assertion macro has to be proved.

use std::fmt::Debug;
use std::process::Abort;

/// Ends the test if the values differ.
pub fn assert_same<T: PartialEq + Debug>(rt: &impl Abort, actual: &T, expected: &T) {
    assert_eq!(rt; actual, expected);
}

/// Ends the test if the values differ, and prints the context.
pub fn assert_same_for<W: Debug, T: PartialEq + Debug>(
    rt: &impl Abort,
    context: &W,
    actual: &T,
    expected: &T,
) {
    assert_eq!(rt; actual, expected, "{context:?}");
}

/// Ends the test if the condition is false, and prints the context.
pub fn assert_for<W: Debug>(rt: &impl Abort, context: &W, condition: bool) {
    assert!(rt; condition, "{context:?}");
}
