//! Assertions as functions: a macro that expands a comparison costs a proof at each use. Used by all modules here.

use std::fmt::Debug;
use std::process::Abort;

/// Fails the test unless the two values are equal.
pub fn same<T: PartialEq + Debug>(rt: &impl Abort, found: &T, wanted: &T) {
    assert_eq!(rt; found, wanted);
}

/// Fails the test, and reports `of`, unless the two values are equal.
pub fn same_of<W: Debug, T: PartialEq + Debug>(rt: &impl Abort, of: &W, found: &T, wanted: &T) {
    assert_eq!(rt; found, wanted, "{of:?}");
}

/// Fails the test, and reports `of`, unless the fact holds.
pub fn holds_of<W: Debug>(rt: &impl Abort, of: &W, fact: bool) {
    assert!(rt; fact, "{of:?}");
}
