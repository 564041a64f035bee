//! The faults of the strings of `tr`, which `ptopts` passes on and `ptrun` reports.

/// One of the two strings of `tr`.
#[derive(Debug, Clone, Copy, PartialEq, Eq)]
pub enum SetString {
    /// The first operand, `string1`.
    First = 1,
    /// The second operand, `string2`.
    Second = 2,
}

/// Why a string of `tr` does not denote an array of bytes (POSIX.1-2017, XCU, `tr`, "EXTENDED DESCRIPTION"). Of several
/// faults the leftmost is reported, and `ClassPlace` only if there is no other. POSIX leaves this order unspecified,
/// and for most kinds also whether the string is rejected.
#[derive(Debug, Clone, Copy, PartialEq, Eq)]
pub enum SetFaultKind {
    /// The string is empty.
    Empty = 1,
    /// An octal escape is above 255.
    Octal = 2,
    /// A backslash ends the string.
    Escape = 3,
    /// The lower bound of a range is above its upper bound.
    Descending = 4,
    /// `[:name:]` names no class of characters.
    UnknownClass = 5,
    /// In a `string2` that translates, a class that is not `[:lower:]` or `[:upper:]` with the other one at the same
    /// offset of `string1`. A complemented `string1` has no classes.
    ClassPlace = 6,
    /// `[=c=]` in a `string2` that translates.
    EquivPlace = 7,
    /// `[c*n]` in `string1`.
    RepeatPlace = 8,
    /// The count of `[c*n]` has a digit 8 or 9 after a leading zero, or is above 65535.
    RepeatSize = 9,
    /// A second `[c*]` or `[c*0]` in `string2`.
    SecondFill = 10,
    /// An allocation failed. Reading a string allocates nothing, so this is never returned.
    Memory = 11,
}

/// A fault of a string of `tr`.
#[derive(Debug, Clone, Copy, PartialEq, Eq)]
pub struct SetFault {
    /// The string at fault.
    pub string: SetString,
    /// The kind of the fault.
    pub kind: SetFaultKind,
}
