//! The faults of a command line, which `ptrun` reports as messages.

ghost use Rattle.std.specs.Prelude.{◌≡◌};

use ptlangs::SetFault;
use std::alloc::{AllocError, AllocFailed};

/// Why the words are not a command. POSIX leaves unspecified which fault is reported first. The number of each fault is
/// in its comment, because a variant with a payload cannot have a discriminant.
#[derive(Clone, Copy, Debug, PartialEq, Eq)]
pub enum UseFault<'a> {
    /// Fault 1. The first word names no tool, or there is no word.
    Tool,
    /// Fault 2. A letter of this word is not an option of the tool.
    Unknown(&'a str),
    /// Fault 3. The value of the last option is missing.
    NeedsValue(u8),
    /// Fault 4. An option with a value is present twice.
    Twice(u8),
    /// Fault 5. The two options conflict.
    Together(u8, u8),
    /// Fault 6. The value of the option is invalid.
    Value(u8, &'a str),
    /// Fault 7. The number of operands is wrong.
    Operands,
    /// Fault 8. Both operands are standard input.
    StandardTwice,
    /// Fault 9. `cut` has none of its lists.
    NeedsList,
    /// Fault 10 for the first string of `tr`, fault 11 for the second: the string at fault, and the kind of the fault,
    /// which is never `SetFaultKind::Memory`.
    String(SetFault),
    /// Fault 12. An allocation failed.
    Memory,
}

impl<'a> From<AllocError> for UseFault<'a> {
    ghost use Rattle.ptopts.specs.declared.fault.UseFault.TheVariants.{Memory};

    ghost from_gives = { λ _ e. e ≡ Memory };

    fn from(_error: AllocError) -> UseFault<'a> {
        UseFault::Memory
    }
}

impl<'a, T: Drop> From<AllocFailed<T>> for UseFault<'a> {
    ghost use Rattle.ptopts.specs.declared.fault.UseFault.TheVariants.{Memory};

    ghost from_gives = { λ _ e. e ≡ Memory };

    fn from(_error: AllocFailed<T>) -> UseFault<'a> {
        UseFault::Memory
    }
}

impl<'a> From<SetFault> for UseFault<'a> {
    ghost use Rattle.ptopts.specs.declared.fault.UseFault.TheVariants.{String};

    ghost from_gives = { λ fault e. e ≡ String fault };

    fn from(fault: SetFault) -> UseFault<'a> {
        UseFault::String(fault)
    }
}
