//! The elements of the lists of `cut` and of `join`: the trait `Element`, the first fault of a list, and all its
//! elements. Used by `ranges` and `outlist`.
ghost use Rattle.std.specs.Prelude.{◌≡◌, ℕ, IfOk, List, None, Ok, Result};
ghost use Rattle.std.specs.Result.{result_err};
ghost use Rattle.ptlangs.specs.Numbers.{elements, traverse};

use crate::numbers::is_list_separator;
use std::alloc::{AllocError, Allocator};

/// An element of a list.
pub(crate) trait Element: Sized + Drop {
    /// Why an element is rejected.
    type Fault: Drop;

    /// The element that a text denotes, or its fault.
    ghost meaning: { List ℕ → Result Self Self.Fault };

    /// Reads one element.
    fn read(text: &[u8]) -> Result<Self, Self::Fault>
        ensures { result ≡ meaning text.now };
}

/// The first fault of a list, if there is one. Nothing is allocated.
pub(crate) fn first_fault<T: Element>(text: &[u8]) -> Option<T::Fault>
    ensures { result ≡ result_err (traverse T.meaning (elements text.now)) }
{
    let mut read = text
        .split(is_list_separator)
        .map(|element| T::read(element));
    read.find(Result::is_err).and_then(Result::err)
}

/// The elements of a list, in order, if none has a fault. Memory is requested once.
pub(crate) fn read_elements<A: Allocator, T: Element>(
    alloc: A,
    text: &[u8],
) -> Result<Vec<T, A>, AllocError>
    requires { result_err (traverse T.meaning (elements text.now)) ≡ None }
    ensures { IfOk result (λ v. traverse T.meaning (elements text.now) ≡ Ok v.items) }
{
    let elements = text.split(is_list_separator);
    let mut listed = Vec::with_capacity(alloc, text.split(is_list_separator).count())?;
    listed.extend(elements.filter_map(|element| T::read(element).ok()))?;
    Ok(listed)
}
