//! The list of `cut` (options `-b`, `-c` and `-f`), as `ptopts` reads it and `ptflow` uses it: `Ranges`, the set
//! that a list selects, as merged intervals; its faults; and the law that a list is read as the grammar says.
ghost use Rattle.std.specs.Prelude.{◌≡◌, ◌≤◌, ◌<◌, ◌∷◌, [], Some, IfOk, IsTrue, MatchResult};
ghost use Rattle.ptlangs.specs.Calls.Results.{ValidatedParsePost};
ghost use Rattle.ptlangs.specs.Laws.CutLists.{CutListMatchesGrammar};
ghost use Rattle.ptlangs.specs.Calls.CutLists.{cut_list_fault};
ghost use Rattle.ptlangs.specs.CutLists.{is_selected, selection};
ghost use Rattle.ptlangs.specs.Calls.CutLists.{AreSeparated};
ghost use Rattle.ptlangs.specs.Private.CutLists.{AreSortedFrom, bounds_of_parts, checked_interval};
ghost use Rattle.ptlangs.specs.Private.CutLists.{interval_of_bounds, is_bound, value_or};
ghost use Rattle.ptlangs.specs.Numbers.{max_u64};

use crate::lists::{Element, first_fault, read_elements};
use crate::numbers::{decimal, is_decimal};
use std::alloc::{AllocError, Allocator, Global};
use std::marker::Model;

/// The numbers from `first` to `last`, both included.
#[derive(Clone, Copy, Debug, PartialEq, Eq)]
pub struct Interval {
    pub first: u64,
    pub last: u64,
}

impl Interval {
    /// The interval from `first` to `last`, if it is valid.
    fn checked(first: u64, last: u64) -> Result<Interval, ListFault>
        ensures { result ≡ checked_interval (Some (record { first = first; last = last })) }
    {
        if first == 0 || last == 0 {
            return Err(ListFault::Zero);
        }
        if last < first {
            return Err(ListFault::Descending);
        }
        Ok(Interval { first, last })
    }
}

impl Element for Interval {
    ghost use Rattle.ptlangs.specs.CutLists.{element_interval};

    type Fault = ListFault;

    ghost meaning = { element_interval };

    fn read(text: &[u8]) -> Result<Interval, ListFault> {
        if text.is_empty() {
            return Err(ListFault::Empty);
        }
        match text.iter().position(|byte| *byte == b'-') {
            None => read_single(text),
            Some(dash) => read_bounds(&text[..dash], &text[dash + 1..]),
        }
    }
}

/// Why a list is rejected: the fault of its first faulty element, from left to right.
#[derive(Clone, Copy, Debug, PartialEq, Eq)]
pub enum ListFault {
    /// An element is empty. An empty list has one element, which is empty.
    Empty = 1,
    /// A number is zero; numbers are counted from 1.
    Zero = 2,
    /// The first number of an element is above the second.
    Descending = 3,
    /// A number is above `u64::MAX`.
    TooLarge = 4,
    /// An element has none of the forms `n`, `n-m`, `-m` and `n-`.
    Malformed = 5,
    /// An allocation failed.
    Memory = 6,
}

impl From<AllocError> for ListFault {
    ghost use Rattle.std.specs.Prelude.{◌≡◌};
    ghost use Rattle.ptlangs.specs.declared.ranges.ListFault.TheVariants.{Memory};

    ghost from_gives = { λ _ e. e ≡ Memory };

    fn from(_error: AllocError) -> ListFault {
        ListFault::Memory
    }
}

/// The set of numbers that a list selects.
#[derive(Drop)]
pub struct Ranges<A: Allocator = Global> {
    kept: Vec<Interval, A>,
}

impl<A: Allocator> Model for Ranges<A> {
    ghost use Rattle.std.specs.Prelude.{List};
    ghost use Rattle.ptlangs.specs.declared.ranges.Interval.{Interval};
    ghost use Rattle.ptlangs.specs.Calls.CutLists.{AreSeparated};

    ghost Value = { List Interval };

    ghost view = { λ r. r.kept.items };

    ghost invariant = { λ r. AreSeparated 0 r.kept.items };
}

impl<A: Allocator + Copy> Ranges<A> {
    /// Parses a list: the elements `n`, `n-m`, `-m` and `n-`, in any order, with a single comma, space or tab between
    /// each two (POSIX.1-2017, XCU, `cut`, options `-b`, `-c` and `-f`). POSIX leaves a mixture of separators
    /// unspecified.
    ///
    /// # Errors
    ///
    /// The fault of the first faulty element. `Memory` is returned only for a list without a fault, because the whole
    /// list is checked before anything is allocated.
    pub fn read(alloc: A, text: &[u8]) -> Result<Ranges<A>, ListFault>
        ensures { ValidatedParsePost is_selected cut_list_fault result (selection text.now) }
    {
        if let Some(fault) = first_fault::<Interval>(text) {
            return Err(fault);
        }
        let mut listed: Vec<Interval, A> = read_elements(alloc, text)?;
        listed.sort_unstable_by_key(|interval| interval.first);
        let kept = merge(alloc, listed.as_slice())?;
        Ok(Ranges { kept })
    }
}

impl<A: Allocator> Ranges<A> {
    /// Whether the number is selected.
    pub fn contains(&self, number: u64) -> bool
        ensures { result ≡ is_selected self.now number }
    {
        self.kept.iter().any(|interval| interval.first <= number && number <= interval.last)
    }

    /// The selected numbers as ascending intervals, so that a line can be read from left to right in one pass. No two
    /// intervals overlap or are adjacent.
    pub fn intervals(&self) -> &[Interval]
        ensures kept { result.now ≡ self.now }
        ensures separated { AreSeparated 0 result.now }
    {
        self.kept.as_slice()
    }
}

/// Does nothing at run time. Its contract states that [`Ranges::read`] accepts exactly the lists of the grammar in
/// `specs/Laws/CutLists.antt`, and returns the set that the grammar gives.
#[tactic(auto, using(crate::proofs::ListElements::accepts_cut_lists))]
pub fn accepts_the_grammar()
    ensures { CutListMatchesGrammar }
{}

/// The interval of one number.
fn read_single(text: &[u8]) -> Result<Interval, ListFault>
    ensures { result ≡ checked_interval (bounds_of_parts (text.now ∷ [])) }
{
    match decimal(text) {
        Some(number) => Interval::checked(number, number),
        None if is_decimal(text) => Err(ListFault::TooLarge),
        None => Err(ListFault::Malformed),
    }
}

/// The interval from the bound `first` to the bound `last`.
fn read_bounds(first: &[u8], last: &[u8]) -> Result<Interval, ListFault>
    ensures { result ≡ checked_interval (interval_of_bounds first.now last.now) }
{
    if !is_bound(first) || !is_bound(last) || (first.is_empty() && last.is_empty()) {
        return Err(ListFault::Malformed);
    }
    let first = read_bound(first, 1)?;
    let last = read_bound(last, u64::MAX)?;
    Interval::checked(first, last)
}

/// Whether the text is a bound of an element: a number, or nothing.
fn is_bound(text: &[u8]) -> bool
    ensures { result ≡ is_bound text.now }
{
    text.is_empty() || is_decimal(text)
}

/// The value of a bound, or `default` if it is empty.
fn read_bound(text: &[u8], default: u64) -> Result<u64, ListFault>
    requires { IsTrue (is_bound text.now) }
    ensures { MatchResult result
        (λ n. (n ≡ value_or default text.now) × (n ≤ max_u64))
        (λ e. (e ≡ ListFault.TooLarge) × (max_u64 < value_or default text.now)) }
{
    if text.is_empty() {
        return Ok(default);
    }
    decimal(text).ok_or(ListFault::TooLarge)
}

/// Merges intervals that overlap or are adjacent. The intervals are given in the order of their first numbers.
fn merge<A: Allocator>(alloc: A, sorted: &[Interval]) -> Result<Vec<Interval, A>, AllocError>
    requires { AreSortedFrom 1 sorted.now }
    ensures separated { IfOk result (λ v. AreSeparated 0 v.items) }
    ensures same { IfOk result (λ v. is_selected v.items ≡ is_selected sorted.now) }
{
    let mut kept = Vec::new(alloc);
    let Some((first, others)) = sorted.split_first() else {
        return Ok(kept);
    };
    let mut current = *first;
    for next in others {
        if next.first - 1 <= current.last {
            current.last = current.last.max(next.last);
        } else {
            kept.push(current)?;
            current = *next;
        }
    }
    kept.push(current)?;
    Ok(kept)
}
