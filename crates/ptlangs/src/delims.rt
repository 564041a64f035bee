//! The delimiter list of `paste` (option `-d`), as `ptopts` reads it and `ptflow` uses it: `Delims`, its faults, and
//! the law that a list is read as the grammar says.
ghost use Rattle.std.specs.Prelude.{◌≡◌, ◌<◌, [], ◌∷◌, length, None, Err, IfOk, MatchResult};
ghost use Rattle.std.specs.Result.{result_err};
ghost use Rattle.ptlangs.specs.Calls.Results.{ValidatedParsePost};
ghost use Rattle.ptlangs.specs.Laws.DelimLists.{DelimListMatchesGrammar};
ghost use Rattle.ptlangs.specs.Calls.DelimLists.{delim_list_fault};
ghost use Rattle.ptlangs.specs.DelimLists.{escape, delims, delim_list};
ghost use Rattle.ptlangs.specs.DelimLists.{delim_at};
ghost use Rattle.ptlangs.specs.Numbers.{cons_ok};

use std::alloc::{AllocError, AllocFailed, Allocator, Global};
use std::marker::Model;

/// Why a list is rejected: the fault of its first faulty element, from left to right.
#[derive(Clone, Copy, Debug, PartialEq, Eq)]
pub enum DelimFault {
    /// The list is empty.
    Empty = 1,
    /// A backslash ends the list, or comes before a byte other than `n`, `t`, `\` and `0`.
    Escape = 2,
    /// An allocation failed.
    Memory = 3,
}

impl<T: Drop> From<AllocFailed<T>> for DelimFault {
    ghost use Rattle.std.specs.Prelude.{◌≡◌};
    ghost use Rattle.ptlangs.specs.declared.delims.DelimFault.TheVariants.{Memory};

    ghost from_gives = { λ _ e. e ≡ Memory };

    fn from(_error: AllocFailed<T>) -> DelimFault {
        DelimFault::Memory
    }
}

/// A delimiter that was read, `None` for the empty string, and the rest of the list.
#[derive(Clone, Copy)]
struct ParsedDelim<'a> {
    delim: Option<u8>,
    rest: &'a [u8],
}

/// The delimiters of a list. They are reused from the first one when a line has more columns.
#[derive(Drop)]
pub struct Delims<A: Allocator = Global> {
    kept: Vec<Option<u8>, A>,
}

impl<A: Allocator> Model for Delims<A> {
    ghost use Rattle.std.specs.Prelude.{ℕ, ◌<◌, List, length, Option};

    ghost Value = { List (Option ℕ) };

    ghost view = { λ d. d.kept.items };

    ghost invariant = { λ d. 0 < length d.kept.items };
}

impl<A: Allocator> Delims<A> {
    /// Parses a list: bytes that denote themselves, and the escapes `\n`, `\t`, `\\` and `\0` for a newline, a tab, a
    /// backslash and the empty string (POSIX.1-2017, XCU, `paste`, option `-d`). POSIX leaves unspecified what other
    /// escapes denote, and `\0` before a digit, `x` or `X`: here other escapes are rejected, and `\0` is always the
    /// empty string.
    ///
    /// # Errors
    ///
    /// The fault of the first faulty element. `Memory` is returned only for a list without a fault, because the whole
    /// list is checked before anything is allocated.
    pub fn read(alloc: A, text: &[u8]) -> Result<Delims<A>, DelimFault>
        ensures { ValidatedParsePost (λ d. d) delim_list_fault result (delim_list text.now) }
    {
        check(text)?;
        let mut kept = Vec::new(alloc);
        let mut left = text;
        loop {
            let first = first_delim(left)?;
            kept.push(first.delim)?;
            if first.rest.is_empty() {
                return Ok(Delims { kept });
            }
            left = first.rest;
        }
    }

    /// The default list, a single tab (POSIX.1-2017, XCU, `paste`, description).
    ///
    /// # Errors
    ///
    /// An allocation failed.
    pub fn tab(alloc: A) -> Result<Delims<A>, AllocError>
        ensures { IfOk result (λ d. d ≡ Some 9 ∷ []) }
    {
        let mut kept = Vec::new(alloc);
        kept.push(Some(b'\t'))?;
        Ok(Delims { kept })
    }

    /// The delimiters in the order of the list, at least one. `None` is the empty string.
    pub fn as_slice(&self) -> &[Option<u8>]
        ensures all { result.now ≡ self.now }
        ensures some { 0 < length result.now }
    {
        &self.kept[..]
    }

    /// The number of delimiters, at least one.
    pub fn count(&self) -> usize
        ensures { result ≡ length self.now }
    {
        self.kept.as_slice().len()
    }

    /// The delimiter after `column`, counted from 0, or `None` for the empty string. After the last delimiter of the
    /// list comes the first one again.
    pub fn at(&self, column: u64) -> Option<u8>
        ensures { result ≡ delim_at self.now column }
    {
        self.kept[(column % self.kept.len() as u64) as usize]
    }
}

/// Does nothing at run time. Its contract states that [`Delims::read`] accepts exactly the lists of the grammar in
/// `specs/Laws/DelimLists.antt`, and returns the delimiters that the grammar gives.
#[tactic(auto, using(crate::proofs::DelimGrammar::accepts_the_grammar))]
pub fn accepts_the_grammar()
    ensures { DelimListMatchesGrammar }
{}

/// Returns the first fault of a list, if there is one. Nothing is allocated.
fn check(text: &[u8]) -> Result<(), DelimFault>
    ensures { MatchResult result
        (λ _. result_err (delim_list text.now) ≡ None)
        (λ e. result_err (delim_list text.now) ≡ delim_list_fault e) }
{
    let mut left = text;
    loop {
        let rest = first_delim(left)?.rest;
        if rest.is_empty() {
            return Ok(());
        }
        left = rest;
    }
}

/// The first delimiter of a list.
fn first_delim(text: &[u8]) -> Result<ParsedDelim, DelimFault>
    ensures first { MatchResult result
        (λ found. delim_list text.now ≡ cons_ok found.delim (delims found.rest.now))
        (λ fault. delim_list text.now ≡ Err fault) }
    ensures shorter { IfOk result (λ found. length found.rest.now < length text.now) }
{
    match text {
        [] => Err(DelimFault::Empty),
        [b'\\'] => Err(DelimFault::Escape),
        [b'\\', escaped, rest @ ..] => Ok(ParsedDelim {
            delim: escape(*escaped)?,
            rest,
        }),
        [byte, rest @ ..] => Ok(ParsedDelim {
            delim: Some(*byte),
            rest,
        }),
    }
}

/// The delimiter that a backslash and this byte denote, or `None` for the empty string.
fn escape(byte: u8) -> Result<Option<u8>, DelimFault>
    ensures { result ≡ escape byte }
{
    match byte {
        b'n' => Ok(Some(b'\n')),
        b't' => Ok(Some(b'\t')),
        b'\\' => Ok(Some(b'\\')),
        b'0' => Ok(None),
        _ => Err(DelimFault::Escape),
    }
}
