//! Reads the first element of a string of `tr`: a single character, a range, or one of the bracketed forms `[x*n]`,
//! `[:class:]` and `[=x=]` (POSIX.1-2017, XCU, `tr`, "EXTENDED DESCRIPTION"). `bytes` reads a whole string by calls of
//! `first_element`. And the law that characters and elements are those of the grammar.
ghost use Rattle.std.specs.Prelude.{◌≡◌, ◌≢◌, ◌<◌, ◌≤◌, Some, None, false, length, drop, option_map, IfSome, IfOk};
ghost use Rattle.std.specs.Prelude.{MatchOption};
ghost use Rattle.std.specs.List.{list_all, AllPass};
ghost use Rattle.std.specs.Char.{is_ascii_digit};
ghost use Rattle.std.specs.Int.{is_in_range};
ghost use Rattle.ptlangs.specs.TrChars.{is_octal_digit};
ghost use Rattle.ptlangs.specs.Laws.TrReading.{chars};
ghost use Rattle.ptlangs.specs.Laws.TrChars.{CharsMatchGrammar};
ghost use Rattle.ptlangs.specs.TrElements.{repeat_count};
ghost use Rattle.ptlangs.specs.Laws.TrReading.{after_plain, after_two, after_run, plain_run, repeat_at};
ghost use Rattle.ptlangs.specs.Laws.TrReading.{bracketed_at, first_set_element, range_to, with_rest};
ghost use Rattle.ptlangs.specs.Laws.TrElements.{ElementsMatchGrammar};
ghost use Rattle.ptlangs.specs.Laws.TrPlan.{FirstFaultIsReported, ReadInSteps};
ghost use Rattle.ptlangs.specs.Private.TrParsing.{element_and_rest, enclosed_at, first_byte};
ghost use Rattle.ptlangs.specs.Calls.TrParsing.{ok_map};

use crate::faults::SetFaultKind;
use crate::numbers::digits_value;
use crate::tr::chars::{first_char, is_octal};
use crate::tr::classes::CharClass;

/// An element of a string.
#[derive(Clone, Copy)]
pub(crate) enum SetElement {
    /// One byte.
    Single(u8),
    /// The bytes from the first to the second, which is not below the first.
    Range(u8, u8),
    /// `[:class:]`: the class, or `None` for an unknown name.
    Class(Option<CharClass>),
    /// `[=c=]`.
    Equivalence(u8),
    /// `[x*n]`: the byte and the count, or `None` for an invalid count. A count of 0 is a fill.
    Repeat(u8, Option<u16>),
}

/// The first element of a text, and the rest of the text after it.
#[derive(Clone, Copy)]
pub(crate) struct ParsedElement<'a> {
    pub(crate) element: SetElement,
    pub(crate) rest: &'a [u8],
}

/// The rest of the text after `byte`, if the text starts with it.
#[tactic(auto, using(crate::proofs::TrGrammar::after_plain_steps))]
fn after_byte(text: &[u8], byte: u8) -> Option<&[u8]>
    requires { byte ≢ 92 }
    ensures reads { MatchOption result
        (after_plain byte (chars text.now) ≡ None)
        (λ rest. after_plain byte (chars text.now) ≡ Some (chars rest.now)) }
    ensures shorter { IfSome result (λ rest. length rest.now < length text.now) }
{
    match text {
        [first, rest @ ..] if *first == byte => Some(rest),
        _ => None,
    }
}

/// The longest run of bytes from `first` to `last` at the start of the text, and the rest after it.
fn split_run(text: &[u8], first: u8, last: u8) -> (&[u8], &[u8])
    requires { is_in_range first last 92 ≡ false }
    ensures run { result.0.now ≡ plain_run (is_in_range first last) (chars text.now) }
    ensures rest { chars result.1.now ≡ after_run (is_in_range first last) (chars text.now) }
    ensures within { length result.1.now ≤ length text.now }
{
    let run = text
        .iter()
        .take_while(|byte| (first..=last).contains(*byte));
    text.split_at(run.count())
}

/// Whether all of these are octal digits.
fn are_octal(digits: &[u8]) -> bool
    ensures { result ≡ list_all is_octal_digit digits.now }
{
    digits.iter().all(|d| is_octal(*d))
}

/// The count of a repeat from its digits: octal after a leading zero, else decimal.
fn read_count(digits: &[u8]) -> Option<u16>
    requires { AllPass is_ascii_digit digits.now }
    ensures { result ≡ repeat_count digits.now }
{
    match digits {
        [b'0', ..] if !are_octal(digits) => None,
        [b'0', ..] => Some(digits_value(digits, 8, 65535)? as u16),
        _ => Some(digits_value(digits, 10, 65535)? as u16),
    }
}

/// `[x*n]`, from the text after its opening bracket.
#[tactic(auto, using(crate::proofs::TrGrammar::repeat_steps))]
fn repeat(text: &[u8]) -> Option<ParsedElement>
    ensures reads { option_map element_and_rest result ≡ repeat_at (chars text.now) }
    ensures shorter { IfSome result (λ found. length found.rest.now < length text.now) }
{
    let repeated = first_char(text);
    let byte = repeated.byte.ok()?;
    let (digits, rest) = split_run(after_byte(repeated.rest, b'*')?, b'0', b'9');
    let rest = after_byte(rest, b']')?;
    let element = SetElement::Repeat(byte, read_count(digits));
    Some(ParsedElement { element, rest })
}

/// The element and the rest after `delimiter` and `]`, if the text starts with these two.
fn close(element: SetElement, text: &[u8], delimiter: u8) -> Option<ParsedElement>
    requires { delimiter ≢ 92 }
    ensures reads { option_map element_and_rest result
        ≡ with_rest element (after_two delimiter 93 (chars text.now)) }
    ensures shorter { IfSome result (λ found. length found.rest.now < length text.now) }
{
    let rest = after_byte(after_byte(text, delimiter)?, b']')?;
    Some(ParsedElement { element, rest })
}

/// `[:class:]` or `[=x=]`, from the text after its opening bracket.
#[tactic(auto, using(crate::proofs::TrGrammar::enclosed_steps))]
fn enclosed(text: &[u8]) -> Option<ParsedElement>
    ensures reads { option_map element_and_rest result ≡ enclosed_at (chars text.now) }
    ensures shorter { IfSome result (λ found. length found.rest.now < length text.now) }
{
    match text {
        [b':', inside @ ..] => {
            let (name, rest) = split_run(inside, b'a', b'z');
            if name.is_empty() {
                return None;
            }
            close(SetElement::Class(CharClass::from_name(name)), rest, b':')
        }
        [b'=', inside @ ..] => {
            let char = first_char(inside);
            close(SetElement::Equivalence(char.byte.ok()?), char.rest, b'=')
        }
        _ => None,
    }
}

/// A bracketed form at the start of the text.
fn bracketed(text: &[u8]) -> Option<ParsedElement>
    ensures reads { option_map element_and_rest result ≡ bracketed_at (chars text.now) }
    ensures shorter { IfSome result (λ found. length found.rest.now < length text.now) }
{
    let inside = after_byte(text, b'[')?;
    repeat(inside).or(enclosed(inside))
}

/// The first element of the text.
///
/// # Errors
///
/// The fault of its character or range.
#[tactic(auto, using(crate::proofs::TrGrammar::first_steps))]
pub(crate) fn first_element(text: &[u8]) -> Result<ParsedElement, SetFaultKind>
    ensures reads { ok_map element_and_rest result ≡ first_set_element (chars text.now) }
    ensures shorter { IfOk result (λ found. length found.rest.now < length text.now) }
{
    if let Some(found) = bracketed(text) {
        return Ok(found);
    }
    let first = first_char(text);
    let byte = first.byte?;
    match after_byte(first.rest, b'-') {
        Some(upper) if !upper.is_empty() => range(byte, upper),
        _ => Ok(ParsedElement {
            element: SetElement::Single(byte),
            rest: first.rest,
        }),
    }
}

/// The range from `first` to the first character of the text.
fn range(first: u8, text: &[u8]) -> Result<ParsedElement, SetFaultKind>
    ensures reads { ok_map element_and_rest result
        ≡ range_to first (first_byte (chars text.now)) (drop 1 (chars text.now)) }
    ensures shorter { IfOk result (λ found. length found.rest.now < length text.now) }
{
    let last = first_char(text);
    let byte = last.byte?;
    if byte < first {
        return Err(SetFaultKind::Descending);
    }
    Ok(ParsedElement {
        element: SetElement::Range(first, byte),
        rest: last.rest,
    })
}

/// Does nothing at run time. Its contract states that the characters and elements that are read are those of the
/// grammar of POSIX.1-2017 (XCU, `tr`), as `TrChars` and `TrElements` of `specs/Laws` give it case by case; that a
/// string is rejected with the fault of its first faulty element; and that it has the segments of these elements.
pub fn elements_match_grammar()
    ensures chars { CharsMatchGrammar }
    ensures elements { ElementsMatchGrammar }
    ensures faults { FirstFaultIsReported }
    ensures steps { ReadInSteps }
{}
