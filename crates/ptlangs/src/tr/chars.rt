//! The characters of a string of `tr`: plain bytes and escapes (POSIX.1-2017, XCU, `tr`, "EXTENDED DESCRIPTION").
//! `elements` reads a string with it.
ghost use Rattle.std.specs.Prelude.{◌≡◌, ◌<◌, length, drop, All, IfOk};
ghost use Rattle.std.specs.Char.{digit_value};
ghost use Rattle.std.specs.Str.Parse.{digits_value};
ghost use Rattle.ptlangs.specs.TrChars.{byte_of_escape, is_octal_digit};
ghost use Rattle.ptlangs.specs.Laws.TrReading.{byte_of, chars, after_backslash, octal};
ghost use Rattle.ptlangs.specs.Laws.TrReading.{octal_run};
ghost use Rattle.ptlangs.specs.Private.TrParsing.{first_byte};

use crate::faults::SetFaultKind;
use crate::numbers::digits_value;

/// The first character of a text: the byte that it denotes, or its fault, and the rest of the text after it.
#[derive(Clone, Copy)]
pub(crate) struct ParsedChar<'a> {
    pub(crate) byte: Result<u8, SetFaultKind>,
    pub(crate) rest: &'a [u8],
}

/// The byte that a backslash and this byte denote, if it is not an octal digit.
fn escaped_byte(byte: u8) -> u8
    ensures { result ≡ byte_of_escape byte }
{
    match byte {
        b'a' => 7,
        b'b' => 8,
        b'f' => 12,
        b'n' => b'\n',
        b'r' => b'\r',
        b't' => b'\t',
        b'v' => 11,
        other => other,
    }
}

/// Whether the byte is an octal digit.
pub(crate) fn is_octal(byte: u8) -> bool
    ensures { result ≡ is_octal_digit byte }
{
    (b'0'..=b'7').contains(&byte)
}

/// The number of octal digits at the start, at most three.
fn octal_len(bytes: &[u8]) -> usize
    ensures { result ≡ length (octal_run bytes.now) }
{
    bytes.iter().take(3).take_while(|b| is_octal(**b)).count()
}

/// The byte with this octal number.
fn octal_byte(digits: &[u8]) -> Result<u8, SetFaultKind>
    requires { All (λ d. digit_value d < 8) digits.now }
    ensures { result ≡ byte_of (octal (digits_value 8 digits.now)) }
{
    match digits_value(digits, 8, 255) {
        Some(value) => Ok(value as u8),
        None => Err(SetFaultKind::Octal),
    }
}

/// The character of a backslash before these bytes.
#[tactic(auto, using(crate::proofs::TrGrammar::octal_steps))]
fn escape(bytes: &[u8]) -> ParsedChar
    ensures byte { result.byte ≡ byte_of (after_backslash bytes.now).0 }
    ensures rest { result.rest.now ≡ drop (after_backslash bytes.now).1 bytes.now }
{
    match bytes {
        [] => ParsedChar {
            byte: Err(SetFaultKind::Escape),
            rest: bytes,
        },
        [first, rest @ ..] if !is_octal(*first) => ParsedChar {
            byte: Ok(escaped_byte(*first)),
            rest,
        },
        _ => {
            let (digits, rest) = bytes.split_at(octal_len(bytes));
            ParsedChar {
                byte: octal_byte(digits),
                rest,
            }
        }
    }
}

/// The first character of the text. An empty text has the fault `Empty`.
#[tactic(auto, using(crate::proofs::TrGrammar::char_steps))]
pub(crate) fn first_char(text: &[u8]) -> ParsedChar
    ensures byte { result.byte ≡ first_byte (chars text.now) }
    ensures rest { chars result.rest.now ≡ drop 1 (chars text.now) }
    ensures shorter { IfOk result.byte (λ _. length result.rest.now < length text.now) }
{
    match text {
        [] => ParsedChar {
            byte: Err(SetFaultKind::Empty),
            rest: text,
        },
        [b'\\', escaped @ ..] => escape(escaped),
        [byte, rest @ ..] => ParsedChar {
            byte: Ok(*byte),
            rest,
        },
    }
}
