//! Fields of a line of `join`, between separators (`-t`) or else between blanks. `output` finds fields in a `SplitLine`
//! or one after another (`next_word`), and `field_keys` finds the span of the join field (`field_span`).

ghost use Rattle.std.specs.Prelude.{◌≡◌, ◌∷◌, [], None, Some, ◌<◌, ◌≤◌, ◌+◌, ◌-◌, length, drop, position, option_copied, IfSome};
ghost use Rattle.std.specs.Prelude.{MatchOption};
ghost use Rattle.std.specs.List.{slice_split};
ghost use Rattle.memchr.specs.Find.{is_byte};
ghost use Rattle.ptlines.specs.Calls.Scan.{IsMatchWindow};
ghost use Rattle.ptlines.specs.Text.{is_blank};
ghost use Rattle.ptmerge.specs.Join.{join_fields, nth_field};
ghost use Rattle.ptmerge.specs.Private.JoinFields.{IsFieldFound, IsFirstPieceEnd, IsFieldIn, IsPiece};
ghost use Rattle.ptmerge.specs.Private.JoinFields.{first_window, is_evenly_separated, is_separator, remaining_fields};
ghost use Rattle.ptmerge.specs.Calls.KeySpan.{IsKeySpan};

use crate::key_order::Span;
use crate::tools::join::words::{find_word, is_single_spaced};
use ptlines::{Blank, MatchWindow, find_near};

// Returns the index of the first separator or blank in `bytes`.
#[inline(always)]
#[tactic(auto, using(crate::proofs::JoinLemmas::Fields::first_is_position))]
fn field_end(separator: Option<u8>, bytes: &[u8]) -> Option<usize>
    ensures { result ≡ position (is_separator separator) bytes.now }
{
    match separator {
        Some(byte) => find_near(byte, bytes),
        None => find_near(Blank, bytes),
    }
}

// The bytes before a blank, and the rest of the line after it. If no blank follows the bytes, there is no rest.
#[derive(Clone, Copy)]
pub(crate) struct Piece<'a> {
    pub(crate) bytes: &'a [u8],
    pub(crate) rest: Option<&'a [u8]>,
}

// Returns the bytes before the first blank, with the rest after it.
#[inline(always)]
#[tactic(auto, using(crate::proofs::JoinLemmas::Fields::first_piece_steps))]
fn first_piece(line: &[u8]) -> Piece<'_>
    ensures first { MatchOption result.rest
        (slice_split is_blank line.now ≡ result.bytes.now ∷ [])
        (λ rest. slice_split is_blank line.now ≡ result.bytes.now ∷ slice_split is_blank rest.now) }
    ensures shorter { MatchOption result.rest (result.bytes.now ≡ line.now)
        (λ rest. length rest.now < length line.now) }
    ensures is_piece { IsPiece None line.now result.bytes.now (option_copied result.rest) }
{
    match field_end(None, line) {
        None => Piece {
            bytes: line,
            rest: None,
        },
        Some(end) => Piece {
            bytes: &line[..end],
            rest: Some(&line[end + 1..]),
        },
    }
}

// Returns the first word of the rest of a line, with the rest after this word, or `None` if there are no more words.
pub(crate) fn next_word<'a>(line: Option<&'a [u8]>) -> Option<Piece<'a>>
    ensures first { MatchOption result
        (remaining_fields None (option_copied line.entry) ≡ [])
        (λ word. remaining_fields None (option_copied line.entry)
        ≡ word.bytes.now ∷ remaining_fields None (option_copied word.rest)) }
    ensures is_piece { IfSome result (λ word.
        IsFieldIn None (option_copied line.entry) word.bytes.now (option_copied word.rest)) }
{
    let mut left = line;
    'pieces: while let Some(bytes) = left {
        let piece = first_piece(bytes);
        if !piece.bytes.is_empty() {
            return Some(piece);
        }
        left = piece.rest;
    }
    None
}

// Returns the span of a word of a line.
#[inline(always)]
fn span_of_word(line: &[u8], word: Piece<'_>) -> Span
    requires { IsPiece None line.now word.bytes.now (option_copied word.rest) }
    ensures span { IsKeySpan line.now word.entry.bytes.now result }
    ensures end { MatchOption (option_copied word.entry.rest) (result.end ≡ length line.now)
        (λ bytes. result.end + 1 + length bytes ≡ length line.now) }
{
    let end = match word.rest {
        Some(bytes) => line.len() - bytes.len() - 1,
        None => line.len(),
    };
    Span {
        start: end - word.bytes.len(),
        end,
    }
}

// Returns the span of the word with this number, counted from 1, in a line of any length, or `None` if there is none.
#[tactic(auto, using(crate::proofs::JoinLemmas::Fields::remaining_steps))]
fn find_word_long(number: u64, line: &[u8]) -> Option<Span>
    ensures { IsFieldFound None number line.now result }
{
    let mut left = Some(line);
    for _passed in 0..number.saturating_sub(1) {
        left = next_word(left)?.rest;
    }
    Some(span_of_word(line, next_word(left)?))
}

// Returns the match mask of the separators or blanks among the first 64 bytes of a line.
#[inline(always)]
fn first_mask(separator: Option<u8>, line: &[u8]) -> u64
    ensures { IsMatchWindow (is_separator separator) line.now (first_window line.now result) }
{
    match separator {
        Some(byte) => MatchWindow::new(byte, line, 0).mask,
        None => MatchWindow::new(Blank, line, 0).mask,
    }
}

// From the first window of the separators, returns the one at the field with this number, or after the line.
#[inline(always)]
fn to_field(separator: u8, number: u64, line: &[u8], first: MatchWindow) -> MatchWindow
    requires start { first.at ≡ 0 }
    requires window { IsMatchWindow (is_byte separator) line.now first }
    ensures none { length line.now < result.at → drop (number - 1) (join_fields (Some separator) line.now) ≡ [] }
    ensures field { result.at ≤ length line.now → drop (number - 1) (join_fields (Some separator) line.now)
        ≡ join_fields (Some separator) (drop result.at line.now) }
    ensures window { result.at ≤ length line.now → IsMatchWindow (is_byte separator) line.now result }
{
    if number <= 1 {
        return first;
    }
    first.after_nth(separator, line, line.len(), number - 2)
}

// Returns the span of the field with this number, counted from 1, or `None` if there is none. `mask` is that of the
// separators among the first 64 bytes.
fn find_separated(separator: u8, number: u64, line: &[u8], mask: u64) -> Option<Span>
    requires { IsMatchWindow (is_byte separator) line.now (first_window line.now mask) }
    ensures { IsFieldFound (Some separator) number line.now result }
{
    let first = MatchWindow {
        at: 0,
        mask,
        end: line.len().min(64),
    };
    let field = to_field(separator, number, line, first);
    if field.at > line.len() {
        return None;
    }
    Some(Span {
        start: field.at,
        end: field.first(separator, line).unwrap_or(line.len()),
    })
}

// A line that is split into fields. Its first separators or blanks are found only once.
#[derive(Clone, Copy)]
pub(crate) struct SplitLine<'a> {
    pub(crate) separator: Option<u8>,
    pub(crate) line: &'a [u8],
    mask: u64,
    ghost window: { IsMatchWindow (is_separator separator) line.now (first_window line.now mask) },
}

impl<'a> SplitLine<'a> {
    #[inline(always)]
    pub(crate) fn new(separator: Option<u8>, line: &'a [u8]) -> Self
        ensures { (result.separator ≡ separator) × (result.line.now ≡ line.now) }
    {
        SplitLine {
            separator,
            line,
            mask: first_mask(separator, line),
        }
    }

    // Returns the span of the field with this number, counted from 1, or `None` if there is none.
    #[inline(always)]
    pub(crate) fn find(&self, number: u64) -> Option<Span>
        ensures { IsFieldFound self.now.separator number self.now.line.now result }
    {
        let is_short = self.line.len() < 64;
        match self.separator {
            Some(byte) => find_separated(byte, number, self.line, self.mask),
            None if is_short => find_word(number, self.line, self.mask),
            None => find_word_long(number, self.line),
        }
    }

    // Returns the field with this number, counted from 1, or no bytes if there is none.
    #[inline(always)]
    pub(crate) fn nth(&self, number: u64) -> &'a [u8]
        ensures { result.now ≡ nth_field number (remaining_fields self.now.separator (Some self.now.line.now)) }
    {
        match self.find(number) {
            Some(span) => &self.line[span.start..span.end],
            None => b"",
        }
    }
}

// Checks whether a line is its fields with one output separator between each two.
#[inline(always)]
pub(crate) fn is_evenly_separated(separator: Option<u8>, line: &[u8]) -> bool
    ensures { result ≡ is_evenly_separated separator line.now }
{
    separator.is_some() || is_single_spaced(line)
}

// Returns the index of the first separator or blank in `bytes`, or their length.
#[inline(always)]
#[tactic(auto, using(crate::proofs::JoinLemmas::Fields::ends_at, crate::proofs::JoinLemmas::Fields::ends_whole))]
fn first_piece_end(separator: Option<u8>, bytes: &[u8]) -> usize
    ensures { IsFirstPieceEnd separator bytes.now result }
{
    field_end(separator, bytes).unwrap_or(bytes.len())
}

// Returns the span of the field with this number, or an empty span if there is none. This is the general case of
// `field_span`, and out of line so that the usual one is short.
#[cold]
#[inline(never)]
fn field_span_slow(separator: Option<u8>, number: u64, line: &[u8]) -> Span
    ensures { IsKeySpan line.now (nth_field number (remaining_fields separator (Some line.now))) result }
{
    SplitLine::new(separator, line)
        .find(number)
        .unwrap_or(Span { start: 0, end: 0 })
}

// Returns the span of the field with this number, counted from 1, or an empty span if there is none. The join field
// usually is the first.
#[inline(always)]
#[tactic(auto, using(crate::proofs::JoinLemmas::Fields::first_piece_span))]
pub(crate) fn field_span(separator: Option<u8>, number: u64, line: &[u8]) -> Span
    ensures { IsKeySpan line.now (nth_field number (remaining_fields separator (Some line.now))) result }
{
    if number <= 1 {
        let end = first_piece_end(separator, line);
        if separator.is_some() || end > 0 {
            return Span { start: 0, end };
        }
    }
    field_span_slow(separator, number, line)
}
