//! Words of a line of `join`, by masks in which bit i is set if and only if byte i is a blank: finds the word with a
//! number in a short line, and checks whether a line is words with a single space between them.
ghost use Rattle.std.specs.Prelude.{◌≡◌, ◌≢◌, ◌<◌, ◌≤◌, ◌+◌, ◌-◌, ◌^◌, ◌==◌, ℕ, List, bit_or, None, true, length, map};
ghost use Rattle.std.specs.Simd.Lanes.{mask_l};
ghost use Rattle.memchr.specs.Find.{is_byte};
ghost use Rattle.ptlines.specs.Text.{is_blank};
ghost use Rattle.ptmerge.specs.Private.JoinFields.{IsFieldFound, has_single_spaces, is_single_spaced};

use crate::key_order::Span;
use ptlines::{mask_at, masks_of};

// Checks that no byte is a tab, or a space after a space. `before` is 1 if a space precedes the bytes.
#[inline(always)]
fn are_single_spaces(spaces: u64, tabs: u64, before: u64) -> bool
    requires { before ≤ 1 }
    ensures { (bytes : List ℕ) → length bytes ≤ 64 → spaces ≡ mask_l (map (is_byte 32) bytes)
        → tabs ≡ mask_l (map (is_byte 9) bytes) → result ≡ has_single_spaces (before == 1) bytes }
{
    tabs == 0 && spaces & (spaces << 1 | before) == 0
}

// Checks whether a line is words with a single space between them, and without blanks at either end: as if a space came
// before it, and one after it. `before` is 1 if a space precedes the bytes from `at` on.
#[inline(always)]
pub(crate) fn is_single_spaced(line: &[u8]) -> bool
    ensures { result ≡ is_single_spaced true line.now }
{
    let mut before = 1;
    let mut at = 0;
    while line.len() - at >= 64 {
        let spaces = mask_at::<64, u8>(b' ', line, at);
        if !are_single_spaces(spaces, mask_at::<64, u8>(b'\t', line, at), before) {
            return false;
        }
        before = spaces >> 63;
        at += 64;
    }
    let last = &line[at..];
    let (spaces, tabs) = masks_of(b' ', b'\t', last);
    are_single_spaces(spaces | 1 << last.len(), tabs, before)
}

// Returns the bit after the first run of set bits, with all bits above it. There is such a run, and it ends below the
// highest bit.
#[inline(always)]
fn after_first_run(mask: u64) -> u64
    requires { (mask ≢ 0) × (mask < 2 ^ 63) }
    ensures { result ≡ bit_or mask (mask - 1) + 1 }
{
    (mask | mask - 1) + 1
}

// Returns the span of the word with this number, counted from 1, in a line of fewer than 64 bytes, or `None` if there
// is none. `blanks` is the mask of the blanks.
#[inline(always)]
#[tactic(auto, using(crate::proofs::JoinLemmas::FieldMasks::word_steps))]
pub(crate) fn find_word(number: u64, line: &[u8], blanks: u64) -> Option<Span>
    requires short { length line.now < 64 }
    requires blanks { blanks ≡ mask_l (map is_blank line.now) }
    ensures { IsFieldFound None number line.now result }
{
    let mut words = (1 << line.len()) - 1 - blanks;
    for _passed in 0..number.saturating_sub(1) {
        if words == 0 {
            return None;
        }
        words &= after_first_run(words);
    }
    if words == 0 {
        return None;
    }
    Some(Span {
        start: words.trailing_zeros() as usize,
        end: after_first_run(words).trailing_zeros() as usize,
    })
}
