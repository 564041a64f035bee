//! Searches for bytes, by match masks of a `Needle`. `find_byte` finds the first match, near or far; a `MatchWindow`
//! has the mask of at most 64 bytes, and is followed by the one after the n-th match. The reader and the tools find
//! terminators with `find_byte`, and `join` the ends of fields with `find_near`; `cut -f` and `join -t` follow windows
//! along a line.

ghost use Rattle.std.specs.Prelude.{◌≡◌, ◌<◌, ◌≤◌, ◌+◌, ◌-◌, ◌/◌, ◌^◌, ℕ, Bool, List, length, map, take, drop, min};
ghost use Rattle.std.specs.Int.RustNames.{count_ones};
ghost use Rattle.std.specs.List.{count_by};
ghost use Rattle.std.specs.Simd.Lanes.{mask_l, chunk};
ghost use Rattle.memchr.specs.Find.{IsFirst, IsFirstByte, Passes, is_byte, is_byte2};
ghost use Rattle.ptlines.specs.Private.Bounds.{IsCoveredByEnds};
ghost use Rattle.ptlines.specs.Text.{is_blank};
ghost use Rattle.ptlines.specs.Calls.Scan.{IsFirstByte-prop, IsNth, IsNthResult, IsMatchWindow, IsAfterNth};

use memchr::{memchr, memchr2};
use std::simd::prelude::*;

/// A byte, or either of two, that bytes are scanned for.
pub trait Needle: Copy {
    /// Whether a byte matches.
    ghost test: { Self → ℕ → Bool };

    /// Returns the two bytes that match, or one of them twice.
    fn bytes(self) -> (u8, u8)
        ensures { (byte : ℕ) → test self byte ≡ is_byte2 result.0 result.1 byte };

    /// Returns the index of the first match. It is fast if that is far.
    fn find(self, bytes: &[u8]) -> Option<usize>
        ensures { IsFirstByte (test self) bytes.now result };
}

impl Needle for u8 {
    ghost test = { is_byte };

    #[inline(always)]
    fn bytes(self) -> (u8, u8) {
        (self, self)
    }

    // Out of line, so that `find_later` saves fewer registers (`uniq` of a log). So is that of `Blank`.
    #[inline(never)]
    fn find(self, bytes: &[u8]) -> Option<usize> {
        memchr(self, bytes)
    }
}

/// A space or a tab.
#[derive(Clone, Copy)]
pub struct Blank;

impl Needle for Blank {
    ghost test = { λ blank. is_blank };

    #[inline(always)]
    fn bytes(self) -> (u8, u8) {
        (b' ', b'\t')
    }

    #[inline(never)]
    fn find(self, bytes: &[u8]) -> Option<usize> {
        memchr2(b' ', b'\t', bytes)
    }
}

/// Returns the match mask of `bytes[at..at + N]`: bit `i` is set if the byte at `at + i` matches. `N` is at most 64.
#[inline(always)]
pub fn mask_at<const N: usize, M: Needle>(needle: M, bytes: &[u8], at: usize) -> u64
    requires lanes { N ≤ 64 }
    requires within { at + N ≤ length bytes.now }
    ensures { result ≡ mask_l (map (M.test needle) (chunk at N bytes.now)) }
{
    let (first, second) = needle.bytes();
    let chunk = Simd::<u8, N>::from_slice(&bytes[at..]);
    (chunk.simd_eq(Simd::splat(first)) | chunk.simd_eq(Simd::splat(second))).to_bitmask()
}

// The match masks of two needles among N to 2 * N bytes, each from two vectors that may overlap.
#[inline(always)]
#[tactic(auto, using(crate::proofs::MatchMasks::ends_mask))]
fn masks_of_ends<const N: usize, A: Needle, B: Needle>(a: A, b: B, bytes: &[u8]) -> (u64, u64)
    requires few { N ≤ 32 }
    requires ends { IsCoveredByEnds N bytes.now }
    ensures first { result.0 ≡ mask_l (map (A.test a) bytes.now) }
    ensures second { result.1 ≡ mask_l (map (B.test b) bytes.now) }
{
    let last = bytes.len() - N;
    (
        mask_at::<N, A>(a, bytes, 0) | mask_at::<N, A>(a, bytes, last) << last,
        mask_at::<N, B>(b, bytes, 0) | mask_at::<N, B>(b, bytes, last) << last,
    )
}

/// Returns the match masks of two needles among fewer than 64 bytes.
#[inline(always)]
pub fn masks_of<A: Needle, B: Needle>(a: A, b: B, bytes: &[u8]) -> (u64, u64)
    requires { length bytes.now < 64 }
    ensures first { result.0 ≡ mask_l (map (A.test a) bytes.now) }
    ensures second { result.1 ≡ mask_l (map (B.test b) bytes.now) }
{
    let size = bytes.len();
    // Nested, so that fewer than 16 bytes, as there often are, take one comparison less.
    if size >= 16 {
        if size >= 32 {
            masks_of_ends::<32, A, B>(a, b, bytes)
        } else {
            masks_of_ends::<16, A, B>(a, b, bytes)
        }
    } else if size >= 8 {
        masks_of_ends::<8, A, B>(a, b, bytes)
    } else if size >= 4 {
        masks_of_ends::<4, A, B>(a, b, bytes)
    } else if size >= 2 {
        masks_of_ends::<2, A, B>(a, b, bytes)
    } else if size == 1 {
        masks_of_ends::<1, A, B>(a, b, bytes)
    } else {
        (0, 0)
    }
}

// The match mask of the bytes from `at` on, which are the last, and fewer than 64.
#[inline(always)]
fn last_mask<M: Needle>(needle: M, bytes: &[u8], at: usize) -> u64
    requires within { at ≤ length bytes.now }
    requires some { 64 ≤ length bytes.now → at < length bytes.now }
    requires few { length bytes.now < at + 64 }
    ensures { result ≡ mask_l (map (M.test needle) (drop at bytes.now)) }
{
    if bytes.len() < 64 {
        return masks_of(needle, needle, &bytes[at..]).0;
    }
    let start = bytes.len() - 64;
    mask_at::<64, M>(needle, bytes, start) >> (at - start)
}

/// Returns the index of the set bit after `count` other set bits.
#[inline(always)]
pub fn nth_bit(mask: u64, count: u64) -> usize
    ensures { (test : ℕ → Bool) (bytes : List ℕ) → length bytes ≤ 64 → mask ≡ mask_l (map test bytes)
        → count < count_by test bytes → IsNth test 0 count bytes result }
{
    let mut rest = mask;
    let mut left = count;
    // A loop with two conditions is not unrolled, so that the functions it is in stay small enough to be inlined.
    while left > 0 && rest != 0 {
        rest &= rest - 1;
        left -= 1;
    }
    rest.trailing_zeros() as usize
}

/// The match mask of `bytes[at..end]`, of at most 64 bytes.
#[derive(Clone, Copy)]
pub struct MatchWindow {
    /// The index of its first byte.
    pub at: usize,
    /// The match mask of its bytes.
    pub mask: u64,
    /// The index after its last byte.
    pub end: usize,
}

impl MatchWindow {
    /// Returns the window of no bytes, before the first one.
    #[inline(always)]
    pub fn start() -> MatchWindow
        ensures start { result.at ≡ 0 }
        ensures window { (test : ℕ → Bool) (bytes : List ℕ) → IsMatchWindow test bytes result }
    {
        MatchWindow {
            at: 0,
            mask: 0,
            end: 0,
        }
    }

    // The window of the 64 bytes from `at` on.
    #[inline(always)]
    fn of_64<M: Needle>(needle: M, bytes: &[u8], at: usize) -> MatchWindow
        requires within { at + 64 ≤ length bytes.now }
        ensures at { result.at ≡ at }
        ensures end { result.end ≡ at + 64 }
        ensures window { IsMatchWindow (M.test needle) bytes.now result }
    {
        MatchWindow {
            at,
            mask: mask_at::<64, M>(needle, bytes, at),
            end: at + 64,
        }
    }

    /// Returns the window of the next 64 bytes from `at` on, or of those that are left: at least one, unless there are
    /// fewer than 64 bytes in all.
    #[inline(always)]
    pub fn new<M: Needle>(needle: M, bytes: &[u8], at: usize) -> MatchWindow
        requires within { at ≤ length bytes.now }
        requires some { 64 ≤ length bytes.now → at < length bytes.now }
        ensures at { result.at ≡ at }
        ensures end { result.end ≡ min (at + 64) (length bytes.now) }
        ensures window { IsMatchWindow (M.test needle) bytes.now result }
    {
        if bytes.len() - at < 64 {
            return MatchWindow {
                at,
                mask: last_mask(needle, bytes, at),
                end: bytes.len(),
            };
        }
        MatchWindow::of_64(needle, bytes, at)
    }

    // A window after the first `to` bytes, without a match.
    #[inline(always)]
    fn past(to: usize) -> MatchWindow
        requires { to < 2 ^ 63 }
        ensures { result ≡ record { at = to + 1; mask = 0; end = to + 1 } }
    {
        MatchWindow {
            at: to + 1,
            mask: 0,
            end: to + 1,
        }
    }

    // The rest of a window after the byte at index `index` of it.
    #[inline(always)]
    fn after(self, index: usize) -> MatchWindow
        requires { (self.at + index < self.end) × (index < 64) }
        ensures { result ≡ record { at = self.at + index + 1; mask = self.mask / 2 ^ index / 2; end = self.end } }
    {
        MatchWindow {
            at: self.at + index + 1,
            mask: self.mask >> index >> 1,
            end: self.end,
        }
    }

    // Like `after_nth`, from `at` on, for the last bytes, of which there are fewer than 64.
    #[cold]
    #[inline(never)]
    fn after_last_nth<M: Needle>(
        needle: M,
        bytes: &[u8],
        at: usize,
        to: usize,
        before: u64,
    ) -> MatchWindow
        requires within { (at < to) × (to ≤ length bytes.now) }
        requires few { length bytes.now < at + 64 }
        ensures { IsAfterNth (M.test needle) bytes.now to before (record { at = at; mask = 0; end = at }) result }
    {
        let window = MatchWindow::new(needle, bytes, at);
        if before < u64::from(window.mask.count_ones()) {
            return window.after(nth_bit(window.mask, before));
        }
        MatchWindow::past(to)
    }

    // Like `after_nth`, for a match that is not in the window. The windows after it are searched in turn.
    #[inline(always)]
    fn after_far_nth<M: Needle>(
        self,
        needle: M,
        bytes: &[u8],
        to: usize,
        before: u64,
    ) -> MatchWindow
        requires within { (self.at ≤ to) × (to ≤ length bytes.now) }
        requires window { IsMatchWindow (M.test needle) bytes.now self }
        requires far { count_ones self.mask ≤ before }
        ensures { IsAfterNth (M.test needle) bytes.now to before self result }
    {
        let mut at = self.end;
        let mut left = before - u64::from(self.mask.count_ones());
        while at < to && bytes.len() - at >= 64 {
            let window = MatchWindow::of_64(needle, bytes, at);
            let count = u64::from(window.mask.count_ones());
            if left < count {
                return window.after(nth_bit(window.mask, left));
            }
            left -= count;
            at = window.end;
        }
        if at >= to {
            return MatchWindow::past(to);
        }
        MatchWindow::after_last_nth(needle, bytes, at, to, left)
    }

    /// Returns the window after the match that `before` others precede, counted from this one on. If there is no such
    /// match among the first `to` bytes, it is after these.
    #[inline(always)]
    pub fn after_nth<M: Needle>(
        self,
        needle: M,
        bytes: &[u8],
        to: usize,
        before: u64,
    ) -> MatchWindow
        requires within { (self.at ≤ to) × (to ≤ length bytes.now) }
        requires window { IsMatchWindow (M.test needle) bytes.now self }
        ensures { IsAfterNth (M.test needle) bytes.now to before self result }
    {
        if before < u64::from(self.mask.count_ones()) {
            return self.after(nth_bit(self.mask, before));
        }
        if self.end >= to {
            return MatchWindow::past(to);
        }
        self.after_far_nth(needle, bytes, to, before)
    }

    /// Returns the index of the first match from the window on.
    #[inline(always)]
    pub fn first<M: Needle>(self, needle: M, bytes: &[u8]) -> Option<usize>
        requires window { IsMatchWindow (M.test needle) bytes.now self }
        ensures { IsFirst (Passes (M.test needle) bytes.now) self.at (length bytes.now) result }
    {
        if self.mask != 0 {
            return Some(self.at + self.mask.trailing_zeros() as usize);
        }
        if self.end == bytes.len() {
            return None;
        }
        let at = find_byte(needle, &bytes[self.end..])?;
        Some(self.end + at)
    }
}

/// Returns the index of the first match among `bytes[at..at + N]`, which are compared all at once. `N` is at most 64.
/// The index is counted from the beginning of `bytes`.
#[inline(always)]
pub fn find_in_chunk<const N: usize, M: Needle>(needle: M, bytes: &[u8], at: usize) -> Option<usize>
    requires lanes { N ≤ 64 }
    requires within { at + N ≤ length bytes.now }
    ensures { IsFirst (Passes (M.test needle) bytes.now) at (at + N) result }
{
    let mask = mask_at::<N, M>(needle, bytes, at);
    if mask == 0 {
        return None;
    }
    Some(at + mask.trailing_zeros() as usize)
}

// Returns the index of the first match among the first 64 bytes. The first 16 are compared first, since the match is
// often among them.
#[inline(always)]
pub(crate) fn find_in_64<M: Needle>(needle: M, bytes: &[u8]) -> Option<usize>
    requires { 64 ≤ length bytes.now }
    ensures { IsFirst (Passes (M.test needle) bytes.now) 0 64 result }
{
    if let Some(at) = find_in_chunk::<16, M>(needle, bytes, 0) {
        return Some(at);
    }
    find_in_chunk::<64, M>(needle, bytes, 0)
}

// Finds the first match among fewer than 64 bytes. Out of line, so that the functions that `find_near` is inlined in
// stay small.
#[inline(never)]
fn find_few<M: Needle>(needle: M, bytes: &[u8]) -> Option<usize>
    requires { length bytes.now < 64 }
    ensures { IsFirstByte (M.test needle) bytes.now result }
{
    let mask = masks_of(needle, needle, bytes).0;
    if mask == 0 {
        return None;
    }
    Some(mask.trailing_zeros() as usize)
}

// Finds the first match from `from` on. Out of line, since few matches are that far, or in so short a text.
#[cold]
#[inline(never)]
fn find_later<M: Needle>(needle: M, bytes: &[u8], from: usize) -> Option<usize>
    requires within { from ≤ length bytes.now }
    requires some { 64 ≤ length bytes.now → from < length bytes.now }
    ensures { IsFirst (Passes (M.test needle) bytes.now) from (length bytes.now) result }
{
    let window = MatchWindow::new(needle, bytes, from);
    if window.mask != 0 {
        return Some(from + window.mask.trailing_zeros() as usize);
    }
    if window.end == bytes.len() {
        return None;
    }
    let at = needle.find(&bytes[window.end..])?;
    Some(window.end + at)
}

/// Returns the index of the first match, like `find_byte`, by less code where it is inlined. It is as fast if the match
/// is among the first 16 bytes, as the end of a field often is.
#[inline(always)]
pub fn find_near<M: Needle>(needle: M, bytes: &[u8]) -> Option<usize>
    ensures { IsFirstByte (M.test needle) bytes.now result }
{
    if bytes.len() < 16 {
        return find_few(needle, bytes);
    }
    if let Some(at) = find_in_chunk::<16, M>(needle, bytes, 0) {
        return Some(at);
    }
    find_later(needle, bytes, 16)
}

/// Returns the index of the first match, like `memchr`. It is faster than `memchr` if the match is among the first 128
/// of more bytes, as the end of a line often is.
#[inline(always)]
pub fn find_byte<M: Needle>(needle: M, bytes: &[u8]) -> Option<usize>
    ensures { IsFirstByte (M.test needle) bytes.now result }
{
    let mut from = 0;
    // If there are at most 128 bytes, all are left to `find_later`, so that no chunk has to be compared with the end.
    // Chunks of 16 bytes would take fewer instructions, but their number would differ from one short line to the next,
    // and jumps that depend on it are mispredicted (`comm` of words).
    'chunks: while from <= 96 && bytes.len() > 128 {
        if let Some(at) = find_in_chunk::<32, M>(needle, bytes, from) {
            return Some(at);
        }
        from += 32;
    }
    find_later(needle, bytes, from)
}

/// Returns the index of the match after `before` others, among the first `to` bytes. May read bytes after these, since
/// a whole vector is as cheap as a part of it.
pub fn nth_index<M: Needle>(needle: M, bytes: &[u8], to: usize, before: u64) -> Option<usize>
    requires { to ≤ length bytes.now }
    ensures { IsNthResult (M.test needle) before (take to bytes.now) result }
{
    let window = MatchWindow::start().after_nth(needle, bytes, to, before);
    if window.at > to {
        return None;
    }
    Some(window.at - 1)
}

/// Bytes that are scanned several times. Those of the matches that are among the first 64 bytes are found by one mask,
/// unless there are fewer than 64 bytes.
#[derive(Drop)]
pub struct Matches<'a, M: Needle> {
    /// The byte, or either of two, that matches.
    pub needle: M,
    /// The bytes that are scanned.
    pub bytes: &'a [u8],
    // The match mask of the first `size` bytes.
    mask: u64,
    size: usize,
    // The index of the first match, which may be after these bytes.
    first_match: Option<usize>,
    ghost few: { size ≤ 64 },
    ghost within: { size ≤ length bytes.now },
    ghost is: { mask ≡ mask_l (map (M.test needle) (take size bytes.now)) },
    ghost found: { IsFirstByte (M.test needle) bytes.now first_match } by { IsFirstByte-prop (M.test needle) bytes.now first_match },
}

impl<'a, M: Needle> Matches<'a, M> {
    /// Finds the first matches.
    #[inline(always)]
    pub fn new(needle: M, bytes: &'a [u8]) -> Self
        ensures needle { result.needle ≡ needle }
        ensures bytes { result.bytes.now ≡ bytes.now }
    {
        if bytes.len() < 64 {
            return Matches {
                needle,
                bytes,
                mask: 0,
                size: 0,
                first_match: find_near(needle, bytes),
            };
        }
        let window = MatchWindow::of_64(needle, bytes, 0);
        let first_match = window.first(needle, bytes);
        Matches {
            needle,
            bytes,
            mask: window.mask,
            size: 64,
            first_match,
        }
    }

    /// The index of the first match.
    #[inline(always)]
    pub fn first(&self) -> Option<usize>
        ensures { IsFirstByte (M.test self.now.needle) self.now.bytes.now result }
    {
        self.first_match
    }

    /// The window at the first byte.
    #[inline(always)]
    pub fn window(&self) -> MatchWindow
        ensures start { result.at ≡ 0 }
        ensures window { IsMatchWindow (M.test self.now.needle) self.now.bytes.now result }
    {
        MatchWindow {
            at: 0,
            mask: self.mask,
            end: self.size,
        }
    }

    /// Returns the window after the match that `before` others precede, counted from `window` on. If there is no such
    /// match among the first `to` bytes, it is after these.
    #[inline(always)]
    pub fn after_nth(&self, window: MatchWindow, to: usize, before: u64) -> MatchWindow
        requires within { (window.at ≤ to) × (to ≤ length self.now.bytes.now) }
        requires window { IsMatchWindow (M.test self.now.needle) self.now.bytes.now window }
        ensures { IsAfterNth (M.test self.now.needle) self.now.bytes.now to before window result }
    {
        window.after_nth(self.needle, self.bytes, to, before)
    }
}
