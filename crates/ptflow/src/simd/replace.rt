//! Replaces line terminators by the bytes of a cycle, many at a time. `paste -s` uses it, and `paste` for rows whose
//! columns share one input.

ghost use Rattle.std.specs.Prelude.{◌≡◌, ◌<◌, ◌≤◌, ◌+◌, ◌%◌, ◌++◌, [], ◌∷◌, ℕ, length, take, slice_index_or};
ghost use Rattle.std.specs.List.{count_by};
ghost use Rattle.std.specs.Simd.Lanes.{chunk};
ghost use Rattle.memchr.specs.Find.{is_byte};
ghost use Rattle.ptflow.specs.Private.Paste.Unrolled.{IsUnrolled};

use crate::simd::shift::{ByteMap, map_bytes};
use ptlines::mask_at;
use std::simd::prelude::*;

/// The map that replaces the terminator by one byte.
#[derive(Clone, Copy)]
pub(crate) struct ReplaceTerminator {
    pub terminator: u8,
    pub byte: u8,
}

impl ByteMap for ReplaceTerminator {
    ghost use Rattle.ptflow.specs.Private.Paste.Replaced.{with_byte};

    ghost map_byte = { with_byte };

    #[inline(always)]
    fn map16(self, v: u8x16) -> u8x16 {
        v.simd_eq(u8x16::splat(self.terminator))
            .select(u8x16::splat(self.byte), v)
    }
}

/// At most 256 bytes that replace the terminators in turn: after the last one comes the first one again. They are
/// unrolled, so that 64 can be read from the index of any of them on.
#[derive(Clone, Copy, Drop)]
pub(crate) struct Cycle {
    pub terminator: u8,
    pub len: usize,
    pub unrolled: [u8; 320],
    ghost is_unrolled: { IsUnrolled len unrolled },
}

// A position in a copy: how many bytes were copied, and the index of the next byte of the cycle.
#[derive(Clone, Copy)]
struct CyclePosition {
    copied: usize,
    next: usize,
}

impl Cycle {
    ghost use Rattle.ptflow.specs.Private.Paste.Replaced.{IsReplacedTo, cycle_byte, with_replacements};

    /// The cycle of these bytes.
    pub(crate) fn new(bytes: &[u8], terminator: u8) -> Cycle
        requires { (0 < length bytes.now) × (length bytes.now ≤ 256) }
        ensures terminator { result.terminator ≡ terminator }
        ensures len { result.len ≡ length bytes.now }
        ensures bytes { (number : ℕ) → cycle_byte result number
            ≡ slice_index_or bytes.now (number % length bytes.now) 0 ∷ [] }
    {
        let len = bytes.len();
        let mut unrolled = [0; 320];
        for number in 0..len + 63 {
            unrolled[number] = bytes[number % len];
        }
        Cycle {
            terminator,
            len,
            unrolled,
        }
    }

    // The index of the byte that is `count` bytes after the one at `index`.
    #[inline(always)]
    fn after(&self, index: usize, count: usize) -> usize
        requires { (index < self.now.len) × (count ≤ 64) }
        ensures { result ≡ (index + count) % self.now.len }
    {
        let next = index + count;
        let len = self.len;
        if next < len { next } else { next % len }
    }

    // Copies the 64 bytes at index `at`, with their terminators replaced from the byte at `index` on. Returns the index
    // of the next byte of the cycle.
    fn replace_chunk(&self, index: usize, from: &[u8], at: usize, to: &mut [u8]) -> usize
        requires index { index < self.now.len }
        requires room { at + 64 ≤ length from.now }
        requires same { length to.old ≡ length from.now }
        ensures long { length to.new ≡ length from.now }
        ensures next { result ≡ (index + count_by (is_byte self.now.terminator) (chunk at 64 from.now)) % self.now.len }
        ensures replaced { take (at + 64) to.new
            ≡ take at to.old ++ with_replacements self.now.terminator (cycle_byte self.now) index
            (chunk at 64 from.now) }
    {
        let terminator = self.terminator;
        u8x64::from_slice(&from[at..]).copy_to_slice(&mut to[at..]);
        let mut mask = mask_at::<64, u8>(terminator, from, at);
        let count = mask.count_ones() as usize;
        for after in 0..count {
            let end = at + mask.trailing_zeros() as usize;
            to[end] = self.unrolled[index + after];
            mask &= mask.wrapping_sub(1);
        }
        self.after(index, count)
    }

    /// Copies `from` to `to`, with the terminators replaced from the byte at `index` on. Returns the index of the next
    /// byte of the cycle. Both slices have the same length.
    pub(crate) fn replace(&self, index: usize, from: &[u8], to: &mut [u8]) -> usize
        requires index { index < self.now.len }
        requires same { length to.old ≡ length from.now }
        ensures next { result ≡ (index + count_by (is_byte self.now.terminator) from.now) % self.now.len }
        ensures replaced { to.new ≡ with_replacements self.now.terminator (cycle_byte self.now) index from.now }
    {
        let terminator = self.terminator;
        if self.len == 1 {
            let byte = self.unrolled[0];
            map_bytes(ReplaceTerminator { terminator, byte }, from, to);
            return 0;
        }
        let chunks = self.replace_chunks(index, from, to);
        let (mut index, mut at) = (chunks.next, chunks.copied);
        while at < from.len() {
            to[at] = from[at];
            if from[at] == terminator {
                to[at] = self.unrolled[index];
                index = self.after(index, 1);
            }
            at += 1;
        }
        index
    }

    // Like `replace`, for all chunks of 64 bytes.
    #[inline(always)]
    fn replace_chunks(&self, mut index: usize, from: &[u8], to: &mut [u8]) -> CyclePosition
        requires index { index < self.now.len }
        requires same { length to.old ≡ length from.now }
        ensures { IsReplacedTo self.now index result.next result.copied from.now to.new }
    {
        let mut at = 0;
        while from.len() - at >= 64 {
            index = self.replace_chunk(index, from, at, to);
            at += 64;
        }
        CyclePosition {
            copied: at,
            next: index,
        }
    }
}
