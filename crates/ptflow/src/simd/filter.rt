//! Removes bytes of a set: each of them, or those that repeat the byte before them. `tr -d` and `tr -s` use it.

ghost use Rattle.std.specs.Prelude.{◌≡◌, ◌<◌, ◌≤◌, ◌+◌, ◌++◌, ◌==◌, not, length, filter, take, drop};
ghost use Rattle.std.specs.Simd.Lanes.{chunk, mask_l, zip2};
ghost use Rattle.ptflow.specs.Private.Vectors.ByteSets.{keep_flags, kept_bytes, FilterPre};
ghost use Rattle.ptflow.specs.Private.Vectors.Compress.{ChunkPre, removed_mask};
ghost use Rattle.ptflow.specs.Private.Tr.TrFrom.{squeeze_from};

use crate::simd::byte_set::ByteTest;
use crate::simd::compress::{CompressTable, copy_all_but, copy_chunk};
use ptlines::{BLOCK, PaddedBlock};
use std::simd::prelude::*;

/// The set of the bytes that may be removed, and the table for compression.
#[derive(Clone, Copy)]
pub(crate) struct Filter<'a, T: ByteTest> {
    pub set: T,
    pub table: &'a CompressTable,
}

// Bytes, and the bytes that they are compared with. A byte of the set is removed if it is equal to the one in `before`.
#[derive(Clone, Copy)]
struct Pairs<'a> {
    before: &'a [u8],
    bytes: &'a [u8],
    ghost paired: { length bytes.now ≤ length before.now },
}

impl Pairs<'_> {
    // The mask of those of the 16 bytes at index `at` that are equal to what they are compared with.
    #[inline(always)]
    fn same16(self, at: usize) -> u64
        requires { at + 16 ≤ length self.bytes.now }
        ensures { result ≡ mask_l (zip2 ◌==◌ (chunk at 16 self.entry.before.now) (chunk at 16 self.entry.bytes.now)) }
    {
        let Pairs { before, bytes } = self;
        let v = u8x16::from_slice(&bytes[at..]);
        u8x16::from_slice(&before[at..]).simd_eq(v).to_bitmask()
    }

    // The mask of those of the 16 bytes at index `at` that are removed.
    #[inline(always)]
    fn removed16<T: ByteTest>(self, set: T, at: usize) -> u64
        requires { at + 16 ≤ length self.bytes.now }
        ensures small { result < 65536 }
        ensures mask { result
            ≡ removed_mask (keep_flags (T.has set) (chunk at 16 self.entry.before.now) (chunk at 16 self.entry.bytes.now)) }
    {
        let Pairs { before, bytes } = self;
        let v = u8x16::from_slice(&bytes[at..]);
        let removed = u8x16::from_slice(&before[at..]).simd_eq(v) & set.test(v);
        removed.to_bitmask()
    }
}

// Appends those of the 64 bytes at index `at` that are kept. Returns the new count. If no byte is equal to the one that
// it is compared with, which is tested first for the sake of squeezing, or none is removed, the chunk is copied whole.
#[inline(always)]
fn filter64<T: ByteTest>(
    by: &Filter<T>,
    pairs: Pairs,
    at: usize,
    into: &mut PaddedBlock,
    count: usize,
) -> usize
    requires { ChunkPre pairs.bytes.now at count }
    ensures kept { take result into.new
        ≡ take count into.old
        ++ kept_bytes (T.has by.now.set) (chunk at 64 pairs.entry.before.now) (chunk at 64 pairs.entry.bytes.now) }
    ensures end { result ≤ count + 64 }
{
    let from = pairs.bytes;
    let same_ab = pairs.same16(at) | pairs.same16(at + 16);
    if same_ab | pairs.same16(at + 32) | pairs.same16(at + 48) == 0 {
        return copy_chunk(from, at, into, count);
    }
    let removed_a = pairs.removed16(by.set, at);
    let removed_b = pairs.removed16(by.set, at + 16);
    let removed_c = pairs.removed16(by.set, at + 32);
    let removed_d = pairs.removed16(by.set, at + 48);
    let removed = removed_a | removed_b << 16 | removed_c << 32 | removed_d << 48;
    if removed == 0 {
        return copy_chunk(from, at, into, count);
    }
    // One byte is often removed (`tr -d '\r'`). Then up to 64 bytes after the chunk are read as well.
    let index = removed.trailing_zeros() as usize;
    if removed == 1 << index && from.len() - at >= 128 {
        return copy_all_but(from, at, index, into, count);
    }
    // Each 16 bytes by their own mask, which is known before that of all 64 (`tr -d 0-9`).
    let a = u8x16::from_slice(&from[at..]);
    let b = u8x16::from_slice(&from[at + 16..]);
    let c = u8x16::from_slice(&from[at + 32..]);
    let d = u8x16::from_slice(&from[at + 48..]);
    let first = by.table.compress16(a, 0xffff - removed_a, into, count);
    let second = by.table.compress16(b, 0xffff - removed_b, into, first);
    let third = by.table.compress16(c, 0xffff - removed_c, into, second);
    by.table.compress16(d, 0xffff - removed_d, into, third)
}

// Appends the bytes from index `start` on that are kept, one by one. Returns the new count.
fn filter_tail<T: ByteTest>(
    by: &Filter<T>,
    pairs: Pairs,
    start: usize,
    into: &mut PaddedBlock,
    mut count: usize,
) -> usize
    requires { FilterPre pairs.bytes.now start count }
    ensures kept { take result into.new
        ≡ take count into.old
        ++ kept_bytes (T.has by.now.set) (drop start pairs.entry.before.now) (drop start pairs.entry.bytes.now) }
    ensures end { result + start ≤ count + length pairs.entry.bytes.now }
{
    for at in start..pairs.bytes.len() {
        let byte = pairs.bytes[at];
        let removed = (pairs.before[at] == byte) & by.set.contains(byte);
        into[count] = byte;
        count += usize::from(!removed);
    }
    count
}

// Appends the bytes that are kept, 64 at a time. Returns the new count. Inlined, since bytes that are compared with
// themselves need no comparison (`tr -d 0-9`).
#[inline(always)]
fn filter_pairs<T: ByteTest>(
    by: &Filter<T>,
    pairs: Pairs,
    into: &mut PaddedBlock,
    mut count: usize,
) -> usize
    requires { FilterPre pairs.bytes.now 0 count }
    ensures kept { take result into.new
        ≡ take count into.old ++ kept_bytes (T.has by.now.set) pairs.entry.before.now pairs.entry.bytes.now }
    ensures end { result ≤ count + length pairs.entry.bytes.now }
{
    let mut at = 0;
    while pairs.bytes.len() - at >= 64 {
        count = filter64(by, pairs, at, into, count);
        at += 64;
    }
    filter_tail(by, pairs, at, into, count)
}

/// Copies the bytes that are not in the set to the front of `into`, and returns them.
pub(crate) fn remove<'b, T: ByteTest>(
    by: &Filter<T>,
    from: &[u8],
    into: &'b mut PaddedBlock,
) -> &'b [u8]
    requires { length from.now ≤ BLOCK }
    ensures kept { result.now ≡ filter (λ b. not (T.has by.now.set b)) from.now }
    ensures within { length result.now ≤ length from.now }
{
    let pairs = Pairs {
        before: from,
        bytes: from,
    };
    let count = filter_pairs(by, pairs, into, 0);
    &into[..count]
}

/// Copies `from` without the repeats of bytes of the set to the front of `into`, and returns what was copied. `last` is
/// the byte before `from`, if there is one.
pub(crate) fn squeeze<'b, T: ByteTest>(
    by: &Filter<T>,
    last: Option<u8>,
    from: &'b [u8],
    into: &'b mut PaddedBlock,
) -> &'b [u8]
    requires { length from.now ≤ BLOCK }
    ensures { result.now ≡ squeeze_from (T.has by.now.set) last from.now }
{
    if from.is_empty() {
        return from;
    }
    let first = from[0];
    let repeats = (last == Some(first)) & by.set.contains(first);
    into[0] = first;
    let pairs = Pairs {
        before: from,
        bytes: &from[1..],
    };
    let count = filter_pairs(by, pairs, into, usize::from(!repeats));
    &into[..count]
}
