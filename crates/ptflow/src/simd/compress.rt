//! Appends the selected bytes of 16 to an output buffer (`compress16`), or 64 bytes (`copy_chunk`), or all of these but
//! one (`copy_all_but`). `filter` uses these. The rows of the `CompressTable`, which `tr` makes, are byte shuffles that
//! move the selected bytes of eight to the front.

ghost use Rattle.std.specs.Prelude.{◌≡◌, ◌<◌, ◌≤◌, ◌+◌, ◌++◌, ℕ, List, Bool, length, take, drop};
ghost use Rattle.std.specs.Simd.Lanes.{mask_l, chunk};
ghost use Rattle.ptflow.specs.Private.Vectors.Compress.{ChunkPre, IsCompressTable, IsCompressRow, select_by};

use ptlines::{PADDED, PaddedBlock};
use std::array;
use std::simd::prelude::*;

// For each mask of eight flags, the indices of those that are set, in order. The last byte of a row is their count.
#[derive(Clone, Copy)]
pub(crate) struct CompressTable {
    rows: [[u8; 16]; 256],
    ghost is_table: { IsCompressTable rows },
}

// The indices of the set bits of a mask, and their count.
#[tactic(auto, using(crate::proofs::Vectors::Compress::row_steps, std::proofs::lemmas::Grind::common_steps))]
fn compress_row(mask: usize) -> [u8; 16]
    ensures { (flags : List Bool) → length flags ≡ 8 → mask ≡ mask_l flags → IsCompressRow flags result }
{
    let mut row = [0; 16];
    let mut count = 0;
    for index in 0..8u8 {
        row[count] = index;
        count += mask >> index & 1;
    }
    row[15] = count as u8;
    row
}

impl CompressTable {
    // The table with the rows of all 256 masks.
    pub fn new() -> CompressTable {
        CompressTable {
            rows: array::from_fn(compress_row),
        }
    }

    // Appends to the first `at` bytes of `into` the bytes of those of the first eight lanes of `v` whose bit in `keep`
    // is set. Returns the new count.
    #[inline(always)]
    fn compress8(&self, v: u8x16, keep: u8, into: &mut PaddedBlock, at: usize) -> usize
        requires { at + 16 ≤ PADDED }
        ensures packed { (flags : List Bool) → length flags ≡ 8 → keep ≡ mask_l flags
            → take result into.new ≡ take at into.old ++ select_by flags v }
        ensures end { (at ≤ result) × (result ≤ at + 8) }
    {
        let into: &mut [u8] = into;
        let row = &self.rows[usize::from(keep)];
        // Read first, or it is taken from the vector, which is slower (`tr -d 0-9`).
        let count = usize::from(row[15]);
        v.swizzle_dyn(u8x16::from_array(*row))
            .copy_to_slice(&mut into[at..]);
        at + count
    }

    // Appends to the first `at` bytes of `into` the bytes of those lanes of `v` whose bit in `keep` is set. Returns the
    // new count. The bytes of `into` after these may change.
    #[inline(always)]
    pub(crate) fn compress16(&self, v: u8x16, keep: u64, into: &mut PaddedBlock, at: usize) -> usize
        requires { at + 24 ≤ PADDED }
        ensures packed { (flags : List Bool) → length flags ≡ 16 → keep ≡ mask_l flags
            → take result into.new ≡ take at into.old ++ select_by flags v }
        ensures end { (at ≤ result) × (result ≤ at + 16) }
    {
        let half = self.compress8(v, (keep & 255) as u8, into, at);
        let rest = v.rotate_elements_left::<8>();
        self.compress8(rest, (keep >> 8 & 255) as u8, into, half)
    }
}

// Appends the 64 bytes at index `at` to the first `count` bytes of `into`. Returns the new count.
#[inline(always)]
pub(crate) fn copy_chunk(from: &[u8], at: usize, into: &mut PaddedBlock, count: usize) -> usize
    requires lanes { at + 64 ≤ length from.now }
    requires room { count + 64 ≤ PADDED }
    ensures copied { take result into.new ≡ take count into.old ++ chunk at 64 from.now }
    ensures end { result ≡ count + 64 }
{
    let into: &mut [u8] = into;
    u8x64::from_slice(&from[at..]).copy_to_slice(&mut into[count..]);
    count + 64
}

// Appends the 64 bytes at index `at`, without the one at index `removed` among them, to the first `count` bytes of
// `into`. Returns the new count. All are stored first; then 64 bytes from the one after the removed byte on are stored
// over it.
#[inline(always)]
pub(crate) fn copy_all_but(
    from: &[u8],
    at: usize,
    removed: usize,
    into: &mut PaddedBlock,
    count: usize,
) -> usize
    requires chunk { ChunkPre from.now at count }
    requires after { (removed < 64) × (at + 128 ≤ length from.now) }
    ensures copied { let bytes = chunk at 64 from.now in
        take result into.new ≡ take count into.old ++ (take removed bytes ++ drop (removed + 1) bytes) }
    ensures end { result ≡ count + 63 }
{
    copy_chunk(from, at, into, count);
    copy_chunk(from, at + removed + 1, into, count + removed);
    count + 63
}
