//! Maps bytes by a table of images, 16 bytes at a time. `tr` uses it.
//!
//! A shuffle looks up 16 images, a row, by the low nibbles of the bytes. Each byte is looked up in all rows, from the
//! first byte that differs from its image to the last one. Then every bit of its row drops half of what was found.

ghost use Rattle.std.specs.Prelude.{◌≡◌, ◌<◌, ◌≤◌, ◌+◌, ◌*◌, ◌/◌, ◌%◌, ℕ, [], length, map, MatchOption};
ghost use Rattle.std.specs.Prelude.{All, slice_index, slice_index_or};
ghost use Rattle.ptflow.specs.Private.Vectors.Tables.{image_from, lane_of, HasMoved, IsIdentity};

use crate::simd::byte_set::by_low_nibble;
use crate::simd::shift::{ByteMap, map_bytes};
use std::simd::prelude::*;

// The entries of each row, indexed by the low nibbles of the bytes.
#[inline(always)]
#[tactic(auto, using(crate::proofs::Vectors::Lanes::filled_next, std::proofs::lemmas::Grind::common_steps))]
fn look_up_rows<const N: usize>(rows: [u8x16; N], v: u8x16) -> [u8x16; N]
    ensures lanes { All (λ row. length row ≡ 16) result }
    ensures found { (row : ℕ) → row < N
        → slice_index_or result row [] ≡ map (λ b. slice_index (slice_index_or rows.entry row []) (b % 16)) v }
{
    let mut found = [v; N];
    for row in 0..N {
        found[row] = by_low_nibble(rows[row], v);
    }
    found
}

// Keeps of each two of the first `count` vectors the lanes of the first one where the row is even, and those of the
// second one where it is odd.
#[inline(always)]
fn halve<const N: usize>(found: [u8x16; N], count: usize, rows: u8x16) -> [u8x16; N]
    requires some { (0 < count) × (count ≤ N) }
    requires lanes { All (λ v. length v ≡ 16) found }
    ensures lanes { All (λ v. length v ≡ 16) result }
    ensures kept { (lane : ℕ) → lane < 16 → slice_index rows lane < count
        → slice_index (slice_index_or result (slice_index rows lane / 2) []) lane
        ≡ lane_of found.entry rows lane }
{
    let is_odd = (rows & u8x16::splat(1)).simd_ne(u8x16::splat(0));
    let mut kept = found;
    for index in 0..(count + 1) / 2 {
        let second = found[(2 * index + 1).min(count - 1)];
        kept[index] = is_odd.select(second, found[2 * index]);
    }
    kept
}

// In each lane, what was found in the row that `rows` has there.
#[inline(always)]
fn select_rows<const N: usize>(found: [u8x16; N], mut rows: u8x16) -> u8x16
    requires some { 0 < N }
    requires lanes { All (λ v. length v ≡ 16) found }
    ensures lanes { length result ≡ 16 }
    ensures selected { (lane : ℕ) → lane < 16 → slice_index rows lane < N
        → slice_index result lane ≡ lane_of found.entry rows lane }
{
    let mut left = found;
    let mut count = N;
    while count > 1 {
        left = halve(left, count, rows);
        rows = rows >> u8x16::splat(1);
        count = (count + 1) / 2;
    }
    left[0]
}

/// The map by rows of 16 images, those of the bytes from `first` on. Other bytes are not changed.
#[derive(Clone, Copy)]
struct TableMap<const N: usize> {
    first: u8,
    rows: [u8x16; N],
    ghost some: { 0 < N },
    ghost within: { first + 16 * N ≤ 256 },
    ghost size: { length rows ≡ N },
    ghost lanes: { All (λ row. length row ≡ 16) rows },
}

impl<const N: usize> ByteMap for TableMap<N> {
    ghost map_byte = { λ by. image_from by.first by.rows };

    #[inline(always)]
    fn map16(self, v: u8x16) -> u8x16 {
        let offsets = v - u8x16::splat(self.first);
        let rows = offsets >> u8x16::splat(4);
        let found = select_rows(look_up_rows(self.rows, offsets), rows);
        rows.simd_lt(u8x16::splat(N as u8)).select(found, v)
    }
}

/// The bytes from the first to the last that differ from their images.
#[derive(Clone, Copy)]
pub(crate) struct MovedRange {
    pub first: usize,
    pub last: usize,
}

impl MovedRange {
    /// The range of a table, or `None` if every byte is its own image.
    pub(crate) fn of(images: &[u8; 256]) -> Option<MovedRange>
        ensures { MatchOption result (IsIdentity images.now) (λ moved. HasMoved moved images.now) }
    {
        let mut first = 256;
        let mut last = 0;
        for byte in 0..256 {
            if usize::from(images[byte]) != byte {
                first = byte.min(first);
                last = byte;
            }
        }
        if first > last {
            return None;
        }
        Some(MovedRange { first, last })
    }

    // The map by `N` rows, which begin with the first byte or before it.
    fn map<const N: usize>(self, images: &[u8; 256]) -> TableMap<N>
        requires few { (0 < N) × (N ≤ 16) }
        requires enough { self.last < self.first + 16 * N }
        requires moved { HasMoved self images.now }
        ensures { (b : ℕ) → b < 256 → image_from result.first result.rows b ≡ slice_index images.now b }
    {
        let table: &[u8] = images;
        let first = self.first.min(256 - 16 * N);
        let mut rows = [u8x16::splat(0); N];
        for row in 0..N {
            rows[row] = u8x16::from_slice(&table[first + 16 * row..]);
        }
        let first = first as u8;
        TableMap { first, rows }
    }

    /// Stores the images of the bytes of `from` in `to`, which is as long. (Four rows have room for the letters of both
    /// cases, and five for the digits, too.)
    #[tactic(auto, using(crate::proofs::Vectors::Lanes::images_same))]
    pub(crate) fn store_images(self, images: &[u8; 256], from: &[u8], to: &mut [u8])
        requires moved { HasMoved self images.now }
        requires long { length to.old ≡ length from.now }
        ensures { to.new ≡ map (slice_index images.now) from.now }
    {
        match (self.last - self.first) / 16 {
            0 | 1 => map_bytes(self.map::<2>(images), from, to),
            2 | 3 => map_bytes(self.map::<4>(images), from, to),
            4 => map_bytes(self.map::<5>(images), from, to),
            5..=7 => map_bytes(self.map::<8>(images), from, to),
            _ => map_bytes(self.map::<16>(images), from, to),
        }
    }
}
