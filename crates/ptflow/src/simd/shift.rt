//! Maps bytes, 16 at a time: by ranges with a shift each, or by any other `ByteMap`. `tr` and `paste` use it.

ghost use Rattle.std.specs.Prelude.{◌≡◌, ◌<◌, ◌≤◌, ◌+◌, ◌++◌, ℕ, length, map, take};
ghost use Rattle.ptlangs.specs.Calls.TrShifts.{image_of_shifts};
ghost use Rattle.ptflow.specs.Private.Vectors.Shift.{IsMappedTo};

use ptlangs::Shifts;
use std::simd::prelude::*;

/// A map of bytes that is applied to 16 bytes at once.
pub(crate) trait ByteMap: Copy {
    ghost map_byte: { Self → ℕ → ℕ };

    /// The images of 16 bytes.
    fn map16(self, v: u8x16) -> u8x16
        ensures { result ≡ map (map_byte self) v };
}

// Stores the images of 16 bytes at index `at`.
#[inline(always)]
fn map_at<M: ByteMap>(by: M, v: u8x16, to: &mut [u8], at: usize)
    requires { at + 16 ≤ length to.old }
    ensures long { length to.new ≡ length to.old }
    ensures stored { take (at + 16) to.new ≡ take at to.old ++ map (M.map_byte by) v }
{
    by.map16(v).copy_to_slice(&mut to[at..]);
}

// Maps all but the last bytes, 32 at a time. Returns how many were mapped.
#[inline(always)]
fn map_chunks<M: ByteMap>(by: M, from: &[u8], to: &mut [u8]) -> usize
    requires { length to.old ≡ length from.now }
    ensures { IsMappedTo result (M.map_byte by) from.now to.new }
{
    let mut at = 0;
    while from.len() - at >= 32 {
        map_at(by, u8x16::from_slice(&from[at..]), to, at);
        map_at(by, u8x16::from_slice(&from[at + 16..]), to, at + 16);
        at += 32;
    }
    at
}

/// Stores the images of the bytes of `from` in `to`. Both slices have the same length. Not inlined, so that the code of
/// each map is a function of its own (`run_in_turn` in `ptrun` says what for).
#[inline(never)]
pub(crate) fn map_bytes<M: ByteMap>(by: M, from: &[u8], to: &mut [u8])
    requires { length to.old ≡ length from.now }
    ensures { to.new ≡ map (M.map_byte by) from.now }
{
    let mut at = map_chunks(by, from, to);
    while at < from.len() {
        to[at] = by.map16(u8x16::splat(from[at]))[0];
        at += 1;
    }
}

/// A range of bytes and its shift: the first byte, the distance of the last one from it, and the value to add.
#[derive(Clone, Copy)]
struct ShiftRange {
    first: u8,
    width: u8,
    by: u8,
}

impl ShiftRange {
    ghost use Rattle.ptflow.specs.Private.Vectors.Shift.{range_delta, stretch_delta};

    // The range from a first to a last byte with a shift. Without a range, no byte is changed.
    fn of(range: Option<(u8, u8, u8)>) -> ShiftRange
        ensures { (b : ℕ) → b < 256 → range_delta result b ≡ stretch_delta range b }
    {
        let (first, last, by) = match range {
            Some(stretch) if stretch.0 <= stretch.1 => stretch,
            _ => (0, 0, 0),
        };
        let width = last - first;
        ShiftRange { first, width, by }
    }

    // The values that are added to the bytes of a vector.
    #[inline(always)]
    fn deltas16(self, v: u8x16) -> u8x16
        ensures { result ≡ map (range_delta self) v }
    {
        let offset = v - u8x16::splat(self.first);
        offset
            .simd_le(u8x16::splat(self.width))
            .select(u8x16::splat(self.by), u8x16::splat(0))
    }
}

/// The map that adds the shifts of `N` ranges.
#[derive(Clone, Copy)]
struct ShiftRanges<const N: usize> {
    ranges: [ShiftRange; N],
}

impl<const N: usize> ShiftRanges<N> {
    ghost use Rattle.ptflow.specs.Private.Vectors.Shift.{shift_by_ranges};

    // The ranges of the stretches, of which there are at most `N`.
    fn of(shifts: &Shifts) -> ShiftRanges<N>
        requires { length shifts.now ≤ N }
        ensures { (b : ℕ) → b < 256 → shift_by_ranges result.ranges b ≡ image_of_shifts shifts.now b }
    {
        let mut ranges = [ShiftRange::of(None); N];
        for index in 0..N {
            ranges[index] = ShiftRange::of(shifts.stretch(index));
        }
        ShiftRanges { ranges }
    }
}

impl<const N: usize> ByteMap for ShiftRanges<N> {
    ghost use Rattle.ptflow.specs.Private.Vectors.Shift.{shift_by_ranges};

    ghost map_byte = { λ by. shift_by_ranges by.ranges };

    #[inline(always)]
    fn map16(self, v: u8x16) -> u8x16 {
        let mut images = v;
        for index in 0..N {
            images += self.ranges[index].deltas16(v);
        }
        images
    }
}

/// Stores the images of the bytes of `from` by the shifts in `to`. Both slices have the same length.
#[tactic(auto, using(crate::proofs::Vectors::Lanes::all_stretches, crate::proofs::Vectors::Lanes::images_same))]
pub fn translate(shifts: &Shifts, from: &[u8], to: &mut [u8])
    requires { length to.old ≡ length from.now }
    ensures { to.new ≡ map (image_of_shifts shifts.now) from.now }
{
    if shifts.stretch(1).is_none() {
        return map_bytes(ShiftRanges::<1>::of(shifts), from, to);
    }
    if shifts.stretch(2).is_none() {
        return map_bytes(ShiftRanges::<2>::of(shifts), from, to);
    }
    map_bytes(ShiftRanges::<4>::of(shifts), from, to);
}
