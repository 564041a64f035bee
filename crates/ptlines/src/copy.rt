//! Copies of byte strings that are fast for few bytes, used by the tools.

ghost use Rattle.std.specs.Prelude.{◌≡◌, ◌≤◌, ◌+◌, ◌-◌, ◌++◌, length, take, drop};
ghost use Rattle.ptlines.specs.Private.Bounds.{CopyChunkPre, IsCoveredByEnds};

use std::simd::prelude::*;

// Copies `bytes[from..from + N]` to `into[at..at + N]` as one vector.
#[inline(always)]
pub(crate) fn copy_chunk<const N: usize>(bytes: &[u8], from: usize, into: &mut [u8], at: usize)
    requires { CopyChunkPre N from bytes.now at into.old }
    ensures long { length into.new ≡ length into.old }
    ensures copied { take (at + N) into.new ≡ take at into.old ++ take N (drop from bytes.now) }
    ensures rest { drop (at + N) into.new ≡ drop (at + N) into.old }
{
    Simd::<u8, N>::from_slice(&bytes[from..]).copy_to_slice(&mut into[at..]);
}

// Copies all bytes as one vector of the first `N` bytes and one of the last `N`. The two may overlap.
#[inline(always)]
fn copy_overlapping<const N: usize>(bytes: &[u8], into: &mut [u8], at: usize)
    requires few { IsCoveredByEnds N bytes.now }
    requires room { at + length bytes.now ≤ length into.old }
    ensures long { length into.new ≡ length into.old }
    ensures copied { take (at + length bytes.now) into.new ≡ take at into.old ++ bytes.now }
    ensures rest { drop (at + length bytes.now) into.new ≡ drop (at + length bytes.now) into.old }
{
    let last = bytes.len() - N;
    copy_chunk::<N>(bytes, 0, into, at);
    copy_chunk::<N>(bytes, last, into, at + last);
}

/// Copies all bytes to the index `at` of `into`, and changes nothing after them. Up to 64 are copied without a call.
#[inline(always)]
pub fn copy_all(bytes: &[u8], into: &mut [u8], at: usize)
    requires { at + length bytes.now ≤ length into.old }
    ensures long { length into.new ≡ length into.old }
    ensures copied { take (at + length bytes.now) into.new ≡ take at into.old ++ bytes.now }
    ensures rest { drop (at + length bytes.now) into.new ≡ drop (at + length bytes.now) into.old }
{
    match bytes.len() {
        0 => {}
        1 => copy_overlapping::<1>(bytes, into, at),
        2..=3 => copy_overlapping::<2>(bytes, into, at),
        4..=7 => copy_overlapping::<4>(bytes, into, at),
        8..=15 => copy_overlapping::<8>(bytes, into, at),
        16..=31 => copy_overlapping::<16>(bytes, into, at),
        32..=64 => copy_overlapping::<32>(bytes, into, at),
        _ => copy_long(bytes, into, at),
    }
}

// Copies any number of bytes. Out of line, so that few are copied without a call (`cut -c 3-,1`).
#[inline(never)]
fn copy_long(bytes: &[u8], into: &mut [u8], at: usize)
    requires { at + length bytes.now ≤ length into.old }
    ensures long { length into.new ≡ length into.old }
    ensures copied { take (at + length bytes.now) into.new ≡ take at into.old ++ bytes.now }
    ensures rest { drop (at + length bytes.now) into.new ≡ drop (at + length bytes.now) into.old }
{
    into[at..at + bytes.len()].copy_from_slice(bytes);
}

/// Copies `bytes[from..to]` to the index `at` of `into`. It is meant for few bytes: up to 16 are copied as one vector,
/// without a call. The bytes after them in `into` may change too, so `into` must have room for 16 bytes more than are
/// copied.
#[inline(always)]
pub fn copy_short(bytes: &[u8], from: usize, to: usize, into: &mut [u8], at: usize)
    requires within { (from ≤ to) × (to ≤ length bytes.now) }
    requires room { at + (to - from) + 16 ≤ length into.old }
    ensures long { length into.new ≡ length into.old }
    ensures copied { take (at + (to - from)) into.new ≡ take at into.old ++ take (to - from) (drop from bytes.now) }
{
    if to - from <= 16 && bytes.len() - from >= 16 {
        copy_chunk::<16>(bytes, from, into, at);
    } else {
        copy_long(&bytes[from..to], into, at);
    }
}
