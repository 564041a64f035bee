//! Compares two slices, or their first bytes, by vectors of up to 16 bytes. `uniq` uses it.

ghost use Rattle.std.specs.Prelude.{◌≡◌, ◌≢◌, ◌≤◌, ◌+◌, MatchBool, bytes_eq, length, take, true};
ghost use Rattle.std.specs.Simd.Lanes.{chunk};

use std::simd::prelude::*;

/// Whether two slices begin with the same `len` bytes. False if `b` has fewer bytes than these, or fewer than 16.
#[inline(always)]
pub(crate) fn same_start(a: &[u8], b: &[u8], len: usize) -> bool
    requires { (len ≤ length a.now) × (length b.now ≤ length a.now) }
    ensures same { result ≡ true → take len a.now ≡ take len b.now }
    ensures within { result ≡ true → len ≤ length b.now }
{
    if b.len() < 16 {
        return false;
    }
    if len > 16 {
        return len <= b.len() && is_equal_long(&a[..len], &b[..len]);
    }
    let (a, b) = (u8x16::from_slice(a), u8x16::from_slice(b));
    len <= a.simd_eq(b).to_bitmask().trailing_ones() as usize
}

// Whether the `N` bytes from the index `at` on are equal in both slices.
#[inline(always)]
fn is_same_chunk<const N: usize>(a: &[u8], b: &[u8], at: usize) -> bool
    requires lanes { N ≤ 64 }
    requires within { (at + N ≤ length a.now) × (at + N ≤ length b.now) }
    ensures { MatchBool result (chunk at N a.now ≡ chunk at N b.now) (a.now ≢ b.now) }
{
    let a = Simd::<u8, N>::from_slice(&a[at..]);
    let b = Simd::<u8, N>::from_slice(&b[at..]);
    a.simd_ne(b).to_bitmask() == 0
}

// Whether two slices of one length are equal: 16 bytes at a time, of which the last 16 may overlap those before.
fn is_equal_long(a: &[u8], b: &[u8]) -> bool
    requires { (16 ≤ length a.now) × (length a.now ≡ length b.now) }
    ensures { result ≡ bytes_eq a.now b.now }
{
    let last = a.len() - 16;
    let mut at = 0;
    while at < last {
        if !is_same_chunk::<16>(a, b, at) {
            return false;
        }
        at += 16;
    }
    is_same_chunk::<16>(a, b, last)
}

// Whether two slices of one length, from `N` to `2 * N`, are equal: their first `N` bytes, and their last. It has no
// loop, which would keep an index of the last bytes in a register (`uniq` of a dictionary).
fn is_equal_short<const N: usize>(a: &[u8], b: &[u8]) -> bool
    requires lanes { N ≤ 64 }
    requires size { (N ≤ length a.now) × (length a.now ≤ N + N) × (length a.now ≡ length b.now) }
    ensures { result ≡ bytes_eq a.now b.now }
{
    is_same_chunk::<N>(a, b, 0) && is_same_chunk::<N>(a, b, a.len() - N)
}

/// Whether two slices are equal, like `==`. It is faster if they differ in their first bytes, or are short.
#[inline(always)]
pub(crate) fn is_equal(a: &[u8], b: &[u8]) -> bool
    ensures { result ≡ bytes_eq a.now b.now }
{
    if a.len() != b.len() {
        return false;
    }
    // Nested, so that 4 bytes or more take fewer comparisons than by a `match`.
    if a.len() >= 4 {
        if a.len() >= 8 {
            if a.len() >= 16 {
                return is_equal_long(a, b);
            }
            return is_equal_short::<8>(a, b);
        }
        return is_equal_short::<4>(a, b);
    }
    match a.len() {
        0 => true,
        1 => a[0] == b[0],
        _ => is_equal_short::<2>(a, b),
    }
}
