//! `compare`: the order of lines by byte value, used by the merging tools. Few bytes are compared as big-endian
//! numbers of 8 or 4 bytes at a time or byte by byte, and many with the standard library.

ghost use Rattle.std.specs.Prelude.{◌≡◌, ◌≤◌, ◌<◌, ◌+◌, length, take, drop, min};
ghost use Rattle.std.specs.Int.{w32, w64, from_be_bytes};
ghost use Rattle.ptlines.specs.Private.ByteOrder.{HaveCommonPrefix};
ghost use Rattle.ptlines.specs.ByteOrder.{byte_cmp};

use std::cmp::Ordering;

// The 8 bytes from the index `at` on, as a big-endian number.
#[inline(always)]
fn read_u64(bytes: &[u8], at: usize) -> u64
    requires { at + 8 ≤ length bytes.now }
    ensures { result ≡ from_be_bytes w64 (take 8 (drop at bytes.now)) }
{
    u64::from_be_bytes([
        bytes[at],
        bytes[at + 1],
        bytes[at + 2],
        bytes[at + 3],
        bytes[at + 4],
        bytes[at + 5],
        bytes[at + 6],
        bytes[at + 7],
    ])
}

// The 4 bytes from the index `at` on, as a big-endian number.
#[inline(always)]
fn read_u32(bytes: &[u8], at: usize) -> u32
    requires { at + 4 ≤ length bytes.now }
    ensures { result ≡ from_be_bytes w32 (take 4 (drop at bytes.now)) }
{
    u32::from_be_bytes([bytes[at], bytes[at + 1], bytes[at + 2], bytes[at + 3]])
}

// Compares with the standard library.
fn compare_long(a: &[u8], b: &[u8]) -> Ordering
    ensures { result ≡ byte_cmp a.now b.now }
{
    a.cmp(b)
}

// Compares byte by byte. It is meant for fewer than 4 bytes.
#[inline(always)]
fn compare_bytewise(a: &[u8], b: &[u8]) -> Ordering
    ensures { result ≡ byte_cmp a.now b.now }
{
    let least = a.len().min(b.len());
    for at in 0..least {
        if a[at] != b[at] {
            return a[at].cmp(&b[at]);
        }
    }
    a.len().cmp(&b.len())
}

// Compares if the shorter slice has fewer than 8 bytes: as numbers of 4 bytes, the first and the last 4 of them, which
// may overlap; or byte by byte if it has fewer than 4.
#[inline(always)]
fn compare_short(a: &[u8], b: &[u8]) -> Ordering
    requires { min (length a.now) (length b.now) < 8 }
    ensures { result ≡ byte_cmp a.now b.now }
{
    let least = a.len().min(b.len());
    if least < 4 {
        return compare_bytewise(a, b);
    }
    let (x, y) = (read_u32(a, 0), read_u32(b, 0));
    if x != y {
        return x.cmp(&y);
    }
    let (x, y) = (read_u32(a, least - 4), read_u32(b, least - 4));
    if x != y {
        return x.cmp(&y);
    }
    a.len().cmp(&b.len())
}

// Compares slices whose first 8 bytes are equal: 8 more bytes at a time, of which the last 8 may overlap those before.
fn compare_tail(a: &[u8], b: &[u8]) -> Ordering
    requires { HaveCommonPrefix 8 a.now b.now }
    ensures { result ≡ byte_cmp a.now b.now }
{
    let least = a.len().min(b.len());
    if least > 64 {
        return compare_long(a, b);
    }
    let mut at = 8;
    while least - at > 8 {
        let (x, y) = (read_u64(a, at), read_u64(b, at));
        if x != y {
            return x.cmp(&y);
        }
        at += 8;
    }
    let (x, y) = (read_u64(a, least - 8), read_u64(b, least - 8));
    if x != y {
        return x.cmp(&y);
    }
    a.len().cmp(&b.len())
}

/// Compares two slices by byte value, like `cmp` of slices: the first byte that differs decides, and a proper prefix is
/// less than the longer slice. It is faster than `cmp` if lines are short or differ in their first bytes.
#[inline(always)]
pub fn compare(a: &[u8], b: &[u8]) -> Ordering
    ensures { result ≡ byte_cmp a.now b.now }
{
    if a.len().min(b.len()) < 8 {
        return compare_short(a, b);
    }
    let (x, y) = (read_u64(a, 0), read_u64(b, 0));
    if x != y {
        return x.cmp(&y);
    }
    compare_tail(a, b)
}
