//! Tests of the byte kernels: copies, searches and comparisons of few and of many bytes.

use crate::asserts::{holds_of, same, same_of};
use ptfakes::texts::text_of;
use ptlines::{
    Blank, MatchWindow, Matches, Needle, compare, copy_short, find_byte, find_in_chunk, find_near,
    mask_at, masks_of, nth_bit, nth_index,
};
use std::alloc::{AllocError, Global};
use std::cmp::Ordering;
use std::process::Abort;
use std::test::Fail;

const SOURCE: &[u8] = b"0123456789abcdefghijklmnopqrstuvwxyz";

// Copies bytes after three others, and checks both.
fn copies(rt: &impl Abort, from: usize, to: usize) {
    assert!(rt; from <= to && to <= SOURCE.len());
    let mut into = [b'-'; 55];
    copy_short(SOURCE, from, to, &mut into, 3);
    assert!(rt; into.starts_with(b"---"));
    let is_copied = into[3..].starts_with(&SOURCE[from..to]);
    holds_of(rt, &(from, to), is_copied);
}

// Expects the first newline and the first byte 0 at these indices.
fn has_at(rt: &impl Abort, bytes: &[u8], newline: usize, zero: Option<usize>) {
    same_of(rt, &newline, &find_byte(b'\n', bytes), &Some(newline));
    same_of(rt, &newline, &find_byte(0, bytes), &zero);
    same_of(rt, &newline, &find_near(0, bytes), &zero);
}

// Searches for a byte at this index.
fn finds(rt: &impl Abort, alloc: Global, at: usize) -> Result<(), AllocError> {
    let mut bytes = text_of(alloc, &[at], b'\n', true)?;
    has_at(rt, &bytes, at, None);
    bytes.extend_from_slice(b"\n\0\n")?;
    has_at(rt, &bytes, at, Some(at.saturating_add(2)));
    Ok(())
}

const OFFSETS: &[usize] = &[
    0, 1, 2, 3, 4, 6, 7, 8, 12, 15, 16, 29, 30, 31, 32, 33, 63, 64, 65, 95, 96, 97, 127, 128, 129,
    159, 160, 8191, 20000,
];

#[test]
fn few_and_many_bytes_are_copied_and_found(rt: HostRuntime) -> Result<(), Fail> {
    for length in [0, 1, 15, 16, 17] {
        copies(&rt, 9, 9 + length);
        copies(&rt, 36 - length, 36);
    }
    let few = b"ab\ncd\n0123456789abcdef";
    same(&rt, &find_in_chunk::<4, u8>(b'\n', few, 0), &Some(2));
    same(&rt, &find_in_chunk::<4, u8>(b'\n', few, 3), &Some(5));
    same(&rt, &find_in_chunk::<2, u8>(b'\n', few, 0), &None);
    same(&rt, &find_in_chunk::<16, u8>(b'\n', few, 6), &None);
    same(&rt, &mask_at::<4, u8>(b'\n', few, 0), &0b100);
    same(&rt, &mask_at::<4, u8>(b'\n', few, 2), &0b1001);
    same(&rt, &mask_at::<16, u8>(b'\n', few, 6), &0);
    same(&rt, &find_byte(b'\n', b""), &None);
    for at in OFFSETS {
        finds(&rt, rt.alloc(), *at)?;
    }
    Ok(())
}

// Commas are found by their numbers, also at the edges of the windows of 64 bytes.
#[test]
fn matches_are_counted(rt: HostRuntime) -> Result<(), Fail> {
    let text = text_of(rt.alloc(), &[62, 0, 64, 3, 150], b',', false)?;
    let bytes = text.as_slice();
    for (count, at) in [(0, 62), (1, 63), (2, 128), (3, 132)] {
        same(&rt, &nth_index(b',', bytes, bytes.len(), count), &Some(at));
    }
    same(&rt, &nth_index(b',', bytes, bytes.len(), 4), &None);
    let matches = Matches::new(b',', bytes);
    same(&rt, &matches.first(), &Some(62));
    let third = matches.after_nth(matches.window(), bytes.len(), 1);
    same(&rt, &third.at, &64);
    if third.at <= bytes.len() {
        same(&rt, &third.first(b',', bytes), &Some(128));
    }
    same(&rt, &MatchWindow::start().at, &0);
    same(
        &rt,
        &MatchWindow::new(b',', bytes, 0).first(b',', bytes),
        &Some(62),
    );
    Ok(())
}

#[test]
fn blanks_are_found(rt: HostRuntime) {
    let bytes = b"a b\tc\nd ";
    same(&rt, &mask_at::<8, Blank>(Blank, bytes, 0), &0b1000_1010);
    same(&rt, &nth_bit(0b1000_1010, 1), &3);
    same(&rt, &Blank.find(bytes), &Some(1));
    same(&rt, &masks_of(Blank, b'\t', bytes), &(0b1000_1010, 0b1000));
    same(&rt, &find_byte(Blank, bytes), &Some(1));
    same(&rt, &find_near(Blank, bytes), &Some(1));
}

const LENGTHS: [usize; 18] = [
    1, 2, 3, 4, 5, 7, 8, 9, 15, 16, 17, 31, 32, 33, 63, 64, 65, 100,
];

// Compares prefixes of these lengths in both orders.
fn ordered(rt: &impl Abort, a: &[u8], b: &[u8], lengths: [usize; 2], wanted: Ordering) {
    let [first, second] = lengths;
    assert!(rt; first <= a.len() && second <= b.len());
    same(rt, &compare(&a[..first], &b[..second]), &wanted);
    same(rt, &compare(&b[..second], &a[..first]), &wanted.reverse());
}

// `front` equal bytes, then `byte`, then others.
fn bytes_of(rt: &impl Abort, front: usize, byte: u8, after: u8) -> [u8; 150] {
    let mut bytes = [0xc3; 150];
    assert!(rt; front < 150);
    bytes[front..].fill(after);
    bytes[front] = byte;
    bytes
}

// At this index the second slice has the greater byte, but all its later bytes are less, also those beyond the compared
// length.
fn differ_at(rt: &impl Abort, length: usize, at: usize) {
    let less = Ordering::Less;
    let shorter = at.saturating_add(1);
    for (low, high) in [(b'a', b'b'), (0x7f, 0x80), (0, 0xff)] {
        let first = bytes_of(rt, at, low, b'k');
        let second = bytes_of(rt, at, high, b'\t');
        for lengths in [[length, length], [length, shorter], [shorter, length]] {
            ordered(rt, &first, &second, lengths, less);
        }
    }
}

// The first byte that differs decides. If one slice is a prefix of the other, the shorter is less.
#[test]
fn few_and_many_bytes_are_ordered(rt: HostRuntime) {
    ordered(&rt, b"", b"", [0, 0], Ordering::Equal);
    ordered(&rt, b"", b"\0", [0, 1], Ordering::Less);
    for length in LENGTHS {
        for at in 0..length {
            differ_at(&rt, length, at);
        }
        let first = bytes_of(&rt, length, b'\n', b'\n');
        let second = bytes_of(&rt, length, 0, 0);
        ordered(&rt, &first, &second, [length, length], Ordering::Equal);
        for more in [1, 2, 7, 8, 30] {
            let longer = length.saturating_add(more);
            ordered(&rt, &first, &second, [length, longer], Ordering::Less);
        }
    }
}
