//! The key of a line: the part that `uniq` compares, after the fields and bytes that a job skips. The ends of fields
//! are found with vectors, 31 bytes at a time, or byte by byte.

ghost use Rattle.std.specs.Prelude.{◌≡◌, ◌<◌, ◌≤◌, ◌+◌, take, drop, map, length};
ghost use Rattle.std.specs.Simd.Lanes.{chunk, mask_l};
ghost use Rattle.ptlangs.specs.Jobs.{uniq_job};
ghost use Rattle.ptlines.specs.Text.{is_blank};
ghost use Rattle.ptflow.specs.Uniqs.{after_fields, ends_word, key};
ghost use Rattle.ptflow.specs.Private.Uniq.FieldEnds.{field_ends};

use ptlangs::jobs::UniqJob;
use ptlines::{Blank, mask_at, nth_bit};

fn is_blank(byte: u8) -> bool
    ensures { result ≡ is_blank byte }
{
    byte == b' ' || byte == b'\t'
}

// Checks whether a field ends with this byte, which is before `rest`.
fn ends_word(byte: u8, rest: &[u8]) -> bool
    ensures { result ≡ ends_word byte rest.now }
{
    match rest {
        [next, ..] => !is_blank(byte) && is_blank(*next),
        [] => !is_blank(byte),
    }
}

// Skips `fields` fields, byte by byte. For few bytes.
fn skip_fields_short(fields: u64, line: &[u8]) -> &[u8]
    ensures { result.now ≡ after_fields fields line.now }
{
    let mut left = fields;
    let mut rest = line;
    'bytes: while let [byte, tail @ ..] = rest {
        if left == 0 {
            return rest;
        }
        if ends_word(*byte, tail) {
            left -= 1;
        }
        rest = tail;
    }
    rest
}

// The mask of the field ends among the 31 bytes at index `at`: each is not a blank, but the byte after it is.
#[inline(always)]
fn field_ends(bytes: &[u8], at: usize) -> u64
    requires { at + 32 ≤ length bytes.now }
    ensures { result ≡ mask_l (field_ends 31 (drop at bytes.now)) }
{
    let blanks = mask_at::<32, Blank>(Blank, bytes, at);
    (0xffff_ffff - blanks) & blanks >> 1
}

// Skips `fields` fields of the line `bytes[..to]`, 31 bytes at a time. May read bytes after the line.
fn skip_fields_cold(fields: u64, bytes: &[u8], to: usize) -> &[u8]
    requires some { 0 < fields }
    requires within { to ≤ length bytes.now }
    ensures { result.now ≡ after_fields fields (take to bytes.now) }
{
    let mut at = 0;
    let mut left = fields;
    while at < to {
        if bytes.len() - at < 32 {
            return skip_fields_short(left, &bytes[at..to]);
        }
        let ends = field_ends(bytes, at);
        let count = u64::from(ends.count_ones());
        if left <= count {
            let end = at + nth_bit(ends, left - 1);
            return &bytes[(end + 1).min(to)..to];
        }
        left -= count;
        at += 31;
    }
    &bytes[to..to]
}

// Skips `fields` fields of the line `bytes[..to]`.
fn skip_fields(fields: u64, bytes: &[u8], to: usize) -> &[u8]
    requires { to ≤ length bytes.now }
    ensures { result.now ≡ after_fields fields (take to bytes.now) }
{
    if fields == 0 {
        return &bytes[..to];
    }
    skip_fields_cold(fields, bytes, to)
}

// The part of the line `bytes[..to]` that is compared.
#[inline(always)]
pub(crate) fn key<'a>(job: &UniqJob, bytes: &'a [u8], to: usize) -> &'a [u8]
    requires { to ≤ length bytes.now }
    ensures { result.now ≡ key (uniq_job job.now) (take to bytes.now) }
{
    let rest = skip_fields(job.fields, bytes, to);
    let passed = job.chars.min(rest.len() as u64) as usize;
    &rest[passed..]
}
