//! Tests of `cut` with lines of every length at which vectors, masks and blocks end. The expected output is computed
//! byte by byte from the list.

use crate::one_input::{Case, Job, LONG, NO_FAILURE, SHORT, check_run};
use ptlangs::jobs::CutJob;
use ptlangs::ranges::Ranges;
use std::alloc::{AllocError, Global};
use std::process::Abort;

// A line of `count` bytes: letters, and commas at short and long distances or in runs.
fn line_of(alloc: Global, count: usize, commas: u32) -> Result<Vec<u8>, AllocError> {
    let mut bytes = Vec::new(alloc);
    let mut state = 1u32;
    for _ in 0..count {
        state = state.wrapping_mul(1664525).wrapping_add(1013904223);
        let letter = b'a' + ((state >> 16) % 26) as u8;
        bytes.push(if state >> 24 < commas { b',' } else { letter })?;
    }
    Ok(bytes)
}

// Appends the selected bytes or fields of a line, with a comma between fields. A line without a comma is written as it
// is, or not at all with `only`.
fn add_cut(all: &mut Vec<u8>, job: &CutJob, line: &[u8]) -> Result<(), AllocError> {
    if job.fields && !line.contains(&b',') {
        if !job.only {
            all.extend_from_slice(line)?;
            all.push(b'\n')?;
        }
        return Ok(());
    }
    let mut number = u64::from(job.fields);
    let mut some = job.list.contains(number);
    for byte in line {
        let separates = job.fields && *byte == b',';
        if separates || !job.fields {
            number = number.saturating_add(1);
        }
        let expected = job.list.contains(number);
        if expected && (some || !separates) {
            all.push(*byte)?;
        }
        some |= expected;
    }
    all.push(b'\n')?;
    Ok(())
}

// Appends an empty line, `line` three times, and `line` once more without terminator; and the expected output of these.
fn add_text(
    text: &mut Vec<u8>,
    all: &mut Vec<u8>,
    job: &CutJob,
    line: &[u8],
) -> Result<(), AllocError> {
    text.push(b'\n')?;
    add_cut(all, job, b"")?;
    for _ in 0..3 {
        text.extend_from_slice(line)?;
        text.push(b'\n')?;
        add_cut(all, job, line)?;
    }
    text.extend_from_slice(line)?;
    if !line.is_empty() {
        add_cut(all, job, line)?;
    }
    Ok(())
}

// Cuts lines of `count` bytes, of which `commas` in 256 are commas, read in pieces of `size` bytes.
fn check_line(
    rt: &impl Abort,
    alloc: Global,
    job: &CutJob,
    (count, commas): (usize, u32),
    size: usize,
) {
    let line = line_of(alloc, count, commas).expect(rt, "a line");
    let mut text = Vec::new(alloc);
    let mut all = Vec::new(alloc);
    assert!(rt; add_text(&mut text, &mut all, job, &line).is_ok());
    let case = Case {
        text: &text,
        size,
        ..NO_FAILURE
    };
    check_run(rt, alloc, (Job::Cut(job), &case), Ok(()), &all);
}

// Lengths around those at which a piece of a line ends, and with them the last shuffle.
const PIECES: &[usize] = &[111, 112, 127, 128, 129, 144, 145];

// For each case: whether its lines are longer than a block; the number of commas in 256 bytes (none, few, many, or
// all); the lengths of the lines; the size of the pieces.
const LINES: &[(bool, u32, &[usize], usize)] = &[
    (false, 0, SHORT, usize::MAX),
    (false, 0, SHORT, 40),
    (false, 4, SHORT, usize::MAX),
    (false, 4, SHORT, 40),
    (false, 60, SHORT, usize::MAX),
    (false, 60, SHORT, 40),
    (false, 256, SHORT, usize::MAX),
    (false, 256, SHORT, 40),
    (false, 4, PIECES, usize::MAX),
    (true, 60, LONG, usize::MAX),
];

fn check_lengths(rt: &impl Abort, alloc: Global, job: &CutJob, blocks: bool) {
    for (of_blocks, commas, lengths, size) in LINES {
        if *of_blocks == blocks {
            for count in *lengths {
                check_line(rt, alloc, job, (*count, *commas), *size);
            }
        }
    }
}

// Fields or bytes; whether `only` is set; the list; and whether the lines are longer than a block.
type Cut = (bool, bool, &'static [u8], bool);

const CUTS: &[Cut] = &[
    (false, false, b"1", false),
    (false, false, b"2-4", false),
    (false, false, b"3-,1", false),
    (false, false, b"16", false),
    (false, false, b"17-33", false),
    (
        false,
        false,
        b"1-2,4-5,7-8,10-11,15-16,31-32,34,63-65",
        false,
    ),
    (false, false, b"2,4,16-17,112,127-130,140-", false),
    (true, false, b"1", false),
    (true, true, b"1", false),
    (true, false, b"2", false),
    (true, true, b"2", false),
    (true, false, b"1,3", false),
    (true, true, b"1,3", false),
    (true, false, b"7-", false),
    (true, true, b"7-", false),
    (true, false, b"63", false),
    (true, true, b"63", false),
    (true, false, b"64-65,1", false),
    (true, true, b"64-65,1", false),
    (true, false, b"2-64,66-", false),
    (true, true, b"2-64,66-", false),
    (false, false, b"2-4", true),
    (false, false, b"2,8190-8192", true),
    (true, false, b"1,3", true),
    (true, false, b"64-65,1900-", true),
];

fn check_cut(rt: &impl Abort, alloc: Global, example: &Cut) {
    let (fields, only, list, blocks) = *example;
    let job = CutJob {
        fields,
        list: Ranges::read(alloc, list).expect(rt, "a list"),
        delim: b',',
        only,
        zero: false,
    };
    check_lengths(rt, alloc, &job, blocks);
}

#[test]
fn each_length_is_cut(rt: HostRuntime) {
    for example in CUTS {
        check_cut(&rt, rt.alloc(), example);
    }
}
