//! The number of allocations does not depend on the number of lines, nor, for some commands, on their length.

use crate::asserts::assert_same_for;
use crate::comm::COMMON;
use crate::harness::Input::Text;
use crate::harness::{allocations, case_over, expect_no_allocation};
use crate::join::JOIN;
use crate::paste::{PARALLEL, SERIAL};
use ptfakes::texts::text_of;
use std::alloc::{AllocError, Global};
use std::process::Abort;
use std::test::Fail;

// Adds one to a number in decimal digits.
fn add_one(digits: &mut [u8]) {
    for digit in digits.iter_mut().rev() {
        if *digit < b'9' {
            *digit += 1;
            return;
        }
        *digit = b'0';
    }
}

// The first `count` numbers of six digits, one per line.
fn numbers(alloc: Global, count: usize) -> Result<Vec<u8>, AllocError> {
    let mut digits = [b'0'; 6];
    let mut text = Vec::new(alloc);
    for _ in 0..count {
        text.extend_from_slice(&digits)?;
        text.push(b'\n')?;
        add_one(&mut digits);
    }
    Ok(text)
}

// The number of allocations over `files` files with `lines` lines each, some of which cross the boundary of two reads.
fn allocations_over(
    rt: &impl Abort,
    alloc: Global,
    words: &[&str],
    files: usize,
    lines: usize,
) -> Result<u64, Fail> {
    let text = numbers(alloc, lines)?;
    let both = [Text(&text), Text(&text)];
    allocations(
        rt,
        alloc,
        &case_over(&*words, Text(b""), &both[..files.min(2)], 20),
    )
}

// As often over 10 lines as over 100,000, in one file or two.
fn expect_constant_memory(
    rt: &impl Abort,
    alloc: Global,
    words: &[&str],
    files: usize,
) -> Result<(), Fail> {
    let few = allocations_over(rt, alloc, &*words, files, 10)?;
    let many = allocations_over(rt, alloc, &*words, files, 100_000)?;
    assert_same_for(rt, &words, &many, &few);
    Ok(())
}

// The arguments, and the number of files that they name.
const CONSTANT_MEMORY: &[(&[&str], usize)] = &[
    (&["cut", "-f2", "f"], 1),
    (PARALLEL, 2),
    (SERIAL, 2),
    (COMMON, 2),
    (JOIN, 2),
    (&["uniq", "-c", "f"], 1),
];

#[test]
fn allocations_do_not_depend_on_lines(rt: HostRuntime) -> Result<(), Fail> {
    for (words, files) in CONSTANT_MEMORY {
        expect_constant_memory(&rt, rt.alloc(), words, *files)?;
    }
    Ok(())
}

// The arguments, the length of the prefix that they write of a line of a million bytes and its newline, and, if that is
// 0, their output.
const LONG: &[(&[&str], usize, &str)] = &[
    (&["tr", "-ds", "\n", "a-z"], 1_000_000, ""),
    (&["tr", "-cd", "\n"], 0, "\n"),
    // The bytes cycle through 'a' to 'w', and 999,999 is 43,478 times 23 and 5.
    (&["cut", "-b", "1,1000000-"], 0, "af\n"),
    (&["paste", "-s", "-"], 1_000_001, ""),
];

#[test]
fn a_long_line_allocates_nothing(rt: HostRuntime) -> Result<(), Fail> {
    let text = text_of(rt.alloc(), &[1_000_000], b'\n', true)?;
    for (words, kept, out) in LONG {
        let case = case_over(words, Text(&text), &[], usize::MAX);
        let out = match *kept {
            0 => out.as_bytes(),
            _ => &text[..text.len().min(*kept)],
        };
        expect_no_allocation(&rt, rt.alloc(), &case, out)?;
    }
    Ok(())
}
