//! Inputs of `join` with one blank more than needed, which the output does not have. Used by the test in `join`.

use crate::join::{DEFAULT, PIECES};
use crate::two_inputs::{ANY, Case, Example, Expected, OK, check_example};
use std::alloc::{AllocError, Global};
use std::process::Abort;

// A line of `count` words with one space between them, and the extra byte `blank` after word `word_index`.
fn words(alloc: Global, count: usize, word_index: usize, blank: u8) -> Result<Vec<u8>, AllocError> {
    let mut line = Vec::new(alloc);
    for at in 0..count {
        line.extend_from_slice(if at > 0 { b" k" } else { b"k" })?;
        if at == word_index {
            line.push(blank)?;
        }
    }
    line.push(b'\n')?;
    Ok(line)
}

// Joins a line with an extra blank, as the first and as the second input, and expects single spaces.
fn check_single_spaces(rt: &impl Abort, alloc: Global, more: &[u8], single_spaced: &[u8]) {
    for (first, second) in [(more, b"k".as_slice()), (b"k", more)] {
        let example = Example {
            name: "a blank more",
            job: DEFAULT,
            case: Case {
                first,
                second,
                ..PIECES
            },
            expected: Expected {
                result: OK,
                bytes: Some(single_spaced),
                ..ANY
            },
        };
        for size in PIECES.sizes {
            check_example(rt, alloc, &example, *size);
        }
    }
}

/// Checks a line of `count` words with an extra blank after word `word_index`.
pub fn check_extra_blank(rt: &impl Abort, alloc: Global, count: usize, word_index: usize) {
    let blank = if word_index < 4 { b'\t' } else { b' ' };
    let single_spaced = words(alloc, count, count, b' ').expect(rt, "a line");
    let more = words(alloc, count, word_index, blank).expect(rt, "a line");
    check_single_spaces(rt, alloc, &more, &single_spaced);
}
