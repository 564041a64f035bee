//! Texts whose lines can be checked by their lengths alone. Used by most test crates.

use std::alloc::{AllocError, Global};

/// The byte in a column of every line. It is neither a newline nor 0.
pub fn byte_at(column: usize) -> u8 {
    b'a' + (column % 23) as u8
}

/// Lines of these lengths. Each ends with the byte `terminator`, except the last if `terminated` is false.
pub fn text_of(
    alloc: Global,
    lengths: &[usize],
    terminator: u8,
    terminated: bool,
) -> Result<Vec<u8>, AllocError> {
    let mut text = Vec::new(alloc);
    for length in lengths {
        for column in 0..*length {
            text.push(byte_at(column))?;
        }
        text.push(terminator)?;
    }
    if !terminated {
        text.pop();
    }
    Ok(text)
}

/// Like `text_of`, but with the byte `other` instead of every `a`, such as the first byte of each line.
pub fn text_with(
    alloc: Global,
    lengths: &[usize],
    terminator: u8,
    terminated: bool,
    other: u8,
) -> Result<Vec<u8>, AllocError> {
    let mut text = text_of(alloc, lengths, terminator, terminated)?;
    for byte in text.iter_mut() {
        if *byte == b'a' {
            *byte = other;
        }
    }
    Ok(text)
}

/// The lengths of the lines of such a text: an empty last line without a terminator is none.
pub fn line_lengths(lengths: &[usize], terminated: bool) -> &[usize] {
    match lengths.split_last() {
        Some((0, front)) if !terminated => front,
        _ => lengths,
    }
}

/// Whether this is a line of such a text with the given length.
pub fn is_line(line: &[u8], length: usize) -> bool {
    line.len() == length
        && line
            .iter()
            .enumerate()
            .all(|(column, byte)| *byte == byte_at(column))
}
