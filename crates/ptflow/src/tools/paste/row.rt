//! A row of `paste`: the shape that all rows have, and how much of one, or of some rows, is copied. Also functions
//! for delimiters, which `serial` and `shared_input` use, too: copying one that may be empty, the index of the next
//! one, and the list of them as bytes if none is empty.

ghost use Rattle.std.specs.Prelude.{◌≡◌, ◌<◌, ◌≤◌, ◌+◌, ◌%◌, ◌++◌, IfSome, length, option_to_list, take};
ghost use Rattle.ptflow.specs.Private.Paste.Unrolled.{AreDelimiterBytes};
ghost use Rattle.ptlines.specs.declared.sizes.TheConstants.{PADDED};

use arrayvec::ArrayVec;

// The columns of a row: the index of the reader of each, the list of delimiters, and the terminator of lines and rows.
#[derive(Clone, Copy)]
pub(crate) struct RowFormat<'a> {
    pub delims: &'a [Option<u8>],
    pub terminator: u8,
    pub cells: &'a [usize],
    ghost some: { 0 < length delims.now },
}

impl<'a> RowFormat<'a> {
    ghost use Rattle.ptflow.specs.Private.Paste.RowCells.{after_cell, shape_of};

    // The byte after a column: its delimiter, or after the last column the terminator.
    #[inline(always)]
    pub(crate) fn byte_after(self, column: usize) -> Option<u8>
        requires { column < length self.cells.now }
        ensures { option_to_list result ≡ after_cell (shape_of self.entry) column }
    {
        if column + 1 == self.cells.len() {
            return Some(self.terminator);
        }
        // Most lists have one delimiter, and a division is slow.
        let index = if self.delims.len() == 1 {
            0
        } else {
            column % self.delims.len()
        };
        self.delims[index]
    }
}

// A row of which the first `count` columns were copied, up to `end`, and whether any of its columns has a line so far.
#[derive(Clone, Copy)]
pub(crate) struct BegunRow {
    pub count: usize,
    pub end: usize,
    pub any_line: bool,
    ghost size_bound: { end ≤ PADDED },
}

// Rows that were copied up to `end`, and a begun row after them.
#[derive(Clone, Copy)]
pub(crate) struct CopiedRows {
    pub end: usize,
    pub begun: BegunRow,
    ghost order: { end ≤ begun.end },
}

// Copies a byte, if there is one, to `at`. Returns the offset after it.
#[inline(always)]
pub(crate) fn copy_option<const N: usize>(byte: Option<u8>, into: &mut [u8; N], at: usize) -> usize
    requires { at < N }
    ensures copied { take result into.new ≡ take at into.old ++ option_to_list byte }
    ensures size_bound { (at ≤ result) × (result ≤ at + 1) }
{
    let Some(byte) = byte else {
        return at;
    };
    into[at] = byte;
    at + 1
}

// The index of the delimiter after the one at `index`, in a list of `count`.
#[inline(always)]
pub(crate) fn next_index(index: usize, count: usize) -> usize
    requires { index < count }
    ensures { result ≡ (index + 1) % count }
{
    if index + 1 == count {
        return 0;
    }
    index + 1
}

// The delimiters after the first `count` columns, if these are at most 255, and no delimiter is empty.
pub(crate) fn delimiter_bytes(delims: &[Option<u8>], count: usize) -> Option<ArrayVec<u8, 256>>
    requires { 0 < length delims.now }
    ensures { IfSome result (λ bytes. AreDelimiterBytes delims.now count bytes.items) }
{
    if count > 255 {
        return None;
    }
    let mut bytes = ArrayVec::new();
    for column in 0..count {
        bytes.push(delims[column % delims.len()]?);
    }
    Some(bytes)
}
