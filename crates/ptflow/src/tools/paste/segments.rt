//! Segments of a row of `paste`: a column, and the columns after it whose inputs have ended, which have only the bytes
//! after them. Each segment is copied at once. Used by `copy_rows`.

ghost use Rattle.std.specs.Prelude.{◌≡◌, ◌<◌, ◌≤◌, ◌+◌, ◌++◌, length, take, true};
ghost use Rattle.ptlines.specs.Readers.{Reader};
ghost use Rattle.ptflow.specs.Private.Paste.BufferedRows.{BufferedRowsPre};
ghost use Rattle.ptflow.specs.Private.Paste.RowCells.{shape_of};
ghost use Rattle.ptflow.specs.Private.Paste.Segments.{AreSegments, IsEnded, IsSegment};

use crate::tools::paste::row::{RowFormat, copy_option};
use arrayvec::ArrayVec;
use ptlines::{BLOCK, LineReader, PaddedBlock, Source};
use std::simd::prelude::*;

// The columns of a segment: how many there are, the index of the reader of the first one, and the `len` bytes after all
// of their fields.
#[derive(Clone, Copy, Default)]
pub(crate) struct Segment {
    pub input: usize,
    pub count: usize,
    pub len: usize,
    pub bytes: [u8; 16],
}

impl Segment {
    // Copies the bytes after the fields to `at`. Returns the offset after them.
    #[inline(always)]
    pub(crate) fn copy_bytes(&self, into: &mut PaddedBlock, at: usize) -> usize
        requires few { self.now.len ≤ 16 }
        requires room { at < BLOCK }
        ensures copied { take result into.new ≡ take at into.old ++ take self.now.len self.now.bytes }
        ensures end { result ≡ at + self.now.len }
    {
        let into: &mut [u8] = into;
        u8x16::from_array(self.bytes).copy_to_slice(&mut into[at..]);
        at + self.len
    }
}

// Checks whether a reader is at the end of its input, and has given all of it.
#[inline(always)]
fn has_ended<S: Source, R: Source>(reader: &LineReader<S, R>) -> bool
    ensures { result ≡ true → IsEnded reader.now }
{
    reader.at_eof() && reader.buffered().is_empty()
}

// Checks whether the input of one of the first 64 columns has ended. (In a row of hundreds, looking at all of them would
// take longer than copying a few of them at once saves.)
pub(crate) fn has_ended_column<S: Source, R: Source>(
    row: RowFormat,
    readers: &[LineReader<S, R>],
) -> bool
    requires { BufferedRowsPre (shape_of row) readers.now }
{
    for input in &row.cells[..row.cells.len().min(64)] {
        if has_ended(&readers[*input]) {
            return true;
        }
    }
    false
}

// The segment that begins with a column.
fn segment_at<S: Source, R: Source>(
    row: RowFormat,
    readers: &[LineReader<S, R>],
    column: usize,
) -> Segment
    requires readable { BufferedRowsPre (shape_of row) readers.now }
    requires low { column < length row.cells.now }
    ensures { IsSegment (shape_of row.entry) readers.now column result }
{
    let mut bytes = [0; 16];
    let mut len = copy_option(row.byte_after(column), &mut bytes, 0);
    let mut next = column + 1;
    'columns: while next < row.cells.len() && len < 16 && has_ended(&readers[row.cells[next]]) {
        len = copy_option(row.byte_after(next), &mut bytes, len);
        next += 1;
    }
    Segment {
        input: row.cells[column],
        count: next - column,
        len,
        bytes,
    }
}

// The segments of a row, or of its first columns if there are many.
pub(crate) fn segments<S: Source, R: Source>(
    row: RowFormat,
    readers: &[LineReader<S, R>],
) -> ArrayVec<Segment, 64>
    requires { BufferedRowsPre (shape_of row) readers.now }
    ensures { AreSegments (shape_of row.entry) readers.now 0 result.items }
{
    let mut segments = ArrayVec::new();
    let mut column = 0;
    'segments: while column < row.cells.len() && !segments.is_full() {
        let segment = segment_at(row, readers, column);
        column += segment.count;
        segments.push(segment);
    }
    segments
}
