//! Rows of `paste` from the buffers of the readers: each line that is complete there is copied to a buffer for
//! output, without the store, and after it the byte that follows its column. A row is copied column by column, or by
//! its segments; rows of two columns have a loop of their own, and so have rows of which one column is left. A row that
//! is only begun is moved to the front, and lines from slots are added to it. Used by `paste`.

ghost use Rattle.std.specs.Prelude.{◌≡◌, ◌<◌, ◌≤◌, ◌+◌, ◌%◌, ◌++◌, false, length, take, drop, List, IfNone};
ghost use Rattle.std.specs.Prelude.{IfSome, ◌≢◌, slice_index_or};
ghost use Rattle.memchr.specs.Find.{IsFirst, Passes, is_byte};
ghost use Rattle.ptlines.specs.Readers.{Reader, reader_at};
ghost use Rattle.ptlines.specs.Calls.Readers.{IsSound};
ghost use Rattle.ptflow.specs.Private.Paste.RowCells.{after_cell, begun_after, begun_in, shape_of};
ghost use Rattle.ptflow.specs.Private.Paste.BufferedRows.{BufferedRowsPre, CopyCellPost, CopyColumnsPost, CopyRowsPost};
ghost use Rattle.ptflow.specs.Private.Paste.BufferedRows.{AreConsumed, IsLineCopied, LineCopied, RowsTaken, after_both};
ghost use Rattle.ptflow.specs.Private.Paste.Segments.{AreRowsCopied, AreSegments, IsRow};
ghost use Rattle.ptlines.specs.declared.sizes.TheConstants.{BLOCK, PADDED};

use crate::tools::paste::row::{BegunRow, CopiedRows, RowFormat, copy_option, next_index};
use crate::tools::paste::segments::{Segment, has_ended_column, segments};
use ptlines::{
    BLOCK, LineReader, PaddedBlock, Source, copy_short, find_byte, find_in_chunk, mask_at,
};
use std::simd::prelude::*;

// Copies the 16 bytes from `from` on to `at`.
#[inline(always)]
fn copy_vector(bytes: &[u8], from: usize, into: &mut PaddedBlock, at: usize)
    requires within { from + 16 ≤ length bytes.now }
    requires room { at + 16 ≤ PADDED }
    ensures { take (at + 16) into.new ≡ take at into.old ++ take 16 (drop from bytes.now) }
{
    let into: &mut [u8] = into;
    u8x16::from_slice(&bytes[from..]).copy_to_slice(&mut into[at..]);
}

// Copies the first `count` bytes to `at`, as vectors of 16 bytes. 16 more bytes follow them.
#[inline(always)]
fn copy_vectors(bytes: &[u8], count: usize, into: &mut PaddedBlock, at: usize)
    requires within { count + 16 ≤ length bytes.now }
    requires room { at + count ≤ BLOCK }
    ensures { take (at + count) into.new ≡ take at into.old ++ take count bytes.now }
{
    copy_vector(bytes, 0, into, at);
    let mut copied = 16;
    'vectors: while copied < count {
        copy_vector(bytes, copied, into, at + copied);
        copied += 16;
    }
}

// Copies the 16 bytes from `from` on to `at`. Returns the index of the first terminator among them.
#[inline(always)]
fn copy_16(
    terminator: u8,
    bytes: &[u8],
    from: usize,
    into: &mut PaddedBlock,
    at: usize,
) -> Option<usize>
    requires within { from + 16 ≤ length bytes.now }
    requires room { at + 16 ≤ BLOCK }
    ensures found { IsFirst (Passes (is_byte terminator) bytes.now) from (from + 16) result }
    ensures copied { take (at + 16) into.new ≡ take at into.old ++ take 16 (drop from bytes.now) }
{
    copy_vector(bytes, from, into, at);
    find_in_chunk::<16, u8>(terminator, bytes, from)
}

// Copies the line at the start of `bytes` to `at`, as vectors of 16 bytes, each of which is searched for the
// terminator. Returns its length; `None` if it does not end in a vector that is within `bytes` and the block, or if
// fewer than 32 bytes are left in one of these. The first vector, in which most lines end, is apart from the loop
// (`paste` of 2 files). A second one is within both, so the loop begins without a comparison.
#[inline(always)]
fn copy_by_16(terminator: u8, bytes: &[u8], into: &mut PaddedBlock, at: usize) -> Option<usize>
    ensures line { IfSome result (IsLineCopied terminator bytes.now at into.old into.new) }
    ensures none { IfNone result (take at into.new ≡ take at into.old) }
{
    if bytes.len() < 32 || at > BLOCK - 32 {
        return None;
    }
    if let Some(count) = copy_16(terminator, bytes, 0, into, at) {
        return Some(count);
    }
    let last = bytes.len().min(BLOCK - at) - 16;
    let mut size = 16;
    'vectors: while size <= last {
        if let Some(count) = copy_16(terminator, bytes, size, into, at + size) {
            return Some(count);
        }
        size += 16;
    }
    None
}

// Copies the line at the start of `bytes` like `copy_by_16`, near the end of these or of the block. Returns its length;
// `None` if it is not complete or does not fit. Out of line, since few lines are there.
#[inline(never)]
fn copy_near_end(terminator: u8, bytes: &[u8], into: &mut PaddedBlock, at: usize) -> Option<usize>
    ensures line { IfSome result (IsLineCopied terminator bytes.now at into.old into.new) }
    ensures none { IfNone result (take at into.new ≡ take at into.old) }
{
    let count = find_byte(terminator, bytes)?;
    if at.saturating_add(count) >= BLOCK {
        return None;
    }
    copy_short(bytes, 0, count, into, at);
    Some(count)
}

// Copies the line at the start of `bytes` to `at`. Returns its length; `None` if it is not complete or does not fit.
#[inline(always)]
fn copy_line(terminator: u8, bytes: &[u8], into: &mut PaddedBlock, at: usize) -> Option<usize>
    ensures line { IfSome result (IsLineCopied terminator bytes.now at into.old into.new) }
    ensures none { IfNone result (take at into.new ≡ take at into.old) }
{
    if let Some(count) = copy_by_16(terminator, bytes, into, at) {
        return Some(count);
    }
    copy_near_end(terminator, bytes, into, at)
}

// Copies the next line of a reader to `at` and consumes it; `None` if it is not complete in the buffer or does not fit.
// For lines near the end of the buffer or the block. Out of line, so that the loop over columns is short (`paste` of 8
// files).
#[inline(never)]
fn copy_cell_near_end<S: Source, R: Source>(
    terminator: u8,
    reader: &mut LineReader<S, R>,
    into: &mut PaddedBlock,
    at: usize,
) -> Option<usize>
    ensures line { IfSome result
        (λ end. LineCopied terminator reader.old reader.new (take at into.old) (take end into.new)) }
    ensures size_bound { IfSome result (λ end. (at ≤ end) × (end < BLOCK)) }
    ensures none { IfNone result ((reader.new ≡ reader.old) × (take at into.new ≡ take at into.old)) }
    ensures was_sound { IsSound reader.old }
{
    let count = copy_near_end(terminator, reader.buffered(), into, at)?;
    reader.consume(count + 1);
    Some(at + count)
}

// A field that was copied: the offset after it, and whether it is a line.
#[derive(Clone, Copy)]
struct CopiedField {
    end: usize,
    is_line: bool,
}

// Copies the next line of a reader to `at` and consumes it. A reader that is at the end of its input gives an empty
// field. Returns `None` if the line is not complete in the buffer or does not fit, and then nothing is consumed.
#[inline(always)]
fn copy_cell<S: Source, R: Source>(
    terminator: u8,
    reader: &mut LineReader<S, R>,
    into: &mut PaddedBlock,
    at: usize,
) -> Option<CopiedField>
    ensures cell { IfSome result (CopyCellPost terminator reader.old reader.new (take at into.old) into.new) }
    ensures size_bound { IfSome result (λ field. (at ≤ field.end) × (field.end < BLOCK)) }
    ensures none { IfNone result ((reader.new ≡ reader.old) × (take at into.new ≡ take at into.old)) }
    ensures was_sound { IsSound reader.old }
{
    let end = if let Some(count) = copy_by_16(terminator, reader.buffered(), into, at) {
        reader.consume(count + 1);
        at + count
    } else if reader.buffered().is_empty() && reader.at_eof() && at < BLOCK {
        return Some(CopiedField {
            end: at,
            is_line: false,
        });
    } else {
        copy_cell_near_end(terminator, reader, into, at)?
    };
    Some(CopiedField { end, is_line: true })
}

// Copies the next columns of a begun row, each with the byte after it, up to the end of the row or to the first column
// whose line is not complete in the buffer or does not fit.
#[inline(always)]
pub(crate) fn copy_columns<S: Source, R: Source>(
    row: RowFormat,
    readers: &mut [LineReader<S, R>],
    into: &mut PaddedBlock,
    mut begun: BegunRow,
) -> BegunRow
    requires readable { BufferedRowsPre (shape_of row) readers.old }
    requires within { begun.count ≤ length row.cells.now }
    ensures cells { CopyColumnsPost (shape_of row.entry) (begun_in readers.old begun into.old)
        (begun_in readers.new result into.new) }
    ensures within { (result.count ≤ length row.entry.cells.now) × (begun.end ≤ result.end) }
{
    let mut index = begun.count % row.delims.len();
    'cells: while begun.count < row.cells.len() {
        let reader = &mut readers[row.cells[begun.count]];
        let Some(field) = copy_cell(row.terminator, reader, into, begun.end) else {
            return begun;
        };
        begun.count += 1;
        begun.any_line |= field.is_line;
        if begun.count == row.cells.len() {
            into[field.end] = row.terminator;
            begun.end = field.end + 1;
            return begun;
        }
        begun.end = copy_option(row.delims[index], into, field.end);
        index = next_index(index, row.delims.len());
    }
    begun
}

// Copies the segments of a row, after what was copied of it, up to the first one whose line is not complete in the
// buffer or does not fit.
#[inline(always)]
fn copy_segments<S: Source, R: Source>(
    row: RowFormat,
    segments: &[Segment],
    readers: &mut [LineReader<S, R>],
    into: &mut PaddedBlock,
    mut begun: BegunRow,
) -> BegunRow
    requires readable { BufferedRowsPre (shape_of row) readers.old }
    requires segments { AreSegments (shape_of row) readers.old begun.count segments.now }
    requires within { begun.count ≤ length row.cells.now }
    ensures cells { CopyColumnsPost (shape_of row.entry) (begun_in readers.old begun into.old)
        (begun_in readers.new result into.new) }
    ensures within { (result.count ≤ length row.entry.cells.now) × (begun.end ≤ result.end) }
{
    let mut rest = segments;
    'segments: while let [segment, tail @ ..] = rest {
        let reader = &mut readers[segment.input];
        let Some(field) = copy_cell(row.terminator, reader, into, begun.end) else {
            return begun;
        };
        begun = BegunRow {
            count: begun.count + segment.count,
            end: segment.copy_bytes(into, field.end),
            any_line: begun.any_line | field.is_line,
        };
        rest = tail;
    }
    begun
}

// The lines before `start` in a buffer were copied: their rows are the bytes before `end`.
#[derive(Clone, Copy)]
struct CopiedLines {
    start: usize,
    end: usize,
}

// Copies the lines that end among the 64 buffered bytes from `from` on, each with the bytes of a segment that is a row.
// 16 more bytes are buffered after these 64. `None` if 64 rows may not fit; then nothing is copied.
#[inline(always)]
fn copy_chunk<S: Source, R: Source>(
    row: RowFormat,
    segment: &Segment,
    readers: &[LineReader<S, R>],
    from: usize,
    into: &mut PaddedBlock,
    mut copied: CopiedLines,
) -> Option<CopiedLines>
    requires readable { BufferedRowsPre (shape_of row) readers.now }
    requires segment { IsRow (shape_of row) readers.now segment.now }
    requires within { from + 80 ≤ length (reader_at readers.now segment.now.input).buffered }
    requires copied { AreRowsCopied (shape_of row) readers.now segment.now.input from copied into.old }
    ensures copied { IfSome result
        (λ next. AreRowsCopied (shape_of row.entry) readers.now segment.now.input (from + 64) next into.new) }
    ensures none { IfNone result (into.new ≡ into.old) }
{
    let bytes = readers[segment.input].buffered();
    let mut ends = mask_at::<64, u8>(row.terminator, bytes, from);
    if copied.end + (from + 64 - copied.start) + 64 * segment.len > BLOCK {
        return None;
    }
    'lines: while ends != 0 {
        let line_end = from + ends.trailing_zeros() as usize;
        let size = line_end - copied.start;
        copy_vectors(&bytes[copied.start..], size, into, copied.end);
        copied.end = segment.copy_bytes(into, copied.end + size);
        copied.start = line_end + 1;
        ends &= ends - 1;
    }
    Some(copied)
}

// Copies the first rows if the first segment is a row, since the inputs of all other columns have ended: each is a line
// and the bytes of the segment. It stops near the end of the buffer or of the block. Returns the offset after them.
#[inline(always)]
fn copy_rows_of_one<S: Source, R: Source>(
    row: RowFormat,
    segments: &[Segment],
    readers: &mut [LineReader<S, R>],
    into: &mut PaddedBlock,
) -> usize
    requires readable { BufferedRowsPre (shape_of row) readers.old }
    requires segments { AreSegments (shape_of row) readers.old 0 segments.now }
    ensures rows { RowsTaken (shape_of row.entry) readers.old readers.new (take result into.new) }
    ensures consumed { AreConsumed readers.old readers.new }
    ensures size_bound { result ≤ BLOCK }
{
    let segment = match segments {
        [segment, ..] if segment.count == row.cells.len() => segment,
        _ => return 0,
    };
    let size = readers[segment.input].buffered().len();
    let mut copied = CopiedLines { start: 0, end: 0 };
    let mut from = 0;
    'chunks: while size - from >= 80 {
        let Some(next) = copy_chunk(row, segment, readers, from, into, copied) else {
            break;
        };
        copied = next;
        from += 64;
    }
    readers[segment.input].consume(copied.start);
    copied.end
}

// Consumes the first bytes of two readers.
fn consume_both<S: Source, R: Source>(
    readers: &mut [LineReader<S, R>],
    first: usize,
    first_count: usize,
    second: usize,
    second_count: usize,
)
    requires apart { first ≢ second }
    requires within { (first < length readers.old) × (second < length readers.old) }
    requires first_count { first_count ≤ length (reader_at readers.old first).buffered }
    requires second_count { second_count ≤ length (reader_at readers.old second).buffered }
    ensures { readers.new ≡ after_both readers.old first first_count second second_count }
{
    readers[first].consume(first_count);
    readers[second].consume(second_count);
}

// Copies rows like `copy_rows`, of two columns with inputs of their own. These are consumed at the end, and the
// positions in their buffers are in registers until then (`paste` of 2 files); so that they are, it is out of line.
#[inline(never)]
fn copy_rows_of_two<S: Source, R: Source>(
    row: RowFormat,
    readers: &mut [LineReader<S, R>],
    into: &mut PaddedBlock,
) -> CopiedRows
    requires readable { BufferedRowsPre (shape_of row) readers.old }
    requires two { length row.cells.now ≡ 2 }
    requires apart { slice_index_or row.cells.now 0 0 ≢ slice_index_or row.cells.now 1 0 }
    ensures rows { CopyRowsPost (shape_of row.entry) readers.old (take result.end into.new)
        (begun_after readers.new result into.new) }
    ensures within { result.begun.count ≤ length row.entry.cells.now }
{
    let first = row.cells[0];
    let second = row.cells[1];
    let first_bytes = readers[first].buffered();
    let second_bytes = readers[second].buffered();
    let delim = row.byte_after(0);
    let mut first_count = 0;
    let mut second_count = 0;
    let mut end = 0;
    'rows: loop {
        let Some(first_size) = copy_line(row.terminator, &first_bytes[first_count..], into, end)
        else {
            consume_both(readers, first, first_count, second, second_count);
            let begun = BegunRow {
                count: 0,
                end,
                any_line: false,
            };
            return CopiedRows { end, begun };
        };
        first_count += first_size + 1;
        let middle = copy_option(delim, into, end + first_size);
        let Some(second_size) = copy_line(
            row.terminator,
            &second_bytes[second_count..],
            into,
            middle,
        ) else {
            consume_both(readers, first, first_count, second, second_count);
            let begun = BegunRow {
                count: 1,
                end: middle,
                any_line: true,
            };
            return CopiedRows { end, begun };
        };
        second_count += second_size + 1;
        into[middle + second_size] = row.terminator;
        end = middle + second_size + 1;
    }
}

// Copies rows like `copy_rows`, each by these segments first. Inlined, so that over no segments nothing is left of the
// loop over them (`docs/DECISIONS.md`).
#[inline(always)]
fn copy_rows_by<S: Source, R: Source>(
    row: RowFormat,
    segments: &[Segment],
    readers: &mut [LineReader<S, R>],
    into: &mut PaddedBlock,
) -> CopiedRows
    requires readable { BufferedRowsPre (shape_of row) readers.old }
    requires segments { AreSegments (shape_of row) readers.old 0 segments.now }
    ensures rows { CopyRowsPost (shape_of row.entry) readers.old (take result.end into.new)
        (begun_after readers.new result into.new) }
    ensures within { result.begun.count ≤ length row.entry.cells.now }
{
    let mut end = copy_rows_of_one(row, segments, readers, into);
    'rows: loop {
        let start = BegunRow {
            count: 0,
            end,
            any_line: false,
        };
        let first = copy_segments(row, segments, readers, into, start);
        let begun = copy_columns(row, readers, into, first);
        if begun.count < row.cells.len() || !begun.any_line {
            return CopiedRows { end, begun };
        }
        end = begun.end;
    }
}

// Copies rows while all of their lines are complete in the buffers and fit, and the first columns of the next row. If
// all readers had ended before, the begun row has all columns and no line. (Segments are made only if an input has
// ended, since rows of live columns are copied faster without them.) `after_long` says that the row before did not fit;
// then nothing is copied, since the lines of the next one seldom end in the buffers.
pub(crate) fn copy_rows<S: Source, R: Source>(
    row: RowFormat,
    readers: &mut [LineReader<S, R>],
    into: &mut PaddedBlock,
    after_long: bool,
) -> CopiedRows
    requires { BufferedRowsPre (shape_of row) readers.old }
    ensures rows { CopyRowsPost (shape_of row.entry) readers.old (take result.end into.new)
        (begun_after readers.new result into.new) }
    ensures within { result.begun.count ≤ length row.entry.cells.now }
{
    if after_long {
        let begun = BegunRow {
            count: 0,
            end: 0,
            any_line: false,
        };
        return CopiedRows { end: 0, begun };
    }
    if has_ended_column(row, readers) {
        return copy_rows_by(row, &segments(row, readers), readers, into);
    }
    if row.cells.len() == 2 && row.cells[0] != row.cells[1] {
        return copy_rows_of_two(row, readers, into);
    }
    copy_rows_by(row, &[], readers, into)
}

// Moves the begun row to the start of the buffer.
pub(crate) fn move_to_front(copied: CopiedRows, into: &mut PaddedBlock) -> BegunRow
    ensures { (readers : List Reader) → begun_in readers result into.new ≡ begun_after readers copied into.old }
{
    let mut begun = copied.begun;
    into.copy_within(copied.end..begun.end, 0);
    begun.end -= copied.end;
    begun
}

// Copies the line of a column, and the byte after it, to the end of a begun row. Returns `None` if an earlier column
// was not copied, or if the line does not fit; then nothing is copied.
pub(crate) fn copy_slot(
    row: RowFormat,
    column: usize,
    line: &[u8],
    into: &mut PaddedBlock,
    begun: BegunRow,
) -> Option<BegunRow>
    requires { column < length row.cells.now }
    ensures copied { IfSome result (λ next. take next.end into.new
        ≡ take begun.end into.old ++ (line.now ++ after_cell (shape_of row.entry) column)) }
    ensures same { IfSome result
        (λ next. (begun.count ≡ column) × (next.count ≡ column + 1) × (next.any_line ≡ begun.any_line)) }
    ensures none { IfNone result (into.new ≡ into.old) }
{
    if begun.count != column || begun.end.saturating_add(line.len()) >= BLOCK {
        return None;
    }
    copy_short(line, 0, line.len(), into, begun.end);
    let mut next = begun;
    next.end = copy_option(row.byte_after(column), into, begun.end + line.len());
    next.count += 1;
    Some(next)
}
