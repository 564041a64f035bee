//! Rows of `paste` whose columns all read one input, as in `paste - - -`: a block of complete rows is copied, and its
//! terminators are replaced by the delimiters in turn. Used by `paste`.

ghost use Rattle.std.specs.Prelude.{◌≡◌, ◌<◌, ◌≤◌, ◌+◌, ◌-◌, IfSome, OnErr, OnOk, false, true, length, slice_index_or};
ghost use Rattle.std.specs.Prelude.{take};
ghost use Rattle.std.specs.List.{count_by};
ghost use Rattle.memchr.specs.Find.{is_byte};
ghost use Rattle.ptlines.specs.Calls.Readers.{IsSound};
ghost use Rattle.ptflow.specs.Private.Paste.BufferedRows.{BufferedRowsPre, RowsWritten};
ghost use Rattle.ptflow.specs.Private.Paste.RowCells.{shape_of};
ghost use Rattle.ptflow.specs.Private.Paste.Replaced.{cycle_byte, with_replacements};
ghost use Rattle.ptflow.specs.Private.Paste.SharedInput.{IsSharedCycle, IsWholeRows};

use crate::simd::replace::Cycle;
use crate::tools::paste::row::{RowFormat, delimiter_bytes};
use memchr::memrchr;
use ptlines::{LineReader, Out, PaddedBlock, Sink, Source, WriteFault, nth_index};

// The replacements of the terminators of a row: after each column but the last its delimiter, and at the end the
// terminator of the row. `None` unless there are at most 128 columns, all with the same reader, and every delimiter
// between them is one byte. (Few rows of more columns are in a block at a time.)
pub(crate) fn shared_cycle(row: RowFormat) -> Option<Cycle>
    ensures { IfSome result (IsSharedCycle (shape_of row.entry)) }
{
    if row.cells.is_empty() || row.cells.len() > 128 {
        return None;
    }
    for input in row.cells {
        if *input != row.cells[0] {
            return None;
        }
    }
    let mut bytes = delimiter_bytes(row.delims, row.cells.len() - 1)?;
    bytes.push(row.terminator);
    Some(Cycle::new(&bytes, row.terminator))
}

// The offset after the last terminator that is followed by exactly `extra` more terminators; 0 if there is none.
fn rows_end(terminator: u8, bytes: &[u8], extra: usize) -> usize
    requires { extra ≤ count_by (is_byte terminator) bytes.now }
    ensures within { result ≤ length bytes.now }
    ensures counted { count_by (is_byte terminator) (take result bytes.now) + extra
        ≡ count_by (is_byte terminator) bytes.now }
    ensures ends { 0 < result → slice_index_or bytes.now (result - 1) 0 ≡ terminator }
{
    let mut at = bytes.len();
    for _found in 0..extra + 1 {
        match memrchr(terminator, &bytes[..at]) {
            Some(last) => at = last,
            None => return 0,
        }
    }
    at + 1
}

// Copies all complete rows in the reader's buffer, with the delimiters, and returns their length. If no row ends in the
// first half of the buffer, as with long lines, nothing is copied: most of the buffer might be the start of a row.
fn copy_shared_rows<S: Source, R: Source>(
    cycle: &Cycle,
    reader: &LineReader<S, R>,
    into: &mut PaddedBlock,
) -> usize
    ensures within { result ≤ length reader.now.buffered }
    ensures rows { IsWholeRows cycle.now.terminator cycle.now.len (take result reader.now.buffered) }
    ensures copied { take result into.new
        ≡ with_replacements cycle.now.terminator (cycle_byte cycle.now) 0 (take result reader.now.buffered) }
    ensures sound { IsSound reader.now }
{
    let bytes = reader.buffered();
    let count = bytes.len();
    if nth_index(cycle.terminator, bytes, count / 2, cycle.len as u64 - 1).is_none() {
        return 0;
    }
    let extra = cycle.replace(0, bytes, &mut into[..count]);
    rows_end(cycle.terminator, bytes, extra)
}

// Writes all complete rows in the buffer of the reader that all columns share. Without a cycle, since they do not share
// one, it does nothing.
pub(crate) fn write_shared_rows<S: Source, R: Source, W: Sink>(
    cycle: &Option<Cycle>,
    row: RowFormat,
    readers: &mut [LineReader<S, R>],
    into: &mut PaddedBlock,
    out: &mut Out<W>,
) -> Result<(), WriteFault>
    requires is_cycle { IfSome cycle.now (IsSharedCycle (shape_of row)) }
    requires readable { BufferedRowsPre (shape_of row) readers.old }
    requires clean { out.old.write_failed ≡ false }
    ensures rows { RowsWritten (shape_of row.entry) readers.old readers.new out.old out.new }
    ensures clean { OnOk result (out.new.write_failed ≡ false) }
    ensures fault { OnErr result (out.new.write_failed ≡ true) }
{
    let Some(cycle) = cycle else {
        return Ok(());
    };
    let reader = &mut readers[row.cells[0]];
    let count = copy_shared_rows(cycle, reader, into);
    if count == 0 {
        return Ok(());
    }
    reader.consume(count);
    out.push_block(&into[..count])
}
