//! `paste`: the engine that merges corresponding lines of several inputs, row by row. Rows that are complete in the
//! buffers of the readers are copied by `buffered_rows`, or by `shared_input` if there is one input. The functions
//! here finish a row with the store: they read lines into slots, and write the row.
//!
//! The module `serial` has the engine of `paste -s`, which `ptrun` runs over one input after the other.

ghost use Rattle.std.specs.Prelude.{◌≡◌, ◌<◌, ◌≤◌, length, take, false, None, [], ◌++◌, All};
ghost use Rattle.ptlines.specs.Calls.Outputs.{PushPost, PushEffect};
ghost use Rattle.ptlines.specs.Calls.Slots.{line};
ghost use Rattle.ptlangs.specs.Jobs.{paste_job, terminator};
ghost use Rattle.ptflow.specs.Calls.PasteCall.{PastePre, PastePost};
ghost use Rattle.ptflow.specs.Private.Paste.BufferedRows.{BufferedRowsPre};
ghost use Rattle.ptflow.specs.Private.Paste.FillRow.{SetTerminatorsPost, FillCellPost, FillRowPost, ClearSlotsPost};
ghost use Rattle.ptflow.specs.Private.Paste.FillRow.{is_write_fault};
ghost use Rattle.ptflow.specs.Private.Paste.RowCells.{after_cell, begun_in, job_shape, shape_of, slots_text};

mod buffered_rows;
mod row;
mod segments;
pub(crate) mod serial;
mod shared_input;

use crate::faults::FlowFault;
use crate::slots::ensure_slots;
use crate::tools::paste::buffered_rows::{copy_columns, copy_rows, copy_slot, move_to_front};
use crate::tools::paste::row::{BegunRow, RowFormat};
use crate::tools::paste::shared_input::{shared_cycle, write_shared_rows};
use ptlangs::jobs::PasteJob;
use ptlines::{LineFault, LineReader, Out, PADDED, PaddedBlock, Sink, Source, Store, WriteFault};
use std::alloc::Allocator;

// The rows of a job, whose columns read the inputs with these indices.
fn row_format<'a, B: Allocator>(job: &'a PasteJob<B>, cells: &'a [usize]) -> RowFormat<'a>
    ensures { shape_of result ≡ job_shape (paste_job job.now) cells.now }
{
    RowFormat {
        delims: job.delims.as_slice(),
        terminator: if job.zero { 0 } else { b'\n' },
        cells,
    }
}

// Sets the line terminator of each reader that a column uses: newline, or byte 0 if `zero`.
fn set_terminators<S: Source, R: Source>(
    cells: &[usize],
    zero: bool,
    readers: &mut [LineReader<S, R>],
)
    requires { All (λ input. input < length readers.old) cells.now }
    ensures { SetTerminatorsPost (terminator zero) cells.now readers.old readers.new }
{
    for input in cells {
        readers[*input].set_ending(zero);
    }
}

// Reads the next line of a reader into the slot of a column, or clears the slot if the reader is at the end of its
// input. Returns whether there was a line. Before a read that may block, the buffered output is written out.
fn fill_cell<A: Allocator + Copy, S: Source, R: Source, W: Sink>(
    input: usize,
    column: usize,
    reader: &mut LineReader<S, R>,
    store: &mut Store<A>,
    out: &mut Out<W>,
) -> Result<bool, FlowFault>
    requires readable { reader.old.fault ≡ None }
    requires slot { column < length store.old.lines }
    requires clean { out.old.write_failed ≡ false }
    ensures fills { FillCellPost input column reader.old reader.new store.old store.new result }
    ensures slots { length store.new.lines ≡ length store.old.lines }
    ensures wrote { PushEffect out.old out.new [] }
    ensures write_failed { out.new.write_failed ≡ is_write_fault result }
{
    reader.write_out_before_blocking(out)?;
    match reader.fill(store, column) {
        Ok(has_line) => Ok(has_line),
        Err(LineFault::Read) => Err(FlowFault::Read(input)),
        Err(LineFault::Memory) => Err(FlowFault::Memory),
    }
}

// Finishes a begun row. A line that is not complete in the buffer of its reader is read into the slot of its column,
// and copied from there. Once a line does not fit, it and those of all further columns stay in their slots.
fn fill_row<A: Allocator + Copy, S: Source, R: Source, W: Sink>(
    row: RowFormat,
    mut begun: BegunRow,
    readers: &mut [LineReader<S, R>],
    into: &mut PaddedBlock,
    store: &mut Store<A>,
    out: &mut Out<W>,
) -> Result<BegunRow, FlowFault>
    requires readable { BufferedRowsPre (shape_of row) readers.old }
    requires within { begun.count ≤ length row.cells.now }
    requires slots { length row.cells.now ≤ length store.old.lines }
    requires clean { out.old.write_failed ≡ false }
    ensures fills { FillRowPost (shape_of row.entry) (begun_in readers.old begun into.old) store.old readers.new
        store.new into.new result }
    ensures wrote { PushEffect out.old out.new [] }
    ensures write_failed { out.new.write_failed ≡ is_write_fault result }
{
    let mut column = begun.count;
    'cells: while column < row.cells.len() {
        let input = row.cells[column];
        let has_line = fill_cell(input, column, &mut readers[input], store, out)?;
        begun.any_line |= has_line;
        match copy_slot(row, column, store.line(column), into, begun) {
            Some(next) => {
                begun = copy_columns(row, readers, into, next);
                column = begun.count;
            }
            None => column += 1,
        }
    }
    Ok(begun)
}

// Writes the line in the slot of a column, and the byte after it.
fn write_slot<A: Allocator + Copy, W: Sink>(
    row: RowFormat,
    column: usize,
    store: &Store<A>,
    out: &mut Out<W>,
) -> Result<(), WriteFault>
    requires low { column < length row.cells.now }
    requires slots { length row.cells.now ≤ length store.now.lines }
    ensures { PushPost out.old out.new
        (line store.now column ++ after_cell (shape_of row.entry) column) result }
{
    let line = store.line(column);
    match row.byte_after(column) {
        Some(byte) => out.push_line(b"", line, &[byte]),
        None => out.push_line(b"", line, b""),
    }
}

// Writes a row, of which the first columns were copied, and the lines of the others are in their slots.
fn write_row<A: Allocator + Copy, W: Sink>(
    row: RowFormat,
    begun: BegunRow,
    into: &PaddedBlock,
    store: &Store<A>,
    out: &mut Out<W>,
) -> Result<(), WriteFault>
    requires within { begun.count ≤ length row.cells.now }
    requires slots { length row.cells.now ≤ length store.now.lines }
    requires clean { out.old.write_failed ≡ false }
    ensures { PushPost out.old out.new
        (take begun.end into.now ++ slots_text (shape_of row.entry) begun.count store.now) result }
{
    out.push(&into[..begun.end])?;
    for column in begun.count..row.cells.len() {
        write_slot(row, column, store, out)?;
    }
    Ok(())
}

// Clears the slots of all columns.
fn clear_slots<A: Allocator + Copy>(cells: &[usize], store: &mut Store<A>)
    requires { length cells.now ≤ length store.old.lines }
    ensures { ClearSlotsPost cells.now store.old store.new }
{
    for column in 0..cells.len() {
        store.clear(column);
    }
}

/// Merges corresponding lines of several inputs (POSIX.1-2017, XCU, `paste`, without option `-s`): row r has the next
/// line of each column, with the delimiters of the list between the columns.
///
/// Column c reads from `readers[cells[c]]`; columns that name the same reader take its lines in order. A reader that is
/// at the end of its input gives empty fields, and there are rows until all readers are. Rows end with newline, or with
/// byte 0 with `-z`, an extension of POSIX.
///
/// Lines that are complete in the buffers of the readers, and fit into the first 8,192 bytes of their row, are copied
/// from there. Any other line is read into a slot of the store, one for each column, and copied from the slot if those
/// bytes have room for it; so is the first line of a row after one that did not fit. Missing slots are added before
/// anything is read. If at most 128 columns all read one input, and no delimiter between them is empty, all complete
/// rows in its buffer are written at once, unless the first one takes more than half of it. Columns whose inputs have
/// ended are copied with the column before them.
///
/// A row is pushed before 16,384 more bytes of any of its inputs are read. Not proved but tested: it is pushed before
/// anything more is read, nothing of it is pushed before all of its lines are known, and the buffered output is
/// written out before a read that may block ([`LineReader::write_out_before_blocking`]). If the output has failed
/// before the call, or `cells` is empty, nothing is read or written.
/// # Errors
/// - `Read` with the index of a reader whose read failed.
/// - `Write` if a write failed.
/// - `Memory` if the store could not grow; it is then marked as denied. If a slot could not be added, nothing was read
///   or written; otherwise the input of some column is not at its end.
pub fn paste<A: Allocator + Copy, B: Allocator + Copy, S: Source, R: Source, W: Sink>(
    job: &PasteJob<B>,
    cells: &[usize],
    readers: &mut [LineReader<S, R>],
    store: &mut Store<A>,
    out: &mut Out<W>,
) -> Result<(), FlowFault>
    requires { PastePre cells.now readers.old store.old }
    ensures { PastePost (paste_job job.now) cells.now readers.old readers.new out.old out.new
        store.old store.new result }
{
    if out.has_failed() {
        return Err(FlowFault::Write);
    }
    set_terminators(cells, job.zero, readers);
    ensure_slots(store, cells.len())?;
    let row = row_format(job, cells);
    let cycle = shared_cycle(row);
    let mut buffer = [0; PADDED];
    let mut after_long = false;
    'rows: loop {
        write_shared_rows(&cycle, row, readers, &mut buffer, out)?;
        let copied = copy_rows(row, readers, &mut buffer, after_long);
        out.push(&buffer[..copied.end])?;
        let begun = move_to_front(copied, &mut buffer);
        let filled = fill_row(row, begun, readers, &mut buffer, store, out)?;
        if !filled.any_line {
            clear_slots(row.cells, store);
            return Ok(());
        }
        write_row(row, filled, &buffer, store, out)?;
        after_long = filled.count < row.cells.len();
    }
}
