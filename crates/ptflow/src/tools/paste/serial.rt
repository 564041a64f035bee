//! `paste -s`: the engine that writes all lines of one input in one row, block by block. `ptrun` runs it over one input
//! after the other.

ghost use Rattle.std.specs.Prelude.{◌≡◌, ◌<◌, ◌≤◌, ◌+◌, ◌++◌, List, length, take, ℕ};
ghost use Rattle.std.specs.Option.{ForSome};
ghost use Rattle.ptlangs.specs.Jobs.{paste_job};
ghost use Rattle.ptflow.specs.Calls.Passes.{PassPre, PassPost};
ghost use Rattle.ptflow.specs.PasteText.{paste_serial_tool};
ghost use Rattle.ptflow.specs.Private.Paste.Replaced.{IsDelimiterCycle};

use crate::block_loop::{BlockFilter, run_blocks};
use crate::faults::FlowFault;
use crate::simd::replace::Cycle;
use crate::start::start_pass;
use crate::tools::paste::row::{copy_option, delimiter_bytes, next_index};
use ptlangs::jobs::PasteJob;
use ptlines::{
    BLOCK, LineReader, Out, PADDED, PaddedBlock, Sink, Source, Store, WriteFault, copy_short,
    find_byte,
};
use std::alloc::Allocator;

// The delimiters of a row, the terminator, and the cycle of the delimiters if there is one.
#[derive(Clone, Copy)]
struct SerialFormat<'a> {
    delims: &'a [Option<u8>],
    terminator: u8,
    cycle: Option<Cycle>,
    ghost some: { 0 < length delims.now },
    ghost is_cycle: { ForSome cycle (IsDelimiterCycle delims.now terminator) },
}

// The cycle of the delimiters, if they are at most 255 and none is empty.
fn delimiter_cycle(delims: &[Option<u8>], terminator: u8) -> Option<Cycle>
    requires { 0 < length delims.now }
    ensures { ForSome result (IsDelimiterCycle delims.now terminator) }
{
    let bytes = delimiter_bytes(delims, delims.len())?;
    Some(Cycle::new(&bytes, terminator))
}

/// A position in a row: the index of the delimiter after the column, and whether the line of the column is complete, so
/// that this delimiter precedes the next byte.
#[derive(Clone, Copy)]
pub(crate) struct ColumnPos {
    pub index: usize,
    pub complete: bool,
}

// A copy of cells: the offset after it, and the index of the delimiter after the last of them.
#[derive(Clone, Copy)]
struct CopiedCells {
    end: usize,
    index: usize,
}

// A copy of a block: its length, and the position of the next block.
#[derive(Clone, Copy)]
struct CopiedBlock {
    size: usize,
    next: ColumnPos,
}

impl<'a> SerialFormat<'a> {
    ghost use Rattle.ptflow.specs.Private.Paste.SerialRest.{CopyCellsPre, CopyCellsPost, serial_rest};

    // Copies bytes to `at`, with each terminator replaced by the delimiter after its column, from the delimiter with
    // this index on.
    fn copy_cells_slow(
        &self,
        mut index: usize,
        bytes: &[u8],
        into: &mut PaddedBlock,
        mut at: usize,
    ) -> CopiedCells
        requires { CopyCellsPre self.now index bytes.now at }
        ensures copied { CopyCellsPost self.now index bytes.now (take at into.old) result.index
            (take result.end into.new) }
        ensures size_bound { result.end ≤ at + length bytes.now }
    {
        let mut rest = bytes;
        'pieces: while let Some(count) = find_byte(self.terminator, rest) {
            copy_short(rest, 0, count, into, at);
            at = copy_option(self.delims[index], into, at + count);
            index = next_index(index, self.delims.len());
            rest = &rest[count + 1..];
        }
        copy_short(rest, 0, rest.len(), into, at);
        CopiedCells {
            end: at + rest.len(),
            index,
        }
    }

    // Like `copy_cells_slow`, but many bytes at a time if the delimiters are a cycle of bytes.
    #[inline(always)]
    fn copy_cells(
        &self,
        index: usize,
        bytes: &[u8],
        into: &mut PaddedBlock,
        at: usize,
    ) -> CopiedCells
        requires { CopyCellsPre self.now index bytes.now at }
        ensures copied { CopyCellsPost self.now index bytes.now (take at into.old) result.index
            (take result.end into.new) }
        ensures size_bound { result.end ≤ at + length bytes.now }
    {
        let Some(cycle) = &self.cycle else {
            return self.copy_cells_slow(index, bytes, into, at);
        };
        let end = at + bytes.len();
        let index = cycle.replace(index, bytes, &mut into[at..end]);
        CopiedCells { end, index }
    }

    // Copies a block that begins at a position. If it ends with a terminator, the delimiter for it is left to the next
    // block, as the line may be the last one.
    fn copy_block(&self, cell: ColumnPos, block: &[u8], into: &mut PaddedBlock) -> CopiedBlock
        requires index { cell.index < length self.now.delims.now }
        requires some { (0 < length block.now) × (length block.now ≤ BLOCK) }
        ensures copied { (more : List ℕ) → serial_rest self.now cell (block.now ++ more)
            ≡ take result.size into.new ++ serial_rest self.now result.next more }
        ensures size_bound { result.size ≤ BLOCK + 8 }
        ensures index { result.next.index < length self.now.delims.now }
    {
        let held = [self.terminator];
        let size = usize::from(cell.complete);
        let front = self.copy_cells(cell.index, &held[..size], into, 0);
        let count = block.len() - 1;
        let most = self.copy_cells(front.index, &block[..count], into, front.end);
        let complete = block[count] == self.terminator;
        into[most.end] = block[count];
        CopiedBlock {
            size: most.end + usize::from(!complete),
            next: ColumnPos {
                index: most.index,
                complete,
            },
        }
    }
}

/// The filter for `run_blocks`: the delimiters and the terminator, the position of the next byte, and a buffer for the
/// output of a block.
#[derive(Drop)]
struct SerialPaste<'a> {
    format: SerialFormat<'a>,
    cell: ColumnPos,
    buffer: PaddedBlock,
    ghost index: { cell.index < length format.delims.now },
}

impl<'a> BlockFilter for SerialPaste<'a> {
    ghost use Rattle.std.specs.Prelude.{◌≡◌};
    ghost use Rattle.ptflow.specs.Private.Paste.SerialRest.{serial_rest};

    ghost rest = { λ t. serial_rest t.format t.cell };

    ghost counted = { λ t. 0 };

    ghost IsUnchanged = { λ s t. t.format ≡ s.format };

    fn process_block<W: Sink>(&mut self, block: &[u8], out: &mut Out<W>) -> Result<(), WriteFault> {
        let copied = self.format.copy_block(self.cell, block, &mut self.buffer);
        out.push_block(&self.buffer[..copied.size])?;
        self.cell = copied.next;
        Ok(())
    }

    // Writes the terminator of the row.
    fn finish<W: Sink>(&self, out: &mut Out<W>) -> Result<(), WriteFault> {
        out.push(&[self.format.terminator])
    }
}

/// Writes all lines of an input in one row, with the delimiters of the list between them (POSIX.1-2017, XCU, `paste`,
/// option `-s`). The row ends with newline, or with byte 0 with `-z`, an extension of POSIX. An input without lines
/// gives an empty row.
///
/// The store is not used. The output that is determined by the input so far is pushed before 16,384 more bytes are
/// read. Not proved but tested: it is pushed before the next read. If the output has failed before the call, nothing
/// is read.
/// # Errors
/// - `Read` with index 0 if a read failed.
/// - `Write` if a write failed.
pub fn paste_serial<A: Allocator + Copy, B: Allocator + Copy, S: Source, R: Source, W: Sink>(
    job: &PasteJob<B>,
    reader: &mut LineReader<S, R>,
    _store: &mut Store<A>,
    out: &mut Out<W>,
) -> Result<(), FlowFault>
    requires { PassPre reader.old _store.old }
    ensures { PassPost (paste_serial_tool (paste_job job.now)) reader.old reader.new out.old out.new
        _store.old _store.new result }
{
    let terminator = start_pass(job.zero, reader, out)?;
    let delims = job.delims.as_slice();
    let mut tool = SerialPaste {
        format: SerialFormat {
            delims,
            terminator,
            cycle: delimiter_cycle(delims, terminator),
        },
        cell: ColumnPos {
            index: 0,
            complete: false,
        },
        buffer: [0; PADDED],
    };
    run_blocks(&mut tool, reader, out)
}
