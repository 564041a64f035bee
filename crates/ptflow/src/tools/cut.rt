//! `cut`: the engine, which selects bytes or fields of each line.
//!
//! `bytes` (`-b`, `-c`) works block by block, and cuts most lines with one byte shuffle for each 16 bytes (`shuffle`).
//! `fields` (`-f`) works line by line.

ghost use Rattle.ptlangs.specs.Jobs.{cut_job};
ghost use Rattle.ptflow.specs.Cuts.{cut_tool};
ghost use Rattle.ptflow.specs.Calls.Passes.{PassPre, PassPost};

mod bytes;
mod fields;
mod shuffle;

use crate::block_loop::run_blocks;
use crate::faults::FlowFault;
use crate::line_loop::run_lines;
use crate::start::start_pass;
use crate::tools::cut::bytes::ByteCut;
use crate::tools::cut::fields::FieldCut;
use ptlangs::jobs::CutJob;
use ptlines::{LineReader, Out, Sink, Source, Store};
use std::alloc::Allocator;

/// Writes the selected parts of each line of a reader, and after each line the terminator (POSIX.1-2017, XCU, `cut`),
/// which is newline, or byte 0 with `-z`. A byte is a character, and `-n` changes nothing. Selected fields are written
/// in the order of the line, with the delimiter between them. A line without the delimiter is written unchanged, or
/// dropped with `-s`. A line with no selected field is written as an empty line. POSIX leaves `-z` and such lines
/// unspecified.
///
/// For bytes nothing is kept, and the store is unchanged. For fields the first slot, which is added if the store has
/// none, holds one line at a time. Output that the input read so far decides is pushed before 16,384 more bytes are
/// read. Tests check, but no clause states, that it is pushed before the next read. If the output has failed before,
/// nothing is read.
/// # Errors
/// `Read` or `Write` if a read or a write failed; `Memory` if the store could not grow, and then the store is denied.
pub fn cut<A: Allocator + Copy, B: Allocator + Copy, S: Source, R: Source, W: Sink>(
    job: &CutJob<B>,
    reader: &mut LineReader<S, R>,
    store: &mut Store<A>,
    out: &mut Out<W>,
) -> Result<(), FlowFault>
    requires { PassPre reader.old store.old }
    ensures { PassPost (cut_tool (cut_job job.now)) reader.old reader.new out.old out.new store.old store.new result }
{
    let terminator = start_pass(job.zero, reader, out)?;
    if job.fields {
        return run_lines(&mut FieldCut::new(job, terminator), 1, reader, store, out);
    }
    run_blocks(&mut ByteCut::new(job, terminator), reader, out)
}
