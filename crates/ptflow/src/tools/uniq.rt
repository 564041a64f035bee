//! `uniq`: the engine, a tool over lines that carries the current run, which may continue with the next line.
//!
//! `line_key` has the part of a line that is compared, and `block_runs` the loop over the runs of the lines of a block.

ghost use Rattle.std.specs.Prelude.{◌≡◌, ◌<◌, ◌≤◌, ◌&&◌, IfSome, length, nat_lt};
ghost use Rattle.ptlines.specs.Slots.{Slots};
ghost use Rattle.ptlangs.specs.Jobs.{uniq_job};
ghost use Rattle.ptflow.specs.Calls.Passes.{PassPre, PassPost};
ghost use Rattle.ptflow.specs.Uniqs.{is_same, uniq_tool};
ghost use Rattle.ptflow.specs.Private.Uniq.BlockRuns.{first_of};
ghost use Rattle.ptflow.specs.Private.Uniq.FirstLine.{first_line, current_run_of};
ghost use Rattle.ptflow.specs.Private.Uniq.RunsFrom.{run_of};

mod block_runs;
mod line_key;

use crate::faults::FlowFault;
use crate::line_loop::{LineFilter, run_lines};
use crate::start::start_pass;
use crate::tools::uniq::block_runs::{CountedRun, RunWriter};
use crate::tools::uniq::line_key::key;
use arrayvec::ArrayVec;
use ptlangs::jobs::UniqJob;
use ptlines::{BLOCK, LineReader, Out, Sink, Source, Store, WriteFault};
use std::alloc::Allocator;

// The current run: how many lines it has, and its first line if that was copied from a block. Otherwise the first slot
// holds the line.
#[derive(Drop)]
pub(crate) struct CurrentRun {
    pub count: u64,
    pub is_copied: bool,
    pub bytes: ArrayVec<u8, BLOCK>,
}

impl CurrentRun {
    // Becomes the last run of the lines of a block, and copies its first line if that is in the block.
    fn set_to_last(&mut self, last: CountedRun, block: &[u8])
        requires range { IfSome last.line (λ line. (line.from < line.to) × (line.to ≤ length block.now)) }
        requires few { length block.now ≤ BLOCK }
        ensures { (store : Slots) → current_run_of self.new store
            ≡ run_of (first_of (first_line self.old store) block.now last.line) last.count }
    {
        self.count = last.count;
        if let Some(line) = last.line {
            self.is_copied = true;
            self.bytes.clear();
            let first = &block[line.from..line.to - 1];
            let _ = self.bytes.try_extend_from_slice(first);
        }
    }
}

// The writer of runs, and the current run.
#[derive(Drop)]
pub(crate) struct LineUniq<'a> {
    pub writer: RunWriter<'a>,
    pub run: CurrentRun,
}

impl LineUniq<'_> {
    // Checks whether `line` belongs to the current run, which begins with `first`.
    fn is_same_run(&self, first: &[u8], line: &[u8]) -> bool
        ensures { result
            ≡ (nat_lt 0 self.now.run.count && is_same (uniq_job self.now.writer.job.now) first.now line.now) }
    {
        let job = self.writer.job;
        self.run.count > 0 && key(job, first, first.len()) == key(job, line, line.len())
    }

    // The first line of the current run.
    fn first_line<'a, A: Allocator + Copy>(&'a self, store: &'a Store<A>) -> &'a [u8]
        requires { 0 < length store.now.lines }
        ensures { result.now ≡ first_line self.now.run store.now }
    {
        if self.run.is_copied {
            return self.run.bytes.as_slice();
        }
        store.line(0)
    }
}

impl<'a> LineFilter for LineUniq<'a> {
    ghost use Rattle.ptlangs.specs.Jobs.{Uniq, uniq_job};
    ghost use Rattle.ptflow.specs.Uniqs.{Run, output_of, uniq_tool};
    ghost use Rattle.ptflow.specs.Private.Uniq.FirstLine.{current_run_of};
    ghost use Rattle.ptflow.specs.Private.Uniq.RunsFrom.{count_of, runs_after};

    ghost SLOTS = { 2 };

    ghost Job = { Uniq };

    ghost job = { λ t. uniq_job t.writer.job.now };

    ghost tool = { uniq_tool };

    ghost Model = { Run };

    ghost model = { λ t. current_run_of t.run };

    ghost Item = { Run };

    ghost rest = { runs_after };

    ghost written = { output_of };

    ghost counted = { count_of };

    // Adds the line to the current run, or starts the next run with it.
    fn process_line<A: Allocator + Copy, W: Sink>(
        &mut self,
        store: &mut Store<A>,
        out: &mut Out<W>,
    ) -> Result<(), WriteFault> {
        if self.is_same_run(self.first_line(store), store.line(1)) {
            self.run.count += 1;
            return Ok(());
        }
        self.writer
            .write_run(self.run.count, self.first_line(store), out)?;
        store.swap(0, 1);
        self.run.count = 1;
        self.run.is_copied = false;
        Ok(())
    }

    // Only the first line of the last run is copied. No output of a run is pushed before the next key is known.
    fn process_lines<A: Allocator + Copy, W: Sink>(
        &mut self,
        block: &[u8],
        store: &Store<A>,
        out: &mut Out<W>,
    ) -> Result<usize, WriteFault> {
        let last = self
            .writer
            .write_runs(self.run.count, self.first_line(store), block, out)?;
        self.run.set_to_last(last.run, block);
        Ok(last.len)
    }

    fn finish<A: Allocator + Copy, W: Sink>(
        &self,
        store: &mut Store<A>,
        out: &mut Out<W>,
    ) -> Result<(), WriteFault> {
        self.writer
            .write_run(self.run.count, self.first_line(store), out)?;
        store.clear(0);
        Ok(())
    }
}

/// Writes the first line of each run of adjacent lines with equal keys (POSIX.1-2017, XCU, `uniq`). With `Counts` the
/// length of the run and a space come before the line; with `Repeated` only runs of two lines or more are written, and
/// with `Single` only runs of one. The key of a line is the rest of it after the fields and bytes that the job skips,
/// which may be empty. Lines end with newline, or with byte 0 with `-z`, and then a newline is not a blank. POSIX
/// leaves `-z` unspecified.
///
/// Two slots of the store, which are added if they are missing, hold the first line of the run and the line after it.
/// Output that the input read so far decides is pushed before 16,384 more bytes are read. Tests check, but no clause
/// states, that it is pushed before the next read and that no output of a run is pushed before the run ends. If the
/// output has failed before, nothing is read.
/// # Errors
/// `Read` or `Write` if a read or a write failed; `Memory` if the store could not grow, and then the store is denied.
pub fn uniq<A: Allocator + Copy, S: Source, R: Source, W: Sink>(
    job: &UniqJob,
    reader: &mut LineReader<S, R>,
    store: &mut Store<A>,
    out: &mut Out<W>,
) -> Result<(), FlowFault>
    requires { PassPre reader.old store.old }
    ensures { PassPost (uniq_tool (uniq_job job.now)) reader.old reader.new out.old out.new store.old store.new result }
{
    let terminator = start_pass(job.zero, reader, out)?;
    let mut tool = LineUniq {
        writer: RunWriter { job, terminator },
        run: CurrentRun {
            count: 0,
            is_copied: false,
            bytes: ArrayVec::new(),
        },
    };
    run_lines(&mut tool, 2, reader, store, out)
}
