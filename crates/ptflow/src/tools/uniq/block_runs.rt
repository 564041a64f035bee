//! The runs of the lines of a block: counts and writes them. Output that is contiguous in the block is deferred, and
//! pushed at once. Repeats of a line are skipped without a search for their ends. `uniq` uses it, also for the last run
//! of the input.

ghost use Rattle.std.specs.Prelude.{◌≡◌, ◌<◌, ◌≤◌, ◌++◌, length, take, drop, true, IfOk, IfSome, OnErr};
ghost use Rattle.ptlines.specs.Calls.Outputs.{PushEffect, PushPost};
ghost use Rattle.ptlines.specs.Text.{complete_lines};
ghost use Rattle.memchr.specs.Find.{IsFirstByte, is_byte};
ghost use Rattle.ptlangs.specs.Jobs.{uniq_job};
ghost use Rattle.ptflow.specs.Private.Passes.LineLoop.{IsLinesLength, ProcessLinesPre};
ghost use Rattle.ptflow.specs.Private.Uniq.RunsFrom.{has_output, count_prefix, run_of, run_text};
ghost use Rattle.ptflow.specs.Private.Uniq.BlockRuns.{RunsWritten, RunsFailed, EndRunPre, IsPending, first_of};
ghost use Rattle.ptflow.specs.Private.Uniq.BlockRuns.{repeated, bytes_in_range};

use crate::simd::compare::{is_equal, same_start};
use crate::tools::uniq::line_key::key;
use itoa::Buffer;
use ptlangs::jobs::{Show, UniqJob};
use ptlines::{Out, Sink, WriteFault, find_byte, find_in_chunk};

// Checks whether a run of `count` lines is written.
fn has_output(show: Show, count: u64) -> bool
    ensures { result ≡ has_output show count }
{
    match show {
        Show::All | Show::Counts => count > 0,
        Show::Repeated => count > 1,
        Show::Single => count == 1,
    }
}

// Pushes the deferred output `before`, and then the count that is written before a run's line, if there is one. Most
// counts have one digit, which needs no buffer.
fn flush_with_count<W: Sink>(
    show: Show,
    count: u64,
    before: &[u8],
    out: &mut Out<W>,
) -> Result<(), WriteFault>
    ensures { PushPost out.old out.new (before.now ++ count_prefix show count) result }
{
    match show {
        Show::Counts if count < 10 => out.push_line(before, &[b'0' + count as u8], b" "),
        Show::Counts => {
            let mut buffer = Buffer::new();
            out.push_line(before, buffer.format(count).as_bytes(), b" ")
        }
        Show::All | Show::Repeated | Show::Single => out.push(before),
    }
}

// A range of a block: the index of its first byte, and the index after its last one.
#[derive(Clone, Copy)]
pub(crate) struct BlockRange {
    pub from: usize,
    pub to: usize,
}

// A run of lines that ends in a block: how many lines it has, and its first line with the terminator, unless that was
// read before the block.
#[derive(Clone, Copy)]
pub(crate) struct CountedRun {
    pub count: u64,
    pub line: Option<BlockRange>,
}

// The last run of the lines of a block, and the length of all lines.
#[derive(Clone, Copy)]
pub(crate) struct LastRun {
    pub run: CountedRun,
    pub len: usize,
}

// Finds the end of the first line. The first 16 bytes are compared first, as the next line cannot be looked at before
// the end of this one is known (`uniq` of lines of 8 bytes).
#[inline(always)]
fn find_end(terminator: u8, bytes: &[u8]) -> Option<usize>
    ensures { IsFirstByte (is_byte terminator) bytes.now result }
{
    if bytes.len() >= 16 {
        if let Some(at) = find_in_chunk::<16, u8>(terminator, bytes, 0) {
            return Some(at);
        }
    }
    find_byte(terminator, bytes)
}

// The lines that repeat the one before them: how many there are, and the bytes after them.
#[derive(Clone, Copy)]
struct Repeats<'a> {
    count: u64,
    rest: &'a [u8],
}

// Skips the lines that repeat the line at the start of `bytes`, which has `len` bytes with its terminator. Repeats that
// start among the last 15 bytes are not found.
fn skip_repeats(bytes: &[u8], len: usize) -> Repeats
    requires { (0 < len) × (len ≤ length bytes.now) }
    ensures { drop len bytes.now ≡ repeated result.count (take len bytes.now) ++ result.rest.now }
{
    let mut count = 0;
    let mut rest = &bytes[len..];
    while same_start(bytes, rest, len) {
        count += 1;
        rest = &rest[len..];
    }
    Repeats { count, rest }
}

// Writes runs, by the options of a job.
#[derive(Drop)]
pub(crate) struct RunWriter<'a> {
    pub job: &'a UniqJob,
    pub terminator: u8,
    ghost ends: { terminator ≡ (uniq_job job.now).terminator },
}

impl RunWriter<'_> {
    // Pushes the output of a run of `count` lines, of which `first` is the first.
    pub(crate) fn write_run<W: Sink>(
        &self,
        count: u64,
        first: &[u8],
        out: &mut Out<W>,
    ) -> Result<(), WriteFault>
        ensures { PushPost out.old out.new (run_text (uniq_job self.now.job.now) (run_of first.now count)) result }
    {
        let show = self.job.show;
        if !has_output(show, count) {
            return out.push(b"");
        }
        flush_with_count(show, count, b"", out)?;
        out.push_line(b"", first, &[self.terminator])
    }

    // Ends a run, whose first line is `first` if it is not in the block. Extends the deferred output by the line if the
    // two are contiguous in the block; otherwise pushes the deferred output first. Returns the range of the deferred
    // output.
    #[inline(always)]
    fn end_run<W: Sink>(
        &self,
        run: CountedRun,
        first: &[u8],
        block: &[u8],
        pending: BlockRange,
        out: &mut Out<W>,
    ) -> Result<BlockRange, WriteFault>
        requires { EndRunPre (uniq_job self.now.job.now).terminator block.now run.line pending }
        ensures waits { IfOk result (λ now. IsPending (bytes_in_range block.now pending
            ++ run_text (uniq_job self.now.job.now) (run_of (first_of first.now block.now run.line) run.count))
            block.now now out.old out.new) }
        ensures wrote { OnErr result (PushEffect out.old out.new (bytes_in_range block.now pending
            ++ run_text (uniq_job self.now.job.now) (run_of (first_of first.now block.now run.line) run.count))) }
        ensures fault { OnErr result (out.new.write_failed ≡ true) }
    {
        let show = self.job.show;
        let CountedRun { count, line } = run;
        let Some(line) = line else {
            self.write_run(count, first, out)?;
            return Ok(pending);
        };
        if !has_output(show, count) {
            return Ok(pending);
        }
        if show != Show::Counts && pending.to == line.from {
            return Ok(BlockRange {
                from: pending.from,
                to: line.to,
            });
        }
        flush_with_count(show, count, &block[pending.from..pending.to], out)?;
        Ok(line)
    }

    // Pushes the output of the runs of the lines that end in the block, except for the last run. The current run has
    // `carried` lines before the block, of which `first` is the first.
    pub(crate) fn write_runs<W: Sink>(
        &self,
        carried: u64,
        first: &[u8],
        block: &[u8],
        out: &mut Out<W>,
    ) -> Result<LastRun, WriteFault>
        requires { ProcessLinesPre carried block.now }
        ensures continues { IfOk result (λ last. RunsWritten (uniq_job self.now.job.now) (run_of first.now carried)
            (run_of (first_of first.now block.now last.run.line) last.run.count)
            (complete_lines (uniq_job self.now.job.now).terminator block.now) out.old out.new) }
        ensures halts { OnErr result
            (RunsFailed (uniq_job self.now.job.now) (run_of first.now carried)
            (complete_lines (uniq_job self.now.job.now).terminator block.now) out.old out.new) }
        ensures range { IfOk result
            (λ last. IfSome last.run.line (λ line. (line.from < line.to) × (line.to ≤ length block.now))) }
        ensures passed { IfOk result (λ last. IsLinesLength (uniq_job self.now.job.now).terminator block.now last.len) }
    {
        let (job, terminator) = (self.job, self.terminator);
        let size = block.len();
        let mut count = carried;
        let mut line = None;
        let mut pending = BlockRange { from: 0, to: 0 };
        let mut run_key = key(job, first, first.len());
        let mut rest = block;
        'lines: while let Some(at) = find_end(terminator, rest) {
            let next = key(job, rest, at);
            if is_equal(run_key, next) {
                let repeats = skip_repeats(rest, at + 1);
                count += 1 + repeats.count;
                rest = repeats.rest;
            } else {
                rest = &rest[at + 1..];
                let ended = CountedRun { count, line };
                pending = self.end_run(ended, first, block, pending, out)?;
                let to = size - rest.len();
                let from = to - at - 1;
                line = Some(BlockRange { from, to });
                run_key = next;
                count = 1;
            }
        }
        out.push(&block[pending.from..pending.to])?;
        let len = size - rest.len();
        let run = CountedRun { count, line };
        Ok(LastRun { run, len })
    }
}
