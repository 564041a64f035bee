//! `cut -f`: selects fields of each line, line by line (`FieldCut`, which `run_lines` runs). A cursor gives the
//! selected slices of a line. The output for the lines that end in a block is copied to one buffer; adjacent lines
//! without the delimiter are copied together. `cut` calls it.

ghost use Rattle.std.specs.Prelude.{◌≡◌, ◌+◌, ◌-◌, ◌<◌, ◌≤◌, ◌++◌, ◌⊎◌, length, take, drop, min, slice_index, true};
ghost use Rattle.std.specs.Prelude.{false, [], ◌∷◌, Some, OnOk, OnErr, MatchOption};
ghost use Rattle.memchr.specs.Find.{IsFirstByte, is_byte};
ghost use Rattle.ptlines.specs.Calls.Outputs.{PushEffect};
ghost use Rattle.ptlines.specs.Calls.Scan.{IsMatchWindow};
ghost use Rattle.ptlangs.specs.Jobs.{cut_job};
ghost use Rattle.ptflow.specs.Cuts.{cut_fields, cut_lines};
ghost use Rattle.ptflow.specs.Private.Cut.FieldOffsets.{IsFieldOffset};
ghost use Rattle.ptflow.specs.Private.Cut.FieldSlices.{IsFieldCursor, IsLineWindow, IsNextSlice, output_from_cursor};
ghost use Rattle.ptflow.specs.Private.Cut.CutFrom.{CopyLinesPost};

use crate::line_loop::LineFilter;
use memchr::memrchr;
use ptlangs::jobs::CutJob;
use ptlangs::ranges::Interval;
use ptlines::{
    MatchWindow, Matches, Out, PADDED, PaddedBlock, Sink, Store, WriteFault, copy_short,
};
use std::alloc::Allocator;
use std::simd::prelude::*;

// Moves a window of the delimiters of a line, which is the first `to` bytes, to the start of the field after `count`
// others, counted from the window on. If there is no such field, the window is after the line.
#[inline(always)]
fn skip_fields(delimiters: &Matches<u8>, window: MatchWindow, to: usize, count: u64) -> MatchWindow
    requires within { (window.at ≤ to) × (to ≤ length delimiters.now.bytes.now) }
    requires window { IsMatchWindow (is_byte delimiters.now.needle) delimiters.now.bytes.now window }
    ensures near { window.at ≤ result.at }
    ensures offset { IsFieldOffset delimiters.now.needle count (drop window.at (take to delimiters.now.bytes.now))
        (min result.at (to + 1) - window.at) }
    ensures moved { result.at ≤ to → IsMatchWindow (is_byte delimiters.now.needle) delimiters.now.bytes.now result }
{
    if count == 0 {
        return window;
    }
    delimiters.after_nth(window, to, count - 1)
}

// A slice of a line: the index of its first byte, and the index after its last one.
#[derive(Clone, Copy)]
struct LineSlice {
    start: usize,
    end: usize,
}

// The rest of the output for a line: the fields that these intervals select. The field after the first `passed`
// ones starts where the window of the delimiters does; if there is no such field, the window is after the line.
#[derive(Clone, Copy)]
struct FieldCursor<'a> {
    left: &'a [Interval],
    passed: u64,
    window: MatchWindow,
}

impl<'a> FieldCursor<'a> {
    // The cursor at the start of a line.
    #[inline(always)]
    fn new(left: &'a [Interval], delimiters: &Matches<u8>) -> FieldCursor<'a>
        ensures left { result.left.now ≡ left.now }
        ensures passed { result.passed ≡ 0 }
        ensures at { result.window.at ≡ 0 }
        ensures window { IsMatchWindow (is_byte delimiters.now.needle) delimiters.now.bytes.now result.window }
    {
        FieldCursor {
            left,
            passed: 0,
            window: delimiters.window(),
        }
    }

    // The next slice of the output for a line, which is the first `to` bytes: adjacent selected fields, with the
    // delimiter before them if they are not the first. The cursor moves after them. `None` if no field is left.
    #[inline(always)]
    fn next_slice(&mut self, delimiters: &Matches<u8>, to: usize) -> Option<LineSlice>
        requires within { to ≤ length delimiters.now.bytes.now }
        requires window { IsLineWindow delimiters.now.needle delimiters.now.bytes.now to self.old }
        requires cursor { IsFieldCursor delimiters.now.needle (take to delimiters.now.bytes.now) self.old }
        ensures next { MatchOption result
            (output_from_cursor delimiters.now.needle (take to delimiters.now.bytes.now) self.old ≡ [])
            (λ slice. IsNextSlice delimiters.now.needle (take to delimiters.now.bytes.now) self.old slice self.new) }
        ensures window { IsLineWindow delimiters.now.needle delimiters.now.bytes.now to self.new }
    {
        if self.left.is_empty() || self.window.at > to {
            return None;
        }
        let Interval { first, last } = self.left[0];
        let begun = skip_fields(delimiters, self.window, to, first - 1 - self.passed);
        if begun.at > to {
            return None;
        }
        let start = begun.at - self.passed.min(1) as usize;
        self.window = skip_fields(delimiters, begun, to, last - first + 1);
        self.passed = last;
        self.left = &self.left[1..];
        let end = (self.window.at - 1).min(to);
        Some(LineSlice { start, end })
    }
}

// Pushes the selected fields of a line of any length.
fn write_fields<A: Allocator + Copy, W: Sink>(
    job: &CutJob<A>,
    delimiters: &Matches<u8>,
    out: &mut Out<W>,
) -> Result<(), WriteFault>
    requires { delimiters.now.needle ≡ job.now.delim }
    ensures wrote { PushEffect out.old out.new (cut_fields (cut_job job.now) delimiters.now.bytes.now) }
    ensures clean { OnOk result (out.old.write_failed ≡ false → out.new.write_failed ≡ false) }
    ensures fault { OnErr result (out.new.write_failed ≡ true) }
{
    let line = delimiters.bytes;
    let mut cursor = FieldCursor::new(job.list.intervals(), delimiters);
    'slices: while let Some(slice) = cursor.next_slice(delimiters, line.len()) {
        out.push(&line[slice.start..slice.end])?;
    }
    Ok(())
}

// A job that selects fields, and the terminator. The delimiter is beside the job, not read through it
// (`cut -d ' ' -f 2,5`).
#[derive(Drop)]
struct FieldSelection<'a, A: Allocator> {
    job: &'a CutJob<A>,
    delim: u8,
    terminator: u8,
    ghost by_fields: { job.now.fields ≡ true },
    ghost delimits: { delim ≡ job.now.delim },
    ghost ends: { terminator ≡ (cut_job job.now).terminator },
}

/// The selection, and a buffer for the output of the lines of a block.
#[derive(Drop)]
pub(crate) struct FieldCut<'a, A: Allocator> {
    selection: FieldSelection<'a, A>,
    buffer: PaddedBlock,
}

impl<'a, A: Allocator> FieldCut<'a, A> {
    // The selection of a job, and an empty buffer.
    pub(crate) fn new(job: &'a CutJob<A>, terminator: u8) -> Self
        requires by_fields { job.now.fields ≡ true }
        requires ends { terminator ≡ (cut_job job.now).terminator }
        ensures { result.selection.job.now ≡ job.now }
    {
        FieldCut {
            selection: FieldSelection {
                job,
                delim: job.delim,
                terminator,
            },
            buffer: [0; PADDED],
        }
    }
}

// Pushes the output of a line, which is given without its terminator. Not inlined, as `map_bytes`.
#[inline(never)]
fn write_line<A: Allocator + Copy, W: Sink>(
    selection: &FieldSelection<A>,
    line: &[u8],
    out: &mut Out<W>,
) -> Result<(), WriteFault>
    ensures wrote { PushEffect out.old out.new (cut_lines (cut_job selection.now.job.now) (line.now ∷ [])) }
    ensures clean { OnOk result (out.old.write_failed ≡ false → out.new.write_failed ≡ false) }
    ensures fault { OnErr result (out.new.write_failed ≡ true) }
{
    let delimiters = Matches::new(selection.delim, line);
    if delimiters.first().is_some() {
        write_fields(selection.job, &delimiters, out)?;
        return out.push(&[selection.terminator]);
    }
    if selection.job.only {
        return Ok(());
    }
    out.push_line(b"", line, &[selection.terminator])
}

// Copies a slice like `copy_short`, and as one vector also if it has 17 to 32 bytes, as the time in a log often does.
// Most slices have at most 16 bytes, which is tested first.
#[inline(always)]
fn copy_slice(bytes: &[u8], slice: LineSlice, into: &mut [u8], at: usize)
    requires within { (slice.start ≤ slice.end) × (slice.end ≤ length bytes.now) }
    requires room { at + (slice.end - slice.start) + 16 ≤ length into.old }
    ensures long { length into.new ≡ length into.old }
    ensures copied { take (at + (slice.end - slice.start)) into.new
        ≡ take at into.old ++ take (slice.end - slice.start) (drop slice.start bytes.now) }
{
    let LineSlice { start, end } = slice;
    let len = end - start;
    if len <= 16 {
        copy_short(bytes, start, end, into, at);
    } else if len <= 32 && bytes.len() - start >= 32 {
        u8x32::from_slice(&bytes[start..]).copy_to_slice(&mut into[at..]);
    } else {
        copy_short(bytes, start, end, into, at);
    }
}

// Copies the selected fields of a line, which is the first `to` bytes, and its terminator, which is the byte after it,
// to index `start` of `room`. Returns the index after the copied bytes.
#[inline(always)]
fn copy_fields<A: Allocator + Copy>(
    job: &CutJob<A>,
    delimiters: &Matches<u8>,
    to: usize,
    room: &mut [u8],
    start: usize,
) -> usize
    requires delimiter { delimiters.now.needle ≡ job.now.delim }
    requires room { (to < length delimiters.now.bytes.now) × (start + to + 17 ≤ length room.old) }
    ensures long { length room.new ≡ length room.old }
    ensures put { take result room.new ≡ take start room.old
        ++ (cut_fields (cut_job job.now) (take to delimiters.now.bytes.now)
        ++ take 1 (drop to delimiters.now.bytes.now)) }
    ensures end { (start ≤ result) × (result ≤ start + to + 1) }
{
    let bytes = delimiters.bytes;
    let mut cursor = FieldCursor::new(job.list.intervals(), delimiters);
    let mut end = start;
    'slices: while let Some(slice) = cursor.next_slice(delimiters, to) {
        copy_slice(bytes, slice, room, end);
        end += slice.end - slice.start;
    }
    room[end] = bytes[to];
    end + 1
}

// The length of the complete lines before index `up_to`, or of the first line, which ends at `to`, if that is longer.
// It is needed only for lines without the delimiter.
fn whole_lines_len(terminator: u8, bytes: &[u8], to: usize, up_to: usize) -> usize
    requires first { IsFirstByte (is_byte terminator) bytes.now (Some to) }
    requires within { up_to ≤ length bytes.now }
    ensures within { (to < result) × (result ≤ length bytes.now) }
    ensures eof { slice_index bytes.now (result - 1) ≡ terminator }
    ensures up_to { (result ≡ to + 1) ⊎ (result ≤ up_to) }
{
    let next = to + 1;
    match memrchr(terminator, &bytes[next..up_to.max(next)]) {
        Some(last) => next + last + 1,
        None => next,
    }
}

// The lines that were copied to a buffer: their length in the block, and the index after their output.
#[derive(Clone, Copy)]
struct CopiedLines {
    len: usize,
    end: usize,
}

// Copies the output of the first lines to index `start` of `room`: of the first line, which ends at `to`, or, if the
// delimiter is not in it, of all complete lines before the first delimiter.
#[inline(always)]
fn copy_lines<A: Allocator + Copy>(
    selection: &FieldSelection<A>,
    to: usize,
    bytes: &[u8],
    room: &mut [u8],
    start: usize,
) -> CopiedLines
    requires first { IsFirstByte (is_byte selection.now.terminator) bytes.now (Some to) }
    requires room { start + length bytes.now + 16 ≤ length room.old }
    ensures long { length room.new ≡ length room.old }
    ensures put { CopyLinesPost (cut_job selection.now.job.now) selection.now.terminator bytes.now result.len
        (take start room.old) (take result.end room.new) }
    ensures end { (start ≤ result.end) × (result.end ≤ start + result.len) }
{
    let FieldSelection {
        job,
        delim,
        terminator,
    } = *selection;
    let delimiters = Matches::new(delim, bytes);
    let first = delimiters.first().unwrap_or(bytes.len());
    if first < to {
        let end = copy_fields(job, &delimiters, to, room, start);
        return CopiedLines { len: to + 1, end };
    }
    let len = whole_lines_len(terminator, bytes, to, first);
    if job.only {
        return CopiedLines { len, end: start };
    }
    copy_short(bytes, 0, len, room, start);
    let end = start + len;
    CopiedLines { len, end }
}

impl<'a, A: Allocator + Copy> LineFilter for FieldCut<'a, A> {
    ghost use Rattle.std.specs.Prelude.{ℕ};
    ghost use Rattle.ptlangs.specs.Jobs.{Cut, cut_job};
    ghost use Rattle.ptflow.specs.Cuts.{cut_tool};
    ghost use Rattle.ptflow.specs.Private.Cut.CutFrom.{cut_fields_from};

    ghost SLOTS = { 1 };

    ghost Job = { Cut };

    ghost job = { λ t. cut_job t.selection.job.now };

    ghost tool = { cut_tool };

    // No state is carried from line to line.
    ghost Model = { Unit {0} };

    ghost model = { λ t store. tt };

    ghost Item = { ℕ };

    ghost rest = { cut_fields_from };

    ghost written = { λ job bytes. bytes };

    ghost counted = { λ u. 1 };

    fn process_line<B: Allocator + Copy, W: Sink>(
        &mut self,
        store: &mut Store<B>,
        out: &mut Out<W>,
    ) -> Result<(), WriteFault> {
        write_line(&self.selection, store.line(0), out)
    }

    // The output of fields is never longer than the input, so all of it is copied into one buffer and pushed at once.
    fn process_lines<B: Allocator + Copy, W: Sink>(
        &mut self,
        block: &[u8],
        _store: &Store<B>,
        out: &mut Out<W>,
    ) -> Result<usize, WriteFault> {
        // A copy, so that the loop does not read the fields through `self` (`cut -d ' ' -f 2,5`).
        let selection = FieldSelection {
            job: self.selection.job,
            delim: self.selection.delim,
            terminator: self.selection.terminator,
        };
        let mut end = 0;
        let mut rest = block;
        'lines: while let Some(to) = Matches::new(selection.terminator, rest).first() {
            let copied = copy_lines(&selection, to, rest, &mut self.buffer, end);
            rest = &rest[copied.len..];
            end = copied.end;
        }
        out.push_block(&self.buffer[..end])?;
        Ok(block.len() - rest.len())
    }

    // There is no output after the last line.
    fn finish<B: Allocator + Copy, W: Sink>(
        &self,
        _store: &mut Store<B>,
        _out: &mut Out<W>,
    ) -> Result<(), WriteFault> {
        Ok(())
    }
}
