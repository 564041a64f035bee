//! `cut -b` and `cut -c`: selects bytes of each line, block by block (`ByteCut`, which `run_blocks` runs). Most lines
//! are cut by byte shuffles; the rest of a long line, or a line that begins in an earlier block, is cut interval by
//! interval. `cut` calls it.

ghost use Rattle.std.specs.Prelude.{◌≡◌, ◌<◌, ◌≤◌, ◌+◌, ◌*◌, ◌++◌, ◌∷◌, ℕ, List, [], length, take, drop};
ghost use Rattle.ptlangs.specs.Calls.CutLists.{AreSeparated};
ghost use Rattle.ptlangs.specs.CutLists.{is_selected};
ghost use Rattle.ptflow.specs.Private.Cut.CutFrom.{cut_list_from, selected_bytes, IsCutPart, ExtendsCut};
ghost use Rattle.ptflow.specs.Private.Cut.CutFrom.{IsTerminatorMask, IsLineAt, IsSameLine, CutPost};
ghost use Rattle.ptflow.specs.Private.Passes.BlockLoop.{HasRoom};
ghost use Rattle.ptflow.specs.Private.Cut.ShortLines.{AreLineShuffles, AreSeparated-prop};
ghost use Rattle.ptflow.specs.Cuts.{select_from};

use crate::block_loop::BlockFilter;
use crate::tools::cut::shuffle::LineShuffles;
use ptlangs::jobs::CutJob;
use ptlangs::ranges::Interval;
use ptlines::{Out, PADDED, PaddedBlock, Sink, WriteFault, copy_short, find_byte, mask_at};
use std::alloc::Allocator;
use std::simd::prelude::*;

/// The selected intervals, the shuffles that select them in a line that is not long, and the terminator.
#[derive(Clone, Copy)]
pub(crate) struct Selection<'a> {
    selected: &'a [Interval],
    shuffles: LineShuffles,
    terminator: u8,
    ghost apart: { AreSeparated 0 selected.now } by { AreSeparated-prop 0 selected.now },
    ghost are_shuffles: { AreLineShuffles (is_selected selected.now) shuffles },
}

// A line of a block: where it starts, how many bytes of it were in earlier blocks, and the index after the output of
// the lines before it.
#[derive(Clone, Copy)]
struct Line {
    start: usize,
    line_offset: u64,
    at: usize,
}

// The end of a block: the index after its output, and how many bytes of its unfinished last line were read.
#[derive(Clone, Copy)]
struct BlockEnd {
    at: usize,
    line_offset: u64,
}

impl Selection<'_> {
    // Copies the selected bytes among the first `count` bytes of a line. Returns the index after the copied bytes. Out
    // of line, to keep registers free in the copy of most lines (`cut -c 2-4`).
    #[inline(never)]
    fn copy_selected(&self, block: &[u8], line: Line, count: usize, into: &mut PaddedBlock) -> usize
        requires within { line.start + count ≤ length block.now }
        requires room { HasRoom line.line_offset line.at count }
        ensures copied { take result into.new
            ≡ take line.at into.old ++ selected_bytes self.now.selected.now block.now line count }
        ensures near { result ≤ line.at + count }
    {
        let bytes = &block[line.start..];
        let last = line.line_offset + count as u64;
        let mut at = line.at;
        for interval in self.selected {
            if interval.last <= line.line_offset {
                continue;
            }
            let from = interval.first.saturating_sub(line.line_offset + 1) as usize;
            if last <= interval.last {
                let from = from.min(count);
                copy_short(bytes, from, count, into, at);
                return at + (count - from);
            }
            let to = interval.last.saturating_sub(line.line_offset) as usize;
            copy_short(bytes, from, to, into, at);
            at += to - from;
        }
        at
    }

    // Copies the selected bytes of piece `index` of a line by one shuffle. The piece is the first `count` of 16 bytes.
    // Returns the index after the copied bytes.
    #[inline(always)]
    fn copy16(
        &self,
        index: usize,
        line: &[u8],
        count: usize,
        into: &mut PaddedBlock,
        at: usize,
    ) -> usize
        requires piece { (index < 8) × (count ≤ 16) }
        requires within { 16 * index + 16 ≤ length line.now }
        requires room { at + 16 ≤ PADDED }
        ensures copied { (was : List ℕ)
            → take at into.old ≡ was ++ select_from (is_selected self.now.selected.now) 1 (take (16 * index) line.now)
            → take result into.new
            ≡ was ++ select_from (is_selected self.now.selected.now) 1 (take (16 * index + count) line.now) }
        ensures near { (at ≤ result) × (result ≤ at + count) }
    {
        let piece = u8x16::from_slice(&line[16 * index..]);
        let room: &mut [u8] = into;
        piece
            .swizzle_dyn(self.shuffles.pieces[index].row)
            .copy_to_slice(&mut room[at..]);
        at + usize::from(self.shuffles.pieces[index].counts[count])
    }

    // Copies the selected bytes of a line, which is the first `count` bytes, piece by piece, and then those after the
    // pieces. Returns the index after the copied bytes. Out of line, to keep registers free in the copy of short lines
    // (`cut -c 2-4`).
    #[inline(never)]
    fn copy_pieces(&self, line: &[u8], count: usize, into: &mut PaddedBlock, mut at: usize) -> usize
        requires within { count + 16 ≤ length line.now }
        requires room { HasRoom 0 at (count + 1) }
        ensures copied { take result into.new
            ≡ take at into.old ++ select_from (is_selected self.now.selected.now) 1 (take count line.now) }
        ensures near { result ≤ at + count }
    {
        let mut rest = count;
        for index in 0..self.shuffles.count {
            at = self.copy16(index, line, rest.min(16), into, at);
            if rest <= 16 {
                return at;
            }
            rest -= 16;
        }
        let start = count - rest;
        let line_offset = start as u64;
        let tail = Line {
            start,
            line_offset,
            at,
        };
        self.copy_selected(line, tail, rest, into)
    }

    // Copies the selected bytes of a line of `count` bytes, and the terminator. Returns the index after the copied
    // bytes. The caller guarantees 16 readable bytes after the line, so no other bound is checked if all selected bytes
    // are in its first piece.
    #[inline(always)]
    fn copy_line(&self, block: &[u8], line: Line, count: usize, into: &mut PaddedBlock) -> usize
        requires within { line.start + count + 16 ≤ length block.now }
        requires room { HasRoom line.line_offset line.at (count + 1) }
        ensures copied { take result into.new ≡ take line.at into.old
            ++ (selected_bytes self.now.selected.now block.now line count ++ self.now.terminator ∷ []) }
        ensures near { result ≤ line.at + count + 1 }
    {
        let bytes = &block[line.start..];
        let is_short = count <= 16;
        let end = if line.line_offset > 0 || !is_short && count > self.shuffles.max_len {
            // A copy, so that the line stays in registers elsewhere (`cut -c 2-4`).
            let line = line;
            self.copy_selected(block, line, count, into)
        } else if is_short {
            self.copy16(0, bytes, count, into, line.at)
        } else if self.shuffles.last <= 16 {
            self.copy16(0, bytes, 16, into, line.at)
        } else {
            self.copy_pieces(bytes, count.min(self.shuffles.last), into, line.at)
        };
        into[end] = self.terminator;
        end + 1
    }

    // Copies the output of the lines that end among the 64 bytes from `from` on, which are followed by 16 more. `mask`
    // is the match mask of their terminators. Returns the first line after them.
    fn cut_chunk(
        &self,
        block: &[u8],
        from: usize,
        mut mask: u64,
        mut line: Line,
        into: &mut PaddedBlock,
    ) -> Line
        requires ends { IsTerminatorMask self.now.terminator block.now from mask }
        requires line { IsLineAt self.now.terminator block.now from line }
        ensures on { CutPost self.now.terminator self.now.selected.now block.now line (take line.at into.old) result
            (take result.at into.new) }
        ensures same { IsSameLine self.now.terminator block.now (from + 64) result.start }
    {
        if mask == u64::MAX && line.start == from && line.line_offset == 0 {
            // These lines are all empty.
            let room: &mut [u8] = into;
            u8x64::from_slice(&block[line.start..]).copy_to_slice(&mut room[line.at..]);
            line.start += 64;
            line.at += 64;
            return line;
        }
        for _end in 0..mask.count_ones() {
            let end = from + mask.trailing_zeros() as usize;
            line.at = self.copy_line(block, line, end - line.start, into);
            line.start = end + 1;
            line.line_offset = 0;
            mask &= mask.wrapping_sub(1);
        }
        line
    }

    // Copies the output of the last bytes of a block, from the start of a line on.
    fn cut_tail(&self, block: &[u8], mut line: Line, into: &mut PaddedBlock) -> BlockEnd
        requires start { (line.at ≤ line.start) × (line.start ≤ length block.now) }
        requires room { HasRoom line.line_offset 0 (length block.now) }
        ensures cut { ExtendsCut self.now.terminator self.now.selected.now line.line_offset (drop line.start block.now)
            (take line.at into.old) result.line_offset [] (take result.at into.new) }
        ensures near { result.at ≤ length block.now }
        ensures bound { result.line_offset ≤ line.line_offset + length block.now }
    {
        'lines: while let Some(count) = find_byte(self.terminator, &block[line.start..]) {
            let end = self.copy_selected(block, line, count, into);
            into[end] = self.terminator;
            line.start += count + 1;
            line.line_offset = 0;
            line.at = end + 1;
        }
        let count = block.len() - line.start;
        let at = self.copy_selected(block, line, count, into);
        let line_offset = line.line_offset + count as u64;
        BlockEnd { at, line_offset }
    }

    // Copies the output of a block. The first line begins `line_offset` bytes before it. Not inlined, as `map_bytes`.
    #[inline(never)]
    fn cut_block(&self, line_offset: u64, block: &[u8], into: &mut PaddedBlock) -> BlockEnd
        requires { HasRoom line_offset 0 (length block.now) }
        ensures cut { IsCutPart self.now.terminator self.now.selected.now line_offset block.now
            result.line_offset [] (take result.at into.new) }
        ensures near { result.at ≤ length block.now }
        ensures bound { result.line_offset ≤ line_offset + length block.now }
    {
        let mut line = Line {
            start: 0,
            line_offset,
            at: 0,
        };
        let mut from = 0;
        while block.len() - from >= 80 {
            let mask = mask_at::<64, u8>(self.terminator, block, from);
            if mask != 0 {
                line = self.cut_chunk(block, from, mask, line, into);
            }
            from += 64;
        }
        self.cut_tail(block, line, into)
    }
}

/// The selection, how many bytes of the unfinished line were read, and a buffer for the output of a block.
#[derive(Drop)]
pub(crate) struct ByteCut<'a> {
    selection: Selection<'a>,
    line_offset: u64,
    buffer: PaddedBlock,
}

impl<'a> ByteCut<'a> {
    /// The tool for a job, at the start of an input.
    pub(crate) fn new<A: Allocator>(job: &'a CutJob<A>, terminator: u8) -> ByteCut<'a>
        ensures selected { result.selection.selected.now ≡ job.now.list }
        ensures terminator { result.selection.terminator ≡ terminator }
        ensures start { result.line_offset ≡ 0 }
    {
        ByteCut {
            selection: Selection {
                selected: job.list.intervals(),
                shuffles: LineShuffles::of(&job.list),
                terminator,
            },
            line_offset: 0,
            buffer: [0; PADDED],
        }
    }
}

impl<'a> BlockFilter for ByteCut<'a> {
    ghost use Rattle.std.specs.Prelude.{◌≡◌};
    ghost use Rattle.ptflow.specs.Private.Cut.CutFrom.{cut_list_from};

    ghost rest = { λ t. cut_list_from t.selection.terminator t.selection.selected.now t.line_offset };

    ghost counted = { λ t. t.line_offset };

    ghost IsUnchanged = { λ s t. (t.selection.selected.now ≡ s.selection.selected.now)
        × (t.selection.terminator ≡ s.selection.terminator) };

    fn process_block<W: Sink>(&mut self, block: &[u8], out: &mut Out<W>) -> Result<(), WriteFault> {
        let end = self
            .selection
            .cut_block(self.line_offset, block, &mut self.buffer);
        out.push_block(&self.buffer[..end.at])?;
        self.line_offset = end.line_offset;
        Ok(())
    }

    // Writes the terminator of the last line if that line is unfinished.
    fn finish<W: Sink>(&self, out: &mut Out<W>) -> Result<(), WriteFault> {
        if self.line_offset == 0 {
            return Ok(());
        }
        out.push(&[self.selection.terminator])
    }
}
