//! `LineReader`, which reads an input line by line or block by block. All tools read through it. With
//! `write_out_before_blocking`, buffered output is written before a read that may block.

ghost use Rattle.std.specs.Prelude.{◌≡◌, ◌<◌, ◌≤◌, ℕ, true, false, None, [], IfSome, IfOk, OnOk, OnErr, length, take};
ghost use Rattle.std.specs.Prelude.{drop, if◌then◌else◌};
ghost use Rattle.memchr.specs.Find.{IsFirstByte, is_byte};
ghost use Rattle.ptlines.specs.Calls.Outputs.{IsSameOrWrittenOut, PushPost};
ghost use Rattle.std.specs.Borrow.{sem};
ghost use Rattle.std.specs.Io.KnownBytes.{IsAtEnd};
ghost use Rattle.std.specs.Io.BufRead.{Rests};
ghost use Rattle.ptlines.specs.Private.InputSource.{input_state};
ghost use Rattle.ptlines.specs.Private.InputSource.{is_unopened_source};
ghost use Rattle.ptlines.specs.Sources.{IsFresh, unopened_state};
ghost use Rattle.ptlines.specs.Private.Sources.{PullPost};
ghost use Rattle.ptlines.specs.Private.Readers.{HasMorePost};
ghost use Rattle.ptlines.specs.Calls.Readers.{IsSound};
ghost use Rattle.ptlines.specs.Readers.{new_reader};
ghost use Rattle.ptlines.specs.Private.ReadLine.{FillPre, MoveToSlotPre, MoveToSlotPost};
ghost use Rattle.ptlines.specs.Calls.ReadLine.{FillLine, FillPost};
ghost use Rattle.ptlines.specs.Calls.ReadLine.{BlockPost};
ghost use Rattle.ptlines.specs.contracts.reader.LineReader.{the_row};

use crate::out::{Out, WriteFault};
use crate::scan::{find_byte, find_in_64};
use crate::sink::{Failed, Sink};
use crate::sizes::{BLOCK, PADDED, PaddedBlock};
use crate::source::{InputSource, Source};
use crate::store::{LineFault, Store};
use std::alloc::Allocator;
use std::marker::Model;

/// Reads an input line by line ([`fill`](LineReader::fill)) or block by block ([`block`](LineReader::block) and
/// [`consume`](LineReader::consume)), through a block of 8,192 bytes. A line ends with newline, or with byte 0 after
/// [`set_ending`](LineReader::set_ending). A last piece without that byte (an incomplete line) is a line too, unless it
/// is empty. No call reads more than one block ahead: at most 8,192 bytes were read and not consumed.
#[derive(Drop)]
pub struct LineReader<S: Source, R: Source> {
    input: InputSource<S, R>,
    // Only `block[start..end]` is input. The 64 bytes after the first 8,192 allow a vector of up to 64 bytes to be
    // loaded from any index of the block.
    block: PaddedBlock,
    start: usize,
    end: usize,
    pulled: u64,
    eof: bool,
    fault: Option<LineFault>,
    terminator: u8,
}

impl<S: Source, R: Source> Model for LineReader<S, R> {
    ghost use Rattle.std.specs.Prelude.{slice_range};
    ghost use Rattle.ptlines.specs.Readers.{Reader, reader_of};
    ghost use Rattle.ptlines.specs.Private.Readers.{IsValidReader};

    ghost Value = { Reader };

    ghost use Rattle.ptlines.specs.Private.InputSource.{input_state};
    ghost use Rattle.ptlines.specs.Private.InputSource.{is_unopened_source};

    ghost view = { λ r. reader_of (input_state S.state R.state r.input) (slice_range r.block r.start r.end)
        r.pulled r.fault (is_unopened_source r.input) r.terminator };

    ghost invariant = { λ r. IsValidReader r.start r.end r.eof
        (reader_of (input_state S.state R.state r.input) (slice_range r.block r.start r.end)
        r.pulled r.fault (is_unopened_source r.input) r.terminator) };
}

// Reads into the first 8,192 bytes of a block, and not into the 64 after them. A file that could not be opened fails.
fn read_block<S: Source, R: Source>(
    input: &mut InputSource<S, R>,
    block: &mut PaddedBlock,
) -> Result<usize, Failed>
    ensures pulled { PullPost (input_state S.state R.state input.old) (input_state S.state R.state input.new)
        (take BLOCK block.new) result }
    ensures refused { is_unopened_source input.new ≡ is_unopened_source input.old }
    ensures few { IfOk result (λ count. count ≤ BLOCK) }
{
    let front = &mut block[..BLOCK];
    match input {
        InputSource::Standard(source) => source.pull(front),
        InputSource::File(source) => source.pull(front),
        InputSource::Unopened => Err(Failed),
    }
}

impl<S: Source, R: Source> LineReader<S, R> {
    fn from_input(input: InputSource<S, R>) -> Self
        requires { is_unopened_source input ≡ false → IsFresh (input_state S.state R.state input) }
        ensures { result ≡ new_reader (input_state S.state R.state input) (is_unopened_source input) }
    {
        LineReader {
            input,
            block: [0; PADDED],
            start: 0,
            end: 0,
            pulled: 0,
            eof: false,
            fault: None,
            terminator: b'\n',
        }
    }

    /// Creates a reader of standard input. The source must be new: it has neither reached its end nor failed.
    pub fn standard(source: S) -> Self
        requires { IsFresh (S.state source) }
        ensures { result ≡ new_reader (S.state source) false }
    {
        Self::from_input(InputSource::Standard(source))
    }

    /// Creates a reader of a file. The source must be new: it has neither reached its end nor failed.
    pub fn file(source: R) -> Self
        requires { IsFresh (R.state source) }
        ensures { result ≡ new_reader (R.state source) false }
    {
        Self::from_input(InputSource::File(source))
    }

    /// Creates the reader of a file that could not be opened. It has no source: a call that reads reports `Read`.
    pub fn refused() -> Self
        ensures { result ≡ new_reader unopened_state true }
    {
        Self::from_input(InputSource::Unopened)
    }

    /// Returns whether the file could not be opened.
    pub fn is_refused(&self) -> bool
        ensures refused { result ≡ self.now.refused }
        ensures sound { IsSound self.now }
    {
        matches!(&self.input, InputSource::Unopened)
    }

    /// Sets the terminator for all further lines: byte 0 if `zero` is true, otherwise newline.
    // The clause `is_sound` follows from the other two. Callers that set many readers in a loop use it.
    pub fn set_ending(&mut self, zero: bool)
        ensures set { self.new ≡ record self.old { terminator = if zero then 0 else 10 } }
        ensures was_sound { IsSound self.old }
        ensures is_sound { IsSound self.new }
    {
        self.terminator = if zero { 0 } else { b'\n' };
    }

    /// Returns the terminator, the byte that ends a line.
    pub fn terminator(&self) -> u8
        ensures { result ≡ self.now.terminator }
    {
        self.terminator
    }

    /// Returns the bytes that were read and not yet consumed. Nothing is read, so an empty slice does not mean the end
    /// of input.
    #[inline(always)]
    pub fn buffered(&self) -> &[u8]
        ensures buffered { result.now ≡ self.now.buffered }
        ensures sound { IsSound self.now }
    {
        &self.block[self.start..self.end]
    }

    // Returns the fault that an earlier call has reported, if any.
    #[inline(always)]
    fn fault(&self) -> Option<LineFault>
        ensures fault { result ≡ self.now.fault }
        ensures sound { IsSound self.now }
    {
        self.fault
    }

    /// Returns whether a read has found the end of input. Nothing is read, so false does not mean that more bytes
    /// follow.
    #[inline(always)]
    pub fn at_eof(&self) -> bool
        ensures eof { result ≡ self.now.eof }
        ensures end { self.now.eof ≡ true → IsAtEnd self.now.left }
    {
        self.eof
    }

    /// Consumes the first `count` of the bytes that [`buffered`](LineReader::buffered) returns.
    pub fn consume(&mut self, count: usize)
        requires { count ≤ length self.old.buffered }
        ensures consumed { self.new ≡ record self.old { buffered = drop count self.old.buffered } }
        ensures is_sound { IsSound self.new }
    {
        self.start += count;
    }

    // Makes sure that bytes are buffered, by one read if there are none. Returns false at the end of input.
    fn has_more(&mut self) -> Result<bool, LineFault>
        requires { self.old.fault ≡ None }
        ensures refills { HasMorePost self.old self.new result }
        ensures buffered { 0 < length self.old.buffered → self.new ≡ self.old }
        ensures sound { IsSound self.new }
    {
        if !self.buffered().is_empty() {
            return Ok(true);
        }
        if self.at_eof() {
            return Ok(false);
        }
        // A source that fails may still have written to the block.
        self.start = 0;
        self.end = 0;
        match read_block(&mut self.input, &mut self.block) {
            Ok(count) => {
                if count == 0 {
                    self.eof = true;
                    return Ok(false);
                }
                self.end = count;
                self.pulled += count as u64;
                if self.pulled >= 1 << 63 {
                    self.fault = Some(LineFault::Read);
                    return Err(LineFault::Read);
                }
                Ok(true)
            }
            Err(_) => {
                self.fault = Some(LineFault::Read);
                Err(LineFault::Read)
            }
        }
    }

    // Moves the first `count` bytes of the block to a slot.
    #[inline(always)]
    fn move_to_slot<A: Allocator + Copy>(
        &mut self,
        store: &mut Store<A>,
        slot: usize,
        count: usize,
    ) -> Result<(), LineFault>
        requires { MoveToSlotPre self.old store.old slot count }
        ensures moves { MoveToSlotPost self.old self.new store.old store.new slot count result }
        ensures slots { length store.new.lines ≡ length store.old.lines }
        ensures sound { IsSound self.new }
    {
        let from = self.start;
        let to = from + count;
        match store.append(slot, &self.block[from..to]) {
            Ok(()) => {
                self.start = to;
                Ok(())
            }
            Err(fault) => {
                self.fault = Some(fault);
                Err(fault)
            }
        }
    }

    // Copies the next line to a slot at once if its terminator is among the next 64 bytes. Otherwise returns false, and
    // nothing was done.
    #[inline(always)]
    fn fill_short<A: Allocator + Copy>(&mut self, store: &mut Store<A>, slot: usize) -> bool
        requires { FillPre self.old store.old slot }
        ensures line { result ≡ true → FillLine self.old self.new store.old store.new slot }
        ensures none { result ≡ false → (self.new ≡ self.old) × (store.new ≡ store.old) }
        ensures slots { length store.new.lines ≡ length store.old.lines }
        ensures sound { IsSound self.new }
    {
        let front = &self.block[self.start..];
        let Some(size) = find_in_64(self.terminator, front) else {
            return false;
        };
        let at = self.start + size;
        if at >= self.end {
            return false;
        }
        store.set_short_line(slot, front, size);
        self.start = at + 1;
        true
    }

    // Copies the next line to a slot piece by piece, wherever its terminator is. It has the contract of `fill`. Out
    // of line (`join`).
    #[inline(never)]
    fn fill_slow<A: Allocator + Copy>(
        &mut self,
        store: &mut Store<A>,
        slot: usize,
    ) -> Result<bool, LineFault>
        requires { FillPre self.old store.old slot }
        ensures fills { FillPost self.old self.new store.old store.new slot result }
        ensures slots { length store.new.lines ≡ length store.old.lines }
        ensures sound { IsSound self.new }
    {
        store.clear(slot);
        'pieces: loop {
            if !self.has_more()? {
                return Ok(!store.line(slot).is_empty());
            }
            match find_byte(self.terminator(), self.buffered()) {
                Some(at) => {
                    self.move_to_slot(store, slot, at)?;
                    self.consume(1);
                    return Ok(true);
                }
                None => {
                    let count = self.buffered().len();
                    self.move_to_slot(store, slot, count)?;
                }
            }
        }
    }

    /// Copies the next line, without its terminator, to a slot of the store. Returns false if there is no further line;
    /// the slot is then empty. It reads as often as the line needs: up to its terminator or the end of input.
    /// # Errors
    /// `Read` if a read failed, or if 2^63 bytes or more came from the source; `Memory` if the slot could not grow
    /// ([`denied`](Store::denied) is then true). In both cases the slot has a prefix of the line, and all later calls
    /// report the same fault and do nothing.
    // The clause `slots` follows from the others. Callers need it at every exit.
    pub fn fill<A: Allocator + Copy>(
        &mut self,
        store: &mut Store<A>,
        slot: usize,
    ) -> Result<bool, LineFault>
        requires { slot < length store.old.lines }
        ensures fills { self.old.fault ≡ None → FillPost self.old self.new store.old store.new slot result }
        ensures slots { length store.new.lines ≡ length store.old.lines }
        ensures stays { IfSome self.old.fault
            (λ fault. (result ≡ Err fault) × (self.new ≡ self.old) × (store.new ≡ store.old)) }
        ensures was_sound { IsSound self.old }
        ensures is_sound { IsSound self.new }
    {
        if let Some(fault) = self.fault() {
            return Err(fault);
        }
        if self.fill_short(store, slot) {
            return Ok(true);
        }
        self.fill_slow(store, slot)
    }

    // Returns whether a complete line is buffered.
    fn has_buffered_line(&self) -> bool
        ensures { result ≡ false → IsFirstByte (is_byte self.now.terminator) self.now.buffered None }
    {
        find_byte(self.terminator(), self.buffered()).is_some()
    }

    /// Writes the buffered output to its sink if [`fill`](LineReader::fill) may block for the next line: no complete
    /// line is buffered here, the end of input was not reached, and the last read did not fill the block, or there was
    /// none yet. So the program never waits for a terminal or a pipe while it holds back output. If reads fill the
    /// block, as those of files do, nothing is written.
    ///
    /// Output may still be held back in two cases: if a read fills the block and no more input arrives for long, and if
    /// `fill` has begun a line whose terminator arrives late. The contract states that the output is written or nothing
    /// is done; when it is written is tested and not proved, as the model of a reader does not have the size of the
    /// last read.
    /// # Errors
    /// `Write` if a write failed.
    #[inline(always)]
    pub fn write_out_before_blocking<W: Sink>(&self, out: &mut Out<W>) -> Result<(), WriteFault>
        requires { out.old.write_failed ≡ false }
        ensures pushed { PushPost out.old out.new [] result }
        ensures written_out { OnOk result (IsSameOrWrittenOut out.old out.new) }
        ensures eof { self.now.eof ≡ true → out.new ≡ out.old }
        ensures sound { IsSound self.now }
    {
        if self.end == BLOCK || self.at_eof() {
            return Ok(());
        }
        self.write_out_unless_line(out)
    }

    // Writes the buffered output, unless a complete line is buffered in the reader.
    fn write_out_unless_line<W: Sink>(&self, out: &mut Out<W>) -> Result<(), WriteFault>
        requires { out.old.write_failed ≡ false }
        ensures pushed { PushPost out.old out.new [] result }
        ensures written_out { OnOk result (IsSameOrWrittenOut out.old out.new) }
    {
        if self.has_buffered_line() {
            return Ok(());
        }
        out.write_out()
    }

    /// Returns the bytes that were read and not yet consumed; if there are none, one read is made first. An empty slice
    /// means the end of input. To move past them, call [`consume`](LineReader::consume).
    /// # Errors
    /// `Read` if the read failed, or if 2^63 bytes or more came from the source. All later calls report the same fault
    /// and read nothing.
    pub fn block(&mut self) -> Result<&[u8], LineFault>
        ensures* after { sem 𝓛 (Rests (the_row S.row R.row S.Source R.Source) self.entry
            (λ new. BlockPost self.old new result)) }
    {
        if let Some(fault) = self.fault() {
            return Err(fault);
        }
        self.has_more()?;
        Ok(self.buffered())
    }
}
