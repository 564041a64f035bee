//! The merge of two inputs (`Merge`), on which `comm` and `join` are built: its start, its steps (`Step`), which
//! select the current line with the least key, and the calls that advance an input. It can also go on after lines that
//! were merged in the blocks of the readers.
//!
//! `cursor` is one input of the merge, with its order check; `writer` is what a tool writes; `block_merge` merges lines
//! in the blocks of the readers (`block_lines`); `four_slots` manages the store slots that both inputs use.

ghost use Rattle.std.specs.Prelude.{◌≡◌, None, false, [], OnOk, IfOk, IfErr};
ghost use Rattle.std.specs.Ordering.{is_gt};
ghost use Rattle.ptlines.specs.Calls.Outputs.{PushEffect};
ghost use Rattle.ptlines.specs.Calls.Slots.{line};
ghost use Rattle.ptmerge.specs.Private.WriteAndAdvance.{WriteThenAdvancePost, AdvancePre};
ghost use Rattle.ptmerge.specs.Calls.Cursor.{NextPost};
ghost use Rattle.ptmerge.specs.Calls.Sides.{both};
ghost use Rattle.ptmerge.specs.Calls.Sides.{other};
ghost use Rattle.ptmerge.specs.Calls.MergeSteps.{merge_inputs, AreValidCursors, IsReaderOf, StepPost, StartOkPost};
ghost use Rattle.ptmerge.specs.Calls.MergeSteps.{StartErrPost};
ghost use Rattle.ptmerge.specs.Calls.MergeSteps.{previous_key};
ghost use Rattle.ptmerge.specs.Private.BlockLines.{CanMerge};
ghost use Rattle.ptmerge.specs.Private.Passed.{AreResumed, CanResume, ResumePost};
ghost use Rattle.ptmerge.specs.declared.key_order.Side.{Side as SideType};

pub(crate) mod block_lines;
pub(crate) mod block_merge;
pub(crate) mod cursor;
pub(crate) mod four_slots;
pub(crate) mod writer;

use crate::faults::MergeFault;
use crate::key_order::Side::{First, Second};
use crate::key_order::{KeyOrder, Side};
use crate::merging::block_lines::{BlockLine, BlockRun};
use crate::merging::cursor::CursorStatus::{Disorder, Ended, Head};
use crate::merging::cursor::{Reached, Sorted};
use crate::merging::four_slots::ensure_four_slots;
use ptlines::{LineReader, Out, Sink, Source, Store};
use std::alloc::Allocator;
use std::cmp::Ordering;

/// The input whose current line has the least key, or the reason why no line is next.
#[derive(Clone, Copy, Debug, PartialEq, Eq)]
pub enum Step {
    /// The first input's current line has the least key.
    First,
    /// The second input's current line has the least key.
    Second,
    /// The current lines of both inputs have the least key.
    Both,
    /// Both inputs are at their end.
    End,
    /// This input is out of order at this line, counted from 1, and no current line has a key up to the last key that
    /// it has in order. If both inputs are out of order, the one whose last key is less is reported, or the first one
    /// if their last keys are equal.
    Stop(Side, u64),
}

/// A merge of two sorted inputs. The current line of each input is in one of the slots 0 to 3 of the store. After
/// `start`, the caller must leave these slots unchanged, pass each input's own reader to the calls for this input, and
/// make no call after a fault.
/// The clauses `valid_cursors` and `own_reader` are the conditions of the next calls. They follow from the other
/// clauses, and are stated so that no caller has to derive them.
#[derive(Drop)]
pub struct Merge<K: KeyOrder> {
    order: K,
    first: Sorted,
    second: Sorted,
}

impl<K: KeyOrder> Merge<K> {
    ghost use Rattle.ptmerge.specs.declared.merging.cursor.CursorStatus.TheVariants as status_is;

    /// Reads the first line of each input. Adds the slots 0 to 3 to the store if they are missing; all other slots stay
    /// unchanged.
    /// # Errors
    /// `Read` if a read failed; `Memory` if the store could not grow, and `Store::denied` is then true.
    pub fn start<A: Allocator + Copy, S: Source, R: Source>(
        order: K,
        first: &mut LineReader<S, R>,
        second: &mut LineReader<S, R>,
        store: &mut Store<A>,
    ) -> Result<Self, MergeFault>
        requires first { first.old.fault ≡ None }
        requires second { second.old.fault ≡ None }
        ensures starts { let was = merge_inputs first.old second.old store.old in
            let is = merge_inputs first.new second.new store.new in
            IfOk result (λ m. StartOkPost (K.key_of order) (K.order order) (both m.first m.second) was is) }
        ensures fails { let was = merge_inputs first.old second.old store.old in
            let is = merge_inputs first.new second.new store.new in
            IfErr result (λ fault. StartErrPost (K.key_of order) (K.order order) was is fault) }
        ensures valid_cursors { IfOk result (λ m. AreValidCursors (K.key_of m.order) m.first m.second store.new) }
        ensures own_reader { IfOk result (λ m. IsReaderOf m.first first.new × IsReaderOf m.second second.new) }
        ensures order { IfOk result (λ m. m.order ≡ order) }
    {
        let mut one = Sorted::unread(Side::First);
        let mut two = Sorted::unread(Side::Second);
        ensure_four_slots(store).map_err(|_| MergeFault::Memory)?;
        one.next(&order, Side::First, first, store)?;
        two.next(&order, Side::Second, second, store)?;
        Ok(Merge {
            order,
            first: one,
            second: two,
        })
    }

    /// Returns the input with the least current key, both inputs if their keys are equal, or the reason why no line is
    /// next.
    #[inline(always)]
    pub fn step<A: Allocator + Copy>(&self, store: &Store<A>) -> Step
        requires { AreValidCursors (K.key_of self.now.order) self.now.first self.now.second store.now }
        ensures { let cursor = both self.now.first self.now.second in
            StepPost (K.order self.now.order) (K.key_of self.now.order) cursor store.now result }
    {
        match self.first.status {
            Head => match self.second.status {
                Head => match self
                    .order
                    .cmp(self.key(First, store), self.key(Second, store))
                {
                    Ordering::Less => Step::First,
                    Ordering::Equal => Step::Both,
                    Ordering::Greater => Step::Second,
                },
                Disorder(number) if self.is_past(self.key(First, store), Second, store) => {
                    Step::Stop(Second, number)
                }
                _ => Step::First,
            },
            Disorder(number) => match self.second.status {
                Head if !self.is_past(self.key(Second, store), First, store) => Step::Second,
                Disorder(other) if self.is_past(self.previous_key(First, store), Second, store) => {
                    Step::Stop(Second, other)
                }
                _ => Step::Stop(First, number),
            },
            Ended => match self.second.status {
                Head => Step::Second,
                Disorder(number) => Step::Stop(Second, number),
                Ended => Step::End,
            },
        }
    }

    /// Returns the current line of an input.
    #[inline(always)]
    pub fn head<'a, A: Allocator + Copy>(&self, side: Side, store: &'a Store<A>) -> &'a [u8]
        requires valid_cursors { AreValidCursors (K.key_of self.now.order) self.now.first self.now.second store.now }
        requires status_is { (both self.now.first self.now.second side).status ≡ status_is.Head }
        ensures { result.now ≡ line store.now (both self.now.first self.now.second side).current_slot }
    {
        store.line(self.cursor(side).current_slot)
    }

    /// Reads the next line of an input, which becomes its current line. `reader` must be the reader of this input.
    /// # Errors
    /// `Read` if a read failed; `Memory` if the store could not grow, and `Store::denied` is then true.
    #[inline(always)]
    pub fn advance<A: Allocator + Copy, S: Source, R: Source>(
        &mut self,
        side: Side,
        reader: &mut LineReader<S, R>,
        store: &mut Store<A>,
    ) -> Result<(), MergeFault>
        requires valid_cursors { AreValidCursors (K.key_of self.old.order) self.old.first self.old.second store.old }
        requires status_is { (both self.old.first self.old.second side).status ≡ status_is.Head }
        requires own_reader { IsReaderOf (both self.old.first self.old.second side) reader.old }
        ensures moves { let was = both self.old.first self.old.second side in
            let is = both self.new.first self.new.second side in
            let key = K.key_of self.old.order side in
            NextPost key (K.order self.old.order) side was is reader.old reader.new store.old store.new result }
        ensures others { let was = both self.old.first self.old.second (other side) in
            both self.new.first self.new.second (other side) ≡ was }
        ensures order { self.new.order ≡ self.old.order }
        ensures valid_cursors { let key = K.key_of self.new.order in
            OnOk result (AreValidCursors key self.new.first self.new.second store.new) }
        ensures own_reader { OnOk result (IsReaderOf (both self.new.first self.new.second side) reader.new) }
    {
        match side {
            Side::First => self.first.next(&self.order, side, reader, store),
            Side::Second => self.second.next(&self.order, side, reader, store),
        }
    }

    // Returns the order of the keys.
    #[inline(always)]
    pub(crate) fn order(&self) -> &K
        ensures { result.now ≡ self.now.order }
    {
        &self.order
    }

    // Returns the current line of an input with the bytes in its block after this line.
    #[inline(always)]
    pub(crate) fn block_line<'a, A: Allocator + Copy, S: Source, R: Source>(
        &self,
        side: Side,
        reader: &'a LineReader<S, R>,
        store: &'a Store<A>,
    ) -> BlockLine<'a>
        requires valid_cursors { AreValidCursors (K.key_of self.now.order) self.now.first self.now.second store.now }
        requires status_is { (both self.now.first self.now.second side).status ≡ status_is.Head }
        ensures head { result.head.now ≡ line store.now (both self.now.first self.now.second side).current_slot }
        ensures rest { result.rest.now ≡ reader.now.buffered }
        ensures begins { CanMerge (K.key_of self.now.order side) result }
    {
        BlockLine {
            head: self.head(side, store),
            key: self.key(side, store),
            rest: reader.buffered(),
            passed: 0,
            same: false,
        }
    }

    // Checks whether the current line of an input is at least as long as what follows it in its block. (If the input
    // has ended, both are empty.)
    #[inline(always)]
    pub(crate) fn is_long<A: Allocator + Copy, S: Source, R: Source>(
        &self,
        side: Side,
        reader: &LineReader<S, R>,
        store: &Store<A>,
    ) -> bool
        requires { AreValidCursors (K.key_of self.now.order) self.now.first self.now.second store.now }
    {
        let slot = self.cursor(side).current_slot;
        store.line(slot).len() >= reader.buffered().len()
    }

    // Makes the lines reached in both blocks the current ones, and consumes the bytes up to them.
    #[inline(always)]
    pub(crate) fn resume_both<A: Allocator + Copy, S: Source, R: Source>(
        &mut self,
        run: BlockRun,
        first: &mut LineReader<S, R>,
        second: &mut LineReader<S, R>,
        store: &mut Store<A>,
    ) -> Result<(), MergeFault>
        requires valid_cursors { AreValidCursors (K.key_of self.old.order) self.old.first self.old.second store.old }
        requires fits { (side : SideType) → CanResume (both run.first run.second side)
            (both self.old.first self.old.second side) (both first.old second.old side) }
        ensures resumes { AreResumed run (both self.old.first self.old.second) (both self.new.first self.new.second)
            (both first.old second.old) (both first.new second.new) store.old store.new result }
        ensures order { self.new.order ≡ self.old.order }
        ensures valid_cursors { let key = K.key_of self.new.order in
            OnOk result (AreValidCursors key self.new.first self.new.second store.new) }
    {
        self.resume(First, run.first, first, store)?;
        self.resume(Second, run.second, second, store)
    }

    // Makes the line reached in the block of an input its current line, and consumes the bytes up to its terminator.
    #[inline(always)]
    pub(crate) fn resume<A: Allocator + Copy, S: Source, R: Source>(
        &mut self,
        side: Side,
        at: Reached,
        reader: &mut LineReader<S, R>,
        store: &mut Store<A>,
    ) -> Result<(), MergeFault>
        requires valid_cursors { AreValidCursors (K.key_of self.old.order) self.old.first self.old.second store.old }
        requires fits { CanResume at (both self.old.first self.old.second side) reader.old }
        ensures resumes { let was = both self.old.first self.old.second side in
            let is = both self.new.first self.new.second side in
            ResumePost at was is reader.old reader.new store.old store.new result }
        ensures others { let was = both self.old.first self.old.second (other side) in
            both self.new.first self.new.second (other side) ≡ was }
        ensures order { self.new.order ≡ self.old.order }
        ensures valid_cursors { let key = K.key_of self.new.order in
            OnOk result (AreValidCursors key self.new.first self.new.second store.new) }
    {
        match side {
            Side::First => self.first.resume(&self.order, side, at, reader, store),
            Side::Second => self.second.resume(&self.order, side, at, reader, store),
        }
    }

    // Returns the cursor of an input.
    #[inline(always)]
    fn cursor(&self, side: Side) -> &Sorted
        ensures { result.now ≡ both self.now.first self.now.second side }
    {
        match side {
            Side::First => &self.first,
            Side::Second => &self.second,
        }
    }

    // Returns the key of an input's current line.
    #[inline(always)]
    pub(crate) fn key<'a, A: Allocator + Copy>(&self, side: Side, store: &'a Store<A>) -> &'a [u8]
        requires valid_cursors { AreValidCursors (K.key_of self.now.order) self.now.first self.now.second store.now }
        requires status_is { (both self.now.first self.now.second side).status ≡ status_is.Head }
        ensures { let cursor = both self.now.first self.now.second side in
            result.now ≡ K.key_of self.now.order side (line store.now cursor.current_slot) }
    {
        let cursor = self.cursor(side);
        self.order
            .key(side, cursor.key, store.line(cursor.current_slot))
    }

    // Returns the key of an input's previous line. Its span is not stored, so the key is searched for again.
    #[inline(always)]
    fn previous_key<'a, A: Allocator + Copy>(&self, side: Side, store: &'a Store<A>) -> &'a [u8]
        requires { AreValidCursors (K.key_of self.now.order) self.now.first self.now.second store.now }
        ensures { let cursor = both self.now.first self.now.second side in
            result.now ≡ K.key_of self.now.order side (line store.now cursor.previous_slot) }
    {
        let line = store.line(self.cursor(side).previous_slot);
        self.order.key(side, self.order.span(side, line), line)
    }

    // Checks whether a key is greater than the last key in order of an input.
    #[inline(always)]
    fn is_past<A: Allocator + Copy>(&self, key: &[u8], side: Side, store: &Store<A>) -> bool
        requires { AreValidCursors (K.key_of self.now.order) self.now.first self.now.second store.now }
        ensures { let cursor = both self.now.first self.now.second in
            let last = previous_key (K.key_of self.now.order) cursor store.now side in
            result ≡ is_gt (K.order self.now.order key.now last) }
    {
        self.order.cmp(key, self.previous_key(side, store)).is_gt()
    }

    // Returns the slot of an input's previous line.
    #[inline(always)]
    pub(crate) fn previous_slot_of(&self, side: Side) -> usize
        ensures { result ≡ (both self.now.first self.now.second side).previous_slot }
    {
        self.cursor(side).previous_slot
    }

    // Checks whether an input is at a line with the same key as its previous line.
    #[inline(always)]
    pub(crate) fn has_same_key(&self, side: Side) -> bool
        ensures { result ≡ (both self.now.first self.now.second side).same }
    {
        self.cursor(side).same
    }

    // Writes out the buffered output if the next line may not be available without blocking, and then advances the
    // input.
    #[inline(always)]
    pub(crate) fn write_out_and_advance<A: Allocator + Copy, S: Source, R: Source, W: Sink>(
        &mut self,
        side: Side,
        reader: &mut LineReader<S, R>,
        store: &mut Store<A>,
        out: &mut Out<W>,
    ) -> Result<(), MergeFault>
        requires status_is { let key = K.key_of self.old.order in
            AdvancePre key side self.old.first self.old.second reader.old store.old }
        requires clean { out.old.write_failed ≡ false }
        ensures written_out { PushEffect out.old out.new [] }
        ensures advances { let key = K.key_of self.old.order in
            WriteThenAdvancePost key (K.order self.old.order) side self.old.first self.old.second
            self.new.first self.new.second reader.old reader.new store.old store.new out.new result }
        ensures order { self.new.order ≡ self.old.order }
    {
        reader.write_out_before_blocking(out)?;
        self.advance(side, reader, store)
    }
}
