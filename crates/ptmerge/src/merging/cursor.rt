//! One input of a merge (`Sorted`): its current and previous line, its status, the step to the next line, which checks
//! that its keys are in order, and how it goes on after lines that were merged in the block of its reader (`Reached`).

ghost use Rattle.std.specs.Prelude.{◌≡◌, ◌<◌, length, if◌then◌else◌, OnOk};
ghost use Rattle.ptlines.specs.Calls.Readers.{IsSound};
ghost use Rattle.ptmerge.specs.Calls.Cursor.{NextPost, initial_cursor};
ghost use Rattle.ptmerge.specs.Calls.KeySpan.{IsValidCursor};
ghost use Rattle.ptmerge.specs.Private.Passed.{CanResume, ResumePost};
ghost use Rattle.ptmerge.specs.Calls.MergeSteps.{NextPre};

use crate::faults::MergeFault;
use crate::key_order::{KeyOrder, Side, Span};
use ptlines::{LineFault, LineReader, Source, Store};
use std::alloc::Allocator;

/// The state of an input: at a line, at its end, or at the line with this number, whose key is less than the previous
/// key.
#[derive(Clone, Copy)]
pub enum CursorStatus {
    Head,
    Ended,
    Disorder(u64),
}

// An input of a merge, with its order check. `same` is true if the current line has the key of the previous one,
// `current_slot` and `previous_slot` are the slots of these two lines, `number` is the count of lines read, and `key`
// is the span of the key in the current line. The reader is passed to each call that reads. (`same` comes first for
// speed: the compiler splits the first field of a merge, since a result of `Merge::start` keeps a fault in the same
// bytes.)
#[derive(Clone, Copy, Drop)]
pub struct Sorted {
    pub same: bool,
    pub current_slot: usize,
    pub previous_slot: usize,
    pub number: u64,
    pub status: CursorStatus,
    pub key: Span,
}

// How many lines of an input were passed in its block, the length of the line reached, and how many bytes of the block
// follow it.
#[derive(Clone, Copy)]
pub struct Reached {
    pub passed: usize,
    pub size: usize,
    pub left: usize,
}

// Returns the status at a line, counted from 1, that is not the first.
#[inline(always)]
fn status_at(number: u64, is_disordered: bool) -> CursorStatus
    ensures { result ≡ if is_disordered then CursorStatus.Disorder number else CursorStatus.Head }
{
    if is_disordered {
        CursorStatus::Disorder(number)
    } else {
        CursorStatus::Head
    }
}

impl Sorted {
    // Returns the state of an input before its first line.
    pub fn unread(side: Side) -> Sorted
        ensures { result ≡ initial_cursor side }
    {
        let previous_slot = match side {
            Side::First => 0,
            Side::Second => 2,
        };
        Sorted {
            current_slot: previous_slot + 1,
            previous_slot,
            number: 0,
            status: CursorStatus::Ended,
            same: false,
            key: Span { start: 0, end: 0 },
        }
    }

    // Reads the next line, compares its key with the previous key, and makes it the current line. `was_sound` is the
    // invariant of the reader, which its caller does not know before the first line.
    #[inline(always)]
    pub fn next<K: KeyOrder, A: Allocator + Copy, S: Source, R: Source>(
        &mut self,
        order: &K,
        side: Side,
        reader: &mut LineReader<S, R>,
        store: &mut Store<A>,
    ) -> Result<(), MergeFault>
        requires { NextPre (K.key_of order.now side) self.old reader.old store.old }
        ensures moves { let key = K.key_of order.now side in
            NextPost key (K.order order.now) side self.old self.new reader.old reader.new store.old store.new result }
        ensures slots { length store.new.lines ≡ length store.old.lines }
        ensures cursor_valid { OnOk result (IsValidCursor (K.key_of order.now side) self.new store.new) }
        ensures was_sound { IsSound reader.old }
    {
        std::mem::swap(&mut self.current_slot, &mut self.previous_slot);
        match reader.fill(store, self.current_slot) {
            Ok(true) => {}
            Ok(false) => {
                self.status = CursorStatus::Ended;
                self.same = false;
                return Ok(());
            }
            Err(LineFault::Read) => return Err(MergeFault::Read(side)),
            Err(LineFault::Memory) => return Err(MergeFault::Memory),
        }
        let last_span = self.key;
        self.key = order.span(side, store.line(self.current_slot));
        self.number += 1;
        if self.number == 1 {
            self.status = CursorStatus::Head;
            self.same = false;
            return Ok(());
        }
        let last = order.key(side, last_span, store.line(self.previous_slot));
        let head = order.key(side, self.key, store.line(self.current_slot));
        let ordering = order.cmp(last, head);
        self.status = status_at(self.number, ordering.is_gt());
        self.same = ordering.is_eq();
        Ok(())
    }

    // Makes the line reached in the block of the reader the current line, and consumes the bytes up to its terminator.
    // If lines were passed, it is copied to the slot; if that fails, nothing is consumed. `same` and the slot of the
    // previous line are those of the line before these, so no call may rely on them until `next` sets both.
    #[inline(always)]
    pub fn resume<K: KeyOrder, A: Allocator + Copy, S: Source, R: Source>(
        &mut self,
        order: &K,
        side: Side,
        at: Reached,
        reader: &mut LineReader<S, R>,
        store: &mut Store<A>,
    ) -> Result<(), MergeFault>
        requires slot { self.old.current_slot < length store.old.lines }
        requires fits { CanResume at self.old reader.old }
        requires cursor_valid { IsValidCursor (K.key_of order.now side) self.old store.old }
        ensures resumes { ResumePost at self.old self.new reader.old reader.new store.old store.new result }
        ensures cursor_valid { OnOk result (IsValidCursor (K.key_of order.now side) self.new store.new) }
    {
        let used = reader.buffered().len() - at.left;
        if at.passed > 0 {
            let head = &reader.buffered()[used - 1 - at.size..used - 1];
            match store.set(self.current_slot, head) {
                Ok(()) => {}
                Err(_) => return Err(MergeFault::Memory),
            }
            self.number += at.passed as u64;
            self.key = order.span(side, head);
        }
        reader.consume(used);
        Ok(())
    }
}
