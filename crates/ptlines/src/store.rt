//! `Store`: numbered slots, each of which holds a line. A store counts the bytes of all its lines. The tools keep
//! the lines that they need in it (`uniq` keeps one beside it). Also `LineFault`, the reason why a line could not be
//! read or stored.

ghost use Rattle.std.specs.Prelude.{◌≡◌, ℕ, ◌<◌, ◌≤◌, ◌≢◌, true, false, [], ◌∷◌, ◌++◌, length, take, ◌+◌, replicate};
ghost use Rattle.std.specs.Prelude.{swap, slice_set, slice_index_or, vec_len, vec_capacity, IfOk, OnOk, OnErr};
ghost use Rattle.ptlines.specs.Calls.Slots.{SwapPre, CopyPre, line};
ghost use Rattle.ptlines.specs.Private.Slots.{LengthsAreBounded, AreBuffersBounded, HasFewSpare, slot_lines};
ghost use Rattle.ptlines.specs.Slots.{total_bytes};
ghost use Rattle.ptlines.specs.Calls.Slots.{with_line, with_new_slot, with_denied};

use crate::memory::{Denied, make_room};
use crate::slot::Slot;
use std::alloc::{Allocator, Global};
use std::marker::Model;

/// Why a reader returned no line or block. The fault is final: every later call of the reader reports it again.
#[derive(Clone, Copy, Debug, PartialEq, Eq)]
pub enum LineFault {
    /// A read failed, or 2^63 bytes or more came from one source.
    Read = 1,
    /// Memory could not be allocated.
    Memory = 2,
}

/// Numbered slots, from 0, for one line each. The store counts the bytes of all lines and tracks the high-water mark.
/// Padding and bookkeeping are not counted. The buffer of a slot is never longer than twice that mark and 128 bytes, and
/// the list of the slots never has room for more than twice as many, and four.
#[derive(Drop)]
pub struct Store<A: Allocator + Copy = Global> {
    slots: Vec<Slot<A>, A>,
    byte_count: u128,
    peak: u128,
    denied: Option<Denied>,
    alloc: A,
}

impl<A: Allocator + Copy> Model for Store<A> {
    ghost use Rattle.ptlines.specs.Slots.{Slots};
    ghost use Rattle.std.specs.Prelude.{is_some, vec_len, vec_capacity};
    ghost use Rattle.ptlines.specs.Private.Slots.{IsSoundStore, slot_lines};

    ghost Value = { Slots };

    ghost view = { λ s. record { lines = slot_lines s.slots.items; peak = s.peak; denied = is_some s.denied } };

    ghost invariant = { λ s. IsSoundStore s.byte_count s.peak s.slots.items (vec_capacity s.slots) (vec_len s.slots) };
}

// Appends the line of the slot `from` to that of the slot `to`.
fn append_slot<A: Allocator + Copy>(
    slots: &mut [Slot<A>],
    from: usize,
    to: usize,
) -> Result<(), Denied>
    requires { CopyPre (length slots.old) from to }
    ensures ok { OnOk result (slot_lines slots.new ≡ slice_set (slot_lines slots.old) to
        (slice_index_or (slot_lines slots.old) to [] ++ slice_index_or (slot_lines slots.old) from [])) }
    ensures err { OnErr result (slots.new ≡ slots.old) }
    ensures short { LengthsAreBounded (slot_lines slots.old) → LengthsAreBounded (slot_lines slots.new) }
    ensures buffers { (peak : ℕ) → total_bytes (slot_lines slots.new) ≤ peak → AreBuffersBounded peak slots.old
        → AreBuffersBounded peak slots.new }
{
    if from < to {
        let (front, back) = slots.split_at_mut(to);
        back[0].append(front[from].line())
    } else {
        let (front, back) = slots.split_at_mut(from);
        front[to].append(back[0].line())
    }
}

// Adds an empty slot.
fn push_empty<A: Allocator + Copy>(slots: &mut Vec<Slot<A>, A>, alloc: A) -> Result<(), Denied>
    requires { HasFewSpare (vec_capacity slots.old) (vec_len slots.old) }
    ensures ok { OnOk result (slots.new.items ≡ slots.old.items ++ record { line = []; buffer_size = 128 } ∷ []) }
    ensures err { OnErr result (slots.new.items ≡ slots.old.items) }
    ensures room { HasFewSpare (vec_capacity slots.new) (vec_len slots.new) }
{
    make_room(slots)?;
    slots.push_reserved(Slot::new(alloc)?);
    Ok(())
}

impl<A: Allocator + Copy> Store<A> {
    /// Creates a store without slots. It allocates nothing.
    pub fn empty(alloc: A) -> Self
        ensures { result ≡ record { lines = []; peak = 0; denied = false } }
    {
        Store {
            slots: Vec::new(alloc),
            byte_count: 0,
            peak: 0,
            denied: None,
            alloc,
        }
    }

    /// Creates a store of `slots` empty slots.
    /// # Errors
    /// `Memory` if memory could not be allocated.
    pub fn new(alloc: A, slots: usize) -> Result<Self, LineFault>
        ensures made { IfOk result (λ s. s ≡ record { lines = replicate slots []; peak = 0; denied = false }) }
        ensures memory { OnErr result (result ≡ Err LineFault.Memory) }
    {
        let mut made = Store::empty(alloc);
        for _i in 0..slots {
            made.add()?;
        }
        Ok(made)
    }

    /// Adds an empty slot, and returns its number.
    /// # Errors
    /// `Memory` if memory could not be allocated. [`denied`](Store::denied) is then true; nothing else changes.
    pub fn add(&mut self) -> Result<usize, LineFault>
        ensures added { IfOk result (λ slot. slot ≡ length self.old.lines) }
        ensures ok { OnOk result (self.new ≡ with_new_slot self.old) }
        ensures err { OnErr result (self.new ≡ with_denied self.old) }
        ensures memory { OnErr result (result ≡ Err LineFault.Memory) }
    {
        let number = self.slots.len();
        match push_empty(&mut self.slots, self.alloc) {
            Ok(()) => Ok(number),
            Err(denied) => Err(denied.record(&mut self.denied)),
        }
    }

    /// Returns the number of slots.
    pub fn slots(&self) -> usize
        ensures { result ≡ length self.now.lines }
    {
        self.slots.len()
    }

    /// Returns the bytes in a slot.
    pub fn line(&self, slot: usize) -> &[u8]
        requires { slot < length self.now.lines }
        ensures { result.now ≡ line self.now slot }
    {
        self.slots[slot].line()
    }

    /// Empties a slot.
    #[inline(always)]
    pub fn clear(&mut self, slot: usize)
        requires { slot < length self.old.lines }
        ensures { self.new ≡ with_line self.old slot [] }
    {
        let count = self.slots[slot].size();
        self.slots[slot].clear();
        self.byte_count -= count as u128;
    }

    // Sets a slot to the first `size` bytes, which are fewer than 64.
    #[inline(always)]
    pub(crate) fn set_short_line(&mut self, slot: usize, bytes: &[u8], size: usize)
        requires slot { slot < length self.old.lines }
        requires short { (size < 64) × (64 ≤ length bytes.now) }
        ensures { self.new ≡ with_line self.old slot (take size bytes.now) }
    {
        let was = self.slots[slot].size();
        self.slots[slot].set_short_line(bytes, size);
        self.byte_count = self.byte_count - was as u128 + size as u128;
        // The peak is written only if it has grown, since this is done for every line.
        if self.byte_count > self.peak {
            self.peak = self.byte_count;
        }
    }

    /// Sets a slot to these bytes.
    /// # Errors
    /// `Memory` if memory could not be allocated. [`denied`](Store::denied) is then true, and the slot is empty; nothing
    /// else changes.
    pub fn set(&mut self, slot: usize, bytes: &[u8]) -> Result<(), LineFault>
        requires { slot < length self.old.lines }
        ensures ok { OnOk result (self.new ≡ with_line self.old slot bytes.now) }
        ensures err { OnErr result (self.new ≡ with_denied (with_line self.old slot [])) }
        ensures memory { OnErr result (result ≡ Err LineFault.Memory) }
    {
        self.clear(slot);
        self.append(slot, bytes)
    }

    // Appends bytes to those of a slot. If memory cannot be allocated, the store is denied, and nothing else changes.
    pub(crate) fn append(&mut self, slot: usize, bytes: &[u8]) -> Result<(), LineFault>
        requires { slot < length self.old.lines }
        ensures ok { OnOk result (self.new ≡ with_line self.old slot (line self.old slot ++ bytes.now)) }
        ensures err { OnErr result (self.new ≡ with_denied self.old) }
        ensures memory { OnErr result (result ≡ Err LineFault.Memory) }
    {
        match self.slots[slot].append(bytes) {
            Ok(()) => {
                self.byte_count += bytes.len() as u128;
                self.peak = self.peak.max(self.byte_count);
                Ok(())
            }
            Err(denied) => Err(denied.record(&mut self.denied)),
        }
    }

    /// Sets the slot `to` to the bytes of another slot, `from`.
    /// # Errors
    /// `Memory` if memory could not be allocated. [`denied`](Store::denied) is then true, and `to` is empty; nothing
    /// else changes.
    pub fn copy(&mut self, from: usize, to: usize) -> Result<(), LineFault>
        requires { CopyPre (length self.old.lines) from to }
        ensures ok { OnOk result (self.new ≡ with_line self.old to (line self.old from)) }
        ensures err { OnErr result (self.new ≡ with_denied (with_line self.old to [])) }
        ensures memory { OnErr result (result ≡ Err LineFault.Memory) }
    {
        self.clear(to);
        match append_slot(&mut self.slots, from, to) {
            Ok(()) => {
                self.byte_count += self.slots[from].size() as u128;
                self.peak = self.peak.max(self.byte_count);
                Ok(())
            }
            Err(denied) => Err(denied.record(&mut self.denied)),
        }
    }

    /// Exchanges the lines of two slots.
    pub fn swap(&mut self, a: usize, b: usize)
        requires { SwapPre (length self.old.lines) a b }
        ensures { self.new ≡ record self.old { lines = swap self.old.lines a b } }
    {
        self.slots.swap(a, b);
    }

    /// Returns the number of bytes in all slots. It is never greater than [`peak`](Store::peak).
    // Callers need the clause `below` for that, since they cannot see the private fields that it follows from.
    pub fn now(&self) -> u128
        ensures now { result ≡ total_bytes self.now.lines }
        ensures below { result ≤ self.now.peak }
    {
        self.byte_count
    }

    /// Returns the most bytes that all slots ever held together.
    pub fn peak(&self) -> u128
        ensures { result ≡ self.now.peak }
    {
        self.peak
    }

    /// Returns whether this store ever failed to allocate memory.
    pub fn denied(&self) -> bool
        ensures { result ≡ self.now.denied }
    {
        self.denied.is_some()
    }
}
