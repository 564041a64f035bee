//! One slot of a `Store`: a line in a buffer that is at least 64 bytes longer.

ghost use Rattle.std.specs.Prelude.{◌≡◌, ◌<◌, ◌≤◌, ◌+◌, ◌*◌, ◌^◌, [], ◌++◌, length, max, take, IfOk, OnOk, OnErr};

use crate::copy::copy_chunk;
use crate::memory::{Denied, replace_rest, zeros};
use std::alloc::Allocator;
use std::marker::Model;

// The first `size` bytes of the buffer are the line. At least 64 bytes follow, with any values, so that a line of fewer
// than 64 bytes can be stored as one vector of 16 or 64 bytes.
#[derive(Drop)]
pub(crate) struct Slot<A: Allocator + Copy> {
    buffer: Vec<u8, A>,
    size: usize,
}

impl<A: Allocator + Copy> Model for Slot<A> {
    ghost use Rattle.std.specs.Prelude.{take, vec_len};
    ghost use Rattle.ptlines.specs.Private.Slots.{SlotBuffer, IsPadded};

    ghost Value = { SlotBuffer };

    ghost view = { λ s. record { line = take s.size s.buffer.items; buffer_size = vec_len s.buffer } };

    ghost invariant = { λ s. IsPadded s.size (vec_len s.buffer) };
}

impl<A: Allocator + Copy> Slot<A> {
    // Creates an empty slot.
    pub(crate) fn new(alloc: A) -> Result<Self, Denied>
        ensures { IfOk result (λ s. s ≡ record { line = []; buffer_size = 128 }) }
    {
        Ok(Slot {
            buffer: zeros(alloc)?,
            size: 0,
        })
    }

    // Returns the bytes of the line.
    #[inline(always)]
    pub(crate) fn line(&self) -> &[u8]
        ensures line { result.now ≡ self.now.line }
    {
        &self.buffer[..self.size]
    }

    // Returns the length of the line.
    #[inline(always)]
    pub(crate) fn size(&self) -> usize
        ensures size { result ≡ length self.now.line }
        ensures short { result ≤ 2 ^ 63 }
    {
        self.size
    }

    // Makes the line empty.
    #[inline(always)]
    pub(crate) fn clear(&mut self)
        ensures { self.new ≡ record self.old { line = [] } }
    {
        self.size = 0;
    }

    // Replaces the line by the first `size` bytes, by a store of one vector: of 16 bytes if they are fewer than 16,
    // otherwise of 64.
    #[inline(always)]
    pub(crate) fn set_short_line(&mut self, bytes: &[u8], size: usize)
        requires { (size < 64) × (64 ≤ length bytes.now) }
        ensures { self.new ≡ record self.old { line = take size bytes.now } }
    {
        if size < 16 {
            copy_chunk::<16>(bytes, 0, &mut self.buffer, 0);
        } else {
            copy_chunk::<64>(bytes, 0, &mut self.buffer, 0);
        }
        self.size = size;
    }

    // Appends bytes to the line. The buffer grows only if it has to. If memory cannot be allocated, nothing changes.
    pub(crate) fn append(&mut self, bytes: &[u8]) -> Result<(), Denied>
        ensures ok { OnOk result (self.new.line ≡ self.old.line ++ bytes.now) }
        ensures err { OnErr result (self.new ≡ self.old) }
        ensures short { length self.new.line ≤ 2 ^ 63 }
        ensures buffer { self.new.buffer_size ≤ max self.old.buffer_size (2 * length self.new.line + 64) }
    {
        let from = self.size;
        let to = from + bytes.len();
        if to + 64 > self.buffer.len() {
            replace_rest(&mut self.buffer, from, bytes)?;
        } else {
            self.buffer[from..to].copy_from_slice(bytes);
        }
        self.size = to;
        Ok(())
    }
}
