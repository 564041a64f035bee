//! Room for bytes, and the sinks in memory: `Kept` keeps its bytes, `Counted` counts them, and `Filling` fills a room
//! and counts what does not fit. Used by `files`, `running` and `naming`.

ghost use Rattle.std.specs.Prelude.{◌≡◌, ◌+◌, ◌-◌, ◌≤◌, ◌<◌, ◌^◌, false, [], ◌++◌, length, min, take};

use crate::answer::Part;
use ptfiles::GhostBytes;
use ptlines::{Failed, Sink};
use std::alloc::Allocator;

/// Room for bytes, which is filled from its beginning.
#[derive(Drop)]
pub struct Room<'a> {
    pub bytes: &'a mut [u8],
    pub written: usize,
    ghost within: { written ≤ length bytes.now },
}

impl<'a> Room<'a> {
    /// Room in which nothing was written yet.
    pub fn new(bytes: &'a mut [u8]) -> Self
        ensures same_room { result.bytes.ghost_name ≡ bytes.entry.ghost_name }
        ensures empty { result.written ≡ 0 }
    {
        Room { bytes, written: 0 }
    }

    /// Writes the first of these bytes, those that fit, and returns their number.
    pub fn append(&mut self, bytes: &[u8]) -> usize
        ensures count { result ≡ min (length bytes.now) (length self.old.bytes.now - self.old.written) }
        ensures written { self.new.written ≡ self.old.written + result }
        ensures appended { take self.new.written self.new.bytes.now
            ≡ take self.old.written self.old.bytes.now ++ take result bytes.now }
        ensures same_length { length self.new.bytes.now ≡ length self.old.bytes.now }
        ensures same_room { self.new.bytes.ghost_name ≡ self.old.bytes.ghost_name }
    {
        let begin = self.written;
        let count = bytes.len().min(self.bytes.len() - begin);
        let end = begin + count;
        self.bytes[begin..end].copy_from_slice(&bytes[..count]);
        self.written = end;
        count
    }
}

/// A sink that keeps its bytes. A write fails only if memory runs out.
#[derive(Drop)]
pub struct Kept<A: Allocator> {
    pub bytes: Vec<u8, A>,
    pub failed: bool,
    pub unflushed: bool,
    pub flushes: u64,
}

impl<A: Allocator> Kept<A> {
    ghost use Rattle.std.specs.Prelude.{◌≡◌};
    ghost use Rattle.ptrunc.specs.Private.Rooms.{IsNewKept};

    /// Keeps no bytes yet.
    pub fn new(alloc: A) -> Self
        ensures { IsNewKept result }
    {
        Kept {
            bytes: Vec::new(alloc),
            failed: false,
            unflushed: false,
            flushes: 0,
        }
    }
}

impl<A: Allocator + Drop> Sink for Kept<A> {
    ghost use Rattle.ptrunc.specs.Private.Rooms.{kept_state};

    ghost state = { λ s. kept_state s };

    fn put(&mut self, bytes: &[u8]) -> Result<usize, Failed> {
        match self.bytes.extend_from_slice(bytes) {
            Ok(()) => {
                self.unflushed = true;
                Ok(bytes.len())
            }
            Err(_) => {
                self.failed = true;
                Err(Failed)
            }
        }
    }

    fn flush(&mut self) -> Result<(), Failed> {
        self.unflushed = false;
        self.flushes = self.flushes.saturating_add(1);
        Ok(())
    }
}

/// A sink that counts its bytes. A write fails only if their number would pass the range of `usize`.
#[derive(Drop)]
pub struct Counted {
    pub count: usize,
    pub failed: bool,
    pub unflushed: bool,
    pub flushes: u64,
    pub bytes: GhostBytes,
    ghost counts: { count ≡ length bytes.items },
}

impl Counted {
    ghost use Rattle.std.specs.Prelude.{◌≡◌};
    ghost use Rattle.ptlines.specs.Sinks.{flushes_after};
    ghost use Rattle.ptrunc.specs.Private.Rooms.{IsNewCounted};

    /// Counts no bytes yet.
    pub fn new() -> Self
        ensures { IsNewCounted result }
    {
        Counted {
            count: 0,
            failed: false,
            unflushed: false,
            flushes: 0,
            bytes: GhostBytes::new(),
        }
    }

    // Records a flush.
    fn set_flushed(&mut self)
        ensures { self.new ≡ record self.old { unflushed = false; flushes = flushes_after self.old.flushes } }
    {
        self.unflushed = false;
        self.flushes = self.flushes.saturating_add(1);
    }
}

impl Sink for Counted {
    ghost use Rattle.ptrunc.specs.Private.Rooms.{counted_state};

    ghost state = { λ s. counted_state s };

    fn put(&mut self, bytes: &[u8]) -> Result<usize, Failed> {
        let Some(count) = self.count.checked_add(bytes.len()) else {
            self.failed = true;
            return Err(Failed);
        };
        self.count = count;
        self.bytes = self.bytes.with(bytes);
        self.unflushed = true;
        Ok(bytes.len())
    }

    fn flush(&mut self) -> Result<(), Failed> {
        self.set_flushed();
        Ok(())
    }
}

/// A sink that fills a room. Bytes that do not fit are counted, so that no write fails for want of room.
#[derive(Drop)]
pub struct Filling<'a> {
    pub room: Room<'a>,
    pub rest: Counted,
    ghost rest_is_after: { room.written < length room.bytes.now
        → (rest.bytes.items ≡ []) × (rest.failed ≡ false) },
}

impl<'a> Filling<'a> {
    ghost use Rattle.std.specs.Prelude.{◌≡◌};
    ghost use Rattle.ptrunc.specs.Private.Rooms.{IsNewFilling, part_of};

    /// Fills a room.
    pub fn new(room: Room<'a>) -> Self
        ensures same_room { result.room.bytes.ghost_name ≡ room.entry.bytes.ghost_name }
        ensures is_new { room.entry.written ≡ 0 → IsNewFilling result }
    {
        Filling {
            room,
            rest: Counted::new(),
        }
    }

    /// Returns the room.
    pub fn into_room(self) -> Room<'a>
        ensures { result ≡ self.entry.room }
    {
        let Filling { room, rest: _ } = self;
        room
    }

    /// Returns how much was written to the room, and how much more there is.
    pub fn part(&self) -> Part
        ensures { result ≡ part_of self.now }
    {
        Part {
            written: self.room.written,
            lacking: self.rest.count,
        }
    }
}

impl Sink for Filling<'_> {
    ghost use Rattle.ptrunc.specs.Private.Rooms.{filling_state};

    ghost state = { λ s. filling_state s };

    fn put(&mut self, bytes: &[u8]) -> Result<usize, Failed> {
        let count = self.room.append(bytes);
        if count > 0 {
            self.rest.unflushed = true;
            return Ok(count);
        }
        self.rest.put(bytes)
    }

    fn flush(&mut self) -> Result<(), Failed> {
        self.rest.set_flushed();
        Ok(())
    }
}
