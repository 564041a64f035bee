//! The bytes of the array that a string of `tr` denotes, read from the string one after another. No array is kept in
//! memory.
ghost use Rattle.std.specs.Prelude.{◌≡◌, ◌*◌, ◌+◌, ◌<◌, ◌++◌, length, map, replicate, Ok, IfOk, IfSome};
ghost use Rattle.ptlangs.specs.Laws.TrReading.{segments_of};
ghost use Rattle.ptlangs.specs.Private.TrParsing.{NextItemPost, bytes_left, member_results, most_left, plain_members};

use crate::faults::SetFaultKind;
use crate::tr::elements::first_element;
use crate::tr::segments::{Member, Segment, SetRole};

/// Iterates over the bytes of a string's array, of which a fill has `fill`. `text` is the rest of the string.
#[derive(Drop)]
pub(crate) struct Bytes<'a> {
    role: SetRole,
    text: &'a [u8],
    has_fill: bool,
    fill: u128,
    segment: Segment,
    index: u128,
}

impl<'a> Bytes<'a> {
    /// The bytes of `text`.
    pub(crate) fn new(role: SetRole, text: &'a [u8], fill: u128) -> Bytes<'a>
        ensures all { bytes_left result ≡ member_results fill (segments_of role text.now) }
        ensures most { most_left result ≡ 65536 * length text.now + fill }
    {
        Bytes {
            role,
            text,
            has_fill: false,
            fill,
            segment: Segment::Repeat(0, 0),
            index: 0,
        }
    }

    /// The next byte, or `None` after the last one.
    ///
    /// # Errors
    ///
    /// The fault of the next segment.
    pub(crate) fn next(&mut self) -> Result<Option<Member>, SetFaultKind>
        ensures steps { NextItemPost (bytes_left self.old) (bytes_left self.new) result }
        ensures fewer { IfOk result (λ found. IfSome found (λ _. most_left self.new < most_left self.old)) }
    {
        loop {
            if let Some(member) = self.segment.get(self.fill, self.index) {
                self.index += 1;
                return Ok(Some(member));
            }
            if self.text.is_empty() {
                return Ok(None);
            }
            let parsed = first_element(self.text)?;
            self.segment = Segment::new(self.role, self.has_fill, parsed.element)?;
            self.has_fill = self.has_fill || self.segment.is_fill();
            self.text = parsed.rest;
            self.index = 0;
        }
    }

    /// Passes the bytes that are left of a repeat or a fill of `byte` at once, and returns how many they were.
    #[tactic(auto, using(crate::proofs::TrArrays::copies_left))]
    pub(crate) fn skip_repeats(&mut self, byte: u8) -> u128
        ensures passed { bytes_left self.old ≡ map Ok (plain_members (replicate result byte)) ++ bytes_left self.new }
        ensures fewer { most_left self.old ≡ result + most_left self.new }
    {
        let count = self.segment.repeats_of(byte, self.fill);
        let passed = count.saturating_sub(self.index);
        self.index += passed;
        passed
    }
}
