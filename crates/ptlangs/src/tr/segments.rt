//! The array of bytes that a string of `tr` denotes, as segments: one for each element of the string, such as `a-z` or
//! `[:alpha:]`. `bytes` iterates over their bytes, so that no array is kept in memory.

ghost use Rattle.std.specs.Prelude.{◌≡◌, ◌+◌, ◌^◌, ◌<◌, ◌≤◌, length, replicate, slice_get, IfOk, IfSome};
ghost use Rattle.ptlangs.specs.TrPlan.{members};
ghost use Rattle.ptlangs.specs.Laws.TrReading.{segment, is_fill};
ghost use Rattle.ptlangs.specs.Private.TrParsing.{class_of, marked_members, plain_members};

use crate::faults::SetFaultKind;
use crate::tr::classes::{CharClass, span_get};
use crate::tr::elements::SetElement;

/// Which string of which form it is. This decides which elements are allowed.
#[derive(Clone, Copy)]
pub(crate) enum SetRole {
    /// The first string.
    First,
    /// A second string that translates.
    Images,
    /// A second string that is only squeezed.
    Squeezed,
}

/// A byte of an array, and the class that starts with it, if one does.
#[derive(Clone, Copy)]
pub(crate) struct Member {
    pub(crate) byte: u8,
    pub(crate) class: Option<CharClass>,
}

/// A segment of an array.
#[derive(Clone, Copy)]
pub(crate) enum Segment {
    /// The bytes from the first to the second, ascending.
    Range(u8, u8),
    /// The bytes of a class, ascending.
    Class(CharClass),
    /// The byte, repeated this number of times.
    Repeat(u8, u16),
    /// The byte, repeated to fill the array up to the length of the first array.
    Fill(u8),
}

impl Segment {
    /// The segment of an element. `has_fill` says whether a fill came before.
    #[tactic(auto, using(crate::proofs::TrArrays::member_steps))]
    pub(crate) fn new(
        role: SetRole,
        has_fill: bool,
        element: SetElement,
    ) -> Result<Segment, SetFaultKind>
        ensures is { result ≡ segment role has_fill element }
        ensures short { IfOk result (λ x. length (members 0 x) ≤ 65535) }
    {
        match (element, role) {
            (SetElement::Single(byte), _) => Ok(Segment::Range(byte, byte)),
            (SetElement::Range(first, last), _) => Ok(Segment::Range(first, last)),
            (SetElement::Class(Some(class)), _) => Ok(Segment::Class(class)),
            (SetElement::Class(None), _) => Err(SetFaultKind::UnknownClass),
            (SetElement::Equivalence(_), SetRole::Images) => Err(SetFaultKind::EquivPlace),
            (SetElement::Equivalence(byte), _) => Ok(Segment::Range(byte, byte)),
            (SetElement::Repeat(_, _), SetRole::First) => Err(SetFaultKind::RepeatPlace),
            (SetElement::Repeat(_, None), _) => Err(SetFaultKind::RepeatSize),
            (SetElement::Repeat(_, Some(0)), _) if has_fill => Err(SetFaultKind::SecondFill),
            (SetElement::Repeat(byte, Some(0)), _) => Ok(Segment::Fill(byte)),
            (SetElement::Repeat(byte, Some(count)), _) => Ok(Segment::Repeat(byte, count)),
        }
    }

    /// Whether the segment is a fill.
    pub(crate) fn is_fill(self) -> bool
        ensures { result ≡ is_fill (Ok self) }
    {
        matches!(self, Segment::Fill(_))
    }

    /// The class, if the segment is one.
    fn class(self) -> Option<CharClass>
        ensures { result ≡ class_of self }
    {
        match self {
            Segment::Class(class) => Some(class),
            _ => None,
        }
    }

    /// The byte with this index in the segment, if a fill has `fill` bytes, or `None` past its end.
    #[tactic(auto, using(crate::proofs::TrArrays::member_steps))]
    fn byte(self, fill: u128, index: u128) -> Option<u8>
        ensures found { result ≡ slice_get (members fill self) index }
        ensures room { IfSome result (λ _. index + 1 < 2 ^ 128) }
    {
        match self {
            Segment::Range(first, last) => span_get(first, last, index),
            Segment::Class(class) => class.get(index),
            Segment::Repeat(byte, count) => (index < u128::from(count)).then_some(byte),
            Segment::Fill(byte) => (index < fill).then_some(byte),
        }
    }

    /// The number of bytes of a repeat or a fill of `byte`, if a fill has `fill` bytes, or 0 for other segments.
    pub(crate) fn repeats_of(self, byte: u8, fill: u128) -> u128
        ensures { 0 < result → marked_members fill self ≡ plain_members (replicate result byte) }
    {
        match self {
            Segment::Repeat(repeated, count) if repeated == byte => u128::from(count),
            Segment::Fill(repeated) if repeated == byte => fill,
            _ => 0,
        }
    }

    /// The member with this index, if a fill has `fill` bytes, or `None` past the end of the segment.
    pub(crate) fn get(self, fill: u128, index: u128) -> Option<Member>
        ensures found { result ≡ slice_get (marked_members fill self) index }
        ensures room { IfSome result (λ _. index + 1 < 2 ^ 128) }
    {
        let byte = self.byte(fill, index)?;
        let class = if index == 0 { self.class() } else { None };
        Some(Member { byte, class })
    }
}
