//! The images of a plan of `tr`: for each byte the byte that replaces it. The bytes of the first array are paired with
//! those of the second one, which is extended by its last byte.
ghost use Rattle.std.specs.Prelude.{◌≡◌, ◌++◌, ◌∷◌, [], ℕ, List, Ok, Err, false, if◌then◌else◌, map, MatchResult};
ghost use Rattle.ptlangs.specs.declared.faults.SetFaultKind.TheVariants.{ClassPlace};
ghost use Rattle.ptlangs.specs.declared.tr.segments.Member.{Member};
ghost use Rattle.ptlangs.specs.declared.tr.segments.Segment.{Segment};
ghost use Rattle.ptlangs.specs.TrClasses.{all_bytes};
ghost use Rattle.ptlangs.specs.TrPlan.{array, complement_of, first_array, image_by};
ghost use Rattle.ptlangs.specs.TrElements.{read_string};
ghost use Rattle.ptlangs.specs.Private.TrParsing.{HasPaired, PairPost, all_paired, bytes_left, member_bytes};
ghost use Rattle.ptlangs.specs.Private.TrParsing.{classes_match};
ghost use Rattle.ptlangs.specs.Private.TrParsing.{contents_of, first_members, marked_array, plain_members};

use crate::faults::SetFaultKind;
use crate::tr::bytes::Bytes;
use crate::tr::classes::CharClass;
use crate::tr::contents::Contents;
use crate::tr::segments::{Member, SetRole};

/// The images so far, the bytes of the second array that are left, and the last one that was taken.
#[derive(Drop)]
struct Images<'a> {
    table: [u8; 256],
    second: Bytes<'a>,
    last: Option<u8>,
}

/// Whether the class `to`, if one starts with a byte of the second array, is the other case of `from`, the class that
/// starts with the byte of the first array at the same index.
fn classes_match(from: Option<CharClass>, to: Option<CharClass>) -> bool
    ensures { result ≡ classes_match from to }
{
    match (from, to) {
        (_, None) => true,
        (Some(CharClass::Lower), Some(CharClass::Upper)) => true,
        (Some(CharClass::Upper), Some(CharClass::Lower)) => true,
        _ => false,
    }
}

/// The table in which each byte is its own image.
pub(crate) fn identity() -> [u8; 256]
    ensures { (to : List ℕ) → result ≡ map (image_by [] to) all_bytes }
{
    std::array::from_fn(|byte| byte as u8)
}

impl<'a> Images<'a> {
    /// Pairs the next byte of the first array. Its image is the next byte of the second one, or the last if none is
    /// left.
    ///
    /// # Errors
    ///
    /// A class starts in the second array, and not its other case in the first one.
    fn push(&mut self, from: Member) -> Result<(), SetFaultKind>
        ensures { (before to : List Member) → HasPaired before to self.old → MatchResult result
            (λ _. HasPaired (before ++ from ∷ []) to self.new)
            (λ k. (k ≡ ClassPlace) × ((more : List Member) → all_paired (before ++ from ∷ more) to ≡ false)) }
    {
        if let Some(to) = self.second.next()? {
            if !classes_match(from.class, to.class) {
                return Err(SetFaultKind::ClassPlace);
            }
            self.last = Some(to.byte);
        }
        self.table[usize::from(from.byte)] = self.last.unwrap_or(from.byte);
        Ok(())
    }

    /// Pairs the bytes of the first array, if it is that of `text`.
    fn push_string(&mut self, text: &[u8]) -> Result<(), SetFaultKind>
        ensures { (ps : List Segment) (to : List Member) → read_string SetRole.First text.now ≡ Ok ps
            → HasPaired [] to self.old → PairPost (marked_array 0 ps) to self.new result }
    {
        let mut bytes = Bytes::new(SetRole::First, text, 0);
        while let Some(member) = bytes.next()? {
            self.push(member)?;
        }
        Ok(())
    }

    /// Pairs the bytes that `first` contains, in ascending order.
    fn push_ascending(&mut self, first: &Contents) -> Result<(), SetFaultKind>
        ensures { (bytes : List ℕ) (to : List Member) → first.now ≡ contents_of (complement_of bytes)
            → HasPaired [] to self.old → PairPost (plain_members (complement_of bytes)) to self.new result }
    {
        for byte in u8::MIN..=u8::MAX {
            if first.has[usize::from(byte)] {
                self.push(Member { byte, class: None })?;
            }
        }
        Ok(())
    }

    /// The images of all bytes, once the first array has ended.
    ///
    /// # Errors
    ///
    /// A class starts in the second array after the end of the first one.
    fn finish(mut self) -> Result<[u8; 256], SetFaultKind>
        ensures { (from to : List Member) → HasPaired from to self.entry → result
            ≡ (if all_paired from to then Ok (map (image_by (member_bytes from) (member_bytes to)) all_bytes)
            else Err ClassPlace) }
    {
        while let Some(member) = self.second.next()? {
            if member.class.is_some() {
                return Err(SetFaultKind::ClassPlace);
            }
            self.second.skip_repeats(member.byte);
        }
        Ok(self.table)
    }
}

/// The images of all bytes: of the bytes of the first array, which is that of `s1` or the complement of that, those of
/// `second` with the same index. If the first array contains a byte twice, its last index counts.
///
/// # Errors
///
/// A class starts in the second array, and not its other case at the same index of the first one.
pub(crate) fn read_images(
    complement: bool,
    s1: &[u8],
    first: &Contents,
    second: Bytes,
) -> Result<[u8; 256], SetFaultKind>
    ensures { (ps : List Segment) (to : List Member) → read_string SetRole.First s1.now ≡ Ok ps
        → first.now ≡ contents_of (first_array complement ps) → bytes_left second.entry ≡ map Ok to → result
        ≡ (if all_paired (first_members complement ps) to
        then Ok (map (image_by (first_array complement ps) (member_bytes to)) all_bytes)
        else Err ClassPlace) }
{
    let mut images = Images {
        table: identity(),
        second,
        last: None,
    };
    if complement {
        images.push_ascending(first)?;
    } else {
        images.push_string(s1)?;
    }
    images.finish()
}
