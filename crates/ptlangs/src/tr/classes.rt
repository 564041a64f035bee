//! The character classes of the POSIX locale (POSIX.1-2017, XBD, 7.3.1) over ASCII: bytes above 127 are in no class.
//! The strings of `tr` name them.
ghost use Rattle.std.specs.Prelude.{◌≡◌, ◌+◌, ◌<◌, length, slice_get, bytes_eq};
ghost use Rattle.std.specs.List.{flat_map};
ghost use Rattle.ptlangs.specs.Private.TrClasses.{range_bytes};
ghost use Rattle.ptlangs.specs.TrClasses.{span, class_bytes, class_named};

/// A class of characters.
#[derive(Clone, Copy)]
pub(crate) enum CharClass {
    Alnum,
    Alpha,
    Blank,
    Cntrl,
    Digit,
    Graph,
    Lower,
    Print,
    Punct,
    Space,
    Upper,
    Xdigit,
}

/// Whether the two are equal. Each name is compared as a whole.
fn is_same(name: &[u8], other: &[u8]) -> bool
    ensures { result ≡ bytes_eq name.now other.now }
{
    name == other
}

impl CharClass {
    /// The class with this name, or `None`.
    pub(crate) fn from_name(name: &[u8]) -> Option<CharClass>
        ensures { result ≡ class_named name.now }
    {
        // A pattern of byte literals would be proved byte by byte.
        match name {
            _ if is_same(name, b"alnum") => Some(CharClass::Alnum),
            _ if is_same(name, b"alpha") => Some(CharClass::Alpha),
            _ if is_same(name, b"blank") => Some(CharClass::Blank),
            _ if is_same(name, b"cntrl") => Some(CharClass::Cntrl),
            _ if is_same(name, b"digit") => Some(CharClass::Digit),
            _ if is_same(name, b"graph") => Some(CharClass::Graph),
            _ if is_same(name, b"lower") => Some(CharClass::Lower),
            _ if is_same(name, b"print") => Some(CharClass::Print),
            _ if is_same(name, b"punct") => Some(CharClass::Punct),
            _ if is_same(name, b"space") => Some(CharClass::Space),
            _ if is_same(name, b"upper") => Some(CharClass::Upper),
            _ if is_same(name, b"xdigit") => Some(CharClass::Xdigit),
            _ => None,
        }
    }

    /// The bytes of the class as ascending ranges, each a pair of its first and last byte.
    pub(crate) fn ranges(self) -> &'static [(u8, u8)]
        ensures { flat_map range_bytes result.now ≡ class_bytes self }
    {
        match self {
            CharClass::Alnum => &[(b'0', b'9'), (b'A', b'Z'), (b'a', b'z')],
            CharClass::Alpha => &[(b'A', b'Z'), (b'a', b'z')],
            CharClass::Blank => &[(b'\t', b'\t'), (b' ', b' ')],
            CharClass::Cntrl => &[(0, 31), (127, 127)],
            CharClass::Digit => &[(b'0', b'9')],
            CharClass::Graph => &[(b'!', b'~')],
            CharClass::Lower => &[(b'a', b'z')],
            CharClass::Print => &[(b' ', b'~')],
            CharClass::Punct => &[(b'!', b'/'), (b':', b'@'), (b'[', b'`'), (b'{', b'~')],
            CharClass::Space => &[(b'\t', b'\r'), (b' ', b' ')],
            CharClass::Upper => &[(b'A', b'Z')],
            CharClass::Xdigit => &[(b'0', b'9'), (b'A', b'F'), (b'a', b'f')],
        }
    }

    /// The byte of the class with this index, in ascending order, or `None` past its end.
    #[tactic(auto, using(crate::proofs::TrArrays::part_steps))]
    pub(crate) fn get(self, index: u128) -> Option<u8>
        ensures { result ≡ slice_get (class_bytes self) index }
    {
        let ranges = self.ranges();
        let mut left = index;
        for &(first, last) in ranges {
            let count = span_len(first, last);
            if left < count {
                return span_get(first, last, left);
            }
            left -= count;
        }
        None
    }
}

/// The number of bytes from `first` to `last`, both included.
#[tactic(auto, using(crate::proofs::TrArrays::span_steps))]
pub(crate) fn span_len(first: u8, last: u8) -> u128
    ensures { result ≡ length (span first last) }
{
    (u128::from(last) + 1).saturating_sub(u128::from(first))
}

/// The byte with this index among those from `first` to `last`, or `None` past their end.
#[tactic(auto, using(crate::proofs::TrArrays::span_steps))]
pub(crate) fn span_get(first: u8, last: u8, index: u128) -> Option<u8>
    ensures { result ≡ slice_get (span first last) index }
{
    if index >= span_len(first, last) {
        return None;
    }
    Some(first + index as u8)
}
