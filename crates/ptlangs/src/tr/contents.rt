//! Which bytes the array of a string of `tr` contains, and how many bytes it has; also of its complement. `plan`
//! makes its tables with it.
ghost use Rattle.std.specs.Prelude.{◌≡◌, ◌+◌, ◌^◌, ◌<◌, ◌≤◌, ◌++◌, ◌∷◌, [], ℕ, List, IfOk, length, replicate};
ghost use Rattle.ptlangs.specs.declared.tr.segments.Segment.{Segment};
ghost use Rattle.ptlangs.specs.TrPlan.{array, complement_of};
ghost use Rattle.ptlangs.specs.TrElements.{read_string};
ghost use Rattle.ptlangs.specs.Private.TrParsing.{contents_of};
ghost use Rattle.ptlangs.specs.Calls.TrParsing.{ok_map};

use crate::faults::SetFaultKind;
use crate::tr::bytes::Bytes;
use crate::tr::segments::SetRole;

/// Which bytes an array contains, and its length.
#[derive(Drop)]
pub(crate) struct Contents {
    pub(crate) has: [bool; 256],
    pub(crate) length: u128,
}

impl Contents {
    /// Appends a byte to the array, and then `more` copies of it.
    #[tactic(auto, using(crate::proofs::TrArrays::contents_steps))]
    fn push(&mut self, byte: u8, more: u128)
        requires { self.old.length + more < 2 ^ 127 }
        ensures length { self.new.length ≡ self.old.length + (1 + more) }
        ensures is { (bytes : List ℕ) → self.old ≡ contents_of bytes
            → self.new ≡ contents_of (bytes ++ byte ∷ replicate more byte) }
    {
        self.has[usize::from(byte)] = true;
        self.length += 1 + more;
    }

    /// Reads the array of a string, if a fill has `fill` bytes.
    ///
    /// # Errors
    ///
    /// The leftmost fault of the string.
    pub(crate) fn read(role: SetRole, text: &[u8], fill: u128) -> Result<Contents, SetFaultKind>
        requires { fill < 2 ^ 100 }
        ensures is { result
            ≡ ok_map (λ (ps : List Segment). contents_of (array fill ps)) (read_string role text.now) }
        ensures bound { IfOk result (λ c. c.length ≤ 2 ^ 80 + fill) }
    {
        if text.is_empty() {
            return Err(SetFaultKind::Empty);
        }
        let mut bytes = Bytes::new(role, text, fill);
        let mut contents = Contents {
            has: [false; 256],
            length: 0,
        };
        while let Some(member) = bytes.next()? {
            let more = bytes.skip_repeats(member.byte);
            contents.push(member.byte, more);
        }
        Ok(contents)
    }

    /// The array of all bytes that this one does not contain, ascending.
    pub(crate) fn complement(&self) -> Contents
        ensures is { (bytes : List ℕ) → self.now ≡ contents_of bytes
            → result ≡ contents_of (complement_of bytes) }
        ensures bound { result.length ≤ 256 }
    {
        Contents {
            has: self.has.map(|has| !has),
            length: self.has.iter().filter(|has| !**has).count() as u128,
        }
    }
}
