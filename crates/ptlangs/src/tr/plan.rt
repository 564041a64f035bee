//! The plan of `tr`: for each byte, what happens to it (POSIX.1-2017, XCU, `tr`). `ptopts` makes a plan from the
//! form and the strings of a command line; `ptflow` applies it to the input. And laws: the tables of a plan agree
//! with its arrays, and reading the strings never fails for lack of memory.
ghost use Rattle.std.specs.Prelude.{◌≡◌, ◌^◌, ◌<◌, [], ℕ, List, Ok, IfOk, IfSome, MatchOption, length, false, true};
ghost use Rattle.std.specs.Prelude.{is_some, option_copied};
ghost use Rattle.ptlangs.specs.declared.faults.SetFaultKind.{SetFaultKind};
ghost use Rattle.ptlangs.specs.declared.tr.segments.Segment.{Segment};
ghost use Rattle.ptlangs.specs.TrPlan.{first_array, plan, plan_of, second_plan, second_role};
ghost use Rattle.ptlangs.specs.Laws.TrPlan.{NoMemoryFault};
ghost use Rattle.ptlangs.specs.TrPlan.{in_string};
ghost use Rattle.ptlangs.specs.TrElements.{read_string};
ghost use Rattle.ptlangs.specs.Calls.TrPlan.{takes_second};
ghost use Rattle.ptlangs.specs.TrTables.{deletes, image, squeezes};
ghost use Rattle.ptlangs.specs.Calls.TrTables.{tables};
ghost use Rattle.ptlangs.specs.Laws.TrTables.{TablesHaveMap, TablesMatchPlan};
ghost use Rattle.ptlangs.specs.Calls.TrShifts.{stretches, HasImagesOf};
ghost use Rattle.ptlangs.specs.Private.TrParsing.{contents_of};
ghost use Rattle.ptlangs.specs.Calls.TrParsing.{ok_map};

use crate::faults::{SetFault, SetFaultKind, SetString};
use crate::tr::bytes::Bytes;
use crate::tr::contents::Contents;
use crate::tr::images::{identity, read_images};
use crate::tr::segments::SetRole;
use crate::tr::shifts::{Shifts, shifts_of};
use std::marker::Model;

/// The form of a command line of `tr`, given by its flags and the number of its strings.
#[derive(Clone, Copy)]
pub enum Form {
    /// Two strings without `-d` and `-s`.
    Translate,
    /// Two strings with `-s`.
    TranslateSqueeze,
    /// One string with `-s`.
    Squeeze,
    /// One string with `-d`.
    Delete,
    /// Two strings with `-d` and `-s`.
    DeleteSqueeze,
}

impl Form {
    /// Whether the form has a second string.
    pub fn takes_second(self) -> bool
        ensures { result ≡ takes_second self }
    {
        !matches!(self, Form::Squeeze | Form::Delete)
    }

    /// The role of the second string.
    fn second_role(self) -> SetRole
        ensures { result ≡ second_role self }
    {
        match self {
            Form::DeleteSqueeze => SetRole::Squeezed,
            _ => SetRole::Images,
        }
    }
}

/// Reads the array of the first string, or its complement.
fn read_first(complement: bool, s1: &[u8]) -> Result<Contents, SetFaultKind>
    ensures is { result
        ≡ ok_map (λ (ps : List Segment). contents_of (first_array complement ps))
        (read_string SetRole.First s1.now) }
    ensures bound { IfOk result (λ c. c.length < 2 ^ 90) }
{
    let first = Contents::read(SetRole::First, s1, 0)?;
    if complement {
        return Ok(first.complement());
    }
    Ok(first)
}

/// The result of reading the string, with a fault that names it.
fn in_string<T: Drop>(string: SetString, read: Result<T, SetFaultKind>) -> Result<T, SetFault>
    ensures { result ≡ in_string string read }
{
    read.map_err(|kind| SetFault { string, kind })
}

/// For each byte: whether it is deleted, its image, and whether its repeats are squeezed. Reading a plan from its
/// strings allocates nothing.
#[derive(Clone, Copy)]
pub struct CharPlan {
    deleted: [bool; 256],
    images: [u8; 256],
    squeezed: [bool; 256],
}

impl Model for CharPlan {
    ghost use Rattle.ptlangs.specs.TrTables.{Tables};

    ghost Value = { Tables };

    ghost view = { λ p. record { deleted = p.deleted; images = p.images; squeezed = p.squeezed } };

    ghost inverse = { λ t.
        record { deleted = t.deleted; images = t.images; squeezed = t.squeezed } };
}

impl CharPlan {
    /// Reads the plan of the strings: of `s1`, and of `s2` if the form has two strings. With `complement` the array of
    /// `s1` is that of all other bytes, ascending by value.
    ///
    /// The strings are read as POSIX.1-2017 defines them (XCU, `tr`, "EXTENDED DESCRIPTION"), in the POSIX locale over
    /// ASCII: one byte is one character, and order is by value. In cases that POSIX leaves unspecified:
    ///
    /// - A second array that is shorter than the first is padded with its last byte. If it is longer, the rest is not
    ///   used to translate.
    /// - If the first array contains a byte twice, its last index counts.
    /// - Squeezing uses the whole second array.
    /// - `[c*]` fills up to the length of the first array in every form.
    /// - A class is not recognized as the upper bound of a range.
    /// - A class does not pair with a complement.
    ///
    /// # Errors
    ///
    /// The leftmost fault of `s1`, else that of `s2`, else a class of `s2` without its other case at the same offset of
    /// `s1`. `SetFaultKind::Memory` is never returned.
    // Not inlined: where it is, its tables are copied on each way out of the parsing, which makes the program larger.
    #[inline(never)]
    pub fn read(
        form: Form,
        complement: bool,
        s1: &[u8],
        s2: Option<&[u8]>,
    ) -> Result<CharPlan, SetFault>
        requires { takes_second form ≡ is_some s2 }
        ensures { result
            ≡ ok_map tables (plan form complement s1.now (option_copied s2.entry)) }
    {
        let first = in_string(SetString::First, read_first(complement, s1))?;
        let Some(s2) = s2 else {
            return Ok(CharPlan::of_one(form, &first));
        };
        let plan = CharPlan::of_two(form, complement, s1, &first, s2);
        in_string(SetString::Second, plan)
    }

    /// The plan with these tables.
    fn new(deleted: [bool; 256], images: [u8; 256], squeezed: [bool; 256]) -> CharPlan
        ensures { result ≡ record { deleted = deleted; images = images; squeezed = squeezed } }
    {
        CharPlan {
            deleted,
            images,
            squeezed,
        }
    }

    /// The plan of one string, from its array.
    fn of_one(form: Form, first: &Contents) -> CharPlan
        requires { takes_second form ≡ false }
        ensures { (bytes : List ℕ) → first.now ≡ contents_of bytes
            → result ≡ tables (plan_of form bytes []) }
    {
        match form {
            Form::Delete => CharPlan::new(first.has, identity(), [false; 256]),
            _ => CharPlan::new([false; 256], identity(), first.has),
        }
    }

    /// The plan of two strings, from the array of the first.
    fn of_two(
        form: Form,
        complement: bool,
        s1: &[u8],
        first: &Contents,
        s2: &[u8],
    ) -> Result<CharPlan, SetFaultKind>
        requires form { takes_second form ≡ true }
        requires bound { first.now.length < 2 ^ 90 }
        ensures { (firsts : List Segment) → read_string SetRole.First s1.now ≡ Ok firsts
            → first.now ≡ contents_of (first_array complement firsts)
            → result ≡ ok_map tables (second_plan form complement firsts s2.now) }
    {
        let role = form.second_role();
        let unfilled = Contents::read(role, s2, 0)?;
        let fill = first.length.saturating_sub(unfilled.length);
        let squeezed = match form {
            Form::Translate => [false; 256],
            _ => Contents::read(role, s2, fill)?.has,
        };
        if let Form::DeleteSqueeze = form {
            return Ok(CharPlan::new(first.has, identity(), squeezed));
        }
        let table = read_images(complement, s1, first, Bytes::new(role, s2, fill))?;
        Ok(CharPlan::new([false; 256], table, squeezed))
    }

    /// Whether `byte` is deleted.
    pub fn deletes(&self, byte: u8) -> bool
        ensures { result ≡ deletes self.now byte }
    {
        self.deleted[usize::from(byte)]
    }

    /// The image of `byte`, if it is not deleted.
    pub fn image(&self, byte: u8) -> u8
        ensures { result ≡ image self.now byte }
    {
        self.images[usize::from(byte)]
    }

    /// Whether repeats of `byte` are squeezed to one, after deletion and translation.
    pub fn squeezes(&self, byte: u8) -> bool
        ensures { result ≡ squeezes self.now byte }
    {
        self.squeezed[usize::from(byte)]
    }

    /// For each byte, whether it is deleted.
    pub fn deleted(&self) -> &[bool; 256]
        ensures { result.now ≡ self.now.deleted }
    {
        &self.deleted
    }

    /// The plan as at most four stretches of adjacent bytes, each with one number that is added to its bytes. A byte
    /// that is its own image is in none. `None` if there are more than four. Nothing is allocated. (The clause `moves`
    /// follows from `found`. It is for callers that need the image of each byte, but not how stretches are formed.)
    pub fn shifts(&self) -> Option<Shifts>
        ensures found { MatchOption result (4 < length (stretches self.now)) (λ s. s ≡ stretches self.now) }
        ensures moves { IfSome result (λ s. HasImagesOf s self.now) }
    {
        shifts_of(self.images())
    }

    /// For each byte, its image.
    pub fn images(&self) -> &[u8; 256]
        ensures { result.now ≡ self.now.images }
    {
        &self.images
    }

    /// For each byte, whether its repeats are squeezed.
    pub fn squeezed(&self) -> &[bool; 256]
        ensures { result.now ≡ self.now.squeezed }
    {
        &self.squeezed
    }
}

/// Does nothing at run time. Its contract states that the tables of a plan agree with the two arrays for every byte, as
/// `specs/TrPlan.antt` defines it.
#[tactic(auto, using(crate::proofs::TrArrays::table_at))]
pub fn tables_match_plan()
    ensures { TablesMatchPlan }
{}

/// Does nothing at run time. Its contract states that the tables of a plan are an implementation of it: they have its
/// map, by which the output of `tr` is defined.
pub fn tables_have_map()
    ensures { TablesHaveMap }
{}

/// Does nothing at run time. Its contract states that reading the strings never fails for lack of memory, so that
/// [`CharPlan::read`] never returns `SetFaultKind::Memory`.
pub fn strings_need_no_memory()
    ensures { NoMemoryFault }
{}
