//! The output list of `join` (option `-o`), as `ptopts` reads it and `ptmerge` uses it: `OutList`, its fields and
//! faults, and the law that a list is read as the grammar says.
ghost use Rattle.std.specs.Prelude.{◌≡◌};
ghost use Rattle.ptlangs.specs.Calls.Results.{ValidatedParsePost};
ghost use Rattle.ptlangs.specs.Laws.OutLists.{OutListMatchesGrammar};
ghost use Rattle.ptlangs.specs.Calls.OutLists.{out_list_fault};
ghost use Rattle.ptlangs.specs.OutLists.{field_of, out_list};
ghost use Rattle.ptlangs.specs.Calls.OutLists.{field_at};

use crate::lists::{Element, first_fault, read_elements};
use crate::numbers::{decimal, is_decimal};
use std::alloc::{AllocError, Allocator, Global};
use std::marker::Model;

/// One of the two files of `join`.
#[derive(Clone, Copy, Debug, PartialEq, Eq)]
pub enum File {
    First = 1,
    Second = 2,
}

/// The field that one element of an output list names.
#[derive(Clone, Copy, Debug, PartialEq, Eq)]
pub enum OutField {
    /// The join field.
    Join,
    /// The field of `File` with this number, counted from 1.
    Field(File, u64),
}

impl Element for OutField {
    ghost use Rattle.ptlangs.specs.OutLists.{element_field};

    type Fault = OutFault;

    ghost meaning = { element_field };

    fn read(text: &[u8]) -> Result<OutField, OutFault> {
        match text {
            [] => Err(OutFault::Empty),
            [b'0'] => Ok(OutField::Join),
            [b'1', b'.', number @ ..] => read_field(File::First, number),
            [b'2', b'.', number @ ..] => read_field(File::Second, number),
            _ => Err(OutFault::Malformed),
        }
    }
}

/// Why a list is rejected: the fault of its first faulty element, from left to right.
#[derive(Clone, Copy, Debug, PartialEq, Eq)]
pub enum OutFault {
    /// An element is empty. An empty list has one element, which is empty.
    Empty = 1,
    /// An element has none of the forms `0`, `1.n` and `2.n`.
    Malformed = 2,
    /// The number of a field is zero; fields are counted from 1.
    Zero = 3,
    /// The number of a field is above `u64::MAX`.
    TooLarge = 4,
    /// An allocation failed.
    Memory = 5,
}

impl From<AllocError> for OutFault {
    ghost use Rattle.std.specs.Prelude.{◌≡◌};
    ghost use Rattle.ptlangs.specs.declared.outlist.OutFault.TheVariants.{Memory};

    ghost from_gives = { λ _ e. e ≡ Memory };

    fn from(_error: AllocError) -> OutFault {
        OutFault::Memory
    }
}

/// The fields of an output list, in order.
#[derive(Drop)]
pub struct OutList<A: Allocator = Global> {
    kept: Vec<OutField, A>,
}

impl<A: Allocator> Model for OutList<A> {
    ghost use Rattle.std.specs.Prelude.{List};
    ghost use Rattle.ptlangs.specs.declared.outlist.OutField.{OutField};

    ghost Value = { List OutField };

    ghost view = { λ l. l.kept.items };
}

impl<A: Allocator> OutList<A> {
    /// Parses a list: the elements `0` (the join field), `1.n` and `2.n` (field `n` of the first and of the second
    /// file), with a single comma, space or tab between each two (POSIX.1-2017, XCU, `join`, option `-o`). POSIX leaves
    /// a mixture of separators unspecified.
    ///
    /// # Errors
    ///
    /// The fault of the first faulty element. `Memory` is returned only for a list without a fault, because the whole
    /// list is checked before anything is allocated.
    pub fn read(alloc: A, text: &[u8]) -> Result<OutList<A>, OutFault>
        ensures { ValidatedParsePost (λ l. l) out_list_fault result (out_list text.now) }
    {
        if let Some(fault) = first_fault::<OutField>(text) {
            return Err(fault);
        }
        let kept = read_elements(alloc, text)?;
        Ok(OutList { kept })
    }

    /// The field with this index in the list, counted from 0, as a pair: (0, 0) for the join field, otherwise the file,
    /// 1 or 2, and the number of the field, counted from 1. `None` past the end of the list.
    pub fn at(&self, index: usize) -> Option<(u8, u64)>
        ensures { result ≡ field_at self.now index }
    {
        match self.kept.get(index)? {
            OutField::Join => Some((0, 0)),
            OutField::Field(File::First, number) => Some((1, *number)),
            OutField::Field(File::Second, number) => Some((2, *number)),
        }
    }

    /// The fields in the order of the list.
    pub fn fields(&self) -> &[OutField]
        ensures { result.now ≡ self.now }
    {
        self.kept.as_slice()
    }
}

/// Does nothing at run time. Its contract states that [`OutList::read`] accepts exactly the lists of the grammar in
/// `specs/Laws/OutLists.antt`, and returns the fields that the grammar gives.
#[tactic(auto, using(crate::proofs::ListElements::accepts_out_lists))]
pub fn accepts_the_grammar()
    ensures { OutListMatchesGrammar }
{}

/// The field of `file` with this number.
fn read_field(file: File, number: &[u8]) -> Result<OutField, OutFault>
    ensures { result ≡ field_of file number.now }
{
    if !is_decimal(number) {
        return Err(OutFault::Malformed);
    }
    match decimal(number) {
        None => Err(OutFault::TooLarge),
        Some(0) => Err(OutFault::Zero),
        Some(number) => Ok(OutField::Field(file, number)),
    }
}
