//! Reading lines, a counted store for lines, and buffered output. The tools of `ptflow` and `ptmerge` use it for all
//! input and output. Here is the list of its modules, and the theorem that a text has one list of lines.
#![tactic(auto)]

ghost use Rattle.ptlines.specs.Laws.Text.{LinesAreUnique, CompleteLinesAreLines};

mod cmp;
mod copy;
mod memory;
mod out;
mod parts;
mod reader;
mod scan;
mod sink;
mod sizes;
mod slot;
mod source;
mod std_io;
mod store;

pub use cmp::compare;
pub use copy::{copy_all, copy_short};
pub use out::{Out, WriteFault, write_out};
pub use parts::parts_of_lines;
pub use reader::LineReader;
pub use scan::{
    Blank, MatchWindow, Matches, Needle, find_byte, find_in_chunk, find_near, mask_at, masks_of,
    nth_bit, nth_index,
};
pub use sink::{Failed, Sink};
pub use sizes::{BLOCK, PAD, PADDED, PaddedBlock, size_of_a_block};
pub use source::Source;
pub use std_io::{FromRead, FromWrite};
pub use store::{LineFault, Store};

/// A text can be split into lines in one way only: its lines, as the contracts define them, are the one list of pieces
/// without the terminator which, put together with their terminators, are the text. The lines that are known to be
/// complete before the end of the input was reached are those up to the last terminator.
///
/// The function does nothing at run time. It exists for its contract, which states these two theorems.
pub fn lines_are_unique()
    ensures unique { LinesAreUnique }
    ensures eof { CompleteLinesAreLines }
{}
