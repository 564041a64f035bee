//! `words_of`, which splits a text into the words of a command. Used by `streams`, and by the library for C.

ghost use Rattle.std.specs.Prelude.{◌≡◌, IfOk};
ghost use Rattle.ptlines.specs.Text.{lines};
ghost use Rattle.ptopts.specs.Commands.{words_view};

use std::alloc::{AllocError, Allocator};

/// Splits words, each of which ends with byte 0.
pub fn words_of<A: Allocator + Copy>(alloc: A, text: &str) -> Result<Vec<&str, A>, AllocError>
    ensures { IfOk result (λ words. words_view words.items ≡ lines 0 text.now) }
{
    text.split_terminator('\0').collect(alloc)
}
