//! The files that a command names. Used by `lib`.

ghost use Rattle.std.specs.Prelude.{◌++◌, ◌∷◌, [], IfSome};
ghost use Rattle.ptlines.specs.Text.{unlines};
ghost use Rattle.ptopts.specs.Commands.{words_view};
ghost use Rattle.ptrunc.specs.Calls.Names.{AreNamed};
ghost use Rattle.ptrunc.specs.Private.Rooms.{HoldsMore};
ghost use Rattle.ptrunc.specs.Results.{Holds};

use crate::answer::{Answer, Part, refuse};
use crate::memory::Room;
use ptopts::{Command, UseFault};
use std::alloc::Allocator;

/// Writes the names of the input files that a command names, in their order, and the name of its output file, if it
/// names one. Each ends with byte 0. Words that are no command name no file.
pub fn write_names<A: Allocator + Copy + Drop>(
    alloc: A,
    words: &[&str],
    names: &mut [u8],
    output: &mut [u8],
) -> Answer
    ensures { AreNamed (words_view words.now) names.new output.new result }
{
    let command = match Command::read(alloc, words) {
        Ok(command) => command,
        Err(UseFault::Memory) => return refuse(None, "", output),
        Err(_) => return refuse(Some(0), "", output),
    };
    let named = write_list(command.names(), names);
    let output_named = match command.output() {
        Some(name) => write_list(&[name], output),
        None => write_list(&[], output),
    };
    match (named, output_named) {
        (Some(named), Some(output_named)) => Answer::new(Some(0), named, output_named),
        _ => refuse(None, "", output),
    }
}

// Writes names, each with byte 0 after it, as far as they fit. `None` if what does not is too much to be counted.
fn write_list(names: &[&str], room: &mut [u8]) -> Option<Part>
    ensures { IfSome result (λ part. Holds room.new part (unlines 0 (words_view names.now))) }
{
    let mut room = Room::new(room);
    let mut lacking: usize = 0;
    for name in names {
        lacking = lacking.checked_add(append_name(&mut room, name))?;
    }
    Some(Part {
        written: room.written,
        lacking,
    })
}

// Appends a name and byte 0, as far as they fit, and returns the number of bytes that do not.
#[tactic(auto, using(crate::proofs::NamingLemmas::name_added))]
fn append_name(room: &mut Room<'_>, name: &str) -> usize
    ensures { HoldsMore room.old room.new (name.now ++ 0 ∷ []) result }
{
    let named = room.append(name.as_bytes());
    let ended = room.append(b"\0");
    name.len() - named + (1 - ended)
}
