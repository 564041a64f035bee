//! Calls of a reader, step by step, with their expected results. Used by the reader and adapter tests.

use crate::asserts::{holds_of, same_of};
use ptfakes::{ChunkedSource, CountedSource};
use ptlines::{LineFault, LineReader, Source, Store};
use std::alloc::Allocator;
use std::cell::Cell;
use std::process::Abort;

/// The chunk sizes for every text.
pub const SIZES: &[usize] = &[1, 7, usize::MAX];

/// A reader of a text. Reads of standard input are counted.
pub type Reader<'a> = LineReader<CountedSource<'a, ChunkedSource<'a>>, ChunkedSource<'a>>;

/// The kind of input of a reader.
pub enum Input {
    File,
    Standard,
    Refused,
}

/// Creates a reader of a text in chunks of `size` bytes, of which the first `ok_calls` reads succeed.
pub fn reader_of<'a>(
    input: &Input,
    text: &'a [u8],
    (size, ok_calls): (usize, u64),
    pulls: &'a Cell<u64>,
) -> Reader<'a> {
    match input {
        Input::File => LineReader::file(ChunkedSource::new(text, size, ok_calls)),
        Input::Standard => {
            let source = ChunkedSource::new(text, size, ok_calls);
            LineReader::standard(CountedSource::new(source, pulls))
        }
        Input::Refused => LineReader::refused(),
    }
}

/// One call of a reader with a store of one slot, and its expected result.
pub struct Step<'a> {
    /// Whether lines end with byte 0 in this step.
    pub zero: bool,
    /// The bytes buffered before the call, if they are checked.
    pub buffered: Option<&'a [u8]>,
    /// `None` for `fill`; for `block`, how many bytes of it are consumed afterwards.
    pub passed: Option<usize>,
    /// Whether there is a line, or whether the block has the expected bytes.
    pub outcome: Result<bool, LineFault>,
    /// The line or the block, or the prefix of a line if the call fails.
    pub bytes: &'a [u8],
    /// Whether a read has found the end of input after the call, if that is checked.
    pub eof: Option<bool>,
    /// The number of reads after the call, if they are counted.
    pub pulled: Option<u64>,
}

/// A call of `fill` that returns a line.
pub const LINE: Step<'static> = Step {
    zero: false,
    buffered: None,
    passed: None,
    outcome: Ok(true),
    bytes: b"",
    eof: None,
    pulled: None,
};

/// A call of `fill` that finds no further line.
pub const END: Step<'static> = Step {
    outcome: Ok(false),
    eof: Some(true),
    ..LINE
};

/// A call of `fill` that fails.
pub const FAULT: Step<'static> = Step {
    outcome: Err(LineFault::Read),
    eof: Some(false),
    ..LINE
};

/// A call of `block` that fails.
pub const NO_BLOCK: Step<'static> = Step {
    passed: Some(0),
    ..FAULT
};

/// Copies the next line to the one slot of the store.
pub fn next<S: Source, R: Source, A: Allocator + Copy>(
    rt: &impl Abort,
    reader: &mut LineReader<S, R>,
    store: &mut Store<A>,
) -> Result<bool, LineFault> {
    assert!(rt; store.slots() == 1);
    reader.fill(store, 0)
}

/// The line in the one slot.
pub fn current<'a, A: Allocator + Copy>(rt: &impl Abort, store: &'a Store<A>) -> &'a [u8] {
    assert!(rt; store.slots() == 1);
    store.line(0)
}

/// Expects no further line.
pub fn ends<S: Source, R: Source, A: Allocator + Copy>(
    rt: &impl Abort,
    of: &(&str, usize),
    reader: &mut LineReader<S, R>,
    store: &mut Store<A>,
) {
    same_of(rt, of, &next(rt, reader, store), &Ok(false));
    same_of(rt, of, &current(rt, store).len(), &0);
}

/// Expects that the block and `text` agree as far as both go, consumes at most `most` bytes of the block, and returns
/// its length.
pub fn shows<S: Source, R: Source>(
    rt: &impl Abort,
    of: &(&str, usize),
    reader: &mut LineReader<S, R>,
    text: &[u8],
    most: usize,
) -> Result<usize, LineFault> {
    let block = reader.block()?;
    let length = block.len();
    holds_of(rt, of, block.starts_with(text) || text.starts_with(block));
    reader.consume(length.min(most));
    Ok(length)
}

// Makes the call of a step, and checks its result.
fn takes<S: Source, R: Source, A: Allocator + Copy>(
    rt: &impl Abort,
    of: &(&str, usize),
    reader: &mut LineReader<S, R>,
    store: &mut Store<A>,
    step: &Step<'_>,
) {
    reader.set_ending(step.zero);
    same_of(rt, of, &(reader.terminator() == 0), &step.zero);
    if let Some(buffered) = step.buffered {
        holds_of(rt, of, reader.buffered() == buffered);
    }
    let outcome = match step.passed {
        Some(most) => match shows(rt, of, reader, step.bytes, most) {
            Ok(length) => Ok(length == step.bytes.len()),
            Err(fault) => Err(fault),
        },
        // (the slot has these bytes also if the call fails)
        None => {
            let outcome = next(rt, reader, store);
            holds_of(rt, of, current(rt, store) == step.bytes);
            outcome
        }
    };
    same_of(rt, of, &outcome, &step.outcome);
    if let Some(eof) = step.eof {
        same_of(rt, of, &reader.at_eof(), &eof);
    }
    holds_of(rt, of, !store.denied());
}

/// Makes the calls of these steps in order, each into the one slot of `store`, and checks their results.
pub fn run_steps<S: Source, R: Source>(
    rt: &impl Abort,
    name: &str,
    reader: &mut LineReader<S, R>,
    store: &mut Store,
    pulls: &Cell<u64>,
    steps: &[Step<'_>],
) {
    for (number, step) in steps.iter().enumerate() {
        let of = (name, number);
        takes(rt, &of, reader, store, step);
        // (if no count is expected, the count is compared with itself)
        let pulled = step.pulled.unwrap_or(pulls.get());
        same_of(rt, &of, &pulls.get(), &pulled);
    }
}
