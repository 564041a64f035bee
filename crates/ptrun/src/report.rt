//! `Report`, the result of a run; and the report if a message is said in place of one.

ghost use Rattle.std.specs.Prelude.{◌≡◌, false};
ghost use Rattle.ptrun.specs.Calls.MessageWrites.{texts};
ghost use Rattle.ptrun.specs.MessageWrites.{HasSaid, line_of};

use crate::messages::say;
use ptlines::{Sink, Store};
use std::alloc::Allocator;

/// The result of a run, with its two sinks.
#[derive(Drop)]
pub struct Report<W, E> {
    /// The exit status: 0; 1 if a file could not be opened, a line is out of order, a read or write failed, or memory
    /// ran out; 2 for a usage error. POSIX.1-2017 (XCU, EXIT STATUS of each utility) requires 0 or more than 0.
    pub status: u8,
    /// The most bytes of lines that were stored at any moment, without their terminators.
    pub peak: u128,
    /// Whether a request of the run's store for memory failed.
    pub denied: bool,
    /// The sink of the output.
    pub out: W,
    /// The sink of the messages.
    pub messages: E,
}

/// Returns the report of a run with this exit status, from its store and its sinks.
pub fn report_of<A: Allocator + Copy, W, E>(
    store: &Store<A>,
    status: u8,
    out: W,
    messages: E,
) -> Report<W, E>
    ensures status { result.status ≡ status }
    ensures memory { (result.peak ≡ store.now.peak) × (result.denied ≡ store.now.denied) }
    ensures sinks { (result.out ≡ out) × (result.messages ≡ messages) }
{
    Report {
        status,
        peak: store.peak(),
        denied: store.denied(),
        out,
        messages,
    }
}

/// Says a message in place of a run, and returns a report with this status and the unused output.
pub fn report_not_run<W: Sink, E: Sink>(
    status: u8,
    parts: &[&str],
    out: W,
    mut messages: E,
) -> Report<W, E>
    requires { (E.state messages).failed ≡ false }
    ensures status { result.status ≡ status }
    ensures memory { (result.peak ≡ 0) × (result.denied ≡ false) }
    ensures out { result.out ≡ out }
    ensures has_said { HasSaid (E.state messages) (E.state result.messages) (line_of (texts parts.now)) }
{
    let _ = say(&mut messages, parts);
    Report {
        status,
        peak: 0,
        denied: false,
        out,
        messages,
    }
}
