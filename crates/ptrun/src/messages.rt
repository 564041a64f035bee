//! Writes messages to a sink: `say`, which is public, and `Messages`, a sink of messages that is used up to its first
//! failure. Used by every module that reports something.

ghost use Rattle.std.specs.Prelude.{◌≡◌, IfSome, true, false};
ghost use Rattle.ptlines.specs.Sinks.{SinkState};
ghost use Rattle.ptrun.specs.Calls.MessageWrites.{SayPost, texts};
ghost use Rattle.ptrun.specs.MessageWrites.{HasSaid, line_of};

use arrayvec::ArrayVec;
use ptlines::{Sink, write_out};
use std::marker::Model;

// The parts and a newline in one array, if they fit.
fn line_of(parts: &[&str]) -> Option<ArrayVec<u8, 1024>>
    ensures { IfSome result (λ line. line.items ≡ line_of (texts parts.now)) }
{
    let mut line = ArrayVec::new();
    for part in parts {
        line.try_extend_from_slice(part.as_bytes()).ok()?;
    }
    line.try_push(b'\n').ok()?;
    Some(line)
}

// Writes one part after another, and a newline.
fn say_in_parts<E: Sink>(messages: &mut E, parts: &[&str]) -> bool
    requires { (E.state messages.old).failed ≡ false }
    ensures { SayPost (E.state messages.old) (E.state messages.new) (line_of (texts parts.now)) result }
{
    for part in parts {
        match write_out(messages, part.as_bytes()) {
            Ok(()) => {}
            Err(_) => return false,
        }
    }
    match write_out(messages, b"\n") {
        Ok(()) => true,
        Err(_) => false,
    }
}

/// Writes the parts of a diagnostic message (POSIX.1-2017, XCU, STDERR of each utility) and a newline to `messages`, up
/// to the first failure. Returns true if all of it was taken; otherwise a prefix of it was. The sink must not have
/// failed before.
///
/// A message of at most 1,024 bytes is one write, so that programs which share a terminal or a log do not mix theirs.
pub fn say<E: Sink>(messages: &mut E, parts: &[&str]) -> bool
    requires { (E.state messages.old).failed ≡ false }
    ensures { SayPost (E.state messages.old) (E.state messages.new) (line_of (texts parts.now)) result }
{
    match line_of(parts) {
        Some(line) => write_out(messages, &line).is_ok(),
        None => say_in_parts(messages, parts),
    }
}

/// Says messages to a sink, up to its first failure.
#[derive(Drop)]
pub struct Messages<E: Sink> {
    sink: E,
    has_failed: bool,
}

impl<E: Sink> Model for Messages<E> {
    ghost use Rattle.std.specs.Prelude.{◌≡◌};
    ghost use Rattle.ptlines.specs.Sinks.{SinkState};

    ghost Value = { SinkState };

    ghost view = { λ v. E.state v.sink };

    ghost invariant = { λ v. v.has_failed ≡ (E.state v.sink).failed };
}

impl<E: Sink> Messages<E> {
    /// Wraps a sink, which must not have failed.
    pub fn new(sink: E) -> Self
        requires { (E.state sink).failed ≡ false }
        ensures { result ≡ E.state sink }
    {
        Messages {
            sink,
            has_failed: false,
        }
    }

    // Says a message, unless an earlier one failed.
    pub(crate) fn say(&mut self, parts: &[&str])
        ensures { HasSaid self.old self.new (line_of (texts parts.now)) }
    {
        if !self.has_failed {
            self.has_failed = !say(&mut self.sink, parts);
        }
    }

    /// Returns the sink.
    pub fn into_sink(self) -> E
        ensures { E.state result ≡ self }
    {
        self.sink
    }
}
