//! `Row` collects the fields of an output line, so that most lines are pushed at once.

ghost use Rattle.std.specs.Prelude.{◌≡◌, ◌++◌, []};
ghost use Rattle.ptlines.specs.Calls.Outputs.{PushPost};
ghost use Rattle.ptmerge.specs.Private.Write.{AddPost};

use ptlines::{Out, Sink, WriteFault, copy_all};
use std::marker::Model;

// How many bytes of an output line are collected before they are pushed.
const ROW: usize = 96;

// The bytes of an output line that were not pushed yet.
#[derive(Drop)]
pub(crate) struct Row {
    // The first `end` bytes are the row.
    bytes: [u8; ROW],
    end: usize,
}

impl Model for Row {
    ghost use Rattle.std.specs.Prelude.{◌≡◌, ◌≤◌, ℕ, List, length, take};
    ghost use Rattle.ptmerge.specs.declared.tools.join.row.TheConstants.{ROW};

    ghost Value = { List ℕ };

    ghost view = { λ r. take r.end r.bytes };

    ghost invariant = { λ r. (r.end ≤ ROW) × (length r.bytes ≡ ROW) };
}

impl Row {
    // Creates a row without bytes.
    #[inline(always)]
    pub(crate) fn new() -> Self
        ensures { result ≡ [] }
    {
        Row {
            bytes: [0; ROW],
            end: 0,
        }
    }

    // Adds a field and the bytes before it. If they do not fit, they are pushed after those of the row, which is empty
    // then.
    #[inline(always)]
    pub(crate) fn add<W: Sink>(
        &mut self,
        prefix: &[u8],
        field: &[u8],
        out: &mut Out<W>,
    ) -> Result<(), WriteFault>
        ensures { AddPost self.old self.new (prefix.now ++ field.now) out.old out.new result }
    {
        if prefix.len() + field.len() > ROW - self.end {
            return self.push_with(prefix, field, out);
        }
        let from = self.end + prefix.len();
        copy_all(prefix, &mut self.bytes, self.end);
        copy_all(field, &mut self.bytes, from);
        self.end = from + field.len();
        Ok(())
    }

    // Pushes the row, and a field and the bytes before it. Most lines fit into a row.
    fn push_with<W: Sink>(
        &mut self,
        prefix: &[u8],
        field: &[u8],
        out: &mut Out<W>,
    ) -> Result<(), WriteFault>
        ensures empty { self.new ≡ [] }
        ensures pushed { PushPost out.old out.new (self.old ++ prefix.now ++ field.now) result }
    {
        let end = self.end;
        self.end = 0;
        out.push_line(&self.bytes[..end], prefix, field)
    }

    // Pushes the row.
    #[inline(always)]
    pub(crate) fn push<W: Sink>(&self, out: &mut Out<W>) -> Result<(), WriteFault>
        ensures { PushPost out.old out.new self.now result }
    {
        out.push(&self.bytes[..self.end])
    }
}
