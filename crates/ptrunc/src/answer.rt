//! `Answer`, the result of a call beside the bytes that it writes, with a `Part` for each text; and `refuse`, the
//! answer of a call that ran nothing, with its message. Used by `lib`, `naming` and `running`.

ghost use Rattle.std.specs.Prelude.{◌≡◌};
ghost use Rattle.ptrunc.specs.Calls.Answers.{IsRefused, StatusPost};
ghost use Rattle.ptrunc.specs.Results.{Holds};

/// How much of a text a room has got.
#[repr(C)]
#[derive(Clone, Copy, Drop)]
pub struct Part {
    /// The number of bytes that were written.
    pub written: usize,
    /// The number of bytes after them, for which there was no room.
    pub lacking: usize,
}

/// The result of a call, beside the bytes that it writes.
#[repr(C)]
#[derive(Clone, Copy, Drop)]
pub struct Answer {
    /// How much of the output was written.
    pub out: Part,
    /// How much of the messages was written.
    pub messages: Part,
    /// The exit status of the program (0 to 2); 3 if there was too little room, 4 if memory ran out, and 5 if the
    /// arguments are not what the header asks for.
    pub status: u8,
}

impl Answer {
    /// The answer with this exit status; `None` if memory ran out.
    pub fn new(exit: Option<u8>, out: Part, messages: Part) -> Self
        ensures parts { (result.out ≡ out) × (result.messages ≡ messages) }
        ensures status { StatusPost exit out messages result.status }
    {
        let status = match exit {
            None => 4,
            Some(_) if out.lacking > 0 || messages.lacking > 0 => 3,
            Some(status) => status,
        };
        Answer {
            out,
            messages,
            status,
        }
    }
}

/// Writes a message about a call that ran nothing, and returns the answer with this exit status; `None` if memory ran
/// out.
pub fn refuse(exit: Option<u8>, text: &str, messages: &mut [u8]) -> Answer
    ensures { IsRefused exit text.now messages.new result }
{
    let out = Part {
        written: 0,
        lacking: 0,
    };
    Answer::new(exit, out, write_text(text.as_bytes(), messages))
}

// Writes a text to a room, as far as it fits.
fn write_text(text: &[u8], room: &mut [u8]) -> Part
    ensures { Holds room.new result text.now }
{
    let written = text.len().min(room.len());
    room[..written].copy_from_slice(&text[..written]);
    Part {
        written,
        lacking: text.len() - written,
    }
}
