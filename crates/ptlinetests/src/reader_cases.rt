//! Named cases for a reader: the result of each call, step by step.

use crate::asserts::same_of;
use crate::reader_steps::{END, FAULT, Input, LINE, NO_BLOCK, SIZES, Step, reader_of, run_steps};
use ptlines::Store;
use std::cell::Cell;
use std::process::Abort;
use std::test::Fail;

// A name, the kind of input, its text, the sizes of the chunks, how many reads succeed, and the steps.
struct Case {
    name: &'static str,
    input: Input,
    text: &'static [u8],
    sizes: &'static [usize],
    ok_calls: u64,
    steps: &'static [Step<'static>],
}

// A file, in chunks of each size.
const FILE: Case = Case {
    name: "",
    input: Input::File,
    text: b"",
    sizes: SIZES,
    ok_calls: u64::MAX,
    steps: &[],
};

// Standard input, in chunks of four bytes.
const STANDARD: Case = Case {
    input: Input::Standard,
    sizes: &[4],
    ..FILE
};

// Four chunks of two bytes; the fifth read is the end of input.
const FAILING: Case = Case {
    text: b"ab\ncd\nef",
    sizes: &[2],
    ..STANDARD
};

const FILES: &[Case] = &[
    Case {
        name: "nothing",
        text: b"",
        steps: &[END],
        ..FILE
    },
    Case {
        name: "nothing, and zero",
        text: b"",
        steps: &[Step { zero: true, ..END }],
        ..FILE
    },
    Case {
        name: "a newline",
        text: b"\n",
        steps: &[
            Step {
                eof: Some(false),
                ..LINE
            },
            END,
        ],
        ..FILE
    },
    Case {
        name: "a newline is data",
        text: b"\n",
        steps: &[
            Step {
                zero: true,
                bytes: b"\n",
                eof: Some(true),
                ..LINE
            },
            Step { zero: true, ..END },
        ],
        ..FILE
    },
    Case {
        name: "a zero",
        text: b"\0",
        steps: &[Step { zero: true, ..LINE }, Step { zero: true, ..END }],
        ..FILE
    },
    Case {
        name: "a zero is data",
        text: b"\0",
        steps: &[
            Step {
                bytes: b"\0",
                ..LINE
            },
            END,
        ],
        ..FILE
    },
    Case {
        name: "zeros among lines",
        text: b"a\0b\n\0\n",
        steps: &[
            Step {
                bytes: b"a\0b",
                ..LINE
            },
            Step {
                bytes: b"\0",
                ..LINE
            },
            END,
        ],
        ..FILE
    },
    Case {
        name: "newlines among lines",
        text: b"a\0b\n\0\n",
        steps: &[
            Step {
                zero: true,
                bytes: b"a",
                ..LINE
            },
            Step {
                zero: true,
                bytes: b"b\n",
                ..LINE
            },
            Step {
                zero: true,
                bytes: b"\n",
                ..LINE
            },
            Step { zero: true, ..END },
        ],
        ..FILE
    },
    Case {
        name: "a zero before a newline",
        text: b"a\nb\0\n",
        steps: &[
            Step {
                bytes: b"a",
                ..LINE
            },
            Step {
                bytes: b"b\0",
                ..LINE
            },
            END,
        ],
        ..FILE
    },
    Case {
        name: "empty lines, and a last one without its end",
        text: b"\n\nx",
        steps: &[
            LINE,
            LINE,
            Step {
                bytes: b"x",
                ..LINE
            },
            END,
        ],
        ..FILE
    },
    Case {
        name: "other bytes",
        text: b"\xff\x80\r\n\x0b",
        steps: &[
            Step {
                bytes: b"\xff\x80\r",
                ..LINE
            },
            Step {
                bytes: b"\x0b",
                ..LINE
            },
            END,
        ],
        ..FILE
    },
];

const STANDARDS: &[Case] = &[
    Case {
        name: "refused",
        input: Input::Refused,
        steps: &[FAULT, NO_BLOCK, FAULT, NO_BLOCK],
        ..STANDARD
    },
    Case {
        name: "the ending is set and set back",
        text: b"a\nb\0c\nd\0\n",
        sizes: &[usize::MAX],
        steps: &[
            Step {
                bytes: b"a",
                ..LINE
            },
            Step {
                zero: true,
                bytes: b"b",
                ..LINE
            },
            Step {
                bytes: b"c",
                ..LINE
            },
            Step {
                bytes: b"d\0",
                ..LINE
            },
            END,
        ],
        ..STANDARD
    },
    Case {
        name: "a line is given at its end",
        text: b"ab\n\ncd",
        sizes: &[1],
        steps: &[
            Step {
                bytes: b"ab",
                pulled: Some(3),
                ..LINE
            },
            Step {
                pulled: Some(4),
                ..LINE
            },
            Step {
                bytes: b"cd",
                pulled: Some(7),
                ..LINE
            },
        ],
        ..STANDARD
    },
    Case {
        name: "lines and blocks in turn",
        text: b"ab\ncd\nef",
        steps: &[
            Step {
                bytes: b"ab",
                ..LINE
            },
            Step {
                passed: Some(0),
                bytes: b"c",
                ..LINE
            },
            Step {
                passed: Some(0),
                bytes: b"c",
                ..LINE
            },
            Step {
                bytes: b"cd",
                ..LINE
            },
            Step {
                passed: Some(1),
                bytes: b"ef",
                ..LINE
            },
            Step {
                bytes: b"f",
                ..LINE
            },
            Step {
                passed: Some(0),
                ..LINE
            },
            END,
        ],
        ..STANDARD
    },
    Case {
        name: "what was not given is held",
        text: b"ab\ncd\nef",
        steps: &[
            Step {
                buffered: Some(b""),
                bytes: b"ab",
                ..LINE
            },
            Step {
                buffered: Some(b"c"),
                bytes: b"cd",
                ..LINE
            },
            Step {
                buffered: Some(b"ef"),
                passed: Some(1),
                bytes: b"ef",
                ..LINE
            },
            Step {
                buffered: Some(b"f"),
                passed: Some(0),
                bytes: b"f",
                ..LINE
            },
        ],
        ..STANDARD
    },
    Case {
        name: "the first pull fails",
        ok_calls: 0,
        steps: &[
            FAULT,
            Step {
                pulled: Some(1),
                ..NO_BLOCK
            },
            FAULT,
            Step {
                pulled: Some(1),
                ..NO_BLOCK
            },
        ],
        ..FAILING
    },
    Case {
        name: "the second pull fails",
        ok_calls: 1,
        steps: &[
            Step {
                bytes: b"ab",
                ..FAULT
            },
            Step {
                pulled: Some(2),
                ..NO_BLOCK
            },
            Step {
                bytes: b"ab",
                ..FAULT
            },
            Step {
                pulled: Some(2),
                ..NO_BLOCK
            },
        ],
        ..FAILING
    },
    Case {
        name: "the third pull fails",
        ok_calls: 2,
        steps: &[
            Step {
                bytes: b"ab",
                ..LINE
            },
            Step {
                bytes: b"c",
                ..FAULT
            },
            Step {
                pulled: Some(3),
                ..NO_BLOCK
            },
            Step {
                bytes: b"c",
                ..FAULT
            },
            Step {
                pulled: Some(3),
                ..NO_BLOCK
            },
        ],
        ..FAILING
    },
    Case {
        name: "the fourth pull fails",
        ok_calls: 3,
        steps: &[
            Step {
                bytes: b"ab",
                ..LINE
            },
            Step {
                bytes: b"cd",
                ..LINE
            },
            FAULT,
            Step {
                pulled: Some(4),
                ..NO_BLOCK
            },
            FAULT,
            Step {
                pulled: Some(4),
                ..NO_BLOCK
            },
        ],
        ..FAILING
    },
    Case {
        name: "the pull of the end fails",
        ok_calls: 4,
        steps: &[
            Step {
                bytes: b"ab",
                ..LINE
            },
            Step {
                bytes: b"cd",
                ..LINE
            },
            Step {
                bytes: b"ef",
                ..FAULT
            },
            Step {
                pulled: Some(5),
                ..NO_BLOCK
            },
            Step {
                bytes: b"ef",
                ..FAULT
            },
            Step {
                pulled: Some(5),
                ..NO_BLOCK
            },
        ],
        ..FAILING
    },
];

fn runs(rt: &impl Abort, store: &mut Store, case: &Case, size: usize) {
    let pulls = Cell::new(0);
    let mut reader = reader_of(&case.input, case.text, (size, case.ok_calls), &pulls);
    let is_refused = matches!(&case.input, Input::Refused);
    same_of(rt, &case.name, &reader.is_refused(), &is_refused);
    run_steps(rt, case.name, &mut reader, store, &pulls, case.steps);
    same_of(rt, &case.name, &reader.is_refused(), &is_refused);
}

#[test]
fn reader_step_by_step(rt: HostRuntime) -> Result<(), Fail> {
    for cases in [FILES, STANDARDS] {
        for case in cases {
            for size in case.sizes {
                let mut store = Store::new(rt.alloc(), 1)?;
                runs(&rt, &mut store, case, *size);
            }
        }
    }
    Ok(())
}
