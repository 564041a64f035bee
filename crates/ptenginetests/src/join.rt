//! Tests of `join` over in-memory sources and sinks: its output, the line out of order that it names, how often it reads
//! and writes, and its memory. The module `failures` makes each call fail in turn.

use crate::join_blanks::check_extra_blank;
use crate::two_inputs::{
    ANY, BOTH_EMPTY, Case, Example, Expected, FIRST_DISORDER, FIRST_READ_FAILS, Job, OK, Options,
    SECOND_DISORDER, SECOND_READ_FAILS, check_example,
};
use ptmerge::{MergeFault, Side};

/// The job without options.
pub const DEFAULT: Job = Job::Join(DEFAULT_JOB);

const DEFAULT_JOB: Options = Options {
    pairs: true,
    unpaired: [false, false],
    empty: b"",
    list: None,
    sep: None,
    field: [1, 1],
    zero: false,
    descending: false,
};

// Unpairable lines of both inputs are written, too.
const BOTH_UNPAIRED: Job = Job::Join(Options {
    unpaired: [true, true],
    ..DEFAULT_JOB
});

/// Two inputs in pieces of 1, of 7 and of all bytes.
pub const PIECES: Case = Case {
    sizes: &[1, 7, 4096],
    ..BOTH_EMPTY
};

const PIECE_EXAMPLES: &[Example] = &[
    Example {
        name: "a line of 63 bytes between short ones",
        job: BOTH_UNPAIRED,
        case: Case {
            first: b"a 1\nb xxxxxxxxxxxxxxxxxxxxxxxxxxxxxxxxxxxxxxxxxxxxxxxxxxxxxxxxxxxxx\nc 3\nd 4\n",
            second: b"a u\nb v\nd w\n",
            ..PIECES
        },
        expected: Expected {
            result: OK,
            bytes: Some(
                b"a 1 u\nb xxxxxxxxxxxxxxxxxxxxxxxxxxxxxxxxxxxxxxxxxxxxxxxxxxxxxxxxxxxxx v\nc 3\nd 4 w\n",
            ),
            ..ANY
        },
    },
    Example {
        name: "a line of 64 bytes between short ones",
        job: BOTH_UNPAIRED,
        case: Case {
            first: b"a 1\nb xxxxxxxxxxxxxxxxxxxxxxxxxxxxxxxxxxxxxxxxxxxxxxxxxxxxxxxxxxxxxx\nc 3\nd 4\n",
            second: b"a u\nb v\nd w\n",
            ..PIECES
        },
        expected: Expected {
            result: OK,
            bytes: Some(
                b"a 1 u\nb xxxxxxxxxxxxxxxxxxxxxxxxxxxxxxxxxxxxxxxxxxxxxxxxxxxxxxxxxxxxxx v\nc 3\nd 4 w\n",
            ),
            ..ANY
        },
    },
    Example {
        name: "a line of 65 bytes between short ones",
        job: BOTH_UNPAIRED,
        case: Case {
            first: b"a 1\nb xxxxxxxxxxxxxxxxxxxxxxxxxxxxxxxxxxxxxxxxxxxxxxxxxxxxxxxxxxxxxxx\nc 3\nd 4\n",
            second: b"a u\nb v\nd w\n",
            ..PIECES
        },
        expected: Expected {
            result: OK,
            bytes: Some(
                b"a 1 u\nb xxxxxxxxxxxxxxxxxxxxxxxxxxxxxxxxxxxxxxxxxxxxxxxxxxxxxxxxxxxxxxx v\nc 3\nd 4 w\n",
            ),
            ..ANY
        },
    },
    Example {
        name: "a key with several lines after keys with one",
        job: BOTH_UNPAIRED,
        case: Case {
            first: b"a 1\nb 2\nc 3\nd 4\nf 5\n",
            second: b"a u\nc v\nc w\nc x\nd y\ne z\n",
            sizes: &[1, 4, 8, 12, 16, 4096],
            ..BOTH_EMPTY
        },
        expected: Expected {
            result: OK,
            bytes: Some(b"a 1 u\nb 2\nc 3 v\nc 3 w\nc 3 x\nd 4 y\ne z\nf 5\n"),
            ..ANY
        },
    },
    Example {
        name: "several lines with the last key, at the end of a block",
        job: DEFAULT,
        case: Case {
            first: b"a 1\nb 2\nb 3\n",
            second: b"a x\nb y\nb z\n",
            sizes: &[1, 4, 8, 12, 4096],
            ..BOTH_EMPTY
        },
        expected: Expected {
            result: OK,
            bytes: Some(b"a 1 x\nb 2 y\nb 2 z\nb 3 y\nb 3 z\n"),
            ..ANY
        },
    },
    Example {
        name: "a line out of order after pairs",
        job: DEFAULT,
        case: Case {
            first: b"a 1\nb 2\nc 3\nd 4\n",
            second: b"a x\nb y\na z\nd w\n",
            ..PIECES
        },
        expected: Expected {
            result: Some(Err(MergeFault::Disorder(Side::Second, 3))),
            bytes: Some(b"a 1 x\nb 2 y\n"),
            ..ANY
        },
    },
    Example {
        name: "pairs by the first input's line",
        job: DEFAULT,
        case: Case {
            first: b"a 1\na 2\nc 9\n",
            second: b"a x\na y\nb z\n",
            ..PIECES
        },
        expected: Expected {
            result: OK,
            bytes: Some(b"a 1 x\na 1 y\na 2 x\na 2 y\n"),
            ..ANY
        },
    },
    Example {
        name: "a list, and lines that pair with none",
        job: Job::Join(Options {
            unpaired: [false, true],
            empty: b"-",
            list: Some(b"0,1.2,2.2"),
            ..DEFAULT_JOB
        }),
        case: Case {
            first: b"a 1\na 2\nc 9\n",
            second: b"a x\na y\nb z\n",
            ..PIECES
        },
        expected: Expected {
            result: OK,
            bytes: Some(b"a 1 x\na 1 y\na 2 x\na 2 y\nb - z\n"),
            ..ANY
        },
    },
    Example {
        name: "empty fields between separators",
        job: Job::Join(Options {
            sep: Some(b','),
            ..DEFAULT_JOB
        }),
        case: Case {
            first: b"a,1\n",
            second: b"a,\n",
            ..PIECES
        },
        expected: Expected {
            result: OK,
            bytes: Some(b"a,1,\n"),
            ..ANY
        },
    },
    Example {
        name: "no pairs, with separators",
        job: Job::Join(Options {
            pairs: false,
            unpaired: [true, false],
            sep: Some(b','),
            ..DEFAULT_JOB
        }),
        case: Case {
            first: b",1\nk\n",
            second: b"k,2\n",
            ..PIECES
        },
        expected: Expected {
            result: OK,
            bytes: Some(b",1\n"),
            ..ANY
        },
    },
    Example {
        name: "another join field",
        job: Job::Join(Options {
            field: [2, 1],
            ..DEFAULT_JOB
        }),
        case: Case {
            first: b"x a\ny b\n",
            second: b"a 1\nb 2\n",
            ..PIECES
        },
        expected: Expected {
            result: OK,
            bytes: Some(b"a x 1\nb y 2\n"),
            ..ANY
        },
    },
    Example {
        name: "the greatest join field",
        job: Job::Join(Options {
            unpaired: [true, false],
            field: [u64::MAX, 1],
            ..DEFAULT_JOB
        }),
        case: Case {
            first: b"x y\n",
            second: b"",
            ..PIECES
        },
        expected: Expected {
            result: OK,
            bytes: Some(b" x y\n"),
            ..ANY
        },
    },
    Example {
        name: "lines that pair with none",
        job: BOTH_UNPAIRED,
        case: Case {
            first: b"a 1\nc 3\n",
            second: b"b 2\nc 4\n",
            ..PIECES
        },
        expected: Expected {
            result: OK,
            bytes: Some(b"a 1\nb 2\nc 3 4\n"),
            ..ANY
        },
    },
    Example {
        name: "a list of empty fields",
        job: Job::Join(Options {
            unpaired: [true, false],
            empty: b"X",
            list: Some(b"1.2,0,2.3"),
            sep: Some(b':'),
            ..DEFAULT_JOB
        }),
        case: Case {
            first: b"a:\nb:q\n",
            second: b"b:r\n",
            ..PIECES
        },
        expected: Expected {
            result: OK,
            bytes: Some(b"X:a:X\nq:b:X\n"),
            ..ANY
        },
    },
    Example {
        name: "lines without the join field",
        job: DEFAULT,
        case: Case {
            first: b"\na 1\n",
            second: b" \na 2\n",
            ..PIECES
        },
        expected: Expected {
            result: OK,
            bytes: Some(b"\na 1 2\n"),
            ..ANY
        },
    },
    Example {
        name: "runs of blanks",
        job: DEFAULT,
        case: Case {
            first: b"a  1\t2\nlongerkeythan16bytes\tv  w\n",
            second: b" a\tx\nlongerkeythan16bytes y z\n",
            ..PIECES
        },
        expected: Expected {
            result: OK,
            bytes: Some(b"a 1 2 x\nlongerkeythan16bytes v w y z\n"),
            ..ANY
        },
    },
    Example {
        name: "a first input out of order",
        job: DEFAULT,
        case: Case {
            first: b"b 1\na 2\n",
            second: b"a x\nb y\n",
            ..PIECES
        },
        expected: Expected {
            result: FIRST_DISORDER,
            bytes: Some(b"b 1 y\n"),
            ..ANY
        },
    },
    Example {
        name: "a second input out of order",
        job: DEFAULT,
        case: Case {
            first: b"a\n",
            second: b"b\na\n",
            ..PIECES
        },
        expected: Expected {
            result: SECOND_DISORDER,
            bytes: Some(b""),
            ..ANY
        },
    },
    Example {
        name: "lines that end with zero",
        job: Job::Join(Options {
            zero: true,
            ..DEFAULT_JOB
        }),
        case: Case {
            first: b"a 1\nq\0",
            second: b"a x\0",
            ..PIECES
        },
        expected: Expected {
            result: OK,
            bytes: Some(b"a 1\nq x\0"),
            ..ANY
        },
    },
    Example {
        name: "lines that end with zero in descending order",
        job: Job::Join(Options {
            zero: true,
            descending: true,
            ..DEFAULT_JOB
        }),
        case: Case {
            first: b"b 1\0a 2\0",
            second: b"b x\0a y\0",
            ..PIECES
        },
        expected: Expected {
            result: OK,
            bytes: Some(b"b 1 x\0a 2 y\0"),
            ..ANY
        },
    },
    Example {
        name: "descending order with a separator",
        job: Job::Join(Options {
            unpaired: [true, false],
            sep: Some(b','),
            descending: true,
            ..DEFAULT_JOB
        }),
        case: Case {
            first: b"k\n,1\n",
            second: b"",
            ..PIECES
        },
        expected: Expected {
            result: OK,
            bytes: Some(b"k\n,1\n"),
            ..ANY
        },
    },
];

// Examples that check the number of pulls, the number of calls of the sink, and the memory used.
const PULL_EXAMPLES: &[Example] = &[
    // Nothing is read after a line that is out of order: with one pull fewer a read fails, so exactly this number of
    // pulls is made.
    Example {
        name: "enough pulls for a disorder of the first",
        job: DEFAULT,
        case: Case {
            first: b"b\na\nc\n",
            second: b"a\nb\nc\nd\n",
            passing: [2, 3],
            ..BOTH_EMPTY
        },
        expected: Expected {
            result: FIRST_DISORDER,
            bytes: Some(b"b\n"),
            ..ANY
        },
    },
    Example {
        name: "one pull fewer for a disorder of the first",
        job: DEFAULT,
        case: Case {
            first: b"b\na\nc\n",
            second: b"a\nb\nc\nd\n",
            passing: [2, 2],
            ..BOTH_EMPTY
        },
        expected: Expected {
            result: SECOND_READ_FAILS,
            ..ANY
        },
    },
    Example {
        name: "enough pulls for a disorder of the second",
        job: DEFAULT,
        case: Case {
            first: b"a\nb\nc\nd\n",
            second: b"b\na\nc\n",
            passing: [3, 2],
            ..BOTH_EMPTY
        },
        expected: Expected {
            result: SECOND_DISORDER,
            bytes: Some(b"b\n"),
            ..ANY
        },
    },
    Example {
        name: "one pull fewer for a disorder of the second",
        job: DEFAULT,
        case: Case {
            first: b"a\nb\nc\nd\n",
            second: b"b\na\nc\n",
            passing: [2, 2],
            ..BOTH_EMPTY
        },
        expected: Expected {
            result: FIRST_READ_FAILS,
            ..ANY
        },
    },
    // Buffered output is written out before each pull: between groups, while a group is read, and after its pairs.
    Example {
        name: "sent between groups",
        job: BOTH_UNPAIRED,
        case: Case {
            first: b"a\nc\n",
            second: b"b\nd\n",
            ..BOTH_EMPTY
        },
        expected: Expected {
            result: OK,
            calls: Some(5),
            ..ANY
        },
    },
    Example {
        name: "sent before the ends are asked for",
        job: BOTH_UNPAIRED,
        case: Case {
            first: b"a\nc\n",
            second: b"b\nd\n",
            sizes: &[usize::MAX],
            ..BOTH_EMPTY
        },
        expected: Expected {
            result: OK,
            calls: Some(3),
            ..ANY
        },
    },
    Example {
        name: "sent while a group is gathered",
        job: BOTH_UNPAIRED,
        case: Case {
            first: b"a\nb\n",
            second: b"b 2\n",
            sizes: &[4],
            ..BOTH_EMPTY
        },
        expected: Expected {
            result: OK,
            calls: Some(3),
            ..ANY
        },
    },
    Example {
        name: "sent behind the pairs",
        job: BOTH_UNPAIRED,
        case: Case {
            first: b"a 1\nc 1\n",
            second: b"a 2\nd\n",
            sizes: &[4],
            ..BOTH_EMPTY
        },
        expected: Expected {
            result: OK,
            calls: Some(4),
            ..ANY
        },
    },
    // The bound is the bytes of four lines, and of the largest group of the second input, which is the first one.
    Example {
        name: "a group is kept until its last pair",
        job: DEFAULT,
        case: Case {
            first: b"a 1\na 2\nb 3\nc 4\n",
            second: b"a x\na y\na z\nb u\nc v\nc w\n",
            ..BOTH_EMPTY
        },
        expected: Expected {
            result: OK,
            bytes: Some(b"a 1 x\na 1 y\na 1 z\na 2 x\na 2 y\na 2 z\nb 3 u\nc 4 v\nc 4 w\n"),
            peak: (0, 2 * 3 + 2 * 3 + 9),
            ..ANY
        },
    },
    // The bound is the bytes of four lines: without pairs no group is kept.
    Example {
        name: "without pairs nothing is copied",
        job: Job::Join(Options {
            pairs: false,
            unpaired: [true, true],
            ..DEFAULT_JOB
        }),
        case: Case {
            first: b"a 1\na 2\nb 3\n",
            second: b"a x\na y\na z\nc w\n",
            ..BOTH_EMPTY
        },
        expected: Expected {
            result: OK,
            bytes: Some(b"b 3\nc w\n"),
            peak: (4 * 3, 4 * 3),
            ..ANY
        },
    },
    // The bound is the bytes of four lines: a line that has its key alone is not copied.
    Example {
        name: "a line alone of its key is kept once",
        job: DEFAULT,
        case: Case {
            first: b"a 1\nb 2\nc 3\n",
            second: b"a x\nb y\nc z\n",
            ..BOTH_EMPTY
        },
        expected: Expected {
            result: OK,
            bytes: Some(b"a 1 x\nb 2 y\nc 3 z\n"),
            peak: (4 * 3, 4 * 3),
            ..ANY
        },
    },
    Example {
        name: "a read that fails",
        job: BOTH_UNPAIRED,
        case: Case {
            first: b"a\nc\n",
            second: b"b\n",
            passing: [u64::MAX, 1],
            ..BOTH_EMPTY
        },
        expected: Expected {
            result: SECOND_READ_FAILS,
            bytes: Some(b"a\nb\n"),
            ..ANY
        },
    },
];

#[test]
fn lines_of_two_inputs(rt: HostRuntime) {
    for examples in [PIECE_EXAMPLES, PULL_EXAMPLES] {
        for example in examples {
            for size in example.case.sizes {
                check_example(&rt, rt.alloc(), example, *size);
            }
        }
    }
    // One extra blank, after each word of a line.
    for count in [2usize, 3, 5, 6, 9, 10, 17, 18, 33, 34, 66] {
        for word_index in 0..count {
            check_extra_blank(&rt, rt.alloc(), count, word_index);
        }
    }
}
