//! Tests of `comm` over in-memory sources and sinks: the output, the line that is out of order, and how often the
//! inputs are read and the output is written. The module `failures` makes each call fail in turn.

use crate::two_inputs::{
    ANY, BOTH_EMPTY, Case, Example, Expected, FIRST_DISORDER, FIRST_READ_FAILS, Job, OK,
    SECOND_DISORDER, SECOND_READ_FAILS, check_example,
};
use ptlangs::jobs::CommJob;

/// The job without options.
pub const DEFAULT: Job = Job::Comm(DEFAULT_JOB);

const DEFAULT_JOB: CommJob = CommJob {
    hide: [false; 3],
    zero: false,
    descending: false,
};

/// Two inputs with a common line.
pub const COMMON: Case = Case {
    first: b"a\na\nb\n",
    second: b"a\nc\n",
    ..BOTH_EMPTY
};

const FIRST_UNSORTED: Case = Case {
    first: b"b\na\nc\n",
    second: b"a\nb\nb\nd\n",
    ..BOTH_EMPTY
};

const SECOND_UNSORTED: Case = Case {
    first: b"a\nb\nb\nd\n",
    second: b"b\na\nc\n",
    ..BOTH_EMPTY
};

const ALTERNATING: Case = Case {
    first: b"a\nc\n",
    second: b"b\nd\n",
    ..BOTH_EMPTY
};

const EXAMPLES: &[Example] = &[
    Example {
        name: "a line of 63 bytes between short ones",
        job: DEFAULT,
        case: Case {
            first: b"a\nbxxxxxxxxxxxxxxxxxxxxxxxxxxxxxxxxxxxxxxxxxxxxxxxxxxxxxxxxxxxxxx\nc\nd\n",
            second: b"a\nbxxxxxxxxxxxxxxxxxxxxxxxxxxxxxxxxxxxxxxxxxxxxxxxxxxxxxxxxxxxxxx\nd\n",
            sizes: &[1, 7, 4096],
            ..BOTH_EMPTY
        },
        expected: Expected {
            result: OK,
            bytes: Some(
                b"\t\ta\n\t\tbxxxxxxxxxxxxxxxxxxxxxxxxxxxxxxxxxxxxxxxxxxxxxxxxxxxxxxxxxxxxxx\nc\n\t\td\n",
            ),
            ..ANY
        },
    },
    Example {
        name: "a line of 64 bytes between short ones",
        job: DEFAULT,
        case: Case {
            first: b"a\nbxxxxxxxxxxxxxxxxxxxxxxxxxxxxxxxxxxxxxxxxxxxxxxxxxxxxxxxxxxxxxxx\nc\nd\n",
            second: b"a\nbxxxxxxxxxxxxxxxxxxxxxxxxxxxxxxxxxxxxxxxxxxxxxxxxxxxxxxxxxxxxxxx\nd\n",
            sizes: &[1, 7, 4096],
            ..BOTH_EMPTY
        },
        expected: Expected {
            result: OK,
            bytes: Some(
                b"\t\ta\n\t\tbxxxxxxxxxxxxxxxxxxxxxxxxxxxxxxxxxxxxxxxxxxxxxxxxxxxxxxxxxxxxxxx\nc\n\t\td\n",
            ),
            ..ANY
        },
    },
    Example {
        name: "a line of 65 bytes between short ones",
        job: DEFAULT,
        case: Case {
            first: b"a\nbxxxxxxxxxxxxxxxxxxxxxxxxxxxxxxxxxxxxxxxxxxxxxxxxxxxxxxxxxxxxxxxx\nc\nd\n",
            second: b"a\nbxxxxxxxxxxxxxxxxxxxxxxxxxxxxxxxxxxxxxxxxxxxxxxxxxxxxxxxxxxxxxxxx\nd\n",
            sizes: &[1, 7, 4096],
            ..BOTH_EMPTY
        },
        expected: Expected {
            result: OK,
            bytes: Some(
                b"\t\ta\n\t\tbxxxxxxxxxxxxxxxxxxxxxxxxxxxxxxxxxxxxxxxxxxxxxxxxxxxxxxxxxxxxxxxx\nc\n\t\td\n",
            ),
            ..ANY
        },
    },
    Example {
        name: "common lines come first",
        job: DEFAULT,
        case: COMMON,
        expected: Expected {
            result: OK,
            bytes: Some(b"\t\ta\na\nb\n\tc\n"),
            ..ANY
        },
    },
    Example {
        name: "common lines alone",
        job: Job::Comm(CommJob {
            hide: [true, true, false],
            ..DEFAULT_JOB
        }),
        case: COMMON,
        expected: Expected {
            result: OK,
            bytes: Some(b"a\n"),
            ..ANY
        },
    },
    Example {
        name: "an input out of order",
        job: DEFAULT,
        case: FIRST_UNSORTED,
        expected: Expected {
            result: FIRST_DISORDER,
            bytes: Some(b"\ta\n\t\tb\n\tb\n"),
            ..ANY
        },
    },
    Example {
        name: "lines that end with zero in descending order",
        job: Job::Comm(CommJob {
            zero: true,
            descending: true,
            ..DEFAULT_JOB
        }),
        case: Case {
            first: b"b\0a\0a\0",
            second: b"c\0a\0",
            ..BOTH_EMPTY
        },
        expected: Expected {
            result: OK,
            bytes: Some(b"\tc\0b\0\t\ta\0a\0"),
            ..ANY
        },
    },
    Example {
        name: "a read that fails",
        job: DEFAULT,
        case: Case {
            first: b"a\nc\n",
            second: b"b\n",
            passing: [u64::MAX, 1],
            ..BOTH_EMPTY
        },
        expected: Expected {
            result: SECOND_READ_FAILS,
            bytes: Some(b"a\n\tb\n"),
            ..ANY
        },
    },
    Example {
        name: "a read that fails before a disorder",
        job: DEFAULT,
        case: Case {
            first: b"a\nb\na\n",
            second: b"a\nb\n",
            passing: [u64::MAX, 2],
            ..BOTH_EMPTY
        },
        expected: Expected {
            result: SECOND_READ_FAILS,
            bytes: Some(b"\t\ta\n\t\tb\n"),
            ..ANY
        },
    },
    // Nothing is read after a line that is out of order: with one pull fewer a read fails, so exactly this number of
    // pulls is made.
    Example {
        name: "enough pulls for a disorder of the first",
        job: DEFAULT,
        case: Case {
            passing: [2, 4],
            ..FIRST_UNSORTED
        },
        expected: Expected {
            result: FIRST_DISORDER,
            bytes: Some(b"\ta\n\t\tb\n\tb\n"),
            ..ANY
        },
    },
    Example {
        name: "one pull fewer for a disorder of the first",
        job: DEFAULT,
        case: Case {
            passing: [1, 4],
            ..FIRST_UNSORTED
        },
        expected: Expected {
            result: FIRST_READ_FAILS,
            bytes: Some(b"\ta\n\t\tb\n"),
            ..ANY
        },
    },
    Example {
        name: "enough pulls for a disorder of the second",
        job: DEFAULT,
        case: Case {
            passing: [4, 2],
            ..SECOND_UNSORTED
        },
        expected: Expected {
            result: SECOND_DISORDER,
            bytes: Some(b"a\n\t\tb\nb\n"),
            ..ANY
        },
    },
    Example {
        name: "one pull fewer for a disorder of the second",
        job: DEFAULT,
        case: Case {
            passing: [3, 2],
            ..SECOND_UNSORTED
        },
        expected: Expected {
            result: FIRST_READ_FAILS,
            bytes: Some(b"a\n\t\tb\nb\n"),
            ..ANY
        },
    },
    // Buffered output is written out before each pull. If the block already has the next line, no pull is made.
    Example {
        name: "sent before each read of a line",
        job: DEFAULT,
        case: ALTERNATING,
        expected: Expected {
            result: OK,
            calls: Some(5),
            ..ANY
        },
    },
    Example {
        name: "sent before the ends are asked for",
        job: DEFAULT,
        case: Case {
            sizes: &[usize::MAX],
            ..ALTERNATING
        },
        expected: Expected {
            result: OK,
            calls: Some(3),
            ..ANY
        },
    },
    Example {
        name: "sent behind a common line",
        job: DEFAULT,
        case: Case {
            first: b"a\nb\n",
            second: b"a\n",
            sizes: &[4],
            ..BOTH_EMPTY
        },
        expected: Expected {
            result: OK,
            calls: Some(3),
            ..ANY
        },
    },
];

#[test]
fn lines_of_two_inputs(rt: HostRuntime) {
    for example in EXAMPLES {
        for size in example.case.sizes {
            check_example(&rt, rt.alloc(), example, *size);
        }
    }
}
