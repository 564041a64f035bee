//! Tests of command lines: examples of each tool (those of `join` and `tr` are in modules of their own), an example
//! of each fault, the line terminator and the order of lines, and the limits on the number of operands.

use crate::asserts::{assert_for, assert_same};
use crate::expected::{Example, Expected, Files, Job, expect_command};
use crate::join_words::JOINS;
use crate::tr_words::TRS;
use ptlangs::jobs::{CommJob, CutJob, PasteJob, Show, UniqJob};
use ptlangs::ranges::Interval;
use ptlangs::{SetFault, SetFaultKind, SetString};
use ptopts::{Command, Input, UseFault};
use std::alloc::Global;
use std::process::Abort;
use std::test::Fail;

/// A command line, and its fault.
type Refused<'a> = (&'a [&'a str], UseFault<'a>);

/// One example for each fault. All others are proved from the definitions, and the built program is run on them.
const REFUSED: &[Refused] = &[
    (&[], UseFault::Tool),
    (&["cut", "-sé"], UseFault::Unknown("-sé")),
    (&["tr", "-z", "a", "b"], UseFault::Unknown("-z")),
    (&["cut", "-r"], UseFault::Unknown("-r")),
    (&["cut", "-snd"], UseFault::NeedsValue(b'd')),
    (&["cut", "-b", "1", "-b", "2"], UseFault::Twice(b'b')),
    (&["uniq", "-ud"], UseFault::Together(b'd', b'u')),
    (&["cut", "-d", "\n", "-f2"], UseFault::Value(b'd', "\n")),
    (&["cut", "-d", "\0", "-zf2"], UseFault::Value(b'd', "\0")),
    (
        &["cut", "-b", "1,18446744073709551616"],
        UseFault::Value(b'b', "1,18446744073709551616"),
    ),
    (&["paste", "-d", ",\\x", "f"], UseFault::Value(b'd', ",\\x")),
    (
        &["join", "-o", "1.1,1.18446744073709551616", "f", "g"],
        UseFault::Value(b'o', "1.1,1.18446744073709551616"),
    ),
    (
        &["join", "-z", "-t", "\0", "f", "g"],
        UseFault::Value(b't', "\0"),
    ),
    (&["join", "f"], UseFault::Operands),
    (&["comm", "-", "-"], UseFault::StandardTwice),
    (&["cut", "-n"], UseFault::NeedsList),
    (
        &["tr", "-d", "\\400"],
        UseFault::String(SetFault {
            string: SetString::First,
            kind: SetFaultKind::Octal,
        }),
    ),
    (
        &["tr", "a", ""],
        UseFault::String(SetFault {
            string: SetString::Second,
            kind: SetFaultKind::Empty,
        }),
    ),
];

/// The expected job of `cut`.
pub struct Cut {
    fields: bool,
    list: &'static [Interval],
    delim: u8,
    only: bool,
}

/// The line terminator and the order of lines.
const ENDS_AND_ORDERS: &[Example] = &[
    (
        &["cut", "-b1"],
        Expected::Lines {
            zero: false,
            descending: false,
        },
    ),
    (
        &["cut", "-zzb1"],
        Expected::Lines {
            zero: true,
            descending: false,
        },
    ),
    (
        &["cut", "-d", "\n", "-f", "2", "-z"],
        Expected::Lines {
            zero: true,
            descending: false,
        },
    ),
    (
        &["paste", "-sz", "f"],
        Expected::Lines {
            zero: true,
            descending: false,
        },
    ),
    (
        &["uniq", "-zc"],
        Expected::Lines {
            zero: true,
            descending: false,
        },
    ),
    (
        &["comm", "f", "g"],
        Expected::Lines {
            zero: false,
            descending: false,
        },
    ),
    (
        &["comm", "-z1", "f", "g"],
        Expected::Lines {
            zero: true,
            descending: false,
        },
    ),
    (
        &["comm", "-r", "f", "g"],
        Expected::Lines {
            zero: false,
            descending: true,
        },
    ),
    (
        &["join", "-t", "\n", "-z", "f", "g"],
        Expected::Lines {
            zero: true,
            descending: false,
        },
    ),
    (
        &["join", "-rz", "f", "g"],
        Expected::Lines {
            zero: true,
            descending: true,
        },
    ),
    (
        &["join", "-r", "-t", ",", "-a", "1", "f", "g"],
        Expected::Lines {
            zero: false,
            descending: true,
        },
    ),
];

const FROM_SECOND: &[Interval] = &[Interval {
    first: 2,
    last: u64::MAX,
}];

const CUTS: &[Example] = &[
    (
        &["cut", "-b", "2-"],
        Expected::Of(
            Files {
                order: &[Input::Standard],
                names: &[],
                output: None,
            },
            Job::Cut(&Cut {
                fields: false,
                list: FROM_SECOND,
                delim: b'\t',
                only: false,
            }),
        ),
    ),
    (
        &["cut", "-nb", "2-"],
        Expected::Of(
            Files {
                order: &[Input::Standard],
                names: &[],
                output: None,
            },
            Job::Cut(&Cut {
                fields: false,
                list: FROM_SECOND,
                delim: b'\t',
                only: false,
            }),
        ),
    ),
    (
        &["cut", "-c2-", "--", "-s", "f"],
        Expected::Of(
            Files {
                order: &[Input::File(0), Input::File(1)],
                names: &["-s", "f"],
                output: None,
            },
            Job::Cut(&Cut {
                fields: false,
                list: FROM_SECOND,
                delim: b'\t',
                only: false,
            }),
        ),
    ),
    (
        &["cut", "-ssd,", "-f", "2-", "f", "-", "f", "-d:"],
        Expected::Of(
            Files {
                order: &[
                    Input::File(0),
                    Input::Standard,
                    Input::File(1),
                    Input::File(2),
                ],
                names: &["f", "f", "-d:"],
                output: None,
            },
            Job::Cut(&Cut {
                fields: true,
                list: FROM_SECOND,
                delim: b',',
                only: true,
            }),
        ),
    ),
    (
        &["cut", "-sf2-", "-d", "-", "-"],
        Expected::Of(
            Files {
                order: &[Input::Standard],
                names: &[],
                output: None,
            },
            Job::Cut(&Cut {
                fields: true,
                list: FROM_SECOND,
                delim: b'-',
                only: true,
            }),
        ),
    ),
];

/// Fails the test unless the job of `cut` is this one.
pub fn check_cut(rt: &impl Abort, job: &CutJob, row: &Cut) {
    assert_same(rt, &job.list.intervals(), &row.list);
    assert_same(
        rt,
        &(job.fields, job.delim, job.only),
        &(row.fields, row.delim, row.only),
    );
}

/// Fails the test unless the words have this fault.
fn expect_fault(rt: &impl Abort, alloc: Global, words: &[&str], fault: UseFault) {
    assert_same(rt, &Command::read(alloc, words).err(), &Some(fault));
}

// `cut` and `paste` accept at most 512 operands, and `paste` needs one. A wrong value is reported before too many
// operands.
fn counts_operands(rt: &impl Abort, alloc: Global) -> Result<(), Fail> {
    let mut words = ["-"; 515];
    words[0] = "cut";
    words[1] = "-b1";
    expect_fault(rt, alloc, &words, UseFault::Operands);
    expect_command(rt, alloc, &words[..514], &Expected::Inputs(512))?;
    words[1] = "-b0";
    expect_fault(rt, alloc, &words, UseFault::Value(b'b', "0"));
    words[0] = "paste";
    words[1] = "-";
    expect_fault(rt, alloc, &words[..514], UseFault::Operands);
    expect_command(rt, alloc, &words[..513], &Expected::Inputs(512))?;
    expect_command(rt, alloc, &words[..2], &Expected::Inputs(1))
}

/// The expected job of `paste`.
pub struct Paste {
    serial: bool,
    delims: &'static [Option<u8>],
}

const PASTES: &[Example] = &[
    (
        &["paste", "-d", "\\0,", "-s", "f", "-", "-s"],
        Expected::Of(
            Files {
                order: &[Input::File(0), Input::Standard, Input::File(1)],
                names: &["f", "-s"],
                output: None,
            },
            Job::Paste(&Paste {
                serial: true,
                delims: &[None, Some(b','), None],
            }),
        ),
    ),
    (
        &["paste", "f"],
        Expected::Of(
            Files {
                order: &[Input::File(0)],
                names: &["f"],
                output: None,
            },
            Job::Paste(&Paste {
                serial: false,
                delims: &[Some(b'\t'); 3],
            }),
        ),
    ),
];

/// Fails the test unless the job of `paste` is this one.
pub fn check_paste(rt: &impl Abort, job: &PasteJob, row: &Paste) {
    assert_same(rt, &job.serial, &row.serial);
    let delims = [job.delims.at(0), job.delims.at(1), job.delims.at(2)];
    assert_for(rt, &row.delims, delims.as_slice() == row.delims);
}

const UNIQS: &[Example] = &[
    (
        &["uniq"],
        Expected::Of(
            Files {
                order: &[Input::Standard],
                names: &[],
                output: None,
            },
            Job::Uniq(UniqJob {
                show: Show::All,
                fields: 0,
                chars: 0,
                zero: false,
            }),
        ),
    ),
    (
        &["uniq", "-cc", "f"],
        Expected::Of(
            Files {
                order: &[Input::File(0)],
                names: &["f"],
                output: None,
            },
            Job::Uniq(UniqJob {
                show: Show::Counts,
                fields: 0,
                chars: 0,
                zero: false,
            }),
        ),
    ),
    (
        &["uniq", "-df1", "-s", "007", "-", "-"],
        Expected::Of(
            Files {
                order: &[Input::Standard],
                names: &[],
                output: None,
            },
            Job::Uniq(UniqJob {
                show: Show::Repeated,
                fields: 1,
                chars: 7,
                zero: false,
            }),
        ),
    ),
    (
        &["uniq", "-us", "18446744073709551615", "f", "f"],
        Expected::Of(
            Files {
                order: &[Input::File(0)],
                names: &["f"],
                output: Some("f"),
            },
            Job::Uniq(UniqJob {
                show: Show::Single,
                fields: 0,
                chars: u64::MAX,
                zero: false,
            }),
        ),
    ),
    (
        &["uniq", "-f0", "--", "-", "-c"],
        Expected::Of(
            Files {
                order: &[Input::Standard],
                names: &[],
                output: Some("-c"),
            },
            Job::Uniq(UniqJob {
                show: Show::All,
                fields: 0,
                chars: 0,
                zero: false,
            }),
        ),
    ),
];

const COMMS: &[Example] = &[
    (
        &["comm", "f", "-"],
        Expected::Of(
            OF_COMM,
            Job::Comm(CommJob {
                hide: [false; 3],
                zero: false,
                descending: false,
            }),
        ),
    ),
    (
        &["comm", "-1", "f", "-"],
        Expected::Of(
            OF_COMM,
            Job::Comm(CommJob {
                hide: [true, false, false],
                zero: false,
                descending: false,
            }),
        ),
    ),
    (
        &["comm", "-32", "-3", "f", "-"],
        Expected::Of(
            OF_COMM,
            Job::Comm(CommJob {
                hide: [false, true, true],
                zero: false,
                descending: false,
            }),
        ),
    ),
];

const OF_COMM: Files = Files {
    order: &[Input::File(0), Input::Standard],
    names: &["f"],
    output: None,
};

#[test]
fn words_are_parsed(rt: HostRuntime) -> Result<(), Fail> {
    for (words, fault) in REFUSED {
        expect_fault(&rt, rt.alloc(), words, *fault);
    }
    for rows in [CUTS, PASTES, UNIQS, COMMS, JOINS, TRS, ENDS_AND_ORDERS] {
        for (words, expected) in rows {
            expect_command(&rt, rt.alloc(), words, expected)?;
        }
    }
    counts_operands(&rt, rt.alloc())
}
