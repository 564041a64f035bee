//! Tests of `comm` and `join` in which a read, a write or a growth of the store fails, and of what is read by then:
//! nothing after a failed write, nor before the store has its slots.

use crate::asserts::assert_for;
use crate::two_inputs::{ANY, BOTH_EMPTY, Case, Example, Expected, OK, check_example};
use crate::{comm, join};
use ptmerge::{MergeFault, Side};
use std::alloc::Global;
use std::process::Abort;

// An example of a merge. It runs with each sink that has room for fewer than `rooms` bytes; and with an input that
// fails after 0, 1, .. `tried` - 1 pulls, of which it needs `needed` to succeed.
struct FailureExample {
    example: Example<'static>,
    rooms: usize,
    side: Side,
    needed: u64,
    tried: u64,
}

const FAILURE_EXAMPLES: &[FailureExample] = &[
    FailureExample {
        example: Example {
            name: "comm",
            job: comm::DEFAULT,
            case: comm::COMMON,
            expected: Expected {
                bytes: Some(b"\t\ta\na\nb\n\tc\n"),
                complete: false,
                ..ANY
            },
        },
        rooms: 13,
        side: Side::First,
        needed: 7,
        tried: 8,
    },
    FailureExample {
        example: Example {
            name: "join",
            job: join::DEFAULT,
            case: PAIRED,
            expected: Expected {
                bytes: Some(PAIRS),
                complete: false,
                ..ANY
            },
        },
        rooms: 36,
        side: Side::Second,
        needed: 16,
        tried: 16,
    },
];

const PAIRED: Case = Case {
    first: b"a 1\na 2\nc 9\n",
    second: b"a x\na y\na z\nb w\n",
    ..BOTH_EMPTY
};

const PAIRS: &[u8] = b"a 1 x\na 1 y\na 1 z\na 2 x\na 2 y\na 2 z\n";

#[test]
fn each_write_and_read_fails_in_turn(rt: HostRuntime) {
    for failing in FAILURE_EXAMPLES {
        let example = &failing.example;
        for room in 0..failing.rooms {
            let case = Case {
                room,
                ..example.case
            };
            check_example(&rt, rt.alloc(), &Example { case, ..*example }, 2);
        }
        for pulls in 0..failing.tried {
            let passing = match failing.side {
                Side::First => [pulls, u64::MAX],
                Side::Second => [u64::MAX, pulls],
            };
            let result = if pulls < failing.needed {
                Some(Err(MergeFault::Read(failing.side)))
            } else {
                OK
            };
            let case = Case {
                passing,
                ..example.case
            };
            let expected = Expected {
                result,
                ..example.expected
            };
            let example = Example {
                case,
                expected,
                ..*example
            };
            check_example(&rt, rt.alloc(), &example, 1);
        }
    }
}

// Two lines of 9,000 bytes, read in pulls of 8,192 bytes: a third pull is needed for the second line only, when the
// first one can be written.
const LONG: &[Example] = &[
    Example {
        name: "comm",
        job: comm::DEFAULT,
        case: Case {
            second: b"c\n",
            passing: [2, 1],
            ..BOTH_EMPTY
        },
        expected: ANY,
    },
    Example {
        name: "join",
        job: join::DEFAULT,
        case: Case {
            passing: [2, 3],
            ..BOTH_EMPTY
        },
        expected: ANY,
    },
];

// Merges two lines, the first of which ends at `end`. If the second input is empty, it gets the first line.
fn check_long(rt: &impl Abort, alloc: Global, long: &[u8], end: usize) {
    assert!(rt; end <= long.len());
    for example in LONG {
        let second = if example.case.second.is_empty() {
            &long[..end]
        } else {
            example.case.second
        };
        for (room, fault) in [
            (usize::MAX, MergeFault::Read(Side::First)),
            (0, MergeFault::Write),
        ] {
            let case = Case {
                first: long,
                second,
                passing: example.case.passing,
                room,
                ..BOTH_EMPTY
            };
            let expected = Expected {
                result: Some(Err(fault)),
                ..ANY
            };
            let long = Example {
                name: example.name,
                job: example.job,
                case,
                expected,
            };
            check_example(rt, alloc, &long, usize::MAX);
        }
    }
}

#[test]
fn nothing_is_read_after_a_failed_write(rt: HostRuntime) {
    let mut long = [b'a'; 18002];
    long[9000] = b'\n';
    long[18001] = b'\n';
    check_long(&rt, rt.alloc(), &long, 9001);
}

// Examples, with a number of growths that is more than each needs. Each of these growths fails in turn.
const GROWTH_EXAMPLES: &[(Example, u64)] = &[
    (
        Example {
            name: "comm",
            job: comm::DEFAULT,
            case: comm::COMMON,
            expected: Expected {
                result: OK,
                bytes: Some(b"\t\ta\na\nb\n\tc\n"),
                peak: (0, 4),
                ..ANY
            },
        },
        20,
    ),
    (
        Example {
            name: "join",
            job: join::DEFAULT,
            case: PAIRED,
            expected: Expected {
                result: OK,
                bytes: Some(PAIRS),
                peak: (0, 21),
                ..ANY
            },
        },
        40,
    ),
];

#[test]
fn each_growth_refused_in_turn(rt: HostRuntime) {
    for (example, most) in GROWTH_EXAMPLES {
        let mut reached = 0u64;
        for growths in 0..*most {
            let case = Case {
                growths,
                ..example.case
            };
            if check_example(&rt, rt.alloc(), &Example { case, ..*example }, 2) {
                reached = growths.saturating_add(1);
            }
        }
        assert_for(
            &rt,
            &(example.name, reached),
            0 < reached && reached < *most,
        );
    }
}

// Memory is denied before the first four slots are allocated.
const WITHOUT_SLOTS: Expected = Expected {
    result: Some(Err(MergeFault::Memory)),
    bytes: Some(b""),
    calls: Some(1),
    pulls: Some(0),
    peak: (0, 0),
    ..ANY
};

const SLOT_EXAMPLES: &[Example] = &[
    Example {
        name: "comm",
        job: comm::DEFAULT,
        case: comm::COMMON,
        expected: WITHOUT_SLOTS,
    },
    Example {
        name: "join",
        job: join::DEFAULT,
        case: PAIRED,
        expected: WITHOUT_SLOTS,
    },
];

// The first four slots need five growths. If one of these fails, no input is read, and the only call of the sink is the
// flush at the end.
#[test]
fn nothing_is_read_before_the_slots_are_there(rt: HostRuntime) {
    for example in SLOT_EXAMPLES {
        for growths in 0..5u64 {
            let case = Case {
                growths,
                ..example.case
            };
            let growth_failed = check_example(&rt, rt.alloc(), &Example { case, ..*example }, 2);
            assert_for(&rt, &(example.name, growths), growth_failed);
        }
    }
}
