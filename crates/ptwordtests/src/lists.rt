//! Numbers, and the lists of `cut`, `paste` and `join`: accepted lists, faults, and allocation failures.

use crate::asserts::{assert_same, assert_same_for};
use ptfakes::FailingAlloc;
use ptlangs::delims::{DelimFault, Delims};
use ptlangs::numbers::{decimal, is_decimal};
use ptlangs::outlist::{File, OutFault, OutField, OutList};
use ptlangs::ranges::{Interval, ListFault, Ranges};
use std::alloc::Global;
use std::process::Abort;
use std::test::Fail;

const DECIMALS: &[(&[u8], Option<u64>)] = &[
    (b"0", Some(0)),
    (b"7", Some(7)),
    (b"00012", Some(12)),
    (b"18446744073709551615", Some(u64::MAX)),
    (b"0018446744073709551615", Some(u64::MAX)),
    (b"18446744073709551616", None),
    (b"99999999999999999999", None),
    (b"184467440737095516150", None),
    (b"", None),
    (b"+1", None),
    (b"1 ", None),
    (b"1a", None),
];

// Texts, and whether they are decimal numbers, including those that are too large.
const ARE_DECIMAL: &[(&[u8], bool)] = &[
    (b"18446744073709551616", true),
    (b"", false),
    (b"1-", false),
];

// A list of `cut`, its merged intervals, and whether it selects some numbers.
type Selection = (&'static [u8], &'static [Interval], &'static [(u64, bool)]);

const NUMBERS: &[(u64, bool)] = &[
    (1, true),
    (2, false),
    (3, true),
    (u64::MAX, true),
    (0, false),
];

const SELECTIONS: &[Selection] = &[
    (
        b"3-,1",
        &[
            Interval { first: 1, last: 1 },
            Interval {
                first: 3,
                last: u64::MAX,
            },
        ],
        NUMBERS,
    ),
    (b"2,2,1", &[Interval { first: 1, last: 2 }], &[]),
    (b"5", &[Interval { first: 5, last: 5 }], &[]),
    (b"-2", &[Interval { first: 1, last: 2 }], &[]),
    (
        b"7-9 1-3\t2-5",
        &[
            Interval { first: 1, last: 5 },
            Interval { first: 7, last: 9 },
        ],
        &[],
    ),
    (b"4-6,1-3", &[Interval { first: 1, last: 6 }], &[]),
    (
        b"1-9,3-4,20-",
        &[
            Interval { first: 1, last: 9 },
            Interval {
                first: 20,
                last: u64::MAX,
            },
        ],
        &[],
    ),
    (
        b"00012-013",
        &[Interval {
            first: 12,
            last: 13,
        }],
        &[],
    ),
    (
        b"18446744073709551615",
        &[Interval {
            first: u64::MAX,
            last: u64::MAX,
        }],
        &[],
    ),
    (
        b"2-,18446744073709551615-,-1",
        &[Interval {
            first: 1,
            last: u64::MAX,
        }],
        &[],
    ),
];

fn check_selected(rt: &impl Abort, ranges: &Ranges, (list, kept, numbers): &Selection) {
    assert_same_for(rt, list, &ranges.intervals(), kept);
    for (number, selected) in *numbers {
        assert_same_for(rt, number, &ranges.contains(*number), selected);
    }
}

// A list of `join`, its fields, and the fields at some indexes.
type Outputs = (
    &'static [u8],
    &'static [OutField],
    &'static [(usize, Option<(u8, u64)>)],
);

const FIELD_INDEXES: &[(usize, Option<(u8, u64)>)] = &[
    (0, Some((0, 0))),
    (1, Some((1, 2))),
    (2, Some((2, 3))),
    (3, None),
    (usize::MAX, None),
];

const OUTPUTS: &[Outputs] = &[
    (
        b"0,1.2,2.3",
        &[
            OutField::Join,
            OutField::Field(File::First, 2),
            OutField::Field(File::Second, 3),
        ],
        FIELD_INDEXES,
    ),
    (
        b"0,1.2,2.2",
        &[
            OutField::Join,
            OutField::Field(File::First, 2),
            OutField::Field(File::Second, 2),
        ],
        &[],
    ),
    (b"0", &[OutField::Join], &[]),
    (
        b"2.18446744073709551615\t1.007 0",
        &[
            OutField::Field(File::Second, u64::MAX),
            OutField::Field(File::First, 7),
            OutField::Join,
        ],
        &[],
    ),
    (b"0 0", &[OutField::Join, OutField::Join], &[]),
];

fn check_fields(rt: &impl Abort, read: &OutList, (list, fields, indexes): &Outputs) {
    assert_same_for(rt, list, &read.fields(), fields);
    for (index, field) in *indexes {
        assert_same_for(rt, index, &read.at(*index), field);
    }
}

// A list of `paste`, its delimiters, and the delimiter of the greatest column.
type Columns = (&'static [u8], &'static [Option<u8>], Option<u8>);

const COLUMNS: &[Columns] = &[
    (b"\\0,;", &[None, Some(b','), Some(b';')], None),
    (b",", &[Some(b',')], Some(b',')),
    (b"\\0,", &[None, Some(b',')], Some(b',')),
    (
        b"\\n\\t\\\\\\0",
        &[Some(b'\n'), Some(b'\t'), Some(b'\\'), None],
        None,
    ),
    (b"\\012", &[None, Some(b'1'), Some(b'2')], None),
    (b"\\\\n", &[Some(b'\\'), Some(b'n')], Some(b'n')),
    (b"\xff\n\0", &[Some(0xff), Some(b'\n'), Some(0)], Some(0xff)),
];

// The list has these delimiters, and reuses them in order.
fn check_delims(rt: &impl Abort, read: &Delims, delims: &[Option<u8>], last: Option<u8>) {
    assert_same(rt, &read.as_slice(), &delims);
    assert_same(
        rt,
        &(read.count(), read.at(u64::MAX)),
        &(delims.len(), last),
    );
    for (column, delim) in delims.iter().enumerate() {
        for turn in [0usize, 1, 7] {
            let index = column.saturating_add(delims.len().saturating_mul(turn));
            assert_same_for(rt, &index, &read.at(index as u64), delim);
        }
    }
}

#[test]
fn numbers_and_lists_are_read(rt: HostRuntime) -> Result<(), Fail> {
    for (text, number) in DECIMALS {
        assert_same(&rt, &decimal(text), number);
    }
    for (text, wanted) in ARE_DECIMAL {
        assert_same(&rt, &is_decimal(text), wanted);
    }
    for row in SELECTIONS {
        check_selected(&rt, &Ranges::read(rt.alloc(), row.0)?, row);
    }
    for row in OUTPUTS {
        check_fields(&rt, &OutList::read(rt.alloc(), row.0)?, row);
    }
    for (list, delims, last) in COLUMNS {
        check_delims(&rt, &Delims::read(rt.alloc(), list)?, delims, *last);
    }
    check_delims(&rt, &Delims::tab(rt.alloc())?, &[Some(b'\t')], Some(b'\t'));
    Ok(())
}

const NO_SELECTIONS: &[(&[u8], ListFault)] = &[
    (b"", ListFault::Empty),
    (b"1,,2", ListFault::Empty),
    (b"1,", ListFault::Empty),
    (b" 1", ListFault::Empty),
    (b"0", ListFault::Zero),
    (b"0-3", ListFault::Zero),
    (b"-0", ListFault::Zero),
    (b"3-0", ListFault::Zero),
    (b"3-1", ListFault::Descending),
    (b"1,3-2,0", ListFault::Descending),
    (b"18446744073709551616", ListFault::TooLarge),
    (b"0-18446744073709551616", ListFault::TooLarge),
    (b"-", ListFault::Malformed),
    (b"1-2-3", ListFault::Malformed),
    (b"a", ListFault::Malformed),
    (b"99999999999999999999-x", ListFault::Malformed),
    (b"1--", ListFault::Malformed),
    (b"+1", ListFault::Malformed),
    (b"1;2", ListFault::Malformed),
];

const NO_OUTPUTS: &[(&[u8], OutFault)] = &[
    (b"", OutFault::Empty),
    (b"0,,1.1", OutFault::Empty),
    (b"1.1,", OutFault::Empty),
    (b" 0", OutFault::Empty),
    (b"1.0", OutFault::Zero),
    (b"2.000", OutFault::Zero),
    (b"1.", OutFault::Malformed),
    (b"1", OutFault::Malformed),
    (b"12", OutFault::Malformed),
    (b"00", OutFault::Malformed),
    (b"0.1", OutFault::Malformed),
    (b"3.1", OutFault::Malformed),
    (b"1.x", OutFault::Malformed),
    (b"1.-1", OutFault::Malformed),
    (b"1.2.3", OutFault::Malformed),
    (b"1.99999999999999999999x", OutFault::Malformed),
    (b"2.18446744073709551616", OutFault::TooLarge),
    (b"0,1.0,x", OutFault::Zero),
];

const NO_DELIMS: &[(&[u8], DelimFault)] = &[
    (b"", DelimFault::Empty),
    (b"\\", DelimFault::Escape),
    (b"a\\", DelimFault::Escape),
    (b"\\\\\\", DelimFault::Escape),
    (b"a\\q,", DelimFault::Escape),
    (b"\\1", DelimFault::Escape),
    (b"\\\n", DelimFault::Escape),
];

#[test]
fn refuses_by_the_first_faulty_element(rt: HostRuntime) {
    // A list with a fault allocates nothing, so the allocator still has its first failure to come.
    let alloc = FailingAlloc::after(rt.alloc(), 0);
    for (list, fault) in NO_SELECTIONS {
        assert_same_for(&rt, list, &Ranges::read(&alloc, list).err(), &Some(*fault));
    }
    for (list, fault) in NO_OUTPUTS {
        assert_same_for(&rt, list, &OutList::read(&alloc, list).err(), &Some(*fault));
    }
    for (list, fault) in NO_DELIMS {
        assert_same_for(&rt, list, &Delims::read(&alloc, list).err(), &Some(*fault));
    }
    // The failure comes now, with the allocation of the tab.
    assert!(rt; Delims::tab(&alloc).is_err());
}

// The last element of a list whose allocation may fail.
fn last_range(alloc: &FailingAlloc<Global>) -> Result<bool, ListFault> {
    Ok(Ranges::read(alloc, b"1,3,5,7,9,11")?.contains(11))
}

fn last_field(alloc: &FailingAlloc<Global>) -> Result<Option<(u8, u64)>, OutFault> {
    Ok(OutList::read(alloc, b"0,1.1,1.2,1.3,2.1,2.2")?.at(5))
}

fn last_delim(alloc: &FailingAlloc<Global>) -> Result<Option<u8>, DelimFault> {
    Ok(Delims::read(alloc, b"abcdefghi")?.at(8))
}

// The three lists allocate three times, once and three times.
#[test]
fn each_growth_refused_in_turn(rt: HostRuntime) {
    for passed in 0..8u64 {
        let read = last_range(&FailingAlloc::after(rt.alloc(), passed));
        assert_same_for(
            &rt,
            &passed,
            &read,
            &if passed < 3 {
                Err(ListFault::Memory)
            } else {
                Ok(true)
            },
        );
        let read = last_field(&FailingAlloc::after(rt.alloc(), passed));
        let wanted = if passed < 1 {
            Err(OutFault::Memory)
        } else {
            Ok(Some((2, 2)))
        };
        assert_same_for(&rt, &passed, &read, &wanted);
        let read = last_delim(&FailingAlloc::after(rt.alloc(), passed));
        let wanted = if passed < 3 {
            Err(DelimFault::Memory)
        } else {
            Ok(Some(b'i'))
        };
        assert_same_for(&rt, &passed, &read, &wanted);
    }
}
