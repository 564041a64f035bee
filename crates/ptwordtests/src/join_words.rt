//! Examples of command lines of `join`, which `words` runs.

use crate::asserts::assert_same;
use crate::expected::{Example, Expected, Files, Job};
use ptlangs::jobs::JoinJob;
use ptlangs::outlist::{File, OutField};
use ptopts::Input;
use std::process::Abort;

/// The expected job of `join`.
pub struct Join {
    pairs: bool,
    unpaired: [bool; 2],
    empty: &'static [u8],
    list: Option<&'static [OutField]>,
    sep: Option<u8>,
    field: [u64; 2],
}

const OF_JOIN: Files = Files {
    order: &[Input::Standard, Input::File(0)],
    names: &["g"],
    output: None,
};

/// The examples.
pub const JOINS: &[Example] = &[
    (
        &["join", "-", "g"],
        Expected::Of(
            OF_JOIN,
            Job::Join(&Join {
                pairs: true,
                unpaired: [false, false],
                empty: b"",
                list: None,
                sep: None,
                field: [1, 1],
            }),
        ),
    ),
    (
        &["join", "-a", "2", "-e", "-", "-o", "0,1.2 2.2", "-", "g"],
        Expected::Of(
            OF_JOIN,
            Job::Join(&Join {
                pairs: true,
                unpaired: [false, true],
                empty: b"-",
                list: Some(&[
                    OutField::Join,
                    OutField::Field(File::First, 2),
                    OutField::Field(File::Second, 2),
                ]),
                sep: None,
                field: [1, 1],
            }),
        ),
    ),
    (
        &["join", "-t", ",", "-v", "1", "-v1", "-e", "", "-", "g"],
        Expected::Of(
            OF_JOIN,
            Job::Join(&Join {
                pairs: false,
                unpaired: [true, false],
                empty: b"",
                list: None,
                sep: Some(b','),
                field: [1, 1],
            }),
        ),
    ),
    (
        &[
            "join",
            "-t\t",
            "-a1",
            "-a2",
            "-13",
            "-2",
            "18446744073709551615",
            "-eé",
            "--",
            "-",
            "g",
        ],
        Expected::Of(
            OF_JOIN,
            Job::Join(&Join {
                pairs: true,
                unpaired: [true, true],
                empty: b"\xc3\xa9",
                list: None,
                sep: Some(b'\t'),
                field: [3, u64::MAX],
            }),
        ),
    ),
];

/// Fails the test unless the job of `join` is this one.
pub fn check_join(rt: &impl Abort, job: &JoinJob, row: &Join) {
    assert_same(rt, &(job.pairs, job.sep), &(row.pairs, row.sep));
    assert_same(rt, &job.unpaired, &row.unpaired);
    assert_same(rt, &job.empty.as_slice(), &row.empty);
    assert_same(rt, &job.list.as_ref().map(|list| list.fields()), &row.list);
    assert_same(rt, &job.field, &row.field);
}
