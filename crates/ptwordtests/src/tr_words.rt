//! Examples of command lines of `tr`, which `words` runs.

use crate::asserts::assert_same;
use crate::expected::{Example, Expected, Files, Job};
use ptlangs::CharPlan;
use ptopts::Input;
use std::process::Abort;

/// Some bytes, the image of each (`None` if it is deleted), and whether the image is squeezed.
pub struct Tr {
    bytes: &'static [u8],
    images: &'static [Option<u8>],
    squeezed: &'static [bool],
}

const OF_TR: Files = Files {
    order: &[Input::Standard],
    names: &[],
    output: None,
};

/// The examples.
pub const TRS: &[Example] = &[
    (
        &["tr", "a-c", "-"],
        Expected::Of(
            OF_TR,
            Job::Tr(&Tr {
                bytes: b"abd",
                images: &[Some(b'-'), Some(b'-'), Some(b'd')],
                squeezed: &[false, false, false],
            }),
        ),
    ),
    (
        &["tr", "-ss", "--", "-d", "xy"],
        Expected::Of(
            OF_TR,
            Job::Tr(&Tr {
                bytes: b"-d",
                images: &[Some(b'x'), Some(b'y')],
                squeezed: &[true, true],
            }),
        ),
    ),
    (
        &["tr", "-Cs", "a"],
        Expected::Of(
            OF_TR,
            Job::Tr(&Tr {
                bytes: b"ab",
                images: &[Some(b'a'), Some(b'b')],
                squeezed: &[false, true],
            }),
        ),
    ),
    (
        &["tr", "-d", "-c", "[:alpha:]"],
        Expected::Of(
            OF_TR,
            Job::Tr(&Tr {
                bytes: b"a1",
                images: &[Some(b'a'), None],
                squeezed: &[false, false],
            }),
        ),
    ),
    (
        &["tr", "-ds", "0-9", "ab"],
        Expected::Of(
            OF_TR,
            Job::Tr(&Tr {
                bytes: b"a1c",
                images: &[Some(b'a'), None, Some(b'c')],
                squeezed: &[true, false, false],
            }),
        ),
    ),
];

/// Fails the test unless the plan is this one.
pub fn check_tr(rt: &impl Abort, plan: &CharPlan, row: &Tr) {
    for (index, byte) in row.bytes.iter().enumerate() {
        let image = if plan.deletes(*byte) {
            None
        } else {
            Some(plan.image(*byte))
        };
        assert_same(rt, &Some(&image), &row.images.get(index));
        if let Some(image) = image {
            assert_same(rt, &Some(&plan.squeezes(image)), &row.squeezed.get(index));
        }
    }
}
