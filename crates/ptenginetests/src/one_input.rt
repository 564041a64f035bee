//! A harness for the engines with one input: runs one over an input in pieces, where a read or a write may fail, checks
//! its result and output, and returns what the store keeps. Used by the tests of `cut`, `paste -s`, `tr` and `uniq`. Also
//! lengths around those of vectors and of a block.

use crate::asserts::{assert_for, assert_same_for};
use ptfakes::{ChunkedSource, VecSink};
use ptflow::{FlowFault, cut, paste_serial, tr, uniq};
use ptlangs::CharPlan;
use ptlangs::jobs::{CutJob, PasteJob, UniqJob};
use ptlines::{BLOCK, LineReader, Out, Store};
use std::alloc::Global;
use std::process::Abort;

type Reader<'a> = LineReader<ChunkedSource<'a>, ChunkedSource<'a>>;

/// The engine to run, with its options.
#[derive(Clone, Copy)]
pub enum Job<'a> {
    Cut(&'a CutJob),
    Serial(&'a PasteJob),
    Tr(&'a CharPlan),
    Uniq(&'a UniqJob),
}

/// An input in pieces of `size` bytes, of which `passing` are read before a read fails; and a sink that takes `taking`
/// bytes a call, for `calls` calls before a write fails.
#[derive(Clone, Copy)]
pub struct Case<'a> {
    pub text: &'a [u8],
    pub size: usize,
    pub passing: u64,
    pub taking: usize,
    pub calls: u64,
}

/// No call fails.
pub const NO_FAILURE: Case = Case {
    text: b"",
    size: usize::MAX,
    passing: u64::MAX,
    taking: usize::MAX,
    calls: u64::MAX,
};

/// Runs an engine, and ends the test if its result or its output differs. Returns the number of slots of the store, and
/// the number of bytes in them.
pub fn check_run(
    rt: &impl Abort,
    alloc: Global,
    (job, case): (Job<'_>, &Case<'_>),
    expected: Result<(), FlowFault>,
    all: &[u8],
) -> (usize, u128) {
    let source = ChunkedSource::new(case.text, case.size, case.passing);
    let mut reader: Reader<'_> = LineReader::standard(source);
    let mut store = Store::empty(alloc);
    let mut out = Out::new(VecSink::limited(alloc, case.taking, usize::MAX, case.calls));
    let result = match job {
        Job::Cut(job) => cut(job, &mut reader, &mut store, &mut out),
        Job::Serial(job) => paste_serial(job, &mut reader, &mut store, &mut out),
        Job::Tr(plan) => tr(plan, &mut reader, &mut out),
        Job::Uniq(job) => uniq(job, &mut reader, &mut store, &mut out),
    };
    let is_ended = out.finish().is_ok();
    let context = (case.text.len(), case.size);
    assert_same_for(rt, &context, &result, &expected);
    assert_for(rt, &context, is_ended || expected.is_err());
    assert_for(rt, &context, out.into_sink().bytes() == all);
    (store.slots(), store.now())
}

/// Lengths around those of vectors and masks.
pub const SHORT: &[usize] = &[0, 1, 15, 16, 17, 31, 32, 33, 63, 64, 65];

/// Lengths around that of a block.
pub const LONG: &[usize] = &[BLOCK - 2, BLOCK - 1, BLOCK, BLOCK + 1];
