//! A harness for `comm` and `join`: runs one over two inputs in pieces, and checks result, output and resources. Used
//! by the modules `comm`, `join`, `join_blanks` and `failures`.

use crate::asserts::{assert_for, assert_same_for};
use ptfakes::{ChunkedSource, CountedSource, FailingAlloc, VecSink};
use ptlangs::jobs::{CommJob, JoinJob};
use ptlangs::outlist::OutList;
use ptlines::{LineReader, Out, Store};
use ptmerge::{MergeFault, Side, comm, join};
use std::alloc::Global;
use std::cell::Cell;
use std::process::Abort;

type Reader<'w, 'a, 'r> = LineReader<CountedSource<'w, ChunkedSource<'a>>, ChunkedSource<'r>>;

type SharedAlloc<'a> = &'a FailingAlloc<Global>;

/// An example: a name, the tool with its options, the inputs and the sink, and the expected outcome.
#[derive(Clone, Copy)]
pub struct Example<'a> {
    pub name: &'static str,
    pub job: Job,
    pub case: Case<'a>,
    pub expected: Expected<'a>,
}

/// The tool, with its options.
#[derive(Clone, Copy)]
pub enum Job {
    Comm(CommJob),
    Join(Options),
}

/// The options of `join`.
#[derive(Clone, Copy)]
pub struct Options {
    pub pairs: bool,
    pub unpaired: [bool; 2],
    pub empty: &'static [u8],
    pub list: Option<&'static [u8]>,
    pub sep: Option<u8>,
    pub field: [u64; 2],
    pub zero: bool,
    pub descending: bool,
}

/// Two inputs and a sink: the sizes of a pull, the number of pulls of each input before one fails, the number of
/// growths of the store and of the job before one fails, and the capacity of the sink.
#[derive(Clone, Copy)]
pub struct Case<'a> {
    pub first: &'a [u8],
    pub second: &'a [u8],
    pub sizes: &'static [usize],
    pub passing: [u64; 2],
    pub growths: u64,
    pub room: usize,
}

/// Two empty inputs; no call fails.
pub const BOTH_EMPTY: Case = Case {
    first: b"",
    second: b"",
    sizes: &[2],
    passing: [u64::MAX, u64::MAX],
    growths: u64::MAX,
    room: usize::MAX,
};

/// The expected result; `None` accepts any.
pub type ExpectedResult = Option<Result<(), MergeFault>>;

/// Success.
pub const OK: ExpectedResult = Some(Ok(()));

/// A read of the first input fails.
pub const FIRST_READ_FAILS: ExpectedResult = Some(Err(MergeFault::Read(Side::First)));

/// A read of the second input fails.
pub const SECOND_READ_FAILS: ExpectedResult = Some(Err(MergeFault::Read(Side::Second)));

/// The first input is out of order at line 2.
pub const FIRST_DISORDER: ExpectedResult = Some(Err(MergeFault::Disorder(Side::First, 2)));

/// The second input is out of order at line 2.
pub const SECOND_DISORDER: ExpectedResult = Some(Err(MergeFault::Disorder(Side::Second, 2)));

/// The expected outcome if no growth fails: the result; the output, which may be a prefix of `bytes` unless `complete`
/// is set; the number of calls of the sink, with the flush at the end; the number of pulls of both inputs; and bounds
/// on the peak of the store. `None` accepts anything.
#[derive(Clone, Copy)]
pub struct Expected<'a> {
    pub result: ExpectedResult,
    pub bytes: Option<&'a [u8]>,
    pub complete: bool,
    pub calls: Option<u64>,
    pub pulls: Option<u64>,
    pub peak: (u128, u128),
}

/// Accepts any outcome.
pub const ANY: Expected = Expected {
    result: None,
    bytes: None,
    complete: true,
    calls: None,
    pulls: None,
    peak: (0, u128::MAX),
};

// The context of a failed assertion: the name of the example, the size of the pieces, the capacity of the sink, and the
// number of pulls or growths before one fails.
type Name<'a> = (&'a str, usize, (usize, u64));

// Ends the test if the sink has another output than expected.
fn check_sink(rt: &impl Abort, context: &Name<'_>, kept: &VecSink, expected: &Expected<'_>) {
    if let Some(all) = expected.bytes {
        assert_for(rt, context, all.starts_with(kept.bytes()));
        let is_part = kept.bytes().len() < all.len();
        assert_for(rt, context, !is_part || !expected.complete);
    }
    // (An unspecified number is compared with itself.)
    assert_same_for(
        rt,
        context,
        &kept.calls(),
        &expected.calls.unwrap_or(kept.calls()),
    );
}

// The tool, with the options that it owns.
enum Task<'a, 'l> {
    Comm(&'a CommJob),
    Join(&'a JoinJob<SharedAlloc<'l>>),
}

// The result, the sink, the number of pulls, and the peak of the store.
type Outcome = (Result<(), MergeFault>, VecSink, u64, u128);

fn merge<'l>(
    alloc: Global,
    lines: SharedAlloc<'l>,
    task: Task<'_, 'l>,
    case: &Case<'_>,
    size: usize,
) -> Outcome {
    let [passing, second_passing] = case.passing;
    let pulls = Cell::new(0);
    let first = ChunkedSource::new(case.first, size, passing);
    let mut first: Reader<'_, '_, '_> = LineReader::standard(CountedSource::new(first, &pulls));
    let second = ChunkedSource::new(case.second, size, second_passing);
    let mut second: Reader<'_, '_, '_> = LineReader::standard(CountedSource::new(second, &pulls));
    let mut store = Store::empty(lines);
    let mut out = Out::new(VecSink::limited(alloc, usize::MAX, case.room, u64::MAX));
    let result = match task {
        Task::Comm(job) => comm(job, &mut first, &mut second, &mut store, &mut out),
        Task::Join(job) => join(job, &mut first, &mut second, &mut store, &mut out),
    };
    let _ = out.finish();
    (result, out.into_sink(), pulls.get(), store.peak())
}

fn job_of<'a>(
    rt: &impl Abort,
    alloc: SharedAlloc<'a>,
    options: &Options,
) -> JoinJob<SharedAlloc<'a>> {
    let mut job = JoinJob::new(alloc);
    job.pairs = options.pairs;
    job.unpaired = options.unpaired;
    job.sep = options.sep;
    job.field = options.field;
    job.zero = options.zero;
    job.descending = options.descending;
    assert!(rt; job.empty.extend_from_slice(options.empty).is_ok());
    if let Some(list) = options.list {
        job.list = Some(OutList::read(alloc, list).expect(rt, "a list"));
    }
    job
}

// Runs a merge with pulls of `size` bytes, and ends the test if the outcome differs. If a growth fails, the result must
// be `Memory`, and the output a prefix. Returns whether a growth failed.
fn check_task<'l>(
    rt: &impl Abort,
    (alloc, lines): (Global, SharedAlloc<'l>),
    task: Task<'_, 'l>,
    example: &Example<'_>,
    size: usize,
) -> bool {
    let [first, second] = example.case.passing;
    let passing = first.min(second).min(example.case.growths);
    let context = (example.name, size, (example.case.room, passing));
    let (result, kept, pulls, peak) = merge(alloc, lines, task, &example.case, size);
    let mut expected = example.expected;
    if lines.refused() {
        expected.result = Some(Err(MergeFault::Memory));
        expected.complete = false;
    }
    assert_same_for(rt, &context, &result, &expected.result.unwrap_or(result));
    assert_same_for(rt, &context, &pulls, &expected.pulls.unwrap_or(pulls));
    let (least, most) = expected.peak;
    assert_for(rt, &context, least <= peak && peak <= most);
    check_sink(rt, &context, &kept, &expected);
    lines.refused()
}

/// Runs an example with pulls of `size` bytes, and ends the test if the outcome differs. Returns whether a growth
/// failed.
pub fn check_example(rt: &impl Abort, alloc: Global, example: &Example<'_>, size: usize) -> bool {
    let lines = FailingAlloc::after(alloc, example.case.growths);
    match &example.job {
        Job::Comm(job) => check_task(rt, (alloc, &lines), Task::Comm(job), example, size),
        Job::Join(options) => {
            let job = job_of(rt, &lines, options);
            check_task(rt, (alloc, &lines), Task::Join(&job), example, size)
        }
    }
}
