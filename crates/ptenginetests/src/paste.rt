//! Tests of `paste` over in-memory inputs: rows across blocks and after the end of an input, whose digests are those
//! of the output of GNU `paste`; that nothing is read after a failure; and, with `-s`, lines of many lengths in one
//! row.

ghost use Rattle.std.specs.Prelude.{◌<◌, All};

use crate::asserts::{assert_for, assert_same, assert_same_for};
use crate::one_input::{Case, Job, NO_FAILURE, check_run};
use ptfakes::texts::{byte_at, text_of};
use ptfakes::{ChunkedSource, CountedSource, FailingAlloc, VecSink};
use ptflow::{FlowFault, paste};
use ptlangs::delims::Delims;
use ptlangs::jobs::PasteJob;
use ptlines::{LineReader, Out, Store};
use std::alloc::{AllocError, Global};
use std::cell::Cell;
use std::process::Abort;

// The list of delimiters, and whether lines end with byte 0.
type RowOptions = (&'static [u8], bool);

type Reader<'a> = LineReader<ChunkedSource<'a>, ChunkedSource<'a>>;

// Runs `paste` with the columns `cells` over two inputs, read in pieces of some size. Returns the sink.
fn run_paste(
    rt: &impl Abort,
    alloc: Global,
    options: RowOptions,
    cells: &[usize],
    input: (&[u8], &[u8], usize),
) -> VecSink
    requires { All (λ index. index < 2) cells.now }
{
    let (delims, zero) = options;
    let (first, second, size) = input;
    let job = PasteJob {
        serial: false,
        delims: Delims::read(alloc, delims).expect(rt, "a list"),
        zero,
    };
    let reader: Reader<'_> = LineReader::standard(ChunkedSource::new(first, size, u64::MAX));
    let other: Reader<'_> = LineReader::standard(ChunkedSource::new(second, size, u64::MAX));
    let mut readers = [reader, other];
    let mut store = Store::empty(alloc);
    let mut out = Out::new(VecSink::new(alloc));
    let result = paste(&job, cells, &mut readers, &mut store, &mut out);
    assert_same(rt, &result, &Ok(()));
    assert_same(rt, &out.finish(), &Ok(()));
    out.into_sink()
}

// A hash that identifies a long output (FNV-1a).
fn digest(bytes: &[u8]) -> u64 {
    let mut number: u64 = 0xcbf2_9ce4_8422_2325;
    for byte in bytes {
        number = (number ^ u64::from(*byte)).wrapping_mul(0x0100_0000_01b3);
    }
    number
}

// A text of `count` lines of at most 100 bytes; line 202, if there is one, is longer than a block.
fn lines_over_blocks(
    alloc: Global,
    count: usize,
    terminator: u8,
    terminated: bool,
) -> Result<Vec<u8>, AllocError> {
    let mut lengths = Vec::new(alloc);
    for number in 0..count {
        lengths.push(if number == 201 {
            9000
        } else {
            (number % 101) * 37 % 101
        })?;
    }
    text_of(alloc, &lengths, terminator, terminated)
}

// Checks the digest of the output for pieces of several sizes. The first input has 400 lines, the second `others`.
// `ends` says whether lines end with byte 0, and whether the last line has a terminator.
fn check_digest(
    rt: &impl Abort,
    alloc: Global,
    cells: &[usize],
    others: usize,
    ends: (bool, bool),
    expected: u64,
)
    requires { All (λ index. index < 2) cells.now }
{
    let (zero, terminated) = ends;
    let terminator = if zero { 0 } else { b'\n' };
    let first = lines_over_blocks(alloc, 400, terminator, terminated).expect(rt, "a text");
    let second = lines_over_blocks(alloc, others, terminator, terminated).expect(rt, "a text");
    for size in [1, 7, 8191, usize::MAX] {
        let kept = run_paste(rt, alloc, (b",;:", zero), cells, (&first, &second, size));
        assert_same_for(rt, &(cells, others, size), &digest(kept.bytes()), &expected);
    }
}

// The digests are of the output of GNU `paste -d ',;:' - -` and the like for these lines. Rows cross the ends of
// blocks, one row has the long line, and with 3 and 7 columns the last row is incomplete. The last two use both inputs,
// the first of them twice in the second case.
#[test]
fn rows_of_readers(rt: HostRuntime) {
    let alloc = rt.alloc();
    check_digest(
        &rt,
        alloc,
        &[0, 0],
        400,
        (false, true),
        0x2d87_e996_c991_47fe,
    );
    check_digest(
        &rt,
        alloc,
        &[0, 0, 0],
        400,
        (false, false),
        0x7e70_6cd7_79c7_89ce,
    );
    check_digest(
        &rt,
        alloc,
        &[0; 7],
        400,
        (true, true),
        0x7cdd_b415_9467_0554,
    );
    check_digest(
        &rt,
        alloc,
        &[0, 1],
        400,
        (false, false),
        0xed5c_fbfc_5a2a_4391,
    );
    check_digest(
        &rt,
        alloc,
        &[0, 1, 0],
        400,
        (true, true),
        0x9bde_08fe_70b4_1009,
    );
    // Columns that read one input.
    let text = b"1\n2\n3\n4\n".as_slice();
    let text = (text, text, 3);
    let kept = run_paste(&rt, alloc, (b"\\0,", false), &[0, 0, 0], text);
    assert!(rt; kept.bytes() == b"12,3\n4,\n".as_slice());
    // The rows of a block are one write; the other call is the flush at the end. (The first row fills the block, and
    // the others are complete in it.)
    let text = b"1\n2\n3\n4\n5\n6\n".as_slice();
    let text = (text, text, usize::MAX);
    let calls = run_paste(&rt, alloc, (b"\\t", false), &[0, 0], text).calls();
    assert_same(&rt, &calls, &2);
}

// Rows of twelve columns, of which the last eleven are empty, with one line of `length` bytes among lines of 30 bytes.
// With each length the last row that fits in a block ends one byte later.
fn check_full_block(rt: &impl Abort, alloc: Global, length: usize) {
    let mut lengths = [30; 250];
    lengths[1] = length;
    let text = text_of(alloc, &lengths, b'\n', true).expect(rt, "a text");
    let mut expected = Vec::new(alloc);
    for line in lengths {
        let row = [line, 0, 0, 0, 0, 0, 0, 0, 0, 0, 0, 0];
        assert!(rt; add_row(&mut expected, &row, [b',', b';']).is_ok());
    }
    let texts = (text.as_slice(), b"".as_slice(), usize::MAX);
    let cells = [0, 1, 1, 1, 1, 1, 1, 1, 1, 1, 1, 1];
    let kept = run_paste(rt, alloc, (b",;", false), &cells, texts);
    assert_for(rt, &length, kept.bytes() == expected.as_slice());
}

// The digests are of the output of GNU `paste` if the second input has fewer lines: none, 3, 150, 202 with the long
// one, and none again, in eleven columns. With 3, 150 and 202 lines the last lines of both inputs have no terminator.
#[test]
fn rows_after_the_end_of_an_input(rt: HostRuntime) {
    let alloc = rt.alloc();
    check_digest(&rt, alloc, &[0, 1], 0, (false, true), 0x6aa1_c50f_7918_8c5c);
    check_digest(
        &rt,
        alloc,
        &[1, 0],
        3,
        (false, false),
        0xf9ee_e002_e2fe_2cb2,
    );
    check_digest(
        &rt,
        alloc,
        &[0, 1, 0],
        150,
        (true, false),
        0x8fea_700f_4ea6_dd70,
    );
    check_digest(
        &rt,
        alloc,
        &[0, 1],
        202,
        (true, false),
        0xf615_1408_e176_b4c9,
    );
    check_digest(
        &rt,
        alloc,
        &[0, 1, 1, 1, 1, 1, 1, 1, 1, 1, 1, 1],
        0,
        (false, true),
        0x2ab7_94e9_f5b1_5bb4,
    );
    for length in 0..43 {
        check_full_block(&rt, alloc, length);
    }
    // Rows are not written one by one.
    let text = (b"1\n2\n3\n4\n".as_slice(), b"".as_slice(), usize::MAX);
    let calls = run_paste(&rt, alloc, (b"\\t", false), &[0, 1], text).calls();
    assert_same(&rt, &calls, &2);
}

// An input in pieces of `size` bytes, the number of growths before one fails, and the capacity of the sink.
#[derive(Clone, Copy)]
struct SharedCase<'a> {
    text: &'a [u8],
    size: usize,
    growths: u64,
    room: usize,
}

// The result of `paste` with two columns that read one input, and the number of pulls.
type RunResult = Result<(Result<(), FlowFault>, u64), AllocError>;

fn run(alloc: Global, case: &SharedCase<'_>) -> RunResult {
    let lines = FailingAlloc::after(alloc, case.growths);
    let job = PasteJob {
        serial: false,
        delims: Delims::tab(&lines)?,
        zero: false,
    };
    let pulls = Cell::new(0);
    let source = CountedSource::new(ChunkedSource::new(case.text, case.size, u64::MAX), &pulls);
    let reader: LineReader<CountedSource<'_, ChunkedSource<'_>>, ChunkedSource<'_>> =
        LineReader::standard(source);
    let mut readers = [reader];
    let mut store = Store::empty(&lines);
    let mut out = Out::new(VecSink::limited(alloc, usize::MAX, case.room, u64::MAX));
    let result = paste(&job, &[0, 0], &mut readers, &mut store, &mut out);
    let _ = out.finish();
    Ok((result, pulls.get()))
}

const TWO_COLUMNS: SharedCase = SharedCase {
    text: b"1\nx\n2\ny\n",
    size: 2,
    growths: u64::MAX,
    room: 0,
};

// A row of two lines of 9,000 bytes, in pulls of 8,192 bytes: a fourth pull finds the end of the input.
fn check_long(rt: &impl Abort, alloc: Global, text: &[u8]) {
    let mut case = SharedCase {
        text,
        size: usize::MAX,
        growths: u64::MAX,
        room: usize::MAX,
    };
    assert_same(rt, &run(alloc, &case), &Ok((Ok(()), 4)));
    case.room = 0;
    assert_same(rt, &run(alloc, &case), &Ok((Err(FlowFault::Write), 3)));
}

#[test]
fn nothing_is_read_after_a_failure(rt: HostRuntime) {
    // One line for each pull: the first row is written, and the write fails, before a third pull.
    let mut case = TWO_COLUMNS;
    assert_same(
        &rt,
        &run(rt.alloc(), &case),
        &Ok((Err(FlowFault::Write), 2)),
    );
    // The first growth is that of the delimiters; the next two are those of the slots.
    case.room = usize::MAX;
    for growths in [1, 2] {
        case.growths = growths;
        assert_same(
            &rt,
            &run(rt.alloc(), &case),
            &Ok((Err(FlowFault::Memory), 0)),
        );
    }
    let mut long = [b'a'; 18002];
    long[9000] = b'\n';
    long[18001] = b'\n';
    check_long(&rt, rt.alloc(), &long);
}

// Appends lines of these lengths as one row, with the two delimiters alternating.
fn add_row(row: &mut Vec<u8>, lengths: &[usize], delims: [u8; 2]) -> Result<(), AllocError> {
    for (number, length) in lengths.iter().enumerate() {
        if number > 0 {
            row.push(delims[(number - 1) % 2])?;
        }
        for index in 0..*length {
            row.push(byte_at(index))?;
        }
    }
    row.push(b'\n')?;
    Ok(())
}

// Checks short lines after a line of `length` bytes, in one row, for pieces of several sizes.
fn check_row(rt: &impl Abort, alloc: Global, job: &PasteJob, length: usize, delims: [u8; 2]) {
    let lengths = [length, 0, 1, 4, 15, 16, 17, 64, 0, 0, 5];
    let text = text_of(alloc, &lengths, b'\n', true).expect(rt, "a text");
    let mut row = Vec::new(alloc);
    assert!(rt; add_row(&mut row, &lengths, delims).is_ok());
    for size in [1, 7, usize::MAX] {
        let case = Case {
            text: &text,
            size,
            ..NO_FAILURE
        };
        check_run(rt, alloc, (Job::Serial(job), &case), Ok(()), &row);
    }
}

// Checks three short lines, and the lines of `check_row`, so that each terminator is once at each offset of a chunk of
// 64 bytes.
fn check_rows(rt: &impl Abort, alloc: Global, job: &PasteJob, delims: [u8; 2]) {
    let case = Case {
        text: b"a\nb\nc\n",
        size: 1,
        ..NO_FAILURE
    };
    let all = [b'a', delims[0], b'b', delims[1], b'c', b'\n'];
    check_run(rt, alloc, (Job::Serial(job), &case), Ok(()), &all);
    for length in 0..65 {
        check_row(rt, alloc, job, length, delims);
    }
}

#[test]
fn lines_in_one_row(rt: HostRuntime) {
    for (list, delims) in [(b",".as_slice(), [b',', b',']), (b",;", [b',', b';'])] {
        let job = PasteJob {
            serial: true,
            delims: Delims::read(rt.alloc(), list).expect(&rt, "a list"),
            zero: false,
        };
        check_rows(&rt, rt.alloc(), &job, delims);
    }
}
