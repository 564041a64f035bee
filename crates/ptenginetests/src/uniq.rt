//! Tests of `uniq` over in-memory inputs: counted runs of the example of POSIX and of short lines that repeat, and
//! slots that cannot be allocated.

ghost use Rattle.ptflow.specs.Calls.Passes.{PassPre};

use crate::asserts::assert_same;
use crate::one_input::{Job, NO_FAILURE, check_run};
use ptfakes::{ChunkedSource, CountedSource, FailingAlloc, VecSink};
use ptflow::{FlowFault, uniq};
use ptlangs::jobs::{Show, UniqJob};
use ptlines::{LineReader, Out, Store};
use std::alloc::Global;
use std::cell::Cell;
use std::process::Abort;

// The input file of POSIX.1-2017, XCU, `uniq`, EXAMPLES.
const FILE: &[u8] = b"#01 foo0 bar0 foo1 bar1
#02 bar0 foo1 bar1 foo1
#03 foo0 bar0 foo1 bar1
#04
#05 foo0 bar0 foo1 bar1
#06 foo0 bar0 foo1 bar1
#07 bar0 foo1 bar1 foo0
";

// Its output with `-c -f 1`, from the same section.
const RUNS_OF_FILE: &[u8] = b"1 #01 foo0 bar0 foo1 bar1
1 #02 bar0 foo1 bar1 foo1
1 #03 foo0 bar0 foo1 bar1
1 #04
2 #05 foo0 bar0 foo1 bar1
1 #07 bar0 foo1 bar1 foo0
";

const COUNTS: UniqJob = UniqJob {
    show: Show::Counts,
    fields: 1,
    chars: 0,
    zero: false,
};

// Lines that repeat the line before them: of 15, 16 and 17 bytes with their newline, empty ones, and one with which a
// longer line begins.
const REPEATS: &[u8] = b"abcdefghijklmn
abcdefghijklmn
abcdefghijklmn
abcdefghijklmn
abcdefghijklmno
abcdefghijklmno
abcdefghijklmno
abcdefghijklmnop
abcdefghijklmnop
abcdefghijklmnop
abcdefghijklmnop





a
a
a
a
ab
a
a
a
a
a
";

const RUNS_OF_REPEATS: &[u8] = b"4 abcdefghijklmn
3 abcdefghijklmno
4 abcdefghijklmnop
5 
4 a
1 ab
5 a
";

const WHOLE: UniqJob = UniqJob {
    show: Show::Counts,
    fields: 0,
    chars: 0,
    zero: false,
};

const ALL: UniqJob = UniqJob {
    show: Show::All,
    fields: 0,
    chars: 0,
    zero: false,
};

type Reader<'a> = LineReader<CountedSource<'a, ChunkedSource<'a>>, ChunkedSource<'a>>;

// If a slot cannot be allocated, a line that the reader has already buffered stays there.
fn check_memory_fault(
    rt: &impl Abort,
    reader: &mut Reader<'_>,
    store: &mut Store<&FailingAlloc<Global>>,
    out: &mut Out<VecSink>,
)
    requires { PassPre reader.old store.old }
{
    let result = uniq(&ALL, reader, store, out);
    assert_same(rt, &result, &Err(FlowFault::Memory));
    assert_same(rt, &(store.slots() < 2), &true);
    assert!(rt; reader.block() == Ok(b"a\n".as_slice()));
}

// Checks this with `passing` growths before one fails. Nothing is read or written.
fn check_unread(rt: &impl Abort, own: Global, passing: u64) {
    let alloc = FailingAlloc::after(own, passing);
    let pulls = Cell::new(0);
    let source = CountedSource::new(ChunkedSource::new(b"a\nb\nc\n", 2, u64::MAX), &pulls);
    let mut reader: Reader<'_> = LineReader::standard(source);
    assert!(rt; reader.block() == Ok(b"a\n".as_slice()));
    let mut store = Store::empty(&alloc);
    let mut out = Out::new(VecSink::new(own));
    check_memory_fault(rt, &mut reader, &mut store, &mut out);
    let written = out.into_sink().bytes().len();
    assert_same(rt, &(pulls.get(), written), &(1, 0));
}

#[test]
fn runs_of_a_reader(rt: HostRuntime) {
    let mut case = NO_FAILURE;
    case.text = FILE;
    for size in [1, 7, usize::MAX] {
        case.size = size;
        let job = Job::Uniq(&COUNTS);
        let kept = check_run(&rt, rt.alloc(), (job, &case), Ok(()), RUNS_OF_FILE);
        assert_same(&rt, &kept, &(2, 0));
    }
    // The allocation of each of the two slots fails.
    for passing in 0..2u64 {
        check_unread(&rt, rt.alloc(), passing);
    }
}

#[test]
fn repeated_short_lines(rt: HostRuntime) {
    let mut case = NO_FAILURE;
    case.text = REPEATS;
    for size in [1, 20, usize::MAX] {
        case.size = size;
        let job = Job::Uniq(&WHOLE);
        let kept = check_run(&rt, rt.alloc(), (job, &case), Ok(()), RUNS_OF_REPEATS);
        assert_same(&rt, &kept, &(2, 0));
    }
}
