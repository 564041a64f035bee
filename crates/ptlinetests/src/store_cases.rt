//! Tests of the store: its operations on slots, its peak, and failed requests for memory.

use crate::asserts::{holds_of, same, same_of};
use ptfakes::{ChunkedSource, FailingAlloc};
use ptlines::{LineFault, LineReader, Store};
use std::alloc::Global;
use std::process::Abort;
use std::test::Fail;

// An operation on a store.
#[derive(Clone, Copy)]
enum Step {
    // Reads a line, which contains no newline, into a slot.
    Hold(usize, &'static [u8]),
    Copy(usize, usize),
    Clear(usize),
    Swap(usize, usize),
    // Sets a slot to these bytes.
    Set(usize, &'static [u8]),
    Add,
}

// An allocator that may fail.
type Lent<'a> = &'a FailingAlloc<Global>;

// The lines of a store, and its peak.
type Lines = (&'static [&'static [u8]], u128);

// An operation, the store after it, and the store if its request for memory failed.
type Row = (Step, Lines, Lines);

// For an operation that requests no memory.
const NONE: Lines = (&[], 0);

// A name, the slots of a new store, and the operations in order.
type Case = (&'static str, &'static [&'static [u8]], &'static [Row]);

const CASES: &[Case] = &[
    (
        "slots hold lines",
        &[b"", b"", b""],
        &[
            (Step::Hold(0, b"abc"), (&[b"abc", b"", b""], 3), NONE),
            (Step::Hold(2, b"xy"), (&[b"abc", b"", b"xy"], 5), NONE),
            (Step::Hold(0, b"abcd"), (&[b"abcd", b"", b"xy"], 6), NONE),
            (Step::Hold(1, b""), (&[b"abcd", b"", b"xy"], 6), NONE),
            (Step::Clear(0), (&[b"", b"", b"xy"], 6), NONE),
            (Step::Clear(0), (&[b"", b"", b"xy"], 6), NONE),
            (Step::Swap(1, 2), (&[b"", b"xy", b""], 6), NONE),
            (Step::Swap(1, 1), (&[b"", b"xy", b""], 6), NONE),
            (Step::Set(1, b"z"), (&[b"", b"z", b""], 6), NONE),
            (Step::Set(0, b"abcdef"), (&[b"abcdef", b"z", b""], 7), NONE),
        ],
    ),
    (
        "slots are copied and added",
        &[b"", b"", b""],
        &[
            (Step::Hold(1, b"xy"), (&[b"", b"xy", b""], 2), NONE),
            (Step::Copy(1, 0), (&[b"xy", b"xy", b""], 4), NONE),
            (Step::Hold(0, b"xyz"), (&[b"xyz", b"xy", b""], 5), NONE),
            (Step::Copy(0, 1), (&[b"xyz", b"xyz", b""], 6), NONE),
            (Step::Copy(2, 1), (&[b"xyz", b"", b""], 6), NONE),
            (Step::Add, (&[b"xyz", b"", b"", b""], 6), NONE),
            (
                Step::Hold(3, b"\0\r\xff\x80"),
                (&[b"xyz", b"", b"", b"\0\r\xff\x80"], 7),
                NONE,
            ),
        ],
    ),
    ("no slots", &[], &[(Step::Add, (&[b""], 0), NONE)]),
];

// Applies an operation. Its slots exist.
fn takes(rt: &impl Abort, store: &mut Store<Lent<'_>>, step: Step) -> Result<(), LineFault> {
    let slots = store.slots();
    match step {
        Step::Hold(slot, line) => {
            assert!(rt; slot < slots);
            return hold(rt, store, slot, line);
        }
        Step::Copy(from, to) => {
            assert!(rt; from < slots && to < slots && from != to);
            return store.copy(from, to);
        }
        Step::Clear(slot) => {
            assert!(rt; slot < slots);
            store.clear(slot);
        }
        Step::Swap(a, b) => {
            assert!(rt; a < slots && b < slots);
            store.swap(a, b);
        }
        Step::Set(slot, line) => {
            assert!(rt; slot < slots);
            return store.set(slot, line);
        }
        Step::Add => same(rt, &store.add()?, &slots),
    }
    Ok(())
}

fn hold(
    rt: &impl Abort,
    store: &mut Store<Lent<'_>>,
    slot: usize,
    line: &[u8],
) -> Result<(), LineFault> {
    assert!(rt; slot < store.slots());
    let mut reader: LineReader<ChunkedSource<'_>, ChunkedSource<'_>> = LineReader::standard(
        ChunkedSource::whole(line),
    );
    let given = reader.fill(store, slot)?;
    same(rt, &given, &!line.is_empty());
    Ok(())
}

// Fails the test unless the store has these lines and is denied or not, as expected.
fn has(
    rt: &impl Abort,
    of: &(&str, usize),
    store: &Store<Lent<'_>>,
    (lines, peak): Lines,
    denied: bool,
) {
    let mut now = 0u128;
    for (slot, line) in lines.iter().enumerate() {
        assert!(rt; slot < store.slots());
        holds_of(rt, of, store.line(slot) == *line);
        now = now.saturating_add(line.len() as u128);
    }
    same_of(rt, of, &store.slots(), &lines.len());
    same_of(rt, of, &(store.now(), store.peak()), &(now, peak));
    same_of(rt, of, &store.denied(), &denied);
}

// Applies an operation, and returns whether memory could not be allocated. If so it is repeated and succeeds, since
// only one request fails.
fn is_refused(
    rt: &impl Abort,
    of: &(&str, usize),
    store: &mut Store<Lent<'_>>,
    (step, lines, refused): Row,
) -> bool {
    let outcome = takes(rt, store, step);
    let is_refused = outcome.is_err();
    if is_refused {
        same_of(rt, of, &outcome, &Err(LineFault::Memory));
        has(rt, of, store, refused, true);
        same_of(rt, of, &takes(rt, store, step), &Ok(()));
    }
    has(rt, of, store, lines, is_refused);
    is_refused
}

// Applies these operations to a new store until one fails, and returns how many succeeded.
fn run_steps(rt: &impl Abort, store: &mut Store<Lent<'_>>, (name, slots, rows): Case) -> usize {
    has(rt, &(name, 0), store, (slots, 0), false);
    for (number, row) in rows.iter().enumerate() {
        if is_refused(rt, &(name, number), store, *row) {
            return number;
        }
    }
    rows.len()
}

#[test]
fn slot_operations(rt: HostRuntime) -> Result<(), Fail> {
    let alloc = FailingAlloc::after(rt.alloc(), u64::MAX);
    for case in CASES {
        let (name, slots, rows) = *case;
        let mut store = Store::new(&alloc, slots.len())?;
        let done = run_steps(&rt, &mut store, *case);
        same_of(&rt, &name, &done, &rows.len());
    }
    Ok(())
}

const ADDED: Case = ("empty", &[], &[(Step::Add, (&[b""], 0), (&[], 0))]);

const LONG: &[u8] = b"0123456789012345678901234567890123456789012345678901234567890123456789";

// Two slots grow in every way.
const GROWING: Case = (
    "growing",
    &[b"", b""],
    &[
        (Step::Hold(0, LONG), (&[LONG, b""], 70), (&[b"", b""], 0)),
        (Step::Hold(1, b"b"), (&[LONG, b"b"], 71), (&[LONG, b""], 70)),
        (Step::Copy(0, 1), (&[LONG, LONG], 140), (&[LONG, b""], 71)),
    ],
);

// The lines after many slots were added.
const MANY: &[&[u8]] = &[
    LONG, LONG, b"", b"", b"", b"", b"", b"", b"", b"", b"", b"", b"", b"", b"", b"", b"", b"",
    b"", b"", b"", b"", b"", b"", b"", b"", b"", b"", b"", b"", b"", b"", b"", b"", b"", b"", b"",
    b"", b"", b"",
];

// Adds slots until one request fails, and returns whether one did.
fn add_many(rt: &impl Abort, store: &mut Store<Lent<'_>>) -> bool {
    for slot in 2..40usize {
        assert!(rt; slot < MANY.len());
        let row = (Step::Add, (&MANY[..=slot], 140), (&MANY[..slot], 140));
        if is_refused(rt, &("added", slot), store, row) {
            return true;
        }
    }
    false
}

// At which stage the one request that fails is made: on creation, in one of the three operations, when slots are added,
// or at none.
fn failing_stage_of(rt: &impl Abort, alloc: Lent<'_>) -> usize {
    match Store::new(alloc, 2) {
        Ok(mut store) => failing_stage(rt, &mut store),
        Err(fault) => {
            same(rt, &fault, &LineFault::Memory);
            0
        }
    }
}

const NOWHERE: usize = 5;

fn failing_stage(rt: &impl Abort, store: &mut Store<Lent<'_>>) -> usize {
    let done = run_steps(rt, store, GROWING);
    if done < 3 {
        done.saturating_add(1)
    } else if add_many(rt, store) {
        4
    } else {
        NOWHERE
    }
}

#[test]
fn each_request_fails(rt: HostRuntime) {
    // An empty store requests no memory, and then its first slot fails.
    let refusing = FailingAlloc::after(rt.alloc(), 0);
    let mut store = Store::empty(&refusing);
    assert!(rt; !refusing.refused());
    same(&rt, &run_steps(&rt, &mut store, ADDED), &0);
    assert!(rt; refusing.refused());
    // How many of the first requests, failing in turn, belong to each stage.
    let mut counts = [0u32; 6];
    for ok_calls in 0..80u64 {
        let refusing = FailingAlloc::after(rt.alloc(), ok_calls);
        let stop = failing_stage_of(&rt, &refusing);
        same_of(&rt, &ok_calls, &refusing.refused(), &(stop != NOWHERE));
        if let Some(count) = counts.get_mut(stop) {
            *count = count.saturating_add(1);
        }
    }
    // The stages: creation, the two lines, the copy, added slots, none.
    let [made, first, second, copied, added, nowhere] = counts;
    let is_each = made > 0 && (first > 0 || second > 0) && copied > 0 && added > 0;
    // In the last runs no request fails.
    holds_of(&rt, &counts, is_each && nowhere > 20);
}
