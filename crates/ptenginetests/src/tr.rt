//! Tests of `tr`: examples in pieces, some with a read or a write that fails, whose output is written by hand; and
//! inputs of each length at which vectors, masks and blocks end, and maps by shifted ranges, whose output is computed
//! byte by byte from the plan.

use crate::asserts::assert_for;
use crate::one_input::{Case, Job, LONG, NO_FAILURE, SHORT, check_run};
use ptfakes::texts::text_of;
use ptflow::{FlowFault, translate};
use ptlangs::{CharPlan, Form, Shifts};
use ptlines::BLOCK;
use std::alloc::{AllocError, Global};
use std::process::Abort;

// The form, whether the first string is complemented, and the strings.
type Strings<'a> = (Form, bool, &'a [u8], Option<&'a [u8]>);

fn plan_of(rt: &impl Abort, (form, complement, first, second): Strings<'_>) -> CharPlan {
    assert!(rt; form.takes_second() == second.is_some());
    CharPlan::read(form, complement, first, second).expect(rt, "two strings")
}

// Bytes, and how often they are repeated.
type RepeatedBytes = (&'static [u8], usize);

// An example: the strings; a text in pieces, their sizes, and the number of them that are read before a read fails; a
// sink that takes `taking` bytes a call, for `calls` calls before a write fails; the result and the output.
struct Example {
    strings: Strings<'static>,
    text: RepeatedBytes,
    sizes: &'static [usize],
    passing: u64,
    taking: usize,
    calls: u64,
    result: Result<(), FlowFault>,
    written: RepeatedBytes,
}

// No call fails.
const DEFAULTS: Example = Example {
    strings: SQUEEZED,
    text: (b"", 0),
    sizes: &[1, 2, 3, 4, 5, usize::MAX],
    passing: u64::MAX,
    taking: usize::MAX,
    calls: u64::MAX,
    result: Ok(()),
    written: (b"", 0),
};

const SQUEEZED: Strings<'_> = (Form::Squeeze, false, b"a", None);

const EXAMPLES: &[Example] = &[
    Example {
        text: (b"aabaa", 1),
        written: (b"aba", 1),
        ..DEFAULTS
    },
    Example {
        strings: (Form::TranslateSqueeze, true, b"[:alpha:]", Some(b"[\\n*]")),
        text: (b"one, two.\n", 1),
        written: (b"one\ntwo\n", 1),
        ..DEFAULTS
    },
    Example {
        strings: (Form::Delete, true, b"0-9", None),
        text: (b"a1b2\n", 1),
        written: (b"12", 1),
        ..DEFAULTS
    },
    Example {
        strings: (Form::DeleteSqueeze, false, b"0-9", Some(b"ab")),
        text: (b"a1ab2bb", 1),
        written: (b"ab", 1),
        ..DEFAULTS
    },
    Example {
        strings: (Form::Translate, false, b"a-c", Some(b"x-y")),
        text: (b"abcd", 1),
        written: (b"xyyd", 1),
        ..DEFAULTS
    },
    Example {
        text: (b"aaaab", 4000),
        sizes: &[1, 7, usize::MAX],
        written: (b"ab", 4000),
        ..DEFAULTS
    },
    // A failed read.
    Example {
        text: (b"aabaa", 1),
        sizes: &[3],
        passing: 1,
        result: Err(FlowFault::Read(0)),
        written: (b"ab", 1),
        ..DEFAULTS
    },
    // A text longer than a block, without the squeezed byte, and a sink that fails at its second call.
    Example {
        text: (b"b", 20000),
        sizes: &[usize::MAX],
        taking: 5000,
        calls: 1,
        result: Err(FlowFault::Write),
        written: (b"b", 5000),
        ..DEFAULTS
    },
];

fn repeated(alloc: Global, (bytes, count): RepeatedBytes) -> Result<Vec<u8>, AllocError> {
    let mut text = Vec::new(alloc);
    for _ in 0..count {
        text.extend_from_slice(bytes)?;
    }
    Ok(text)
}

fn check_example(rt: &impl Abort, alloc: Global, example: &Example) {
    let plan = plan_of(rt, example.strings);
    let text = repeated(alloc, example.text).expect(rt, "a text");
    let all = repeated(alloc, example.written).expect(rt, "an output");
    for size in example.sizes {
        let case = Case {
            text: &text,
            size: *size,
            passing: example.passing,
            taking: example.taking,
            calls: example.calls,
        };
        check_run(rt, alloc, (Job::Tr(&plan), &case), example.result, &all);
    }
}

// `count` bytes, with all values in order.
fn each_value(alloc: Global, count: usize) -> Result<Vec<u8>, AllocError> {
    let mut bytes = Vec::new(alloc);
    for value in 0..count {
        bytes.push((value % 256) as u8)?;
    }
    Ok(bytes)
}

// Ends the test unless `shifts` maps each byte as the plan does.
fn check_images(rt: &impl Abort, plan: &CharPlan, shifts: &Shifts, from: &[u8], to: &mut [u8]) {
    assert!(rt; from.len() == to.len());
    translate(shifts, from, to);
    let moved = from
        .iter()
        .zip(&*to)
        .all(|(from, to)| plan.image(*from) == *to);
    assert_for(rt, &from.len(), moved);
}

fn check_shifts(rt: &impl Abort, alloc: Global, (first, second): (&[u8], &[u8])) {
    let plan = plan_of(rt, (Form::Translate, false, first, Some(second)));
    let shifts = plan.shifts().expect(rt, "at most four stretches");
    for count in [0, 1, 31, 32, 33, BLOCK - 1, BLOCK, BLOCK + 1] {
        let from = each_value(alloc, count).expect(rt, "a text");
        let mut to = each_value(alloc, count).expect(rt, "a text");
        check_images(rt, &plan, &shifts, &from, &mut to);
    }
}

// Strings whose plan consists of shifted ranges.
const SHIFT_EXAMPLES: &[(&[u8], &[u8])] = &[(b"a-z\\377", b"A-Z\\1"), (b"A-Za-z", b"N-ZA-Mn-za-m")];

#[test]
fn forms_in_pieces_and_stretches(rt: HostRuntime) {
    for example in EXAMPLES {
        check_example(&rt, rt.alloc(), example);
    }
    for strings in SHIFT_EXAMPLES {
        check_shifts(&rt, rt.alloc(), *strings);
    }
}

// `count` bytes of all values, some of which are repeated two or three times.
fn mixed(alloc: Global, count: usize) -> Result<Vec<u8>, AllocError> {
    let mut bytes = Vec::new(alloc);
    let mut state = 1u32;
    let mut again = 0u32;
    for _ in 0..count {
        if again == 0 {
            state = state.wrapping_mul(1664525).wrapping_add(1013904223);
            again = (state >> 20) % 3;
        } else {
            again = again.saturating_sub(1);
        }
        bytes.push((state >> 24) as u8)?;
    }
    Ok(bytes)
}

// The output for a text, computed byte by byte from the plan.
fn expected_output(alloc: Global, plan: &CharPlan, text: &[u8]) -> Result<Vec<u8>, AllocError> {
    let mut written = Vec::new(alloc);
    let mut last = None;
    for byte in text {
        let image = plan.image(*byte);
        let repeats = last == Some(image) && plan.squeezes(image);
        if !plan.deletes(*byte) && !repeats {
            written.push(image)?;
            last = Some(image);
        }
    }
    Ok(written)
}

// Checks an input of `count` bytes in pieces of `size` bytes.
fn check_length(rt: &impl Abort, alloc: Global, plan: &CharPlan, (count, size): (usize, usize)) {
    let text = mixed(alloc, count).expect(rt, "a text");
    let all = expected_output(alloc, plan, &text).expect(rt, "an output");
    let case = Case {
        text: &text,
        size,
        ..NO_FAILURE
    };
    check_run(rt, alloc, (Job::Tr(plan), &case), Ok(()), &all);
}

// Checks short inputs, in one piece and in two; and if `blocks` is set, lengths around that of a block.
fn check_plan(rt: &impl Abort, alloc: Global, strings: Strings<'_>, blocks: bool) {
    let plan = plan_of(rt, strings);
    for size in [usize::MAX, 40] {
        for count in SHORT {
            check_length(rt, alloc, &plan, (*count, size));
        }
    }
    if blocks {
        for count in LONG {
            check_length(rt, alloc, &plan, (*count, usize::MAX));
        }
    }
}

// Six bytes with different high nibbles, each shifted by another amount.
const SIX_BYTES: &[u8] = b"\\1\\21\\41\\61\\101\\121";

const SIX_IMAGES: &[u8] = b"\\2\\23\\44\\65\\106\\127";

// Plans of one, two and four shifted ranges, ranges across byte 128, a quarter and a half of a table, one image for a
// set, the other half of a table, and all of it. If the flag is set, blocks are checked as well.
const TRANSLATED: &[(bool, &[u8], &[u8], bool)] = &[
    (false, b"a-z", b"A-Z", true),
    (false, b"a-z\\377", b"A-Z\\1", true),
    (false, b"A-Za-z", b"N-ZA-Mn-za-m", true),
    (false, b"\\000-\\177", b"\\200-\\377", false),
    (false, b"\\177\\200", b"\\200\\177", false),
    (false, b"a-z", b"a-z", true),
    (false, b"aeiouy", b"AEIOUY", true),
    (false, b"aeiouy,.;", b"AEIOUY;,.", true),
    (true, b"[:alpha:]", b"[\\n*]", true),
    (false, b"\\177\\200acegikmo", b"[x*]", false),
    (false, SIX_BYTES, SIX_IMAGES, true),
    (false, b"\\200\\221\\243\\300\\377", b"abcde", false),
    (false, b"\\1\\101\\200\\210\\300\\377", b"abcdef", true),
];

// Sets of bytes, each used with its complement: some bytes, bytes around 128, one byte, and all bytes.
const SETS: &[&[u8]] = &[b"0-9", b"\\176-\\201", b"[:print:]", b" ", b"\\000-\\377"];

const BLOCK_EXAMPLE: Strings<'_> = (Form::DeleteSqueeze, true, b"[:print:]", Some(b"0-9a-z"));

#[test]
fn each_length(rt: HostRuntime) {
    for (complement, first, second, blocks) in TRANSLATED {
        let strings = (Form::Translate, *complement, *first, Some(*second));
        check_plan(&rt, rt.alloc(), strings, false);
        let strings = (Form::TranslateSqueeze, *complement, *first, Some(*second));
        check_plan(&rt, rt.alloc(), strings, *blocks);
    }
    for set in SETS {
        for complement in [false, true] {
            let digits: &[u8] = b"0-9\\177";
            for (form, first, second) in [
                (Form::Delete, *set, None),
                (Form::Squeeze, *set, None),
                (Form::DeleteSqueeze, digits, Some(*set)),
            ] {
                check_plan(&rt, rt.alloc(), (form, complement, first, second), false);
            }
        }
    }
    check_plan(&rt, rt.alloc(), BLOCK_EXAMPLE, true);
}

// One byte of the first 64 is deleted. They are followed by 64 bytes, which are stored with them, or by 63.
#[test]
fn one_byte_among_64(rt: HostRuntime) {
    let plan = plan_of(&rt, (Form::Delete, false, b"\\r", None));
    for after in 63..65 {
        for index in 0..64 {
            let lengths = [index, 63 - index + after];
            let text = text_of(rt.alloc(), &lengths, b'\r', false).expect(&rt, "a text");
            let all = expected_output(rt.alloc(), &plan, &text).expect(&rt, "an output");
            let case = Case {
                text: &text,
                size: usize::MAX,
                ..NO_FAILURE
            };
            check_run(&rt, rt.alloc(), (Job::Tr(&plan), &case), Ok(()), &all);
        }
    }
}
