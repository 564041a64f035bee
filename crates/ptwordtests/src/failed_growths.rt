//! Command lines whose parse runs out of memory: each allocation fails in turn.

use crate::asserts::{assert_same, assert_same_for};
use ptfakes::FailingAlloc;
use ptopts::{Command, UseFault};
use std::alloc::Global;
use std::process::Abort;

// Whether parsing failed for lack of memory, the only fault that is allowed. Otherwise the files are compared.
fn is_denied(
    rt: &impl Abort,
    read: &Result<Command<'_, &FailingAlloc<Global>>, UseFault<'_>>,
    names: &[&str],
) -> bool {
    match read {
        Ok(command) => assert_same(rt, &command.names(), &names),
        Err(fault) => assert_same(rt, fault, &UseFault::Memory),
    }
    read.is_err()
}

// Like `is_denied`, for an allocator that fails after `passed` allocations.
fn is_denied_after(
    rt: &impl Abort,
    (alloc, passed): (Global, u64),
    words: &[&str],
    names: &[&str],
) -> bool {
    let alloc = FailingAlloc::after(alloc, passed);
    is_denied(rt, &Command::read(&alloc, words), names)
}

/// A command line, the files that it names, and the number of allocations of its parse.
const GROWTHS: &[(&[&str], &[&str], u64)] = &[
    (
        &["cut", "-s", "-d,", "-f", "1,3", "f", "-", "g"],
        &["f", "g"],
        5,
    ),
    (&["paste", "-s", "-d,;", "f", "-"], &["f"], 4),
    (&["paste", "f"], &["f"], 3),
    (&["uniq", "-c", "f", "out"], &["f"], 3),
    (&["comm", "-1", "f", "g"], &["f", "g"], 3),
    (&["join", "-o", "0", "-ex", "f", "-"], &["f"], 5),
    (&["tr", "-d", "a"], &[], 2),
];

#[test]
fn each_growth_refused_in_turn(rt: HostRuntime) {
    for (words, names, count) in GROWTHS {
        for passed in 0..16u64 {
            let is_denied = is_denied_after(&rt, (rt.alloc(), passed), words, names);
            assert_same_for(&rt, words, &is_denied, &(passed < *count));
        }
    }
}
