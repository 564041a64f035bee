//! Arguments that are no command: the message about each fault of each tool, and status 2. And the limit of
//! operands: 512 are accepted, and 513 are not.

use crate::harness::Input::Text;
use crate::harness::{case_over, expect, expect_usage_error};
use std::alloc::{AllocError, Global};
use std::process::Abort;
use std::test::Fail;

// The arguments and the message.
type UsageError = (&'static [&'static str], &'static str);

const NO_TOOL: &str = "ptext: first word: cut, paste, join, comm, uniq or tr\n";

const TOOLS_AND_OPTIONS: &[UsageError] = &[
    // No tool.
    (&[], NO_TOOL),
    (&["cat"], NO_TOOL),
    (&["Cut", "-b1"], NO_TOOL),
    (&["", "-b1"], NO_TOOL),
    // Unknown options.
    (&["cut", "-xb"], "cut: unknown option in -xb\n"),
    (&["cut", "-b1", "-s-"], "cut: unknown option in -s-\n"),
    (&["cut", "-b1", "-sé"], "cut: unknown option in -sé\n"),
    (&["paste", "-d,", "-r"], "paste: unknown option in -r\n"),
    (&["cut", "-b1", "-r"], "cut: unknown option in -r\n"),
    (&["tr", "-z", "a", "b"], "tr: unknown option in -z\n"),
    (&["uniq", "-x"], "uniq: unknown option in -x\n"),
    (&["comm", "-4", "f", "g"], "comm: unknown option in -4\n"),
    (&["join", "-x", "f", "g"], "join: unknown option in -x\n"),
    (&["tr", "-x", "a", "b"], "tr: unknown option in -x\n"),
    (&["tr", "-z", "a", "b"], "tr: unknown option in -z\n"),
    // Options without a value.
    (&["cut", "-b"], "cut: option -b needs a value\n"),
    (&["cut", "-c"], "cut: option -c needs a value\n"),
    (&["cut", "-sf"], "cut: option -f needs a value\n"),
    (&["cut", "-b1", "-d"], "cut: option -d needs a value\n"),
    (&["paste", "-d"], "paste: option -d needs a value\n"),
    (&["uniq", "-f"], "uniq: option -f needs a value\n"),
    (&["uniq", "-cs"], "uniq: option -s needs a value\n"),
    (&["join", "-a"], "join: option -a needs a value\n"),
    (&["join", "-v"], "join: option -v needs a value\n"),
    (&["join", "-e"], "join: option -e needs a value\n"),
    (&["join", "-o"], "join: option -o needs a value\n"),
    (&["join", "-t"], "join: option -t needs a value\n"),
    (&["join", "-1"], "join: option -1 needs a value\n"),
    (&["join", "-2"], "join: option -2 needs a value\n"),
];

const REPEATS_AND_CONFLICTS: &[UsageError] = &[
    // Repeated options.
    (
        &["cut", "-b", "1", "-b", "2"],
        "cut: option -b is given twice\n",
    ),
    (
        &["cut", "-b1", "-c2", "-b3"],
        "cut: option -b is given twice\n",
    ),
    (&["cut", "-b", "1", "-b"], "cut: option -b is given twice\n"),
    (&["cut", "-c1", "-c2"], "cut: option -c is given twice\n"),
    (&["cut", "-f1", "-f1"], "cut: option -f is given twice\n"),
    (&["cut", "-d:", "-d:"], "cut: option -d is given twice\n"),
    (
        &["paste", "-d,", "-d,", "f"],
        "paste: option -d is given twice\n",
    ),
    (&["uniq", "-f1", "-f1"], "uniq: option -f is given twice\n"),
    (&["uniq", "-s1", "-s2"], "uniq: option -s is given twice\n"),
    (&["join", "-ea", "-eb"], "join: option -e is given twice\n"),
    (&["join", "-o0", "-o0"], "join: option -o is given twice\n"),
    (&["join", "-t,", "-t,"], "join: option -t is given twice\n"),
    (&["join", "-11", "-12"], "join: option -1 is given twice\n"),
    (&["join", "-21", "-22"], "join: option -2 is given twice\n"),
    // Options that conflict.
    (
        &["cut", "-b", "0", "-c", "1"],
        "cut: options -b and -c do not go together\n",
    ),
    (
        &["cut", "-b", "1", "-f", "1"],
        "cut: options -b and -f do not go together\n",
    ),
    (
        &["cut", "-f1", "-c1"],
        "cut: options -c and -f do not go together\n",
    ),
    (
        &["cut", "-nc1"],
        "cut: options -c and -n do not go together\n",
    ),
    (
        &["cut", "-f1", "-n"],
        "cut: options -f and -n do not go together\n",
    ),
    (
        &["cut", "-b1", "-d:"],
        "cut: options -b and -d do not go together\n",
    ),
    (
        &["cut", "-d:", "-c1"],
        "cut: options -c and -d do not go together\n",
    ),
    (
        &["cut", "-sb1"],
        "cut: options -b and -s do not go together\n",
    ),
    (
        &["cut", "-c1", "-s"],
        "cut: options -c and -s do not go together\n",
    ),
    (
        &["uniq", "-cd"],
        "uniq: options -c and -d do not go together\n",
    ),
    (
        &["uniq", "-u", "-c"],
        "uniq: options -c and -u do not go together\n",
    ),
    (
        &["uniq", "-du"],
        "uniq: options -d and -u do not go together\n",
    ),
    (
        &["join", "-a", "3", "-v", "1", "f", "g"],
        "join: options -a and -v do not go together\n",
    ),
    (
        &["tr", "-cC", "a", "b"],
        "tr: options -c and -C do not go together\n",
    ),
];

const VALUES_OF_CUT: &[UsageError] = &[
    // `cut` without a list.
    (&["cut"], "cut: one of -b, -c and -f is needed\n"),
    (
        &["cut", "-d", "::", "-s"],
        "cut: one of -b, -c and -f is needed\n",
    ),
    (&["cut", "-n", "f"], "cut: one of -b, -c and -f is needed\n"),
    // Values of `cut`.
    (&["cut", "-f", "0"], "cut: wrong value for option -f: 0\n"),
    (
        &["cut", "-z", "-d", "\0", "-f", "1"],
        "cut: wrong value for option -d: \0\n",
    ),
    (&["cut", "-b", ""], "cut: wrong value for option -b: \n"),
    (
        &["cut", "-b", "1,3-2"],
        "cut: wrong value for option -b: 1,3-2\n",
    ),
    (
        &["cut", "-b", "1,,2"],
        "cut: wrong value for option -b: 1,,2\n",
    ),
    (&["cut", "-c", "-"], "cut: wrong value for option -c: -\n"),
    (&["cut", "-c", "a"], "cut: wrong value for option -c: a\n"),
    (
        &["cut", "-b", "18446744073709551616"],
        "cut: wrong value for option -b: 18446744073709551616\n",
    ),
    (&["cut", "-b", "--"], "cut: wrong value for option -b: --\n"),
    (
        &["cut", "-f1", "-d", "::"],
        "cut: wrong value for option -d: ::\n",
    ),
    (
        &["cut", "-f1", "-d", ""],
        "cut: wrong value for option -d: \n",
    ),
    (
        &["cut", "-f1", "-d", "\n"],
        "cut: wrong value for option -d: \n\n",
    ),
    (
        &["cut", "-d", "::", "-f", "x"],
        "cut: wrong value for option -f: x\n",
    ),
];

const VALUES_OF_OTHERS: &[UsageError] = &[
    // Values of `paste` and `uniq`.
    (
        &["paste", "-d", "", "f"],
        "paste: wrong value for option -d: \n",
    ),
    (
        &["paste", "-d", "a\\", "f"],
        "paste: wrong value for option -d: a\\\n",
    ),
    (
        &["paste", "-d", "\\x", "f"],
        "paste: wrong value for option -d: \\x\n",
    ),
    (
        &["uniq", "-f", "-1"],
        "uniq: wrong value for option -f: -1\n",
    ),
    (&["uniq", "-s", ""], "uniq: wrong value for option -s: \n"),
    (
        &["uniq", "-s", "x", "-f", "y"],
        "uniq: wrong value for option -f: y\n",
    ),
    (
        &["uniq", "-f", "18446744073709551616"],
        "uniq: wrong value for option -f: 18446744073709551616\n",
    ),
    // Values of `join`.
    (
        &["join", "-o", "1.0", "-a", "3", "f"],
        "join: wrong value for option -a: 3\n",
    ),
    (
        &["join", "-a1", "-a", "12", "f", "g"],
        "join: wrong value for option -a: 12\n",
    ),
    (
        &["join", "-v", "0", "f", "g"],
        "join: wrong value for option -v: 0\n",
    ),
    (
        &["join", "-t", "ab", "-o", "1.0", "f", "g"],
        "join: wrong value for option -o: 1.0\n",
    ),
    (
        &["join", "-o", "0,3.1", "f", "g"],
        "join: wrong value for option -o: 0,3.1\n",
    ),
    (
        &["join", "-1", "0", "-t", "ab", "f", "g"],
        "join: wrong value for option -t: ab\n",
    ),
    (
        &["join", "-2", "x", "-1", "0", "f", "g"],
        "join: wrong value for option -1: 0\n",
    ),
    (
        &["join", "-2", "x", "f", "g"],
        "join: wrong value for option -2: x\n",
    ),
];

const OPERANDS_AND_STRINGS: &[UsageError] = &[
    // The number of operands, and standard input twice.
    (&["paste"], "paste: wrong number of operands\n"),
    (
        &["uniq", "--", "-c", "a", "b"],
        "uniq: wrong number of operands\n",
    ),
    (&["comm"], "comm: wrong number of operands\n"),
    (&["comm", "f"], "comm: wrong number of operands\n"),
    (&["comm", "-", "-", "-"], "comm: wrong number of operands\n"),
    (&["join", "f"], "join: wrong number of operands\n"),
    (
        &["join", "f", "g", "-a1"],
        "join: wrong number of operands\n",
    ),
    (&["tr"], "tr: wrong number of operands\n"),
    (&["tr", "a"], "tr: wrong number of operands\n"),
    (&["tr", "a", "b", "c"], "tr: wrong number of operands\n"),
    (&["tr", "-s"], "tr: wrong number of operands\n"),
    (
        &["tr", "-s", "a", "b", "c"],
        "tr: wrong number of operands\n",
    ),
    (&["tr", "-cd"], "tr: wrong number of operands\n"),
    (&["tr", "-d", "a", "b"], "tr: wrong number of operands\n"),
    (&["tr", "-ds", "a"], "tr: wrong number of operands\n"),
    (&["comm", "-", "-"], "comm: standard input is named twice\n"),
    (
        &["join", "-a1", "-", "-"],
        "join: standard input is named twice\n",
    ),
    // Strings of `tr`.
    (&["tr", "", "b"], "tr: wrong string1: empty\n"),
    (&["tr", "a", ""], "tr: wrong string2: empty\n"),
    (&["tr", "-d", "\\400"], "tr: wrong string1: octal\n"),
    (&["tr", "a", "b\\"], "tr: wrong string2: escape\n"),
    (&["tr", "z-a", "b"], "tr: wrong string1: descending\n"),
    (
        &["tr", "-d", "a-[:digit:]"],
        "tr: wrong string1: descending\n",
    ),
    (&["tr", "[:foo:]", "a"], "tr: wrong string1: class\n"),
    (&["tr", "a-z", "[:upper:]"], "tr: wrong string2: pairing\n"),
    (
        &["tr", "[:lower:]", "[:lower:]"],
        "tr: wrong string2: pairing\n",
    ),
    (
        &["tr", "-c", "[:alpha:]", "[:upper:]"],
        "tr: wrong string2: pairing\n",
    ),
    (&["tr", "0", "[=x=]"], "tr: wrong string2: equivalence\n"),
    (&["tr", "[a*3]", "b"], "tr: wrong string1: repeat\n"),
    (&["tr", "abc", "[x*08]"], "tr: wrong string2: size\n"),
    (&["tr", "a", "[x*65536]"], "tr: wrong string2: size\n"),
    (&["tr", "a", "[x*][y*]"], "tr: wrong string2: fill\n"),
    (&["tr", "z-a", "\\400"], "tr: wrong string1: descending\n"),
    (&["tr", "-d", "z-a", "b"], "tr: wrong number of operands\n"),
    // The first fault is reported: one of an earlier step of parsing comes before those of later steps, and the
    // leftmost one first among those of reading the arguments.
    (&["cut", "-x", "-b1", "-b"], "cut: unknown option in -x\n"),
    (
        &["cut", "-b1", "-b1", "-x"],
        "cut: option -b is given twice\n",
    ),
    (
        &["cut", "-b1", "-c1", "-d"],
        "cut: option -d needs a value\n",
    ),
    (
        &["join", "-a3", "-v1", "f"],
        "join: options -a and -v do not go together\n",
    ),
    (
        &["uniq", "-f", "x", "a", "b", "c"],
        "uniq: wrong value for option -f: x\n",
    ),
    (
        &["join", "-1", "0", "-", "-"],
        "join: wrong value for option -1: 0\n",
    ),
];

fn expect_usage_errors(
    rt: &impl Abort,
    alloc: Global,
    examples: &[UsageError],
) -> Result<(), Fail> {
    for (words, message) in examples {
        expect_usage_error(rt, alloc, words, message)?;
    }
    Ok(())
}

#[test]
fn invalid_options(rt: HostRuntime) -> Result<(), Fail> {
    expect_usage_errors(&rt, rt.alloc(), TOOLS_AND_OPTIONS)?;
    expect_usage_errors(&rt, rt.alloc(), REPEATS_AND_CONFLICTS)
}

#[test]
fn invalid_values(rt: HostRuntime) -> Result<(), Fail> {
    expect_usage_errors(&rt, rt.alloc(), VALUES_OF_CUT)?;
    expect_usage_errors(&rt, rt.alloc(), VALUES_OF_OTHERS)
}

#[test]
fn invalid_operands(rt: HostRuntime) -> Result<(), Fail> {
    expect_usage_errors(&rt, rt.alloc(), OPERANDS_AND_STRINGS)
}

// A tool and an argument, the number of `-` after them, standard input, the output, and the message. There may be 512
// operands, and as columns of `paste` too.
type ManyOperands = (
    [&'static str; 2],
    usize,
    &'static [u8],
    &'static str,
    &'static str,
);

const MANY_OPERANDS: &[ManyOperands] = &[
    (
        ["cut", "-b1"],
        513,
        b"",
        "",
        "cut: wrong number of operands\n",
    ),
    (["cut", "-b1"], 512, b"ab\n", "a\n", ""),
    (
        ["paste", "-"],
        512,
        b"",
        "",
        "paste: wrong number of operands\n",
    ),
    (["paste", "-d\\0"], 512, b"ab\n\ncd\n", "abcd\n", ""),
];

// These two words and `count` words `-`.
fn many_words<'a>(
    alloc: Global,
    first: &[&'a str],
    count: usize,
) -> Result<Vec<&'a str>, AllocError> {
    let mut words = Vec::new(alloc);
    words.extend_from_slice(first)?;
    for _ in 0..count {
        words.push("-")?;
    }
    Ok(words)
}

fn expect_many_operands(
    rt: &impl Abort,
    alloc: Global,
    words: &[&str],
    (_, _, standard, out, message): &ManyOperands,
) -> Result<(), Fail> {
    if !message.is_empty() {
        return expect_usage_error(rt, alloc, words, message);
    }
    let case = case_over(words, Text(standard), &[], 7);
    expect(rt, alloc, &case, out.as_bytes(), "")
}

#[test]
fn at_most_512_operands(rt: HostRuntime) -> Result<(), Fail> {
    for many in MANY_OPERANDS {
        let words = many_words(rt.alloc(), &many.0, many.1)?;
        expect_many_operands(&rt, rt.alloc(), &words, many)?;
    }
    Ok(())
}
