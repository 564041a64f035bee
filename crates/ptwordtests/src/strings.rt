//! Tests of the strings of `tr`: accepted ones, with some input and the output; rejected ones, with the fault; each
//! class over all bytes; and the stretches and tables of a plan.

use crate::asserts::{assert_for, assert_same_for};
use ptlangs::{
    CharPlan, Form, SetFault, SetFaultKind, SetString, elements_match_grammar, tables_match_plan,
};
use std::process::Abort;
use std::test::Fail;

/// A form, whether the first string is complemented, the strings, some input, and the output of `tr`.
struct Example(
    Form,
    bool,
    &'static str,
    Option<&'static str>,
    &'static str,
    &'static str,
);

const ROWS: &[Example] = &[
    Example(Form::Translate, false, "a-c", Some("x-y"), "abcd", "xyyd"),
    Example(
        Form::TranslateSqueeze,
        true,
        "[:alpha:]",
        Some("[\\n*]"),
        "one, two.\n",
        "one\ntwo\n",
    ),
    Example(
        Form::DeleteSqueeze,
        false,
        "0-9",
        Some("ab"),
        "a1ab2bb",
        "ab",
    ),
    Example(
        Form::Translate,
        false,
        "[:lower:]",
        Some("[:upper:]"),
        "ab1z\n",
        "AB1Z\n",
    ),
    Example(
        Form::Translate,
        false,
        "\\055a-b",
        Some("x[y*02]z"),
        "-ab",
        "xyy",
    ),
    Example(Form::Delete, true, "0-9", None, "a1b2\n", "12"),
    Example(Form::Delete, false, "a-c", None, "abcabd\n", "d\n"),
    Example(Form::Translate, false, "a-c-e", Some("1-5"), "a-e", "145"),
    Example(Form::Translate, false, "aab", Some("xyz"), "ab", "yz"),
    Example(Form::Translate, false, "\\0012", Some("ab"), "2", "b"),
    Example(Form::TranslateSqueeze, false, "ab", Some("x"), "abba", "x"),
    Example(
        Form::TranslateSqueeze,
        true,
        "a",
        Some("x"),
        "abba\n",
        "axax",
    ),
    Example(Form::Squeeze, false, "a", None, "aabaa", "aba"),
    Example(
        Form::Translate,
        false,
        "[a-c]",
        Some("<1-3>"),
        "[ab]",
        "<12>",
    ),
    Example(
        Form::Translate,
        false,
        "0-9",
        Some("[x*5]y"),
        "0459",
        "xxyy",
    ),
    Example(
        Form::Translate,
        false,
        "[:lower:]1",
        Some("[:upper:]"),
        "a1",
        "AZ",
    ),
    Example(
        Form::DeleteSqueeze,
        false,
        "[:digit:]",
        Some("[:space:]"),
        "1  2\n\n",
        " \n",
    ),
    Example(Form::Delete, false, "[=a=]b", None, "abc", "c"),
    Example(
        Form::Translate,
        true,
        "\\000-\\377",
        Some("[x*]"),
        "ab",
        "ab",
    ),
    Example(
        Form::Translate,
        false,
        "a-zA-Z",
        Some("n-za-mN-ZA-M"),
        "Hello",
        "Uryyb",
    ),
    Example(Form::Delete, false, "--/", None, "+,-./0", "+,0"),
    Example(Form::Delete, false, "[==]", None, "[a=]b", "ab"),
    Example(Form::Delete, false, "[::]", None, "[a:]b", "ab"),
    Example(Form::Delete, false, "\\08", None, "\089", "9"),
    Example(Form::Translate, false, "abc", Some("[a*x]"), "abc", "[a*"),
    Example(
        Form::Translate,
        false,
        "abcde",
        Some("1[x*]2"),
        "abcde",
        "1xxx2",
    ),
    Example(Form::Translate, false, "ab", Some("12[x*]3"), "ab", "12"),
    Example(
        Form::Translate,
        false,
        "123[:lower:]",
        Some("[x*][:upper:]"),
        "12a",
        "xxA",
    ),
    Example(Form::Squeeze, true, "[:alpha:]", None, "11  aa", "1 aa"),
];

/// A form, whether the first string is complemented, the strings, and the fault.
struct Refusal(
    Form,
    bool,
    &'static str,
    Option<&'static str>,
    SetString,
    SetFaultKind,
);

const REFUSALS: &[Refusal] = &[
    Refusal(
        Form::Delete,
        false,
        "\\400",
        None,
        SetString::First,
        SetFaultKind::Octal,
    ),
    Refusal(
        Form::Translate,
        false,
        "[:lower:]",
        Some("[:lower:]"),
        SetString::Second,
        SetFaultKind::ClassPlace,
    ),
    Refusal(
        Form::Translate,
        false,
        "z-a",
        Some("b"),
        SetString::First,
        SetFaultKind::Descending,
    ),
    Refusal(
        Form::Translate,
        false,
        "a",
        Some("b\\"),
        SetString::Second,
        SetFaultKind::Escape,
    ),
    Refusal(
        Form::Translate,
        false,
        "",
        Some("b"),
        SetString::First,
        SetFaultKind::Empty,
    ),
    Refusal(
        Form::Translate,
        false,
        "a",
        Some(""),
        SetString::Second,
        SetFaultKind::Empty,
    ),
    Refusal(
        Form::Translate,
        false,
        "a-z",
        Some("[:upper:]"),
        SetString::Second,
        SetFaultKind::ClassPlace,
    ),
    Refusal(
        Form::Translate,
        true,
        "[:alpha:]",
        Some("[:upper:]"),
        SetString::Second,
        SetFaultKind::ClassPlace,
    ),
    Refusal(
        Form::Translate,
        false,
        "0",
        Some("[=x=]"),
        SetString::Second,
        SetFaultKind::EquivPlace,
    ),
    Refusal(
        Form::Translate,
        false,
        "[a*3]",
        Some("b"),
        SetString::First,
        SetFaultKind::RepeatPlace,
    ),
    Refusal(
        Form::Translate,
        false,
        "abc",
        Some("[x*08]"),
        SetString::Second,
        SetFaultKind::RepeatSize,
    ),
    Refusal(
        Form::Translate,
        false,
        "a",
        Some("[x*65536]"),
        SetString::Second,
        SetFaultKind::RepeatSize,
    ),
    Refusal(
        Form::Translate,
        false,
        "a",
        Some("[x*][y*]"),
        SetString::Second,
        SetFaultKind::SecondFill,
    ),
    Refusal(
        Form::Translate,
        false,
        "[:foo:]",
        Some("a"),
        SetString::First,
        SetFaultKind::UnknownClass,
    ),
    Refusal(
        Form::Delete,
        false,
        "a-[:digit:]",
        None,
        SetString::First,
        SetFaultKind::Descending,
    ),
    Refusal(
        Form::Delete,
        false,
        "\\",
        None,
        SetString::First,
        SetFaultKind::Escape,
    ),
    Refusal(
        Form::Translate,
        false,
        "z-a",
        Some("\\"),
        SetString::First,
        SetFaultKind::Descending,
    ),
    Refusal(
        Form::Translate,
        false,
        "ab",
        Some("[:upper:]z-a"),
        SetString::Second,
        SetFaultKind::Descending,
    ),
    Refusal(
        Form::Translate,
        false,
        "a[:lower:]",
        Some("[:upper:]"),
        SetString::Second,
        SetFaultKind::ClassPlace,
    ),
];

/// Reads the plan of the strings, of which the form uses one or both.
fn read(
    form: Form,
    complement: bool,
    s1: &str,
    s2: Option<&str>,
) -> Option<Result<CharPlan, SetFault>> {
    let s2 = s2.map(|s| s.as_bytes());
    if form.takes_second() != s2.is_some() {
        return None;
    }
    Some(CharPlan::read(form, complement, s1.as_bytes(), s2))
}

// Whether `tr` writes this output for this input.
fn is_written(plan: &CharPlan, input: &[u8], output: &[u8]) -> bool {
    let mut last = None;
    let mut is_so = true;
    let mut count = 0usize;
    for byte in input {
        let image = plan.image(*byte);
        let repeats = last == Some(image) && plan.squeezes(image);
        if !plan.deletes(*byte) && !repeats {
            is_so &= output.get(count) == Some(&image);
            last = Some(image);
            count = count.saturating_add(1);
        }
    }
    is_so && count == output.len()
}

#[test]
fn strings_are_parsed_or_rejected(rt: HostRuntime) -> Result<(), Fail> {
    for Example(form, complement, s1, s2, input, output) in ROWS {
        let Some(Ok(plan)) = read(*form, *complement, s1, *s2) else {
            return Err(Fail::from("a string is refused"));
        };
        let is_so = is_written(&plan, input.as_bytes(), output.as_bytes());
        assert_for(&rt, &(*s1, *s2), is_so);
    }
    for Refusal(form, complement, s1, s2, string, kind) in REFUSALS {
        let plan = read(*form, *complement, s1, *s2).ok_or("the count of strings")?;
        let fault = SetFault {
            string: *string,
            kind: *kind,
        };
        assert_same_for(&rt, &(*s1, *s2), &plan.err(), &Some(fault));
    }
    Ok(())
}

// Each class, and whether it contains the byte.
fn classes_of(byte: u8) -> [(&'static str, bool); 12] {
    [
        ("[:alnum:]", byte.is_ascii_alphanumeric()),
        ("[:alpha:]", byte.is_ascii_alphabetic()),
        ("[:blank:]", byte == b' ' || byte == b'\t'),
        ("[:cntrl:]", byte.is_ascii_control()),
        ("[:digit:]", byte.is_ascii_digit()),
        ("[:graph:]", byte.is_ascii_graphic()),
        ("[:lower:]", byte.is_ascii_lowercase()),
        ("[:print:]", byte.is_ascii_graphic() || byte == b' '),
        ("[:punct:]", byte.is_ascii_punctuation()),
        ("[:space:]", byte == b' ' || (9..=13).contains(&byte)),
        ("[:upper:]", byte.is_ascii_uppercase()),
        ("[:xdigit:]", byte.is_ascii_hexdigit()),
    ]
}

#[test]
fn classes_are_of_ascii(rt: HostRuntime) {
    for byte in u8::MIN..=u8::MAX {
        for (class, contains) in classes_of(byte) {
            let plan = CharPlan::read(Form::Delete, false, class.as_bytes(), None);
            let is_so = plan.is_ok_and(|plan| plan.deletes(byte) == contains);
            assert_for(&rt, &(class, byte), is_so);
        }
    }
}

// The first byte, the last byte and the shift of a stretch.
type Stretch = (u8, u8, u8);

// Two strings, and the stretches of their plan; `None` if there are more than four.
const STRETCHES: &[(&str, &str, Option<&[Stretch]>)] = &[
    ("a-z", "A-Z", Some(&[(97, 122, 224)])),
    (
        "abc",
        "x",
        Some(&[(97, 97, 23), (98, 98, 22), (99, 99, 21)]),
    ),
    (
        "a-zA-Z",
        "n-za-mN-ZA-M",
        Some(&[(65, 77, 13), (78, 90, 243), (97, 109, 13), (110, 122, 243)]),
    ),
    ("ab", "ab", Some(&[])),
    ("acegi", "12345", None),
];

// The plan has exactly these stretches.
fn check_stretches(rt: &impl Abort, s1: &str, plan: &CharPlan, wanted: Option<&[Stretch]>) {
    let shifts = plan.shifts();
    assert_for(rt, &s1, shifts.is_some() == wanted.is_some());
    if let (Some(shifts), Some(wanted)) = (shifts, wanted) {
        for index in 0..5 {
            assert_same_for(rt, &s1, &shifts.stretch(index), &wanted.get(index).copied());
        }
    }
}

#[test]
fn plans_lend_stretches_and_tables(rt: HostRuntime) -> Result<(), Fail> {
    for (s1, s2, wanted) in STRETCHES {
        let plan = CharPlan::read(Form::Translate, false, s1.as_bytes(), Some(s2.as_bytes()))?;
        check_stretches(&rt, s1, &plan, *wanted);
    }
    let plan = CharPlan::read(Form::TranslateSqueeze, false, b"ab", Some(b"x"))?;
    assert!(rt; plan.images()[97] == 120 && plan.images()[120] == 120);
    assert!(rt; plan.squeezed()[120] && !plan.squeezed()[97]);
    assert!(rt; !plan.deleted()[97]);
    elements_match_grammar();
    tables_match_plan();
    Ok(())
}
