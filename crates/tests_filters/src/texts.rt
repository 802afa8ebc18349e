//! Which texts are filters, and of which steps.
use Want::{And, Is, IsNot, Not};
use filter_texts::{Comparison, Step, read_choice};
use size_values::Or;
use std::alloc::{AllocError, Global};

/// A step that is wanted.
#[derive(Clone, Copy)]
enum Want {
    Is(&'static str, &'static str),
    IsNot(&'static str, &'static str),
    Not,
    And,
    Or,
}

/// Texts that are filters, each with its steps.
const READ: &[(&str, &[Want])] = &[
    ("name eq a", &[Is("name", "a")]),
    ("name ne a", &[IsNot("name", "a")]),
    ("  name   eq a  ", &[Is("name", "a")]),
    ("config.user.x eq 1", &[Is("config.user.x", "1")]),
    ("name eq \"a b\"", &[Is("name", "a b")]),
    ("name eq \"\"", &[Is("name", "")]),
    ("name eq\"a\"", &[Is("name", "a")]),
    ("name eq not", &[Is("name", "not")]),
    ("and eq or", &[Is("and", "or")]),
    ("eq eq eq", &[Is("eq", "eq")]),
    ("ne ne ne", &[IsNot("ne", "ne")]),
    ("NOT eq a", &[Is("NOT", "a")]),
    ("\u{e9} eq \"\u{e8} (\"", &[Is("\u{e9}", "\u{e8} (")]),
    ("not a eq b", &[Is("a", "b"), Not]),
    ("not not a eq b", &[Is("a", "b"), Not, Not]),
    ("(a eq b)", &[Is("a", "b")]),
    ("((a eq b))", &[Is("a", "b")]),
    ("not(a eq b)", &[Is("a", "b"), Not]),
    (
        "a eq b or c eq d and e eq f",
        &[Is("a", "b"), Is("c", "d"), Want::Or, Is("e", "f"), And],
    ),
    (
        "a eq b or (c eq d and e eq f)",
        &[Is("a", "b"), Is("c", "d"), Is("e", "f"), And, Want::Or],
    ),
    (
        "not a eq b and c eq d",
        &[Is("a", "b"), Not, Is("c", "d"), And],
    ),
    (
        "not (a eq b and c eq d) or not e eq f",
        &[
            Is("a", "b"),
            Is("c", "d"),
            And,
            Not,
            Is("e", "f"),
            Not,
            Want::Or,
        ],
    ),
    (
        "config.user.x ne 1 and not (name eq c)",
        &[IsNot("config.user.x", "1"), Is("name", "c"), Not, And],
    ),
];

/// Texts that are no filters, each with the place of its fault.
const FAULTY: &[(&str, u64)] = &[
    ("", 0),
    ("   ", 3),
    ("name", 4),
    ("name ", 5),
    ("name eq", 7),
    ("name eq  ", 9),
    ("name eq a b", 10),
    ("name eq a\"b\"", 9),
    ("name eq \"a", 8),
    ("\"name\" eq a", 0),
    ("NAME EQ a", 5),
    ("name = a", 5),
    ("name \"eq\" a", 5),
    ("name eq (a)", 8),
    ("name eq )", 8),
    (")", 0),
    ("()", 1),
    ("(name eq a", 10),
    ("name eq a)", 9),
    ("(name eq a))", 11),
    ("not", 3),
    ("not eq a", 7),
    ("and", 3),
    ("name eq a and", 13),
    ("name eq a and and", 17),
    ("name eq a AND b eq c", 10),
    ("name eq a and )", 14),
    ("name eq a not b eq c", 10),
    ("name eq a (b eq c)", 10),
    ("name eq a \"and\" b eq c", 10),
    ("name eq a \"", 10),
    ("name \"", 5),
    ("\"", 0),
    ("\t", 1),
    ("name\teq\ta", 9),
];

/// A text of so many fronts, a middle and as many backs, and the place of its fault, if it has one.
const NESTED: &[(&str, usize, &str, &str, Option<u64>)] = &[
    ("(", 64, "a eq b", ")", None),
    ("(", 65, "a eq b", ")", Some(64)),
    ("not ", 64, "a eq b", " ", None),
    ("not ", 65, "a eq b", " ", Some(256)),
    ("not(", 32, "a eq b", ")", None),
    ("not(", 32, "not a eq b", ")", Some(128)),
    // a factor gives its depth back
    (
        "not(",
        31,
        "not not a eq b and not not c eq d or ((e eq f))",
        ")",
        None,
    ),
    ("not a eq b and ", 100, "c eq d", "", None),
    // 4,096 bytes, and more
    ("", 4090, "a eq b", " ", None),
    ("", 4091, "a eq b", " ", Some(4096)),
    ("", 4096, ")", " ", Some(4096)),
];

#[test]
fn each_filter_is_read(rt: HostRuntime) {
    for (text, wants) in READ {
        assert!(rt; is_read_as(rt.alloc(), text, wants), "{text}");
    }
}

#[test]
fn any_other_text_has_its_fault(rt: HostRuntime) {
    for (text, place) in FAULTY {
        assert!(rt; has_fault(rt.alloc(), text, Some(*place)), "{text}");
    }
}

#[test]
fn nesting_and_bytes_have_their_ends(rt: HostRuntime) {
    for (front, times, middle, back, place) in NESTED {
        let has = nested_has_fault(rt.alloc(), front, *times, middle, back, *place);
        assert!(rt; has, "{front} {times} {middle}");
    }
}

fn is_read_as(alloc: Global, text: &str, wants: &[Want]) -> bool {
    match read_choice(alloc, text) {
        Ok(choice) => are_wanted(choice.steps(), wants),
        Err(_) => false,
    }
}

fn are_wanted(steps: &[Step], wants: &[Want]) -> bool {
    if steps.len() != wants.len() {
        return false;
    }
    for (step, want) in steps.iter().zip(wants) {
        if !is_wanted(step, *want) {
            return false;
        }
    }
    true
}

fn is_wanted(step: &Step, want: Want) -> bool {
    match step {
        Step::Test(test) => match test.comparison {
            Comparison::Equal => is_test(want, true, test.field.view(), test.value.view()),
            Comparison::Unequal => is_test(want, false, test.field.view(), test.value.view()),
        },
        Step::Not => matches!(want, Want::Not),
        Step::And => matches!(want, Want::And),
        Step::Or => matches!(want, Want::Or),
    }
}

fn is_test(want: Want, equal: bool, field: &str, value: &str) -> bool {
    match want {
        Want::Is(wanted, other) => equal && wanted == field && other == value,
        Want::IsNot(wanted, other) => !equal && wanted == field && other == value,
        _ => false,
    }
}

fn nested_has_fault(
    alloc: Global,
    front: &str,
    times: usize,
    middle: &str,
    back: &str,
    place: Option<u64>,
) -> bool {
    match nested(alloc, front, times, middle, back) {
        Ok(text) => has_fault(alloc, text.as_str(), place),
        Err(_) => false,
    }
}

fn nested(
    alloc: Global,
    front: &str,
    times: usize,
    middle: &str,
    back: &str,
) -> Result<String, AllocError> {
    let mut text = String::new(alloc);
    push_times(&mut text, front, times)?;
    text.push_str(middle)?;
    push_times(&mut text, back, times)?;
    Ok(text)
}

fn push_times(text: &mut String, part: &str, times: usize) -> Result<(), AllocError> {
    for _ in 0..times {
        text.push_str(part)?;
    }
    Ok(())
}

/// Whether the text has its fault at the place, or none where no place is given.
fn has_fault(alloc: Global, text: &str, place: Option<u64>) -> bool {
    match read_choice(alloc, text) {
        Ok(_) => place.is_none(),
        Err(Or::Why(fault)) => place == Some(fault.place),
        Err(Or::NoMemory) => false,
    }
}
