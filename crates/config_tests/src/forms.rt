//! Forms of texts at their limits.
use crate::texts::assert_so;
use mj_plan::{
    is_attribute_name, is_attribute_value, is_line, is_processor_name, is_reply_code, is_repository,
};
use std::alloc::Global;
use std::test::Fail;

/// A text of so many letters.
fn of_length(alloc: Global, count: usize) -> Result<Vec<u8>, Fail> {
    let mut text = Vec::new(alloc);
    for _ in 0..count {
        text.push(b'x')?;
    }
    Ok(text)
}

/// Which of the forms a text has: those of names of processors, lines, names and values of attributes, repositories and
/// reply codes.
fn forms_of(text: &[u8]) -> [bool; 6] {
    [
        is_processor_name(text),
        is_line(text),
        is_attribute_name(text),
        is_attribute_value(text),
        is_repository(text),
        is_reply_code(text),
    ]
}

/// The forms that a text of so many letters has.
fn forms_of_length(alloc: Global, count: usize) -> Result<[bool; 6], Fail> {
    Ok(forms_of(&of_length(alloc, count)?))
}

const TEXTS: [(&str, [bool; 6]); 11] = [
    ("", [false, false, false, true, false, false]),
    ("root", [true, true, true, true, true, false]),
    ("a-b_c.d", [true, true, true, true, true, false]),
    ("a b", [false, true, false, true, false, false]),
    ("a,b", [false, true, false, true, true, false]),
    ("a;b", [false, true, false, true, true, false]),
    ("file://var/mail", [false, true, true, true, true, false]),
    ("550", [true, true, true, true, true, true]),
    ("5501", [true, true, true, true, true, false]),
    ("a\tb", [false, false, false, false, false, false]),
    ("gr\u{fc}n", [false, false, false, false, false, false]),
];

#[test]
fn forms_of_texts(rt: HostRuntime) {
    for (text, want) in TEXTS {
        assert_so(&rt, forms_of(text.as_bytes()) == want, text);
    }
}

const LENGTHS: [(&str, usize, [bool; 6]); 8] = [
    ("64 letters", 64, [true, true, true, true, true, false]),
    ("65 letters", 65, [false, true, true, true, true, false]),
    ("255 letters", 255, [false, true, true, true, true, false]),
    ("256 letters", 256, [false, true, false, true, false, false]),
    ("512 letters", 512, [false, true, false, true, false, false]),
    (
        "513 letters",
        513,
        [false, false, false, true, false, false],
    ),
    (
        "4,096 letters",
        4_096,
        [false, false, false, true, false, false],
    ),
    (
        "4,097 letters",
        4_097,
        [false, false, false, false, false, false],
    ),
];

#[test]
fn lengths_of_texts(rt: HostRuntime) -> Result<(), Fail> {
    for (case, count, want) in LENGTHS {
        assert_so(&rt, forms_of_length(rt.alloc(), count)? == want, case);
    }
    Ok(())
}
