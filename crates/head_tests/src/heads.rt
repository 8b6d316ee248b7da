//! Heads from outside of the crate: whole messages, and short hostile texts.
ghost use Rattle.std.specs.Prelude.{◌≡◌, IfOk};
ghost use Rattle.mj_head.specs.Head.{written};

use crate::texts::{assert_so, stretched};
use mj_head::{Fields, Head, HeadFault, is_field_name, is_field_value, read_head, write_head};
use std::alloc::{AllocError, Global};
use std::process::Abort;
use std::test::Fail;

const MESSAGE: &str =
    "Received: from a.test by mx.example.org; Mon, 01 Jan 2024 00:00:00 +0000\r\nFrom: Cara <cara@example.net>\r\nTo: Ann <ann@example.org>,\r\n dan@example.net\r\nSubject: =?UTF-8?Q?Gr=C3=BC=C3=9Fe?=\r\nMessage-ID: <1@example.net>\r\nMIME-Version: 1.0\r\nContent-Type: text/plain; charset=utf-8\r\n\r\nhello\r\n";

fn head_of(alloc: Global, bytes: &[u8]) -> Result<Head, HeadFault> {
    let (head, _place) = read_head(alloc, bytes)?;
    Ok(head)
}

fn place_of(alloc: Global, bytes: &[u8]) -> Result<usize, HeadFault> {
    let (_head, place) = read_head(alloc, bytes)?;
    Ok(place)
}

/// A text, and where its body begins.
const TAKEN: [(&str, usize); 12] = [
    ("", 0),
    ("\n", 1),
    ("\r\n", 2),
    ("\r\na: b\r\n", 2),
    ("Subject: one", 12),
    ("Subject: one\n\nhello\r\n", 14),
    ("Subject: one\r\n\r\nhello\r\n", 16),
    ("a: b\r\r\n\r\nc", 9),
    ("a: b\rc\r\n\r\n", 10),
    ("a \t : b\r\n", 9),
    ("a:\r\n \r\n\r\nb", 9),
    (MESSAGE, 280),
];

/// Texts whose first line goes on with none.
const CONTINUATION_FIRST: [&str; 2] = [" a: b\r\n", "\t\r\n"];

/// Texts, and which line has no colon.
const NO_COLON: [(&str, u32); 2] = [("\r", 1), ("a: b\r\nc: d\r\nnone\r\n: x", 3)];

/// Texts, and which line has a bad name.
const BAD_NAME: [(&str, u32); 3] = [
    (": x\r\n", 1),
    ("a b: c\r\n", 1),
    ("a: b\n c\n\0: d\nnone\n", 3),
];

fn assert_place(rt: &(impl Abort + AllocGlobal), text: &str, want: Result<usize, HeadFault>) {
    assert_so(rt, place_of(rt.alloc(), text.as_bytes()) == want, text);
}

#[test]
fn finds_the_body_and_the_first_fault(rt: HostRuntime) {
    for (text, place) in TAKEN {
        assert_place(&rt, text, Ok(place));
    }
    for text in CONTINUATION_FIRST {
        assert_place(&rt, text, Err(HeadFault::ContinuationFirst { line: 1 }));
    }
    for (text, line) in NO_COLON {
        assert_place(&rt, text, Err(HeadFault::NoColon { line }));
    }
    for (text, line) in BAD_NAME {
        assert_place(&rt, text, Err(HeadFault::BadName { line }));
    }
    assert_so(&rt, MESSAGE.len() == 287, "the message");
}

/// Where the body begins behind a field with so many letters and this behind them.
fn place_behind(
    alloc: Global,
    count: usize,
    back: &str,
) -> Result<Result<usize, HeadFault>, AllocError> {
    let mut text = stretched(alloc, b"a:", b'x', count)?;
    text.extend_from_slice(back.as_bytes())?;
    Ok(place_of(alloc, &text))
}

#[test]
fn limits_the_written_form(rt: HostRuntime) -> Result<(), Fail> {
    let alloc = rt.alloc();
    let too_long = |line| Err(HeadFault::TooLong { line });
    assert_so(
        &rt,
        place_behind(alloc, 65_532, "")? == Ok(65_534),
        "one line",
    );
    assert_so(
        &rt,
        place_behind(alloc, 65_533, "")? == too_long(1),
        "one more",
    );
    assert_so(
        &rt,
        place_behind(alloc, 65_528, "\n x")? == Ok(65_533),
        "two lines",
    );
    assert_so(
        &rt,
        place_behind(alloc, 65_528, "\n xx")? == too_long(2),
        "one more",
    );
    Ok(())
}

/// Whether the first field of this name unfolds to this.
fn unfolds(alloc: Global, head: &Head, name: &[u8], want: &[u8]) -> Result<bool, AllocError> {
    match head.unfolded(alloc, name)? {
        Some(value) => Ok(value.as_slice() == want),
        None => Ok(false),
    }
}

fn check_unfolding(rt: &(impl Abort + AllocGlobal), head: &Head) -> Result<(), AllocError> {
    assert_so(
        rt,
        unfolds(rt.alloc(), head, b"SUBJECT", b"a\tb")?,
        "Subject",
    );
    assert_so(rt, head.unfolded(rt.alloc(), b"To")?.is_none(), "To");
    assert_so(rt, head.count(b"X") == 2, "X");
    Ok(())
}

#[test]
fn unfolds_fields(rt: HostRuntime) -> Result<(), Fail> {
    let head = head_of(rt.alloc(), b"Subject: a\r\n\tb\r\nX: 1\r\nx: 2\r\n\r\n")?;
    check_unfolding(&rt, &head)?;
    Ok(())
}

/// Whether the head is written so.
fn is_written_as(alloc: Global, head: &Head, want: &[u8]) -> Result<bool, AllocError> {
    Ok(write_head(alloc, head)?.as_slice() == want)
}

/// Whether the first field was replaced.
fn replaces(head: &mut Head, name: &[u8], value: &[u8]) -> Result<bool, AllocError> {
    if is_field_name(name) && is_field_value(value) {
        head.replace_first(name, value)
    } else {
        Ok(false)
    }
}

#[test]
fn replaces_and_writes(rt: HostRuntime) -> Result<(), Fail> {
    let mut head = head_of(rt.alloc(), b"A: 1\nSubject: one\n two\nB: 2\n\nhello\n")?;
    assert_so(&rt, replaces(&mut head, b"subject", b"[x] one")?, "Subject");
    let want = b"A: 1\r\nSubject: [x] one\r\nB: 2\r\n";
    assert_so(
        &rt,
        is_written_as(rt.alloc(), &head, want)?,
        "the written form",
    );
    Ok(())
}

/// Whether the field at this place has this name and this body.
fn is_at(head: &Head, place: usize, name: &[u8], body: &[u8]) -> bool {
    match head.get(place) {
        Some(field) => field.name() == name && field.body() == body,
        None => false,
    }
}

#[test]
fn takes_out_fields(rt: HostRuntime) -> Result<(), Fail> {
    let mut head = head_of(rt.alloc(), b"X : 1\n 2\nA: 3\r\nx: 4\r\nB:5\r\n\r\n")?;
    assert_so(&rt, is_at(&head, 0, b"X", b" 1\r\n 2"), "X");
    head.remove(b"x")?;
    assert_so(&rt, head.get(2).is_none(), "no third");
    assert_so(
        &rt,
        is_written_as(rt.alloc(), &head, b"A: 3\r\nB:5\r\n")?,
        "the rest",
    );
    Ok(())
}

#[test]
fn adds_raw_fields(rt: HostRuntime) -> Result<(), Fail> {
    let mut head = Head::new(rt.alloc());
    assert_so(&rt, head.add_raw(b"Y", b" a\r\n b")?, "a folded body");
    assert_so(&rt, !head.add_raw(b"Y", b" a\n b")?, "a bare LF");
    Ok(())
}

#[test]
fn copies_stay(rt: HostRuntime) -> Result<(), Fail> {
    let mut head = head_of(rt.alloc(), b"A: 1\r\nB: 2\r\n\r\n")?;
    let copy = head.copy()?;
    head.remove(b"A")?;
    assert_so(&rt, appends(&mut head, b"C", b"3")?, "a field more");
    assert_so(
        &rt,
        is_written_as(rt.alloc(), &head, b"B: 2\r\nC: 3\r\n")?,
        "the head",
    );
    assert_so(
        &rt,
        is_written_as(rt.alloc(), &copy, b"A: 1\r\nB: 2\r\n")?,
        "its copy",
    );
    Ok(())
}

/// Whether the field was added.
fn appends(head: &mut Head, name: &[u8], value: &[u8]) -> Result<bool, AllocError> {
    if is_field_name(name) && is_field_value(value) {
        head.append(name, value)
    } else {
        Ok(false)
    }
}

/// Whether a field with so many letters was added.
fn appends_letters(
    alloc: Global,
    head: &mut Head,
    name: &[u8],
    count: usize,
) -> Result<bool, AllocError> {
    let value = stretched(alloc, b"", b'x', count)?;
    appends(head, name, &value)
}

#[test]
fn appends_what_fits(rt: HostRuntime) -> Result<(), Fail> {
    let rows = [
        ("A", 65_525, (true, 65_530)),
        ("X-Longer", 0, (false, 65_530)),
        ("X", 0, (true, 65_535)),
    ];
    let mut head = Head::new(rt.alloc());
    for (name, count, want) in rows {
        let added = appends_letters(rt.alloc(), &mut head, name.as_bytes(), count)?;
        assert_so(&rt, (added, head.written_len()) == want, name);
    }
    Ok(())
}

/// The written form of a head, field by field.
fn written_by_fields(alloc: Global, head: &Head) -> Result<Vec<u8>, AllocError>
    ensures { IfOk result (λ text. text.items ≡ written head.now) }
{
    let mut text = Vec::new(alloc);
    for field in head.fields() {
        text.extend_from_slice(field.name())?;
        text.extend_from_slice(b":")?;
        text.extend_from_slice(field.body())?;
        text.extend_from_slice(b"\r\n")?;
    }
    Ok(text)
}

#[test]
fn writes_the_fields(rt: HostRuntime) -> Result<(), Fail> {
    let head = head_of(rt.alloc(), MESSAGE.as_bytes())?;
    let text = written_by_fields(rt.alloc(), &head)?;
    assert_so(
        &rt,
        MESSAGE.as_bytes().starts_with(text.as_slice()),
        "the message",
    );
    assert_so(&rt, text.len() == 278, "its length");
    Ok(())
}

/// Whether the next field has this name, which is this one in another case, and this body.
fn is_next(fields: &mut Fields, name: &[u8], other: &[u8], body: &[u8]) -> bool {
    match fields.next() {
        Some(field) => field.name() == name && field.is_named(other) && field.body() == body,
        None => false,
    }
}

fn check_fields(rt: &impl Abort, head: &Head) {
    assert_so(rt, head.fields().count() == 7, "seven fields");
    let mut fields = head.fields();
    let received = b" from a.test by mx.example.org; Mon, 01 Jan 2024 00:00:00 +0000";
    assert_so(
        rt,
        is_next(&mut fields, b"Received", b"received", received),
        "Received",
    );
    assert_so(
        rt,
        is_next(&mut fields, b"From", b"FROM", b" Cara <cara@example.net>"),
        "From",
    );
}

#[test]
fn gives_the_fields_in_order(rt: HostRuntime) -> Result<(), Fail> {
    check_fields(&rt, &head_of(rt.alloc(), MESSAGE.as_bytes())?);
    assert_so(
        &rt,
        Head::new(rt.alloc()).fields().next().is_none(),
        "no fields",
    );
    Ok(())
}

/// So many fields of a name alone.
fn many(alloc: Global) -> Result<Vec<u8>, AllocError> {
    let mut text = Vec::new(alloc);
    for _ in 0..16_384 {
        text.extend_from_slice(b"a:\r\n")?;
    }
    Ok(text)
}

/// Whether the head of the text has so many fields, and is written as the text.
fn is_read_back(alloc: Global, text: &[u8], count: usize) -> Result<bool, Fail> {
    let head = head_of(alloc, text)?;
    let again = written_by_fields(alloc, &head)?;
    Ok(again.as_slice() == text && head.fields().count() == count)
}

#[test]
fn gives_many_fields(rt: HostRuntime) -> Result<(), Fail> {
    let text = many(rt.alloc())?;
    assert_so(&rt, is_read_back(rt.alloc(), &text, 16_384)?, "many fields");
    Ok(())
}
