//! Files of answers with one fault at each place, and pairs of faults whose order decides.
use crate::texts::{assert_so, fault_in, joined};
use mj_answers::{AnswersFault, AnswersKind};
use std::alloc::Global;
use std::process::Abort;
use std::test::Fail;

/// The fault of this kind in this row, where there is one.
fn fault_at(at: Option<(AnswersKind, u32)>) -> Option<AnswersFault> {
    let (kind, row) = at?;
    Some(AnswersFault::Refused { kind, row })
}

/// Files that are taken.
const FILES_TAKEN: [&str; 5] = [
    "",
    "# no rows\n",
    "[other]\n",
    "answer = []",
    "answer = [{reply = \"250\"}, {reply = \"550\"}]",
];

/// Files that are refused, by their fault.
const FILES_NOT_TOML: [&str; 2] = ["answer", "answer = ["];

const FILES_WRONG_TYPE: [&str; 5] = [
    "answer = 5",
    "answer = [1, 2]",
    "answer = [[]]",
    "answer = [{}, 5]",
    "[answer]\nreply = \"250\"",
];

const FIRST_OF_TWO: [&str; 1] = ["[[answer]]\nreply = \"25\"\n[[answer]]"];

const SECOND_OF_TWO: [&str; 1] = ["[[answer]]\nreply = \"250\"\n[[answer]]"];

const FILES: [(&[&str], Option<(AnswersKind, u32)>); 5] = [
    (&FILES_TAKEN, None),
    (&FILES_NOT_TOML, Some((AnswersKind::NotToml, 0))),
    (&FILES_WRONG_TYPE, Some((AnswersKind::WrongType, 0))),
    (&FIRST_OF_TWO, Some((AnswersKind::BadReply, 1))),
    (&SECOND_OF_TWO, Some((AnswersKind::WrongType, 2))),
];

/// Fails where one of these files has another fault.
fn assert_files(rt: &(impl Abort + AllocGlobal), files: &[&str], want: Option<AnswersFault>) {
    for text in files {
        assert_so(rt, fault_in(rt.alloc(), text.as_bytes()) == want, text);
    }
}

#[test]
fn files(rt: HostRuntime) -> Result<(), Fail> {
    for (files, at) in FILES {
        assert_files(&rt, files, fault_at(at));
    }
    Ok(())
}

/// The front of the first row, and of the third one.
const FIRST: &str = "[[answer]]\n";

const THIRD: &str = "[[answer]]\nreply = \"250\"\n[[answer]]\nreply = \"550 no\"\n[[answer]]\n";

/// Rows that are taken.
const TAKEN: [&str; 11] = [
    "reply = \"250\"\nother = 5",
    "reply = \"200\"",
    "reply = \"250\"",
    "reply = \"250 \"",
    "reply = \"299 x\"",
    "reply = \"400\"",
    "reply = \"599 ~\"",
    "reply = \"250\"\nhost = \"B.test\"",
    "reply = \"250\"\nrecipient = \"ann@B.test\"",
    "reply = \"250\"\nattempt = 1",
    "reply = \"250\"\nattempt = 1000",
];

/// Rows that are refused, by their fault. The order of the keys decides, and not that of the lines.
const WRONG_TYPE: [&str; 14] = [
    "",
    "host = \"b.test\"\nrecipient = \"ann@b.test\"\nattempt = 1",
    "reply = 250",
    "reply = [\"250\"]",
    "reply = \"250\"\nhost = 5",
    "reply = \"250\"\nrecipient = 5",
    "reply = \"250\"\nattempt = 0",
    "reply = \"250\"\nattempt = 1001",
    "reply = \"250\"\nattempt = -1",
    "reply = \"250\"\nattempt = 1.0",
    "reply = \"250\"\nattempt = \"1\"",
    "reply = \"25\"\nattempt = 0\nrecipient = \"ann\"\nhost = 5",
    "reply = \"25\"\nattempt = 0\nrecipient = 5",
    "reply = \"25\"\nattempt = 0",
];

const BAD_HOST: [&str; 4] = [
    "reply = \"250\"\nhost = \"\"",
    "reply = \"250\"\nhost = \"-\"",
    "reply = \"25\"\nattempt = 0\nrecipient = \"ann\"\nhost = \"-\"",
    "host = \"-\"",
];

const BAD_ADDRESS: [&str; 4] = [
    "reply = \"250\"\nrecipient = \"ann\"",
    "reply = \"250\"\nrecipient = \"ann@-\"",
    "reply = \"25\"\nattempt = 0\nrecipient = \"ann\"",
    "recipient = \"ann\"",
];

const BAD_REPLY: [&str; 12] = [
    "reply = \"\"",
    "reply = \"25\"",
    "reply = \"2500\"",
    "reply = \"25x\"",
    "reply = \" 250\"",
    "reply = \"250-x\"",
    "reply = \"250 a\\tb\"",
    "reply = \"250 \\u007f\"",
    "reply = \"250 \\u00e4\"",
    "reply = \"199\"",
    "reply = \"354 go\"",
    "reply = \"600\"",
];

const GROUPS: [(&[&str], Option<AnswersKind>); 5] = [
    (&TAKEN, None),
    (&WRONG_TYPE, Some(AnswersKind::WrongType)),
    (&BAD_HOST, Some(AnswersKind::BadHost)),
    (&BAD_ADDRESS, Some(AnswersKind::BadAddress)),
    (&BAD_REPLY, Some(AnswersKind::BadReply)),
];

/// The fault of a file that ends with this row.
fn fault_of(alloc: Global, front: &str, row: &str) -> Result<Option<AnswersFault>, Fail> {
    Ok(fault_in(alloc, &joined(alloc, &[front, row])?))
}

/// Fails where one of these rows has another fault, as the first row of a file and as the third one.
fn assert_rows(
    rt: &(impl Abort + AllocGlobal),
    rows: &[&str],
    kind: Option<AnswersKind>,
) -> Result<(), Fail> {
    for row in rows {
        assert_so(
            rt,
            fault_of(rt.alloc(), FIRST, row)? == in_row(kind, 1),
            row,
        );
        assert_so(
            rt,
            fault_of(rt.alloc(), THIRD, row)? == in_row(kind, 3),
            row,
        );
    }
    Ok(())
}

/// The fault of this kind in this row, where there is one.
fn in_row(kind: Option<AnswersKind>, row: u32) -> Option<AnswersFault> {
    Some(AnswersFault::Refused { kind: kind?, row })
}

#[test]
fn rows(rt: HostRuntime) -> Result<(), Fail> {
    for (rows, kind) in GROUPS {
        assert_rows(&rt, rows, kind)?;
    }
    Ok(())
}

/// A front, a part, how many times it stands, and a back.
type Repeated = (&'static str, &'static str, usize, &'static str);

/// The front of a row up to the text of its reply, and of an array of rows.
const REPLY: &str = "[[answer]]\nreply = \"250 ";

const ITEMS: &str = "answer = [";

/// Files at their limits and past them, and their fault.
const LIMITS: [(Repeated, Option<(AnswersKind, u32)>); 7] = [
    ((REPLY, "x", 512, "\""), None),
    ((REPLY, "x", 513, "\""), Some((AnswersKind::BadReply, 1))),
    ((ITEMS, "{reply=\"250\"},", 10_000, "]"), None),
    (
        (ITEMS, "5,", 10_000, "]"),
        Some((AnswersKind::WrongType, 0)),
    ),
    ((ITEMS, "5,", 10_001, "]"), Some((AnswersKind::TooMany, 0))),
    (("", "\n", 1_048_576, ""), None),
    (("", "\n", 1_048_577, ""), Some((AnswersKind::TooLarge, 0))),
];

fn repeated(alloc: Global, (front, part, count, back): Repeated) -> Result<Vec<u8>, Fail> {
    let mut text = joined(alloc, &[front])?;
    for _ in 0..count {
        text.extend_from_slice(part.as_bytes())?;
    }
    text.extend_from_slice(back.as_bytes())?;
    Ok(text)
}

#[test]
fn limits(rt: HostRuntime) -> Result<(), Fail> {
    for (file, at) in LIMITS {
        let text = repeated(rt.alloc(), file)?;
        assert_so(&rt, fault_in(rt.alloc(), &text) == fault_at(at), file.1);
    }
    Ok(())
}
