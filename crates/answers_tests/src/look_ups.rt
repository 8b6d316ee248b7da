//! Look-ups in a table.
use crate::texts::{assert_so, joined};
use mj_address::{Address, Domain};
use mj_answers::Answers;
use std::alloc::Global;
use std::process::Abort;
use std::test::Fail;

/// Rows of each shape that has a key, each of which says its number.
const ROWS: &str = "
[[answer]]
host = \"A.test\"
recipient = \"Ann@b.test\"
attempt = 2
reply = \"450 1\"
[[answer]]
host = \"a.test\"
recipient = \"ann@b.test\"
reply = \"450 2\"
[[answer]]
host = \"a.test\"
attempt = 3
reply = \"450 3\"
[[answer]]
recipient = \"ann@b.test\"
attempt = 4
reply = \"450 4\"
[[answer]]
host = \"a.test\"
reply = \"450 5\"
[[answer]]
recipient = \"bob@b.test\"
reply = \"450 6\"
[[answer]]
attempt = 5
reply = \"450 7\"
[[answer]]
host = \"a.test\"
recipient = \"ann@b.test\"
attempt = 2
reply = \"450 never\"
";

/// A row without any key.
const FOR_ALL: &str = "[[answer]]\nreply = \"550 all\"\n";

/// What a host is asked: for a recipient, at an attempt.
type Question = (&'static str, &'static str, u32);

/// Questions by the row that answers them.
const BY_FIRST: [Question; 2] = [("a.test", "ann@b.test", 2), ("a.TEST", "ANN@B.test", 2)];

const BY_SECOND: [Question; 3] = [
    ("a.test", "ann@b.test", 1),
    ("a.test", "ann@b.test", 3),
    ("a.test", "ann@b.test", 4),
];

const BY_THIRD: [Question; 2] = [("a.test", "cid@b.test", 3), ("A.Test", "bob@b.test", 3)];

const BY_FOURTH: [Question; 2] = [("c.test", "ann@b.test", 4), ("c.test", "aNN@b.tesT", 4)];

const BY_FIFTH: [Question; 2] = [("a.test", "cid@b.test", 4), ("a.test", "bob@b.test", 1)];

const BY_SIXTH: [Question; 2] = [("c.test", "BOB@b.test", 1), ("c.test", "bob@b.test", 5)];

const BY_SEVENTH: [Question; 1] = [("c.test", "ann@b.test", 5)];

/// Questions that no row with a key answers.
const BY_NONE: [Question; 3] = [
    ("c.test", "ann@b.test", 2),
    ("c.test", "cid@b.test", 6),
    ("a.test.c", "bob@b.test.c", 1),
];

const ASKED: [(&[Question], &str); 7] = [
    (&BY_FIRST, "1"),
    (&BY_SECOND, "2"),
    (&BY_THIRD, "3"),
    (&BY_FOURTH, "4"),
    (&BY_FIFTH, "5"),
    (&BY_SIXTH, "6"),
    (&BY_SEVENTH, "7"),
];

/// Whether the host's reply has this text.
fn says(
    alloc: Global,
    answers: &Answers,
    &(host, recipient, attempt): &Question,
    want: &str,
) -> Result<bool, Fail> {
    let host = Domain::read(alloc, host.as_bytes())?;
    let recipient = Address::read(alloc, recipient.as_bytes())?;
    let reply = answers.reply_for(&host, &recipient, attempt);
    Ok(reply.text.as_slice() == want.as_bytes())
}

/// The table of a file of these parts.
fn table(alloc: Global, parts: &[&str]) -> Result<Answers, Fail> {
    let text = joined(alloc, parts)?;
    match Answers::read(alloc, &text) {
        Ok(answers) => Ok(answers),
        Err(fault) => Err(Fail::from(fault)),
    }
}

/// Fails where one of these questions has another answer.
fn assert_answer(
    rt: &(impl Abort + AllocGlobal),
    answers: &Answers,
    questions: &[Question],
    want: &str,
) -> Result<(), Fail> {
    for question in questions {
        assert_so(rt, says(rt.alloc(), answers, question, want)?, question.1);
    }
    Ok(())
}

/// Fails where another row answers a question, or where those that no row answers have another answer than this.
fn assert_rows(
    rt: &(impl Abort + AllocGlobal),
    answers: &Answers,
    otherwise: &str,
) -> Result<(), Fail> {
    for (questions, want) in ASKED {
        assert_answer(rt, answers, questions, want)?;
    }
    assert_answer(rt, answers, &BY_NONE, otherwise)
}

#[test]
fn first_that_fits(rt: HostRuntime) -> Result<(), Fail> {
    assert_rows(&rt, &table(rt.alloc(), &[ROWS])?, "OK")
}

#[test]
fn row_for_all_last(rt: HostRuntime) -> Result<(), Fail> {
    assert_rows(&rt, &table(rt.alloc(), &[ROWS, FOR_ALL])?, "all")
}

#[test]
fn row_for_all_first(rt: HostRuntime) -> Result<(), Fail> {
    let answers = table(rt.alloc(), &[FOR_ALL, ROWS])?;
    assert_answer(&rt, &answers, &BY_FIRST, "all")?;
    assert_answer(&rt, &answers, &BY_NONE, "all")
}

#[test]
fn no_rows(rt: HostRuntime) -> Result<(), Fail> {
    let answers = Answers::empty(rt.alloc())?;
    assert_so(&rt, answers.is_empty() && answers.len() == 0, "empty");
    assert_answer(&rt, &answers, &BY_SECOND, "OK")
}

#[test]
fn rows_in_order(rt: HostRuntime) -> Result<(), Fail> {
    let answers = table(rt.alloc(), &[ROWS])?;
    let attempts = answers
        .as_slice()
        .iter()
        .filter(|row| row.attempt.is_some())
        .count();
    assert_so(
        &rt,
        answers.len() == 8 && !answers.is_empty() && attempts == 5,
        "rows",
    );
    Ok(())
}
