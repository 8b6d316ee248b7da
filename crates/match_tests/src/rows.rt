//! What the tests share: a plan of matchers, mails, and what a matcher answers.
ghost use Rattle.mj_plan.specs.Sound.{IsSound};
ghost use Rattle.std.specs.Prelude.{IfOk};

use crate::matchers::matcher_at;
use mj_config::read_plan;
use mj_mail::Mail;
use mj_mailfile::read_mail_file;
use mj_match::{Mask, MatchError, evaluate};
use mj_plan::Plan;
use std::alloc::Global;
use std::process::Abort;
use std::test::Fail;

/// What stands in front of the steps: hosts, users, and the processor of the steps.
const FRONT: &str =
    "[spool]\nhost_name = \"mx.example.org\"\npostmaster = \"postmaster@example.org\"\nlocal_hosts = [\"a\", \"b\", \"c\", \"d\", \"e\", \"f\", \"g\", \"Example.org\", \"EXAMPLE.org\", \"example.com\"]\nlocal_users = [\"ann\", \"bob\", \"ANN\"]\nstart = \"2024-01-01T00:00:00Z\"\n[[processor]]\nname = \"root\"\n";

/// What stands behind the steps.
const BACK: &str = "[[processor]]\nname = \"error\"\n";

/// What a row wants, and the matcher as a configuration spells it.
fn parts(row: &str) -> (&str, &str) {
    match row.split_once(' ') {
        Some(parts) => parts,
        None => (row, ""),
    }
}

/// The configuration with a step for each row.
fn configuration(alloc: Global, rows: &str) -> Result<Vec<u8>, Fail> {
    let mut text = Vec::from_slice(alloc, FRONT.as_bytes())?;
    for row in rows.lines() {
        text.extend_from_slice(b"[[processor.step]]\nmatch = ")?;
        text.extend_from_slice(parts(row).1.as_bytes())?;
        text.extend_from_slice(b"\nclass = \"Null\"\n")?;
    }
    text.extend_from_slice(BACK.as_bytes())?;
    Ok(text)
}

/// The plan with a step for each row.
pub(crate) fn plan_of(alloc: Global, rows: &str) -> Result<Plan, Fail>
    ensures { IfOk result IsSound }
{
    let text = configuration(alloc, rows)?;
    match read_plan(alloc, &text) {
        Ok(plan) => Ok(plan),
        Err(fault) => Err(Fail::from(fault)),
    }
}

/// The mail of a mail file, as it is accepted, with these attributes.
pub(crate) fn mail_of(
    alloc: Global,
    text: &str,
    attributes: &[(&str, &str)],
) -> Result<Mail, Fail> {
    let mut mail = accepted(alloc, text)?;
    for (name, value) in attributes {
        mail.attributes
            .set(alloc, name.as_bytes(), value.as_bytes())?;
    }
    Ok(mail)
}

fn accepted(alloc: Global, text: &str) -> Result<Mail, Fail> {
    match read_mail_file(alloc, text.as_bytes()) {
        Ok(new) => Ok(new.first(alloc, 0, 1)?),
        Err(fault) => Err(Fail::from(fault)),
    }
}

/// Whether the truths are these digits.
fn are_digits(mask: &Mask, digits: &[u8]) -> bool {
    mask.at(digits.len()).is_none()
        && digits
            .iter()
            .enumerate()
            .all(|(k, digit)| mask.at(k) == Some(*digit == b'1'))
}

/// Whether the answer is as wanted: a digit for each recipient, 1 where the matcher takes it, or `!` and the number of the
/// condition that fails.
fn is_wanted(answer: &Result<Mask, MatchError>, want: &str) -> bool {
    match answer {
        Ok(mask) => are_digits(mask, want.as_bytes()),
        Err(MatchError::Failed { condition: 1 }) => want == "!1",
        Err(MatchError::Failed { condition: 2 }) => want == "!2",
        Err(MatchError::Failed { condition: 3 }) => want == "!3",
        Err(_) => false,
    }
}

/// Whether the matcher of the step at the place k answers as wanted.
fn answers(alloc: Global, plan: &Plan, k: usize, mail: &Mail, want: &str) -> bool
    requires { IsSound plan.now }
{
    match matcher_at(plan, k) {
        Some(matcher) => is_wanted(&evaluate(alloc, matcher, plan, mail), want),
        None => false,
    }
}

/// Fails where it isn't so. The case is what is looked at.
fn assert_so(rt: &impl Abort, is_so: bool, case: &str) {
    assert!(rt; is_so, "at {case:?}");
}

/// Fails at the first row, a line each, whose matcher doesn't answer as wanted.
pub(crate) fn check_rows(
    rt: &(impl Abort + AllocGlobal),
    mail: &Mail,
    rows: &str,
) -> Result<(), Fail> {
    let plan = plan_of(rt.alloc(), rows)?;
    for (k, row) in rows.lines().enumerate() {
        assert_so(rt, answers(rt.alloc(), &plan, k, mail, parts(row).0), row);
    }
    Ok(())
}
