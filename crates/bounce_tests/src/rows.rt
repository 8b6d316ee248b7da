//! What the tests share: a plan, mails, and notices as texts.
ghost use Rattle.std.specs.Prelude.{◌<◌, ◌^◌, length, IfOk};

use mj_address::Address;
use mj_config::read_plan;
use mj_fields::Bytes;
use mj_mail::{Body, Failure, Mail, NewMail, Stage};
use mj_mailfile::read_mail_file;
use mj_plan::Plan;
use std::alloc::Global;
use std::process::Abort;
use std::test::Fail;

const PLAN: &[u8] =
    b"[spool]\nhost_name = \"mx.example.org\"\npostmaster = \"postmaster@example.org\"\nlocal_hosts = [\"example.org\"]\nlocal_users = [\"ann\"]\nstart = \"2024-01-01T00:00:00Z\"\n[[processor]]\nname = \"root\"\n[[processor]]\nname = \"error\"\n";

/// The plan of the host `mx.example.org`, whose postmaster is `postmaster@example.org`.
pub(crate) fn plan(alloc: Global) -> Result<Plan, Fail> {
    match read_plan(alloc, PLAN) {
        Ok(plan) => Ok(plan),
        Err(fault) => Err(Fail::from(fault)),
    }
}

fn new_mail(alloc: Global, file: &[u8]) -> Result<NewMail, Fail>
    ensures { IfOk result (λ mail. length mail.body < 2 ^ 32) }
{
    match read_mail_file(alloc, file) {
        Ok(mail) => Ok(mail),
        Err(fault) => Err(Fail::from(fault)),
    }
}

/// The mail of a file, which is due at this moment.
pub(crate) fn mail(alloc: Global, file: &[u8], due: u64) -> Result<Mail, Fail> {
    let new = new_mail(alloc, file)?;
    Ok(new.first(alloc, due, 7)?)
}

fn failure(alloc: Global, line: &str) -> Result<Failure, Fail> {
    let (recipient, reason) = match line.split_once(' ') {
        Some(parts) => parts,
        None => (line, ""),
    };
    let reason = Bytes::from_slice(alloc, reason.as_bytes())?;
    let recipient = Address::read(alloc, recipient.as_bytes())?;
    Ok(Failure { recipient, reason })
}

/// The failures of these lines: an address, a space and the reason.
pub(crate) fn failures(alloc: Global, lines: &str) -> Result<Vec<Failure>, Fail> {
    let mut failures = Vec::new(alloc);
    for line in lines.lines() {
        failures.push(failure(alloc, line)?)?;
    }
    Ok(failures)
}

fn is_root(stage: &Stage) -> bool {
    match stage {
        Stage::Process(state) => state.as_slice() == b"root".as_slice(),
        Stage::Remote { .. } => false,
    }
}

/// Whether the notice has what each notice about the mail has beside its recipient and its message.
fn is_about(notice: &Mail, mail: &Mail) -> bool {
    let is_new = notice.sender.is_none() && notice.attributes.is_empty() && notice.error.is_empty();
    let is_next = notice.hops.checked_sub(1) == Some(mail.hops) && notice.due == mail.due;
    is_new && is_next && is_root(&notice.stage)
}

/// The body, where it was made.
fn made(body: &Body) -> &[u8] {
    match body {
        Body::Made(bytes) => bytes.as_slice(),
        Body::Original { .. } => b"the body of the mail",
    }
}

fn put_recipients(text: &mut Vec<u8>, recipients: &[Address]) -> Result<(), Fail> {
    for recipient in recipients {
        recipient.write_to(text)?;
        text.extend_from_slice(b"\r\n")?;
    }
    Ok(())
}

/// The notice about the mail as a text: its recipients, a line each, and its message.
pub(crate) fn shown(alloc: Global, notice: &Mail, mail: &Mail) -> Result<Vec<u8>, Fail> {
    let mut text = Vec::new(alloc);
    if is_about(notice, mail) {
        put_recipients(&mut text, notice.recipients.as_slice())?;
    }
    notice.head.write_to(&mut text)?;
    text.extend_from_slice(b"\r\n")?;
    text.extend_from_slice(made(&notice.body))?;
    Ok(text)
}

/// Whether the text is these lines with CRLF at each end.
pub(crate) fn is_text(alloc: Global, text: &[u8], lines: &str) -> Result<bool, Fail> {
    let mut want = Vec::new(alloc);
    for line in lines.lines() {
        want.extend_from_slice(line.as_bytes())?;
        want.extend_from_slice(b"\r\n")?;
    }
    Ok(want.as_slice() == text)
}

/// Fails where it isn't so. The case is what is looked at.
pub(crate) fn assert_so(rt: &impl Abort, is_so: bool, case: &str) {
    assert!(rt; is_so, "at {case:?}");
}
