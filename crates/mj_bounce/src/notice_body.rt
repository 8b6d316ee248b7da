//! The body of a notice. All lines end in CRLF.
ghost use Rattle.std.specs.Prelude.{◌≡◌, ◌++◌, codes, IfOk, OnOk};
ghost use Rattle.std.specs.List.{flat_map};
ghost use Rattle.mj_container.specs.Notices.{closing, failure_line, line, opening, troubled as troubled_of, undelivered as undelivered_of};

use mj_fields::{Bytes, Memory};
use mj_mail::{Failure, Mail};
use mj_plan::Plan;
use std::alloc::Global;

/// The text before the name of the host.
const SYSTEM: &[u8] = b"This is the mail system at ";

/// The text behind the name of the host.
const END_OF_OPENING: &[u8] = b".\r\n\r\n";

/// The text before the failures.
const UNDELIVERED: &[u8] = b"Your message could not be delivered to:\r\n\r\n";

/// The text before the error.
const ERROR: &[u8] = b"Error: ";

/// The text before the head of the mail.
const HEAD_FOLLOWS: &[u8] = b"The head of your message follows.\r\n\r\n";

/// What ends a line, and is an empty line by itself.
const LINE_END: &[u8] = b"\r\n";

/// The body of the notice to the sender: to whom the mail couldn't be delivered, each with the reason.
pub fn undelivered(
    alloc: Global,
    plan: &Plan,
    mail: &Mail,
    failed: &[Failure],
) -> Result<Bytes, Memory>
    ensures { IfOk result (λ body. body ≡ undelivered_of plan.now mail.now failed.now) }
{
    let len = frame_len(plan, mail)
        .saturating_add(UNDELIVERED.len() + LINE_END.len())
        .saturating_add(failures_len(failed));
    let mut body = Vec::with_capacity(alloc, len)?;
    put_opening(&mut body, plan)?;
    body.extend_from_slice(UNDELIVERED)?;
    put_failures(&mut body, failed)?;
    body.extend_from_slice(LINE_END)?;
    put_closing(&mut body, mail)?;
    Ok(Bytes::from_vec(body))
}

/// The body of the notice to the postmaster: what the mail's error is.
pub fn troubled(alloc: Global, plan: &Plan, mail: &Mail) -> Result<Bytes, Memory>
    ensures { IfOk result (λ body. body ≡ troubled_of plan.now mail.now) }
{
    let len = frame_len(plan, mail)
        .saturating_add(ERROR.len() + 2 * LINE_END.len())
        .saturating_add(mail.error.len());
    let mut body = Vec::with_capacity(alloc, len)?;
    put_opening(&mut body, plan)?;
    put_error(&mut body, &mail.error)?;
    body.extend_from_slice(LINE_END)?;
    put_closing(&mut body, mail)?;
    Ok(Bytes::from_vec(body))
}

/// How many bytes the opening and the closing have.
fn frame_len(plan: &Plan, mail: &Mail) -> usize {
    let words = SYSTEM.len() + END_OF_OPENING.len() + HEAD_FOLLOWS.len();
    words + plan.host_name.as_slice().len() + mail.head.written_len()
}

/// How many bytes the lines of the failures have: of each the recipient, the reason, and 6 more.
fn failures_len(failed: &[Failure]) -> usize {
    let mut len = 0_usize;
    for failure in failed {
        len = len
            .saturating_add(failure.recipient.written_len() + 6)
            .saturating_add(failure.reason.len());
    }
    len
}

/// Puts the opening at the end: the name by which the host speaks of itself, and an empty line.
fn put_opening(out: &mut Vec<u8>, plan: &Plan) -> Result<(), Memory>
    ensures { OnOk result (out.new.items ≡ out.old.items ++ opening plan.now) }
{
    out.extend_from_slice(SYSTEM)?;
    out.extend_from_slice(plan.host_name.as_slice())?;
    out.extend_from_slice(END_OF_OPENING)?;
    Ok(())
}

/// Puts a line for each failure at the end.
fn put_failures(out: &mut Vec<u8>, failed: &[Failure]) -> Result<(), Memory>
    ensures { OnOk result (out.new.items ≡ out.old.items ++ flat_map failure_line failed.now) }
{
    for failure in failed {
        put_failure(out, failure)?;
    }
    Ok(())
}

/// Puts the line of a failure at the end: the recipient in angle brackets, and the reason.
fn put_failure(out: &mut Vec<u8>, failure: &Failure) -> Result<(), Memory>
    ensures { OnOk result (out.new.items ≡ out.old.items ++ failure_line failure.now) }
{
    out.extend_from_slice(b"<")?;
    failure.recipient.write_to(out)?;
    out.extend_from_slice(b">: ")?;
    put_line(out, failure.reason.as_slice())
}

/// Puts the line of an error at the end.
fn put_error(out: &mut Vec<u8>, error: &Bytes) -> Result<(), Memory>
    ensures { OnOk result (out.new.items ≡ out.old.items ++ line (codes "Error: " ++ error.now)) }
{
    out.extend_from_slice(ERROR)?;
    put_line(out, error.as_slice())
}

/// Puts the closing at the end: the head of the mail.
fn put_closing(out: &mut Vec<u8>, mail: &Mail) -> Result<(), Memory>
    ensures { OnOk result (out.new.items ≡ out.old.items ++ closing mail.now) }
{
    out.extend_from_slice(HEAD_FOLLOWS)?;
    mail.head.write_to(out)?;
    Ok(())
}

/// Puts a text and the end of its line at the end.
fn put_line(out: &mut Vec<u8>, text: &[u8]) -> Result<(), Memory>
    ensures { OnOk result (out.new.items ≡ out.old.items ++ line text.now) }
{
    out.extend_from_slice(text)?;
    out.extend_from_slice(LINE_END)?;
    Ok(())
}
