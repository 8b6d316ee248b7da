//! Words of lines: recipients, and the line of an attempt at a host.
ghost use Rattle.std.specs.Prelude.{◌≡◌, ◌++◌, ◌<◌, true, length, slice_get, Some, IfOk, OnOk};
ghost use Rattle.mj_address.specs.Reading.{spelled};
ghost use Rattle.mj_mail.specs.Line.{attempt_text, recipients_text, separator, wire_line as line_of_attempt};
ghost use Rattle.mj_mail.specs.Mail.{is_remote};
ghost use Rattle.mj_mail.specs.Name.{text_of};

use crate::{Mail, Name, Stage, name_text, put_number};
use mj_address::{Address, Domain, Recipients};
use mj_fields::{Bytes, Memory};
use std::alloc::Global;

/// The line of the attempt of a mail that is sent to a host: the mail's name, the attempt's number from 1, the host and
/// the recipients, with a space between them and without LF.
pub fn wire_line(alloc: Global, mail: &Mail) -> Result<Bytes, Memory>
    requires remote { is_remote mail.now.stage ≡ true }
    ensures { IfOk result (λ line. line ≡ line_of_attempt mail.now) }
{
    match &mail.stage {
        Stage::Process(_) => unreachable!(),
        Stage::Remote { host, attempt, .. } => {
            attempt_line(alloc, &mail.name, *attempt, host, &mail.recipients)
        }
    }
}

fn attempt_line(
    alloc: Global,
    name: &Name,
    attempt: u32,
    host: &Domain,
    recipients: &Recipients,
) -> Result<Bytes, Memory>
    ensures { IfOk result (λ line. line ≡ text_of name.now ++ attempt_text recipients.now host.now attempt) }
{
    let mut line = name_text(alloc, name)?;
    line.push(b' ')?;
    put_number(alloc, &mut line, u64::from(attempt))?;
    line.push(b' ')?;
    line.extend(host.as_slice())?;
    line.push(b' ')?;
    put_recipients(&mut line, recipients)?;
    Ok(line)
}

/// Puts the addresses as they are spelled, joined by commas, at the end of a text.
pub fn put_recipients(out: &mut Bytes, recipients: &Recipients) -> Result<(), Memory>
    ensures { OnOk result (out.new ≡ out.old ++ recipients_text recipients.now) }
{
    for k in 0..recipients.len() {
        put_separator(out, k)?;
        put_address(out, recipient_at(recipients, k))?;
    }
    Ok(())
}

fn recipient_at(recipients: &Recipients, k: usize) -> &Address
    requires { k < length recipients.now }
    ensures { slice_get recipients.now k ≡ Some result.now }
{
    match recipients.get(k) {
        Some(address) => address,
        None => unreachable!(),
    }
}

fn put_separator(out: &mut Bytes, place: usize) -> Result<(), Memory>
    ensures { OnOk result (out.new ≡ out.old ++ separator place) }
{
    if place == 0 {
        return Ok(());
    }
    out.push(b',')
}

/// Puts an address as it is spelled at the end of a text.
pub fn put_address(out: &mut Bytes, address: &Address) -> Result<(), Memory>
    ensures { OnOk result (out.new ≡ out.old ++ spelled address.now) }
{
    out.extend(address.local())?;
    out.push(b'@')?;
    out.extend(address.domain().as_slice())
}
