//! Reading of mails.
ghost use Rattle.mj_entry_rows.specs.Items.{body_in, envelope_in, mail_in, message_in, new_mail_in, stage_in, standing_in};
ghost use Rattle.mj_entry_items.specs.Taken.{Takes};

use mj_address::{Address, Recipients};
use mj_entry_items::{EntryFault, Reader, take_attributes, take_head, take_name, take_recipients};
use mj_fields::Bytes;
use mj_head::Head;
use mj_mail::{Attributes, Body, Mail, NewMail, Stage};

/// An envelope: a sender and recipients.
pub(crate) fn take_envelope(
    reader: &mut Reader,
) -> Result<(Option<Address>, Recipients), EntryFault>
    ensures { Takes result (envelope_in reader.old) reader.new }
{
    let sender = reader.sender()?;
    let recipients = take_recipients(reader)?;
    Ok((sender, recipients))
}

/// A message: a head and a body.
pub(crate) fn take_message(reader: &mut Reader) -> Result<(Head, Body), EntryFault>
    ensures { Takes result (message_in reader.old) reader.new }
{
    let head = take_head(reader)?;
    let body = take_body(reader)?;
    Ok((head, body))
}

/// A body.
fn take_body(reader: &mut Reader) -> Result<Body, EntryFault>
    ensures { Takes result (body_in reader.old) reader.new }
{
    match reader.byte()? {
        0 => {
            let number = reader.long()?;
            let length = reader.word()?;
            Ok(Body::Original { number, length })
        }
        1 => Ok(Body::Made(reader.string()?)),
        _ => Err(EntryFault::Bad),
    }
}

/// Where a mail stands.
fn take_stage(reader: &mut Reader) -> Result<Stage, EntryFault>
    ensures { Takes result (stage_in reader.old) reader.new }
{
    match reader.byte()? {
        0 => Ok(Stage::Process(reader.string()?)),
        1 => {
            let delivery = reader.string()?;
            let host = reader.domain()?;
            let attempt = reader.word()?;
            Ok(Stage::Remote {
                delivery,
                host,
                attempt,
            })
        }
        _ => Err(EntryFault::Bad),
    }
}

/// What a mail has gathered on its way, and where it stands.
fn take_standing(reader: &mut Reader) -> Result<(Attributes, (Stage, Bytes)), EntryFault>
    ensures { Takes result (standing_in reader.old) reader.new }
{
    let attributes = take_attributes(reader)?;
    let stage = take_stage(reader)?;
    let error = reader.string()?;
    Ok((attributes, (stage, error)))
}

/// A mail.
pub(crate) fn take_mail(reader: &mut Reader) -> Result<Mail, EntryFault>
    ensures { Takes result (mail_in reader.old) reader.new }
{
    let name = take_name(reader)?;
    let (sender, recipients) = take_envelope(reader)?;
    let (attributes, (stage, error)) = take_standing(reader)?;
    let (head, body) = take_message(reader)?;
    let hops = reader.word()?;
    let due = reader.long()?;
    Ok(Mail {
        name,
        sender,
        recipients,
        attributes,
        stage,
        error,
        head,
        body,
        hops,
        due,
    })
}

/// A new mail. Its body is copied once.
pub(crate) fn take_new_mail(reader: &mut Reader) -> Result<NewMail, EntryFault>
    ensures { Takes result (new_mail_in reader.old) reader.new }
{
    let (sender, recipients) = take_envelope(reader)?;
    let head = take_head(reader)?;
    let body = reader.string()?;
    Ok(NewMail {
        sender,
        recipients,
        head,
        body,
    })
}
