//! Reading of replies and facts.
ghost use Rattle.std.specs.Prelude.{◌≡◌};
ghost use Rattle.std.specs.List.{list_all};
ghost use Rattle.mj_mail.specs.Reply.{is_code, is_printable, is_reply_text};
ghost use Rattle.mj_entry_rows.specs.Items.{deposit_in, dropped_in, fact_in, felloff_in, reply_in, retry_in, sent_in, why_in};
ghost use Rattle.mj_entry_items.specs.Taken.{Takes};

use crate::mail::{take_envelope, take_message};
use mj_entry_items::{EntryFault, Reader, take_recipients};
use mj_fields::Bytes;
use mj_mail::{Fact, MAX_REPLY_TEXT, Reply, Why};

/// A reply, with the code and the text of one.
pub(crate) fn take_reply(reader: &mut Reader) -> Result<Reply, EntryFault>
    ensures { Takes result (reply_in reader.old) reader.new }
{
    let code = reader.short()?;
    let text = reader.text()?;
    if !is_code(code) || !is_text(text) {
        return Err(EntryFault::Bad);
    }
    Ok(Reply {
        code,
        text: Bytes::from_slice(reader.alloc(), text)?,
    })
}

/// Whether this is the code of a reply.
fn is_code(code: u16) -> bool
    ensures { result ≡ is_code code }
{
    matches!(code, 200..=299 | 400..=599)
}

/// Whether this is the text of a reply.
fn is_text(text: &[u8]) -> bool
    ensures { result ≡ is_reply_text text.now }
{
    text.len() <= MAX_REPLY_TEXT && are_printable(text)
}

/// Whether these are printable bytes of ASCII and spaces.
fn are_printable(text: &[u8]) -> bool
    ensures { result ≡ list_all is_printable text.now }
{
    text.iter().all(|b| matches!(*b, 32..=126))
}

/// A fact.
pub(crate) fn take_fact(reader: &mut Reader) -> Result<Fact, EntryFault>
    ensures { Takes result (fact_in reader.old) reader.new }
{
    match reader.byte()? {
        0 => take_deposit(reader),
        1 => take_sent(reader),
        2 => take_retry(reader),
        3 => {
            let recipients = take_recipients(reader)?;
            Ok(Fact::Bounce { recipients })
        }
        4 => take_dropped(reader),
        5 => take_felloff(reader),
        6 => {
            let recipients = take_recipients(reader)?;
            Ok(Fact::Looped { recipients })
        }
        7 => Ok(Fact::Overrun),
        _ => Err(EntryFault::Bad),
    }
}

/// What was put into a repository.
fn take_deposit(reader: &mut Reader) -> Result<Fact, EntryFault>
    ensures { Takes result (deposit_in reader.old) reader.new }
{
    let repository = reader.string()?;
    let (sender, recipients) = take_envelope(reader)?;
    let (head, body) = take_message(reader)?;
    Ok(Fact::Deposit {
        repository,
        sender,
        recipients,
        head,
        body,
    })
}

/// What a host took for a recipient, and its reply.
fn take_sent(reader: &mut Reader) -> Result<Fact, EntryFault>
    ensures { Takes result (sent_in reader.old) reader.new }
{
    let host = reader.domain()?;
    let recipient = reader.address()?;
    let reply = take_reply(reader)?;
    Ok(Fact::Sent {
        host,
        recipient,
        reply,
    })
}

/// What is tried again, the number of the attempt, and when it is due.
fn take_retry(reader: &mut Reader) -> Result<Fact, EntryFault>
    ensures { Takes result (retry_in reader.old) reader.new }
{
    let host = reader.domain()?;
    let recipients = take_recipients(reader)?;
    let attempt = reader.word()?;
    let due = reader.long()?;
    Ok(Fact::Retry {
        host,
        recipients,
        attempt,
        due,
    })
}

/// What was given up, and why.
fn take_dropped(reader: &mut Reader) -> Result<Fact, EntryFault>
    ensures { Takes result (dropped_in reader.old) reader.new }
{
    let why = take_why(reader)?;
    let recipients = take_recipients(reader)?;
    Ok(Fact::Dropped { why, recipients })
}

/// Why a mail was dropped.
fn take_why(reader: &mut Reader) -> Result<Why, EntryFault>
    ensures { Takes result (why_in reader.old) reader.new }
{
    match reader.byte()? {
        0 => Ok(Why::Discarded),
        1 => Ok(Why::NoReturnPath),
        _ => Err(EntryFault::Bad),
    }
}

/// What came past the last step of a processor.
fn take_felloff(reader: &mut Reader) -> Result<Fact, EntryFault>
    ensures { Takes result (felloff_in reader.old) reader.new }
{
    let processor = reader.string()?;
    let recipients = take_recipients(reader)?;
    Ok(Fact::FellOff {
        processor,
        recipients,
    })
}
