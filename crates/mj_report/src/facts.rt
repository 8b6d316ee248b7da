//! Lines of facts.
ghost use Rattle.std.specs.Prelude.{◌≡◌, ◌++◌, IfOk, OnOk};
ghost use Rattle.std.specs.List.{flat_map};
ghost use Rattle.mj_mail.specs.Line.{recipients_text};
ghost use Rattle.mj_mail.specs.Meaning.{placed};
ghost use Rattle.mj_mail.specs.Name.{text_of};
ghost use Rattle.mj_report.specs.Facts.{deposit_text, fact_line as line_of_fact, fact_text, felloff_text, line_of, retry_text, sent_text, why_text};

use mj_address::{Address, Domain, Recipients};
use mj_fields::{Bytes, Memory};
use mj_mail::{Fact, Name, Reply, Why, name_text, put_address, put_number, put_recipients};
use std::alloc::Global;

/// The line of a fact of the mail of this name: the name, `#`, the fact's number in its outcome, from 1, what is said of it, and LF.
pub fn fact_line(alloc: Global, name: &Name, number: u32, fact: &Fact) -> Result<Bytes, Memory>
    ensures { IfOk result (λ line. line ≡ line_of (text_of name.now) number fact.now) }
{
    let name = name_text(alloc, name)?;
    let mut line = Bytes::new(alloc);
    put_fact_line(alloc, &mut line, name.as_slice(), u64::from(number), fact)?;
    Ok(line)
}

/// Puts the line of each fact of the mail of this name at the end of the text.
pub fn put_fact_lines(
    alloc: Global,
    out: &mut Bytes,
    name: &Name,
    facts: &[Fact],
) -> Result<(), Memory>
    ensures { OnOk result (out.new ≡ out.old ++ flat_map line_of_fact (placed name.now facts.now)) }
{
    if facts.is_empty() {
        return Ok(());
    }
    let text = name_text(alloc, name)?;
    for (k, fact) in facts.iter().enumerate() {
        put_fact_line(alloc, out, text.as_slice(), k as u64 + 1, fact)?;
    }
    Ok(())
}

fn put_fact_line(
    alloc: Global,
    out: &mut Bytes,
    name: &[u8],
    number: u64,
    fact: &Fact,
) -> Result<(), Memory>
    ensures { OnOk result (out.new ≡ out.old ++ line_of name.now number fact.now) }
{
    out.extend(name)?;
    out.push(b'#')?;
    put_number(alloc, out, number)?;
    out.push(b' ')?;
    put_fact(alloc, out, fact)?;
    out.push(b'\n')
}

fn put_fact(alloc: Global, out: &mut Bytes, fact: &Fact) -> Result<(), Memory>
    ensures { OnOk result (out.new ≡ out.old ++ fact_text fact.now) }
{
    match fact {
        Fact::Deposit {
            repository,
            recipients,
            head,
            body,
            ..
        } => put_deposit(alloc, out, repository, recipients, body.message_size(head)),
        Fact::Sent {
            host,
            recipient,
            reply,
        } => put_sent(alloc, out, host, recipient, reply),
        Fact::Retry {
            host,
            recipients,
            attempt,
            due,
        } => put_retry(alloc, out, host, recipients, *attempt, *due),
        Fact::Bounce { recipients } => put_for(out, b"bounce ", recipients),
        Fact::Dropped { why, recipients } => put_for(out, why_words(*why), recipients),
        Fact::FellOff {
            processor,
            recipients,
        } => put_felloff(out, processor.as_slice(), recipients),
        Fact::Looped { recipients } => put_for(out, b"looped ", recipients),
        Fact::Overrun => out.extend(b"overrun"),
    }
}

fn why_words(why: Why) -> &'static [u8]
    ensures { result.now ≡ why_text why }
{
    match why {
        Why::Discarded => b"dropped discarded ",
        Why::NoReturnPath => b"dropped noreturnpath ",
    }
}

/// Puts these words and the recipients.
fn put_for(out: &mut Bytes, words: &[u8], recipients: &Recipients) -> Result<(), Memory>
    ensures { OnOk result (out.new ≡ out.old ++ (words.now ++ recipients_text recipients.now)) }
{
    out.extend(words)?;
    put_recipients(out, recipients)
}

fn put_felloff(out: &mut Bytes, processor: &[u8], recipients: &Recipients) -> Result<(), Memory>
    ensures { OnOk result (out.new ≡ out.old ++ felloff_text processor.now recipients.now) }
{
    out.extend(b"felloff ")?;
    out.extend(processor)?;
    out.push(b' ')?;
    put_recipients(out, recipients)
}

fn put_deposit(
    alloc: Global,
    out: &mut Bytes,
    repository: &Bytes,
    recipients: &Recipients,
    size: u64,
) -> Result<(), Memory>
    ensures { OnOk result (out.new ≡ out.old ++ deposit_text repository.now recipients.now size) }
{
    out.extend(b"deposit ")?;
    out.extend(repository.as_slice())?;
    out.push(b' ')?;
    put_recipients(out, recipients)?;
    out.push(b' ')?;
    put_number(alloc, out, size)
}

fn put_sent(
    alloc: Global,
    out: &mut Bytes,
    host: &Domain,
    recipient: &Address,
    reply: &Reply,
) -> Result<(), Memory>
    ensures { OnOk result (out.new ≡ out.old ++ sent_text host.now recipient.now reply.now) }
{
    out.extend(b"sent ")?;
    out.extend(host.as_slice())?;
    out.push(b' ')?;
    put_address(out, recipient)?;
    out.push(b' ')?;
    reply.put(alloc, out)
}

fn put_retry(
    alloc: Global,
    out: &mut Bytes,
    host: &Domain,
    recipients: &Recipients,
    attempt: u32,
    due: u64,
) -> Result<(), Memory>
    ensures { OnOk result (out.new ≡ out.old ++ retry_text host.now recipients.now attempt due) }
{
    out.extend(b"retry ")?;
    out.extend(host.as_slice())?;
    out.push(b' ')?;
    put_recipients(out, recipients)?;
    out.push(b' ')?;
    put_number(alloc, out, u64::from(attempt))?;
    out.push(b' ')?;
    put_number(alloc, out, due)
}
