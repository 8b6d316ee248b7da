//! Entries of each kind, as values and as bytes.
ghost use Rattle.std.specs.Prelude.{◌≡◌, true, IfOk};
ghost use Rattle.mj_mail.specs.Reply.{is_reply};
ghost use Rattle.mj_entry_write.specs.Whole.{is_addressed, is_whole, is_whole_fact, is_whole_outcome};

use crate::texts::{
    ACCEPT, ADDRESS, CHILD, DONE, HEAD, HOST, MADE, NONE, ONE, ORIGINAL, RECIPIENTS, REPLY,
};
use mj_address::{Address, Domain, Recipients};
use mj_fields::{Bytes, Items, Memory};
use mj_head::{Head, HeadBuilder};
use mj_mail::{Attributes, Body, Entry, Fact, Mail, Name, NewMail, Outcome, Reply, Stage, Why};
use std::alloc::Global;
use std::test::Fail;

/// A kind of a fact.
#[derive(Clone, Copy)]
pub(crate) enum Told {
    Deposited,
    Notified,
    Sent,
    Retried,
    Bounced,
    Discarded,
    Unreturned,
    FellOff,
    Looped,
    Overrun,
}

/// An entry: one of each kind, and a step for each kind of a fact and of a child.
#[derive(Clone, Copy)]
pub(crate) enum Sample {
    Setup,
    Accepted,
    FromNobody,
    Told(Told),
    Processed,
    Remote,
}

/// The samples as bytes.
pub(crate) const SAMPLES: [(Sample, &[&[u8]]); 15] = [
    (Sample::Setup, &[b"\0", b"\x04\0\0\0plan"]),
    (
        Sample::Accepted,
        &[ACCEPT, b"\x01", ADDRESS, RECIPIENTS, HEAD, b"\x02\0\0\0hi"],
    ),
    (Sample::FromNobody, &[ACCEPT, b"\0", RECIPIENTS, NONE, NONE]),
    (
        Sample::Told(Told::Deposited),
        &[
            DONE,
            NONE,
            ONE,
            b"\0",
            b"\x03\0\0\0box",
            b"\x01",
            ADDRESS,
            RECIPIENTS,
            HEAD,
            ORIGINAL,
            NONE,
        ],
    ),
    (
        Sample::Told(Told::Notified),
        &[
            DONE,
            NONE,
            ONE,
            b"\0",
            b"\x03\0\0\0box",
            b"\0",
            RECIPIENTS,
            NONE,
            MADE,
            NONE,
        ],
    ),
    (
        Sample::Told(Told::Sent),
        &[DONE, ONE, REPLY, ONE, b"\x01", HOST, ADDRESS, REPLY, NONE],
    ),
    (
        Sample::Told(Told::Retried),
        &[
            DONE,
            NONE,
            ONE,
            b"\x02",
            HOST,
            RECIPIENTS,
            b"\x02\0\0\0",
            b"\xe8\x03\0\0\0\0\0\0",
            NONE,
        ],
    ),
    (
        Sample::Told(Told::Bounced),
        &[DONE, NONE, ONE, b"\x03", RECIPIENTS, NONE],
    ),
    (
        Sample::Told(Told::Discarded),
        &[DONE, NONE, ONE, b"\x04", b"\0", RECIPIENTS, NONE],
    ),
    (
        Sample::Told(Told::Unreturned),
        &[DONE, NONE, ONE, b"\x04", b"\x01", RECIPIENTS, NONE],
    ),
    (
        Sample::Told(Told::FellOff),
        &[
            DONE,
            NONE,
            ONE,
            b"\x05",
            b"\x04\0\0\0root",
            RECIPIENTS,
            NONE,
        ],
    ),
    (
        Sample::Told(Told::Looped),
        &[DONE, NONE, ONE, b"\x06", RECIPIENTS, NONE],
    ),
    (
        Sample::Told(Told::Overrun),
        &[DONE, NONE, ONE, b"\x07", NONE],
    ),
    (
        Sample::Processed,
        &[
            DONE,
            NONE,
            NONE,
            ONE,
            CHILD,
            b"\0",
            RECIPIENTS,
            NONE,
            b"\0",
            b"\x04\0\0\0root",
            NONE,
            HEAD,
            ORIGINAL,
            b"\x01\0\0\0",
            b"\0\0\0\0\0\0\0\0",
        ],
    ),
    (
        Sample::Remote,
        &[
            DONE,
            NONE,
            NONE,
            ONE,
            CHILD,
            b"\0",
            RECIPIENTS,
            ONE,
            b"\x01\0\0\0k\x02\0\0\0vw",
            b"\x01",
            b"\x03\0\0\0out",
            HOST,
            b"\x02\0\0\0",
            b"\x04\0\0\0busy",
            NONE,
            MADE,
            b"\x01\0\0\0",
            b"\0\0\0\0\0\0\0\0",
        ],
    ),
];

/// The entry of a sample.
pub(crate) fn entry_of(alloc: Global, sample: Sample) -> Result<Entry, Fail>
    ensures { IfOk result (λ entry. is_whole entry ≡ true) }
{
    match sample {
        Sample::Setup => Ok(Entry::Setup {
            plan: Bytes::from_slice(alloc, b"plan")?,
        }),
        Sample::Accepted => accepted(alloc, Some(address(alloc)?), head(alloc)?, b"hi"),
        Sample::FromNobody => accepted(alloc, None, Head::new(alloc), b""),
        Sample::Told(told) => told_of(alloc, told),
        Sample::Processed => processed(alloc),
        Sample::Remote => remote(alloc),
    }
}

fn address(alloc: Global) -> Result<Address, Fail> {
    Ok(Address::read(alloc, b"a@b.c")?)
}

fn host(alloc: Global) -> Result<Domain, Fail> {
    Ok(Domain::read(alloc, b"b.c")?)
}

fn recipients(alloc: Global) -> Result<Recipients, Fail>
    ensures { IfOk result (λ recipients. is_addressed recipients ≡ true) }
{
    let address = address(alloc)?;
    Ok(Recipients::one(alloc, address)?)
}

fn head(alloc: Global) -> Result<Head, Fail> {
    let mut fields = HeadBuilder::new(alloc);
    fields.add_raw(b"To", b" x")?;
    Ok(fields.finish(alloc)?)
}

fn reply(alloc: Global) -> Result<Reply, Fail>
    ensures { IfOk result (λ reply. is_reply reply ≡ true) }
{
    match Reply::read(alloc, b"250 ok") {
        Ok(reply) => Ok(reply),
        Err(_) => Err(Fail::from(Memory)),
    }
}

fn original() -> Body {
    Body::Original {
        number: 7,
        length: 1000,
    }
}

fn made(alloc: Global) -> Result<Body, Fail> {
    Ok(Body::Made(Bytes::from_slice(alloc, b"hi")?))
}

fn accepted(alloc: Global, sender: Option<Address>, head: Head, body: &[u8]) -> Result<Entry, Fail>
    ensures { IfOk result (λ entry. is_whole entry ≡ true) }
{
    let file = Bytes::from_slice(alloc, b"a.mail")?;
    let recipients = recipients(alloc)?;
    let body = Bytes::from_slice(alloc, body)?;
    let mail = NewMail {
        sender,
        recipients,
        head,
        body,
    };
    Ok(Entry::Accept {
        number: 7,
        file,
        mail,
    })
}

/// The step of this outcome, for which no host answered.
fn done(alloc: Global, outcome: Outcome) -> Entry
    requires { is_whole_outcome outcome ≡ true }
    ensures { is_whole result ≡ true }
{
    Entry::Done {
        name: Name::first(alloc, 7),
        replies: Items::new(alloc),
        outcome,
    }
}

fn told_of(alloc: Global, told: Told) -> Result<Entry, Fail>
    ensures { IfOk result (λ entry. is_whole entry ≡ true) }
{
    if matches!(told, Told::Sent) {
        return answered(alloc);
    }
    let fact = fact_of(alloc, told)?;
    Ok(done(alloc, Outcome::one_fact(alloc, fact)?))
}

fn fact_of(alloc: Global, told: Told) -> Result<Fact, Fail>
    ensures { IfOk result (λ fact. is_whole_fact fact ≡ true) }
{
    if matches!(told, Told::Overrun) {
        return Ok(Fact::Overrun);
    }
    let recipients = recipients(alloc)?;
    match told {
        Told::Deposited => deposit(
            alloc,
            Some(address(alloc)?),
            recipients,
            head(alloc)?,
            original(),
        ),
        Told::Notified => deposit(alloc, None, recipients, Head::new(alloc), made(alloc)?),
        Told::Retried => retried(alloc, recipients),
        Told::Bounced => Ok(Fact::Bounce { recipients }),
        Told::Discarded => Ok(Fact::Dropped {
            why: Why::Discarded,
            recipients,
        }),
        Told::Unreturned => Ok(Fact::Dropped {
            why: Why::NoReturnPath,
            recipients,
        }),
        Told::FellOff => Ok(Fact::FellOff {
            processor: Bytes::from_slice(alloc, b"root")?,
            recipients,
        }),
        _ => Ok(Fact::Looped { recipients }),
    }
}

fn deposit(
    alloc: Global,
    sender: Option<Address>,
    recipients: Recipients,
    head: Head,
    body: Body,
) -> Result<Fact, Fail>
    requires { is_addressed recipients ≡ true }
    ensures { IfOk result (λ fact. is_whole_fact fact ≡ true) }
{
    let repository = Bytes::from_slice(alloc, b"box")?;
    Ok(Fact::Deposit {
        repository,
        sender,
        recipients,
        head,
        body,
    })
}

fn retried(alloc: Global, recipients: Recipients) -> Result<Fact, Fail>
    requires { is_addressed recipients ≡ true }
    ensures { IfOk result (λ fact. is_whole_fact fact ≡ true) }
{
    let host = host(alloc)?;
    Ok(Fact::Retry {
        host,
        recipients,
        attempt: 2,
        due: 1000,
    })
}

/// The step in which a host took the mail.
fn answered(alloc: Global) -> Result<Entry, Fail>
    ensures { IfOk result (λ entry. is_whole entry ≡ true) }
{
    let mut replies = Items::new(alloc);
    replies.push(reply(alloc)?)?;
    let outcome = Outcome::one_fact(alloc, sent(alloc)?)?;
    Ok(Entry::Done {
        name: Name::first(alloc, 7),
        replies,
        outcome,
    })
}

fn sent(alloc: Global) -> Result<Fact, Fail>
    ensures { IfOk result (λ fact. is_whole_fact fact ≡ true) }
{
    let host = host(alloc)?;
    let recipient = address(alloc)?;
    let reply = reply(alloc)?;
    Ok(Fact::Sent {
        host,
        recipient,
        reply,
    })
}

/// The step that made the first child, of these parts.
fn child(
    alloc: Global,
    attributes: Attributes,
    stage: Stage,
    error: &[u8],
    message: (Head, Body),
) -> Result<Entry, Fail>
    ensures { IfOk result (λ entry. is_whole entry ≡ true) }
{
    let name = Name::first(alloc, 7).child(1)?;
    let recipients = recipients(alloc)?;
    let error = Bytes::from_slice(alloc, error)?;
    let (head, body) = message;
    let mail = Mail {
        name,
        sender: None,
        recipients,
        attributes,
        stage,
        error,
        head,
        body,
        hops: 1,
        due: 0,
    };
    Ok(done(alloc, Outcome::one_child(alloc, mail)?))
}

fn processed(alloc: Global) -> Result<Entry, Fail>
    ensures { IfOk result (λ entry. is_whole entry ≡ true) }
{
    let stage = Stage::Process(Bytes::from_slice(alloc, b"root")?);
    let message = (head(alloc)?, original());
    child(alloc, Attributes::new(alloc), stage, b"", message)
}

fn remote(alloc: Global) -> Result<Entry, Fail>
    ensures { IfOk result (λ entry. is_whole entry ≡ true) }
{
    let mut attributes = Attributes::new(alloc);
    attributes.set(alloc, b"k", b"vw")?;
    let stage = Stage::Remote {
        delivery: Bytes::from_slice(alloc, b"out")?,
        host: host(alloc)?,
        attempt: 2,
    };
    let message = (Head::new(alloc), made(alloc)?);
    child(alloc, attributes, stage, b"busy", message)
}
