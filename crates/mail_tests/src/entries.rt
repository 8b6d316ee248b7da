//! How many bytes the entries of steps have, and their parts.
use crate::names::grandchild;
use crate::rows::{assert_so, first_mail, new_mail};
use mj_address::{Address, Domain, Recipients};
use mj_entry_len::{done_fits, done_len, fact_len, mail_len, name_len, reply_len};
use mj_fields::{Bytes, Items, Memory};
use mj_head::Head;
use mj_mail::{Body, Fact, Mail, Name, NewMail, Outcome, Reply, Stage, Why};
use std::alloc::Global;
use std::test::Fail;

fn bytes(alloc: Global, text: &str) -> Result<Bytes, Memory> {
    Ok(Bytes::from_slice(alloc, text.as_bytes())?)
}

/// A mail file, and the text of a body that was made in place of the one that came in.
struct Message {
    file: &'static [u8],
    made: Option<&'static str>,
    len: u64,
}

/// Messages to `a@b.c`, and how many bytes a deposit of each in `box` has: 1 for the kind, 7 for the repository and 16 for the
/// recipients, a null sender 1 and another 13, a head 4 and 8 more than the name and the raw body for each field, and a
/// body 13, or five more than what was made.
const MESSAGES: [Message; 6] = [
    Message {
        file: b"MAIL FROM:<>\r\nRCPT TO:<a@b.c>\r\nDATA\r\n\r\n",
        made: None,
        len: 24 + 1 + 4 + 13,
    },
    Message {
        file: b"MAIL FROM:<a@b.c>\r\nRCPT TO:<a@b.c>\r\nDATA\r\n\r\nhello",
        made: None,
        len: 24 + 13 + 4 + 13,
    },
    Message {
        file: b"MAIL FROM:<>\r\nRCPT TO:<a@b.c>\r\nDATA\r\nTo: x\r\n\r\n",
        made: None,
        len: 24 + 1 + (4 + 12) + 13,
    },
    Message {
        file: b"MAIL FROM:<>\r\nRCPT TO:<a@b.c>\r\nDATA\r\nTo: x\r\nSubject: hi\r\n you\r\nX:\r\n\r\n",
        made: None,
        len: 24 + 1 + (4 + 12 + 24 + 9) + 13,
    },
    Message {
        file: b"MAIL FROM:<>\r\nRCPT TO:<a@b.c>\r\nDATA\r\n\r\n",
        made: Some(""),
        len: 24 + 1 + 4 + 5,
    },
    Message {
        file: b"MAIL FROM:<a@b.c>\r\nRCPT TO:<a@b.c>\r\nDATA\r\n\r\n",
        made: Some("hello"),
        len: 24 + 13 + 4 + 10,
    },
];

/// The body that was made, or one that came in.
fn body(alloc: Global, made: Option<&str>) -> Result<Body, Memory> {
    match made {
        Some(text) => Ok(Body::Made(bytes(alloc, text)?)),
        None => Ok(Body::Original {
            number: 7,
            length: 1000,
        }),
    }
}

/// The fact that the mail was put into the repository `box` with this body.
fn deposit(alloc: Global, mail: &NewMail, body: &Body) -> Result<Fact, Memory> {
    let repository = bytes(alloc, "box")?;
    let envelope = (&mail.sender, &mail.recipients);
    Fact::deposit(alloc, &repository, envelope, (&mail.head, body))
}

fn deposit_len(alloc: Global, mail: &NewMail, body: &Body) -> Result<u64, Memory> {
    let fact = deposit(alloc, mail, body)?;
    Ok(fact_len(&fact))
}

fn message_len(alloc: Global, mail: &NewMail, made: Option<&str>) -> Result<u64, Memory> {
    let body = body(alloc, made)?;
    deposit_len(alloc, mail, &body)
}

fn is_counted(alloc: Global, message: &Message) -> Result<bool, Fail> {
    let mail = new_mail(alloc, message.file)?;
    let len = message_len(alloc, &mail, message.made)?;
    Ok(len == message.len)
}

#[test]
fn deposits(rt: HostRuntime) -> Result<(), Fail> {
    for (k, message) in MESSAGES.iter().enumerate() {
        let is_so = is_counted(rt.alloc(), message)?;
        assert!(rt; is_so, "at {k}");
    }
    Ok(())
}

/// 12 bytes: two strings of one byte and of three, each behind four bytes.
fn address(alloc: Global) -> Result<Address, Fail> {
    Ok(Address::read(alloc, b"a@b.c")?)
}

/// 7 bytes.
fn host(alloc: Global) -> Result<Domain, Fail> {
    Ok(Domain::read(alloc, b"b.c")?)
}

/// 8 bytes: two for the code, and two letters behind four bytes.
fn reply(alloc: Global) -> Result<Reply, Memory> {
    let text = bytes(alloc, "ok")?;
    Ok(Reply { code: 250, text })
}

/// 16 bytes: four, and one address.
fn recipients(alloc: Global) -> Result<Recipients, Fail> {
    Ok(Recipients::one(alloc, address(alloc)?)?)
}

/// The other kinds of facts.
enum Kind {
    Sent,
    Retry,
    Bounce,
    Dropped,
    FellOff,
    Looped,
    Overrun,
}

fn sent(alloc: Global) -> Result<Fact, Fail> {
    let host = host(alloc)?;
    let recipient = address(alloc)?;
    let reply = reply(alloc)?;
    Ok(Fact::Sent {
        host,
        recipient,
        reply,
    })
}

fn retry(alloc: Global, recipients: Recipients) -> Result<Fact, Fail> {
    let host = host(alloc)?;
    Ok(Fact::Retry {
        host,
        recipients,
        attempt: 1,
        due: 2,
    })
}

fn fell_off(alloc: Global, recipients: Recipients) -> Result<Fact, Fail> {
    let processor = bytes(alloc, "root")?;
    Ok(Fact::FellOff {
        processor,
        recipients,
    })
}

fn told(alloc: Global, kind: &Kind) -> Result<Fact, Fail> {
    let recipients = recipients(alloc)?;
    match kind {
        Kind::Sent => sent(alloc),
        Kind::Retry => retry(alloc, recipients),
        Kind::Bounce => Ok(Fact::Bounce { recipients }),
        Kind::Dropped => Ok(Fact::Dropped {
            why: Why::Discarded,
            recipients,
        }),
        Kind::FellOff => fell_off(alloc, recipients),
        Kind::Looped => Ok(Fact::Looped { recipients }),
        Kind::Overrun => Ok(Fact::Overrun),
    }
}

/// Kinds, and how many bytes a fact of each has here: one for the kind, and its parts.
const KINDS: [(Kind, u64, &str); 7] = [
    (Kind::Sent, 1 + 7 + 12 + 8, "sent"),
    (Kind::Retry, 1 + 7 + 16 + 4 + 8, "retry"),
    (Kind::Bounce, 1 + 16, "bounce"),
    (Kind::Dropped, 1 + 1 + 16, "dropped"),
    (Kind::FellOff, 1 + 8 + 16, "fell off"),
    (Kind::Looped, 1 + 16, "looped"),
    (Kind::Overrun, 1, "overrun"),
];

fn told_len(alloc: Global, kind: &Kind) -> Result<u64, Fail> {
    let fact = told(alloc, kind)?;
    Ok(fact_len(&fact))
}

#[test]
fn other_facts(rt: HostRuntime) -> Result<(), Fail> {
    for (kind, want, case) in &KINDS {
        let len = told_len(rt.alloc(), kind)?;
        assert_so(&rt, len == *want, case);
    }
    Ok(())
}

const FILE: &[u8] = b"MAIL FROM:<>\r\nRCPT TO:<a@b.c>\r\nDATA\r\n\r\n";

/// Gives the mail a name of 20 bytes, an attribute of 11 and an error of 2.
fn mark(alloc: Global, mail: &mut Mail) -> Result<(), Memory> {
    mail.name = grandchild(alloc)?;
    mail.attributes.set(alloc, b"a", b"bc")?;
    mail.error.extend(b"no")
}

/// 96 bytes: 20 for the name, which has eight for the number, four, and four for each member of the path, 1 and 16 for the
/// envelope, 15 for the attribute, 9 for the stage, 6 for the error, 4 and 13 for the message, and 12 for the hops and the
/// moment.
fn waiting(alloc: Global) -> Result<Mail, Fail> {
    let mut mail = first_mail(alloc, FILE)?;
    mark(alloc, &mut mail)?;
    Ok(mail)
}

fn remote(alloc: Global) -> Result<Stage, Fail> {
    let delivery = bytes(alloc, "out")?;
    let host = host(alloc)?;
    Ok(Stage::Remote {
        delivery,
        host,
        attempt: 1,
    })
}

/// Its stage has 1, 7, 7 and 4 bytes in place of 9.
fn leaving(alloc: Global) -> Result<Mail, Fail> {
    let stage = remote(alloc)?;
    let mut mail = waiting(alloc)?;
    mail.stage = stage;
    Ok(mail)
}

#[test]
fn names_replies_and_mails(rt: HostRuntime) -> Result<(), Fail> {
    let name = Name::first(rt.alloc(), 7);
    assert_so(&rt, name_len(&name) == 12, "a first name");
    let reply = reply(rt.alloc())?;
    assert_so(&rt, reply_len(&reply) == 8, "a reply");
    let waiting = waiting(rt.alloc())?;
    assert_so(&rt, name_len(&waiting.name) == 20, "a grandchild");
    assert_so(&rt, mail_len(&waiting) == 96, "one that waits");
    let leaving = leaving(rt.alloc())?;
    assert_so(&rt, mail_len(&leaving) == 106, "one that leaves");
    Ok(())
}

/// How many bytes the entry of this step has: 1 for its kind, 12 for a first name, 4 for each of its three lists, and what
/// stands in these.
fn entry_len(alloc: Global, replies: &Items<Reply>, outcome: &Outcome) -> u64 {
    done_len(&Name::first(alloc, 7), replies, outcome)
}

fn nothing_len(alloc: Global) -> u64 {
    entry_len(alloc, &Items::new(alloc), &Outcome::nothing(alloc))
}

fn bounce_len(alloc: Global) -> Result<u64, Fail> {
    let bounce = told(alloc, &Kind::Bounce)?;
    let outcome = Outcome::one_fact(alloc, bounce)?;
    let mut replies = Items::new(alloc);
    replies.push(reply(alloc)?)?;
    Ok(entry_len(alloc, &replies, &outcome))
}

fn child_len(alloc: Global) -> Result<u64, Fail> {
    let outcome = Outcome::one_child(alloc, waiting(alloc)?)?;
    Ok(entry_len(alloc, &Items::new(alloc), &outcome))
}

#[test]
fn entries(rt: HostRuntime) -> Result<(), Fail> {
    let alloc = rt.alloc();
    assert_so(&rt, nothing_len(alloc) == 25, "nothing");
    assert_so(&rt, bounce_len(alloc)? == 25 + 8 + 17, "a reply and a fact");
    assert_so(&rt, child_len(alloc)? == 25 + 96, "a child");
    Ok(())
}

/// A deposit of a body of so many bytes, without repository, sender, recipients and fields: 1 for the kind, 4, 1, 4 and 4 for
/// what is empty, and 5 before the body.
fn deposit_of(alloc: Global, count: usize) -> Result<Outcome, Fail> {
    let made = vec![in alloc; b'x'; count]?;
    let fact = Fact::Deposit {
        repository: Bytes::new(alloc),
        sender: None,
        recipients: Recipients::new(alloc),
        head: Head::new(alloc),
        body: Body::Made(Bytes::from_vec(made)),
    };
    Ok(Outcome::one_fact(alloc, fact)?)
}

/// Bytes of bodies, and whether the entry fits: it has 25 and 19 more, and the limit is 67,108,864.
const BODIES: [(usize, bool); 3] = [(0, true), (67_108_820, true), (67_108_821, false)];

fn fits(alloc: Global, count: usize) -> Result<bool, Fail> {
    let outcome = deposit_of(alloc, count)?;
    Ok(done_fits(&Name::first(alloc, 7), &Items::new(alloc), &outcome))
}

#[test]
fn the_limit_and_one_byte_more(rt: HostRuntime) -> Result<(), Fail> {
    for (count, want) in BODIES {
        let fits = fits(rt.alloc(), count)?;
        assert!(rt; fits == want, "at {count}");
    }
    Ok(())
}
