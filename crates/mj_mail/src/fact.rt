ghost use Rattle.std.specs.Prelude.{◌≡◌, IfOk};
ghost use Rattle.mj_mail.specs.declared.fact.Fact.TheVariants.{Deposit, FellOff, Retry, Sent};
ghost use Rattle.mj_mail.specs.Outcome.{nothing, one_child, one_fact, numbered};

use crate::number::number_children;
use crate::{Body, Mail, Reply, copy_envelope, copy_message};
use mj_address::{Address, Domain, Recipients};
use mj_fields::{Bytes, Items, Memory};
use mj_head::Head;
use std::alloc::Global;

/// Why a mail was dropped.
#[derive(Clone, Copy, Debug, PartialEq, Eq)]
pub enum Why {
    /// It was sent to the state `ghost`, in which all processing ends.
    Discarded,
    /// A notice was due to its sender, which is the null reverse-path (RFC 5321, 4.5.5).
    NoReturnPath,
}

/// What has happened to a mail.
#[derive(Debug, Drop)]
pub enum Fact {
    /// It was put into a repository, for these recipients.
    Deposit {
        repository: Bytes,
        sender: Option<Address>,
        recipients: Recipients,
        head: Head,
        body: Body,
    },
    /// A host took it for this recipient.
    Sent {
        host: Domain,
        recipient: Address,
        reply: Reply,
    },
    /// It is tried again for these recipients: the attempt of this number, which is due then.
    Retry {
        host: Domain,
        recipients: Recipients,
        attempt: u32,
        due: u64,
    },
    /// Its sender was told that it couldn't be delivered to these recipients.
    Bounce {
        recipients: Recipients,
    },
    /// It was given up for these recipients.
    Dropped {
        why: Why,
        recipients: Recipients,
    },
    /// It came past the last step of this processor.
    FellOff {
        processor: Bytes,
        recipients: Recipients,
    },
    /// It has been sent from processor to processor too often.
    Looped {
        recipients: Recipients,
    },
    /// What becomes of it is too large to be kept.
    Overrun,
}

/// What one step makes of a mail: the facts about it, and the mails that it becomes, each in order.
#[derive(Debug, Drop)]
pub struct Outcome {
    pub facts: Items<Fact>,
    pub children: Items<Mail>,
}

impl Fact {
    /// What was put into a repository: an equal envelope and an equal message.
    pub fn deposit(
        alloc: Global,
        repository: &Bytes,
        envelope: (&Option<Address>, &Recipients),
        message: (&Head, &Body),
    ) -> Result<Fact, Memory>
        ensures { IfOk result (λ fact. fact ≡ Deposit repository.now envelope.entry.0.now envelope.entry.1.now message.entry.0.now message.entry.1.now) }
    {
        let repository = repository.copy(alloc)?;
        let (sender, recipients) = copy_envelope(alloc, envelope.0, envelope.1)?;
        let (head, body) = copy_message(alloc, message.0, message.1)?;
        Ok(Fact::Deposit {
            repository,
            sender,
            recipients,
            head,
            body,
        })
    }

    /// An equal value with room of its own.
    pub fn copy(&self, alloc: Global) -> Result<Fact, Memory>
        ensures { IfOk result (λ fact. fact ≡ self.now) }
    {
        match self {
            Fact::Deposit {
                repository,
                sender,
                recipients,
                head,
                body,
            } => Fact::deposit(alloc, repository, (sender, recipients), (head, body)),
            Fact::Sent {
                host,
                recipient,
                reply,
            } => sent(alloc, host, recipient, reply),
            Fact::Retry {
                host,
                recipients,
                attempt,
                due,
            } => retry(alloc, host, recipients, *attempt, *due),
            Fact::Bounce { recipients } => Ok(Fact::Bounce {
                recipients: recipients.copy(alloc)?,
            }),
            Fact::Dropped { why, recipients } => Ok(Fact::Dropped {
                why: *why,
                recipients: recipients.copy(alloc)?,
            }),
            Fact::FellOff {
                processor,
                recipients,
            } => fell_off(alloc, processor, recipients),
            Fact::Looped { recipients } => Ok(Fact::Looped {
                recipients: recipients.copy(alloc)?,
            }),
            Fact::Overrun => Ok(Fact::Overrun),
        }
    }
}

fn sent(alloc: Global, host: &Domain, recipient: &Address, reply: &Reply) -> Result<Fact, Memory>
    ensures { IfOk result (λ fact. fact ≡ Sent host.now recipient.now reply.now) }
{
    let host = host.copy(alloc)?;
    let recipient = recipient.copy(alloc)?;
    let reply = reply.copy(alloc)?;
    Ok(Fact::Sent {
        host,
        recipient,
        reply,
    })
}

fn retry(
    alloc: Global,
    host: &Domain,
    recipients: &Recipients,
    attempt: u32,
    due: u64,
) -> Result<Fact, Memory>
    ensures { IfOk result (λ fact. fact ≡ Retry host.now recipients.now attempt due) }
{
    let host = host.copy(alloc)?;
    let recipients = recipients.copy(alloc)?;
    Ok(Fact::Retry {
        host,
        recipients,
        attempt,
        due,
    })
}

fn fell_off(alloc: Global, processor: &Bytes, recipients: &Recipients) -> Result<Fact, Memory>
    ensures { IfOk result (λ fact. fact ≡ FellOff processor.now recipients.now) }
{
    let processor = processor.copy(alloc)?;
    let recipients = recipients.copy(alloc)?;
    Ok(Fact::FellOff {
        processor,
        recipients,
    })
}

impl Outcome {
    /// Neither facts nor children. It takes no memory.
    pub fn nothing(alloc: Global) -> Outcome
        ensures { result ≡ nothing }
    {
        Outcome {
            facts: Items::new(alloc),
            children: Items::new(alloc),
        }
    }

    /// This fact alone.
    pub fn one_fact(alloc: Global, fact: Fact) -> Result<Outcome, Memory>
        ensures { IfOk result (λ outcome. outcome ≡ one_fact fact) }
    {
        let mut outcome = Outcome::nothing(alloc);
        outcome.facts.push(fact)?;
        Ok(outcome)
    }

    /// This child alone.
    pub fn one_child(alloc: Global, child: Mail) -> Result<Outcome, Memory>
        ensures { IfOk result (λ outcome. outcome ≡ one_child child) }
    {
        let mut outcome = Outcome::nothing(alloc);
        outcome.children.push(child)?;
        Ok(outcome)
    }

    /// The same, where each child's name has its number at the end, from 1.
    pub fn numbered(self, alloc: Global) -> Result<Outcome, Memory>
        ensures { IfOk result (λ outcome. outcome ≡ numbered self) }
    {
        let children = number_children(alloc, self.children)?;
        Ok(Outcome {
            facts: self.facts,
            children,
        })
    }

    /// An equal value with room of its own.
    pub fn copy(&self, alloc: Global) -> Result<Outcome, Memory>
        ensures { IfOk result (λ outcome. outcome ≡ self.now) }
    {
        let facts = copy_facts(alloc, self.facts.as_slice())?;
        let children = copy_mails(alloc, self.children.as_slice())?;
        Ok(Outcome { facts, children })
    }
}

fn copy_facts(alloc: Global, facts: &[Fact]) -> Result<Items<Fact>, Memory>
    ensures { IfOk result (λ copies. copies ≡ facts.now) }
{
    let mut copies = Items::new(alloc);
    for fact in facts {
        copies.push(fact.copy(alloc)?)?;
    }
    Ok(copies)
}

fn copy_mails(alloc: Global, mails: &[Mail]) -> Result<Items<Mail>, Memory>
    ensures { IfOk result (λ copies. copies ≡ mails.now) }
{
    let mut copies = Items::new(alloc);
    for mail in mails {
        copies.push(mail.copy(alloc)?)?;
    }
    Ok(copies)
}
