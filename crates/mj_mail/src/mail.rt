ghost use Rattle.std.specs.Prelude.{◌≡◌, ◌<◌, ◌^◌, length, IfOk};
ghost use Rattle.mj_mail.specs.Mail.{body_len, first, restrict, size};

use crate::{Attributes, Name};
use mj_address::{Address, Domain, Recipients};
use mj_fields::{Bytes, Memory};
use mj_head::Head;
use std::alloc::Global;

/// A mail that comes in: its envelope (RFC 5321, 2.3.1), where no sender is the null reverse-path, and its
/// message.
#[derive(Debug, Drop)]
pub struct NewMail {
    pub sender: Option<Address>,
    pub recipients: Recipients,
    pub head: Head,
    pub body: Bytes,
}

/// Where a mail stands.
#[derive(Debug, Drop)]
pub enum Stage {
    /// It waits for the processor of that name.
    Process(Bytes),
    /// It waits to be sent to that host by the remote delivery of that name. Attempts count from 1.
    Remote {
        delivery: Bytes,
        host: Domain,
        attempt: u32,
    },
}

/// The body of a message.
#[derive(Debug, Drop)]
pub enum Body {
    /// The body with which the mail of that number was accepted, and its length in bytes.
    Original { number: u64, length: u32 },
    /// A body that was made on the way, as that of a notice.
    Made(Bytes),
}

/// A mail on its way through the processors.
#[derive(Debug, Drop)]
pub struct Mail {
    pub name: Name,
    pub sender: Option<Address>,
    pub recipients: Recipients,
    pub attributes: Attributes,
    pub stage: Stage,
    /// Why it came to where it stands, if something failed; else nothing.
    pub error: Bytes,
    pub head: Head,
    pub body: Body,
    /// How often it was sent to a processor.
    pub hops: u32,
    /// When it is due, in milliseconds since 1970-01-01T00:00:00Z.
    pub due: u64,
}

impl Stage {
    /// An equal value with room of its own.
    pub fn copy(&self, alloc: Global) -> Result<Stage, Memory>
        ensures { IfOk result (λ stage. stage ≡ self.now) }
    {
        match self {
            Stage::Process(state) => Ok(Stage::Process(state.copy(alloc)?)),
            Stage::Remote {
                delivery,
                host,
                attempt,
            } => Ok(Stage::Remote {
                delivery: delivery.copy(alloc)?,
                host: host.copy(alloc)?,
                attempt: *attempt,
            }),
        }
    }
}

impl Body {
    /// How many bytes the body has.
    pub fn len(&self) -> u64
        ensures len { result ≡ body_len self.now }
        ensures small { result < 2 ^ 63 }
    {
        match self {
            Body::Original { length, .. } => u64::from(*length),
            Body::Made(bytes) => bytes.len() as u64,
        }
    }

    /// How many bytes the whole message with this head has: the written head, the empty line and the body.
    pub fn message_size(&self, head: &Head) -> u64
        ensures { result ≡ size head.now self.now }
    {
        head.written_len() as u64 + 2 + self.len()
    }

    /// An equal value with room of its own.
    pub fn copy(&self, alloc: Global) -> Result<Body, Memory>
        ensures { IfOk result (λ body. body ≡ self.now) }
    {
        match self {
            Body::Original { number, length } => Ok(Body::Original {
                number: *number,
                length: *length,
            }),
            Body::Made(bytes) => Ok(Body::Made(bytes.copy(alloc)?)),
        }
    }
}

impl Mail {
    /// The size of its message in bytes: the written head, the empty line and the body.
    pub fn size(&self) -> u64
        ensures { result ≡ size self.now.head self.now.body }
    {
        self.body.message_size(&self.head)
    }

    /// The same mail for these recipients. The two share their head until one is changed.
    pub fn restrict(&self, alloc: Global, recipients: Recipients) -> Result<Mail, Memory>
        ensures { IfOk result (λ mail. mail ≡ restrict self.now recipients) }
    {
        let (name, sender) = copy_origin(alloc, &self.name, &self.sender)?;
        let (attributes, stage, error) = self.copy_standing(alloc)?;
        let (head, body) = copy_message(alloc, &self.head, &self.body)?;
        Ok(Mail {
            name,
            sender,
            recipients,
            attributes,
            stage,
            error,
            head,
            body,
            hops: self.hops,
            due: self.due,
        })
    }

    /// Where it stands, and what it has gathered on its way there.
    fn copy_standing(&self, alloc: Global) -> Result<(Attributes, Stage, Bytes), Memory>
        ensures { IfOk result (λ copied. copied ≡ (self.now.attributes, self.now.stage, self.now.error)) }
    {
        let attributes = self.attributes.copy(alloc)?;
        let stage = self.stage.copy(alloc)?;
        let error = self.error.copy(alloc)?;
        Ok((attributes, stage, error))
    }

    /// An equal value with room of its own, but for the head, which both share until one is changed.
    pub fn copy(&self, alloc: Global) -> Result<Mail, Memory>
        ensures { IfOk result (λ mail. mail ≡ self.now) }
    {
        let recipients = self.recipients.copy(alloc)?;
        self.restrict(alloc, recipients)
    }
}

impl NewMail {
    /// The mail that is accepted under this number: it waits for the processor `root`, and is due at `start`.
    pub fn first(&self, alloc: Global, start: u64, number: u64) -> Result<Mail, Memory>
        requires { length self.now.body < 2 ^ 32 }
        ensures { IfOk result (λ mail. mail ≡ first start number self.now) }
    {
        let length = self.body.len() as u32;
        let (sender, recipients) = copy_envelope(alloc, &self.sender, &self.recipients)?;
        let stage = Stage::Process(Bytes::from_slice(alloc, b"root")?);
        let head = self.head.copy()?;
        Ok(Mail {
            name: Name::first(alloc, number),
            sender,
            recipients,
            attributes: Attributes::new(alloc),
            stage,
            error: Bytes::new(alloc),
            head,
            body: Body::Original { number, length },
            hops: 0,
            due: start,
        })
    }

    /// An equal value with room of its own, but for the head, which both share until one is changed.
    pub fn copy(&self, alloc: Global) -> Result<NewMail, Memory>
        ensures { IfOk result (λ mail. mail ≡ self.now) }
    {
        let (sender, recipients) = copy_envelope(alloc, &self.sender, &self.recipients)?;
        let head = self.head.copy()?;
        let body = self.body.copy(alloc)?;
        Ok(NewMail {
            sender,
            recipients,
            head,
            body,
        })
    }
}

/// The name of a mail and its sender.
fn copy_origin(
    alloc: Global,
    name: &Name,
    sender: &Option<Address>,
) -> Result<(Name, Option<Address>), Memory>
    ensures { IfOk result (λ copied. copied ≡ (name.now, sender.now)) }
{
    let name = name.copy(alloc)?;
    let sender = copy_sender(alloc, sender)?;
    Ok((name, sender))
}

/// An equal envelope: a sender and recipients.
pub fn copy_envelope(
    alloc: Global,
    sender: &Option<Address>,
    recipients: &Recipients,
) -> Result<(Option<Address>, Recipients), Memory>
    ensures { IfOk result (λ copied. copied ≡ (sender.now, recipients.now)) }
{
    let sender = copy_sender(alloc, sender)?;
    let recipients = recipients.copy(alloc)?;
    Ok((sender, recipients))
}

/// An equal message: a head, which is shared until one is changed, and a body.
pub fn copy_message(alloc: Global, head: &Head, body: &Body) -> Result<(Head, Body), Memory>
    ensures { IfOk result (λ copied. copied ≡ (head.now, body.now)) }
{
    let head = head.copy()?;
    let body = body.copy(alloc)?;
    Ok((head, body))
}

/// An equal sender, or none where there is none.
pub fn copy_sender(alloc: Global, sender: &Option<Address>) -> Result<Option<Address>, Memory>
    ensures { IfOk result (λ copied. copied ≡ sender.now) }
{
    match sender {
        Some(address) => Ok(Some(address.copy(alloc)?)),
        None => Ok(None),
    }
}
