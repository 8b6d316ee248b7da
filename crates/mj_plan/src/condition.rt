use crate::{Listed, User};
use mj_address::{Address, Domain};
use mj_fields::Bytes;

/// How two numbers stand to each other.
#[derive(Clone, Copy, Debug, PartialEq, Eq)]
pub enum Relation {
    Less,
    AtMost,
    Equal,
    AtLeast,
    Greater,
}

/// What a matcher asks of a mail. Some ask it of each recipient; the others hold for all recipients or for none.
#[derive(Debug, Drop)]
pub enum Condition {
    /// Always.
    All,
    /// The recipient is one of these.
    RecipientIs(Listed<Address>),
    /// The recipient's domain is a local host and its local part a local user.
    RecipientIsLocal,
    /// The recipient's domain is one of these.
    HostIs(Listed<Domain>),
    /// The recipient's domain is a local host.
    HostIsLocal,
    /// The recipient's local part is one of these.
    UserIs(Listed<User<'static>>),
    /// The sender isn't null and is one of these.
    SenderIs(Listed<Address>),
    /// The sender isn't null and its domain is one of these.
    SenderHostIs(Listed<Domain>),
    /// The sender is null.
    SenderIsNull,
    /// The message has more than so many bytes.
    SizeGreaterThan(u64),
    /// There is a Subject, and it unfolds to this text.
    SubjectIs(Bytes),
    /// There is a Subject, and what it unfolds to begins with this text.
    SubjectStartsWith(Bytes),
    /// There is such a field; where a value is named, the first one unfolds to it.
    HasHeader {
        field: Bytes,
        value: Option<Bytes>,
    },
    /// The mail has this attribute.
    HasMailAttribute(Bytes),
    /// The mail has this attribute with this value.
    HasMailAttributeWithValue {
        name: Bytes,
        value: Bytes,
    },
    /// The mail has at least so many fields `Received`.
    RelayLimit(u32),
    /// The mail has one recipient.
    IsSingleRecipient,
    /// The mail has more than so many recipients.
    TooManyRecipients(u32),
    /// The first such field, unfolded, is a number that stands so to this one.
    CompareNumericHeaderValue {
        field: Bytes,
        relation: Relation,
        number: u64,
    },
    /// Remote delivery has failed for good.
    IsRemoteDeliveryPermanentError,
    /// Remote delivery has failed, and not for good.
    IsRemoteDeliveryTemporaryError,
    /// Remote delivery has failed with this reply code of three digits.
    RemoteDeliveryFailedWithSMTPCode(Bytes),
    /// Never: this one fails, which serves to try out the routes of failures.
    Fail,
}
