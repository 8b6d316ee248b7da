//! The names of conditions.

/// The names of the conditions that take no argument.
#[derive(Clone, Copy)]
pub enum Plain {
    All,
    RecipientIsLocal,
    HostIsLocal,
    SenderIsNull,
    IsSingleRecipient,
    IsRemoteDeliveryPermanentError,
    IsRemoteDeliveryTemporaryError,
    Fail,
}

/// The names of the conditions that want an argument.
#[derive(Clone, Copy)]
pub enum Argued {
    RecipientIs,
    HostIs,
    UserIs,
    SenderIs,
    SenderHostIs,
    SizeGreaterThan,
    SubjectIs,
    SubjectStartsWith,
    HasHeader,
    HasMailAttribute,
    HasMailAttributeWithValue,
    RelayLimit,
    TooManyRecipients,
    CompareNumericHeaderValue,
    RemoteDeliveryFailedWithSMTPCode,
}

/// The name of a condition.
#[derive(Clone, Copy)]
pub enum Name {
    Plain(Plain),
    Argued(Argued),
}
