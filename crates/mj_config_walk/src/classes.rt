//! The classes of mailets.

/// The classes of mailets.
#[derive(Clone, Copy)]
pub enum Class {
    ToProcessor,
    Null,
    SetMailAttribute,
    RemoveMailAttribute,
    RemoveAllMailAttributes,
    SetMimeHeader,
    RemoveMimeHeader,
    MailAttributesToMimeHeaders,
    AddSubjectPrefix,
    RecipientToLowerCase,
    PostmasterAlias,
    RecipientRewriteTable,
    Forward,
    Bounce,
    NotifyPostmaster,
    LocalDelivery,
    ToRepository,
    RemoteDelivery,
    Fail,
}
