//! Conditions: a name, and maybe an argument.
ghost use Rattle.std.specs.Prelude.{◌≡◌, map};
ghost use Rattle.std.specs.Option.{option_copied};
ghost use Rattle.mj_config_walk.specs.Values.{Gives};
ghost use Rattle.mj_config_walk.specs.Conditions.{argued_condition, condition, condition_named, name_in, name_rows, named, plain_condition, trimmed_argument};

use crate::arguments::{
    attribute_value, bare, comparison, given, header, listed_addresses, listed_domains,
    listed_users, whole_text,
};
use crate::numbers::{count, size};
use mj_config_values::{TextForm, cut, formed, is};
use mj_config_walk::{Argued, Name, Plain, PlanKind, Refusal};
use mj_head::trim_blanks;
use mj_plan::Condition;
use std::alloc::Global;

/// The names of all conditions.
const NAMES: [(&str, Name); 23] = [
    ("All", Name::Plain(Plain::All)),
    ("RecipientIs", Name::Argued(Argued::RecipientIs)),
    ("RecipientIsLocal", Name::Plain(Plain::RecipientIsLocal)),
    ("HostIs", Name::Argued(Argued::HostIs)),
    ("HostIsLocal", Name::Plain(Plain::HostIsLocal)),
    ("UserIs", Name::Argued(Argued::UserIs)),
    ("SenderIs", Name::Argued(Argued::SenderIs)),
    ("SenderHostIs", Name::Argued(Argued::SenderHostIs)),
    ("SenderIsNull", Name::Plain(Plain::SenderIsNull)),
    ("SizeGreaterThan", Name::Argued(Argued::SizeGreaterThan)),
    ("SubjectIs", Name::Argued(Argued::SubjectIs)),
    ("SubjectStartsWith", Name::Argued(Argued::SubjectStartsWith)),
    ("HasHeader", Name::Argued(Argued::HasHeader)),
    ("HasMailAttribute", Name::Argued(Argued::HasMailAttribute)),
    (
        "HasMailAttributeWithValue",
        Name::Argued(Argued::HasMailAttributeWithValue),
    ),
    ("RelayLimit", Name::Argued(Argued::RelayLimit)),
    ("IsSingleRecipient", Name::Plain(Plain::IsSingleRecipient)),
    ("TooManyRecipients", Name::Argued(Argued::TooManyRecipients)),
    (
        "CompareNumericHeaderValue",
        Name::Argued(Argued::CompareNumericHeaderValue),
    ),
    (
        "IsRemoteDeliveryPermanentError",
        Name::Plain(Plain::IsRemoteDeliveryPermanentError),
    ),
    (
        "IsRemoteDeliveryTemporaryError",
        Name::Plain(Plain::IsRemoteDeliveryTemporaryError),
    ),
    (
        "RemoteDeliveryFailedWithSMTPCode",
        Name::Argued(Argued::RemoteDeliveryFailedWithSMTPCode),
    ),
    ("Fail", Name::Plain(Plain::Fail)),
];

/// The condition of a text: a name, and maybe an argument behind `=`.
pub(crate) fn condition(alloc: Global, text: &[u8]) -> Result<Condition, Refusal>
    ensures { Gives result (condition text.now) }
{
    let (name, argument) = cut(b'=', text);
    condition_named(alloc, name, trimmed_argument(argument))
}

fn trimmed_argument(argument: Option<&[u8]>) -> Option<&[u8]>
    ensures { option_copied result ≡ trimmed_argument (option_copied argument.entry) }
{
    match argument {
        Some(text) => Some(trim_blanks(text)),
        None => None,
    }
}

/// The condition of this name with this argument.
fn condition_named(
    alloc: Global,
    name: &[u8],
    argument: Option<&[u8]>,
) -> Result<Condition, Refusal>
    ensures { Gives result (condition_named name.now (option_copied argument.entry)) }
{
    match name_of(name) {
        Some(name) => named(alloc, name, argument),
        None => Err(Refusal::Kind(PlanKind::UnknownMatcher)),
    }
}

fn named(alloc: Global, name: Name, argument: Option<&[u8]>) -> Result<Condition, Refusal>
    ensures { Gives result (named name (option_copied argument.entry)) }
{
    match name {
        Name::Plain(name) => bare(plain_condition(name), argument),
        Name::Argued(name) => argued_condition(alloc, name, given(argument)?),
    }
}

/// The name that a text is.
fn name_of(text: &[u8]) -> Option<Name>
    ensures { result ≡ name_in name_rows text.now }
{
    name_in(&NAMES, text)
}

/// The name that stands behind this text in the rows.
fn name_in(rows: &[(&str, Name)], text: &[u8]) -> Option<Name>
    ensures { result ≡ name_in (map (λ row. (row.0.now, row.1)) rows.now) text.now }
{
    for row in rows {
        if is(text, row.0) {
            return Some(row.1);
        }
    }
    None
}

fn plain_condition(name: Plain) -> Condition
    ensures { result ≡ plain_condition name }
{
    match name {
        Plain::All => Condition::All,
        Plain::RecipientIsLocal => Condition::RecipientIsLocal,
        Plain::HostIsLocal => Condition::HostIsLocal,
        Plain::SenderIsNull => Condition::SenderIsNull,
        Plain::IsSingleRecipient => Condition::IsSingleRecipient,
        Plain::IsRemoteDeliveryPermanentError => Condition::IsRemoteDeliveryPermanentError,
        Plain::IsRemoteDeliveryTemporaryError => Condition::IsRemoteDeliveryTemporaryError,
        Plain::Fail => Condition::Fail,
    }
}

/// The condition of a name that wants an argument, which is this text.
fn argued_condition(alloc: Global, name: Argued, text: &[u8]) -> Result<Condition, Refusal>
    ensures { Gives result (argued_condition name text.now) }
{
    match name {
        Argued::RecipientIs => Ok(Condition::RecipientIs(listed_addresses(alloc, text)?)),
        Argued::HostIs => Ok(Condition::HostIs(listed_domains(alloc, text)?)),
        Argued::UserIs => Ok(Condition::UserIs(listed_users(alloc, text)?)),
        Argued::SenderIs => Ok(Condition::SenderIs(listed_addresses(alloc, text)?)),
        Argued::SenderHostIs => Ok(Condition::SenderHostIs(listed_domains(alloc, text)?)),
        Argued::SizeGreaterThan => Ok(Condition::SizeGreaterThan(size(text)?)),
        Argued::SubjectIs => Ok(Condition::SubjectIs(whole_text(alloc, text)?)),
        Argued::SubjectStartsWith => Ok(Condition::SubjectStartsWith(whole_text(alloc, text)?)),
        Argued::HasHeader => header(alloc, text),
        Argued::HasMailAttribute => Ok(Condition::HasMailAttribute(formed(
            alloc,
            TextForm::AttributeName,
            text,
        )?)),
        Argued::HasMailAttributeWithValue => attribute_value(alloc, text),
        Argued::RelayLimit => Ok(Condition::RelayLimit(count(text)?)),
        Argued::TooManyRecipients => Ok(Condition::TooManyRecipients(count(text)?)),
        Argued::CompareNumericHeaderValue => comparison(alloc, text),
        Argued::RemoteDeliveryFailedWithSMTPCode => Ok(Condition::RemoteDeliveryFailedWithSMTPCode(
            formed(alloc, TextForm::ReplyCode, text)?,
        )),
    }
}
