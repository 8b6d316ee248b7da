//! Conditions that are judged once a mail, since they don't look at its recipients.
ghost use Rattle.std.specs.Prelude.{◌≡◌, ◌&&◌, codes, true, false, IfOk};
ghost use Rattle.std.specs.Option.{option_map_or};
ghost use Rattle.std.specs.Str.{bytes_eq};
ghost use Rattle.std.specs.Str.Parse.{digits_value};
ghost use Rattle.mj_plan.specs.declared.plan.Plan.{Plan};
ghost use Rattle.mj_container.specs.Matching.{Mailbox, begins_with, has_attribute, has_field, has_sender, holds, is_address_of, is_host_of, is_long_numeral, stands_to};
ghost use Rattle.mj_match.specs.Conditions.{is_of_recipient};

use crate::numerals::long_number;
use mj_address::{Address, Domain};
use mj_fields::{Bytes, Memory};
use mj_mail::Mail;
use mj_plan::{Condition, Listed, Relation};
use std::alloc::Global;

/// Whether the condition, which doesn't look at recipients, holds for the mail. Unfolding a field takes memory.
pub(crate) fn holds_for_all(
    alloc: Global,
    condition: &Condition,
    mail: &Mail,
) -> Result<bool, Memory>
    requires { is_of_recipient condition.now ≡ false }
    ensures { IfOk result (λ truth. (plan : Plan) (r : Mailbox) → holds plan mail.now r condition.now ≡ truth) }
{
    match condition {
        Condition::All => Ok(true),
        Condition::SenderIs(addresses) => Ok(sender_is(addresses, mail)),
        Condition::SenderHostIs(hosts) => Ok(sender_host_is(hosts, mail)),
        Condition::SenderIsNull => Ok(mail.sender.is_none()),
        Condition::SizeGreaterThan(bytes) => Ok(mail.size() > *bytes),
        Condition::SubjectIs(text) => subject_is(alloc, text.as_slice(), mail),
        Condition::SubjectStartsWith(front) => subject_starts_with(alloc, front.as_slice(), mail),
        Condition::HasHeader { field, value } => has_header(alloc, field.as_slice(), value, mail),
        Condition::HasMailAttribute(name) => Ok(mail.attributes.get(name.as_slice()).is_some()),
        Condition::HasMailAttributeWithValue { name, value } => {
            Ok(attribute_is(name.as_slice(), value.as_slice(), mail))
        }
        Condition::RelayLimit(most) => Ok(mail.head.count(b"Received") >= *most as usize),
        Condition::IsSingleRecipient => Ok(mail.recipients.len() == 1),
        Condition::TooManyRecipients(most) => Ok(mail.recipients.len() > *most as usize),
        Condition::CompareNumericHeaderValue {
            field,
            relation,
            number,
        } => compare_numeric_header_value(alloc, field.as_slice(), *relation, *number, mail),
        Condition::IsRemoteDeliveryPermanentError => {
            Ok(attribute_is(b"is-delivery-permanent-error", b"true", mail))
        }
        Condition::IsRemoteDeliveryTemporaryError => {
            Ok(attribute_is(b"is-delivery-permanent-error", b"false", mail))
        }
        Condition::RemoteDeliveryFailedWithSMTPCode(code) => {
            Ok(attribute_is(b"delivery-error-code", code.as_slice(), mail))
        }
        _ => Ok(false),
    }
}

fn sender_is(addresses: &Listed<Address>, mail: &Mail) -> bool
    ensures { result ≡ has_sender (is_address_of addresses.now) mail.now }
{
    match &mail.sender {
        Some(sender) => addresses.contains(sender),
        None => false,
    }
}

fn sender_host_is(hosts: &Listed<Domain>, mail: &Mail) -> bool
    ensures { result ≡ has_sender (λ sender. is_host_of hosts.now sender.1) mail.now }
{
    match &mail.sender {
        Some(sender) => hosts.contains(sender.domain()),
        None => false,
    }
}

fn subject_is(alloc: Global, text: &[u8], mail: &Mail) -> Result<bool, Memory>
    ensures { IfOk result (λ truth. truth ≡ has_field (bytes_eq text.now) (codes "Subject") mail.now) }
{
    match mail.head.unfolded(alloc, b"Subject")? {
        Some(subject) => Ok(text == subject.as_slice()),
        None => Ok(false),
    }
}

fn subject_starts_with(alloc: Global, front: &[u8], mail: &Mail) -> Result<bool, Memory>
    ensures { IfOk result (λ truth. truth ≡ has_field (begins_with front.now) (codes "Subject") mail.now) }
{
    match mail.head.unfolded(alloc, b"Subject")? {
        Some(subject) => Ok(begins_with(subject.as_slice(), front)),
        None => Ok(false),
    }
}

/// Whether the text begins so.
fn begins_with(text: &[u8], front: &[u8]) -> bool
    ensures { result ≡ begins_with front.now text.now }
{
    text.starts_with(front)
}

fn has_header(
    alloc: Global,
    field: &[u8],
    value: &Option<Bytes>,
    mail: &Mail,
) -> Result<bool, Memory>
    ensures { IfOk result (λ truth. truth ≡ has_field (λ text. option_map_or (bytes_eq text) value.now true) field.now mail.now) }
{
    match mail.head.unfolded(alloc, field)? {
        Some(text) => Ok(is_or_any(text.as_slice(), value)),
        None => Ok(false),
    }
}

/// Whether the text is the value, where there is one.
fn is_or_any(text: &[u8], value: &Option<Bytes>) -> bool
    ensures { result ≡ option_map_or (bytes_eq text.now) value.now true }
{
    match value {
        Some(value) => text == value.as_slice(),
        None => true,
    }
}

/// Whether there is an attribute of this name with this value.
fn attribute_is(name: &[u8], value: &[u8], mail: &Mail) -> bool
    ensures { result ≡ has_attribute (bytes_eq value.now) name.now mail.now }
{
    match mail.attributes.get(name) {
        Some(held) => value == held,
        None => false,
    }
}

fn compare_numeric_header_value(
    alloc: Global,
    field: &[u8],
    relation: Relation,
    number: u64,
    mail: &Mail,
) -> Result<bool, Memory>
    ensures { IfOk result (λ truth. truth ≡ has_field (λ text. is_long_numeral text && stands_to relation (digits_value 10 text) number) field.now mail.now) }
{
    match mail.head.unfolded(alloc, field)? {
        Some(text) => Ok(text_stands_to(text.as_slice(), relation, number)),
        None => Ok(false),
    }
}

/// Whether the text is a number that stands so to this one.
fn text_stands_to(text: &[u8], relation: Relation, number: u64) -> bool
    ensures { result ≡ (is_long_numeral text.now && stands_to relation (digits_value 10 text.now) number) }
{
    match long_number(text) {
        Some(value) => stands_to(relation, value, number),
        None => false,
    }
}

fn stands_to(relation: Relation, number: u64, other: u64) -> bool
    ensures { result ≡ stands_to relation number other }
{
    match relation {
        Relation::Less => number < other,
        Relation::AtMost => number <= other,
        Relation::Equal => number == other,
        Relation::AtLeast => number >= other,
        Relation::Greater => number > other,
    }
}
