//! Strings, addresses and heads.
ghost use Rattle.std.specs.Prelude.{◌≡◌, length};
ghost use Rattle.mj_fields.specs.Fields.{with_length};
ghost use Rattle.mj_mail.specs.Entry.{address_form, head_form, pair_form, recipients_form, sender_form};
ghost use Rattle.mj_entry_len.specs.Stored.{stored};

use mj_address::{Address, Recipients};
use mj_head::Head;

/// How many bytes a string has behind its length of four bytes.
pub(crate) fn bytes_len(text: &[u8]) -> u64
    ensures { result ≡ stored (length (with_length text.now)) }
{
    (text.len() as u64).saturating_add(4)
}

/// How many bytes two strings have, each behind its length.
pub(crate) fn pair_len(first: &[u8], second: &[u8]) -> u64
    ensures { result ≡ stored (length (pair_form (first.now, second.now))) }
{
    bytes_len(first).saturating_add(bytes_len(second))
}

/// How many bytes an address has: its local part and its domain.
pub(crate) fn address_len(address: &Address) -> u64
    ensures { result ≡ stored (length (address_form address.now)) }
{
    pair_len(address.local(), address.domain().as_slice())
}

/// How many bytes a sender has: one for the null reverse-path, else one more than the address.
pub(crate) fn sender_len(sender: &Option<Address>) -> u64
    ensures { result ≡ stored (length (sender_form sender.now)) }
{
    match sender {
        Some(address) => address_len(address).saturating_add(1),
        None => 1,
    }
}

/// How many bytes a list of recipients has: four for their number, and their addresses.
pub(crate) fn recipients_len(recipients: &Recipients) -> u64
    ensures { result ≡ stored (length (recipients_form recipients.now)) }
{
    let mut total: u64 = 4;
    for address in recipients.as_slice() {
        total = total.saturating_add(address_len(address));
    }
    total
}

/// How many bytes a head has: four for the number of its fields, and of each field the name and the raw body behind their
/// lengths, where the written form (RFC 5322, 2.2) has a colon and a CRLF. It counts the ends of fields.
#[tactic(auto, using(crate::proofs::Heads::fields_len))]
pub(crate) fn head_len(head: &Head) -> u64
    ensures { result ≡ stored (length (head_form head.now)) }
{
    let lengths = (head.len() as u64).saturating_mul(5);
    (head.written_len() as u64)
        .saturating_add(lengths)
        .saturating_add(4)
}
