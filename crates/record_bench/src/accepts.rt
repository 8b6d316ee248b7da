//! Mails that are accepted, of one shape each.
ghost use Rattle.std.specs.Prelude.{◌≡◌, true, IfOk};
ghost use Rattle.mj_entry_write.specs.Whole.{is_whole};

use mj_address::{Address, Recipients};
use mj_fields::{Bytes, Memory};
use mj_head::{Head, HeadBuilder};
use mj_mail::{Entry, NewMail, put_number};
use mj_record::EntryFault;
use std::alloc::Global;

/// A mail with this head and this body, to these recipients. Without a recipient it is `Bad`.
fn accept(
    alloc: Global,
    recipients: Recipients,
    head: Head,
    body: Bytes,
) -> Result<Entry, EntryFault>
    ensures { IfOk result (λ entry. is_whole entry ≡ true) }
{
    if recipients.is_empty() {
        return Err(EntryFault::Bad);
    }
    let mail = NewMail {
        sender: None,
        recipients,
        head,
        body,
    };
    Ok(Entry::Accept {
        number: 1,
        file: Bytes::from_slice(alloc, b"1.mail")?,
        mail,
    })
}

/// So many bytes.
fn bytes_of(alloc: Global, len: usize) -> Result<Vec<u8>, Memory> {
    Ok(vec![in alloc; b'x'; len]?)
}

fn address(alloc: Global, number: u64) -> Result<Address, EntryFault> {
    let mut text = Bytes::from_slice(alloc, b"bob")?;
    put_number(alloc, &mut text, number)?;
    text.extend(b"@example.net")?;
    Address::read(alloc, text.as_slice()).map_err(|_| EntryFault::Memory)
}

fn recipients(alloc: Global, count: u64) -> Result<Recipients, EntryFault> {
    let mut recipients = Recipients::new(alloc);
    for number in 0..count {
        let address = address(alloc, number)?;
        recipients.add(address).map_err(|_| EntryFault::Memory)?;
    }
    Ok(recipients)
}

/// A head of so many fields, each of these bytes behind its name of one byte.
fn head(alloc: Global, count: u64, body: &[u8]) -> Result<Head, EntryFault> {
    let mut fields = HeadBuilder::new(alloc);
    for _ in 0..count {
        fields.add_raw(b"X", body).map_err(|_| EntryFault::Memory)?;
    }
    fields.finish(alloc).map_err(|_| EntryFault::Memory)
}

/// A mail to one recipient, with a body of so many bytes.
pub(crate) fn with_body(alloc: Global, len: usize) -> Result<Entry, EntryFault>
    ensures { IfOk result (λ entry. is_whole entry ≡ true) }
{
    let body = Bytes::from_vec(bytes_of(alloc, len)?);
    accept(alloc, recipients(alloc, 1)?, Head::new(alloc), body)
}

/// A mail to one recipient, with a head of so many fields, which has so many bytes together where they are enough for them.
pub(crate) fn with_fields(alloc: Global, count: u64, len: u64) -> Result<Entry, EntryFault>
    ensures { IfOk result (λ entry. is_whole entry ≡ true) }
{
    let each = len.checked_div(count).unwrap_or(0);
    let body = bytes_of(alloc, each.saturating_sub(4) as usize)?;
    let head = head(alloc, count, &body)?;
    accept(alloc, recipients(alloc, 1)?, head, Bytes::new(alloc))
}

/// A mail to so many recipients.
pub(crate) fn with_recipients(alloc: Global, count: u64) -> Result<Entry, EntryFault>
    ensures { IfOk result (λ entry. is_whole entry ≡ true) }
{
    accept(
        alloc,
        recipients(alloc, count)?,
        Head::new(alloc),
        Bytes::new(alloc),
    )
}
