//! Entries.
ghost use Rattle.std.specs.Prelude.{◌≡◌, length};
ghost use Rattle.mj_mail.specs.Entry.{entry_form, new_mail_form};
ghost use Rattle.mj_entry_len.specs.Stored.{stored};

use crate::done::done_len;
use crate::mail::envelope_len;
use crate::parts::{bytes_len, head_len};
use mj_mail::{Entry, NewMail};

/// How many bytes an entry has, without writing it.
pub fn entry_len(entry: &Entry) -> u64
    ensures { result ≡ stored (length (entry_form entry.now)) }
{
    match entry {
        Entry::Setup { plan } => bytes_len(plan.as_slice()).saturating_add(1),
        Entry::Accept { file, mail, .. } => bytes_len(file.as_slice())
            .saturating_add(new_mail_len(mail))
            .saturating_add(9),
        Entry::Done {
            name,
            replies,
            outcome,
        } => done_len(name, replies, outcome),
    }
}

/// How many bytes a new mail has: its envelope, its head and its body.
fn new_mail_len(mail: &NewMail) -> u64
    ensures { result ≡ stored (length (new_mail_form mail.now)) }
{
    envelope_len(&mail.sender, &mail.recipients)
        .saturating_add(head_len(&mail.head))
        .saturating_add(bytes_len(mail.body.as_slice()))
}
