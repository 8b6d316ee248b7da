//! Writing an entry.
ghost use Rattle.std.specs.Prelude.{◌≡◌, ◌++◌, ◌≤◌, true, length, IfOk, OnOk};
ghost use Rattle.mj_entry_rows.specs.Forms.{IsEntry, IsNewMail};
ghost use Rattle.mj_mail.specs.declared.entry.Entry.TheVariants.{Accept, Done};
ghost use Rattle.mj_mail.specs.declared.limits.TheConstants.{MAX_PAYLOAD};
ghost use Rattle.mj_mail.specs.Entry.{entry_form, new_mail_form};
ghost use Rattle.mj_entry_write.specs.Whole.{is_addressed, is_whole};

use crate::fact::{put_facts, put_replies};
use crate::mail::{put_envelope, put_mails, put_name};
use crate::parts::{put_head, put_long};
use mj_entry_len::entry_len;
use mj_fields::{Bytes, Items, Memory, put_bytes, put_u8};
use mj_mail::{Entry, Name, NewMail, Outcome, Reply};
use std::alloc::Global;

/// The entry as bytes: a number for its kind, and its items one behind the other. It asks for an entry in which no list of
/// recipients is empty and each reply has the form of one, and which has at most [`mj_mail::MAX_PAYLOAD`] bytes. It takes
/// memory once, for all bytes, and without it there is `Memory` alone.
pub fn write_entry(alloc: Global, entry: &Entry) -> Result<Bytes, Memory>
    requires whole { is_whole entry.now ≡ true }
    requires small { length (entry_form entry.now) ≤ MAX_PAYLOAD }
    ensures written { IfOk result (λ bytes. bytes ≡ entry_form entry.now) }
    // The entry has a form that is read again.
    ensures form { OnOk result (IsEntry entry.now) }
{
    let mut out = Bytes::from_vec(Vec::with_capacity(alloc, entry_len(entry) as usize)?);
    put_entry(&mut out, entry)?;
    Ok(out)
}

fn put_entry(out: &mut Bytes, entry: &Entry) -> Result<(), Memory>
    requires whole { is_whole entry.now ≡ true }
    requires small { length (entry_form entry.now) ≤ MAX_PAYLOAD }
    ensures written { OnOk result (out.new ≡ out.old ++ entry_form entry.now) }
    ensures form { OnOk result (IsEntry entry.now) }
{
    match entry {
        Entry::Setup { plan } => {
            put_u8(out, 0)?;
            put_bytes(out, plan.as_slice())
        }
        Entry::Accept { number, file, mail } => put_accept(out, *number, file.as_slice(), mail),
        Entry::Done {
            name,
            replies,
            outcome,
        } => put_done(out, name, replies, outcome),
    }
}

/// Puts that a mail was accepted: its number, the name of its file, and the mail.
fn put_accept(out: &mut Bytes, number: u64, file: &[u8], mail: &NewMail) -> Result<(), Memory>
    requires whole { is_whole (Accept number file.now mail.now) ≡ true }
    requires small { length (entry_form (Accept number file.now mail.now)) ≤ MAX_PAYLOAD }
    ensures written { OnOk result (out.new ≡ out.old ++ entry_form (Accept number file.now mail.now)) }
    ensures form { OnOk result (IsEntry (Accept number file.now mail.now)) }
{
    put_u8(out, 1)?;
    put_long(out, number)?;
    put_bytes(out, file)?;
    put_new_mail(out, mail)
}

/// Puts a new mail: its envelope, its head and its body.
fn put_new_mail(out: &mut Bytes, mail: &NewMail) -> Result<(), Memory>
    requires whole { is_addressed mail.now.recipients ≡ true }
    requires small { length (new_mail_form mail.now) ≤ MAX_PAYLOAD }
    ensures written { OnOk result (out.new ≡ out.old ++ new_mail_form mail.now) }
    ensures form { OnOk result (IsNewMail mail.now) }
{
    put_envelope(out, &mail.sender, &mail.recipients)?;
    put_head(out, &mail.head)?;
    put_bytes(out, mail.body.as_slice())
}

/// Puts that a mail took its step: its name, the replies, the facts and the children.
fn put_done(
    out: &mut Bytes,
    name: &Name,
    replies: &Items<Reply>,
    outcome: &Outcome,
) -> Result<(), Memory>
    requires whole { is_whole (Done name.now replies.now outcome.now) ≡ true }
    requires small { length (entry_form (Done name.now replies.now outcome.now)) ≤ MAX_PAYLOAD }
    ensures written { OnOk result (out.new ≡ out.old ++ entry_form (Done name.now replies.now outcome.now)) }
    ensures form { OnOk result (IsEntry (Done name.now replies.now outcome.now)) }
{
    put_u8(out, 2)?;
    put_name(out, name)?;
    put_replies(out, replies)?;
    put_facts(out, &outcome.facts)?;
    put_mails(out, &outcome.children)
}
