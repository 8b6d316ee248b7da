//! Reading of entries.
ghost use Rattle.std.specs.Prelude.{◌≡◌, Err, IfOk};
ghost use Rattle.mj_mail.specs.Entry.{entry_form};
ghost use Rattle.mj_mail.specs.declared.entry.Entry.{Entry};
ghost use Rattle.mj_entry_rows.specs.Forms.{IsEntry};
ghost use Rattle.mj_entry_rows.specs.Readings.{list_in};
ghost use Rattle.mj_entry_rows.specs.Items.{accept_in, done_in, entry_in, entry_of, fact_in, mail_in, outcome_of, reply_in};
ghost use Rattle.mj_entry_items.specs.Taken.{Takes};
ghost use Rattle.mj_record.specs.Reads.{Reads};
ghost use Rattle.mj_entry_items.specs.declared.fault.EntryFault.TheVariants.{Bad};

use crate::fact::{take_fact, take_reply};
use crate::mail::{take_mail, take_new_mail};
use mj_entry_items::{EntryFault, Reader, take_name};
use mj_fields::Items;
use mj_mail::{Entry, Fact, Mail, Outcome, Reply};
use std::alloc::Global;

/// The entry that these bytes are: a number for its kind and what it tells, one item behind the other, as
/// [`entry_len`](crate::entry_len) counts them. The bytes are `Bad` exactly where no entry has this form: where they end within
/// an item, an item hasn't the form of its type, or bytes are left behind the last item. A list of recipients isn't empty, and
/// no two of it are the same; attributes are at most [`MAX_ATTRIBUTES`](mj_mail::MAX_ATTRIBUTES), with ascending names; fields
/// make a head; and a reply has the form of one. No length and no count takes memory before its bytes are there. Without room
/// for the entry there is `Memory`.
pub fn read_entry(alloc: Global, bytes: &[u8]) -> Result<Entry, EntryFault>
    // What is read is an entry of this form.
    ensures form { IfOk result (λ entry. entry_form entry ≡ bytes.now) }
    ensures entry { IfOk result (λ entry. IsEntry entry) }
    // Bytes are refused exactly where no entry has their form.
    ensures bad { result ≡ Err Bad → (entry : Entry) → IsEntry entry → entry_form entry ≡ bytes.now → ⊥ }
    // So an entry that was written is read again.
    ensures again { (entry : Entry) → IsEntry entry → entry_form entry ≡ bytes.now → IfOk result (λ read. read ≡ entry) }
{
    read_whole(alloc, bytes)
}

/// The entry that these bytes are, with nothing behind it.
fn read_whole(alloc: Global, bytes: &[u8]) -> Result<Entry, EntryFault>
    ensures { Reads result (entry_of bytes.now) }
{
    let mut reader = Reader::new(alloc, bytes);
    let entry = take_entry(&mut reader)?;
    if !reader.is_at_end() {
        return Err(EntryFault::Bad);
    }
    Ok(entry)
}

/// An entry.
fn take_entry(reader: &mut Reader) -> Result<Entry, EntryFault>
    ensures { Takes result (entry_in reader.old) reader.new }
{
    match reader.byte()? {
        0 => {
            let plan = reader.string()?;
            Ok(Entry::Setup { plan })
        }
        1 => take_accept(reader),
        2 => take_done(reader),
        _ => Err(EntryFault::Bad),
    }
}

/// A mail that was accepted: its number, its file and the new mail.
fn take_accept(reader: &mut Reader) -> Result<Entry, EntryFault>
    ensures { Takes result (accept_in reader.old) reader.new }
{
    let number = reader.long()?;
    let file = reader.string()?;
    let mail = take_new_mail(reader)?;
    Ok(Entry::Accept { number, file, mail })
}

/// A step of a mail: its name, the replies, and what it became.
fn take_done(reader: &mut Reader) -> Result<Entry, EntryFault>
    ensures { Takes result (done_in reader.old) reader.new }
{
    let name = take_name(reader)?;
    let replies = take_replies(reader)?;
    let facts = take_facts(reader)?;
    let children = take_mails(reader)?;
    Ok(Entry::Done {
        name,
        replies,
        outcome: Outcome { facts, children },
    })
}

/// A list of replies.
#[tactic(auto, using(mj_entry_items::proofs::Turns::one_more, mj_entry_items::proofs::Turns::none_more))]
fn take_replies(reader: &mut Reader) -> Result<Items<Reply>, EntryFault>
    ensures { Takes result (list_in reply_in reader.old) reader.new }
{
    let count = reader.word()?;
    let mut replies = Items::new(reader.alloc());
    for _ in 0..count {
        replies.push(take_reply(reader)?)?;
    }
    Ok(replies)
}

/// A list of facts.
#[tactic(auto, using(mj_entry_items::proofs::Turns::one_more, mj_entry_items::proofs::Turns::none_more))]
fn take_facts(reader: &mut Reader) -> Result<Items<Fact>, EntryFault>
    ensures { Takes result (list_in fact_in reader.old) reader.new }
{
    let count = reader.word()?;
    let mut facts = Items::new(reader.alloc());
    for _ in 0..count {
        facts.push(take_fact(reader)?)?;
    }
    Ok(facts)
}

/// A list of mails.
#[tactic(auto, using(mj_entry_items::proofs::Turns::one_more, mj_entry_items::proofs::Turns::none_more))]
fn take_mails(reader: &mut Reader) -> Result<Items<Mail>, EntryFault>
    ensures { Takes result (list_in mail_in reader.old) reader.new }
{
    let count = reader.word()?;
    let mut mails = Items::new(reader.alloc());
    for _ in 0..count {
        mails.push(take_mail(reader)?)?;
    }
    Ok(mails)
}
