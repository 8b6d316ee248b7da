ghost use Rattle.std.specs.Prelude.{◌≡◌, IfOk};
ghost use Rattle.mj_mail.specs.declared.entry.Entry.TheVariants.{Accept, Done};

use crate::{Name, NewMail, Outcome, Reply};
use mj_fields::{Bytes, Items, Memory};
use std::alloc::Global;

/// An entry of the list that a journal keeps of its mails.
#[derive(Debug, Drop)]
pub enum Entry {
    /// From here on mails are carried by the configuration of these bytes.
    Setup {
        plan: Bytes,
    },
    /// The mail of the file of this name was accepted under this number. Numbers count from 1.
    Accept {
        number: u64,
        file: Bytes,
        mail: NewMail,
    },
    /// The mail of this name took its step: what hosts answered for each of its recipients, in order, and what it
    /// became. No host answers for a mail that waited for a processor.
    Done {
        name: Name,
        replies: Items<Reply>,
        outcome: Outcome,
    },
}

/// Why all work on mails stopped.
#[derive(Clone, Copy, Debug, PartialEq, Eq)]
pub enum Cause {
    /// Memory ran out.
    Memory,
    /// The journal, which ends at the byte `end`, has no room for an entry: with it the journal would end at `need`.
    Full { end: u64, need: u64 },
    /// The disk of the journal failed; its count of faults, which rose.
    DiskFault { faults: u64 },
    /// The wire of this worker failed.
    WireFault { worker: u32 },
}

impl Entry {
    /// An equal value with room of its own, but for the heads, which both share until one is changed. Without room for it
    /// there is `Memory` alone.
    pub fn copy(&self, alloc: Global) -> Result<Entry, Memory>
        ensures { IfOk result (λ entry. entry ≡ self.now) }
    {
        match self {
            Entry::Setup { plan } => Ok(Entry::Setup {
                plan: plan.copy(alloc)?,
            }),
            Entry::Accept { number, file, mail } => copy_accept(alloc, *number, file, mail),
            Entry::Done {
                name,
                replies,
                outcome,
            } => copy_done(alloc, name, replies, outcome),
        }
    }
}

fn copy_accept(alloc: Global, number: u64, file: &Bytes, mail: &NewMail) -> Result<Entry, Memory>
    ensures { IfOk result (λ entry. entry ≡ Accept number file.now mail.now) }
{
    let file = file.copy(alloc)?;
    let mail = mail.copy(alloc)?;
    Ok(Entry::Accept { number, file, mail })
}

fn copy_done(
    alloc: Global,
    name: &Name,
    replies: &Items<Reply>,
    outcome: &Outcome,
) -> Result<Entry, Memory>
    ensures { IfOk result (λ entry. entry ≡ Done name.now replies.now outcome.now) }
{
    let name = name.copy(alloc)?;
    let replies = copy_replies(alloc, replies.as_slice())?;
    let outcome = outcome.copy(alloc)?;
    Ok(Entry::Done {
        name,
        replies,
        outcome,
    })
}

fn copy_replies(alloc: Global, replies: &[Reply]) -> Result<Items<Reply>, Memory>
    ensures { IfOk result (λ copies. copies ≡ replies.now) }
{
    let mut copies = Items::new(alloc);
    for reply in replies {
        copies.push(reply.copy(alloc)?)?;
    }
    Ok(copies)
}
