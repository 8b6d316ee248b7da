//! Entries of steps.
ghost use Rattle.std.specs.Prelude.{◌≡◌, length};
ghost use Rattle.mj_mail.specs.Entry.{done_fits, done_form};
ghost use Rattle.mj_entry_len.specs.Stored.{stored};

use crate::fact::{facts_len, replies_len};
use crate::mail::{mails_len, name_len};
use crate::most::done_most;
use mj_fields::Items;
use mj_mail::{MAX_DONE, Name, Outcome, Reply};

/// How many bytes the entry of a step has: one for its kind, and the mail's name, the replies, the facts and the children.
pub fn done_len(name: &Name, replies: &Items<Reply>, outcome: &Outcome) -> u64
    ensures { result ≡ stored (length (done_form name.now replies.now outcome.now)) }
{
    name_len(name)
        .saturating_add(replies_len(replies.as_slice()))
        .saturating_add(facts_len(outcome.facts.as_slice()))
        .saturating_add(mails_len(outcome.children.as_slice()))
        .saturating_add(1)
}

/// Whether the entry of a step has at most [`MAX_DONE`] bytes. The fields of a head are gone over only where the entry is
/// so large that it may have more.
pub fn done_fits(name: &Name, replies: &Items<Reply>, outcome: &Outcome) -> bool
    ensures { result ≡ done_fits name.now replies.now outcome.now }
{
    done_most(name, replies, outcome) <= MAX_DONE || done_len(name, replies, outcome) <= MAX_DONE
}
