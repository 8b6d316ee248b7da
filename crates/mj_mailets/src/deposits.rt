//! Mailets that put a mail into repositories.
ghost use Rattle.std.specs.Prelude.{◌≡◌, ◌∷◌, [], ◌++◌, map, Ok, IfOk};
ghost use Rattle.mj_container.specs.Changes.{mailbox_of};
ghost use Rattle.mj_container.specs.declared.service.Onward.TheVariants.{End};
ghost use Rattle.mj_container.specs.Serving.{Gives, delivered as delivered_of, deposit as deposit_of, passed as passed_of};

use mj_address::{Address, Recipients};
use mj_changes::answers::passed;
use mj_container::{Onward, ServeError, Served};
use mj_fields::{Bytes, Items, Memory};
use mj_mail::{Fact, Mail};
use std::alloc::Global;

/// In front of the names of mailboxes.
const MAILBOXES: &[u8] = b"mailbox/";

/// Puts the mail into the repository of this path, for all its recipients. It then goes on, or ends.
pub fn store(
    alloc: Global,
    path: &Bytes,
    pass_through: bool,
    mail: Mail,
) -> Result<Served, ServeError>
    ensures { Gives result (Ok (record { facts = deposit_of path.now mail ∷ []; children = []; onward = passed_of pass_through mail })) }
{
    let mut facts = Items::new(alloc);
    facts.push(deposited(alloc, path, &mail)?)?;
    Ok(Served {
        facts,
        children: Items::new(alloc),
        onward: passed(pass_through, mail),
    })
}

fn deposited(alloc: Global, path: &Bytes, mail: &Mail) -> Result<Fact, Memory>
    ensures { IfOk result (λ fact. fact ≡ deposit_of path.now mail.now) }
{
    Fact::deposit(
        alloc,
        path,
        (&mail.sender, &mail.recipients),
        (&mail.head, &mail.body),
    )
}

/// Puts the mail into the mailbox of each recipient, for that recipient alone. There it ends.
pub fn deliver(alloc: Global, mail: &Mail) -> Result<Served, ServeError>
    ensures { Gives result (Ok (record { facts = map (delivered_of mail.now) mail.now.recipients; children = []; onward = End })) }
{
    let facts = deliveries(alloc, mail)?;
    Ok(Served {
        facts,
        children: Items::new(alloc),
        onward: Onward::End,
    })
}

fn deliveries(alloc: Global, mail: &Mail) -> Result<Items<Fact>, Memory>
    ensures { IfOk result (λ facts. facts ≡ map (delivered_of mail.now) mail.now.recipients) }
{
    let recipients = mail.recipients.as_slice();
    let mut facts = Vec::with_capacity(alloc, recipients.len())?;
    for r in recipients {
        facts.push(delivered(alloc, mail, r)?)?;
    }
    Ok(Items::from_vec(facts))
}

/// The deposit in a recipient's mailbox: `mailbox/` and the address in lower case.
fn delivered(alloc: Global, mail: &Mail, r: &Address) -> Result<Fact, Memory>
    ensures { IfOk result (λ fact. fact ≡ delivered_of mail.now r.now) }
{
    let mailbox = mailbox(alloc, r)?;
    let recipients = Recipients::one(alloc, r.copy(alloc)?)?;
    Fact::deposit(
        alloc,
        &mailbox,
        (&mail.sender, &recipients),
        (&mail.head, &mail.body),
    )
}

fn mailbox(alloc: Global, r: &Address) -> Result<Bytes, Memory>
    ensures { IfOk result (λ path. path ≡ mailbox_of r.now) }
{
    let mut path = Vec::with_capacity(alloc, MAILBOXES.len() + r.written_len())?;
    path.extend_from_slice(MAILBOXES)?;
    r.write_lower_to(&mut path)?;
    Ok(Bytes::from_vec(path))
}
