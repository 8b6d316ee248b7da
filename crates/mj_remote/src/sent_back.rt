//! The recipients that are given up and go to a processor for bounces.
ghost use Rattle.std.specs.Prelude.{◌≡◌, ◌+◌, ◌<◌, ◌^◌, ◌++◌, codes, map, IfOk, OnOk};
ghost use Rattle.mj_address.specs.Same.{AreRecipients};
ghost use Rattle.mj_mail.specs.Reply.{code_text, reply_text};
ghost use Rattle.mj_container.specs.Settling.{by_reply, permanence as permanence_of, sent_back as sent_back_of, with_reply, with_room};
ghost use Rattle.mj_remote.specs.Fates.{fated};
ghost use Rattle.mj_remote.specs.Parts.{AreGroups};
ghost use Rattle.mj_remote.specs.declared.fate.Fate.TheVariants.{GivenUp};

use crate::answers::pairs;
use mj_address::{Address, Recipients};
use mj_fields::{Bytes, Items, Memory};
use mj_groups::grouped;
use mj_mail::{Attributes, Class, Mail, Reply, Stage};
use std::alloc::Global;

/// Sends the mail to a processor for the recipients that are given up, once for each different reply, in the order of their
/// first mention.
#[tactic(auto, using(crate::proofs::Chosen::given_groups))]
pub fn put_sent_back(
    alloc: Global,
    state: &Bytes,
    mail: &Mail,
    delay: Option<u64>,
    replies: &[Reply],
    children: &mut Items<Mail>,
) -> Result<(), Memory>
    requires { mail.now.hops + 1 < 2 ^ 32 }
    ensures { OnOk result (children.new ≡ children.old ++ map (sent_back_of state.now mail.now) (by_reply (fated GivenUp delay mail.now.recipients replies.now))) }
{
    let pairs = pairs(alloc, delay, mail.recipients.as_slice(), replies)?;
    let groups = grouped(alloc, pairs)?;
    put_groups(alloc, state, mail, groups, children)
}

/// Sends the mail to a processor once for each group.
fn put_groups(
    alloc: Global,
    state: &Bytes,
    mail: &Mail,
    groups: Vec<(Reply, Vec<Address>)>,
    children: &mut Items<Mail>,
) -> Result<(), Memory>
    requires hops { mail.now.hops + 1 < 2 ^ 32 }
    requires groups { AreGroups (map (λ group. (group.0, group.1.items)) groups.items) }
    ensures { OnOk result (children.new ≡ children.old ++ map (sent_back_of state.now mail.now) (map (λ group. (group.0, group.1.items)) groups.items)) }
{
    for (reply, addresses) in groups {
        let recipients = Recipients::of_different(addresses);
        children.push(sent_back(alloc, state, mail, &reply, recipients)?)?;
    }
    Ok(())
}

/// The mail for the recipients of one reply, sent to a processor with one hop more.
fn sent_back(
    alloc: Global,
    state: &Bytes,
    mail: &Mail,
    reply: &Reply,
    recipients: Recipients,
) -> Result<Mail, Memory>
    requires { mail.now.hops + 1 < 2 ^ 32 }
    ensures { IfOk result (λ child. child ≡ sent_back_of state.now mail.now (reply.now, recipients)) }
{
    let mut child = mail.restrict(alloc, recipients)?;
    child.stage = Stage::Process(state.copy(alloc)?);
    child.hops += 1;
    set_reply(alloc, &mut child.attributes, reply)?;
    Ok(child)
}

/// Sets what the reply says, for the matchers of failed deliveries. An attribute that would be one too many is left out.
fn set_reply(alloc: Global, attributes: &mut Attributes, reply: &Reply) -> Result<(), Memory>
    ensures { OnOk result (attributes.new ≡ with_reply reply.now attributes.old) }
{
    set_text(alloc, attributes, reply)?;
    set_code(alloc, attributes, reply)?;
    let permanent = permanence(reply.class());
    set(alloc, attributes, b"is-delivery-permanent-error", permanent)
}

/// Sets the reply as a whole.
fn set_text(alloc: Global, attributes: &mut Attributes, reply: &Reply) -> Result<(), Memory>
    ensures { OnOk result (attributes.new ≡ with_room (codes "delivery-error") (reply_text reply.now) attributes.old) }
{
    let mut text = Bytes::new(alloc);
    reply.put(alloc, &mut text)?;
    set(alloc, attributes, b"delivery-error", text.as_slice())
}

/// Sets the code of the reply.
fn set_code(alloc: Global, attributes: &mut Attributes, reply: &Reply) -> Result<(), Memory>
    ensures { OnOk result (attributes.new ≡ with_room (codes "delivery-error-code") (code_text reply.now.code) attributes.old) }
{
    let mut code = Bytes::new(alloc);
    reply.put_code(alloc, &mut code)?;
    set(alloc, attributes, b"delivery-error-code", code.as_slice())
}

/// Sets an attribute, unless it would be one too many.
fn set(alloc: Global, attributes: &mut Attributes, name: &[u8], value: &[u8]) -> Result<(), Memory>
    ensures { OnOk result (attributes.new ≡ with_room name.now value.now attributes.old) }
{
    attributes.set(alloc, name, value)?;
    Ok(())
}

/// Whether a reply of this class refuses for good, as the text of an attribute.
fn permanence(class: Class) -> &'static [u8]
    ensures { result.now ≡ permanence_of class }
{
    match class {
        Class::Permanent => b"true",
        _ => b"false",
    }
}
