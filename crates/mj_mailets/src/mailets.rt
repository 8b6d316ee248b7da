ghost use Rattle.std.specs.Prelude.{◌≡◌, true};
ghost use Rattle.mj_container.specs.declared.service.Onward.TheVariants.{Leave};
ghost use Rattle.mj_container.specs.Serving.{Gives, KeepsFit, goes as goes_of, serve as serve_of};
ghost use Rattle.mj_container.specs.Sound.{IsFit};
ghost use Rattle.mj_plan.specs.Sound.{IsSound, is_mailet, names_of};

use crate::{delivery, deposits, notices};
use mj_changes::answers::{fails, goes};
use mj_changes::{attributes, fields, recipients};
use mj_container::{Onward, ServeError, Served};
use mj_fields::Bytes;
use mj_mail::Mail;
use mj_plan::{GHOST, MailetKind, Plan};
use std::alloc::Global;

/// Serves a mail by a mailet of the plan: the facts and mails that come of it, and where it goes from there. `Failed` comes exactly
/// where the mailet fails, with the mail as it was and the text of the failure. A mail that it makes keeps the name of the mail.
pub fn serve(
    alloc: Global,
    kind: &MailetKind,
    plan: &Plan,
    mail: Mail,
) -> Result<Served, ServeError>
    requires sound { IsSound plan.now }
    requires formed { is_mailet (names_of plan.now.processors) kind.now ≡ true }
    requires fit { IsFit mail }
    ensures exact { Gives result (serve_of plan.now kind.now mail) }
    // What goes on or leaves can be served again.
    ensures fit { KeepsFit result }
{
    served(alloc, kind, plan, mail)
}

fn served(alloc: Global, kind: &MailetKind, plan: &Plan, mail: Mail) -> Result<Served, ServeError>
    requires formed { is_mailet (names_of plan.now.processors) kind.now ≡ true }
    requires fit { IsFit mail }
    ensures { Gives result (serve_of plan.now kind.now mail) }
{
    match kind {
        MailetKind::ToProcessor { processor } => leaves(alloc, processor.as_slice(), mail),
        MailetKind::Null => leaves(alloc, GHOST, mail),
        MailetKind::SetMailAttribute { attributes } => {
            attributes::set(alloc, attributes.as_slice(), mail)
        }
        MailetKind::RemoveMailAttribute { names } => {
            attributes::remove(alloc, names.as_slice(), mail)
        }
        MailetKind::RemoveAllMailAttributes => attributes::clear(alloc, mail),
        MailetKind::SetMimeHeader { name, value } => {
            fields::append(alloc, name.as_slice(), value.as_slice(), mail)
        }
        MailetKind::RemoveMimeHeader { names } => fields::remove(alloc, names.as_slice(), mail),
        MailetKind::MailAttributesToMimeHeaders { mapping } => {
            fields::append_attributes(alloc, mapping.as_slice(), mail)
        }
        MailetKind::AddSubjectPrefix { prefix } => {
            fields::prefix_subject(alloc, prefix.as_slice(), mail)
        }
        MailetKind::RecipientToLowerCase => recipients::lower_case(alloc, mail),
        MailetKind::PostmasterAlias => recipients::postmaster_alias(alloc, plan, mail),
        MailetKind::RecipientRewriteTable => recipients::rewritten(alloc, plan, mail),
        MailetKind::Forward { to, pass_through } => {
            recipients::forward(alloc, to.as_slice(), *pass_through, mail)
        }
        MailetKind::Bounce {
            message,
            pass_through,
        } => notices::bounce(alloc, plan, message, *pass_through, mail),
        MailetKind::NotifyPostmaster { pass_through } => {
            notices::notify_postmaster(alloc, plan, *pass_through, mail)
        }
        MailetKind::LocalDelivery => deposits::deliver(alloc, &mail),
        MailetKind::ToRepository { path, pass_through } => {
            deposits::store(alloc, path, *pass_through, mail)
        }
        MailetKind::RemoteDelivery {
            outgoing,
            gateway,
            ..
        } => delivery::deliver(alloc, outgoing, gateway, mail),
        MailetKind::Fail { text } => fails(alloc, text.as_slice(), mail),
    }
}

/// The mail leaves for the processor of this name.
fn leaves(alloc: Global, state: &[u8], mail: Mail) -> Result<Served, ServeError>
    ensures { Gives result (goes_of (Leave mail state.now)) }
{
    let state = Bytes::from_slice(alloc, state)?;
    goes(alloc, Onward::Leave { mail, state })
}
