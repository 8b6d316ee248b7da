//! Mailets: a class with its parameters.
ghost use Rattle.std.specs.Prelude.{◌≡◌, map, IfOk};
ghost use Rattle.toml.specs.View.{table_view};
ghost use Rattle.mj_config_walk.specs.Values.{Gives};
ghost use Rattle.mj_config_walk.specs.Mailets.{to_processor, set_mail_attribute, remove_mail_attribute, set_mime_header, remove_mime_header, attributes_to_headers, add_subject_prefix, forward, bounce, notify_postmaster, to_repository, remote_delivery, fail};
ghost use Rattle.mj_config_walk.specs.Deliveries.{IsNew};
ghost use Rattle.mj_config_walk.specs.Classes.{class_in, class_rows, mailet_of, of_class};

use crate::delivery::{bounce_param, gateway_param, outgoing_param, schedule_param};
use crate::named::{attributes_param, mapping_param};
use crate::params::{forward_param, names_param, param, param_or, pass_through, target_value};
use mj_config_values::{Names, TextForm, is, required};
use mj_config_walk::{Class, PlanKind, Refusal};
use mj_plan::MailetKind;
use std::alloc::Global;
use toml::Table;

/// The names of all classes.
const CLASSES: [(&str, Class); 19] = [
    ("ToProcessor", Class::ToProcessor),
    ("Null", Class::Null),
    ("SetMailAttribute", Class::SetMailAttribute),
    ("RemoveMailAttribute", Class::RemoveMailAttribute),
    ("RemoveAllMailAttributes", Class::RemoveAllMailAttributes),
    ("SetMimeHeader", Class::SetMimeHeader),
    ("RemoveMimeHeader", Class::RemoveMimeHeader),
    (
        "MailAttributesToMimeHeaders",
        Class::MailAttributesToMimeHeaders,
    ),
    ("AddSubjectPrefix", Class::AddSubjectPrefix),
    ("RecipientToLowerCase", Class::RecipientToLowerCase),
    ("PostmasterAlias", Class::PostmasterAlias),
    ("RecipientRewriteTable", Class::RecipientRewriteTable),
    ("Forward", Class::Forward),
    ("Bounce", Class::Bounce),
    ("NotifyPostmaster", Class::NotifyPostmaster),
    ("LocalDelivery", Class::LocalDelivery),
    ("ToRepository", Class::ToRepository),
    ("RemoteDelivery", Class::RemoteDelivery),
    ("Fail", Class::Fail),
];

/// The mailet of a class, with the parameters that the table of its step has, where these processors are there and these
/// names of remote deliveries are taken. The parameters are read in the order in which the class wants them, and the first
/// fault is the answer.
///
/// A class that isn't known is `UnknownClass`. A parameter that has to be there and isn't is `Missing`; one of another type
/// is `WrongType`, and one of another form `BadArgument`, `BadAddress`, `TooMany`, or `UnknownProcessor` where it should name
/// a processor. The name of a remote delivery that is taken is `Twice`.
pub fn mailet_of(
    alloc: Global,
    names: &Names,
    taken: &Names,
    class: &[u8],
    step: &Table,
) -> Result<MailetKind, Refusal>
    ensures exact { Gives result (mailet_of names.now taken.now class.now (table_view step.now)) }
    // The name of a remote delivery is none of those that are taken.
    ensures new { IfOk result (IsNew taken.now) }
{
    match class_of(class) {
        Some(class) => of_class(alloc, names, taken, class, step),
        None => Err(Refusal::Kind(PlanKind::UnknownClass)),
    }
}

fn of_class(
    alloc: Global,
    names: &Names,
    taken: &Names,
    class: Class,
    step: &Table,
) -> Result<MailetKind, Refusal>
    ensures { Gives result (of_class names.now taken.now (table_view step.now) class) }
{
    match class {
        Class::ToProcessor => to_processor(alloc, names, step),
        Class::Null => Ok(MailetKind::Null),
        Class::SetMailAttribute => set_mail_attribute(alloc, step),
        Class::RemoveMailAttribute => remove_mail_attribute(alloc, step),
        Class::RemoveAllMailAttributes => Ok(MailetKind::RemoveAllMailAttributes),
        Class::SetMimeHeader => set_mime_header(alloc, step),
        Class::RemoveMimeHeader => remove_mime_header(alloc, step),
        Class::MailAttributesToMimeHeaders => attributes_to_headers(alloc, step),
        Class::AddSubjectPrefix => add_subject_prefix(alloc, step),
        Class::RecipientToLowerCase => Ok(MailetKind::RecipientToLowerCase),
        Class::PostmasterAlias => Ok(MailetKind::PostmasterAlias),
        Class::RecipientRewriteTable => Ok(MailetKind::RecipientRewriteTable),
        Class::Forward => forward(alloc, step),
        Class::Bounce => bounce(alloc, step),
        Class::NotifyPostmaster => notify_postmaster(step),
        Class::LocalDelivery => Ok(MailetKind::LocalDelivery),
        Class::ToRepository => to_repository(alloc, step),
        Class::RemoteDelivery => remote_delivery(alloc, names, taken, step),
        Class::Fail => fail(alloc, step),
    }
}

/// The class of a name.
fn class_of(name: &[u8]) -> Option<Class>
    ensures { result ≡ class_in class_rows name.now }
{
    class_in(&CLASSES, name)
}

/// The class that stands behind this name in the rows.
fn class_in(rows: &[(&str, Class)], name: &[u8]) -> Option<Class>
    ensures { result ≡ class_in (map (λ row. (row.0.now, row.1)) rows.now) name.now }
{
    for row in rows {
        if is(name, row.0) {
            return Some(row.1);
        }
    }
    None
}

fn to_processor(alloc: Global, names: &Names, step: &Table) -> Result<MailetKind, Refusal>
    ensures { Gives result (to_processor names.now (table_view step.now)) }
{
    let value = required(step, "processor")?;
    let processor = target_value(alloc, names, value)?;
    Ok(MailetKind::ToProcessor { processor })
}

fn set_mail_attribute(alloc: Global, step: &Table) -> Result<MailetKind, Refusal>
    ensures { Gives result (set_mail_attribute (table_view step.now)) }
{
    let attributes = attributes_param(alloc, step)?;
    Ok(MailetKind::SetMailAttribute { attributes })
}

fn remove_mail_attribute(alloc: Global, step: &Table) -> Result<MailetKind, Refusal>
    ensures { Gives result (remove_mail_attribute (table_view step.now)) }
{
    let names = names_param(alloc, TextForm::AttributeName, step)?;
    Ok(MailetKind::RemoveMailAttribute { names })
}

fn set_mime_header(alloc: Global, step: &Table) -> Result<MailetKind, Refusal>
    ensures { Gives result (set_mime_header (table_view step.now)) }
{
    let name = param(alloc, TextForm::FieldName, "name", step)?;
    let value = param(alloc, TextForm::Line, "value", step)?;
    Ok(MailetKind::SetMimeHeader { name, value })
}

fn remove_mime_header(alloc: Global, step: &Table) -> Result<MailetKind, Refusal>
    ensures { Gives result (remove_mime_header (table_view step.now)) }
{
    let names = names_param(alloc, TextForm::FieldName, step)?;
    Ok(MailetKind::RemoveMimeHeader { names })
}

fn attributes_to_headers(alloc: Global, step: &Table) -> Result<MailetKind, Refusal>
    ensures { Gives result (attributes_to_headers (table_view step.now)) }
{
    let mapping = mapping_param(alloc, step)?;
    Ok(MailetKind::MailAttributesToMimeHeaders { mapping })
}

fn add_subject_prefix(alloc: Global, step: &Table) -> Result<MailetKind, Refusal>
    ensures { Gives result (add_subject_prefix (table_view step.now)) }
{
    let prefix = param(alloc, TextForm::Line, "subjectPrefix", step)?;
    Ok(MailetKind::AddSubjectPrefix { prefix })
}

fn forward(alloc: Global, step: &Table) -> Result<MailetKind, Refusal>
    ensures { Gives result (forward (table_view step.now)) }
{
    let to = forward_param(alloc, step)?;
    let pass_through = pass_through(false, step)?;
    Ok(MailetKind::Forward { to, pass_through })
}

fn bounce(alloc: Global, step: &Table) -> Result<MailetKind, Refusal>
    ensures { Gives result (bounce (table_view step.now)) }
{
    let message = param_or(alloc, "Bounced", TextForm::Line, "message", step)?;
    let pass_through = pass_through(true, step)?;
    Ok(MailetKind::Bounce {
        message,
        pass_through,
    })
}

fn notify_postmaster(step: &Table) -> Result<MailetKind, Refusal>
    ensures { Gives result (notify_postmaster (table_view step.now)) }
{
    let pass_through = pass_through(true, step)?;
    Ok(MailetKind::NotifyPostmaster { pass_through })
}

fn to_repository(alloc: Global, step: &Table) -> Result<MailetKind, Refusal>
    ensures { Gives result (to_repository (table_view step.now)) }
{
    let path = param(alloc, TextForm::Repository, "repositoryPath", step)?;
    let pass_through = pass_through(false, step)?;
    Ok(MailetKind::ToRepository { path, pass_through })
}

fn remote_delivery(
    alloc: Global,
    names: &Names,
    taken: &Names,
    step: &Table,
) -> Result<MailetKind, Refusal>
    ensures { Gives result (remote_delivery names.now taken.now (table_view step.now)) }
{
    let outgoing = outgoing_param(alloc, taken, step)?;
    let schedule = schedule_param(alloc, step)?;
    let gateway = gateway_param(alloc, step)?;
    let bounce_processor = bounce_param(alloc, names, step)?;
    Ok(MailetKind::RemoteDelivery {
        outgoing,
        schedule,
        gateway,
        bounce_processor,
    })
}

fn fail(alloc: Global, step: &Table) -> Result<MailetKind, Refusal>
    ensures { Gives result (fail (table_view step.now)) }
{
    let text = param_or(alloc, "Fail", TextForm::Line, "text", step)?;
    Ok(MailetKind::Fail { text })
}
