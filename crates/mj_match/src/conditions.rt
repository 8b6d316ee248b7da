//! Conditions: for which recipients of a mail one holds, and whether it fails on the mail.
ghost use Rattle.std.specs.Prelude.{◌≡◌, not, map, IfOk};
ghost use Rattle.mj_container.specs.Matching.{fails, has_field, holds, is_long_numeral};

use crate::Mask;
use crate::about_mail::holds_for_all;
use crate::about_recipient::{host_is, recipient_is, recipient_is_local, user_is};
use crate::numerals::long_number;
use mj_fields::Memory;
use mj_mail::Mail;
use mj_plan::{Condition, Plan};
use std::alloc::Global;

/// For each recipient of the mail, whether the condition holds.
pub(crate) fn truths_of_condition(
    alloc: Global,
    condition: &Condition,
    plan: &Plan,
    mail: &Mail,
) -> Result<Mask, Memory>
    ensures { IfOk result (λ mask. mask ≡ map (λ r. holds plan.now mail.now r condition.now) mail.now.recipients) }
{
    let recipients = mail.recipients.as_slice();
    match condition {
        Condition::RecipientIs(addresses) => Ok(Mask::from_vec(recipient_is(
            alloc, addresses, recipients,
        )?)),
        Condition::RecipientIsLocal => Ok(Mask::from_vec(recipient_is_local(
            alloc, plan, recipients,
        )?)),
        Condition::HostIs(hosts) => Ok(Mask::from_vec(host_is(alloc, hosts, recipients)?)),
        Condition::HostIsLocal => Ok(Mask::from_vec(host_is(
            alloc,
            &plan.local_hosts,
            recipients,
        )?)),
        Condition::UserIs(users) => Ok(Mask::from_vec(user_is(alloc, users, recipients)?)),
        other => {
            let truth = holds_for_all(alloc, other, mail)?;
            Mask::all(alloc, truth, recipients.len())
        }
    }
}

/// Whether the condition fails on the mail. Unfolding a field takes memory.
pub(crate) fn fails(alloc: Global, condition: &Condition, mail: &Mail) -> Result<bool, Memory>
    ensures { IfOk result (λ fault. fault ≡ fails mail.now condition.now) }
{
    match condition {
        Condition::CompareNumericHeaderValue { field, .. } => {
            is_no_number(alloc, field.as_slice(), mail)
        }
        Condition::Fail => Ok(true),
        _ => Ok(false),
    }
}

/// Whether there is such a field, and the first one is no number of 1 to 18 digits.
fn is_no_number(alloc: Global, field: &[u8], mail: &Mail) -> Result<bool, Memory>
    ensures { IfOk result (λ fault. fault ≡ has_field (λ text. not (is_long_numeral text)) field.now mail.now) }
{
    match mail.head.unfolded(alloc, field)? {
        Some(text) => Ok(long_number(text.as_slice()).is_none()),
        None => Ok(false),
    }
}
