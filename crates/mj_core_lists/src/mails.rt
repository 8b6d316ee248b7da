//! The mails that wait.
ghost use Rattle.std.specs.Prelude.{◌≡◌, ◌++◌, List, ◌∷◌, if◌then◌else◌, IfOk, OnOk};
ghost use Rattle.std.specs.List.{list_all};
ghost use Rattle.std.specs.Option.{option_copied};
ghost use Rattle.mj_mail.specs.declared.mail.Mail.{Mail};
ghost use Rattle.mj_mail.specs.Mail.{is_remote};
ghost use Rattle.mj_lawful.specs.Machine.{is_claimed, mail_of, next_of, sooner};
ghost use Rattle.mj_lawful.proofs.Pending.{without};

use crate::claim::{Claim, has_claim, is_same};
use mj_fields::{Items, Memory};
use mj_mail::{Mail, Name, Stage, Stages};
use std::alloc::Global;

pub fn is_remote(stage: &Stage) -> bool
    ensures { result ≡ is_remote stage.now }
{
    matches!(stage, Stage::Remote { .. })
}

/// The mail of this name.
pub fn find_mail<'a>(mails: &'a [Mail], name: &Name) -> Option<&'a Mail>
    ensures { option_copied result ≡ mail_of mails.now name.now }
{
    for mail in mails {
        if is_same(&mail.name, name) {
            return Some(mail);
        }
    }
    None
}

/// The mail that is due first of those without a claim.
pub fn find_next<'a>(claims: &[Claim], mails: &'a [Mail]) -> Option<&'a Mail>
    ensures { option_copied result ≡ next_of claims.now mails.now }
{
    let mut next: Option<&Mail> = None;
    for mail in mails {
        next = next_after(claims, next, mail);
    }
    next
}

fn next_after<'a>(claims: &[Claim], best: Option<&'a Mail>, mail: &'a Mail) -> Option<&'a Mail>
    ensures { option_copied result
        ≡ (if is_claimed claims.now mail.now.name then option_copied best.entry else sooner (option_copied best.entry) mail.now) }
{
    if has_claim(claims, &mail.name) {
        best
    } else {
        sooner(best, mail)
    }
}

fn sooner<'a>(best: Option<&'a Mail>, mail: &'a Mail) -> Option<&'a Mail>
    ensures { option_copied result ≡ sooner (option_copied best.entry) mail.now }
{
    match best {
        Some(best) => {
            if mail.due < best.due {
                Some(mail)
            } else {
                Some(best)
            }
        }
        None => Some(mail),
    }
}

/// Whether the rules allow all of these.
pub fn all_allowed<R: Stages>(rules: &R, mails: &[Mail]) -> bool
    ensures { result ≡ list_all (R.is_allowed rules.now) mails.now }
{
    for mail in mails {
        if !rules.allows(mail) {
            return false;
        }
    }
    true
}

/// The mails that have another name.
pub fn others_of(alloc: Global, mails: &[Mail], name: &Name) -> Result<Items<Mail>, Memory>
    ensures { IfOk result (λ others. others ≡ without name.now mails.now) }
{
    let mut others = Items::new(alloc);
    for mail in mails {
        push_other(alloc, &mut others, mail, name)?;
    }
    Ok(others)
}

/// Puts a copy of the mail at the end, unless it has this name.
fn push_other(
    alloc: Global,
    mails: &mut Items<Mail>,
    mail: &Mail,
    name: &Name,
) -> Result<(), Memory>
    ensures { (rest : List Mail) → OnOk result (mails.new ++ without name.now rest ≡ mails.old ++ without name.now (mail.now ∷ rest)) }
{
    if !is_same(name, &mail.name) {
        mails.push(mail.copy(alloc)?)?;
    }
    Ok(())
}

/// Puts copies of these at the end.
pub fn push_copies(alloc: Global, mails: &mut Items<Mail>, more: &[Mail]) -> Result<(), Memory>
    ensures { OnOk result (mails.new ≡ mails.old ++ more.now) }
{
    for mail in more {
        mails.push(mail.copy(alloc)?)?;
    }
    Ok(())
}
