//! A part that a step serves, and what comes of it.
ghost use Rattle.std.specs.Prelude.{◌≡◌, ◌++◌, true, IfOk, OnOk};
ghost use Rattle.mj_mail.specs.Outcome.{both};
ghost use Rattle.mj_container.specs.Running.{failed as failed_of, gone as gone_of, served as served_of};
ghost use Rattle.mj_container.specs.Serving.{HasFit};
ghost use Rattle.mj_container.specs.Sound.{IsFit};
ghost use Rattle.mj_mail.specs.declared.fact.Outcome.{Outcome as OutcomeValue};
ghost use Rattle.mj_mail.specs.declared.mail.Mail.{Mail as MailValue};
ghost use Rattle.mj_split.specs.Parts.{IsFitNext, goes_on};
ghost use Rattle.mj_plan.specs.Sound.{IsSound, is_mailet, names_of};

use crate::leave::{leave, leave_failed};
use crate::step_at::StepAt;
use mj_container::{Onward, ServeError, Served, Unserved};
use mj_fields::{Items, Memory};
use mj_mail::{Fact, Mail, Outcome};
use mj_mailets::serve;
use mj_plan::MailetRoute;
use std::alloc::Global;

/// Serves a part by a step's mailet. What comes of it goes to the outcome, and the mail that goes on, if one does, is the answer.
pub fn serve_part(
    alloc: Global,
    at: StepAt<'_>,
    mail: Mail,
    out: &mut Outcome,
) -> Result<Option<Mail>, Memory>
    requires plan { IsSound at.plan.now }
    requires mailet { is_mailet (names_of at.plan.now.processors) at.step.now.mailet ≡ true }
    requires fit { IsFit mail }
    ensures outcome { IfOk result (λ next. (on : MailValue → OutcomeValue) →
        both out.new (goes_on on next) ≡ both out.old (served_of at.entry.plan.now at.entry.name.now at.entry.number at.entry.step.now on mail)) }
    ensures fit { IfOk result (λ next. IsFitNext next) }
{
    match serve(alloc, &at.step.mailet, at.plan, mail) {
        Ok(served) => put_served(served, out),
        Err(ServeError::Failed(unserved)) => { put_unserved(alloc, at, unserved, out) }
        Err(ServeError::Memory) => Err(Memory),
    }
}

/// Puts what a mailet gave to the outcome.
fn put_served(served: Served, out: &mut Outcome) -> Result<Option<Mail>, Memory>
    requires { HasFit served.onward }
    ensures outcome { IfOk result (λ next. (on : MailValue → OutcomeValue) →
        both out.new (goes_on on next) ≡ both out.old (both (record { facts = served.facts; children = served.children }) (gone_of on served.onward))) }
    ensures fit { IfOk result (λ next. IsFitNext next) }
{
    append_facts(&mut out.facts, served.facts)?;
    append_children(&mut out.children, served.children)?;
    put_onward(served.onward, out)
}

/// The mail goes on, leaves, or ends.
fn put_onward(onward: Onward, out: &mut Outcome) -> Result<Option<Mail>, Memory>
    requires { HasFit onward }
    ensures outcome { IfOk result (λ next. (on : MailValue → OutcomeValue) → both out.new (goes_on on next) ≡ both out.old (gone_of on onward)) }
    ensures fit { IfOk result (λ next. IsFitNext next) }
{
    match onward {
        Onward::GoOn(mail) => Ok(Some(mail)),
        Onward::Leave { mail, state } => {
            leave(state, mail, out)?;
            Ok(None)
        }
        Onward::End => Ok(None),
    }
}

/// A mail whose mailet failed goes on as it was, or leaves.
fn put_unserved(
    alloc: Global,
    at: StepAt<'_>,
    unserved: Unserved,
    out: &mut Outcome,
) -> Result<Option<Mail>, Memory>
    requires { IsFit unserved.mail }
    ensures outcome { IfOk result (λ next. (on : MailValue → OutcomeValue) →
        both out.new (goes_on on next) ≡ both out.old (failed_of at.entry.step.now.on_mailet at.entry.name.now at.entry.number on unserved)) }
    ensures fit { IfOk result (λ next. IsFitNext next) }
{
    let Unserved { mail, text } = unserved;
    match &at.step.on_mailet {
        MailetRoute::Ignore => Ok(Some(mail)),
        MailetRoute::To(state) => {
            let state = state.copy(alloc)?;
            leave_failed(alloc, at, text.as_slice(), state, mail, out)?;
            Ok(None)
        }
    }
}

fn append_facts(out: &mut Items<Fact>, facts: Items<Fact>) -> Result<(), Memory>
    ensures { OnOk result (out.new ≡ out.old ++ facts) }
{
    for fact in facts.into_vec() {
        out.push(fact)?;
    }
    Ok(())
}

fn append_children(out: &mut Items<Mail>, children: Items<Mail>) -> Result<(), Memory>
    ensures { OnOk result (out.new ≡ out.old ++ children) }
{
    for child in children.into_vec() {
        out.push(child)?;
    }
    Ok(())
}
