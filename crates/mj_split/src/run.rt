//! A mail on its way through the steps of a processor.
ghost use Rattle.std.specs.Prelude.{◌≡◌, ◌++◌, true, IfOk, OnOk};
ghost use Rattle.std.specs.List.{Contains};
ghost use Rattle.mj_container.specs.Alone.{IsAsAlone, is_plain};
ghost use Rattle.mj_container.specs.Matching.{Mailbox};
ghost use Rattle.mj_container.specs.Running.{run};
ghost use Rattle.mj_mail.specs.declared.fact.Fact.TheVariants.{FellOff};
ghost use Rattle.mj_mail.specs.Outcome.{both, numbered, one_fact};
ghost use Rattle.mj_container.specs.Sound.{IsFit};
ghost use Rattle.mj_plan.specs.Sound.{IsSound, is_processor, names_of};
ghost use Rattle.mj_split.specs.Parts.{waits_at};

use crate::step::take_step;
use crate::step_at::StepAt;
use mj_fields::{Items, Memory};
use mj_mail::{Fact, Mail, Outcome};
use mj_plan::{Plan, Processor};
use std::alloc::Global;

/// A part of a mail that waits for the step at a place, counted from 0.
#[derive(Drop)]
pub struct Waiting {
    pub mail: Mail,
    pub place: usize,
}

/// What the steps of a processor of the plan make of a mail: facts, and children that are named by their numbers. At each step the
/// mail is split: the recipients that the matcher takes are served, and the others pass by to the next step; what becomes
/// of those that are taken comes before what becomes of the others. Where all are taken, or none, the mail isn't copied.
pub fn run_processor(
    alloc: Global,
    plan: &Plan,
    processor: &Processor,
    mail: Mail,
) -> Result<Outcome, Memory>
    requires plan { IsSound plan.now }
    requires processor { is_processor (names_of plan.now.processors) processor.now ≡ true }
    requires fit { IsFit mail }
    ensures run { IfOk result (λ outcome. outcome ≡ numbered (run plan.now processor.now.name 1 processor.now.steps mail)) }
    // In a processor of plain steps each recipient comes to what it would come to alone.
    ensures alone { IfOk result (λ outcome. is_plain processor.now.steps ≡ true
        → (r : Mailbox) → Contains mail.recipients r → IsAsAlone plan.now processor.now mail outcome r) }
{
    let _different = mail.recipients.len();
    let outcome = run_parts(alloc, plan, processor, mail)?;
    outcome.numbered(alloc)
}

/// The same, where the children keep the mail's name.
fn run_parts(
    alloc: Global,
    plan: &Plan,
    processor: &Processor,
    mail: Mail,
) -> Result<Outcome, Memory>
    requires plan { IsSound plan.now }
    requires processor { is_processor (names_of plan.now.processors) processor.now ≡ true }
    requires fit { IsFit mail }
    ensures { IfOk result (λ outcome. outcome ≡ run plan.now processor.now.name 1 processor.now.steps mail) }
{
    let mut out = Outcome::nothing(alloc);
    let mut waiting = Items::new(alloc);
    waiting.push(Waiting { mail, place: 0 })?;
    while let Some(part) = waiting.pop() {
        let Waiting { mail, place } = part;
        match processor.steps.get(place) {
            None => fall_off(alloc, processor, mail, &mut out)?,
            Some(step) => {
                let at = StepAt {
                    plan,
                    name: processor.name.as_slice(),
                    number: place as u64 + 1,
                    step,
                };
                let parts = take_step(alloc, at, mail, &mut out)?;
                wait(&mut waiting, place + 1, parts.rest)?;
                wait(&mut waiting, place + 1, parts.served)?;
            }
        }
    }
    Ok(out)
}

/// The mail has come past the last step.
fn fall_off(
    alloc: Global,
    processor: &Processor,
    mail: Mail,
    out: &mut Outcome,
) -> Result<(), Memory>
    ensures { OnOk result (out.new ≡ both out.old (one_fact (FellOff processor.now.name mail.recipients))) }
{
    out.facts.push(Fact::FellOff {
        processor: processor.name.copy(alloc)?,
        recipients: mail.recipients,
    })
}

/// The mail, if there is one, waits for the step at a place.
fn wait(waiting: &mut Items<Waiting>, place: usize, mail: Option<Mail>) -> Result<(), Memory>
    ensures { OnOk result (waiting.new ≡ waiting.old ++ waits_at place mail) }
{
    if let Some(mail) = mail {
        waiting.push(Waiting { mail, place })?;
    }
    Ok(())
}
