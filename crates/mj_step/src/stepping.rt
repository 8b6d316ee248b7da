//! What one step makes of a mail under a plan.
ghost use Rattle.std.specs.Prelude.{◌≡◌, true, IfOk};
ghost use Rattle.mj_container.specs.Running.{drafts, step as step_of};
ghost use Rattle.mj_container.specs.Sound.{is_sound};
ghost use Rattle.mj_mail.specs.Entry.{kept};
ghost use Rattle.mj_mail.specs.Outcome.{numbered};
ghost use Rattle.mj_plan.specs.Sound.{IsSound};
ghost use Rattle.mj_step.specs.Replied.{are_for};

use mj_entry_len::done_fits;
use mj_fields::{Items, Memory};
use mj_mail::{Fact, Mail, Name, Outcome, Reply, Stage};
use mj_plan::Plan;
use mj_remote::settle;
use mj_split::run_processor;
use std::alloc::Global;

/// What a step makes of a sound mail by these replies, its children numbered: one reply for each recipient of a mail that was
/// sent to a host. Where the entry of the step would have more than 67,108,864 bytes, it is the fact Overrun alone.
pub fn step(
    alloc: Global,
    plan: &Plan,
    mail: &Mail,
    replies: &Items<Reply>,
) -> Result<Outcome, Memory>
    requires plan { IsSound plan.now }
    requires mail { is_sound plan.now mail.now ≡ true }
    requires replies { are_for mail.now replies.now ≡ true }
    ensures { IfOk result (λ outcome. outcome ≡ step_of plan.now mail.now replies.now) }
{
    let outcome = visit(alloc, plan, mail, replies)?;
    keep(alloc, &mail.name, replies, outcome)
}

/// The outcome, where its entry isn't too large.
fn keep(
    alloc: Global,
    name: &Name,
    replies: &Items<Reply>,
    outcome: Outcome,
) -> Result<Outcome, Memory>
    ensures { IfOk result (λ it. it ≡ kept name.now replies.now outcome) }
{
    if done_fits(name, replies, &outcome) {
        return Ok(outcome);
    }
    Outcome::one_fact(alloc, Fact::Overrun)
}

/// What becomes of a mail where it stands, its children numbered: a processor runs it, or it is settled by these replies. One
/// in a processor with too many hops has looped.
fn visit(alloc: Global, plan: &Plan, mail: &Mail, replies: &Items<Reply>) -> Result<Outcome, Memory>
    requires plan { IsSound plan.now }
    requires mail { is_sound plan.now mail.now ≡ true }
    requires replies { are_for mail.now replies.now ≡ true }
    ensures { IfOk result (λ outcome. outcome ≡ numbered (drafts plan.now mail.now.stage replies.now mail.now)) }
{
    match &mail.stage {
        Stage::Process(_) if mail.hops >= plan.max_hops => Outcome::one_fact(
            alloc,
            Fact::Looped {
                recipients: mail.recipients.copy(alloc)?,
            },
        ),
        Stage::Process(state) => match plan.processor(state.as_slice()) {
            Some(processor) => run_processor(alloc, plan, processor, mail.copy(alloc)?),
            None => Ok(Outcome::nothing(alloc)),
        },
        Stage::Remote { .. } => settle(alloc, plan, mail, replies)?.numbered(alloc),
    }
}
