//! What a step's matcher says of a mail.
ghost use Rattle.std.specs.Prelude.{◌≡◌, true, IfOk};
ghost use Rattle.mj_container.specs.Verdict.{by_route as by_route_of, verdict};
ghost use Rattle.mj_plan.specs.Sound.{is_matcher};
ghost use Rattle.mj_split.specs.Judged.{judged_as};

use crate::texts::matcher_failed;
use mj_address::Recipients;
use mj_fields::{Bytes, Memory};
use mj_mail::Mail;
use mj_match::{Mask, MatchError, evaluate};
use mj_plan::{MatchRoute, Plan, Step};
use std::alloc::Global;

/// The whole mail leaves to a state, for a reason; or each recipient, by its place, is taken or passed by.
#[derive(Drop)]
pub enum Judged {
    Leaves { state: Bytes, reason: Bytes },
    Takes(Mask),
}

/// What a step says of a mail: its matcher takes recipients, or fails, and then its route decides.
pub fn judge(alloc: Global, plan: &Plan, step: &Step, mail: &Mail) -> Result<Judged, Memory>
    requires { is_matcher step.now.matcher ≡ true }
    ensures { IfOk result (λ judged. judged ≡ judged_as mail.now.recipients (verdict plan.now step.now mail.now)) }
{
    match evaluate(alloc, &step.matcher, plan, mail) {
        Ok(mask) => Ok(Judged::Takes(mask)),
        Err(MatchError::Failed { condition }) => {
            by_route(alloc, &step.on_match, condition, &mail.recipients)
        }
        Err(MatchError::Memory) => Err(Memory),
    }
}

/// What the route of a failing matcher takes, or where it sends the mail.
#[tactic(auto, using(crate::proofs::Masks::same_of_all))]
fn by_route(
    alloc: Global,
    route: &MatchRoute,
    condition: u32,
    recipients: &Recipients,
) -> Result<Judged, Memory>
    ensures { IfOk result (λ judged. judged ≡ judged_as recipients.now (by_route_of route.now condition)) }
{
    match route {
        MatchRoute::NoMatch => Ok(Judged::Takes(Mask::all(alloc, false, recipients.len())?)),
        MatchRoute::MatchAll => Ok(Judged::Takes(Mask::all(alloc, true, recipients.len())?)),
        MatchRoute::To(state) => {
            let state = state.copy(alloc)?;
            let reason = matcher_failed(alloc, condition)?;
            Ok(Judged::Leaves { state, reason })
        }
    }
}
