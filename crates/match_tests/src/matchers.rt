//! The matchers of a plan.
ghost use Rattle.std.specs.Prelude.{◌≡◌, true, IfSome};
ghost use Rattle.mj_plan.specs.Sound.{IsSound, is_matcher};

use mj_plan::{MatchExpr, Plan};

/// The matcher of the step at the place k, counted from 0, of the first processor.
#[tactic(auto, using(crate::proofs::Steps::in_sound_plan))]
pub fn matcher_at(plan: &Plan, k: usize) -> Option<&MatchExpr>
    requires { IsSound plan.now }
    ensures { IfSome result (λ matcher. is_matcher matcher.now ≡ true) }
{
    let processor = plan.processors.get(0)?;
    let step = processor.steps.get(k)?;
    Some(&step.matcher)
}
