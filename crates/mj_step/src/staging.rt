//! Where a mail may stand under a plan.
ghost use Rattle.std.specs.Prelude.{◌≡◌};
ghost use Rattle.mj_container.specs.Sound.{names_delivery, names_processor};
ghost use Rattle.mj_container.specs.Stages.{has_stage};

use mj_mail::Stage;
use mj_plan::Plan;

/// Whether the plan has the processor that a mail waits for, or the remote delivery by which it is sent.
pub(crate) fn has_stage(plan: &Plan, stage: &Stage) -> bool
    ensures { result ≡ has_stage plan.now stage.now }
{
    match stage {
        Stage::Process(state) => has_processor(plan, state.as_slice()),
        Stage::Remote { delivery, .. } => has_delivery(plan, delivery.as_slice()),
    }
}

fn has_processor(plan: &Plan, name: &[u8]) -> bool
    ensures { result ≡ names_processor plan.now name.now }
{
    plan.processor(name).is_some()
}

fn has_delivery(plan: &Plan, name: &[u8]) -> bool
    ensures { result ≡ names_delivery plan.now name.now }
{
    plan.delivery(name).is_some()
}
