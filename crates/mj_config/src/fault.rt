//! Faults at their places.
ghost use Rattle.std.specs.Prelude.{◌≡◌};
ghost use Rattle.mj_config_walk.specs.Faults.{fault_at};

use mj_config_walk::{PlanFault, Refusal};

/// The fault at this step of this processor.
pub(crate) fn fault_at(refusal: Refusal, processor: u32, step: u32) -> PlanFault
    ensures { result ≡ fault_at refusal processor step }
{
    match refusal {
        Refusal::Kind(kind) => PlanFault::Refused {
            kind,
            processor,
            step,
        },
        Refusal::Memory => PlanFault::Memory,
    }
}
