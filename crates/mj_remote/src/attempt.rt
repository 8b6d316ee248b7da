//! An attempt by a remote delivery.
ghost use Rattle.std.specs.Prelude.{◌≡◌, ◌≤◌, IfSome};
ghost use Rattle.mj_container.specs.Settling.{attempt_at};
ghost use Rattle.mj_remote.specs.Attempts.{settled_attempt};

use mj_address::Domain;
use mj_fields::Bytes;
use mj_plan::{Delivery, Plan};

/// An attempt by a remote delivery at a host.
#[derive(Clone, Copy)]
pub struct Attempt<'a> {
    pub delivery: &'a Bytes,
    pub host: &'a Domain,
    /// Its number, from 1.
    pub number: u32,
    /// How long the delivery waits before the next one, in milliseconds; none where this one is the last.
    pub delay: Option<u64>,
    /// The processor to which the delivery sends what it gave up, if it names one.
    pub bounces: Option<&'a Bytes>,
}

impl<'a> Attempt<'a> {
    /// The attempt of this number by a delivery of the plan. A delivery that the plan doesn't have makes no further one.
    pub fn new(plan: &'a Plan, delivery: &'a Bytes, host: &'a Domain, number: u32) -> Attempt<'a>
        requires { 1 ≤ number }
        ensures attempt { settled_attempt result ≡ attempt_at plan.now delivery.now host.now number }
        ensures number { result.number ≡ number }
        ensures delay { IfSome result.delay (λ delay. delay ≤ 604_800_000) }
    {
        match plan.delivery(delivery.as_slice()) {
            Some(found) => Attempt {
                delivery,
                host,
                number,
                delay: found.schedule.delay_after(number),
                bounces: found.bounce_processor,
            },
            None => Attempt {
                delivery,
                host,
                number,
                delay: None,
                bounces: None,
            },
        }
    }
}
