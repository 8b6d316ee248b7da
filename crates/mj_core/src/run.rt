//! A machine after events.
ghost use Rattle.std.specs.Prelude.{◌≡◌, ◌<◌, length, map, IfOk, OnOk};
ghost use Rattle.mj_lawful.specs.Attempts.{IsTrueAfter};
ghost use Rattle.mj_lawful.specs.Machine.{fresh, happens, run};
ghost use Rattle.mj_core.specs.Epochs.{first_plan, meanings};
ghost use Rattle.mj_core.specs.Events.{event_of};
ghost use Rattle.mj_core.specs.Held.{IsOf};

use crate::{Epoch, Event, Machine};
use mj_fields::{Items, Memory};
use mj_mail::Stages;
use std::alloc::Global;

/// The machine that begins with the first of these configurations, after these events in order. An event that isn't enabled
/// is passed over. Without room for the machine there is `Memory` alone.
///
/// Its entries are lawful and cut, those of each run are a front of those of every longer one, with nothing pending the facts
/// are the meaning of what was accepted, and a mail was attempted as often as the crashes say.
pub fn run_events<R: Stages>(
    alloc: Global,
    epochs: &Items<Epoch<R>>,
    events: &Items<Event>,
) -> Result<Machine, Memory>
    requires { 0 < length epochs.now }
    ensures machine { IfOk result (λ made. let r = meanings R.Rules R.is_allowed epochs.now in
        made.machine ≡ run r (fresh r (first_plan epochs.now)) (map event_of events.now)) }
    ensures is_of { IfOk result (λ made. IsOf (meanings R.Rules R.is_allowed epochs.now) made) }
    ensures true_after { IfOk result (λ _. let r = meanings R.Rules R.is_allowed epochs.now in
        IsTrueAfter r (first_plan epochs.now) (map event_of events.now)) }
{
    let mut machine = Machine::fresh(alloc, epochs)?;
    for event in events.as_slice() {
        happen(alloc, &mut machine, epochs, event)?;
    }
    Ok(machine)
}

/// The event happens, if it is enabled.
fn happen<R: Stages>(
    alloc: Global,
    machine: &mut Machine,
    epochs: &Items<Epoch<R>>,
    event: &Event,
) -> Result<(), Memory>
    requires { IsOf (meanings R.Rules R.is_allowed epochs.now) machine.old }
    ensures machine { OnOk result (machine.new.machine
        ≡ happens (meanings R.Rules R.is_allowed epochs.now) machine.old.machine (event_of event.now)) }
    ensures is_of { OnOk result (IsOf (meanings R.Rules R.is_allowed epochs.now) machine.new) }
{
    if machine.enabled(epochs, event) {
        machine.apply(alloc, epochs, event)?;
    }
    Ok(())
}
