//! The parameters of remote delivery.
ghost use Rattle.std.specs.Prelude.{◌≡◌, ◌≤◌, codes, length};
ghost use Rattle.std.specs.Option.{option_copied};
ghost use Rattle.toml.specs.Data.{get_member};
ghost use Rattle.toml.specs.View.{view, table_view};
ghost use Rattle.mj_config_walk.specs.Values.{Gives, GivesBy, domain_value, maybe, number, optional, text};
ghost use Rattle.mj_config_walk.specs.Mailets.{target_value, new_outgoing, outgoing_param, schedule, schedule_param};

use crate::params::{param_or, target_value};
use mj_address::Domain;
use mj_config_values::{Names, TextForm, domain_value, number, text, value_at};
use mj_config_walk::{PlanKind, Refusal};
use mj_delays::{Schedule, ScheduleFault};
use mj_fields::Bytes;
use std::alloc::Global;
use toml::{Table, Value};

/// The name of a remote delivery, which no earlier one has.
pub(crate) fn outgoing_param(alloc: Global, taken: &Names, step: &Table) -> Result<Bytes, Refusal>
    ensures { Gives result (outgoing_param taken.now (table_view step.now)) }
{
    let name = param_or(alloc, "outgoing", TextForm::ProcessorName, "outgoing", step)?;
    new_outgoing(taken, name)
}

fn new_outgoing(taken: &Names, name: Bytes) -> Result<Bytes, Refusal>
    ensures { Gives result (new_outgoing taken.now name) }
{
    if taken.contains(name.as_slice()) {
        return Err(Refusal::Kind(PlanKind::Twice));
    }
    Ok(name)
}

/// The schedule of the delays and the number of retries.
pub(crate) fn schedule_param(alloc: Global, step: &Table) -> Result<Schedule, Refusal>
    ensures { Gives result (schedule_param (table_view step.now)) }
{
    let delays = delay_time(step)?;
    let retries = max_retries(step)?;
    schedule(alloc, delays, retries)
}

fn delay_time(step: &Table) -> Result<Option<&[u8]>, Refusal>
    ensures { GivesBy option_copied result (maybe text (get_member (codes "delayTime") (table_view step.now))) }
{
    match value_at(step, "delayTime") {
        Some(value) => Ok(Some(text(value)?)),
        None => Ok(None),
    }
}

fn max_retries(step: &Table) -> Result<u32, Refusal>
    ensures { Gives result (optional 5 (number 0 999_999_999) (get_member (codes "maxRetries") (table_view step.now))) }
{
    match value_at(step, "maxRetries") {
        Some(value) => number(0, 999_999_999, value),
        None => Ok(5),
    }
}

fn schedule(alloc: Global, delays: Option<&[u8]>, retries: u32) -> Result<Schedule, Refusal>
    ensures { Gives result (schedule (option_copied delays.entry) retries) }
{
    match Schedule::read(alloc, delays, retries) {
        Ok(schedule) => Ok(schedule),
        Err(ScheduleFault::Memory) => Err(Refusal::Memory),
        Err(_) => Err(Refusal::Kind(PlanKind::BadArgument)),
    }
}

/// The domain of the next host, if one is named.
pub(crate) fn gateway_param(alloc: Global, step: &Table) -> Result<Option<Domain>, Refusal>
    ensures { Gives result (maybe domain_value (get_member (codes "gateway") (table_view step.now))) }
{
    match value_at(step, "gateway") {
        Some(value) => Ok(Some(domain_value(alloc, value)?)),
        None => Ok(None),
    }
}

/// The processor that bounces go to, if one is named.
pub(crate) fn bounce_param(
    alloc: Global,
    names: &Names,
    step: &Table,
) -> Result<Option<Bytes>, Refusal>
    ensures { Gives result (maybe (target_value names.now) (get_member (codes "bounceProcessor") (table_view step.now))) }
{
    match value_at(step, "bounceProcessor") {
        Some(value) => Ok(Some(target_value(alloc, names, value)?)),
        None => Ok(None),
    }
}
