//! The steps of a processor: a matcher, a mailet, and where a mail goes where one of them fails.
ghost use Rattle.std.specs.Prelude.{◌≡◌, ◌≤◌, [], ◌∷◌, ◌++◌, length, map, option_map, IfOk, OnOk};
ghost use Rattle.toml.specs.View.{view, table_view};
ghost use Rattle.mj_config_walk.specs.Values.{Gives, optional, target};
ghost use Rattle.mj_config_walk.specs.Deliveries.{IsNew, deliveries_of};
ghost use Rattle.mj_config_walk.specs.Walk.{Answers, deliveries, located, steps_from, default_mailet_route, default_match_route, mailet_in, mailet_route, mailet_route_of, match_route, match_route_of, matcher_in, routes_in, step_of, work_in};

use crate::fault::fault_at;
use mj_config_mailets::mailet_of;
use mj_config_matchers::matcher;
use mj_config_values::{Names, is, required, target, text, value_at};
use mj_config_walk::{PlanFault, PlanKind, Refusal};
use mj_fields::{Bytes, Items, Memory};
use mj_plan::{MailetKind, MailetRoute, MatchExpr, MatchRoute, Step};
use std::alloc::Global;
use toml::{Table, Value};

/// The steps of the processor of this number. The names of their remote deliveries are taken then.
#[tactic(auto, using(mj_config_walk::proofs::InTurn::deliveries_more))]
pub(crate) fn steps(
    alloc: Global,
    names: &Names,
    taken: &mut Names,
    processor: u32,
    tables: &[&Table],
) -> Result<Items<Step>, PlanFault>
    requires { length tables.now ≤ 200 }
    ensures exact { Answers result (steps_from names.now taken.old processor 1 (map (λ t. table_view t.now) tables.now)) }
    ensures taken { IfOk result (λ steps. taken.new ≡ taken.old ++ deliveries steps) }
{
    let mut steps = Items::new(alloc);
    for table in tables {
        let number = steps.len() as u32 + 1;
        steps.push(step_at(alloc, names, taken, processor, number, table)?)?;
    }
    Ok(steps)
}

/// The step of this number. The name of its remote delivery is taken then.
fn step_at(
    alloc: Global,
    names: &Names,
    taken: &mut Names,
    processor: u32,
    number: u32,
    table: &Table,
) -> Result<Step, PlanFault>
    ensures exact { Answers result (located processor number (step_of names.now taken.old (table_view table.now))) }
    ensures taken { IfOk result (λ step. taken.new ≡ taken.old ++ deliveries (step ∷ [])) }
{
    match step(alloc, names, taken, table) {
        Ok(step) => Ok(step),
        Err(refusal) => Err(fault_at(refusal, processor, number)),
    }
}

/// The step of a table, where these processors are there. The name of its remote delivery is taken then.
fn step(alloc: Global, names: &Names, taken: &mut Names, table: &Table) -> Result<Step, Refusal>
    ensures exact { Gives result (step_of names.now taken.old (table_view table.now)) }
    ensures taken { IfOk result (λ step. taken.new ≡ taken.old ++ deliveries (step ∷ [])) }
{
    let matcher = matcher_in(alloc, table)?;
    let (mailet, (on_match, on_mailet)) = work_in(alloc, names, taken, table)?;
    Ok(Step {
        matcher,
        on_match,
        mailet,
        on_mailet,
    })
}

/// What mails a step takes.
fn matcher_in(alloc: Global, table: &Table) -> Result<MatchExpr, Refusal>
    ensures { Gives result (matcher_in (table_view table.now)) }
{
    matcher(alloc, required(table, "match")?)
}

/// What a step does with them, and where they go where that or the matcher fails.
fn work_in(
    alloc: Global,
    names: &Names,
    taken: &mut Names,
    table: &Table,
) -> Result<(MailetKind, (MatchRoute, MailetRoute)), Refusal>
    ensures exact { Gives result (work_in names.now taken.old (table_view table.now)) }
    ensures taken { IfOk result (λ work. taken.new ≡ taken.old ++ deliveries_of work.0) }
{
    let mailet = mailet_in(alloc, names, taken, table)?;
    let routes = routes_in(alloc, names, table)?;
    Ok((mailet, routes))
}

/// The mailet of a step. The name of its remote delivery is taken then.
fn mailet_in(
    alloc: Global,
    names: &Names,
    taken: &mut Names,
    table: &Table,
) -> Result<MailetKind, Refusal>
    ensures exact { Gives result (mailet_in names.now taken.old (table_view table.now)) }
    ensures taken { IfOk result (λ mailet. taken.new ≡ taken.old ++ deliveries_of mailet) }
{
    let mailet = mailet_at(alloc, names, taken, table)?;
    take_delivery(alloc, taken, &mailet)?;
    Ok(mailet)
}

/// The mailet of a step, whose remote delivery has a name that isn't taken.
fn mailet_at(
    alloc: Global,
    names: &Names,
    taken: &Names,
    table: &Table,
) -> Result<MailetKind, Refusal>
    ensures exact { Gives result (mailet_in names.now taken.now (table_view table.now)) }
    ensures new { IfOk result (λ mailet. IsNew taken.now mailet) }
{
    let class = text(required(table, "class")?)?;
    mailet_of(alloc, names, taken, class, table)
}

/// Adds the name of a remote delivery to those that are taken.
fn take_delivery(alloc: Global, taken: &mut Names, mailet: &MailetKind) -> Result<(), Memory>
    requires { IsNew taken.old mailet.now }
    ensures { OnOk result (taken.new ≡ taken.old ++ deliveries_of mailet.now) }
{
    match mailet {
        MailetKind::RemoteDelivery { outgoing, .. } => taken.add(alloc, outgoing.as_slice()),
        _ => Ok(()),
    }
}

/// Where a mail goes where the matcher or the mailet fails.
fn routes_in(
    alloc: Global,
    names: &Names,
    table: &Table,
) -> Result<(MatchRoute, MailetRoute), Refusal>
    ensures { Gives result (routes_in names.now (table_view table.now)) }
{
    let on_match = match_route_or_error(alloc, names, value_at(table, "onMatchException"))?;
    let on_mailet = mailet_route_or_error(alloc, names, value_at(table, "onMailetException"))?;
    Ok((on_match, on_mailet))
}

fn match_route_or_error(
    alloc: Global,
    names: &Names,
    value: Option<&Value>,
) -> Result<MatchRoute, Refusal>
    ensures { Gives result (optional default_match_route (match_route names.now) (option_map (λ v. view v.now) value.entry)) }
{
    match value {
        Some(value) => match_route(alloc, names, text(value)?),
        None => Ok(MatchRoute::To(Bytes::from_slice(alloc, b"error")?)),
    }
}

fn match_route(alloc: Global, names: &Names, text: &[u8]) -> Result<MatchRoute, Refusal>
    ensures { Gives result (match_route_of names.now text.now) }
{
    if is(text, "nomatch") {
        Ok(MatchRoute::NoMatch)
    } else if is(text, "matchall") {
        Ok(MatchRoute::MatchAll)
    } else {
        Ok(MatchRoute::To(target(alloc, names, text)?))
    }
}

fn mailet_route_or_error(
    alloc: Global,
    names: &Names,
    value: Option<&Value>,
) -> Result<MailetRoute, Refusal>
    ensures { Gives result (optional default_mailet_route (mailet_route names.now) (option_map (λ v. view v.now) value.entry)) }
{
    match value {
        Some(value) => mailet_route(alloc, names, text(value)?),
        None => Ok(MailetRoute::To(Bytes::from_slice(alloc, b"error")?)),
    }
}

fn mailet_route(alloc: Global, names: &Names, text: &[u8]) -> Result<MailetRoute, Refusal>
    ensures { Gives result (mailet_route_of names.now text.now) }
{
    if is(text, "ignore") {
        Ok(MailetRoute::Ignore)
    } else {
        Ok(MailetRoute::To(target(alloc, names, text)?))
    }
}
