//! The tables `[[processor]]`: their names first, since steps speak of them, and then their steps.
ghost use Rattle.std.specs.Prelude.{◌≡◌, [], ◌∷◌, ◌++◌, ◌≤◌, false, map, length, IfOk};
ghost use Rattle.std.specs.List.{list_any};
ghost use Rattle.std.specs.Str.{bytes_eq};
ghost use Rattle.toml.specs.View.{view, table_view};
ghost use Rattle.mj_plan.specs.Sound.{is_reserved};
ghost use Rattle.mj_config_walk.specs.Values.{GivesBy};
ghost use Rattle.mj_terms.specs.Answers.{◌>>=◌ as ◌then◌};
ghost use Rattle.mj_config_walk.specs.Walk.{Answers, AnswersBy, deliveries, header_of, headers_from, located, names_of, new_name, processors_from, processors_of, steps_from};
ghost use Rattle.mj_config.specs.Seen.{header_seen};
ghost use Rattle.mj_config_walk.specs.declared.fault.PlanFault.TheVariants.{Refused};

use crate::fault::fault_at;
use crate::header::Header;
use crate::steps::steps;
use mj_config_values::{Names, is, required, tables_or_none, text, value_at};
use mj_config_walk::{PlanFault, PlanKind, Refusal};
use mj_fields::{Bytes, Items};
use mj_plan::{Processor, is_processor_name};
use std::alloc::Global;
use toml::{Table, Value};

/// The most steps that a processor may have.
const MAX_STEPS: usize = 200;

/// The processors of a plan, which has `root` and `error` among them.
pub(crate) fn processors_of(alloc: Global, tables: &[&Table]) -> Result<Items<Processor>, PlanFault>
    requires { length tables.now ≤ 100 }
    ensures { Answers result (headers_from 1 [] (map (λ t. table_view t.now) tables.now) then processors_of) }
{
    let (headers, names) = headers(alloc, tables)?;
    named_processors(alloc, &names, headers.as_slice())
}

/// The processors of these headers, which have these names.
fn named_processors(
    alloc: Global,
    names: &Names,
    headers: &[Header],
) -> Result<Items<Processor>, PlanFault>
    requires few { length headers.now ≤ 100 }
    requires names { names.now ≡ names_of (map header_seen headers.now) }
    ensures { Answers result (processors_of (map header_seen headers.now)) }
{
    if !names.contains(b"root") {
        return Err(whole_fault(PlanKind::NoRoot));
    }
    if !names.contains(b"error") {
        return Err(whole_fault(PlanKind::NoError));
    }
    processors(alloc, names, headers)
}

/// The fault of the whole configuration.
fn whole_fault(kind: PlanKind) -> PlanFault
    ensures { result ≡ Refused kind 0 0 }
{
    PlanFault::Refused {
        kind,
        processor: 0,
        step: 0,
    }
}

/// The names and the steps of all processors in order, and the set of the names.
fn headers<'a>(alloc: Global, tables: &[&'a Table]) -> Result<(Vec<Header<'a>>, Names), PlanFault>
    requires { length tables.now ≤ 100 }
    ensures exact { AnswersBy (λ read. map header_seen read.0.items) result
        (headers_from 1 [] (map (λ t. table_view t.now) tables.now)) }
    ensures names { IfOk result (λ read. read.1 ≡ names_of (map header_seen read.0.items)) }
    ensures few { IfOk result (λ read. length read.0.items ≤ 100) }
{
    let mut headers = Vec::new(alloc);
    let mut names = Names::new(alloc);
    for table in tables {
        let place = headers.len() as u32 + 1;
        headers.push(header_at(alloc, &mut names, place, table)?)?;
    }
    Ok((headers, names))
}

/// The header of the processor of this number. Its name is among the names then.
fn header_at<'a>(
    alloc: Global,
    names: &mut Names,
    place: u32,
    table: &'a Table,
) -> Result<Header<'a>, PlanFault>
    ensures exact { AnswersBy header_seen result (located place 0 (header_of names.old (table_view table.now))) }
    ensures names { IfOk result (λ header. names.new ≡ names.old ++ header.name.now ∷ []) }
{
    match read_header(alloc, names, table) {
        Ok(header) => {
            names.add(alloc, header.name)?;
            Ok(header)
        }
        Err(refusal) => Err(fault_at(refusal, place, 0)),
    }
}

/// The processors with their steps.
fn processors(
    alloc: Global,
    names: &Names,
    headers: &[Header],
) -> Result<Items<Processor>, PlanFault>
    requires { length headers.now ≤ 100 }
    ensures { Answers result (processors_from names.now [] 1 (map header_seen headers.now)) }
{
    let mut processors = Items::new(alloc);
    let mut taken = Names::new(alloc);
    for header in headers {
        let place = processors.len() as u32 + 1;
        processors.push(processor_at(alloc, names, &mut taken, place, header)?)?;
    }
    Ok(processors)
}

/// The processor of this number. The names of its remote deliveries are taken then.
fn processor_at(
    alloc: Global,
    names: &Names,
    taken: &mut Names,
    place: u32,
    header: &Header,
) -> Result<Processor, PlanFault>
    ensures exact { AnswersBy (λ processor. processor.steps) result
        (steps_from names.now taken.old place 1 (header_seen header.now).steps) }
    ensures name { IfOk result (λ processor. processor.name ≡ header.now.name.now) }
    ensures taken { IfOk result (λ processor. taken.new ≡ taken.old ++ deliveries processor.steps) }
{
    let steps = steps(alloc, names, taken, place, header.steps.as_slice())?;
    let name = Bytes::from_slice(alloc, header.name)?;
    Ok(Processor { name, steps })
}

/// The name and the steps of a processor, where these names stand before.
fn read_header<'a>(alloc: Global, earlier: &Names, table: &'a Table) -> Result<Header<'a>, Refusal>
    ensures exact { GivesBy header_seen result (header_of earlier.now (table_view table.now)) }
    ensures new { IfOk result (λ header. list_any (bytes_eq header.name.now) earlier.now ≡ false) }
{
    let name = new_name(earlier, required(table, "name")?)?;
    let steps = tables_or_none(alloc, MAX_STEPS, value_at(table, "step"))?;
    Ok(Header { name, steps })
}

/// A name that no processor before has.
fn new_name<'a>(earlier: &Names, value: &'a Value) -> Result<&'a [u8], Refusal>
    ensures exact { GivesBy (λ s. s.now) result (new_name earlier.now (view value.now)) }
    ensures new { IfOk result (λ s. list_any (bytes_eq s.now) earlier.now ≡ false) }
{
    let name = text(value)?;
    if !is_processor_name(name) {
        return Err(Refusal::Kind(PlanKind::BadArgument));
    }
    if is_reserved(name) {
        return Err(Refusal::Kind(PlanKind::ReservedState));
    }
    if earlier.contains(name) {
        return Err(Refusal::Kind(PlanKind::Twice));
    }
    Ok(name)
}

/// Whether the name stands for something else than a processor.
fn is_reserved(name: &[u8]) -> bool
    ensures { result ≡ is_reserved name.now }
{
    is(name, "ghost") || is(name, "nomatch") || is(name, "matchall") || is(name, "ignore")
}
