//! The whole configuration.
ghost use Rattle.std.specs.Prelude.{option_map, Ok, IfOk};
ghost use Rattle.mj_plan.specs.Sound.{IsSound};
ghost use Rattle.toml.specs.View.{view, table_view};
ghost use Rattle.mj_terms.specs.Answers.{◌>>=◌ as ◌then◌};
ghost use Rattle.mj_config_walk.specs.Values.{Gives};
ghost use Rattle.mj_config_walk.specs.Walk.{Answers, document, located, plan, plan_of, plan_of_document, plan_of_text, processors_in, rewrite_of, spool_in};

use crate::fault::fault_at;
use crate::processors::processors_of;
use crate::rewrite::rewrite;
use crate::spool::read_spool;
use mj_config_values::{tables_or_none, value_at};
use mj_config_walk::{PlanFault, PlanKind, Refusal, Spool};
use mj_fields::Items;
use mj_plan::{Mappings, Plan, Processor};
use std::alloc::Global;
use toml::{Table, Value};

/// The most bytes that a configuration may have.
pub const MAX_CONFIGURATION: usize = 1_048_576;

/// The most processors that there may be.
const MAX_PROCESSORS: usize = 100;

/// The plan of a configuration, or its first fault, in the order of the tables of the reference: the file as a whole,
/// `[spool]`, `[[rewrite]]`, the names of `[[processor]]`, and then their steps. The bytes are those of the file, or
/// the first 1,048,577 of them.
///
/// Each plan that is answered is sound: it keeps every form, limit and reference.
#[tactic(auto, using(mj_config_sound::proofs::Sound::answers_sound))]
pub fn read_plan(alloc: Global, bytes: &[u8]) -> Result<Plan, PlanFault>
    ensures exact { Answers result (plan bytes.now) }
    ensures sound { IfOk result IsSound }
{
    read_bytes(alloc, bytes)
}

#[tactic(auto, unfolding(mj_config_walk::specs::Walk::plan))]
fn read_bytes(alloc: Global, bytes: &[u8]) -> Result<Plan, PlanFault>
    ensures { Answers result (plan bytes.now) }
{
    if bytes.len() > MAX_CONFIGURATION {
        return Err(PlanFault::Refused {
            kind: PlanKind::TooLarge,
            processor: 0,
            step: 0,
        });
    }
    read_text(alloc, bytes)
}

#[tactic(auto, using(mj_config_walk::proofs::Documents::document_read, mj_config_walk::proofs::Documents::document_refused))]
fn read_text(alloc: Global, bytes: &[u8]) -> Result<Plan, PlanFault>
    ensures { Answers result (plan_of_text (document bytes.now)) }
{
    match toml::table_from_slice(alloc, bytes) {
        Ok(table) => read_document(alloc, &table),
        Err(e) => {
            if e.is_memory() {
                Err(PlanFault::Memory)
            } else {
                Err(PlanFault::Refused {
                    kind: PlanKind::NotToml,
                    processor: 0,
                    step: 0,
                })
            }
        }
    }
}

fn read_document(alloc: Global, document: &Table) -> Result<Plan, PlanFault>
    ensures { Answers result (plan_of_document (table_view document.now)) }
{
    let spool = spool_at(alloc, value_at(document, "spool"))?;
    let mappings = rewrite_at(alloc, value_at(document, "rewrite"))?;
    read_rest(alloc, spool, mappings, value_at(document, "processor"))
}

/// The plan of a spool and of mappings, with the processors of this value.
fn read_rest(
    alloc: Global,
    spool: Spool,
    mappings: Mappings,
    value: Option<&Value>,
) -> Result<Plan, PlanFault>
    ensures { Answers result (processors_in (option_map (λ v. view v.now) value.entry) then
        (λ processors. Ok (plan_of spool mappings processors))) }
{
    let processors = processors_at(alloc, value)?;
    Ok(Plan {
        host_name: spool.host_name,
        postmaster: spool.postmaster,
        local_hosts: spool.local_hosts,
        local_users: spool.local_users,
        start: spool.start,
        max_hops: spool.max_hops,
        mappings,
        processors,
    })
}

fn spool_at(alloc: Global, value: Option<&Value>) -> Result<Spool, PlanFault>
    ensures { Answers result (located 0 0 (spool_in (option_map (λ v. view v.now) value.entry))) }
{
    match spool(alloc, value) {
        Ok(spool) => Ok(spool),
        Err(refusal) => Err(fault_at(refusal, 0, 0)),
    }
}

/// What `[spool]` says; where it is missing, all its keys are.
fn spool(alloc: Global, value: Option<&Value>) -> Result<Spool, Refusal>
    ensures { Gives result (spool_in (option_map (λ v. view v.now) value.entry)) }
{
    match value {
        Some(Value::Table(table)) => read_spool(alloc, table),
        Some(_) => Err(Refusal::Kind(PlanKind::WrongType)),
        None => Err(Refusal::Kind(PlanKind::Missing)),
    }
}

fn rewrite_at(alloc: Global, value: Option<&Value>) -> Result<Mappings, PlanFault>
    ensures { Answers result (located 0 0 (rewrite_of (option_map (λ v. view v.now) value.entry))) }
{
    match rewrite(alloc, value) {
        Ok(mappings) => Ok(mappings),
        Err(refusal) => Err(fault_at(refusal, 0, 0)),
    }
}

fn processors_at(alloc: Global, value: Option<&Value>) -> Result<Items<Processor>, PlanFault>
    ensures { Answers result (processors_in (option_map (λ v. view v.now) value.entry)) }
{
    match tables_or_none(alloc, MAX_PROCESSORS, value) {
        Ok(tables) => processors_of(alloc, tables.as_slice()),
        Err(refusal) => Err(fault_at(refusal, 0, 0)),
    }
}
