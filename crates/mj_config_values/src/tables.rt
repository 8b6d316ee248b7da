//! Tables, and arrays of tables.
ghost use Rattle.std.specs.Prelude.{◌≡◌, ◌≤◌, length, map, option_map, IfOk};
ghost use Rattle.toml.specs.View.{view, table_view, items_view};
ghost use Rattle.mj_config_walk.specs.Values.{GivesBy, tables, tables_in};
ghost use Rattle.mj_config_walk.specs.Walk.{few_tables, tables_or_none};

use mj_config_walk::{PlanKind, Refusal};
use std::alloc::Global;
use toml::{Table, Value};

/// The tables of an array of at most so many tables; a missing one has none. Any other value is `WrongType`, and an array
/// of more tables `TooMany`.
pub fn tables_or_none<'a>(
    alloc: Global,
    most: usize,
    value: Option<&'a Value>,
) -> Result<Vec<&'a Table>, Refusal>
    ensures exact { GivesBy (λ all. map (λ t. table_view t.now) all.items) result
        (tables_or_none most (option_map (λ v. view v.now) value.entry)) }
    ensures few { IfOk result (λ all. length all.items ≤ most) }
{
    match value {
        None => Ok(Vec::new(alloc)),
        Some(value) => few_tables(alloc, most, value),
    }
}

#[tactic(auto, using(mj_config_walk::proofs::Seen::map_length))]
fn few_tables<'a>(alloc: Global, most: usize, value: &'a Value) -> Result<Vec<&'a Table>, Refusal>
    ensures exact { GivesBy (λ all. map (λ t. table_view t.now) all.items) result (few_tables most (view value.now)) }
    ensures few { IfOk result (λ all. length all.items ≤ most) }
{
    let all = tables(alloc, value)?;
    if all.len() > most {
        return Err(Refusal::Kind(PlanKind::TooMany));
    }
    Ok(all)
}

/// The tables of an array of tables.
fn tables<'a>(alloc: Global, value: &'a Value) -> Result<Vec<&'a Table>, Refusal>
    ensures { GivesBy (λ all. map (λ t. table_view t.now) all.items) result (tables (view value.now)) }
{
    match value {
        Value::Array(values) => tables_in(alloc, values.as_slice()),
        _ => Err(Refusal::Kind(PlanKind::WrongType)),
    }
}

fn tables_in<'a>(alloc: Global, values: &'a [Value]) -> Result<Vec<&'a Table>, Refusal>
    ensures { GivesBy (λ all. map (λ t. table_view t.now) all.items) result (tables_in (items_view values.now)) }
{
    let mut tables = Vec::new(alloc);
    for value in values {
        match value {
            Value::Table(table) => tables.push(table)?,
            _ => return Err(Refusal::Kind(PlanKind::WrongType)),
        }
    }
    Ok(tables)
}
