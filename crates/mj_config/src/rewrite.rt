//! The rows `[[rewrite]]`.
ghost use Rattle.std.specs.Prelude.{◌≡◌, map, option_map};
ghost use Rattle.toml.specs.View.{view, table_view, items_view};
ghost use Rattle.mj_config_walk.specs.Values.{Gives, each};
ghost use Rattle.mj_config_walk.specs.Walk.{addresses_row, error_row, host_row, host_row_or_none, mapping_of, rewrite_of, targets};

use mj_address::Address;
use mj_config_values::{
    TextForm, address, addresses_in, domain, formed, tables_or_none, text, texts, value_at,
};
use mj_config_walk::{PlanKind, Refusal};
use mj_fields::Items;
use mj_plan::{Mapping, Mappings};
use std::alloc::Global;
use toml::{Table, Value};

/// The most rows that there may be.
const MAX_ROWS: usize = 1_000;

/// The most targets of a row.
const MAX_TARGETS: usize = 100;

/// The mappings of the array `rewrite`, if there is one.
pub(crate) fn rewrite(alloc: Global, value: Option<&Value>) -> Result<Mappings, Refusal>
    ensures { Gives result (rewrite_of (option_map (λ v. view v.now) value.entry)) }
{
    let rows = tables_or_none(alloc, MAX_ROWS, value)?;
    let mappings = mappings(alloc, rows.as_slice())?;
    Ok(Mappings::new(alloc, mappings)?)
}

fn mappings(alloc: Global, rows: &[&Table]) -> Result<Items<Mapping>, Refusal>
    ensures { Gives result (each mapping_of (map (λ t. table_view t.now) rows.now)) }
{
    let mut mappings = Items::new(alloc);
    for row in rows {
        mappings.push(mapping(alloc, row)?)?;
    }
    Ok(mappings)
}

/// The mapping of a row: the first of the three forms whose two keys it has.
fn mapping(alloc: Global, row: &Table) -> Result<Mapping, Refusal>
    ensures { Gives result (mapping_of (table_view row.now)) }
{
    let from = value_at(row, "from");
    let to = value_at(row, "to");
    let error = value_at(row, "error");
    match (from, to, error) {
        (Some(from), Some(to), _) => addresses_row(alloc, from, to),
        (Some(from), None, Some(error)) => error_row(alloc, from, error),
        _ => host_row_or_none(alloc, value_at(row, "domain"), value_at(row, "to_domain")),
    }
}

fn addresses_row(alloc: Global, from: &Value, to: &Value) -> Result<Mapping, Refusal>
    ensures { Gives result (addresses_row (view from.now) (view to.now)) }
{
    let from = text(from)?;
    let to = texts(to)?;
    let from = address(alloc, from)?;
    let to = targets(alloc, to)?;
    Ok(Mapping::Addresses { from, to })
}

fn targets(alloc: Global, values: &[Value]) -> Result<Items<Address>, Refusal>
    ensures { Gives result (targets (items_view values.now)) }
{
    let targets = addresses_in(alloc, values)?;
    if targets.len() > MAX_TARGETS {
        return Err(Refusal::Kind(PlanKind::TooMany));
    }
    if targets.is_empty() {
        return Err(Refusal::Kind(PlanKind::BadArgument));
    }
    Ok(targets)
}

fn error_row(alloc: Global, from: &Value, error: &Value) -> Result<Mapping, Refusal>
    ensures { Gives result (error_row (view from.now) (view error.now)) }
{
    let from = text(from)?;
    let error = text(error)?;
    let from = address(alloc, from)?;
    let text = formed(alloc, TextForm::Line, error)?;
    Ok(Mapping::Error { from, text })
}

fn host_row_or_none(
    alloc: Global,
    from: Option<&Value>,
    to: Option<&Value>,
) -> Result<Mapping, Refusal>
    ensures { Gives result (host_row_or_none (option_map (λ v. view v.now) from.entry)
        (option_map (λ v. view v.now) to.entry)) }
{
    match (from, to) {
        (Some(from), Some(to)) => host_row(alloc, from, to),
        _ => Err(Refusal::Kind(PlanKind::Missing)),
    }
}

fn host_row(alloc: Global, from: &Value, to: &Value) -> Result<Mapping, Refusal>
    ensures { Gives result (host_row (view from.now) (view to.now)) }
{
    let from = text(from)?;
    let to = text(to)?;
    let from = domain(alloc, from)?;
    let to = domain(alloc, to)?;
    Ok(Mapping::Host { from, to })
}
