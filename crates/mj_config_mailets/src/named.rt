//! Texts with names: attributes and their values, and attributes and the fields that take them.
ghost use Rattle.std.specs.Prelude.{◌≡◌, ◌&&◌, IfOk};
ghost use Rattle.std.specs.List.{list_all};
ghost use Rattle.toml.specs.View.{view, table_view, items_view};
ghost use Rattle.mj_plan.specs.Forms.{is_attribute_name, is_attribute_value};
ghost use Rattle.mj_config_walk.specs.Values.{Gives, each, each_text};
ghost use Rattle.mj_config_walk.specs.Mailets.{named_texts, table_of_texts, attribute, attributes_param, header_mapping, mapping_param};

use mj_config_values::{TextForm, cut, few, formed, required, text, texts};
use mj_config_walk::{PlanKind, Refusal};
use mj_fields::{Bytes, Items, Memory};
use mj_plan::Named;
use std::alloc::Global;
use toml::{Table, Value};

/// Mail attributes and their values.
pub(crate) fn attributes_param(alloc: Global, step: &Table) -> Result<Items<Named>, Refusal>
    ensures { Gives result (attributes_param (table_view step.now)) }
{
    let value = required(step, "attributes")?;
    let named = table_of_texts(alloc, value)?;
    few(attributes_of(named)?)
}

/// The members of a table of texts, in the order of their names.
fn table_of_texts(alloc: Global, value: &Value) -> Result<Items<Named>, Refusal>
    ensures { Gives result (table_of_texts (view value.now)) }
{
    match value {
        Value::Table(table) => named_texts(alloc, table),
        _ => Err(Refusal::Kind(PlanKind::WrongType)),
    }
}

fn named_texts(alloc: Global, table: &Table) -> Result<Items<Named>, Refusal>
    ensures { Gives result (named_texts (table_view table.now)) }
{
    let mut named = Items::new(alloc);
    for (name, value) in table {
        let text = text(value)?;
        named.push(named_text(alloc, name.as_bytes(), text)?)?;
    }
    Ok(named)
}

/// A text with its name.
fn named_text(alloc: Global, name: &[u8], text: &[u8]) -> Result<Named, Memory>
    ensures { IfOk result (λ named. named ≡ record { name = name.now; value = text.now }) }
{
    let name = Bytes::from_slice(alloc, name)?;
    let value = Bytes::from_slice(alloc, text)?;
    Ok(Named { name, value })
}

/// These, where each has the forms of an attribute and its value.
#[tactic(auto, using(mj_config_walk::proofs::Attributes::all_judged))]
fn attributes_of(named: Items<Named>) -> Result<Items<Named>, Refusal>
    ensures { Gives result (each attribute named) }
{
    if !are_attributes(named.as_slice()) {
        return Err(Refusal::Kind(PlanKind::BadArgument));
    }
    Ok(named)
}

fn are_attributes(named: &[Named]) -> bool
    ensures { result ≡ list_all (λ named. is_attribute_name named.name && is_attribute_value named.value) named.now }
{
    named.iter().all(is_attribute)
}

/// Whether the two texts have the forms of an attribute and its value.
fn is_attribute(named: &Named) -> bool
    ensures { result ≡ (is_attribute_name named.now.name && is_attribute_value named.now.value) }
{
    let name = TextForm::AttributeName.holds(named.name.as_slice());
    let value = TextForm::AttributeValue.holds(named.value.as_slice());
    name && value
}

/// The texts of an array as attributes and fields.
pub(crate) fn mapping_param(alloc: Global, step: &Table) -> Result<Items<Named>, Refusal>
    ensures { Gives result (mapping_param (table_view step.now)) }
{
    let value = required(step, "simplemapping")?;
    let pairs = texts(value)?;
    few(header_mappings(alloc, pairs)?)
}

fn header_mappings(alloc: Global, pairs: &[Value]) -> Result<Items<Named>, Refusal>
    ensures { Gives result (each_text header_mapping (items_view pairs.now)) }
{
    let mut mappings = Items::new(alloc);
    for pair in pairs {
        let text = text(pair)?;
        mappings.push(header_mapping(alloc, text)?)?;
    }
    Ok(mappings)
}

/// An attribute and a field with a semicolon between them.
fn header_mapping(alloc: Global, text: &[u8]) -> Result<Named, Refusal>
    ensures { Gives result (header_mapping text.now) }
{
    let (name, field) = cut(b';', text);
    let Some(field) = field else {
        return Err(Refusal::Kind(PlanKind::BadArgument));
    };
    let name = formed(alloc, TextForm::AttributeName, name)?;
    let value = formed(alloc, TextForm::FieldName, field)?;
    Ok(Named { name, value })
}
