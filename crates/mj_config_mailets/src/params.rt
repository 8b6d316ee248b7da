//! The parameters of mailets.
ghost use Rattle.std.specs.Prelude.{◌≡◌};
ghost use Rattle.toml.specs.Data.{get_member};
ghost use Rattle.toml.specs.View.{view, table_view};
ghost use Rattle.mj_config_walk.specs.Values.{Gives, GivesBy, optional};
ghost use Rattle.mj_config_values.specs.Forms.{has_form};
ghost use Rattle.mj_config_walk.specs.Arguments.{items};
ghost use Rattle.mj_config_walk.specs.Mailets.{param, formed_value, target_value, list_text, names_param, forward_param, pass_through};

use mj_address::Address;
use mj_config_values::{
    Names, TextForm, addresses, few, formed, required, target, text, texts_formed, truth, value_at,
};
use mj_config_walk::{PlanKind, Refusal};
use mj_fields::{Bytes, Items};
use mj_head::trim_blanks;
use std::alloc::Global;
use toml::{Table, Value};

/// A text of this form at a key that has to be there.
pub(crate) fn param(
    alloc: Global,
    form: TextForm,
    key: &str,
    step: &Table,
) -> Result<Bytes, Refusal>
    ensures { Gives result (param (has_form form) key.now (table_view step.now)) }
{
    let value = required(step, key)?;
    formed_value(alloc, form, value)
}

/// A text of this form at a key, or the default.
pub(crate) fn param_or(
    alloc: Global,
    default: &str,
    form: TextForm,
    key: &str,
    step: &Table,
) -> Result<Bytes, Refusal>
    ensures { Gives result (optional default.now (formed_value (has_form form)) (get_member key.now (table_view step.now))) }
{
    match value_at(step, key) {
        Some(value) => formed_value(alloc, form, value),
        None => Ok(Bytes::from_slice(alloc, default.as_bytes())?),
    }
}

/// The value as a text of this form.
fn formed_value(alloc: Global, form: TextForm, value: &Value) -> Result<Bytes, Refusal>
    ensures { Gives result (formed_value (has_form form) (view value.now)) }
{
    let text = text(value)?;
    formed(alloc, form, text)
}

/// The value as the name of a processor that is there, or `ghost`.
pub(crate) fn target_value(alloc: Global, names: &Names, value: &Value) -> Result<Bytes, Refusal>
    ensures { Gives result (target_value names.now (view value.now)) }
{
    let text = text(value)?;
    target(alloc, names, text)
}

/// Names of this form between commas.
pub(crate) fn names_param(
    alloc: Global,
    form: TextForm,
    step: &Table,
) -> Result<Items<Bytes>, Refusal>
    ensures { Gives result (names_param (has_form form) (table_view step.now)) }
{
    let value = required(step, "name")?;
    let names = list_text(value)?;
    few(texts_formed(alloc, form, names)?)
}

/// The text of a list, without the blanks round it. It has something else than blanks.
fn list_text(value: &Value) -> Result<&[u8], Refusal>
    ensures { GivesBy (λ s. items s.now) result (list_text (view value.now)) }
{
    let text = trim_blanks(text(value)?);
    if text.is_empty() {
        return Err(Refusal::Kind(PlanKind::BadArgument));
    }
    Ok(text)
}

/// The addresses that a mail is forwarded to, at most 500.
pub(crate) fn forward_param(alloc: Global, step: &Table) -> Result<Items<Address>, Refusal>
    ensures { Gives result (forward_param (table_view step.now)) }
{
    let value = required(step, "forwardTo")?;
    let names = list_text(value)?;
    let addresses = addresses(alloc, names)?;
    if addresses.len() > 500 {
        return Err(Refusal::Kind(PlanKind::TooMany));
    }
    Ok(addresses)
}

/// Whether the mail goes on.
pub(crate) fn pass_through(default: bool, step: &Table) -> Result<bool, Refusal>
    ensures { Gives result (pass_through default (table_view step.now)) }
{
    match value_at(step, "passThrough") {
        Some(value) => truth(value),
        None => Ok(default),
    }
}
