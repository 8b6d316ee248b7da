//! Arguments of matchers, each read to the condition that it makes.
ghost use Rattle.std.specs.Prelude.{◌≡◌, ◌∷◌, [], Ok};
ghost use Rattle.std.specs.Option.{option_copied};
ghost use Rattle.mj_config_walk.specs.Values.{Gives, GivesBy, address, domain, formed, is_filled};
ghost use Rattle.mj_config_walk.specs.Arguments.{attribute_value, bare, comparison, given, header, listed, relation, whole_text, words};

use crate::numbers::digits;
use crate::words::next_word;
use mj_address::{Address, Domain};
use mj_config_values::{TextForm, addresses, cut, domains, few, formed, is, texts_formed};
use mj_config_walk::{PlanKind, Refusal};
use mj_fields::Bytes;
use mj_head::trim_blanks;
use mj_plan::{Condition, Listed, Relation, User};
use std::alloc::Global;

/// The condition, where no argument is given.
pub(crate) fn bare(condition: Condition, argument: Option<&[u8]>) -> Result<Condition, Refusal>
    ensures { Gives result (bare condition (option_copied argument.entry)) }
{
    match argument {
        None => Ok(condition),
        Some(_) => Err(Refusal::Kind(PlanKind::BadArgument)),
    }
}

/// The argument, which has to be given and isn't empty.
pub(crate) fn given(argument: Option<&[u8]>) -> Result<&[u8], Refusal>
    ensures { GivesBy (λ s. s.now) result (given (option_copied argument.entry)) }
{
    match argument {
        Some(text) if !text.is_empty() => Ok(text),
        _ => Err(Refusal::Kind(PlanKind::BadArgument)),
    }
}

/// A list of 1 to 100 addresses.
pub(crate) fn listed_addresses(alloc: Global, text: &[u8]) -> Result<Listed<Address>, Refusal>
    ensures { Gives result (listed address text.now) }
{
    Ok(Listed::new(alloc, few(addresses(alloc, text)?)?)?)
}

/// A list of 1 to 100 domains.
pub(crate) fn listed_domains(alloc: Global, text: &[u8]) -> Result<Listed<Domain>, Refusal>
    ensures { Gives result (listed domain text.now) }
{
    Ok(Listed::new(alloc, few(domains(alloc, text)?)?)?)
}

/// A list of 1 to 100 users, none of them empty.
pub(crate) fn listed_users(alloc: Global, text: &[u8]) -> Result<Listed<User<'static>>, Refusal>
    ensures { Gives result (listed (formed is_filled) text.now) }
{
    let names = few(texts_formed(alloc, TextForm::Filled, text)?)?;
    Ok(Listed::of_names(alloc, names)?)
}

/// A text, whatever it is.
pub(crate) fn whole_text(alloc: Global, text: &[u8]) -> Result<Bytes, Refusal>
    ensures { Gives result (whole_text text.now) }
{
    Ok(Bytes::from_slice(alloc, text)?)
}

/// A copy of a text, if there is one.
fn copied(alloc: Global, text: Option<&[u8]>) -> Result<Option<Bytes>, Refusal>
    ensures { Gives result (Ok (option_copied text.entry)) }
{
    match text {
        None => Ok(None),
        Some(text) => Ok(Some(Bytes::from_slice(alloc, text)?)),
    }
}

/// A field, and maybe the value behind `=`.
pub(crate) fn header(alloc: Global, text: &[u8]) -> Result<Condition, Refusal>
    ensures { Gives result (header text.now) }
{
    let (field, value) = cut(b'=', text);
    let field = formed(alloc, TextForm::FieldName, field)?;
    let value = copied(alloc, value)?;
    Ok(Condition::HasHeader { field, value })
}

/// An attribute and its value with a comma between them.
pub(crate) fn attribute_value(alloc: Global, text: &[u8]) -> Result<Condition, Refusal>
    ensures { Gives result (attribute_value text.now) }
{
    let (name, value) = cut(b',', text);
    let Some(value) = value else {
        return Err(Refusal::Kind(PlanKind::BadArgument));
    };
    let name = formed(alloc, TextForm::AttributeName, trim_blanks(name))?;
    let value = formed(alloc, TextForm::AttributeValue, trim_blanks(value))?;
    Ok(Condition::HasMailAttributeWithValue { name, value })
}

/// The relation that a sign stands for.
fn relation(sign: &[u8]) -> Option<Relation>
    ensures { result ≡ relation sign.now }
{
    if is(sign, "<") {
        return Some(Relation::Less);
    }
    if is(sign, "<=") {
        return Some(Relation::AtMost);
    }
    if is(sign, "=") || is(sign, "==") {
        return Some(Relation::Equal);
    }
    if is(sign, ">=") {
        return Some(Relation::AtLeast);
    }
    if is(sign, ">") {
        return Some(Relation::Greater);
    }
    None
}

/// A field, a relation and a number of 1 to 18 digits, with spaces between them.
pub(crate) fn comparison(alloc: Global, text: &[u8]) -> Result<Condition, Refusal>
    ensures { Gives result (comparison (words text.now)) }
{
    let Some((field, rest)) = next_word(text) else {
        return Err(Refusal::Kind(PlanKind::BadArgument));
    };
    let Some((sign, rest)) = next_word(rest) else {
        return Err(Refusal::Kind(PlanKind::BadArgument));
    };
    let Some((number, rest)) = next_word(rest) else {
        return Err(Refusal::Kind(PlanKind::BadArgument));
    };
    if next_word(rest).is_some() {
        return Err(Refusal::Kind(PlanKind::BadArgument));
    }
    compared(alloc, field, sign, number)
}

fn compared(alloc: Global, field: &[u8], sign: &[u8], number: &[u8]) -> Result<Condition, Refusal>
    ensures { Gives result (comparison (field.now ∷ sign.now ∷ number.now ∷ [])) }
{
    let field = formed(alloc, TextForm::FieldName, field)?;
    let Some(relation) = relation(sign) else {
        return Err(Refusal::Kind(PlanKind::BadArgument));
    };
    let Some(number) = digits(18, number) else {
        return Err(Refusal::Kind(PlanKind::BadArgument));
    };
    Ok(Condition::CompareNumericHeaderValue {
        field,
        relation,
        number,
    })
}
