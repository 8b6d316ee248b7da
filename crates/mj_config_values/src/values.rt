//! The values of a configuration, each read to what it says.
ghost use Rattle.std.specs.Prelude.{◌≡◌, ◌<◌, ◌≤◌, option_map, IfOk};
ghost use Rattle.std.specs.Str.{bytes_eq};
ghost use Rattle.toml.specs.Data.{get_member, integer, string};
ghost use Rattle.toml.specs.View.{view, table_view, items_view};
ghost use Rattle.mj_config_walk.specs.Values.{Gives, GivesBy, required, text, whole, number, truth, texts, is_text, are_texts, address, domain, domain_value, local_part, moment};

use mj_address::{Address, AddressFault, Domain, judge_local};
use mj_config_walk::{PlanKind, Refusal};
use mj_delays::numeral;
use mj_fields::Bytes;
use mj_time::{MomentFault, read_moment};
use std::alloc::Global;
use toml::{Table, Value};

/// Whether the text is this word.
pub fn is(text: &[u8], word: &str) -> bool
    ensures { result ≡ bytes_eq text.now word.now }
{
    text == word.as_bytes()
}

/// The value at a key, if there is one.
#[tactic(auto, using(toml::proofs::Views::table_get))]
pub fn value_at<'a>(table: &'a Table, key: &str) -> Option<&'a Value>
    ensures { option_map (λ v. view v.now) result ≡ get_member key.now (table_view table.now) }
{
    table.get(key)
}

/// The value at a key that has to be there. A key that isn't there is `Missing`.
pub fn required<'a>(table: &'a Table, key: &str) -> Result<&'a Value, Refusal>
    ensures { GivesBy (λ v. view v.now) result (required key.now (table_view table.now)) }
{
    match value_at(table, key) {
        Some(value) => Ok(value),
        None => Err(Refusal::Kind(PlanKind::Missing)),
    }
}

/// The value as a text. Any other value is `WrongType`.
pub fn text(value: &Value) -> Result<&[u8], Refusal>
    ensures { GivesBy (λ s. s.now) result (text (view value.now)) }
{
    match value {
        Value::String(text) => Ok(text.as_bytes()),
        _ => Err(Refusal::Kind(PlanKind::WrongType)),
    }
}

/// The items of an array of texts. Any other value is `WrongType`.
pub fn texts(value: &Value) -> Result<&[Value], Refusal>
    ensures { GivesBy (λ items. items_view items.now) result (texts (view value.now)) }
{
    match value {
        Value::Array(values) if are_texts(values.as_slice()) => Ok(values.as_slice()),
        _ => Err(Refusal::Kind(PlanKind::WrongType)),
    }
}

fn are_texts(values: &[Value]) -> bool
    ensures { result ≡ are_texts (items_view values.now) }
{
    for value in values {
        if !is_text(value) {
            return false;
        }
    }
    true
}

fn is_text(value: &Value) -> bool
    ensures { result ≡ is_text (view value.now) }
{
    matches!(value, Value::String(_))
}

/// The value as a number from 0 to 999,999,999: an integer, or a text of 1 to 9 decimal digits. Another integer or text is
/// `BadArgument`, and any other value `WrongType`.
pub fn whole(value: &Value) -> Result<u32, Refusal>
    ensures { Gives result (whole (view value.now)) }
{
    match value {
        Value::Integer(number) => in_range(*number),
        Value::String(text) => spelled(text.as_bytes()),
        _ => Err(Refusal::Kind(PlanKind::WrongType)),
    }
}

fn in_range(number: i64) -> Result<u32, Refusal>
    ensures { Gives result (whole (integer number)) }
{
    if number < 0 || number >= 1_000_000_000 {
        return Err(Refusal::Kind(PlanKind::BadArgument));
    }
    Ok(number as u32)
}

fn spelled(text: &[u8]) -> Result<u32, Refusal>
    ensures { Gives result (whole (string text.now)) }
{
    match numeral(text) {
        Some(number) => Ok(number),
        None => Err(Refusal::Kind(PlanKind::BadArgument)),
    }
}

/// The value as a number that is at least `least` and at most `most`: an integer, or a text of 1 to 9 decimal digits.
/// Another integer or text is `BadArgument`, and any other value `WrongType`.
pub fn number(least: u32, most: u32, value: &Value) -> Result<u32, Refusal>
    ensures exact { Gives result (number least most (view value.now)) }
    ensures least { IfOk result (λ n. least ≤ n) }
    ensures most { IfOk result (λ n. n ≤ most) }
{
    let number = whole(value)?;
    if number < least || number > most {
        return Err(Refusal::Kind(PlanKind::BadArgument));
    }
    Ok(number)
}

/// The value as a truth value: a boolean, or the text `true` or `false`. Another text is `BadArgument`, and any other
/// value `WrongType`.
pub fn truth(value: &Value) -> Result<bool, Refusal>
    ensures { Gives result (truth (view value.now)) }
{
    match value {
        Value::Boolean(truth) => Ok(*truth),
        Value::String(text) if text.as_str() == "true" => Ok(true),
        Value::String(text) if text.as_str() == "false" => Ok(false),
        Value::String(_) => Err(Refusal::Kind(PlanKind::BadArgument)),
        _ => Err(Refusal::Kind(PlanKind::WrongType)),
    }
}

/// A text as an address. One that is none is `BadAddress`.
pub fn address(alloc: Global, text: &[u8]) -> Result<Address, Refusal>
    ensures { Gives result (address text.now) }
{
    match Address::read(alloc, text) {
        Ok(address) => Ok(address),
        Err(AddressFault::Memory) => Err(Refusal::Memory),
        Err(_) => Err(Refusal::Kind(PlanKind::BadAddress)),
    }
}

/// A text as a domain. One that is none is `BadAddress`.
pub fn domain(alloc: Global, text: &[u8]) -> Result<Domain, Refusal>
    ensures { Gives result (domain text.now) }
{
    match Domain::read(alloc, text) {
        Ok(domain) => Ok(domain),
        Err(AddressFault::Memory) => Err(Refusal::Memory),
        Err(_) => Err(Refusal::Kind(PlanKind::BadAddress)),
    }
}

/// The value as a domain. A text that is none is `BadAddress`, and any other value `WrongType`.
pub fn domain_value(alloc: Global, value: &Value) -> Result<Domain, Refusal>
    ensures { Gives result (domain_value (view value.now)) }
{
    domain(alloc, text(value)?)
}

/// A text as a local part. One that is none is `BadAddress`.
pub fn local_part(alloc: Global, text: &[u8]) -> Result<Bytes, Refusal>
    ensures { Gives result (local_part text.now) }
{
    match judge_local(text) {
        Ok(()) => Ok(Bytes::from_slice(alloc, text)?),
        Err(_) => Err(Refusal::Kind(PlanKind::BadAddress)),
    }
}

/// A text as a moment, in milliseconds since 1970-01-01T00:00:00Z and before the year 2101. One that is none is
/// `BadMoment`.
pub fn moment(text: &[u8]) -> Result<u64, Refusal>
    ensures exact { Gives result (moment text.now) }
    ensures bound { IfOk result (λ moment. moment < 4_133_980_800_000) }
{
    match read_moment(text) {
        Ok(moment) => Ok(moment),
        Err(MomentFault::Memory) => Err(Refusal::Memory),
        Err(_) => Err(Refusal::Kind(PlanKind::BadMoment)),
    }
}
