//! Matchers: a condition, or a composite of matchers.
ghost use Rattle.std.specs.Prelude.{◌≡◌, ◌+◌, ◌<◌, length, nat_le, false, if◌then◌else◌, Err, MatchOption};
ghost use Rattle.mj_config_walk.specs.declared.fault.PlanKind.TheVariants.{TooMany};
ghost use Rattle.toml.specs.Data.{array, member, no_members};
ghost use Rattle.toml.specs.View.{items_view, table_view, view};
ghost use Rattle.mj_config_walk.specs.Values.{Gives, GivesBy};
ghost use Rattle.mj_config_walk.specs.Matchers.{are_matcher_values, composed, composite_at, composite_named, is_matcher_value, matcher, matcher_at, matchers_at, one};
ghost use Rattle.mj_config_walk.specs.Conditions.{condition};
ghost use Rattle.mj_config_matchers.specs.Composites.{build, has_one_member};

use crate::conditions::condition;
use mj_config_values::is;
use mj_config_walk::{PlanKind, Refusal};
use mj_fields::Items;
use mj_plan::MatchExpr;
use std::alloc::Global;
use toml::{Table, Value};

/// The most conditions that a matcher may have.
const MOST_CONDITIONS: u32 = 100;

/// How many composites may stand inside each other.
const MOST_DEPTH: u32 = 16;

/// The names of composites.
#[derive(Clone, Copy)]
enum Composite {
    And,
    Or,
    Not,
    Xor,
}

impl Composite {
    fn build(self, children: Items<MatchExpr>) -> MatchExpr
        ensures { result ≡ build self children }
    {
        match self {
            Composite::And => MatchExpr::And(children),
            Composite::Or => MatchExpr::Or(children),
            Composite::Not => MatchExpr::Not(children),
            Composite::Xor => MatchExpr::Xor(children),
        }
    }
}

/// The matcher that a value says: the condition of a text, or the composite of a table with one key and an array. It is
/// read from the left and from outside in, and the first fault there is the answer.
///
/// A text that names no condition is `UnknownMatcher`, and one whose argument isn't as its condition wants it `BadArgument`
/// or `BadAddress`; a table of another number of keys, of another key or of a number of children that the key doesn't take
/// is `BadArgument`. A 101st condition is `TooMany`, and a composite inside 16 others `TooDeep`. Any other value or child is
/// `WrongType`.
pub fn matcher(alloc: Global, value: &Value) -> Result<MatchExpr, Refusal>
    ensures { Gives result (matcher (view value.now)) }
{
    let (matcher, _) = matcher_at(alloc, 0, 0, value)?;
    Ok(matcher)
}

/// The matcher of a value that stands in so many composites and behind so many conditions, and how many conditions
/// there are with it.
#[cycle(matchers)]
fn matcher_at(
    alloc: Global,
    depth: u32,
    count: u32,
    value: &Value,
) -> Result<(MatchExpr, u32), Refusal>
    ensures { Gives result (matcher_at depth count (view value.now)) }
{
    match value {
        Value::String(text) => one(alloc, count, text.as_bytes()),
        Value::Table(table) => {
            if depth >= MOST_DEPTH {
                return Err(Refusal::Kind(PlanKind::TooDeep));
            }
            composite_at(alloc, depth, count, table)
        }
        _ => Err(Refusal::Kind(PlanKind::WrongType)),
    }
}

/// The matcher of a condition.
fn one(alloc: Global, count: u32, text: &[u8]) -> Result<(MatchExpr, u32), Refusal>
    ensures { Gives result (if nat_le 100 count then Err TooMany else one count (condition text.now)) }
{
    if count >= MOST_CONDITIONS {
        return Err(Refusal::Kind(PlanKind::TooMany));
    }
    let condition = condition(alloc, text)?;
    Ok((MatchExpr::One(condition), count + 1))
}

/// The composite of a table.
#[cycle(matchers)]
fn composite_at(
    alloc: Global,
    depth: u32,
    count: u32,
    table: &Table,
) -> Result<(MatchExpr, u32), Refusal>
    requires { depth < 16 }
    ensures { Gives result (composite_at depth count (table_view table.now)) }
{
    match only_member(table) {
        Some((name, value)) => composite_of(alloc, depth, count, name, value),
        None => Err(Refusal::Kind(PlanKind::BadArgument)),
    }
}

/// The key and the value of a table, if it has one key.
fn only_member(table: &Table) -> Option<(&[u8], &Value)>
    ensures { MatchOption result (has_one_member (table_view table.now) ≡ false)
        (λ one. table_view table.now ≡ member one.0.now (view one.1.now) no_members) }
{
    if table.len() != 1 {
        return None;
    }
    let (name, value) = table.first_key_value()?;
    Some((name.as_bytes(), value))
}

/// The composite of a key and its value.
#[cycle(matchers)]
fn composite_of(
    alloc: Global,
    depth: u32,
    count: u32,
    name: &[u8],
    value: &Value,
) -> Result<(MatchExpr, u32), Refusal>
    requires { depth < 16 }
    ensures { Gives result (composite_at depth count (member name.now (view value.now) no_members)) }
{
    match value {
        Value::Array(children) => composite_of_array(
            alloc,
            depth,
            count,
            name,
            children.as_slice(),
        ),
        _ => Err(Refusal::Kind(PlanKind::WrongType)),
    }
}

/// The composite of a key and an array, whose items may be texts and tables.
#[cycle(matchers)]
#[tactic(auto, using(mj_config_walk::proofs::Children::checked_children, mj_config_walk::proofs::Children::other_children))]
fn composite_of_array(
    alloc: Global,
    depth: u32,
    count: u32,
    name: &[u8],
    children: &[Value],
) -> Result<(MatchExpr, u32), Refusal>
    requires { depth < 16 }
    ensures { Gives result (composite_at depth count (member name.now (array (items_view children.now)) no_members)) }
{
    if !are_matcher_values(children) {
        return Err(Refusal::Kind(PlanKind::WrongType));
    }
    composed(alloc, depth, count, name, children)
}

/// The composite of a name and its children.
#[cycle(matchers)]
fn composed(
    alloc: Global,
    depth: u32,
    count: u32,
    name: &[u8],
    children: &[Value],
) -> Result<(MatchExpr, u32), Refusal>
    requires { depth < 16 }
    ensures { Gives result (composed (composite_named name.now (length children.now))
        (matchers_at (depth + 1) count (items_view children.now))) }
{
    let composite = composite_named(name, children.len())?;
    let (matchers, count) = matchers_at(alloc, depth + 1, count, children)?;
    Ok((composite.build(matchers), count))
}

/// The matchers of the children of a composite, and how many conditions there are with them.
#[cycle(matchers)]
fn matchers_at(
    alloc: Global,
    depth: u32,
    count: u32,
    children: &[Value],
) -> Result<(Items<MatchExpr>, u32), Refusal>
    ensures { Gives result (matchers_at depth count (items_view children.now)) }
{
    let mut matchers = Items::new(alloc);
    let mut count = count;
    for child in children {
        let (matcher, more) = matcher_at(alloc, depth, count, child)?;
        matchers.push(matcher)?;
        count = more;
    }
    Ok((matchers, count))
}

/// Whether each of the values is a text or a table.
fn are_matcher_values(values: &[Value]) -> bool
    ensures { result ≡ are_matcher_values (items_view values.now) }
{
    for value in values {
        if !is_matcher_value(value) {
            return false;
        }
    }
    true
}

fn is_matcher_value(value: &Value) -> bool
    ensures { result ≡ is_matcher_value (view value.now) }
{
    matches!(value, Value::String(_) | Value::Table(_))
}

/// The composite of this name, if it may have so many children.
fn composite_named(name: &[u8], children: usize) -> Result<Composite, Refusal>
    ensures { GivesBy build result (composite_named name.now children) }
{
    if is(name, "And") && children >= 1 {
        return Ok(Composite::And);
    }
    if is(name, "Or") && children >= 1 {
        return Ok(Composite::Or);
    }
    if is(name, "Not") && children >= 1 {
        return Ok(Composite::Not);
    }
    if is(name, "Xor") && children == 2 {
        return Ok(Composite::Xor);
    }
    Err(Refusal::Kind(PlanKind::BadArgument))
}
