//! The first condition of a matcher that fails.
ghost use Rattle.std.specs.Prelude.{◌≡◌, ◌+◌, ◌<◌, ◌^◌, ◌∷◌, [], length, IfOk};
ghost use Rattle.std.specs.List.{flat_map};
ghost use Rattle.mj_container.specs.Matching.{conditions_of};
ghost use Rattle.mj_match.specs.Evaluated.{counted, Gives};

use crate::MatchError;
use crate::conditions::fails;
use mj_mail::Mail;
use mj_plan::{Condition, MatchExpr};
use std::alloc::Global;

/// How many conditions there are up to the end of this matcher, with so many before it; or the number of its first
/// condition that fails on the mail.
#[cycle(failing)]
pub(crate) fn counted(
    alloc: Global,
    matcher: &MatchExpr,
    mail: &Mail,
    before: u32,
) -> Result<u32, MatchError>
    requires few { before + length (conditions_of matcher.now) < 2 ^ 32 }
    ensures { Gives result (counted mail.now before (conditions_of matcher.now)) }
{
    match matcher {
        MatchExpr::One(condition) => counted_condition(alloc, condition, mail, before),
        MatchExpr::And(children) => counted_in(alloc, children.as_slice(), mail, before),
        MatchExpr::Or(children) => counted_in(alloc, children.as_slice(), mail, before),
        MatchExpr::Not(children) => counted_in(alloc, children.as_slice(), mail, before),
        MatchExpr::Xor(children) => counted_in(alloc, children.as_slice(), mail, before),
    }
}

/// The same of a single condition.
fn counted_condition(
    alloc: Global,
    condition: &Condition,
    mail: &Mail,
    before: u32,
) -> Result<u32, MatchError>
    requires { before + 1 < 2 ^ 32 }
    ensures { Gives result (counted mail.now before (condition.now ∷ [])) }
{
    let number = before + 1;
    if fails(alloc, condition, mail)? {
        return Err(MatchError::Failed { condition: number });
    }
    Ok(number)
}

/// The same of several matchers.
#[cycle(failing)]
fn counted_in(
    alloc: Global,
    matchers: &[MatchExpr],
    mail: &Mail,
    before: u32,
) -> Result<u32, MatchError>
    requires few { before + length (flat_map conditions_of matchers.now) < 2 ^ 32 }
    ensures { Gives result (counted mail.now before (flat_map conditions_of matchers.now)) }
{
    let mut count = before;
    for matcher in matchers {
        count = counted(alloc, matcher, mail, count)?;
    }
    Ok(count)
}
