//! For which recipients a matcher holds, where none of its conditions fails.
ghost use Rattle.std.specs.Prelude.{◌≡◌, ◌+◌, ◌<◌, ◌^◌, map, length, replicate, IfOk};
ghost use Rattle.std.specs.List.{AllByRecursion};
ghost use Rattle.mj_plan.specs.Sound.{is_between};
ghost use Rattle.mj_match.specs.Composites.{hits_of, one_more, with_truths};
ghost use Rattle.mj_match.specs.Evaluated.{truths};

use crate::Mask;
use crate::conditions::truths_of_condition;
use mj_fields::Memory;
use mj_mail::Mail;
use mj_plan::{MatchExpr, Plan};
use std::alloc::{AllocError, Global};

/// For each recipient of the mail, whether the matcher takes it.
#[cycle(truths)]
pub(crate) fn truths(
    alloc: Global,
    matcher: &MatchExpr,
    plan: &Plan,
    mail: &Mail,
) -> Result<Mask, Memory>
    ensures { IfOk result (λ mask. mask ≡ truths plan.now mail.now matcher.now) }
{
    match matcher {
        MatchExpr::One(condition) => truths_of_condition(alloc, condition, plan, mail),
        MatchExpr::And(children) => {
            let all = children.len();
            takes_between(alloc, all, all, children.as_slice(), plan, mail)
        }
        MatchExpr::Or(children) => {
            takes_between(alloc, 1, children.len(), children.as_slice(), plan, mail)
        }
        MatchExpr::Not(children) => { takes_between(alloc, 0, 0, children.as_slice(), plan, mail) }
        MatchExpr::Xor(children) => { takes_between(alloc, 1, 1, children.as_slice(), plan, mail) }
    }
}

/// For each recipient of the mail, whether at least and at most so many of the matchers take it.
#[cycle(truths)]
fn takes_between(
    alloc: Global,
    least: usize,
    most: usize,
    matchers: &[MatchExpr],
    plan: &Plan,
    mail: &Mail,
) -> Result<Mask, Memory>
    ensures { IfOk result (λ mask. mask ≡ map (is_between least most) (map (hits_of plan.now mail.now matchers.now) mail.now.recipients)) }
{
    let counts = hits_of(alloc, matchers, plan, mail)?;
    let truths = are_between(alloc, least, most, &counts)?;
    Ok(Mask::from_vec(truths))
}

/// How many of the matchers take each recipient of the mail.
#[cycle(truths)]
fn hits_of(
    alloc: Global,
    matchers: &[MatchExpr],
    plan: &Plan,
    mail: &Mail,
) -> Result<Vec<usize>, Memory>
    ensures { IfOk result (λ counts. counts.items ≡ map (hits_of plan.now mail.now matchers.now) mail.now.recipients) }
{
    let mut counts = no_counts(alloc, mail.recipients.len())?;
    for matcher in matchers {
        let mask = truths(alloc, matcher, plan, mail)?;
        count_truths(&mut counts, mask.as_slice());
    }
    Ok(counts)
}

/// So many counts, each 0.
fn no_counts(alloc: Global, len: usize) -> Result<Vec<usize>, AllocError>
    ensures { IfOk result (λ counts. counts.items ≡ replicate len 0) }
{
    Ok(vec![in alloc; 0; len]?)
}

/// Whether each count is at least and at most so high.
fn are_between(
    alloc: Global,
    least: usize,
    most: usize,
    counts: &[usize],
) -> Result<Vec<bool>, AllocError>
    ensures { IfOk result (λ truths. truths.items ≡ map (is_between least most) counts.now) }
{
    counts
        .iter()
        .map(|count| least <= *count && *count <= most)
        .collect(alloc)
}

/// Makes each count one higher where the truth beside it is true.
fn count_truths(counts: &mut Vec<usize>, truths: &[bool])
    requires beside { length truths.now ≡ length counts.old.items }
    requires small { AllByRecursion (λ count. count + 1 < 2 ^ 64) counts.old.items }
    ensures { counts.new.items ≡ with_truths counts.old.items truths.now }
{
    for (k, truth) in truths.iter().enumerate() {
        counts[k] = one_more(counts[k], *truth);
    }
}

/// The count, one higher where the truth is.
fn one_more(count: usize, truth: bool) -> usize
    requires { count + 1 < 2 ^ 64 }
    ensures { result ≡ one_more count truth }
{
    if truth { count + 1 } else { count }
}
