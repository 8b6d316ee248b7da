ghost use Rattle.std.specs.Prelude.{◌≡◌, true};
ghost use Rattle.mj_plan.specs.Sound.{is_matcher};
ghost use Rattle.mj_match.specs.Evaluated.{Gives, evaluated};

use crate::composites::truths;
use crate::failing::counted;
use crate::{Mask, MatchError};
use mj_mail::Mail;
use mj_plan::{MatchExpr, Plan};
use std::alloc::Global;

/// For each recipient of the mail, whether the matcher takes it: its conditions and composites are judged for each of
/// them. The fault is `Failed` where a condition fails on the mail, with the number of the first such condition from the
/// left. `Memory` may come at any mail. A condition that doesn't look at the recipient is judged once.
pub fn evaluate(
    alloc: Global,
    matcher: &MatchExpr,
    plan: &Plan,
    mail: &Mail,
) -> Result<Mask, MatchError>
    requires { is_matcher matcher.now ≡ true }
    ensures { Gives result (evaluated plan.now matcher.now mail.now) }
{
    counted(alloc, matcher, mail, 0)?;
    Ok(truths(alloc, matcher, plan, mail)?)
}
