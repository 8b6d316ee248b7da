ghost use Rattle.std.specs.Prelude.{◌≡◌, ◌<◌, ◌∷◌, List, length};
ghost use Rattle.std.specs.Option.{option_copied};
ghost use Rattle.mj_core.specs.Epochs.{meanings, member, plan_of};

use mj_fields::{Bytes, Items};
use mj_mail::Stages;

/// A configuration: its bytes, the moment at which it begins, and its rules.
#[derive(Drop)]
pub struct Epoch<R> {
    pub plan: Bytes,
    pub start: u64,
    pub rules: R,
}

/// The configuration of this number, from 1; the first one, where there is none of this number.
fn member_of<R>(epochs: &[Epoch<R>], number: usize) -> &Epoch<R>
    requires { 0 < length epochs.now }
    ensures { (head : Epoch R) (others : List (Epoch R)) → epochs.now ≡ head ∷ others → result.now ≡ member head others number }
{
    if number == 0 {
        return &epochs[0];
    }
    match epochs.get(number - 1) {
        Some(epoch) => epoch,
        None => &epochs[0],
    }
}

/// The same, with what it means.
pub(crate) fn numbered<R: Stages>(epochs: &Items<Epoch<R>>, number: usize) -> &Epoch<R>
    requires { 0 < length epochs.now }
    ensures first { (meanings R.Rules R.is_allowed epochs.now).first number ≡ R.first_of result.now.rules }
    ensures reply { (meanings R.Rules R.is_allowed epochs.now).reply number ≡ R.reply_of result.now.rules }
    ensures step { (meanings R.Rules R.is_allowed epochs.now).step number ≡ R.outcome_of result.now.rules }
    ensures sound { (meanings R.Rules R.is_allowed epochs.now).sound number ≡ R.is_sound result.now.rules }
    ensures allows { (meanings R.Rules R.is_allowed epochs.now).allows number ≡ R.is_allowed result.now.rules }
    ensures start { (meanings R.Rules R.is_allowed epochs.now).start number ≡ result.now.start }
{
    member_of(epochs.as_slice(), number)
}

/// The bytes of the configuration of this number, if there is one.
pub(crate) fn find_plan<R>(epochs: &[Epoch<R>], number: usize) -> Option<&Bytes>
    ensures { option_copied result ≡ plan_of epochs.now number }
{
    if number == 0 {
        return None;
    }
    match epochs.get(number - 1) {
        Some(epoch) => Some(&epoch.plan),
        None => None,
    }
}
