ghost use Rattle.std.specs.Prelude.{◌≡◌, ℕ, ◌+◌, ◌≤◌, ◌<◌, Bool, true, List, length, map, IfOk};
ghost use Rattle.std.specs.List.{AllByRecursion, list_all};
ghost use Rattle.mj_address.specs.Grammar.{Mailbox};
ghost use Rattle.mj_mail.specs.declared.fact.Outcome.{Outcome};
ghost use Rattle.mj_mail.specs.declared.limits.TheConstants.{MAX_PAYLOAD};
ghost use Rattle.mj_mail.specs.declared.mail.Body.TheVariants.{Original};
ghost use Rattle.mj_mail.specs.declared.mail.Mail.{Mail};
ghost use Rattle.mj_mail.specs.declared.mail.NewMail.{NewMail};
ghost use Rattle.mj_mail.specs.declared.reply.Reply.{Reply};
ghost use Rattle.mj_mail.specs.Entry.{done_form};
ghost use Rattle.mj_mail.specs.Name.{first_name};
ghost use Rattle.mj_mail.specs.Reply.{is_reply};
ghost use Rattle.mj_mail.specs.Rules.{AreNumbered, HasOwnBody, IsOwnBody, is_acceptable, is_storable, is_storable_child, replies_to};

use crate::{Mail, NewMail, Outcome, Reply, Stage};
use mj_address::{Address, Domain};
use mj_fields::{Items, Memory};
use std::alloc::Global;

/// The rules by which mails are carried: the mail that a new one becomes, what hosts answer at it, and what one step
/// makes of it.
pub trait Rules {
    /// The mail that a new one becomes under the number of its acceptance.
    ghost first_of: { Self → ℕ → NewMail → Mail };

    /// What a host answers for a recipient at the attempt of this number.
    ghost reply_of: { Self → List ℕ → Mailbox → ℕ → Reply };

    /// What one step makes of a mail by these replies.
    ghost outcome_of: { Self → Mail → List Reply → Outcome };

    /// A mail that the rules can carry.
    ghost is_sound: { Self → Mail → Bool };

    /// How far a mail may still go, whatever the rules.
    ghost measure: { Mail → ℕ };

    /// The mail that a new one becomes under this number.
    fn first(&self, alloc: Global, number: u64, mail: &NewMail) -> Result<Mail, Memory>
        requires { is_acceptable mail.now ≡ true }
        ensures { IfOk result (λ first. first ≡ first_of self.now number mail.now) };

    /// What this host answers for this recipient at the attempt of this number, counted from 1. It takes no memory.
    fn reply(&self, host: &Domain, recipient: &Address, attempt: u32) -> &Reply
        ensures { result.now ≡ reply_of self.now host.now recipient.now attempt };

    /// What one step makes of this mail by these replies: one for each recipient of a mail that is sent to a host, which that
    /// host gives at the mail's attempt, and none for one that waits for a processor.
    fn step(&self, alloc: Global, mail: &Mail, replies: &Items<Reply>) -> Result<Outcome, Memory>
        requires sound { is_sound self.now mail.now ≡ true }
        requires replies { replies.now ≡ replies_to (reply_of self.now) mail.now }
        ensures { IfOk result (λ outcome. outcome ≡ outcome_of self.now mail.now replies.now) };

    // A host's reply has the form of one.
    ghost reply_formed: { (rules : Self) (host : List ℕ) (recipient : Mailbox) (attempt : ℕ) → is_reply (reply_of rules host recipient attempt) ≡ true };

    // A first mail is sound, and has the number, no path and the body that came in.
    ghost first_sound: { (rules : Self) (number : ℕ) (new : NewMail) → is_acceptable new ≡ true → is_sound rules (first_of rules number new) ≡ true };

    ghost first_named: { (rules : Self) (number : ℕ) (new : NewMail) → (first_of rules number new).name ≡ first_name number };

    ghost first_body: { (rules : Self) (number : ℕ) (new : NewMail) → (first_of rules number new).body ≡ Original number (length new.body) };

    // Each child of a step is sound, is named by its number, and may go less far.
    ghost children_sound: { (rules : Self) (mail : Mail) → is_sound rules mail ≡ true
        → list_all (is_sound rules) (outcome_of rules mail (replies_to (reply_of rules) mail)).children ≡ true };

    ghost children_named: { (rules : Self) (mail : Mail) → is_sound rules mail ≡ true
        → AreNumbered mail.name 1 (outcome_of rules mail (replies_to (reply_of rules) mail)).children };

    ghost falls: { (rules : Self) (mail : Mail) → is_sound rules mail ≡ true
        → AllByRecursion (λ child. measure child < measure mail) (outcome_of rules mail (replies_to (reply_of rules) mail)).children };

    // No other mail's body comes in, and all that is kept keeps the limits.
    ghost facts_own: { (rules : Self) (mail : Mail) → is_sound rules mail ≡ true
        → AllByRecursion (HasOwnBody mail.body) (outcome_of rules mail (replies_to (reply_of rules) mail)).facts };

    ghost children_own: { (rules : Self) (mail : Mail) → is_sound rules mail ≡ true
        → AllByRecursion (λ child. IsOwnBody mail.body child.body) (outcome_of rules mail (replies_to (reply_of rules) mail)).children };

    ghost facts_storable: { (rules : Self) (mail : Mail) → is_sound rules mail ≡ true
        → list_all is_storable (outcome_of rules mail (replies_to (reply_of rules) mail)).facts ≡ true };

    ghost children_storable: { (rules : Self) (mail : Mail) → is_sound rules mail ≡ true
        → list_all is_storable_child (outcome_of rules mail (replies_to (reply_of rules) mail)).children ≡ true };

    // No mail vanishes: each step has a fact or a child.
    ghost stays: { (rules : Self) (mail : Mail) → is_sound rules mail ≡ true
        → 1 ≤ length (outcome_of rules mail (replies_to (reply_of rules) mail)).facts + length (outcome_of rules mail (replies_to (reply_of rules) mail)).children };

    // The entry that a journal keeps of a step is within the limit of a payload.
    ghost done_small: { (rules : Self) (mail : Mail) → is_sound rules mail ≡ true
        → length (done_form mail.name (replies_to (reply_of rules) mail) (outcome_of rules mail (replies_to (reply_of rules) mail))) ≤ MAX_PAYLOAD };
}

/// Rules that may follow others: they tell whether they allow a mail that the others carried.
pub trait Stages: Rules {
    /// A mail whose stage these rules have.
    ghost is_allowed: { Self → Mail → Bool };

    /// Whether these rules have the mail's stage: its processor, or its remote delivery. It takes no memory.
    fn allows(&self, mail: &Mail) -> bool
        ensures { result ≡ is_allowed self.now mail.now };

    // Rules allow what they carry.
    ghost sound_allowed: { (rules : Self) (mail : Mail) → Self.is_sound rules mail ≡ true → is_allowed rules mail ≡ true };

    // A mail that is sound for some rules is sound for all others that allow it.
    ghost allowed_sound: { (rules others : Self) (mail : Mail) → Self.is_sound rules mail ≡ true → is_allowed others mail ≡ true → Self.is_sound others mail ≡ true };
}

/// What the rules' hosts answer for each recipient of a mail, in order: nothing for one that waits for a processor.
pub fn replies_to<R: Rules>(alloc: Global, rules: &R, mail: &Mail) -> Result<Items<Reply>, Memory>
    ensures { IfOk result (λ replies. replies ≡ replies_to (R.reply_of rules.now) mail.now) }
{
    match &mail.stage {
        Stage::Process(_) => Ok(Items::new(alloc)),
        Stage::Remote { host, attempt, .. } => ask(
            alloc,
            rules,
            host,
            mail.recipients.as_slice(),
            *attempt,
        ),
    }
}

/// What a host answers for each of these recipients.
fn ask<R: Rules>(
    alloc: Global,
    rules: &R,
    host: &Domain,
    recipients: &[Address],
    attempt: u32,
) -> Result<Items<Reply>, Memory>
    ensures { IfOk result (λ replies. replies ≡ map (λ r. R.reply_of rules.now host.now r attempt) recipients.now) }
{
    let mut replies = Items::new(alloc);
    for recipient in recipients {
        replies.push(rules.reply(host, recipient, attempt).copy(alloc)?)?;
    }
    Ok(replies)
}
