//! The work list of a mail: the mails that wait, of which the next one stands at the end.
ghost use Rattle.std.specs.Prelude.{◌≡◌, ◌++◌, true, IfOk, OnOk};
ghost use Rattle.std.specs.List.{flat_map};
ghost use mathlib.Core.List.{reverse};
ghost use Rattle.mj_mail.specs.Meaning.{facts_of, placed, tree};
ghost use Rattle.mj_mail.specs.Rules.{is_acceptable, step_by};
ghost use Rattle.mj_report.specs.Facts.{fact_line};

use mj_fields::{Bytes, Items, Memory};
use mj_mail::{Mail, Name, NewMail, Outcome, Rules, replies_to};
use mj_report::put_fact_lines;
use std::alloc::Global;

/// Puts the line of each fact about a mail that is accepted under this number, and about the mails that it becomes, at the
/// end of the text, in the order of places.
pub fn put_mail<R: Rules>(
    alloc: Global,
    out: &mut Bytes,
    rules: &R,
    number: u64,
    mail: NewMail,
) -> Result<(), Memory>
    requires { is_acceptable mail ≡ true }
    ensures { OnOk result (out.new ≡ out.old
        ++ flat_map fact_line (tree R.measure (step_by R.is_sound R.reply_of R.outcome_of rules.now) (R.first_of rules.now number mail))) }
{
    let first = rules.first(alloc, number, &mail)?;
    drop(mail);
    carry(alloc, out, rules, first)
}

/// The same for a mail on its way.
fn carry<R: Rules>(alloc: Global, out: &mut Bytes, rules: &R, mail: Mail) -> Result<(), Memory>
    requires { R.is_sound rules.now mail ≡ true }
    ensures { OnOk result (out.new ≡ out.old
        ++ flat_map fact_line (tree R.measure (step_by R.is_sound R.reply_of R.outcome_of rules.now) mail)) }
{
    let mut waiting = Items::new(alloc);
    waiting.push(mail)?;
    while let Some(mail) = waiting.pop() {
        let taken = take_step(alloc, out, rules, &mail, &mut waiting);
        drop(mail);
        taken?;
    }
    Ok(())
}

/// Takes a mail through one step: puts the lines of its facts at the end of the text, and its children to those that wait.
fn take_step<R: Rules>(
    alloc: Global,
    out: &mut Bytes,
    rules: &R,
    mail: &Mail,
    waiting: &mut Items<Mail>,
) -> Result<(), Memory>
    requires { R.is_sound rules.now mail.now ≡ true }
    ensures lines { OnOk result (out.new ≡ out.old
        ++ flat_map fact_line (facts_of (step_by R.is_sound R.reply_of R.outcome_of rules.now) mail.now)) }
    ensures waiting { OnOk result (waiting.new ≡ waiting.old
        ++ reverse (step_by R.is_sound R.reply_of R.outcome_of rules.now mail.now).children) }
{
    let outcome = outcome_of(alloc, rules, mail)?;
    put_outcome(alloc, out, &mail.name, outcome, waiting)
}

/// What one step makes of a mail.
fn outcome_of<R: Rules>(alloc: Global, rules: &R, mail: &Mail) -> Result<Outcome, Memory>
    requires { R.is_sound rules.now mail.now ≡ true }
    ensures { IfOk result (λ outcome. outcome ≡ step_by R.is_sound R.reply_of R.outcome_of rules.now mail.now) }
{
    let replies = replies_to(alloc, rules, mail)?;
    let outcome = rules.step(alloc, mail, &replies)?;
    Ok(outcome)
}

/// Puts the lines of the facts about the mail of this name at the end of the text, and its children to those that wait.
fn put_outcome(
    alloc: Global,
    out: &mut Bytes,
    name: &Name,
    outcome: Outcome,
    waiting: &mut Items<Mail>,
) -> Result<(), Memory>
    ensures lines { OnOk result (out.new ≡ out.old ++ flat_map fact_line (placed name.now outcome.facts)) }
    ensures waiting { OnOk result (waiting.new ≡ waiting.old ++ reverse outcome.children) }
{
    put_fact_lines(alloc, out, name, outcome.facts.as_slice())?;
    put_back(waiting, outcome.children)
}

/// Puts the mails at the end of those that wait, the first of them last.
fn put_back(waiting: &mut Items<Mail>, mails: Items<Mail>) -> Result<(), Memory>
    ensures { OnOk result (waiting.new ≡ waiting.old ++ reverse mails) }
{
    let mut mails = mails;
    while let Some(mail) = mails.pop() {
        waiting.push(mail)?;
    }
    Ok(())
}
