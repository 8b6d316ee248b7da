//! Sites: configurations with tables of answers.
ghost use Rattle.std.specs.Prelude.{◌≡◌, true, IfOk};
ghost use Rattle.std.specs.List.{list_all};
ghost use Rattle.mj_answers.specs.Places.{has_reply};
ghost use Rattle.mj_plan.specs.Sound.{IsSound};

use crate::events::{Word, events};
use mj_answers::{Answers, AnswersFault};
use mj_config::read_plan;
use mj_core::{Epoch, Event, Machine, run_events};
use mj_fields::{Bytes, Items, Memory};
use mj_mail::Stages;
use mj_plan::Plan;
use mj_step::JamesRules;
use std::alloc::Global;
use std::test::Fail;

/// The table `[spool]`.
pub(crate) const SPOOL: &str =
    "[spool]\nhost_name = \"mx.example.org\"\npostmaster = \"postmaster@example.org\"\nlocal_hosts = [\"example.org\"]\nlocal_users = [\"ann\", \"bob\", \"postmaster\"]\nstart = \"2024-01-01T00:00:00Z\"\n";

/// The same, an hour later.
pub(crate) const LATER: &str =
    "[spool]\nhost_name = \"mx.example.org\"\npostmaster = \"postmaster@example.org\"\nlocal_hosts = [\"example.org\"]\nlocal_users = [\"ann\", \"bob\", \"postmaster\"]\nstart = \"2024-01-01T01:00:00Z\"\n";

/// Each mail is deposited.
pub(crate) const IN: &str = r#"
[[processor]]
name = "root"
[[processor.step]]
match = "All"
class = "ToRepository"
repositoryPath = "file://var/mail/in"
"#;

/// Each mail is deposited elsewhere.
pub(crate) const NEW: &str = r#"
[[processor]]
name = "root"
[[processor.step]]
match = "All"
class = "ToRepository"
repositoryPath = "file://var/mail/new"
"#;

/// Local mail is delivered, and mail for other hosts is sent.
pub(crate) const TRANSPORT: &str = r#"
[[processor]]
name = "root"
[[processor.step]]
match = "All"
class = "ToProcessor"
processor = "transport"

[[processor]]
name = "transport"
[[processor.step]]
match = "RecipientIsLocal"
class = "LocalDelivery"
[[processor.step]]
match = "All"
class = "RemoteDelivery"
delayTime = "2*5 minutes, 1 hour"
maxRetries = 5
"#;

/// A processor `error` without steps.
const ERROR: &str = "[[processor]]\nname = \"error\"\n";

/// A host puts its first attempt at a recipient off.
const BUSY: &str =
    "[[answer]]\nrecipient = \"dan@example.net\"\nattempt = 1\nreply = \"450 busy\"\n";

/// Configurations that follow one another, each a table `[spool]` and processors.
pub(crate) type Parts = (&'static str, &'static str);

/// The machine of these configurations, each with a processor `error`, to which this happened.
pub(crate) fn happened(alloc: Global, all: &[Parts], words: &[Word]) -> Result<Machine, Fail> {
    let events = events(alloc, words)?;
    carried(alloc, all, &events)
}

fn carried(alloc: Global, all: &[Parts], events: &Items<Event>) -> Result<Machine, Fail> {
    let epochs = epochs(alloc, all)?;
    run(alloc, &epochs, events)
}

fn run<R: Stages>(
    alloc: Global,
    epochs: &Items<Epoch<R>>,
    events: &Items<Event>,
) -> Result<Machine, Fail> {
    if epochs.is_empty() {
        return Err(Fail::from(Memory));
    }
    Ok(run_events(alloc, epochs, events)?)
}

fn epochs(alloc: Global, all: &[Parts]) -> Result<Items<Epoch<JamesRules>>, Fail> {
    let mut epochs = Items::new(alloc);
    for parts in all {
        epochs.push(epoch(alloc, parts)?)?;
    }
    Ok(epochs)
}

fn epoch(alloc: Global, &(spool, processors): &Parts) -> Result<Epoch<JamesRules>, Fail> {
    let text = format!(in alloc; "{spool}{processors}{ERROR}")?;
    let plan = Bytes::from_slice(alloc, text.as_bytes())?;
    of_rules(plan, rules(alloc, text.as_bytes()))
}

fn of_rules(plan: Bytes, rules: Result<JamesRules, Fail>) -> Result<Epoch<JamesRules>, Fail> {
    match rules {
        Ok(rules) => Ok(Epoch {
            plan,
            start: rules.plan.start,
            rules,
        }),
        Err(fail) => Err(fail),
    }
}

fn rules(alloc: Global, configuration: &[u8]) -> Result<JamesRules, Fail> {
    match read_plan(alloc, configuration) {
        Ok(plan) => with_answers(plan, Answers::read(alloc, BUSY.as_bytes())),
        Err(fault) => Err(Fail::from(fault)),
    }
}

fn with_answers(plan: Plan, answers: Result<Answers, AnswersFault>) -> Result<JamesRules, Fail>
    requires sound { IsSound plan }
    requires formed { IfOk answers (λ answers. list_all has_reply answers ≡ true) }
{
    match answers {
        Ok(answers) => Ok(JamesRules { plan, answers }),
        Err(fault) => Err(Fail::from(fault)),
    }
}
