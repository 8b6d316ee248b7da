ghost use Rattle.std.specs.Prelude.{◌≡◌, ◌≤◌, ◌<◌, ◌+◌, ◌^◌, [], length, slice_get, true, Some, Ok, Err, IfOk, IfErr, IfSome, IsErrOf, OnOk};
ghost use Rattle.std.specs.List.{list_all};
ghost use Rattle.std.specs.Str.{is_utf8};
ghost use Rattle.mj_terms.specs.Causes.{HasCause};
ghost use Rattle.mj_io.specs.Folder.{names_in};
ghost use Rattle.mj_answers.specs.Places.{has_reply};
ghost use Rattle.mj_mail.specs.Rules.{is_acceptable};
ghost use Rattle.mj_plan.specs.Sound.{IsSound};
ghost use Rattle.mj_engine.specs.Config.{answers_room as room_of_answers, configuration, plan_room as room_of_plan, table};
ghost use Rattle.mj_engine.specs.Intake.{folder, mail_room as room_of_mail};
ghost use Rattle.mj_engine.specs.Run.{GivesAnswers, GivesOutput, GivesPlan, GivesRules, answers_in, output, plan_in, plan_or, report, rows_or, site_in, site_of, with_found, with_name, with_names, empty_report};

use crate::carry::put_mail;
use crate::config::{read_answers, read_configuration};
use crate::intake::{is_mail_name, judge};
use crate::report::Report;
use mj_answers::{Answers, AnswersFault, AnswersKind, MAX_ANSWERS};
use mj_config::{MAX_CONFIGURATION, PlanFault, PlanKind};
use mj_fields::{Bytes, Memory};
use mj_io::{Files, FilesError};
use mj_mail::NewMail;
use mj_mailfile::MAX_FILE;
use mj_plan::Plan;
use mj_report::{Refusal, put_refused_line};
use mj_step::JamesRules;
use std::alloc::Global;

const CONFIGURATION: &str = "conf/mailetcontainer.toml";

const ANSWERS: &str = "conf/answers.toml";

const FOLDER: &str = "mails";

/// Why a run ended before it had anything to write.
#[derive(Clone, Copy, Debug, PartialEq, Eq)]
pub enum RunFault {
    /// The configuration is missing or refused, with this fault at this step of this processor.
    Configuration {
        kind: PlanKind,
        processor: u32,
        step: u32,
    },
    /// The table of answers is refused, with this fault in this row.
    Answers {
        kind: AnswersKind,
        row: u32,
    },
    /// The files failed.
    Read,
    /// There was no room.
    Memory,
}

impl From<FilesError> for RunFault {
    ghost use Rattle.std.specs.Prelude.{◌≡◌};
    ghost use Rattle.mj_engine.specs.Faults.{fault_of_files};

    ghost from_gives = { λ e fault. fault ≡ fault_of_files e };

    fn from(error: FilesError) -> RunFault {
        match error {
            FilesError::Failed => RunFault::Read,
            FilesError::Memory => RunFault::Memory,
        }
    }
}

impl From<Memory> for RunFault {
    ghost use Rattle.std.specs.Prelude.{◌≡◌};
    ghost use Rattle.mj_engine.specs.declared.run.RunFault.TheVariants.{Memory as NoRoom};

    ghost from_gives = { λ _ fault. fault ≡ NoRoom };

    fn from(_: Memory) -> RunFault {
        RunFault::Memory
    }
}

/// What a run writes: the report of the mails of the folder.
pub fn run<F: Files>(alloc: Global, files: &mut F) -> Result<Bytes, RunFault>
    ensures exact { IfSome (F.told files.old) (λ told. GivesOutput result (output told)) }
    ensures same { F.told files.new ≡ F.told files.old }
    ensures cause { HasCause RunFault.Read (F.faults files.old) (F.faults files.new) result }
{
    let rules = load_rules(alloc, files)?;
    report_by(alloc, files, &rules)
}

/// The report of the mails of the folder by these rules.
fn report_by<F: Files>(alloc: Global, files: &mut F, rules: &JamesRules) -> Result<Bytes, RunFault>
    ensures exact { IfSome (F.told files.old) (λ told. GivesOutput result (Ok (report (site_of rules.now) told))) }
    ensures same { F.told files.new ≡ F.told files.old }
    ensures cause { HasCause RunFault.Read (F.faults files.old) (F.faults files.new) result }
{
    let report = take_in(alloc, files, rules)?;
    Ok(report.into_text()?)
}

/// The rules that the files say: the configuration, and then the table of answers.
fn load_rules<F: Files>(alloc: Global, files: &mut F) -> Result<JamesRules, RunFault>
    ensures exact { IfSome (F.told files.old) (λ told. GivesRules result (site_in told)) }
    ensures same { F.told files.new ≡ F.told files.old }
    ensures cause { HasCause RunFault.Read (F.faults files.old) (F.faults files.new) result }
{
    let plan = load_plan(alloc, files, plan_room())?;
    let answers = load_answers(alloc, files, answers_room());
    rules_of(plan, answers)
}

/// The rules of a plan and of a table, or the fault in place of the table.
fn rules_of(plan: Plan, answers: Result<Answers, RunFault>) -> Result<JamesRules, RunFault>
    requires sound { IsSound plan }
    requires formed { IfOk answers (λ answers. list_all has_reply answers ≡ true) }
    ensures ok { IfOk result (λ rules. (rules.plan ≡ plan) × (answers ≡ Ok rules.answers)) }
    ensures err { IfErr result (λ fault. answers ≡ Err fault) }
{
    match answers {
        Ok(answers) => Ok(JamesRules { plan, answers }),
        Err(fault) => Err(fault),
    }
}

fn load_plan<F: Files>(alloc: Global, files: &mut F, room: usize) -> Result<Plan, RunFault>
    requires { room ≡ room_of_plan }
    ensures exact { IfSome (F.told files.old) (λ told. GivesPlan result (plan_or (plan_in told))) }
    ensures sound { IfOk result IsSound }
    ensures same { F.told files.new ≡ F.told files.old }
    ensures cause { HasCause RunFault.Read (F.faults files.old) (F.faults files.new) result }
{
    let file = files.read(alloc, CONFIGURATION, room)?;
    plan_of_file(alloc, file)
}

fn plan_of_file(alloc: Global, file: Option<Bytes>) -> Result<Plan, RunFault>
    ensures exact { GivesPlan result (plan_or (configuration file)) }
    ensures sound { IfOk result IsSound }
    ensures cause { IsErrOf result RunFault.Read → ⊥ }
{
    let plan = match file {
        None => read_configuration(alloc, None),
        Some(bytes) => read_configuration(alloc, Some(bytes.as_slice())),
    };
    match plan {
        Ok(plan) => Ok(plan),
        Err(
            PlanFault::Refused {
                kind,
                processor,
                step,
            },
        ) => Err(RunFault::Configuration {
            kind,
            processor,
            step,
        }),
        Err(PlanFault::Memory) => Err(RunFault::Memory),
    }
}

fn load_answers<F: Files>(alloc: Global, files: &mut F, room: usize) -> Result<Answers, RunFault>
    requires { room ≡ room_of_answers }
    ensures exact { IfSome (F.told files.old) (λ told. GivesAnswers result (rows_or (answers_in told))) }
    ensures formed { IfOk result (λ answers. list_all has_reply answers ≡ true) }
    ensures same { F.told files.new ≡ F.told files.old }
    ensures cause { HasCause RunFault.Read (F.faults files.old) (F.faults files.new) result }
{
    let file = files.read(alloc, ANSWERS, room)?;
    answers_of_file(alloc, file)
}

fn answers_of_file(alloc: Global, file: Option<Bytes>) -> Result<Answers, RunFault>
    ensures exact { GivesAnswers result (rows_or (table file)) }
    ensures formed { IfOk result (λ answers. list_all has_reply answers ≡ true) }
    ensures cause { IsErrOf result RunFault.Read → ⊥ }
{
    let answers = match file {
        None => read_answers(alloc, None),
        Some(bytes) => read_answers(alloc, Some(bytes.as_slice())),
    };
    match answers {
        Ok(answers) => Ok(answers),
        Err(AnswersFault::Refused { kind, row }) => Err(RunFault::Answers { kind, row }),
        Err(AnswersFault::Memory) => Err(RunFault::Memory),
    }
}

/// The report of all names of the folder.
fn take_in<F: Files>(alloc: Global, files: &mut F, rules: &JamesRules) -> Result<Report, FilesError>
    ensures exact { IfSome (F.told files.old) (λ told. IfOk result (λ report. report ≡ with_names (site_of rules.now) told (names_in folder told) empty_report)) }
    ensures same { F.told files.new ≡ F.told files.old }
    ensures cause { HasCause FilesError.Failed (F.faults files.old) (F.faults files.new) result }
{
    let names = files.list(alloc, FOLDER)?;
    take_names(alloc, files, rules, names.as_slice())
}

fn take_names<F: Files>(
    alloc: Global,
    files: &mut F,
    rules: &JamesRules,
    names: &[Bytes],
) -> Result<Report, FilesError>
    requires { list_all is_utf8 names.now ≡ true }
    ensures exact { IfSome (F.told files.old) (λ told. IfOk result (λ report. report ≡ with_names (site_of rules.now) told names.now empty_report)) }
    ensures same { F.told files.new ≡ F.told files.old }
    ensures cause { HasCause FilesError.Failed (F.faults files.old) (F.faults files.new) result }
{
    let mut report = Report::new(alloc);
    for k in 0..names.len() {
        take_name(alloc, files, rules, name_at(names, k), &mut report)?;
    }
    Ok(report)
}

fn name_at(names: &[Bytes], k: usize) -> &str
    requires utf8 { list_all is_utf8 names.now ≡ true }
    requires within { k < length names.now }
    ensures { slice_get names.now k ≡ Some result.now }
{
    match str::from_utf8(names[k].as_slice()) {
        Ok(name) => name,
        Err(_) => unreachable!(),
    }
}

fn take_name<F: Files>(
    alloc: Global,
    files: &mut F,
    rules: &JamesRules,
    name: &str,
    report: &mut Report,
) -> Result<(), FilesError>
    requires { report.old.accepted < 2 ^ 63 }
    ensures exact { IfSome (F.told files.old) (λ told. OnOk result (report.new ≡ with_name (site_of rules.now) told report.old name.now)) }
    ensures count { OnOk result (report.new.accepted ≤ report.old.accepted + 1) }
    ensures same { F.told files.new ≡ F.told files.old }
    ensures cause { HasCause FilesError.Failed (F.faults files.old) (F.faults files.new) result }
{
    if !is_mail_name(name) {
        return Ok(());
    }
    let found = judge(alloc, files, name, mail_room())?;
    Ok(take_found(alloc, rules, name.as_bytes(), found, report)?)
}

/// Carries the mail that was found under a name, or reports that it is refused.
fn take_found(
    alloc: Global,
    rules: &JamesRules,
    name: &[u8],
    found: Option<Result<NewMail, Refusal>>,
    report: &mut Report,
) -> Result<(), Memory>
    requires room { report.old.accepted < 2 ^ 63 }
    requires acceptable { IfSome found (λ mail. IfOk mail (λ mail. is_acceptable mail ≡ true)) }
    ensures exact { OnOk result (report.new ≡ with_found (site_of rules.now) name.now report.old found) }
    ensures count { OnOk result (report.new.accepted ≤ report.old.accepted + 1) }
{
    match found {
        None => Ok(()),
        Some(Ok(mail)) => take_mail(alloc, rules, mail, report),
        Some(Err(refusal)) => put_refused_line(alloc, &mut report.refused, name, &refusal),
    }
}

/// Accepts a mail under the next number, and carries it.
fn take_mail(
    alloc: Global,
    rules: &JamesRules,
    mail: NewMail,
    report: &mut Report,
) -> Result<(), Memory>
    requires room { report.old.accepted < 2 ^ 63 }
    requires acceptable { is_acceptable mail ≡ true }
    ensures exact { OnOk result (report.new ≡ with_found (site_of rules.now) [] report.old (Some (Ok mail))) }
    ensures count { OnOk result (report.new.accepted ≤ report.old.accepted + 1) }
{
    let number = report.accepted + 1;
    put_mail(alloc, &mut report.facts, rules, number, mail)?;
    report.accepted = number;
    Ok(())
}

/// How many bytes are read of a configuration: one more than it may have.
#[tactic(auto, unfolding(crate::specs::Config::plan_room))]
fn plan_room() -> usize
    ensures { result ≡ room_of_plan }
{
    MAX_CONFIGURATION + 1
}

/// How many bytes are read of a table of answers: one more than it may have.
#[tactic(auto, unfolding(crate::specs::Config::answers_room))]
fn answers_room() -> usize
    ensures { result ≡ room_of_answers }
{
    MAX_ANSWERS + 1
}

/// How many bytes are read of a mail file: one more than it may have.
#[tactic(auto, unfolding(crate::specs::Intake::mail_room))]
fn mail_room() -> usize
    ensures { result ≡ room_of_mail }
{
    MAX_FILE + 1
}
