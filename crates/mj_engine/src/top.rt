ghost use Rattle.std.specs.Prelude.{◌≡◌, ◌⊎◌, ◌↔◌, ◌≤◌, List, ℕ, true, Ok, Err, IfOk, IfSome};
ghost use Rattle.mj_terms.specs.Causes.{Rose};
ghost use Rattle.mj_io.specs.Grown.{grown};
ghost use Rattle.mj_engine.specs.Run.{output, site_in};
ghost use Rattle.mj_engine.specs.Ends.{GrowsByLine, GrowsByFront, ends_of_run};
ghost use Rattle.mj_engine.specs.Top.{HasRefusedAnswers, IsRefused, Runs, is_one_of, is_run};
ghost use Rattle.mj_report.specs.Faults.{answers_line as answers_text, config_line as config_text, fault_line as line_of_fault, read_line as read_text};

use crate::run::{RunFault, run};
use mj_answers::AnswersKind;
use mj_config::PlanKind;
use mj_fields::{Bytes, Memory};
use mj_io::{Files, Sink};
use mj_report::{Fault, fault_line, read_line, usage_line};
use std::alloc::Global;

/// The command was done.
const DONE: u8 = 0;

/// The words are refused.
const USAGE: u8 = 2;

/// The configuration is missing or refused.
const CONFIGURATION: u8 = 3;

/// The table of answers is refused.
const ANSWERS: u8 = 4;

/// The files failed.
const READ: u8 = 5;

/// The sink failed while the report was written.
const WRITE: u8 = 6;

/// There was no room.
const MEMORY: u8 = 12;

/// Does what the words of the command line ask, and answers the status with which the program ends.
///
/// The one word so far is `run`: the mails of the folder `mails` are carried by `conf/mailetcontainer.toml`, where remote hosts
/// answer by `conf/answers.toml`, and the report is written: the line of each fact in the order of places, and then the line
/// of each refused file. Statuses 2 to 5 write one line that says why.
pub fn james_one<F: Files, S: Sink>(
    alloc: Global,
    words: &Vec<String>,
    files: &mut F,
    out: &mut S,
) -> u8
    // Which status comes when, what the sink gained, and what stays as it was.
    ensures runs { Runs (record {
      words = words.now.items;
      files = record { before = F.told files.old; after = F.told files.new };
      file_faults = record { before = F.faults files.old; after = F.faults files.new };
      sink_faults = record { before = S.faults out.old; after = S.faults out.new };
      bytes = record { before = S.told out.old; after = S.told out.new };
    }) result }
{
    if asks_run(words) {
        run_command(alloc, files, out)
    } else {
        put_line(out, usage_line());
        USAGE
    }
}

/// Carries the mails, and writes the report or the line that says why there is none.
fn run_command<F: Files, S: Sink>(alloc: Global, files: &mut F, out: &mut S) -> u8
    ensures status { is_one_of ends_of_run result ≡ true }
    ensures configuration { IfSome (F.told files.old) (λ told. IsRefused told → (result ≡ 3) ⊎ ((result ≡ 5) ⊎ (result ≡ 12))) }
    ensures answers { IfSome (F.told files.old) (λ told. HasRefusedAnswers told → (result ≡ 4) ⊎ ((result ≡ 5) ⊎ (result ≡ 12))) }
    ensures read { result ≡ 5 → Rose (F.faults files.old) (F.faults files.new) }
    ensures write { result ≡ 6 → Rose (S.faults out.old) (S.faults out.new) }

    ensures report { result ≡ 0 → (text : List ℕ) × IfSome (F.told files.old) (λ told. output told ≡ Ok text)
        × (S.told out.new ≡ grown (S.told out.old) text) }
    ensures report_front { result ≡ 6 → (text : List ℕ) × IfSome (F.told files.old) (λ told. output told ≡ Ok text)
        × GrowsByFront (S.told out.old) (S.told out.new) text }
    ensures config_text { result ≡ 3 → (kind : PlanKind) × (processor : ℕ) × (step : ℕ)
        × IfSome (F.told files.old) (λ told. site_in told ≡ Err (RunFault.Configuration kind processor step))
        × GrowsByLine (S.told out.old) (S.told out.new) (S.faults out.old) (S.faults out.new) (config_text kind processor step) }
    ensures answers_text { result ≡ 4 → (kind : AnswersKind) × (row : ℕ)
        × IfSome (F.told files.old) (λ told. site_in told ≡ Err (RunFault.Answers kind row))
        × GrowsByLine (S.told out.old) (S.told out.new) (S.faults out.old) (S.faults out.new) (answers_text kind row) }
    ensures read_text { result ≡ 5 → GrowsByLine (S.told out.old) (S.told out.new) (S.faults out.old) (S.faults out.new) read_text }
    ensures nothing { result ≡ 12 → S.told out.new ≡ S.told out.old }

    ensures same_files { F.told files.new ≡ F.told files.old }
    ensures file_faults { F.faults files.old ≤ F.faults files.new }
    ensures sink_faults { S.faults out.old ≤ S.faults out.new }
{
    match run(alloc, files) {
        Ok(text) => write_report(out, text.as_slice()),
        Err(
            RunFault::Configuration {
                kind,
                processor,
                step,
            },
        ) => put_fault(
            alloc,
            out,
            &Fault::Config {
                kind,
                processor,
                step,
            },
            CONFIGURATION,
        ),
        Err(RunFault::Answers { kind, row }) => {
            put_fault(alloc, out, &Fault::Answers { kind, row }, ANSWERS)
        }
        Err(RunFault::Read) => {
            put_line(out, read_line());
            READ
        }
        Err(RunFault::Memory) => MEMORY,
    }
}

/// Writes the line of a fault, and answers this status, or that for want of memory where there is no room for the line.
fn put_fault<S: Sink>(alloc: Global, out: &mut S, fault: &Fault, status: u8) -> u8
    requires { (status ≡ CONFIGURATION) ⊎ (status ≡ ANSWERS) }
    ensures status { (result ≡ status) ⊎ (result ≡ MEMORY) }
    ensures line { result ≡ status → GrowsByLine (S.told out.old) (S.told out.new) (S.faults out.old) (S.faults out.new) (line_of_fault fault.now) }
    ensures nothing { result ≡ MEMORY → S.told out.new ≡ S.told out.old }
    ensures later { S.faults out.old ≤ S.faults out.new }
{
    match fault_line(alloc, fault) {
        Ok(line) => {
            put_line(out, line.as_slice());
            status
        }
        Err(_) => MEMORY,
    }
}

/// Whether the words are the one word `run`.
fn asks_run(words: &Vec<String>) -> bool
    ensures { result ≡ is_run words.now.items }
{
    match words.as_slice() {
        [word] => word.as_str() == "run",
        _ => false,
    }
}

/// Writes the report, and answers the status of that.
fn write_report<S: Sink>(out: &mut S, text: &[u8]) -> u8
    ensures status { (result ≡ DONE) ⊎ (result ≡ WRITE) }
    ensures done { result ≡ DONE → S.told out.new ≡ grown (S.told out.old) text.now }
    ensures front { result ≡ WRITE → GrowsByFront (S.told out.old) (S.told out.new) text.now }
    ensures write { result ≡ WRITE → Rose (S.faults out.old) (S.faults out.new) }
    ensures later { S.faults out.old ≤ S.faults out.new }
{
    match out.write(text) {
        Ok(()) => DONE,
        Err(_) => WRITE,
    }
}

/// Writes the line that says why a command wasn't done. The status stays if that fails too.
fn put_line<S: Sink>(out: &mut S, line: &[u8])
    ensures line { GrowsByLine (S.told out.old) (S.told out.new) (S.faults out.old) (S.faults out.new) line.now }
    ensures later { S.faults out.old ≤ S.faults out.new }
{
    let _ = out.write(line);
}
