//! Lines that say why a command wasn't done.
ghost use Rattle.std.specs.Prelude.{◌≡◌, IfOk};
ghost use Rattle.mj_report.specs.Faults.{answers_kind_text, answers_line, config_line, fault_line as line_of_fault, kind_text, read_line as line_of_read, usage_line as line_of_usage};

use mj_answers::AnswersKind;
use mj_config_walk::PlanKind;
use mj_fields::{Bytes, Memory};
use mj_mail::put_number;
use std::alloc::Global;

/// Why a command wasn't done.
#[derive(Clone, Copy, Debug, PartialEq, Eq)]
pub enum Fault {
    /// The words are refused.
    Usage,
    /// The configuration is missing or refused, with this fault at this step of this processor; 0 where none is meant.
    Config {
        kind: PlanKind,
        processor: u32,
        step: u32,
    },
    /// The table of answers is refused, with this fault in this row; 0 where none is meant.
    Answers {
        kind: AnswersKind,
        row: u32,
    },
    /// A file or the folder couldn't be read.
    Read,
}

/// The line of a fault, with its LF.
pub fn fault_line(alloc: Global, fault: &Fault) -> Result<Bytes, Memory>
    ensures { IfOk result (λ line. line ≡ line_of_fault fault.now) }
{
    match *fault {
        Fault::Usage => Bytes::from_slice(alloc, usage_line()),
        Fault::Config {
            kind,
            processor,
            step,
        } => config_fault(alloc, kind, processor, step),
        Fault::Answers { kind, row } => answers_fault(alloc, kind, row),
        Fault::Read => Bytes::from_slice(alloc, read_line()),
    }
}

/// The line for words that are refused. It takes no memory.
pub fn usage_line() -> &'static [u8]
    ensures { result.now ≡ line_of_usage }
{
    b"usage: james COMMAND [--workers N] [--number N] [--count N]\n"
}

/// The line for files that failed. It takes no memory.
pub fn read_line() -> &'static [u8]
    ensures { result.now ≡ line_of_read }
{
    b"fault read\n"
}

fn config_fault(alloc: Global, kind: PlanKind, processor: u32, step: u32) -> Result<Bytes, Memory>
    ensures { IfOk result (λ line. line ≡ config_line kind processor step) }
{
    let mut line = Bytes::from_slice(alloc, b"fault config ")?;
    line.extend(kind_name(kind))?;
    line.push(b' ')?;
    put_number(alloc, &mut line, u64::from(processor))?;
    line.push(b' ')?;
    put_number(alloc, &mut line, u64::from(step))?;
    line.push(b'\n')?;
    Ok(line)
}

fn kind_name(kind: PlanKind) -> &'static [u8]
    ensures { result.now ≡ kind_text kind }
{
    match kind {
        PlanKind::NoFile => b"NoFile",
        PlanKind::TooLarge => b"TooLarge",
        PlanKind::NotToml => b"NotToml",
        PlanKind::Missing => b"Missing",
        PlanKind::WrongType => b"WrongType",
        PlanKind::BadAddress => b"BadAddress",
        PlanKind::BadMoment => b"BadMoment",
        PlanKind::NoRoot => b"NoRoot",
        PlanKind::NoError => b"NoError",
        PlanKind::Twice => b"Twice",
        PlanKind::ReservedState => b"ReservedState",
        PlanKind::UnknownClass => b"UnknownClass",
        PlanKind::UnknownMatcher => b"UnknownMatcher",
        PlanKind::BadArgument => b"BadArgument",
        PlanKind::UnknownProcessor => b"UnknownProcessor",
        PlanKind::TooDeep => b"TooDeep",
        PlanKind::TooMany => b"TooMany",
    }
}

fn answers_fault(alloc: Global, kind: AnswersKind, row: u32) -> Result<Bytes, Memory>
    ensures { IfOk result (λ line. line ≡ answers_line kind row) }
{
    let mut line = Bytes::from_slice(alloc, b"fault answers ")?;
    line.extend(answers_kind_name(kind))?;
    line.push(b' ')?;
    put_number(alloc, &mut line, u64::from(row))?;
    line.push(b'\n')?;
    Ok(line)
}

fn answers_kind_name(kind: AnswersKind) -> &'static [u8]
    ensures { result.now ≡ answers_kind_text kind }
{
    match kind {
        AnswersKind::TooLarge => b"TooLarge",
        AnswersKind::NotToml => b"NotToml",
        AnswersKind::TooMany => b"TooMany",
        AnswersKind::WrongType => b"WrongType",
        AnswersKind::BadHost => b"BadHost",
        AnswersKind::BadAddress => b"BadAddress",
        AnswersKind::BadReply => b"BadReply",
    }
}
