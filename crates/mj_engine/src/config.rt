//! The files of a site: its configuration, and its table of answers.
ghost use Rattle.std.specs.Prelude.{◌≡◌, true, IfOk};
ghost use Rattle.std.specs.List.{list_all};
ghost use Rattle.std.specs.Option.{option_copied};
ghost use Rattle.mj_answers.specs.Places.{has_reply};
ghost use Rattle.mj_answers.specs.Reading.{Gives};
ghost use Rattle.mj_plan.specs.Sound.{IsSound};
ghost use Rattle.mj_config_walk.specs.Walk.{Answers as AnswersPlan};
ghost use Rattle.mj_engine.specs.Config.{configuration, table};

use mj_answers::{Answers, AnswersFault};
use mj_config::{PlanFault, PlanKind, read_plan};
use mj_plan::Plan;
use std::alloc::Global;

/// The plan of the configuration file, of which at least the first 1,048,577 bytes were read, or its first fault.
pub fn read_configuration(alloc: Global, file: Option<&[u8]>) -> Result<Plan, PlanFault>
    ensures exact { AnswersPlan result (configuration (option_copied file.entry)) }
    ensures sound { IfOk result IsSound }
{
    match file {
        None => Err(PlanFault::Refused {
            kind: PlanKind::NoFile,
            processor: 0,
            step: 0,
        }),
        Some(bytes) => read_plan(alloc, bytes),
    }
}

/// The table of the file of answers, of which at least the first 1,048,577 bytes were read, or its first fault. Without the
/// file the table is empty.
pub fn read_answers(alloc: Global, file: Option<&[u8]>) -> Result<Answers, AnswersFault>
    ensures exact { Gives result (table (option_copied file.entry)) }
    ensures formed { IfOk result (λ answers. list_all has_reply answers ≡ true) }
{
    match file {
        None => Ok(Answers::empty(alloc)?),
        Some(bytes) => Answers::read(alloc, bytes),
    }
}
