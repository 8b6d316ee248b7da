//! How a mail leaves a processor.
ghost use Rattle.std.specs.Prelude.{◌≡◌, ◌<◌, ◌+◌, ◌^◌, OnOk};
ghost use Rattle.mj_mail.specs.Outcome.{both};
ghost use Rattle.mj_container.specs.Running.{leave_failed as leave_failed_of};
ghost use Rattle.mj_container.specs.Serving.{leave as leave_of};

use crate::step_at::StepAt;
use crate::texts::failed_at;
use mj_fields::{Bytes, Memory};
use mj_mail::{Fact, Mail, Outcome, Stage, Why};
use mj_plan::GHOST;
use std::alloc::Global;

/// Lets a mail leave with a state: with `ghost` it is dropped, and else it becomes a mail in that processor, with one hop more.
pub fn leave(state: Bytes, mail: Mail, out: &mut Outcome) -> Result<(), Memory>
    requires { mail.hops + 1 < 2 ^ 32 }
    ensures { OnOk result (out.new ≡ both out.old (leave_of state mail)) }
{
    if state.as_slice() == GHOST {
        return out.facts.push(Fact::Dropped {
            why: Why::Discarded,
            recipients: mail.recipients,
        });
    }
    let mut child = mail;
    child.stage = Stage::Process(state);
    child.hops += 1;
    out.children.push(child)
}

/// Lets a mail leave by a failure at a step, with the text of the failure.
pub fn leave_failed(
    alloc: Global,
    at: StepAt<'_>,
    reason: &[u8],
    state: Bytes,
    mail: Mail,
    out: &mut Outcome,
) -> Result<(), Memory>
    requires { mail.hops + 1 < 2 ^ 32 }
    ensures { OnOk result (out.new ≡ both out.old (leave_failed_of at.entry.name.now at.entry.number reason.now state mail)) }
{
    let mut mail = mail;
    mail.error = failed_at(alloc, at.name, at.number, reason)?;
    leave(state, mail, out)
}
