ghost use Rattle.std.specs.Prelude.{◌≡◌, true};
ghost use Rattle.std.specs.List.{list_all};
ghost use Rattle.mj_plan.specs.Sound.{IsSound};
ghost use Rattle.mj_answers.specs.Places.{has_reply};

use crate::staging::has_stage;
use crate::stepping::step;
use mj_address::{Address, Domain};
use mj_answers::Answers;
use mj_fields::{Items, Memory};
use mj_mail::{Mail, NewMail, Outcome, Reply, Rules, Stages};
use mj_plan::Plan;
use std::alloc::Global;

/// The rules of a site: a sound plan, and a table of what remote hosts answer.
#[derive(Debug, Drop)]
pub struct JamesRules {
    pub plan: Plan,
    pub answers: Answers,
    ghost sound: { IsSound plan },
    ghost formed: { list_all has_reply answers ≡ true },
}

impl Rules for JamesRules {
    ghost use Rattle.std.specs.Prelude.{◌≡◌, refl};
    ghost use Rattle.mj_mail.specs.Mail.{first as first_mail};
    ghost use Rattle.mj_answers.specs.Fitting.{reply_for};
    ghost use Rattle.mj_answers.proofs.Replies.{reply_for_formed};
    ghost use Rattle.mj_container.specs.Running.{step as step_of};
    ghost use Rattle.mj_container.specs.Sound.{is_sound as is_sound_mail, measure as measure_of};
    ghost use Rattle.mj_container.proofs.Laws as laws;

    ghost first_of = { λ rules number new. first_mail rules.plan.start number new };

    ghost reply_of = { λ rules. reply_for rules.answers };

    ghost outcome_of = { λ rules mail replies. step_of rules.plan mail replies };

    ghost is_sound = { λ rules mail. is_sound_mail rules.plan mail };

    ghost measure = { measure_of };

    fn first(&self, alloc: Global, number: u64, mail: &NewMail) -> Result<Mail, Memory> {
        mail.first(alloc, self.plan.start, number)
    }

    fn reply(&self, host: &Domain, recipient: &Address, attempt: u32) -> &Reply {
        self.answers.reply_for(host, recipient, attempt)
    }

    fn step(&self, alloc: Global, mail: &Mail, replies: &Items<Reply>) -> Result<Outcome, Memory> {
        step(alloc, &self.plan, mail, replies)
    }

    ghost reply_formed = { λ rules host recipient attempt. reply_for_formed rules.answers rules.formed host recipient attempt };

    ghost first_sound = { λ rules number new acceptable. laws.first_sound rules.plan rules.sound number new acceptable };

    ghost first_named = { λ rules number new. refl };

    ghost first_body = { λ rules number new. refl };

    ghost children_sound = { λ rules mail sound. laws.children_sound rules.plan rules.sound (reply_for rules.answers) (reply_for_formed rules.answers rules.formed) mail sound };

    ghost children_named = { λ rules mail sound. laws.children_named rules.plan rules.sound (reply_for rules.answers) (reply_for_formed rules.answers rules.formed) mail sound };

    ghost falls = { λ rules mail sound. laws.falls rules.plan rules.sound (reply_for rules.answers) (reply_for_formed rules.answers rules.formed) mail sound };

    ghost facts_own = { λ rules mail sound. laws.facts_own rules.plan rules.sound (reply_for rules.answers) (reply_for_formed rules.answers rules.formed) mail sound };

    ghost children_own = { λ rules mail sound. laws.children_own rules.plan rules.sound (reply_for rules.answers) (reply_for_formed rules.answers rules.formed) mail sound };

    ghost facts_storable = { λ rules mail sound. laws.facts_storable rules.plan rules.sound (reply_for rules.answers) (reply_for_formed rules.answers rules.formed) mail sound };

    ghost children_storable = { λ rules mail sound. laws.children_storable rules.plan rules.sound (reply_for rules.answers) (reply_for_formed rules.answers rules.formed) mail sound };

    ghost stays = { λ rules mail sound. laws.stays rules.plan rules.sound (reply_for rules.answers) (reply_for_formed rules.answers rules.formed) mail sound };

    ghost done_small = { λ rules mail sound. laws.done_small rules.plan rules.sound (reply_for rules.answers) (reply_for_formed rules.answers rules.formed) mail sound };
}

impl Stages for JamesRules {
    ghost use Rattle.mj_container.specs.Stages.{has_stage};
    ghost use Rattle.mj_container.proofs.Stages as stages;

    ghost is_allowed = { λ rules mail. has_stage rules.plan mail.stage };

    fn allows(&self, mail: &Mail) -> bool {
        has_stage(&self.plan, &mail.stage)
    }

    ghost sound_allowed = { λ rules mail sound. stages.sound_allowed rules.plan mail sound };

    ghost allowed_sound = { λ rules others mail sound allowed. stages.allowed_sound rules.plan others.plan mail sound allowed };
}
