//! Which events may happen to a machine.
ghost use Rattle.std.specs.Prelude.{◌≡◌, ◌<◌, suc, length};
ghost use Rattle.std.specs.List.{list_all};
ghost use Rattle.std.specs.Option.{option_copied};
ghost use Rattle.mj_lawful.specs.Entries.{epochs as epochs_of, pending};
ghost use Rattle.mj_lawful.specs.Machine.{claim_of, enabled, goes_on, is_none, next_of, with_claim};
ghost use Rattle.mj_lawful.specs.Machine.{may_accept, may_attempt, may_commit, may_set_up, may_take};
ghost use Rattle.mj_core.specs.Epochs.{meanings};
ghost use Rattle.mj_core.specs.Events.{event_of};
ghost use Rattle.mj_core.specs.Held.{IsOf};

use crate::epoch::{find_plan, numbered};
use crate::{Epoch, Event, Machine};
use mj_core_lists::{
    all_allowed, find_claim, find_mail, find_next, has_file, is_acceptable, is_change, is_remote,
    is_same,
};
use mj_fields::{Bytes, Items};
use mj_mail::{Entry, Mail, Name, NewMail, Stages};

/// The most bytes of the name of a file.
const MAX_FILE: usize = 4_096;

/// The most configurations.
const MAX_EPOCHS: usize = 100;

/// Workers have numbers below this.
const MAX_WORKERS: u32 = 16;

impl Machine {
    /// Whether the event may happen to the machine, which was made of these configurations. It takes no memory.
    pub fn enabled<R: Stages>(&self, epochs: &Items<Epoch<R>>, event: &Event) -> bool
        requires { IsOf (meanings R.Rules R.is_allowed epochs.now) self.now }
        ensures { result ≡ enabled (meanings R.Rules R.is_allowed epochs.now) self.now.machine (event_of event.now) }
    {
        match event {
            Event::Accept { file, mail } => {
                self.goes_on() && self.intake && may_accept(self.entries.as_slice(), file, mail)
            }
            Event::Claim { worker, name } => {
                self.goes_on()
                    && *worker < MAX_WORKERS
                    && self.is_free(*worker)
                    && self.may_take(name)
            }
            Event::Attempt { worker } => self.running && self.may_attempt(*worker),
            Event::Commit { worker } => self.goes_on() && self.may_commit(*worker),
            Event::CloseIntake | Event::Advance { .. } | Event::Stop { .. } | Event::Crash => {
                self.running
            }
            Event::Reopen => !self.running,
            Event::Setup => { self.goes_on() && self.claims.is_empty() && self.may_set_up(epochs) }
        }
    }

    fn goes_on(&self) -> bool
        ensures { result ≡ goes_on self.now.machine }
    {
        self.running && self.stop.is_none()
    }

    fn is_free(&self, worker: u32) -> bool
        ensures { result ≡ is_none (claim_of self.now.machine.claims worker) }
    {
        find_claim(self.claims.as_slice(), worker).is_none()
    }

    /// Whether it is the next mail, and it is due, or nothing else can be done before it is.
    fn may_take(&self, name: &Name) -> bool
        ensures { result ≡ may_take self.now.machine name.now (next_of self.now.machine.claims self.now.waiting) }
    {
        match find_next(self.claims.as_slice(), self.waiting.as_slice()) {
            Some(mail) => {
                is_same(&mail.name, name)
                    && (mail.due <= self.moment || (self.claims.is_empty() && !self.intake))
            }
            None => false,
        }
    }

    fn may_attempt(&self, worker: u32) -> bool
        ensures { result ≡ with_claim may_attempt self.now.waiting (claim_of self.now.machine.claims worker) }
    {
        match find_claim(self.claims.as_slice(), worker) {
            Some(claim) => {
                may_attempt(
                    claim.attempted,
                    find_mail(self.waiting.as_slice(), &claim.name),
                )
            }
            None => false,
        }
    }

    fn may_commit(&self, worker: u32) -> bool
        ensures { result ≡ with_claim may_commit self.now.waiting (claim_of self.now.machine.claims worker) }
    {
        match find_claim(self.claims.as_slice(), worker) {
            Some(claim) => {
                may_commit(
                    claim.attempted,
                    find_mail(self.waiting.as_slice(), &claim.name),
                )
            }
            None => false,
        }
    }

    /// Whether the next configuration may come into force.
    fn may_set_up<R: Stages>(&self, epochs: &Items<Epoch<R>>) -> bool
        requires { IsOf (meanings R.Rules R.is_allowed epochs.now) self.now }
        ensures { let r = meanings R.Rules R.is_allowed epochs.now in
            result ≡ may_set_up r self.now.machine.entries (r.plan (suc (epochs_of self.now.machine.entries))) }
    {
        let number = self.epoch();
        match find_plan(epochs.as_slice(), number + 1) {
            Some(plan) => {
                is_change(self.entries.as_slice(), plan.as_slice())
                    && number < MAX_EPOCHS
                    && self.may_go_on(epochs, number + 1)
            }
            None => false,
        }
    }

    /// Whether each mail that waits is sound for the configuration of this number.
    fn may_go_on<R: Stages>(&self, epochs: &Items<Epoch<R>>, number: usize) -> bool
        requires some { 0 < length epochs.now }
        requires is_of { IsOf (meanings R.Rules R.is_allowed epochs.now) self.now }
        ensures { let r = meanings R.Rules R.is_allowed epochs.now in
            result ≡ list_all (r.sound number) (pending r self.now.machine.entries) }
    {
        all_allowed(&numbered(epochs, number).rules, self.waiting.as_slice())
    }
}

/// Whether a file with this mail may be accepted behind these entries.
fn may_accept(entries: &[Entry], file: &Bytes, mail: &NewMail) -> bool
    ensures { result ≡ may_accept entries.now file.now mail.now }
{
    file.len() <= MAX_FILE && !has_file(entries, file.as_slice()) && is_acceptable(mail)
}

/// Whether it is sent to a host that wasn't called yet.
fn may_attempt(attempted: bool, mail: Option<&Mail>) -> bool
    ensures { result ≡ may_attempt attempted (option_copied mail.entry) }
{
    match mail {
        Some(mail) => is_remote(&mail.stage) && !attempted,
        None => false,
    }
}

/// Whether it can take its step: its host was called, if it is sent to one.
fn may_commit(attempted: bool, mail: Option<&Mail>) -> bool
    ensures { result ≡ may_commit attempted (option_copied mail.entry) }
{
    match mail {
        Some(mail) => !is_remote(&mail.stage) || attempted,
        None => false,
    }
}
