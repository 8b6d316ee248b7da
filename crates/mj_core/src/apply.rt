//! What an event makes of a machine.
ghost use Rattle.std.specs.Prelude.{◌≡◌, ◌<◌, true, false, List, [], ◌∷◌, ◌++◌, length, None, IfOk, OnOk, OnErr};
ghost use Rattle.std.specs.Option.{option_copied};
ghost use Rattle.mj_mail.specs.declared.entry.Entry.TheVariants.{Accept as AcceptEntry, Done};
ghost use Rattle.mj_mail.specs.Rules.{replies_to};
ghost use Rattle.mj_lawful.specs.Entries.{pending};
ghost use Rattle.mj_lawful.specs.Machine.{after, claim_of, claimed_name, enabled, moment_by, next_of, taken, with_attempt};
ghost use Rattle.mj_lawful.specs.Machine.Event.{Accept, Commit, Reopen, Setup};
ghost use Rattle.mj_lawful.proofs.Pending.{without};
ghost use Rattle.mj_core.specs.Epochs.{meanings};
ghost use Rattle.mj_core.specs.Events.{event_of};
ghost use Rattle.mj_core.specs.Held.{IsOf};

use crate::epoch::{find_plan, numbered};
use crate::{Epoch, Event, Machine};
use mj_core_lists::{
    Claim, claims_with_attempt, claims_without, find_claim, find_mail, find_next, others_of,
    push_copies,
};
use mj_fields::{Bytes, Items, Memory};
use mj_mail::{Entry, Mail, Name, NewMail, Stages, replies_to};
use std::alloc::Global;

impl Machine {
    /// The event happens to the machine, which was made of these configurations. Without room for what it adds there is
    /// `Memory`, and the machine stays.
    pub fn apply<R: Stages>(
        &mut self,
        alloc: Global,
        epochs: &Items<Epoch<R>>,
        event: &Event,
    ) -> Result<(), Memory>
        requires is_of { IsOf (meanings R.Rules R.is_allowed epochs.now) self.old }
        requires enabled { enabled (meanings R.Rules R.is_allowed epochs.now) self.old.machine (event_of event.now) ≡ true }
        ensures machine { OnOk result (self.new.machine ≡ after (meanings R.Rules R.is_allowed epochs.now) self.old.machine (event_of event.now)) }
        ensures is_of { OnOk result (IsOf (meanings R.Rules R.is_allowed epochs.now) self.new) }
        ensures err { OnErr result (self.new ≡ self.old) }
    {
        self.change(alloc, epochs, event)?;
        Ok(())
    }

    /// The same, and the mails that wait are those that are pending then.
    fn change<R: Stages>(
        &mut self,
        alloc: Global,
        epochs: &Items<Epoch<R>>,
        event: &Event,
    ) -> Result<(), Memory>
        requires is_of { IsOf (meanings R.Rules R.is_allowed epochs.now) self.old }
        requires enabled { enabled (meanings R.Rules R.is_allowed epochs.now) self.old.machine (event_of event.now) ≡ true }
        ensures machine { OnOk result (self.new.machine ≡ after (meanings R.Rules R.is_allowed epochs.now) self.old.machine (event_of event.now)) }
        ensures waiting { OnOk result (self.new.waiting ≡ pending (meanings R.Rules R.is_allowed epochs.now) self.new.machine.entries) }
        ensures err { OnErr result (self.new ≡ self.old) }
    {
        match event {
            Event::Accept { file, mail } => self.accept(alloc, epochs, file, mail),
            Event::Claim { worker, name } => self.claim(alloc, *worker, name),
            Event::Attempt { worker } => self.attempt(alloc, *worker),
            Event::Commit { worker } => self.commit(alloc, epochs, *worker),
            Event::Crash => {
                self.crash(alloc);
                Ok(())
            }
            Event::Reopen => {
                self.reopen(alloc, epochs);
                Ok(())
            }
            Event::Setup => {
                self.set_up(alloc, epochs)?;
                Ok(())
            }
            Event::CloseIntake => {
                self.intake = false;
                Ok(())
            }
            Event::Advance { moment } => {
                self.moment = self.moment.max(*moment);
                Ok(())
            }
            Event::Stop { cause, .. } => {
                self.stop = self.stop.or(Some(*cause));
                Ok(())
            }
        }
    }

    /// A mail is accepted under the next number, and its first mail waits.
    fn accept<R: Stages>(
        &mut self,
        alloc: Global,
        epochs: &Items<Epoch<R>>,
        file: &Bytes,
        mail: &NewMail,
    ) -> Result<(), Memory>
        requires is_of { IsOf (meanings R.Rules R.is_allowed epochs.now) self.old }
        requires enabled { enabled (meanings R.Rules R.is_allowed epochs.now) self.old.machine (Accept file.now mail.now) ≡ true }
        ensures machine { OnOk result (self.new.machine
            ≡ after (meanings R.Rules R.is_allowed epochs.now) self.old.machine (Accept file.now mail.now)) }
        ensures waiting { OnOk result (self.new.waiting ≡ pending (meanings R.Rules R.is_allowed epochs.now) self.new.machine.entries) }
        ensures err { OnErr result (self.new ≡ self.old) }
    {
        let rules = &numbered(epochs, self.epoch()).rules;
        let number = self.next_number();
        let entry = accept_entry(alloc, number, file, mail)?;
        let first = rules.first(alloc, number, mail)?;
        push_both(&mut self.entries, entry, &mut self.waiting, first)?;
        Ok(())
    }

    /// A worker takes the mail, and it is due by now.
    fn claim(&mut self, alloc: Global, worker: u32, name: &Name) -> Result<(), Memory>
        ensures ok { OnOk result (self.new ≡ record self.old {
          machine = record self.old.machine {
            claims = self.old.machine.claims ++ taken worker name.now ∷ [];
            moment = moment_by self.old.machine.moment (next_of self.old.machine.claims self.old.waiting);
          };
        }) }
        ensures err { OnErr result (self.new ≡ self.old) }
    {
        let moment = moment_by(
            self.moment,
            find_next(self.claims.as_slice(), self.waiting.as_slice()),
        );
        let name = name.copy(alloc)?;
        self.claims.push(Claim {
            worker,
            name,
            attempted: false,
        })?;
        self.moment = moment;
        Ok(())
    }

    /// The host of the claimed mail is called.
    fn attempt(&mut self, alloc: Global, worker: u32) -> Result<(), Memory>
        ensures ok { OnOk result (self.new ≡ record self.old {
          machine = record self.old.machine {
            claims = with_attempt self.old.machine.claims worker;
            attempts = self.old.machine.attempts ++ claimed_name (claim_of self.old.machine.claims worker);
          };
        }) }
        ensures err { OnErr result (self.new ≡ self.old) }
    {
        let claims = claims_with_attempt(alloc, self.claims.as_slice(), worker)?;
        if let Some(claim) = find_claim(self.claims.as_slice(), worker) {
            self.attempts.push(claim.name.copy(alloc)?)?;
        }
        self.claims = claims;
        Ok(())
    }

    /// The claimed mail takes its step.
    fn commit<R: Stages>(
        &mut self,
        alloc: Global,
        epochs: &Items<Epoch<R>>,
        worker: u32,
    ) -> Result<(), Memory>
        requires is_of { IsOf (meanings R.Rules R.is_allowed epochs.now) self.old }
        requires enabled { enabled (meanings R.Rules R.is_allowed epochs.now) self.old.machine (Commit worker) ≡ true }
        ensures machine { OnOk result (self.new.machine ≡ after (meanings R.Rules R.is_allowed epochs.now) self.old.machine (Commit worker)) }
        ensures waiting { OnOk result (self.new.waiting ≡ pending (meanings R.Rules R.is_allowed epochs.now) self.new.machine.entries) }
        ensures err { OnErr result (self.new ≡ self.old) }
    {
        let rules = &numbered(epochs, self.epoch()).rules;
        let (entry, later) = match find_claim(self.claims.as_slice(), worker) {
            Some(claim) => match find_mail(self.waiting.as_slice(), &claim.name) {
                Some(mail) => step_of(alloc, rules, self.waiting.as_slice(), mail)?,
                None => return Ok(()),
            },
            None => return Ok(()),
        };
        let claims = claims_without(alloc, self.claims.as_slice(), worker)?;
        self.entries.push(entry)?;
        self.claims = claims;
        self.waiting = later;
        Ok(())
    }

    /// Only the entries are left, and the mails that are pending by them.
    fn crash(&mut self, alloc: Global)
        ensures { self.new ≡ record self.old {
          machine = record self.old.machine {
            claims = [];
            moment = 0;
            intake = false;
            stop = None;
            running = false;
          };
        } }
    {
        self.clear(alloc);
        self.moment = 0;
        self.intake = false;
        self.running = false;
    }

    /// It goes on behind its entries, from the moment at which the configuration in force began.
    fn reopen<R: Stages>(&mut self, alloc: Global, epochs: &Items<Epoch<R>>)
        requires { 0 < length epochs.now }
        ensures { self.new ≡ record self.old { machine = after (meanings R.Rules R.is_allowed epochs.now) self.old.machine Reopen } }
    {
        self.clear(alloc);
        self.moment = numbered(epochs, self.epoch()).start;
        self.intake = true;
        self.running = true;
    }

    /// No worker has a mail, and there is no cause to stop.
    fn clear(&mut self, alloc: Global)
        ensures { self.new ≡ record self.old { machine = record self.old.machine { claims = []; stop = None } } }
    {
        self.claims = Items::new(alloc);
        self.stop = None;
    }

    /// The next configuration comes into force.
    fn set_up<R: Stages>(&mut self, alloc: Global, epochs: &Items<Epoch<R>>) -> Result<(), Memory>
        requires is_of { IsOf (meanings R.Rules R.is_allowed epochs.now) self.old }
        ensures ok { OnOk result (self.new
            ≡ record self.old { machine = after (meanings R.Rules R.is_allowed epochs.now) self.old.machine Setup }) }
        ensures err { OnErr result (self.new ≡ self.old) }
    {
        let number = self.epoch() + 1;
        let start = numbered(epochs, number).start;
        if let Some(plan) = find_plan(epochs.as_slice(), number) {
            let plan = plan.copy(alloc)?;
            self.entries.push(Entry::Setup { plan })?;
        }
        self.moment = self.moment.max(start);
        Ok(())
    }
}

/// The entry of a mail that is accepted.
fn accept_entry(alloc: Global, number: u64, file: &Bytes, mail: &NewMail) -> Result<Entry, Memory>
    ensures { IfOk result (λ entry. entry ≡ AcceptEntry number file.now mail.now) }
{
    let file = file.copy(alloc)?;
    let mail = mail.copy(alloc)?;
    Ok(Entry::Accept { number, file, mail })
}

/// The moment, and not before the mail is due.
fn moment_by(moment: u64, mail: Option<&Mail>) -> u64
    ensures { result ≡ moment_by moment (option_copied mail.entry) }
{
    match mail {
        Some(mail) => moment.max(mail.due),
        None => moment,
    }
}

/// The entry of the mail's step, and the mails that wait behind it.
fn step_of<R: Stages>(
    alloc: Global,
    rules: &R,
    waiting: &[Mail],
    mail: &Mail,
) -> Result<(Entry, Items<Mail>), Memory>
    requires { R.is_sound rules.now mail.now ≡ true }
    ensures { IfOk result (λ both. let replies = replies_to (R.reply_of rules.now) mail.now in
        let outcome = R.outcome_of rules.now mail.now replies in
        (both.0 ≡ Done mail.now.name replies outcome) × (both.1 ≡ without mail.now.name waiting.now ++ outcome.children)) }
{
    let replies = replies_to(alloc, rules, mail)?;
    let outcome = rules.step(alloc, mail, &replies)?;
    let mut later = others_of(alloc, waiting, &mail.name)?;
    push_copies(alloc, &mut later, outcome.children.as_slice())?;
    let name = mail.name.copy(alloc)?;
    Ok((
        Entry::Done {
            name,
            replies,
            outcome,
        },
        later,
    ))
}

/// Puts an item at the end of each list. Without room for both, both lists stay.
fn push_both<A: Drop, B: Drop>(
    left: &mut Items<A>,
    one: A,
    right: &mut Items<B>,
    other: B,
) -> Result<(), Memory>
    ensures left { OnOk result (left.new ≡ left.old ++ one ∷ []) }
    ensures right { OnOk result (right.new ≡ right.old ++ other ∷ []) }
    ensures err { OnErr result ((left.new ≡ left.old) × (right.new ≡ right.old)) }
{
    right.push(other)?;
    let pushed = left.push(one);
    if pushed.is_err() {
        take_back(right);
    }
    pushed
}

/// Takes out again what was put at the end.
#[tactic(auto, using(crate::proofs::Afterwards::taken_back))]
fn take_back<T: Drop>(items: &mut Items<T>)
    ensures { (before : List T) (last : T) → items.old ≡ before ++ last ∷ [] → items.new ≡ before }
{
    items.pop();
}
