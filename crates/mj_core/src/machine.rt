ghost use Rattle.std.specs.Prelude.{◌≡◌, ◌<◌, ◌≤◌, suc, length, IfOk};
ghost use Rattle.mj_lawful.specs.Attempts.{times};
ghost use Rattle.mj_lawful.specs.Configurations.{Meanings};
ghost use Rattle.mj_lawful.specs.Entries.{accepted, epochs as epochs_of};
ghost use Rattle.mj_lawful.specs.Lawful.{AreLawful, max_epochs};
ghost use Rattle.mj_lawful.specs.Machine.{fresh};
ghost use Rattle.mj_core.specs.Epochs.{first_plan, meanings};
ghost use Rattle.mj_core.specs.Held.{IsOf};

use crate::Epoch;
use crate::epoch::numbered;
use mj_core_lists::{Claim, count_accepted, count_epochs, is_same};
use mj_fields::{Bytes, Items, Memory};
use mj_mail::{Cause, Entry, Mail, Name, Stages};
use std::alloc::Global;
use std::marker::Model;

/// A machine that carries mails. Contracts see its state, and beside it the mails that wait for their step.
#[derive(Debug, Drop)]
pub struct Machine {
    pub(crate) entries: Items<Entry>,
    pub(crate) claims: Items<Claim>,
    /// In milliseconds since 1970-01-01T00:00:00Z.
    pub(crate) moment: u64,
    /// The name of the mail of each attempt, in order.
    pub(crate) attempts: Items<Name>,
    /// Mails are still accepted.
    pub(crate) intake: bool,
    pub(crate) stop: Option<Cause>,
    pub(crate) running: bool,
    /// The mails whose names have no entry of their step yet, in order of birth.
    pub(crate) waiting: Items<Mail>,
}

impl Model for Machine {
    ghost use Rattle.mj_core.specs.Held.{Held};

    ghost Value = { Held };

    ghost view = { λ m. record {
      machine = record {
        entries = m.entries;
        claims = m.claims;
        moment = m.moment;
        attempts = m.attempts;
        intake = m.intake;
        stop = m.stop;
        running = m.running;
      };
      waiting = m.waiting;
    } };
}

impl Machine {
    /// A machine in which the first of these configurations is in force, and mails are accepted. Without room for it there is
    /// `Memory` alone.
    pub fn fresh<R: Stages>(alloc: Global, epochs: &Items<Epoch<R>>) -> Result<Machine, Memory>
        requires { 0 < length epochs.now }
        ensures machine { IfOk result (λ made. made.machine ≡ fresh (meanings R.Rules R.is_allowed epochs.now) (first_plan epochs.now)) }
        ensures is_of { IfOk result (λ made. IsOf (meanings R.Rules R.is_allowed epochs.now) made) }
    {
        let first = numbered(epochs, 1);
        let plan = first_plan(alloc, epochs.as_slice())?;
        let mut entries = Items::new(alloc);
        entries.push(Entry::Setup { plan })?;
        Ok(Machine {
            entries,
            claims: Items::new(alloc),
            moment: first.start,
            attempts: Items::new(alloc),
            intake: true,
            stop: None,
            running: true,
            waiting: Items::new(alloc),
        })
    }

    /// The entries, in order.
    pub fn entries(&self) -> &Items<Entry>
        ensures { result.now ≡ self.now.machine.entries }
    {
        &self.entries
    }

    /// How often the name stands among those of the attempts.
    pub fn attempts(&self, name: &Name) -> u64
        ensures { result ≡ times name.now self.now.machine.attempts }
    {
        count_name(self.attempts.as_slice(), name)
    }

    /// The number of the configuration in force.
    pub(crate) fn epoch(&self) -> usize
        ensures number { result ≡ epochs_of self.now.machine.entries }
        ensures few { (r : Meanings) → AreLawful r self.now.machine.entries → result ≤ max_epochs }
    {
        count_epochs(self.entries.as_slice())
    }

    /// The number under which the next mail is accepted.
    pub(crate) fn next_number(&self) -> u64
        requires { 0 < epochs_of self.now.machine.entries }
        ensures { result ≡ suc (length (accepted self.now.machine.entries)) }
    {
        count_accepted(self.entries.as_slice()) as u64 + 1
    }
}

/// A copy of the bytes of the first configuration.
fn first_plan<R>(alloc: Global, epochs: &[Epoch<R>]) -> Result<Bytes, Memory>
    requires { 0 < length epochs.now }
    ensures { IfOk result (λ plan. plan ≡ first_plan epochs.now) }
{
    epochs[0].plan.copy(alloc)
}

fn count_name(names: &[Name], name: &Name) -> u64
    ensures { result ≡ times name.now names.now }
{
    let mut count = 0;
    for other in names {
        count += u64::from(is_same(other, name));
    }
    count
}
