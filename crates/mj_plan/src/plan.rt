ghost use Rattle.std.specs.Prelude.{◌≡◌};
ghost use Rattle.std.specs.Option.{option_copied, option_map};
ghost use Rattle.mj_plan.specs.Lookups.{delivery_in, delivery_named, processor_named, schedule_named};

use crate::{Delivery, Listed, MailetKind, Mappings, MatchExpr, User};
use mj_address::{Address, Domain};
use mj_delays::Schedule;
use mj_fields::{Bytes, Items};

/// What a configuration says, read and judged. Moments are milliseconds since 1970-01-01T00:00:00Z.
#[derive(Debug, Drop)]
pub struct Plan {
    /// The name by which this host speaks of itself.
    pub host_name: Domain,
    pub postmaster: Address,
    pub local_hosts: Listed<Domain>,
    pub local_users: Listed<User<'static>>,
    /// The moment at which all mails are due first.
    pub start: u64,
    /// At so many hops a mail has looped.
    pub max_hops: u32,
    pub mappings: Mappings,
    pub processors: Items<Processor>,
}

/// A named list of steps.
#[derive(Debug, Drop)]
pub struct Processor {
    pub name: Bytes,
    pub steps: Items<Step>,
}

/// A matcher and a mailet, and where a mail goes where one of them fails.
#[derive(Debug, Drop)]
pub struct Step {
    pub matcher: MatchExpr,
    pub on_match: MatchRoute,
    pub mailet: MailetKind,
    pub on_mailet: MailetRoute,
}

/// What becomes of a mail whose matcher failed.
#[derive(Debug, Drop)]
pub enum MatchRoute {
    /// It goes on as if no recipient had matched.
    NoMatch,
    /// It goes on as if all had.
    MatchAll,
    /// It goes to this processor.
    To(Bytes),
}

/// What becomes of a mail whose mailet failed.
#[derive(Debug, Drop)]
pub enum MailetRoute {
    /// It goes on as it was.
    Ignore,
    /// It goes to this processor.
    To(Bytes),
}

/// A row of the rewrite table.
#[derive(Debug, Drop)]
pub enum Mapping {
    /// Mail for this address goes to those.
    Addresses { from: Address, to: Items<Address> },
    /// Mail for this address fails with this text.
    Error { from: Address, text: Bytes },
    /// Mail for any address at this domain goes to the same local part at that one.
    Host { from: Domain, to: Domain },
}

impl Plan {
    /// The first processor of this name; `None` exactly where none has it. Names are compared byte for byte.
    pub fn processor(&self, name: &[u8]) -> Option<&Processor>
        ensures { option_copied result ≡ processor_named name.now self.now.processors }
    {
        self.processors
            .as_slice()
            .iter()
            .find(|processor| processor.name.as_slice() == name)
    }

    /// The first remote delivery of this name; `None` exactly where none has it. Names are compared byte for byte.
    pub fn delivery(&self, name: &[u8]) -> Option<Delivery<'_>>
        ensures { option_map (λ delivery. (delivery.schedule.now, option_copied delivery.bounce_processor)) result ≡ delivery_named name.now self.now.processors }
    {
        for processor in self.processors.as_slice() {
            let delivery = processor.delivery(name);
            if delivery.is_some() {
                return delivery;
            }
        }
        None
    }

    /// The schedule of the first remote delivery of this name; `None` exactly where none has it.
    pub fn schedule(&self, delivery: &[u8]) -> Option<&Schedule>
        ensures { option_copied result ≡ schedule_named delivery.now self.now.processors }
    {
        Some(self.delivery(delivery)?.schedule)
    }
}

impl Processor {
    /// The first remote delivery of this name in the processor.
    fn delivery(&self, name: &[u8]) -> Option<Delivery<'_>>
        ensures { option_map (λ delivery. (delivery.schedule.now, option_copied delivery.bounce_processor)) result ≡ delivery_in name.now self.now.steps }
    {
        for step in self.steps.as_slice() {
            let delivery = step.mailet.delivery(name);
            if delivery.is_some() {
                return delivery;
            }
        }
        None
    }
}
