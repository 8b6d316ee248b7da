ghost use Rattle.std.specs.Prelude.{◌≡◌};
ghost use Rattle.std.specs.Option.{option_copied, option_map};
ghost use Rattle.mj_plan.specs.Lookups.{delivery_of};

use mj_address::{Address, Domain};
use mj_delays::Schedule;
use mj_fields::{Bytes, Items};

/// A text with a name: a mail attribute and its value, or a mail attribute and the field that takes its value.
#[derive(Debug, Drop)]
pub struct Named {
    pub name: Bytes,
    pub value: Bytes,
}

/// What a mailet does with the mail of the matched recipients.
#[derive(Debug, Drop)]
pub enum MailetKind {
    /// Sends the mail to a processor.
    ToProcessor {
        processor: Bytes,
    },
    /// Discards the mail.
    Null,
    /// Sets mail attributes, in ascending byte order of their names.
    SetMailAttribute {
        attributes: Items<Named>,
    },
    /// Removes mail attributes.
    RemoveMailAttribute {
        names: Items<Bytes>,
    },
    /// Removes all mail attributes.
    RemoveAllMailAttributes,
    /// Appends a field.
    SetMimeHeader {
        name: Bytes,
        value: Bytes,
    },
    /// Removes all fields of these names.
    RemoveMimeHeader {
        names: Items<Bytes>,
    },
    /// Appends a field for each of these attributes that the mail has. A pair names the attribute and the field.
    MailAttributesToMimeHeaders {
        mapping: Items<Named>,
    },
    /// Puts a text in front of the Subject.
    AddSubjectPrefix {
        prefix: Bytes,
    },
    /// Gives each recipient's local part in lower case.
    RecipientToLowerCase,
    /// Sends what is for the postmaster of a local host to the plan's postmaster.
    PostmasterAlias,
    /// Rewrites each recipient by the plan's mappings.
    RecipientRewriteTable,
    /// Sends a copy to these addresses.
    Forward {
        to: Items<Address>,
        pass_through: bool,
    },
    /// Sends a notice to the sender.
    Bounce {
        message: Bytes,
        pass_through: bool,
    },
    /// Sends a notice to the postmaster.
    NotifyPostmaster {
        pass_through: bool,
    },
    /// Deposits the mail into each recipient's mailbox.
    LocalDelivery,
    /// Deposits the mail into a repository.
    ToRepository {
        path: Bytes,
        pass_through: bool,
    },
    /// Sends the mail to its recipients' hosts, or to the gateway, and tries again by the schedule.
    RemoteDelivery {
        outgoing: Bytes,
        schedule: Schedule,
        gateway: Option<Domain>,
        bounce_processor: Option<Bytes>,
    },
    /// Fails with this text, which serves to try out the routes of failures.
    Fail {
        text: Bytes,
    },
}

/// A remote delivery of a plan.
#[derive(Clone, Copy, Debug)]
pub struct Delivery<'a> {
    /// How long it waits between its attempts.
    pub schedule: &'a Schedule,
    /// The processor to which it sends what it couldn't deliver, if it names one.
    pub bounce_processor: Option<&'a Bytes>,
}

impl MailetKind {
    /// The remote delivery that this is, if it is the one of that name.
    pub(crate) fn delivery(&self, name: &[u8]) -> Option<Delivery<'_>>
        ensures { option_map (λ delivery. (delivery.schedule.now, option_copied delivery.bounce_processor)) result ≡ delivery_of name.now self.now }
    {
        match self {
            MailetKind::RemoteDelivery {
                outgoing,
                schedule,
                bounce_processor,
                ..
            } if outgoing.as_slice() == name => Some(Delivery {
                schedule,
                bounce_processor: bounce_processor.as_ref(),
            }),
            _ => None,
        }
    }
}
