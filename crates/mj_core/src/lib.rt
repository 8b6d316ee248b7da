//! The machine that carries mails, as code: which events may happen to it, and what each makes of it. It is a model for tests,
//! on small lists.
#![tactic(auto)]

mod apply;
mod enabled;
mod epoch;
mod event;
mod laws;
mod machine;
mod run;

pub use epoch::Epoch;
pub use event::Event;
pub use laws::{one_configuration_means_as_its_rules, pending_mails_are_allowed_where_sound};
pub use machine::Machine;
pub use run::run_events;
