//! Lists of delays between the attempts of a delivery.
#![tactic(auto)]

mod delays;
mod digits;
mod schedules;
mod texts;

pub use digits::numeral;
pub use schedules::{Schedule, ScheduleFault};
