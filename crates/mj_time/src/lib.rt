//! Moments that are read, and dates as mail writes them. The lists of delays stand below, without the
//! calendar, and are handed on from here.
#![tactic(auto)]

mod dates;
mod moments;

pub use dates::date_text;
pub use mj_delays::{Schedule, ScheduleFault, numeral};
pub use moments::{MomentFault, read_moment};
