//! The top call of the program `james`: from the words of the command line, the files and the sink to the status.
#![tactic(auto)]

mod carry;
mod config;
mod intake;
mod report;
mod run;
mod top;

pub use config::read_configuration;
pub use top::james_one;
