//! The plan of a mail service: what its configuration says, with every condition and mailet that it can name.
#![tactic(auto)]

mod condition;
mod forms;
mod listed;
mod mailet;
mod mappings;
mod matcher;
mod plan;
mod user;

pub use condition::{Condition, Relation};
pub use forms::{
    GHOST, is_attribute_name, is_attribute_value, is_line, is_processor_name, is_reply_code,
    is_repository,
};
pub use listed::{Copied, Listed};
pub use mailet::{Delivery, MailetKind, Named};
pub use mappings::Mappings;
pub use matcher::MatchExpr;
pub use plan::{MailetRoute, Mapping, MatchRoute, Plan, Processor, Step};
pub use user::User;
