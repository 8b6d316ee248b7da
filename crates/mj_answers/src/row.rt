use mj_address::{Address, Domain};
use mj_mail::Reply;

/// A row of the table: what is answered at a host, for a recipient, at an attempt. What isn't named may be any.
#[derive(Debug, Drop)]
pub struct Row {
    pub host: Option<Domain>,
    pub recipient: Option<Address>,
    /// From 1 to 1,000.
    pub attempt: Option<u32>,
    pub reply: Reply,
}
