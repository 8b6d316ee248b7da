use mj_address::Address;
use mj_fields::Bytes;

/// A recipient to whom a mail couldn't be delivered, and why.
#[derive(Debug, Drop)]
pub struct Failure {
    pub recipient: Address,
    /// In printable ASCII bytes, without an end of line.
    pub reason: Bytes,
}
