//! Why a text is no address.

use thiserror::Error;

/// What is wrong with a text that was to be an address or a domain: the first of these that holds.
#[derive(Clone, Copy, Debug, PartialEq, Eq, Error)]
pub enum AddressFault {
    /// An address without an `@`.
    #[error("the address has no @")]
    NoAt,
    /// A local part of more than 64 bytes (RFC 5321, 4.5.3.1.1).
    #[error("the local part is longer than 64 bytes")]
    LocalTooLong,
    /// A local part that is not atoms joined by single dots (RFC 5322, 3.2.3).
    #[error("the local part is not made of atoms")]
    BadLocal,
    /// A domain of more than 255 bytes (RFC 5321, 4.5.3.1.2).
    #[error("the domain is longer than 255 bytes")]
    DomainTooLong,
    /// A domain that is not labels joined by single dots (RFC 5321, 4.1.2).
    #[error("the domain is not made of labels")]
    BadDomain,
    /// Memory ran out. It says nothing of the text.
    #[error("out of memory")]
    Memory,
}
