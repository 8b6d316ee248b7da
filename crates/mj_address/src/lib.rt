//! Mail addresses: domains, addresses and lists of recipients.
//!
//! An address is a local part of atoms (RFC 5322, 3.2.3) and a domain of labels (RFC 5321, 4.1.2),
//! within the lengths of RFC 5321, 4.5.3.1. Quoted local parts, address literals and bytes over 127
//! are refused. Two addresses are the same where they differ in ASCII case alone.
#![tactic(auto)]

mod address;
mod domain;
mod fault;
mod fold_case;
mod forms;
mod kept;
mod laws;
mod recipients;
mod sides;

pub use address::Address;
pub use domain::Domain;
pub use fault::AddressFault;
pub use fold_case::{hash as hash_without_case, same as same_without_case};
pub use forms::judge_local;
pub use laws::{read_is_spelled, spelled_is_read};
pub use recipients::Recipients;
