//! Bytes and lists that contracts see as lists, the fields of records, the want of memory, and the count of
//! calls that objects in memory keep.
#![tactic(auto)]

mod bytes;
mod calls;
mod items;
mod memory;
mod puts;
mod takes;

pub use bytes::Bytes;
pub use calls::Calls;
pub use items::Items;
pub use memory::Memory;
pub use puts::{put_bytes, put_u8, put_u16, put_u32, put_u64};
pub use takes::{take_bytes, take_u8, take_u16, take_u32, take_u64};
