//! The table `[spool]`.
use mj_address::{Address, Domain};
use mj_plan::{Listed, User};

/// What `[spool]` says.
#[derive(Debug, Drop)]
pub struct Spool {
    pub host_name: Domain,
    pub postmaster: Address,
    pub local_hosts: Listed<Domain>,
    pub local_users: Listed<User<'static>>,
    pub start: u64,
    pub max_hops: u32,
}
