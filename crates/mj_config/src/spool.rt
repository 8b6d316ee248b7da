//! The table `[spool]`.
ghost use Rattle.std.specs.Prelude.{◌≡◌, codes, option_map};
ghost use Rattle.toml.specs.View.{view, table_view};
ghost use Rattle.mj_config_walk.specs.Values.{Gives, domain, domain_value, local_part, number, optional};
ghost use Rattle.mj_config_walk.specs.Walk.{address_value, bounds_in, each_value, locals_in, moment_value, needed, owner_in, spool_of};

use mj_address::{Address, Domain};
use mj_config_values::{
    address, domain_value, domains_in, local_parts_in, moment, number, required, text, texts,
    value_at,
};
use mj_config_walk::{Refusal, Spool};
use mj_plan::{Listed, User};
use std::alloc::Global;
use toml::{Table, Value};

/// What the table says, its keys in the order of the fields.
pub(crate) fn read_spool(alloc: Global, table: &Table) -> Result<Spool, Refusal>
    ensures { Gives result (spool_of (table_view table.now)) }
{
    let (host_name, postmaster) = owner_in(alloc, table)?;
    let (local_hosts, local_users) = locals_in(alloc, table)?;
    let (start, max_hops) = bounds_in(table)?;
    Ok(Spool {
        host_name,
        postmaster,
        local_hosts,
        local_users,
        start,
        max_hops,
    })
}

/// The host and the postmaster.
fn owner_in(alloc: Global, table: &Table) -> Result<(Domain, Address), Refusal>
    ensures { Gives result (owner_in (table_view table.now)) }
{
    let host_name = host_name_in(alloc, table)?;
    let postmaster = postmaster_in(alloc, table)?;
    Ok((host_name, postmaster))
}

/// The hosts and the users that mails are delivered to here.
fn locals_in(
    alloc: Global,
    table: &Table,
) -> Result<(Listed<Domain>, Listed<User<'static>>), Refusal>
    ensures { Gives result (locals_in (table_view table.now)) }
{
    let local_hosts = local_hosts_in(alloc, table)?;
    let local_users = local_users_in(alloc, table)?;
    Ok((local_hosts, local_users))
}

/// The moment at which the clock starts, and the limit of hops.
fn bounds_in(table: &Table) -> Result<(u64, u32), Refusal>
    ensures { Gives result (bounds_in (table_view table.now)) }
{
    let start = start_in(table)?;
    let max_hops = max_hops(value_at(table, "max_hops"))?;
    Ok((start, max_hops))
}

fn host_name_in(alloc: Global, table: &Table) -> Result<Domain, Refusal>
    ensures { Gives result (needed (codes "host_name") domain_value (table_view table.now)) }
{
    domain_value(alloc, required(table, "host_name")?)
}

fn postmaster_in(alloc: Global, table: &Table) -> Result<Address, Refusal>
    ensures { Gives result (needed (codes "postmaster") address_value (table_view table.now)) }
{
    address(alloc, text(required(table, "postmaster")?)?)
}

fn local_hosts_in(alloc: Global, table: &Table) -> Result<Listed<Domain>, Refusal>
    ensures { Gives result (needed (codes "local_hosts") (each_value domain) (table_view table.now)) }
{
    let hosts = domains_in(alloc, texts(required(table, "local_hosts")?)?)?;
    Ok(Listed::new(alloc, hosts)?)
}

fn local_users_in(alloc: Global, table: &Table) -> Result<Listed<User<'static>>, Refusal>
    ensures { Gives result (needed (codes "local_users") (each_value local_part) (table_view table.now)) }
{
    let names = local_parts_in(alloc, texts(required(table, "local_users")?)?)?;
    Ok(Listed::of_names(alloc, names)?)
}

fn start_in(table: &Table) -> Result<u64, Refusal>
    ensures { Gives result (needed (codes "start") moment_value (table_view table.now)) }
{
    moment(text(required(table, "start")?)?)
}

/// At so many hops a mail has looped: 1 to 1,000, and 100 where none is named.
fn max_hops(value: Option<&Value>) -> Result<u32, Refusal>
    ensures { Gives result (optional 100 (number 1 1_000) (option_map (λ v. view v.now) value.entry)) }
{
    match value {
        Some(value) => number(1, 1_000, value),
        None => Ok(100),
    }
}
