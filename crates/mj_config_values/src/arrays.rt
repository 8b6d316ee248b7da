//! Arrays of texts, each of one form. The first item that isn't of it is the one that is refused.
ghost use Rattle.std.specs.Prelude.{◌≡◌};
ghost use Rattle.toml.specs.View.{view, items_view};
ghost use Rattle.mj_config_walk.specs.Values.{Gives, each_text, address, domain, local_part};

use crate::values::{address, domain, local_part, text};
use mj_address::{Address, Domain};
use mj_config_walk::Refusal;
use mj_fields::{Bytes, Items};
use std::alloc::Global;
use toml::Value;

/// The items of an array as addresses. An item that is no text is `WrongType`, and a text that is none is `BadAddress`.
pub fn addresses_in(alloc: Global, values: &[Value]) -> Result<Items<Address>, Refusal>
    ensures { Gives result (each_text address (items_view values.now)) }
{
    let mut addresses = Items::new(alloc);
    for value in values {
        addresses.push(address(alloc, text(value)?)?)?;
    }
    Ok(addresses)
}

/// The items of an array as domains. An item that is no text is `WrongType`, and a text that is none is `BadAddress`.
pub fn domains_in(alloc: Global, values: &[Value]) -> Result<Items<Domain>, Refusal>
    ensures { Gives result (each_text domain (items_view values.now)) }
{
    let mut domains = Items::new(alloc);
    for value in values {
        domains.push(domain(alloc, text(value)?)?)?;
    }
    Ok(domains)
}

/// The items of an array as local parts. An item that is no text is `WrongType`, and a text that is none is `BadAddress`.
pub fn local_parts_in(alloc: Global, values: &[Value]) -> Result<Items<Bytes>, Refusal>
    ensures { Gives result (each_text local_part (items_view values.now)) }
{
    let mut local_parts = Items::new(alloc);
    for value in values {
        local_parts.push(local_part(alloc, text(value)?)?)?;
    }
    Ok(local_parts)
}
