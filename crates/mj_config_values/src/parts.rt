//! Parts of texts, and the lists that stand in them: items between commas, without the blanks (RFC 5322, 2.2.2) round
//! them. The first item that is refused is the fault of the list.
ghost use Rattle.std.specs.Prelude.{◌≡◌, ◌∷◌, ◌==◌, ◌<◌, ◌≤◌, length, position, IfSome};
ghost use Rattle.std.specs.Option.{option_copied};
ghost use Rattle.mj_terms.specs.Text.{before, behind_byte};
ghost use Rattle.mj_config_walk.specs.Arguments.{items};
ghost use Rattle.mj_config_walk.specs.Values.{Gives, each, address, domain, few, formed};
ghost use Rattle.mj_config_values.specs.Forms.{has_form};
ghost use Rattle.mj_config_walk.specs.Rest.{items_in, left};

use crate::forms::{TextForm, formed};
use crate::values::{address, domain};
use mj_address::{Address, Domain};
use mj_config_walk::{PlanKind, Refusal};
use mj_fields::{Bytes, Items};
use mj_head::trim_blanks;
use std::alloc::Global;

/// The text up to the first such byte, or the whole text without one, and what stands behind that byte, if it is there.
#[tactic(auto, using(mj_config_walk::proofs::Cuts::before_found, mj_config_walk::proofs::Cuts::behind_found, mj_config_walk::proofs::Cuts::before_none, mj_config_walk::proofs::Cuts::behind_none))]
pub fn cut(sign: u8, text: &[u8]) -> (&[u8], Option<&[u8]>)
    ensures before { result.0.now ≡ before sign text.now }
    ensures behind { option_copied result.1 ≡ behind_byte sign text.now }
{
    match place_of(sign, text) {
        Some(place) => (&text[..place], Some(&text[place + 1..])),
        None => (text, None),
    }
}

fn place_of(sign: u8, text: &[u8]) -> Option<usize>
    ensures value { result ≡ position (λ b. b == sign) text.now }
    ensures within { IfSome result (λ place. place < length text.now) }
{
    text.iter().position(|byte| *byte == sign)
}

/// The first item of a list between commas, without the blanks round it, and the text behind its comma.
#[tactic(auto, using(mj_config_walk::proofs::Cuts::items_are, mj_config_walk::proofs::Cuts::behind_shorter))]
fn next_item(text: &[u8]) -> (&[u8], Option<&[u8]>)
    ensures items { items text.now ≡ result.0.now ∷ items_in (option_copied result.1) }
    ensures shorter { left (option_copied result.1) ≤ length text.now }
{
    let (item, rest) = cut(b',', text);
    (trim_blanks(item), rest)
}

/// The addresses between commas. An item that is none is `BadAddress`.
#[tactic(auto, using(mj_config_walk::proofs::Ahead::next_read, mj_config_walk::proofs::Ahead::next_refused, mj_config_walk::proofs::Ahead::nothing_read))]
pub fn addresses(alloc: Global, text: &[u8]) -> Result<Items<Address>, Refusal>
    ensures { Gives result (each address (items text.now)) }
{
    let mut addresses = Items::new(alloc);
    let mut rest = Some(text);
    while let Some(text) = rest {
        let (item, after) = next_item(text);
        addresses.push(address(alloc, item)?)?;
        rest = after;
    }
    Ok(addresses)
}

/// The domains between commas. An item that is none is `BadAddress`.
#[tactic(auto, using(mj_config_walk::proofs::Ahead::next_read, mj_config_walk::proofs::Ahead::next_refused, mj_config_walk::proofs::Ahead::nothing_read))]
pub fn domains(alloc: Global, text: &[u8]) -> Result<Items<Domain>, Refusal>
    ensures { Gives result (each domain (items text.now)) }
{
    let mut domains = Items::new(alloc);
    let mut rest = Some(text);
    while let Some(text) = rest {
        let (item, after) = next_item(text);
        domains.push(domain(alloc, item)?)?;
        rest = after;
    }
    Ok(domains)
}

/// The texts between commas, each of this form. An item of another form is `BadArgument`.
#[tactic(auto, using(mj_config_walk::proofs::Ahead::next_read, mj_config_walk::proofs::Ahead::next_refused, mj_config_walk::proofs::Ahead::nothing_read))]
pub fn texts_formed(alloc: Global, form: TextForm, text: &[u8]) -> Result<Items<Bytes>, Refusal>
    ensures { Gives result (each (formed (has_form form)) (items text.now)) }
{
    let mut texts = Items::new(alloc);
    let mut rest = Some(text);
    while let Some(text) = rest {
        let (item, after) = next_item(text);
        texts.push(formed(alloc, form, item)?)?;
        rest = after;
    }
    Ok(texts)
}

/// These items, where there are 1 to 100; no items or more are `BadArgument`.
pub fn few<T: Drop>(items: Items<T>) -> Result<Items<T>, Refusal>
    ensures { Gives result (few items) }
{
    if items.is_empty() || items.len() > 100 {
        return Err(Refusal::Kind(PlanKind::BadArgument));
    }
    Ok(items)
}
