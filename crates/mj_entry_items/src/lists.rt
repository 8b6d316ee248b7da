//! Reading of names, recipients, attributes and heads.
ghost use Rattle.std.specs.Prelude.{◌≡◌, [], ◌∷◌, ◌++◌, true, IfOk, Result};
ghost use Rattle.std.specs.Int.{w32};
ghost use Rattle.mj_mail.specs.Attributes.{AreAttributes};
ghost use Rattle.mj_mail.specs.declared.attributes.TheConstants.{MAX_ATTRIBUTES};
ghost use Rattle.mj_entry_rows.specs.Readings.{fitting_in, list_in, number_in};
ghost use Rattle.mj_entry_rows.specs.Items.{address_in, attributes_in, head_in, is_new_recipient, is_next_attribute, is_next_field, name_in, recipients_in};
ghost use Rattle.mj_entry_items.specs.Taken.{Takes};
ghost use Rattle.mj_entry_items.specs.Names.{are_before, is_next_name};

use crate::EntryFault;
use crate::reader::Reader;
use mj_address::Recipients;
use mj_fields::{Bytes, Items, Memory};
use mj_head::{Head, HeadBuilder};
use mj_mail::{Attributes, MAX_ATTRIBUTES, Name};
use std::alloc::{AllocError, Global};

/// A name: its number and its path. `Bad` where the bytes end within it, `Memory` without room.
pub fn take_name(reader: &mut Reader) -> Result<Name, EntryFault>
    ensures { Takes result (name_in reader.old) reader.new }
{
    let number = reader.long()?;
    let path = take_path(reader)?;
    Ok(Name { number, path })
}

/// The numbers of a name's path.
#[tactic(auto, using(crate::proofs::Turns::one_more, crate::proofs::Turns::none_more))]
fn take_path(reader: &mut Reader) -> Result<Items<u32>, EntryFault>
    ensures { Takes result (list_in (number_in w32) reader.old) reader.new }
{
    let count = reader.word()?;
    let mut path = Items::new(reader.alloc());
    for _ in 0..count {
        path.push(reader.word()?)?;
    }
    Ok(path)
}

/// Recipients, one at least, no two the same. `Bad` where these are none, `Memory` without room.
pub fn take_recipients(reader: &mut Reader) -> Result<Recipients, EntryFault>
    ensures { Takes result (recipients_in reader.old) reader.new }
{
    let recipients = take_different(reader)?;
    if recipients.is_empty() {
        return Err(EntryFault::Bad);
    }
    Ok(recipients)
}

/// Addresses, no two the same. Each costs one look-up by hash.
#[tactic(auto, using(crate::proofs::Turns::one_more, crate::proofs::Turns::none_more, crate::proofs::Turns::unfit_more))]
fn take_different(reader: &mut Reader) -> Result<Recipients, EntryFault>
    ensures { Takes result (fitting_in address_in is_new_recipient reader.old) reader.new }
{
    let count = reader.word()?;
    let mut recipients = Recipients::new(reader.alloc());
    for _ in 0..count {
        let address = reader.address()?;
        if !recipients.add(address)? {
            return Err(EntryFault::Bad);
        }
    }
    Ok(recipients)
}

/// Attributes: at most [`MAX_ATTRIBUTES`], with the names in ascending byte order. `Bad` where these are none, `Memory` without
/// room.
#[tactic(auto, using(crate::proofs::Turns::one_more, crate::proofs::Turns::none_more, crate::proofs::Turns::unfit_more))]
pub fn take_attributes(reader: &mut Reader) -> Result<Attributes, EntryFault>
    ensures { Takes result (attributes_in reader.old) reader.new }
{
    let count = reader.word()?;
    let mut attributes = Attributes::new(reader.alloc());
    for _ in 0..count {
        let (name, value) = reader.pair()?;
        if !add_attribute(reader.alloc(), &mut attributes, name, value)? {
            return Err(EntryFault::Bad);
        }
    }
    Ok(attributes)
}

/// Adds an attribute behind those that are there. The answer is `false`, and all stay, where there are [`MAX_ATTRIBUTES`] or
/// one of them isn't before it.
#[tactic(auto, using(crate::proofs::Ascending::put_behind))]
fn add_attribute(
    alloc: Global,
    attributes: &mut Attributes,
    name: &[u8],
    value: &[u8],
) -> Result<bool, Memory>
    ensures answer { IfOk result (λ added. added ≡ is_next_attribute attributes.old (name.now, value.now)) }
    ensures added { result ≡ Result.Ok true → attributes.new ≡ attributes.old ++ (name.now, value.now) ∷ [] }
{
    if !is_next(attributes, name) {
        return Ok(false);
    }
    attributes.set(alloc, name, value)
}

/// Whether an attribute of this name may stand behind these.
fn is_next(attributes: &Attributes, name: &[u8]) -> bool
    ensures { result ≡ is_next_name MAX_ATTRIBUTES name.now attributes.now }
{
    attributes.len() < MAX_ATTRIBUTES && is_behind(attributes.as_slice(), name)
}

/// Whether the name is behind all of these, which ascend: behind the last one.
fn is_behind(attributes: &[(Bytes, Bytes)], name: &[u8]) -> bool
    requires { AreAttributes attributes.now }
    ensures { result ≡ are_before name.now attributes.now }
{
    match attributes.last() {
        Some((last, _)) => last.as_slice().cmp(&name).is_lt(),
        None => true,
    }
}

/// A head: fields that make one (RFC 5322, 2.2). Each costs its bytes alone. `Bad` where they make none, `Memory` without room.
#[tactic(auto, using(crate::proofs::Turns::one_more, crate::proofs::Turns::none_more, crate::proofs::Turns::unfit_more))]
pub fn take_head(reader: &mut Reader) -> Result<Head, EntryFault>
    ensures { Takes result (head_in reader.old) reader.new }
{
    let count = reader.word()?;
    let mut head = HeadBuilder::new(reader.alloc());
    for _ in 0..count {
        let (name, body) = reader.pair()?;
        if !add_field(&mut head, name, body)? {
            return Err(EntryFault::Bad);
        }
    }
    Ok(head.finish(reader.alloc())?)
}

/// Adds a field at the end. The answer is `false` where the fields make no head with it.
fn add_field(head: &mut HeadBuilder, name: &[u8], body: &[u8]) -> Result<bool, AllocError>
    ensures answer { IfOk result (λ added. added ≡ is_next_field head.old (name.now, body.now)) }
    ensures added { result ≡ Result.Ok true → head.new ≡ head.old ++ (name.now, body.now) ∷ [] }
{
    head.add_raw(name, body)
}
