//! Mailets that change the attributes of a mail.
ghost use Rattle.std.specs.Prelude.{◌≡◌, [], length, nat_le, Result, true, IfOk};
ghost use Rattle.mj_container.specs.Changes.{with_each, without_each};
ghost use Rattle.mj_container.specs.declared.service.Onward.TheVariants.{GoOn};
ghost use Rattle.mj_container.specs.Serving.{Gives, goes as goes_of, with_attributes};
ghost use Rattle.mj_mail.specs.declared.attributes.TheConstants.{MAX_ATTRIBUTES as MOST};

use crate::answers::{fails, goes};
use mj_container::{Onward, ServeError, Served};
use mj_fields::{Bytes, Memory};
use mj_mail::{Attributes, Mail};
use mj_plan::Named;
use std::alloc::Global;

/// Sets each of these attributes in turn, where the value of a name that the mail has is replaced, and the mail goes on. Exactly where
/// more than [`MAX_ATTRIBUTES`](mj_mail::MAX_ATTRIBUTES) would stand at the end it fails with `TooManyAttributes`, and stays as it
/// was. The other error is want of memory.
pub fn set(alloc: Global, attributes: &[Named], mail: Mail) -> Result<Served, ServeError>
    ensures { Gives result (with_attributes mail (with_each attributes.now mail.attributes)) }
{
    let mut mail = mail;
    let mut changed = mail.attributes.copy(alloc)?;
    if !set_each(alloc, &mut changed, attributes)? {
        return fails(alloc, b"TooManyAttributes", mail);
    }
    mail.attributes = changed;
    goes(alloc, Onward::GoOn(mail))
}

/// Sets one attribute after another, and says whether all found room.
fn set_each(alloc: Global, attributes: &mut Attributes, named: &[Named]) -> Result<bool, Memory>
    ensures fits { IfOk result (λ fits. fits ≡ nat_le (length (with_each named.now attributes.old)) MOST) }
    ensures set { result ≡ Result.Ok true → attributes.new ≡ with_each named.now attributes.old }
{
    for Named { name, value } in named {
        if !attributes.set(alloc, name.as_slice(), value.as_slice())? {
            return Ok(false);
        }
    }
    let _few = attributes.len();
    Ok(true)
}

/// Removes the attributes of these names, as far as the mail has them, and the mail goes on. The one error is want of memory.
pub fn remove(alloc: Global, names: &[Bytes], mail: Mail) -> Result<Served, ServeError>
    ensures { Gives result (goes_of (GoOn (record mail { attributes = without_each names.now mail.attributes }))) }
{
    let mut mail = mail;
    remove_each(&mut mail.attributes, names);
    goes(alloc, Onward::GoOn(mail))
}

fn remove_each(attributes: &mut Attributes, names: &[Bytes])
    ensures { attributes.new ≡ without_each names.now attributes.old }
{
    for name in names {
        attributes.remove(name.as_slice());
    }
}

/// Removes all attributes, and the mail goes on. The one error is want of memory.
pub fn clear(alloc: Global, mail: Mail) -> Result<Served, ServeError>
    ensures { Gives result (goes_of (GoOn (record mail { attributes = [] }))) }
{
    let mut mail = mail;
    mail.attributes.clear();
    goes(alloc, Onward::GoOn(mail))
}
