//! The names of children.
ghost use Rattle.std.specs.Prelude.{◌≡◌, IfOk};
ghost use Rattle.mj_mail.specs.Outcome.{numbered_child, numbered_from};

use crate::Mail;
use mj_fields::{Items, Memory};
use std::alloc::Global;

/// The children, each with its number at the end of its name, from 1. No memory holds more of them than there are numbers.
pub fn number_children(alloc: Global, children: Items<Mail>) -> Result<Items<Mail>, Memory>
    ensures { IfOk result (λ numbered. numbered ≡ numbered_from 1 children) }
{
    let mut numbered = Items::new(alloc);
    let mut number: u32 = 0;
    for child in children.into_vec() {
        if number == u32::MAX {
            return Err(Memory);
        }
        number += 1;
        numbered.push(number_child(child, number)?)?;
    }
    Ok(numbered)
}

fn number_child(child: Mail, number: u32) -> Result<Mail, Memory>
    ensures { IfOk result (λ numbered. numbered ≡ numbered_child number child) }
{
    let mut child = child;
    child.name = child.name.child(number)?;
    Ok(child)
}
