ghost use Rattle.std.specs.Prelude.{◌≡◌, ◌++◌, OnOk, OnErr, IfOk};
ghost use Rattle.std.specs.Fmt.{decimal};
ghost use Rattle.mj_mail.specs.Name.{child_name, first_name, text_of};

use mj_fields::{Bytes, Items, Memory};
use std::alloc::Global;

/// The name of a mail: the number under which its origin was accepted, and for each step down the tree of its
/// descent the child's number, from 1.
#[derive(Debug, Drop)]
pub struct Name {
    pub number: u64,
    pub path: Items<u32>,
}

impl Name {
    /// The name of the mail that was accepted under this number. It takes no memory.
    pub fn first(alloc: Global, number: u64) -> Name
        ensures { result ≡ first_name number }
    {
        Name {
            number,
            path: Items::new(alloc),
        }
    }

    /// The name of the child of this number. Without room for it there is `Memory` alone.
    pub fn child(self, number: u32) -> Result<Name, Memory>
        ensures { IfOk result (λ name. name ≡ child_name self number) }
    {
        let mut name = self;
        name.path.push(number)?;
        Ok(name)
    }

    /// An equal value with room of its own.
    pub fn copy(&self, alloc: Global) -> Result<Name, Memory>
        ensures { IfOk result (λ name. name ≡ self.now) }
    {
        let path = Vec::from_slice(alloc, self.path.as_slice())?;
        Ok(Name {
            number: self.number,
            path: Items::from_vec(path),
        })
    }
}

/// The name as it is printed: the number, and for each member of the path `/` and the member.
pub fn name_text(alloc: Global, name: &Name) -> Result<Bytes, Memory>
    ensures { IfOk result (λ text. text ≡ text_of name.now) }
{
    let mut text = Bytes::new(alloc);
    put_number(alloc, &mut text, name.number)?;
    for member in name.path.as_slice() {
        text.push(b'/')?;
        put_number(alloc, &mut text, u64::from(*member))?;
    }
    Ok(text)
}

/// Puts a number in decimal digits at the end of a text. Without room for it the text stays.
pub fn put_number(alloc: Global, text: &mut Bytes, number: u64) -> Result<(), Memory>
    ensures ok { OnOk result (text.new ≡ text.old ++ decimal number) }
    ensures err { OnErr result (text.new ≡ text.old) }
{
    let digits = number.to_string(alloc)?;
    text.extend(digits.as_bytes())
}
