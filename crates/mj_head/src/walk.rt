//! Going over the fields of a head.
ghost use Rattle.std.specs.Prelude.{◌≡◌, length, Some};
ghost use Rattle.std.specs.Iterator.{YieldsFirst, item_count};
ghost use Rattle.bstr.specs.Find.{IsFirstByte, is_byte};
ghost use Rattle.mj_head.specs.Head.{written, fields_in, IsWritten};
ghost use Rattle.mj_head.specs.Reading.{field_len};

use crate::field::Field;
use crate::near::find_near;
use crate::read::begins_with_blank;
use std::marker::Model;

/// The fields of a head from one of them on, one after another; each costs what its own written form
/// has. Contracts see the list of the fields that are left, and each call of `next` gives the first of
/// them.
#[derive(Debug, Drop)]
pub struct Fields<'a> {
    /// The written form of these fields.
    text: &'a [u8],
}

impl<'a> Model for Fields<'a> {
    ghost use Rattle.std.specs.Prelude.{ℕ, List};

    ghost Value = { List (List ℕ × List ℕ) };

    ghost use Rattle.mj_head.specs.Head.{fields_in, IsWritten};

    ghost view = { λ fields. fields_in fields.text.now };

    ghost invariant = { λ fields. IsWritten fields.text.now };
}

impl<'a> Fields<'a> {
    /// All fields of this written form.
    pub(crate) fn new(text: &'a [u8]) -> Fields<'a>
        requires { IsWritten text.now }
        ensures { result ≡ fields_in text.now }
    {
        Fields { text }
    }

    /// How many bytes the written form of these fields has.
    pub(crate) fn written_len(&self) -> usize
        ensures { result ≡ length (written self.now) }
    {
        self.text.len()
    }
}

impl<'a> Iterator for Fields<'a> {
    type Item = Field<'a>;

    ghost next_gives = { YieldsFirst (λ fields. fields) };

    ghost remaining = { item_count (λ fields. fields) };

    fn next(&mut self) -> Option<Field<'a>> {
        let text = self.text;
        let name = find_near(text, b':')?;
        let len = first_len(text, name);
        self.text = &text[len..];
        Some(Field {
            name: &text[..name],
            body: &text[name + 1..len - 2],
        })
    }
}

/// How many bytes the first field of a written form has, whose name ends at this place.
fn first_len(text: &[u8], name: usize) -> usize
    requires written { IsWritten text.now }
    requires colon { IsFirstByte (is_byte 58) text.now (Some name) }
    ensures { result ≡ field_len text.now }
{
    name + 1 + field_len(&text[name + 1..])
}

/// How many bytes the first field of a written form has, or what is left of it: it ends at the first LF that no blank
/// follows (RFC 5322, 2.2.3).
fn field_len(text: &[u8]) -> usize
    ensures { result ≡ field_len text.now }
{
    let mut rest = text;
    while let Some(end) = find_near(rest, b'\n') {
        rest = &rest[end + 1..];
        if !begins_with_blank(rest) {
            return text.len() - rest.len();
        }
    }
    text.len()
}
