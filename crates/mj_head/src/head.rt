//! A head: a list of fields.
ghost use Rattle.std.specs.Prelude.{◌≡◌, ◌+◌, ◌<◌, ◌≤◌, ◌==◌, ◌↔◌, [], ◌∷◌, ◌++◌, true, false, not, length, filter, count_by, slice_get, take, drop, IsTrue, Option, Result, IfOk, OnOk, OnErr, List, ℕ};
ghost use Rattle.std.specs.Option.{option_map};
ghost use Rattle.mj_head.specs.Head.{fields_in, written, is_head, is_field, is_field_name, head_of};
ghost use Rattle.mj_head.specs.Reading.{with_body, Stands};
ghost use Rattle.mj_head.specs.Fields.{is_named, unfolded, is_field_value, replaced_first, IsSomeHead};

use crate::cursor::WRITTEN_LIMIT;
use crate::field::Field;
use crate::fields::{count_named, fields_from, first_named, place_named, put_field, remove_named};
use crate::read::is_field;
use crate::text::Text;
use crate::unfold::unfold;
use crate::walk::Fields;
use mj_head_lines::count_field_ends;
use std::alloc::{AllocError, Global};
use std::marker::Model;

/// The head of a message: its fields in order, in a written form of at most 65,536 bytes (RFC 5322,
/// 2.2). It is this written form, which a copy shares until one of them is changed. Contracts see the
/// list of its fields.
#[derive(Debug, Drop)]
pub struct Head {
    pub(crate) text: Text,
}

impl Model for Head {
    ghost use Rattle.std.specs.Prelude.{◌≡◌, ℕ, List, true};
    ghost use Rattle.mj_head.specs.Head.{fields_in, written, is_head};

    ghost Value = { List (List ℕ × List ℕ) };

    ghost view = { λ head. fields_in head.text };

    ghost invariant = { λ head. (written (fields_in head.text) ≡ head.text)
        × (is_head (fields_in head.text) ≡ true) };
}

impl Head {
    /// A head without fields.
    pub fn new(alloc: Global) -> Head
        ensures { result ≡ [] }
    {
        Head {
            text: Text::new(alloc),
        }
    }

    /// The head of this written form.
    pub(crate) fn of(alloc: Global, text: Vec<u8>) -> Result<Head, AllocError>
        requires same { written (fields_in text.items) ≡ text.items }
        requires head { is_head (fields_in text.items) ≡ true }
        ensures { IfOk result (λ head. head ≡ fields_in text.items) }
    {
        let text = Text::from_vec(alloc, text)?;
        Ok(Head { text })
    }

    /// The number of fields. It looks at the written form 63 bytes at a time.
    pub fn len(&self) -> usize
        ensures { result ≡ length self.now }
    {
        count_field_ends(self.text.as_slice())
    }

    /// Whether there is no field.
    pub fn is_empty(&self) -> bool
        ensures { result ≡ (length self.now == 0) }
    {
        self.text.as_slice().is_empty()
    }

    /// The field at this place, from 0; `None` where there are no more than `place` fields. It goes
    /// over the fields before it: `fields` is for all of them.
    pub fn get(&self, place: usize) -> Option<Field<'_>>
        ensures { result ≡ slice_get self.now place }
    {
        let mut fields = fields_from(self.fields(), place);
        fields.next()
    }

    /// The fields, one after another, of which there are at most 65,536.
    pub fn fields(&self) -> Fields<'_>
        ensures all { result ≡ self.now }
        ensures few { length self.now ≤ 65536 }
    {
        Fields::new(self.text.as_slice())
    }

    /// The number of bytes of the written form, at most 65,536.
    pub fn written_len(&self) -> usize
        ensures len { result ≡ length (written self.now) }
        // What every head is.
        ensures head { is_head self.now ≡ true }
    {
        self.text.len()
    }

    /// How many fields have this name, without regard to ASCII case.
    pub fn count(&self, name: &[u8]) -> usize
        ensures { result ≡ count_by (is_named name.now) self.now }
    {
        count_named(self.fields(), name)
    }

    /// Writes the head at the end: name, colon, raw body and CRLF of each field. After an error `out`
    /// is as before.
    pub fn write_to(&self, out: &mut Vec<u8>) -> Result<(), AllocError>
        ensures ok { OnOk result (out.new.items ≡ out.old.items ++ written self.now) }
        ensures err { OnErr result (out.new.items ≡ out.old.items) }
        // What every head is.
        ensures form { is_head self.now ≡ true }
    {
        out.extend_from_slice(self.text.as_slice())
    }

    /// Takes out every field of this name, without regard to ASCII case.
    pub fn remove(&mut self, name: &[u8]) -> Result<(), AllocError>
        ensures ok { OnOk result (self.new ≡ filter (λ field. not (is_named name.now field)) self.old) }
        ensures err { OnErr result (self.new ≡ self.old) }
    {
        let mut text = self.text.with_room(0)?;
        remove_named(&mut text, name);
        *self = Head::of(self.text.allocator(), text)?;
        Ok(())
    }

    /// A head equal to this one. Both share their memory until one of them is changed.
    pub fn copy(&self) -> Result<Head, AllocError>
        ensures { IfOk result (λ head. head ≡ self.now) }
    {
        let text = self.text.copy()?;
        Ok(Head { text })
    }

    /// Adds a field at the end, whose raw body is a space and the value. The answer is `false`, with
    /// the head as before, where the written form would have more than 65,536 bytes.
    pub fn append(&mut self, name: &[u8], value: &[u8]) -> Result<bool, AllocError>
        requires name { is_field_name name.now ≡ true }
        requires value { is_field_value value.now ≡ true }
        ensures fits { IfOk result (λ added. IsTrue added
            ↔ (length (written (self.old ++ (name.now, 32 ∷ value.now) ∷ [])) ≤ 65536)) }
        ensures added { result ≡ Result.Ok true
            → self.new ≡ self.old ++ (name.now, 32 ∷ value.now) ∷ [] }
        ensures refused { result ≡ Result.Ok false → self.new ≡ self.old }
        ensures err { OnErr result (self.new ≡ self.old) }
    {
        let needed = name.len().saturating_add(value.len()).saturating_add(4);
        if needed > WRITTEN_LIMIT - self.text.len() {
            return Ok(false);
        }
        self.push(name, b" ", value)?;
        Ok(true)
    }

    /// Gives the first field of this name, without regard to ASCII case, the raw body space and value;
    /// its name stays as it is spelled. Where there is none, it adds such a field at the end. The
    /// answer is `false`, with the head as before, where the written form would have more than 65,536
    /// bytes.
    pub fn replace_first(&mut self, name: &[u8], value: &[u8]) -> Result<bool, AllocError>
        requires name { is_field_name name.now ≡ true }
        requires value { is_field_value value.now ≡ true }
        ensures fits { IfOk result (λ replaced. IsTrue replaced
            ↔ (length (written (replaced_first name.now (32 ∷ value.now) self.old)) ≤ 65536)) }
        ensures replaced { result ≡ Result.Ok true
            → self.new ≡ replaced_first name.now (32 ∷ value.now) self.old }
        ensures refused { result ≡ Result.Ok false → self.new ≡ self.old }
        ensures err { OnErr result (self.new ≡ self.old) }
    {
        match place_named(self.fields(), name) {
            Some(place) => self.replace_at(place, value),
            None => self.append(name, value),
        }
    }

    /// Gives the field at this place the raw body space and value, as `replace_first` does.
    fn replace_at(&mut self, place: usize, value: &[u8]) -> Result<bool, AllocError>
        requires place { place < length self.old }
        requires value { is_field_value value.now ≡ true }
        ensures fits { IfOk result (λ replaced. IsTrue replaced
            ↔ (length (written (with_body self.old place (32 ∷ value.now))) ≤ 65536)) }
        ensures replaced { result ≡ Result.Ok true
            → self.new ≡ with_body self.old place (32 ∷ value.now) }
        ensures refused { result ≡ Result.Ok false → self.new ≡ self.old }
        ensures err { OnErr result (self.new ≡ self.old) }
    {
        let (from, to) = self.body_at(place);
        let others = self.text.len() - (to - from);
        let needed = value.len().saturating_add(1);
        if needed > WRITTEN_LIMIT - others {
            return Ok(false);
        }
        let alloc = self.text.allocator();
        let text = with_value(alloc, self.text.as_slice(), from, to, value)?;
        *self = Head::of(alloc, text)?;
        Ok(true)
    }

    /// Where the raw body of the field at this place begins in the written form, and where it ends.
    fn body_at(&self, place: usize) -> (usize, usize)
        requires { place < length self.now }
        ensures { Stands self.now place result.0 result.1 }
    {
        let mut fields = fields_from(self.fields(), place);
        let Some(field) = fields.next() else {
            return (0, 0);
        };
        let end = self.text.len() - fields.written_len() - 2;
        (end - field.body().len(), end)
    }

    /// Adds the field of this name, whose raw body are both parts, at the end.
    fn push(&mut self, name: &[u8], front: &[u8], body: &[u8]) -> Result<(), AllocError>
        requires form { is_field (name.now, front.now ++ body.now) ≡ true }
        requires fits { length (written self.old) + (length name.now + (length front.now + length body.now) + 3) ≤ 65536 }
        ensures ok { OnOk result (self.new ≡ self.old ++ (name.now, front.now ++ body.now) ∷ []) }
        ensures err { OnErr result (self.new ≡ self.old) }
    {
        let more = name.len() + front.len() + body.len() + 3;
        let mut text = self.text.with_room(more)?;
        put_field(&mut text, name, front, body)?;
        *self = Head::of(self.text.allocator(), text)?;
        Ok(())
    }

    /// Adds the field of this name and raw body at the end. The answer is `false`, with the head as
    /// before, exactly where no text has the head with this field: the name has not the form of a
    /// name, a LF of the body doesn't stand between a CR and a blank, or the written form would have
    /// more than 65,536 bytes.
    pub fn add_raw(&mut self, name: &[u8], body: &[u8]) -> Result<bool, AllocError>
        ensures answer { IfOk result (λ added. IsTrue added
            ↔ IsSomeHead (self.old ++ (name.now, body.now) ∷ [])) }
        ensures added { result ≡ Result.Ok true
            → self.new ≡ self.old ++ (name.now, body.now) ∷ [] }
        ensures refused { result ≡ Result.Ok false → self.new ≡ self.old }
        ensures err { OnErr result (self.new ≡ self.old) }
    {
        let needed = name.len().saturating_add(body.len()).saturating_add(3);
        if needed > WRITTEN_LIMIT - self.text.len() || !is_field(name, body) {
            return Ok(false);
        }
        self.push(name, b"", body)?;
        Ok(true)
    }

    /// What the first field of this name says, without regard to ASCII case: its raw body without its
    /// CRLFs (RFC 5322, 2.2.3), and without spaces and tabs at both ends. `None` exactly where no
    /// field has this name.
    pub fn unfolded(&self, alloc: Global, name: &[u8]) -> Result<Option<Vec<u8>>, AllocError>
        ensures { IfOk result (λ value.
            option_map (λ text. text.items) value ≡ unfolded name.now self.now) }
    {
        match first_named(self.fields(), name) {
            Some(field) => Ok(Some(unfold(alloc, field.body())?)),
            None => Ok(None),
        }
    }
}

/// The text with a space and this value in place of what stands from one place to the other.
fn with_value(
    alloc: Global,
    text: &[u8],
    from: usize,
    to: usize,
    value: &[u8],
) -> Result<Vec<u8>, AllocError>
    requires order { from ≤ to }
    requires within { to ≤ length text.now }
    ensures { IfOk result (λ new.
        new.items ≡ (take from text.now ++ (32 ∷ value.now)) ++ drop to text.now) }
{
    let kept = text.len() - (to - from);
    let len = kept.saturating_add(value.len()).saturating_add(1);
    let mut new = Vec::with_capacity(alloc, len)?;
    new.extend_from_slice(&text[..from])?;
    new.push(b' ')?;
    new.extend_from_slice(value)?;
    new.extend_from_slice(&text[to..])?;
    Ok(new)
}

/// The written form of a head: name, colon, raw body and CRLF of each field (RFC 5322, 2.2).
pub fn write_head(alloc: Global, head: &Head) -> Result<Vec<u8>, AllocError>
    ensures written { IfOk result (λ text. text.items ≡ written head.now) }
    // With an empty line behind it, it is read as this head, whatever follows.
    ensures read_again { IfOk result (λ text. (body : List ℕ)
        → head_of (text.items ++ 13 ∷ 10 ∷ body) ≡ Result.Ok (head.now, length text.items + 2)) }
{
    let mut text = Vec::with_capacity(alloc, head.written_len())?;
    head.write_to(&mut text)?;
    Ok(text)
}
