//! Lists of fields, each in its written form.
ghost use Rattle.std.specs.Prelude.{◌≡◌, ◌+◌, ◌<◌, ◌≤◌, [], ◌∷◌, ◌++◌, length, not, filter, count_by, drop, OnOk, OnErr, MatchOption};
ghost use Rattle.std.specs.List.{find};
ghost use Rattle.bstr.specs.Text.{Extends};
ghost use Rattle.mj_head.specs.Head.{written, fields_in, IsWritten};
ghost use Rattle.mj_head.specs.Fields.{is_named};
ghost use Rattle.mj_head.specs.Reading.{NoneIsNamed, IsFirstNamed, IsFirstField};

use crate::field::Field;
use crate::walk::Fields;
use std::alloc::AllocError;

/// The first field of this name.
pub(crate) fn first_named<'a>(fields: Fields<'a>, name: &[u8]) -> Option<Field<'a>>
    ensures { result ≡ find (is_named name.now) fields.entry }
{
    for field in fields {
        if field.is_named(name) {
            return Some(field);
        }
    }
    None
}

/// The place of the first field of this name.
pub(crate) fn place_named(mut fields: Fields<'_>, name: &[u8]) -> Option<usize>
    requires { length fields ≤ 65536 }
    ensures { MatchOption result (NoneIsNamed name.now fields.entry)
        (λ place. IsFirstNamed name.now fields.entry place) }
{
    let mut place = 0;
    while let Some(field) = fields.next() {
        if field.is_named(name) {
            return Some(place);
        }
        place += 1;
    }
    None
}

/// How many fields have this name.
pub(crate) fn count_named(fields: Fields<'_>, name: &[u8]) -> usize
    requires { length fields ≤ 65536 }
    ensures { result ≡ count_by (is_named name.now) fields.entry }
{
    fields.filter(|field| field.is_named(name)).count()
}

/// The fields from this place on.
pub(crate) fn fields_from(mut fields: Fields<'_>, place: usize) -> Fields<'_>
    ensures { result ≡ drop place fields.entry }
{
    for _ in 0..place {
        let Some(_field) = fields.next() else {
            return fields;
        };
    }
    fields
}

/// Takes the fields of this name out of their written form; those behind move up.
pub(crate) fn remove_named(text: &mut Vec<u8>, name: &[u8])
    requires { IsWritten text.old.items }
    ensures { text.new.items
        ≡ written (filter (λ field. not (is_named name.now field)) (fields_in text.old.items)) }
{
    let mut kept = 0;
    let mut from = 0;
    while from < text.len() {
        let (named, len) = first_field(&text[from..], name);
        let end = from + len;
        if !named {
            text.copy_within(from..end, kept);
            kept += len;
        }
        from = end;
    }
    text.truncate(kept);
}

/// Whether the first field has this name, and how many bytes its written form has.
fn first_field(text: &[u8], name: &[u8]) -> (bool, usize)
    requires written { IsWritten text.now }
    requires some { 0 < length text.now }
    ensures { IsFirstField name.now text.now result.0 result.1 }
{
    let mut fields = Fields::new(text);
    let named = match fields.next() {
        Some(field) => field.is_named(name),
        None => false,
    };
    (named, text.len() - fields.written_len())
}

/// Puts the written form of the field of this name, whose raw body are both parts, at the end. After
/// an error the text is as before.
pub(crate) fn put_field(
    text: &mut Vec<u8>,
    name: &[u8],
    front: &[u8],
    body: &[u8],
) -> Result<(), AllocError>
    ensures ok { OnOk result
        (text.new.items ≡ text.old.items ++ written ((name.now, front.now ++ body.now) ∷ [])) }
    ensures err { OnErr result (text.new.items ≡ text.old.items) }
{
    let before = text.len();
    let done = put_parts(text, name, front, body);
    if done.is_err() {
        text.truncate(before);
    }
    done
}

/// Does what `put_field` says, but after an error a part of the field may stand at the end.
fn put_parts(text: &mut Vec<u8>, name: &[u8], front: &[u8], body: &[u8]) -> Result<(), AllocError>
    ensures ok { OnOk result
        (text.new.items ≡ text.old.items ++ written ((name.now, front.now ++ body.now) ∷ [])) }
    ensures err { Extends text.old.items text.new.items }
{
    put_name(text, name)?;
    if front.is_empty() {
        return put_body(text, body);
    }
    text.extend_from_slice(b":")?;
    text.extend_from_slice(front)?;
    text.extend_from_slice(body)?;
    text.extend_from_slice(b"\r\n")
}

/// Puts the name of a field at the end. A copy of a fixed length spares a short name the call.
#[inline(always)]
fn put_name(text: &mut Vec<u8>, name: &[u8]) -> Result<(), AllocError>
    ensures ok { OnOk result (text.new.items ≡ text.old.items ++ name.now) }
    ensures err { OnErr result (text.new.items ≡ text.old.items) }
{
    match name {
        [a] => text.extend_from_slice(&[*a]),
        [a, b] => text.extend_from_slice(&[*a, *b]),
        [a, b, c] => text.extend_from_slice(&[*a, *b, *c]),
        [a, b, c, d] => text.extend_from_slice(&[*a, *b, *c, *d]),
        _ => text.extend_from_slice(name),
    }
}

/// Puts what follows the name of a field at the end: the colon, the raw body and CR LF. Around a short
/// body they are put at once.
#[inline(always)]
fn put_body(text: &mut Vec<u8>, body: &[u8]) -> Result<(), AllocError>
    ensures ok { OnOk result
        (text.new.items ≡ text.old.items ++ 58 ∷ body.now ++ 13 ∷ 10 ∷ []) }
    ensures err { Extends text.old.items text.new.items }
{
    match body {
        [] => text.extend_from_slice(b":\r\n"),
        [a] => text.extend_from_slice(&[b':', *a, b'\r', b'\n']),
        [a, b] => text.extend_from_slice(&[b':', *a, *b, b'\r', b'\n']),
        [a, b, c] => text.extend_from_slice(&[b':', *a, *b, *c, b'\r', b'\n']),
        [a, b, c, d] => text.extend_from_slice(&[b':', *a, *b, *c, *d, b'\r', b'\n']),
        _ => {
            text.extend_from_slice(b":")?;
            text.extend_from_slice(body)?;
            text.extend_from_slice(b"\r\n")
        }
    }
}
