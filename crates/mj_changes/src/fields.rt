//! Mailets that change the head of a mail.
ghost use Rattle.std.specs.Prelude.{◌≡◌, ◌++◌, ◌∷◌, [], length, nat_le, Result, true, false, IfOk, if◌then◌else◌, ◌==◌, ◌||◌};
ghost use Rattle.std.specs.List.{list_all};
ghost use Rattle.std.specs.Option.{option_map};
ghost use Rattle.mj_container.specs.Changes.{field_of, fields_from, on_one_line as on_one_line_of, prefixed as prefixed_of, with_prefix, without_fields};
ghost use Rattle.mj_container.specs.declared.service.Onward.TheVariants.{GoOn};
ghost use Rattle.mj_container.specs.Serving.{Gives, goes as goes_of, with_head};
ghost use Rattle.mj_container.specs.Sound.{is_attribute};
ghost use Rattle.mj_head.specs.Fields.{is_field_value};
ghost use Rattle.mj_head.specs.Head.{is_field_name, written};
ghost use Rattle.mj_mail.specs.declared.limits.TheConstants.{MAX_HEAD as LONGEST};
ghost use Rattle.mj_plan.specs.Forms.{is_line};
ghost use Rattle.mj_plan.specs.Sound.{is_header_mapping};

use crate::answers::{fails, goes};
use mj_container::{Onward, ServeError, Served};
use mj_fields::{Bytes, Memory};
use mj_head::Head;
use mj_mail::{Attributes, Mail};
use mj_plan::Named;
use std::alloc::Global;

/// Why a head can't be changed.
const HEAD_TOO_LONG: &[u8] = b"HeadTooLong";

/// The field that a prefix is put into.
const SUBJECT: &[u8] = b"Subject";

/// Appends a field to the head (RFC 5322, 2.2), with a space in front of its value, and the mail goes on. The value is 1 to 512
/// printable ASCII characters. Exactly where the written head would have more than [`MAX_HEAD`](mj_mail::MAX_HEAD) bytes it fails
/// with `HeadTooLong`, and the mail stays as it was. The other error is want of memory.
#[tactic(auto, using(crate::proofs::Values::line_value))]
pub fn append(alloc: Global, name: &[u8], value: &[u8], mail: Mail) -> Result<Served, ServeError>
    requires name { is_field_name name.now ≡ true }
    requires value { is_line value.now ≡ true }
    ensures { Gives result (with_head mail (mail.head ++ field_of name.now value.now ∷ [])) }
{
    let mut mail = mail;
    if !append_field(&mut mail.head, name, value)? {
        return fails(alloc, HEAD_TOO_LONG, mail);
    }
    goes(alloc, Onward::GoOn(mail))
}

/// Appends a field, and says whether it found room; else the head stays.
fn append_field(head: &mut Head, name: &[u8], value: &[u8]) -> Result<bool, Memory>
    requires name { is_field_name name.now ≡ true }
    requires value { is_field_value value.now ≡ true }
    ensures fits { IfOk result (λ fits. fits ≡ nat_le (length (written (head.old ++ field_of name.now value.now ∷ []))) LONGEST) }
    ensures appended { result ≡ Result.Ok true → head.new ≡ head.old ++ field_of name.now value.now ∷ [] }
    ensures refused { result ≡ Result.Ok false → head.new ≡ head.old }
{
    Ok(head.append(name, value)?)
}

/// Appends a field for each of these attributes that the mail has, in turn, and the mail goes on. The name of a pair is the
/// attribute's, and its value is the name of the field, which takes the attribute's value. Exactly where the written head would have
/// more than [`MAX_HEAD`](mj_mail::MAX_HEAD) bytes at the end it fails with `HeadTooLong`, and the mail stays as it was. The other
/// error is want of memory.
pub fn append_attributes(alloc: Global, mapping: &[Named], mail: Mail) -> Result<Served, ServeError>
    requires names { list_all is_header_mapping mapping.now ≡ true }
    requires values { list_all is_attribute mail.attributes ≡ true }
    ensures { Gives result (with_head mail (mail.head ++ fields_from mapping.now mail.attributes)) }
{
    let mut mail = mail;
    let mut head = copy_head(&mail.head)?;
    if !append_each(&mut head, mapping, &mail.attributes)? {
        return fails(alloc, HEAD_TOO_LONG, mail);
    }
    mail.head = head;
    goes(alloc, Onward::GoOn(mail))
}

fn copy_head(head: &Head) -> Result<Head, Memory>
    ensures { IfOk result (λ copy. copy ≡ head.now) }
{
    Ok(head.copy()?)
}

/// Appends one field after another, and says whether all found room.
fn append_each(head: &mut Head, mapping: &[Named], attributes: &Attributes) -> Result<bool, Memory>
    requires names { list_all is_header_mapping mapping.now ≡ true }
    requires values { list_all is_attribute attributes.now ≡ true }
    ensures fits { IfOk result (λ fits. fits ≡ nat_le (length (written (head.old ++ fields_from mapping.now attributes.now))) LONGEST) }
    ensures appended { result ≡ Result.Ok true → head.new ≡ head.old ++ fields_from mapping.now attributes.now }
{
    for Named { name, value: field } in mapping {
        if let Some(value) = attributes.get(name.as_slice()) {
            if !append_field(head, field.as_slice(), value)? {
                return Ok(false);
            }
        }
    }
    let _short = head.written_len();
    Ok(true)
}

/// Removes all fields of these names, without regard to ASCII case, and the mail goes on. The one error is want of memory.
pub fn remove(alloc: Global, names: &[Bytes], mail: Mail) -> Result<Served, ServeError>
    ensures { Gives result (goes_of (GoOn (record mail { head = without_fields names.now mail.head }))) }
{
    let mut mail = mail;
    remove_each(&mut mail.head, names)?;
    goes(alloc, Onward::GoOn(mail))
}

fn remove_each(head: &mut Head, names: &[Bytes]) -> Result<(), Memory>
    ensures { IfOk result (λ _. head.new ≡ without_fields names.now head.old) }
{
    for name in names {
        head.remove(name.as_slice())?;
    }
    Ok(())
}

/// Puts a prefix of 1 to 512 printable ASCII characters and a space in front of what the first Subject says (RFC 5322, 3.6.5), put
/// on one line, and the mail goes on. Where it says nothing the prefix stands alone, and where there is no Subject one is appended.
/// Exactly where the written head would have more than [`MAX_HEAD`](mj_mail::MAX_HEAD) bytes it fails with `HeadTooLong`, and the
/// mail stays as it was. The other error is want of memory.
pub fn prefix_subject(alloc: Global, prefix: &[u8], mail: Mail) -> Result<Served, ServeError>
    requires { is_line prefix.now ≡ true }
    ensures { Gives result (with_head mail (with_prefix prefix.now mail.head)) }
{
    let mut mail = mail;
    if !put_prefix(alloc, prefix, &mut mail.head)? {
        return fails(alloc, HEAD_TOO_LONG, mail);
    }
    goes(alloc, Onward::GoOn(mail))
}

/// Puts a prefix in front of the Subject, and says whether it found room; else the head stays.
fn put_prefix(alloc: Global, prefix: &[u8], head: &mut Head) -> Result<bool, Memory>
    requires { is_line prefix.now ≡ true }
    ensures fits { IfOk result (λ fits. fits ≡ nat_le (length (written (with_prefix prefix.now head.old))) LONGEST) }
    ensures put { result ≡ Result.Ok true → head.new ≡ with_prefix prefix.now head.old }
    ensures refused { result ≡ Result.Ok false → head.new ≡ head.old }
{
    let subject = head.unfolded(alloc, SUBJECT)?;
    let value = prefixed(alloc, prefix, subject)?;
    Ok(head.replace_first(SUBJECT, value.as_slice())?)
}

/// A prefix and what the Subject says, if it says something.
#[tactic(auto, using(crate::proofs::Values::line_value, crate::proofs::Values::prefixed_value))]
fn prefixed(alloc: Global, prefix: &[u8], subject: Option<Vec<u8>>) -> Result<Vec<u8>, Memory>
    requires { is_line prefix.now ≡ true }
    ensures value { IfOk result (λ value. value.items ≡ prefixed_of prefix.now (option_map (λ text. text.items) subject)) }
    ensures form { IfOk result (λ value. is_field_value value.items ≡ true) }
{
    match subject {
        Some(text) if !text.is_empty() => in_front(alloc, prefix, text.as_slice()),
        _ => Ok(Vec::from_slice(alloc, prefix)?),
    }
}

/// A prefix, a space and a text, in which what no value of a field may hold is a space.
fn in_front(alloc: Global, prefix: &[u8], text: &[u8]) -> Result<Vec<u8>, Memory>
    ensures { IfOk result (λ value. value.items ≡ prefix.now ++ 32 ∷ on_one_line_of text.now) }
{
    let mut value = Vec::with_capacity(
        alloc,
        prefix.len().saturating_add(text.len()).saturating_add(1),
    )?;
    value.extend_from_slice(prefix)?;
    value.push(b' ')?;
    for b in text {
        value.push(on_one_line(*b))?;
    }
    Ok(value)
}

fn on_one_line(b: u8) -> u8
    ensures { result ≡ (if b == 13 || b == 10 then 32 else b) }
{
    if b == b'\r' || b == b'\n' { b' ' } else { b }
}
