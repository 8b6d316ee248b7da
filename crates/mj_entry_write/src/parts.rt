//! Putting numbers, addresses, attributes and heads at the end of an entry.
ghost use Rattle.std.specs.Prelude.{◌≡◌, ◌++◌, ◌≤◌, true, length, OnOk};
ghost use Rattle.std.specs.Int.{w32, w64, to_le_bytes};
ghost use Rattle.std.specs.List.{flat_map};
ghost use Rattle.mj_fields.specs.Fields.{with_length};
ghost use Rattle.mj_entry_rows.specs.Forms.{AreAddressed, AreStrings, IsLong, IsSender, IsWord};
ghost use Rattle.mj_head.specs.Head.{is_head};
ghost use Rattle.mj_mail.specs.declared.limits.TheConstants.{MAX_PAYLOAD};
ghost use Rattle.mj_mail.specs.Entry.{address_form, attributes_form, head_form, pair_form, recipients_form, sender_form};
ghost use Rattle.mj_entry_write.specs.Whole.{is_addressed};

use mj_address::{Address, Recipients};
use mj_fields::{Bytes, Memory, put_bytes, put_u8, put_u32, put_u64};
use mj_head::{Fields, Head};
use mj_mail::Attributes;

/// Puts a number of four bytes.
pub(crate) fn put_word(out: &mut Bytes, number: u32) -> Result<(), Memory>
    ensures written { OnOk result (out.new ≡ out.old ++ to_le_bytes w32 number) }
    ensures form { IsWord number }
{
    put_u32(out, number)
}

/// Puts a number of eight bytes.
pub(crate) fn put_long(out: &mut Bytes, number: u64) -> Result<(), Memory>
    ensures written { OnOk result (out.new ≡ out.old ++ to_le_bytes w64 number) }
    ensures form { IsLong number }
{
    put_u64(out, number)
}

/// Puts how many items a list has.
pub(crate) fn put_count(out: &mut Bytes, count: usize) -> Result<(), Memory>
    requires { IsWord count }
    ensures { OnOk result (out.new ≡ out.old ++ to_le_bytes w32 count) }
{
    put_u32(out, count as u32)
}

/// Puts two strings, each behind its length.
fn put_pair(out: &mut Bytes, first: &[u8], second: &[u8]) -> Result<(), Memory>
    requires { length (pair_form (first.now, second.now)) ≤ MAX_PAYLOAD }
    ensures { OnOk result (out.new ≡ out.old ++ pair_form (first.now, second.now)) }
{
    put_bytes(out, first)?;
    put_bytes(out, second)
}

/// Puts an address: its local part and its domain.
pub(crate) fn put_address(out: &mut Bytes, address: &Address) -> Result<(), Memory>
    ensures { OnOk result (out.new ≡ out.old ++ address_form address.now) }
{
    put_pair(out, address.local(), address.domain().as_slice())
}

/// Puts a sender: 0 for the null reverse-path, else 1 and the address.
pub(crate) fn put_sender(out: &mut Bytes, sender: &Option<Address>) -> Result<(), Memory>
    ensures written { OnOk result (out.new ≡ out.old ++ sender_form sender.now) }
    ensures form { OnOk result (IsSender sender.now) }
{
    match sender {
        None => put_u8(out, 0),
        Some(address) => {
            let _form = address.local();
            put_u8(out, 1)?;
            put_address(out, address)
        }
    }
}

/// Puts a list of recipients, of which there is one at least: how many there are, and their addresses.
#[tactic(auto, using(crate::proofs::Written::addresses_few))]
pub(crate) fn put_recipients(out: &mut Bytes, recipients: &Recipients) -> Result<(), Memory>
    requires whole { is_addressed recipients.now ≡ true }
    requires small { length (recipients_form recipients.now) ≤ MAX_PAYLOAD }
    ensures written { OnOk result (out.new ≡ out.old ++ recipients_form recipients.now) }
    ensures form { OnOk result (AreAddressed recipients.now) }
{
    put_count(out, recipients.len())?;
    put_addresses(out, recipients.as_slice())
}

fn put_addresses(out: &mut Bytes, addresses: &[Address]) -> Result<(), Memory>
    ensures { OnOk result (out.new ≡ out.old ++ flat_map address_form addresses.now) }
{
    for address in addresses {
        put_address(out, address)?;
    }
    Ok(())
}

/// Puts attributes: how many there are, and of each its name and its value.
#[tactic(auto, using(crate::proofs::Written::strings_counted))]
pub(crate) fn put_attributes(out: &mut Bytes, attributes: &Attributes) -> Result<(), Memory>
    requires { length (attributes_form attributes.now) ≤ MAX_PAYLOAD }
    ensures written { OnOk result (out.new ≡ out.old ++ attributes_form attributes.now) }
    ensures form { OnOk result (AreStrings attributes.now) }
{
    put_count(out, attributes.len())?;
    put_pairs(out, attributes.as_slice())
}

fn put_pairs(out: &mut Bytes, pairs: &[(Bytes, Bytes)]) -> Result<(), Memory>
    requires { length (flat_map pair_form pairs.now) ≤ MAX_PAYLOAD }
    ensures { OnOk result (out.new ≡ out.old ++ flat_map pair_form pairs.now) }
{
    for (name, value) in pairs {
        put_pair(out, name.as_slice(), value.as_slice())?;
    }
    Ok(())
}

/// Puts a head: how many fields it has, and of each its name and its raw body. It counts their ends, and then goes over them once.
pub(crate) fn put_head(out: &mut Bytes, head: &Head) -> Result<(), Memory>
    requires { length (head_form head.now) ≤ MAX_PAYLOAD }
    ensures written { OnOk result (out.new ≡ out.old ++ head_form head.now) }
    ensures form { OnOk result (is_head head.now ≡ true) }
{
    let _form = head.written_len();
    let fields = head.fields();
    put_count(out, head.len())?;
    put_fields(out, fields)
}

fn put_fields(out: &mut Bytes, fields: Fields<'_>) -> Result<(), Memory>
    requires { length (flat_map pair_form fields) ≤ MAX_PAYLOAD }
    ensures { OnOk result (out.new ≡ out.old ++ flat_map pair_form fields.entry) }
{
    for field in fields {
        put_string(out, field.name())?;
        put_string(out, field.body())?;
    }
    Ok(())
}

/// Puts a string behind its length, as [`put_bytes`] does, but without a call, and a short one at once with its length: most
/// names and bodies of fields are so short that it would cost more than they do.
#[inline(always)]
fn put_string(out: &mut Bytes, text: &[u8]) -> Result<(), Memory>
    requires { length text.now ≤ MAX_PAYLOAD }
    ensures { OnOk result (out.new ≡ out.old ++ with_length text.now) }
{
    match text {
        [a] => out.extend(&[1, 0, 0, 0, *a]),
        [a, b] => out.extend(&[2, 0, 0, 0, *a, *b]),
        [a, b, c] => out.extend(&[3, 0, 0, 0, *a, *b, *c]),
        [a, b, c, d] => out.extend(&[4, 0, 0, 0, *a, *b, *c, *d]),
        _ => {
            out.extend(&(text.len() as u32).to_le_bytes())?;
            out.extend(text)
        }
    }
}
