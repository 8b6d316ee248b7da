//! The head of a notice.
ghost use Rattle.std.specs.Prelude.{◌≡◌, ◌+◌, ◌<◌, ◌≤◌, [], ◌∷◌, ◌++◌, length, true, IfOk, OnOk};
ghost use Rattle.mj_address.specs.Reading.{spelled};
ghost use Rattle.mj_container.specs.Changes.{field_of};
ghost use Rattle.mj_container.specs.Notices.{notice_head as notice_head_of};
ghost use Rattle.mj_head.specs.Fields.{is_field_value};
ghost use Rattle.mj_head.specs.Head.{is_field_name, written};
ghost use Rattle.mj_time.specs.DateText.{date_text_of};

use mj_address::Address;
use mj_fields::Memory;
use mj_head::Head;
use mj_plan::Plan;
use mj_time::date_text;
use std::alloc::Global;

/// The head of a notice to this address about a mail that is due at this moment (RFC 5322, 3.6): from the
/// postmaster, and marked as an automatic answer (RFC 3834, 5).
pub fn notice_head(
    alloc: Global,
    plan: &Plan,
    to: &Address,
    subject: &[u8],
    moment: u64,
) -> Result<Head, Memory>
    requires line { is_field_value subject.now ≡ true }
    requires short { length subject.now ≤ 100 }
    requires due { moment < 253_402_300_800_000 }
    ensures { IfOk result (λ head. head ≡ notice_head_of plan.now to.now subject.now moment) }
{
    let mut head = Head::new(alloc);
    add_address(alloc, &mut head, b"From", &plan.postmaster)?;
    add_address(alloc, &mut head, b"To", to)?;
    add_field(&mut head, b"Subject", subject)?;
    add_date(alloc, &mut head, b"Date", moment)?;
    add_field(&mut head, b"Auto-Submitted", b"auto-replied")?;
    Ok(head)
}

/// Adds a field of this name at the end, whose value is an address.
#[tactic(auto, using(crate::proofs::Values::address_value))]
fn add_address(alloc: Global, head: &mut Head, name: &[u8], address: &Address) -> Result<(), Memory>
    requires name { is_field_name name.now ≡ true }
    requires room { length (written head.old) + length name.now + 324 ≤ 65536 }
    ensures field { OnOk result (head.new ≡ head.old ++ field_of name.now (spelled address.now) ∷ []) }
    ensures len { OnOk result (length (written head.new) ≤ length (written head.old) + length name.now + 324) }
{
    let mut value = Vec::with_capacity(alloc, address.written_len())?;
    address.write_to(&mut value)?;
    add_field(head, name, &value)
}

/// Adds a field of this name at the end, whose value is the date text of this moment.
#[tactic(auto, using(crate::proofs::Values::date_value, mj_container::proofs::DateTexts::date_short))]
fn add_date(alloc: Global, head: &mut Head, name: &[u8], moment: u64) -> Result<(), Memory>
    requires name { is_field_name name.now ≡ true }
    requires due { moment < 253_402_300_800_000 }
    requires room { length (written head.old) + length name.now + 35 ≤ 65536 }
    ensures field { OnOk result (head.new ≡ head.old ++ field_of name.now (date_text_of moment) ∷ []) }
    ensures len { OnOk result (length (written head.new) ≤ length (written head.old) + length name.now + 35) }
{
    let value = date_text(alloc, moment)?;
    add_field(head, name, &value)
}

/// Adds a field of this name and value at the end. The written form has room for it.
#[tactic(auto, using(crate::proofs::Values::written_push))]
fn add_field(head: &mut Head, name: &[u8], value: &[u8]) -> Result<(), Memory>
    requires name { is_field_name name.now ≡ true }
    requires value { is_field_value value.now ≡ true }
    requires room { length (written head.old) + length name.now + length value.now + 4 ≤ 65536 }
    ensures field { OnOk result (head.new ≡ head.old ++ field_of name.now value.now ∷ []) }
    ensures len { OnOk result (length (written head.new) ≡ length (written head.old) + length name.now + length value.now + 4) }
{
    head.append(name, value)?;
    Ok(())
}
