//! Putting mails and their items at the end of an entry.
ghost use Rattle.std.specs.Prelude.{◌≡◌, ◌++◌, ◌≤◌, true, length, OnOk};
ghost use Rattle.std.specs.Int.{w32, to_le_bytes};
ghost use Rattle.std.specs.List.{AllByRecursion, flat_map, list_all};
ghost use Rattle.mj_entry_rows.specs.Forms.{AreAddressed, AreEach, AreStrings, IsBody, IsCounted, IsMail, IsName, IsSender, IsStage, IsWord};
ghost use Rattle.mj_head.specs.Head.{is_head};
ghost use Rattle.mj_mail.specs.declared.limits.TheConstants.{MAX_PAYLOAD};
ghost use Rattle.mj_mail.specs.declared.mail.Mail.{Mail};
ghost use Rattle.mj_mail.specs.declared.mail.Stage.TheVariants.{Remote};
ghost use Rattle.mj_mail.specs.Entry.{body_form, envelope_form, list_form, mail_form, message_form, name_form, stage_form, standing_form};
ghost use Rattle.mj_entry_write.specs.Whole.{is_addressed};

use crate::parts::{
    put_attributes, put_count, put_head, put_long, put_recipients, put_sender, put_word,
};
use mj_address::{Address, Domain, Recipients};
use mj_fields::{Bytes, Items, Memory, put_bytes, put_u8};
use mj_head::Head;
use mj_mail::{Attributes, Body, Mail, Name, Stage};

/// Puts a name: its number and its path.
pub(crate) fn put_name(out: &mut Bytes, name: &Name) -> Result<(), Memory>
    requires { length (name_form name.now) ≤ MAX_PAYLOAD }
    ensures written { OnOk result (out.new ≡ out.old ++ name_form name.now) }
    ensures form { OnOk result (IsName name.now) }
{
    put_long(out, name.number)?;
    put_path(out, &name.path)
}

/// Puts a path: how many members it has, and the members.
#[tactic(auto, using(mj_mail::proofs::Entries::path_len))]
fn put_path(out: &mut Bytes, path: &Items<u32>) -> Result<(), Memory>
    requires { length (list_form (to_le_bytes w32) path.now) ≤ MAX_PAYLOAD }
    ensures written { OnOk result (out.new ≡ out.old ++ list_form (to_le_bytes w32) path.now) }
    ensures form { OnOk result (AreEach IsWord path.now) }
{
    put_count(out, path.len())?;
    put_members(out, path.as_slice())
}

fn put_members(out: &mut Bytes, path: &[u32]) -> Result<(), Memory>
    ensures written { OnOk result (out.new ≡ out.old ++ flat_map (to_le_bytes w32) path.now) }
    ensures form { OnOk result (AllByRecursion IsWord path.now) }
{
    for member in path {
        put_word(out, *member)?;
    }
    Ok(())
}

/// Puts an envelope: the sender and the recipients.
pub(crate) fn put_envelope(
    out: &mut Bytes,
    sender: &Option<Address>,
    recipients: &Recipients,
) -> Result<(), Memory>
    requires whole { is_addressed recipients.now ≡ true }
    requires small { length (envelope_form sender.now recipients.now) ≤ MAX_PAYLOAD }
    ensures written { OnOk result (out.new ≡ out.old ++ envelope_form sender.now recipients.now) }
    ensures sender { OnOk result (IsSender sender.now) }
    ensures recipients { OnOk result (AreAddressed recipients.now) }
{
    put_sender(out, sender)?;
    put_recipients(out, recipients)
}

/// Puts a body: the number and the length of one that was accepted, or the bytes of one that was made.
pub(crate) fn put_body(out: &mut Bytes, body: &Body) -> Result<(), Memory>
    requires { length (body_form body.now) ≤ MAX_PAYLOAD }
    ensures written { OnOk result (out.new ≡ out.old ++ body_form body.now) }
    ensures form { OnOk result (IsBody body.now) }
{
    match body {
        Body::Original { number, length } => {
            put_u8(out, 0)?;
            put_long(out, *number)?;
            put_word(out, *length)
        }
        Body::Made(bytes) => {
            put_u8(out, 1)?;
            put_bytes(out, bytes.as_slice())
        }
    }
}

/// Puts a message: the head and the body.
pub(crate) fn put_message(out: &mut Bytes, head: &Head, body: &Body) -> Result<(), Memory>
    requires { length (message_form head.now body.now) ≤ MAX_PAYLOAD }
    ensures written { OnOk result (out.new ≡ out.old ++ message_form head.now body.now) }
    ensures head { OnOk result (is_head head.now ≡ true) }
    ensures body { OnOk result (IsBody body.now) }
{
    put_head(out, head)?;
    put_body(out, body)
}

/// Puts where a mail stands: 0 and the processor's name, or 1 and what `put_remote` puts.
fn put_stage(out: &mut Bytes, stage: &Stage) -> Result<(), Memory>
    requires { length (stage_form stage.now) ≤ MAX_PAYLOAD }
    ensures written { OnOk result (out.new ≡ out.old ++ stage_form stage.now) }
    ensures form { OnOk result (IsStage stage.now) }
{
    match stage {
        Stage::Process(state) => {
            put_u8(out, 0)?;
            put_bytes(out, state.as_slice())
        }
        Stage::Remote {
            delivery,
            host,
            attempt,
        } => put_remote(out, delivery.as_slice(), host, *attempt),
    }
}

/// Puts where a mail stands that is sent to a host: 1, the name of the remote delivery, the host and the attempt.
fn put_remote(out: &mut Bytes, delivery: &[u8], host: &Domain, attempt: u32) -> Result<(), Memory>
    requires { length (stage_form (Remote delivery.now host.now attempt)) ≤ MAX_PAYLOAD }
    ensures written { OnOk result (out.new ≡ out.old ++ stage_form (Remote delivery.now host.now attempt)) }
    ensures form { OnOk result (IsStage (Remote delivery.now host.now attempt)) }
{
    put_u8(out, 1)?;
    put_bytes(out, delivery)?;
    put_bytes(out, host.as_slice())?;
    put_word(out, attempt)
}

/// Puts what a mail has gathered on its way, and where it stands.
fn put_standing(
    out: &mut Bytes,
    attributes: &Attributes,
    stage: &Stage,
    error: &Bytes,
) -> Result<(), Memory>
    requires { length (standing_form attributes.now stage.now error.now) ≤ MAX_PAYLOAD }
    ensures written { OnOk result (out.new ≡ out.old ++ standing_form attributes.now stage.now error.now) }
    ensures attributes { OnOk result (AreStrings attributes.now) }
    ensures stage { OnOk result (IsStage stage.now) }
    ensures error { OnOk result (IsCounted error.now) }
{
    put_attributes(out, attributes)?;
    put_stage(out, stage)?;
    put_bytes(out, error.as_slice())
}

/// Puts a mail: its name, its envelope, its standing, its message, its hops, and when it is due.
pub(crate) fn put_mail(out: &mut Bytes, mail: &Mail) -> Result<(), Memory>
    requires whole { is_addressed mail.now.recipients ≡ true }
    requires small { length (mail_form mail.now) ≤ MAX_PAYLOAD }
    ensures written { OnOk result (out.new ≡ out.old ++ mail_form mail.now) }
    ensures form { OnOk result (IsMail mail.now) }
{
    put_name(out, &mail.name)?;
    put_envelope(out, &mail.sender, &mail.recipients)?;
    put_standing(out, &mail.attributes, &mail.stage, &mail.error)?;
    put_message(out, &mail.head, &mail.body)?;
    put_word(out, mail.hops)?;
    put_long(out, mail.due)
}

/// Puts a list of mails: how many there are, and the mails.
#[tactic(auto, using(crate::proofs::Written::mails_few))]
pub(crate) fn put_mails(out: &mut Bytes, mails: &Items<Mail>) -> Result<(), Memory>
    requires whole { list_all (λ (mail : Mail). is_addressed mail.recipients) mails.now ≡ true }
    requires small { length (list_form mail_form mails.now) ≤ MAX_PAYLOAD }
    ensures written { OnOk result (out.new ≡ out.old ++ list_form mail_form mails.now) }
    ensures form { OnOk result (AreEach IsMail mails.now) }
{
    put_count(out, mails.len())?;
    put_each_mail(out, mails.as_slice())
}

fn put_each_mail(out: &mut Bytes, mails: &[Mail]) -> Result<(), Memory>
    requires whole { list_all (λ (mail : Mail). is_addressed mail.recipients) mails.now ≡ true }
    requires small { length (flat_map mail_form mails.now) ≤ MAX_PAYLOAD }
    ensures written { OnOk result (out.new ≡ out.old ++ flat_map mail_form mails.now) }
    ensures form { OnOk result (AllByRecursion IsMail mails.now) }
{
    for mail in mails {
        put_mail(out, mail)?;
    }
    Ok(())
}
