ghost use Rattle.std.specs.Prelude.{◌≡◌, ◌≤◌, ◌∷◌, ◌++◌, [], List, ℕ, true, Ok, length, IfOk, IfSome, OnOk};
ghost use Rattle.mj_address.specs.Grammar.{IsAddress};
ghost use Rattle.mj_address.specs.Reading.{spelled};
ghost use Rattle.mj_address.specs.Same.{AreRecipients};
ghost use Rattle.mj_head.specs.Head.{is_head, written};
ghost use Rattle.mj_mailfile.specs.MailFile.{mail_file};
ghost use Rattle.mj_mailfile.specs.Written.{ended, recipients_before, sender_text, written_file};

use mj_address::{Address, Recipients};
use mj_fields::{Bytes, Memory};
use mj_head::Head;
use mj_mail::{MAX_BODY, MAX_RECIPIENTS, NewMail};
use std::alloc::Global;

/// The mail as a mail file in its written form: CRLF at the end of each line, no blank before `<`, and behind the head
/// CRLF and the body. Where it has at most 16,777,216 bytes it is read as the same mail again.
pub fn write_mail_file(alloc: Global, mail: &NewMail) -> Result<Bytes, Memory>
    requires some { 1 ≤ length mail.now.recipients }
    requires few { length mail.now.recipients ≤ MAX_RECIPIENTS }
    ensures written { IfOk result (λ text. text ≡ written_file mail.now) }
    ensures read_again { IfOk result (λ text. length text ≤ MAX_BODY → mail_file text ≡ Ok mail.now) }
{
    put_mail(alloc, mail)
}

/// The written form, and what types hold of the mail's parts.
fn put_mail(alloc: Global, mail: &NewMail) -> Result<Bytes, Memory>
    ensures written { IfOk result (λ text. text ≡ written_file mail.now) }
    ensures sender { IfOk result (λ _. IfSome mail.now.sender IsAddress) }
    ensures recipients { IfOk result (λ _. AreRecipients mail.now.recipients) }
    ensures head { IfOk result (λ _. is_head mail.now.head ≡ true) }
{
    let mut out = Vec::new(alloc);
    put_sender(&mut out, &mail.sender)?;
    put_recipients(&mut out, &mail.recipients)?;
    out.extend_from_slice(b"DATA\r\n")?;
    put_head(&mut out, &mail.head)?;
    out.extend_from_slice(mail.body.as_slice())?;
    Ok(Bytes::from_vec(out))
}

/// Puts the sender's line at the end.
fn put_sender(out: &mut Vec<u8>, sender: &Option<Address>) -> Result<(), Memory>
    ensures line { OnOk result ((rest : List ℕ) → out.new.items ++ rest ≡ out.old.items ++ ended (sender_text sender.now) rest) }
    ensures form { OnOk result (IfSome sender.now IsAddress) }
{
    match sender {
        None => put_path_line(out, b"MAIL FROM:<>"),
        Some(address) => put_address_line(out, b"MAIL FROM:<", address),
    }
}

/// Puts the line of each recipient at the end.
fn put_recipients(out: &mut Vec<u8>, recipients: &Recipients) -> Result<(), Memory>
    ensures lines { OnOk result ((rest : List ℕ) → out.new.items ++ rest ≡ out.old.items ++ recipients_before recipients.now rest) }
    ensures form { AreRecipients recipients.now }
{
    for address in recipients.as_slice() {
        put_address_line(out, b"RCPT TO:<", address)?;
    }
    Ok(())
}

/// Puts a line of the envelope at the end: these words, an address and the closing bracket.
fn put_address_line(out: &mut Vec<u8>, words: &[u8], address: &Address) -> Result<(), Memory>
    ensures line { OnOk result (out.new.items ≡ out.old.items ++ (words.now ++ (spelled address.now ++ 62 ∷ 13 ∷ 10 ∷ []))) }
    ensures form { OnOk result (IsAddress address.now) }
{
    out.extend_from_slice(words)?;
    address.write_to(out)?;
    out.extend_from_slice(b">\r\n")?;
    Ok(())
}

fn put_path_line(out: &mut Vec<u8>, line: &[u8]) -> Result<(), Memory>
    ensures { OnOk result (out.new.items ≡ out.old.items ++ (line.now ++ 13 ∷ 10 ∷ [])) }
{
    out.extend_from_slice(line)?;
    out.extend_from_slice(b"\r\n")?;
    Ok(())
}

/// Puts the written head and the empty line at the end.
fn put_head(out: &mut Vec<u8>, head: &Head) -> Result<(), Memory>
    ensures head { OnOk result (out.new.items ≡ out.old.items ++ (written head.now ++ 13 ∷ 10 ∷ [])) }
    ensures form { is_head head.now ≡ true }
{
    head.write_to(out)?;
    out.extend_from_slice(b"\r\n")?;
    Ok(())
}
