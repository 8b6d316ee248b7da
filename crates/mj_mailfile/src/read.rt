ghost use Rattle.std.specs.Prelude.{◌≡◌, ◌≤◌, ◌<◌, ◌+◌, ◌^◌, [], length, codes, true, ok_or, Ok, Err, IfOk, IfErr, IfSome, MatchOption, OnOk};
ghost use Rattle.std.specs.Option.{option_copied};
ghost use Rattle.mj_terms.specs.Text.{same_text, trim_back};
ghost use Rattle.mj_head.specs.Head.{lines, head_of, written};
ghost use Rattle.mj_mail.specs.Rules.{is_acceptable, is_short_sender};
ghost use Rattle.mj_address.specs.Short.{is_short};
ghost use Rattle.std.specs.List.{list_all};
ghost use Rattle.mj_mailfile.specs.MailFile.{Gives, GivesBytes, GivesFound, IsEnd, IsRecipientLine, head_fault, behind_word as behind_word_of, before_bracket as before_bracket_of, bracketed as bracketed_of, mailbox, mail_file, mail_of, mail_with, message_behind, path_of, recipients_of, sender_of, with_recipient};

use crate::MailFault;
use mj_address::{Address, AddressFault, Recipients};
use mj_fields::Bytes;
use mj_head::{HeadFault, first_line, read_head, trim_blanks, trim_end_blanks};
use mj_mail::{MAX_BODY, MAX_HEAD, MAX_RECIPIENTS, NewMail};
use std::alloc::Global;

/// The most bytes that a mail file may have: those of the largest body.
pub const MAX_FILE: usize = MAX_BODY;

/// The mail of a file: its envelope in the words of SMTP (RFC 5321, 4.1.1), and its message.
///
/// Lines end as in heads. The first is `MAIL FROM:<address>`, or `MAIL FROM:<>` for the null sender. One or more lines
/// `RCPT TO:<address>` follow, and then the line `DATA`, behind which every byte is the message. These words are read
/// without regard to case, and blanks may stand before `<` and at the end of a line. The fault is the first of these:
/// `TooLarge` for more than 16,777,216 bytes; `NoMailFrom` and `BadSender` at the first line; at each recipient's line
/// `BadRecipient` with its number in the file, and `TooManyRecipients` at the 501st different recipient; `NoRecipient`
/// and `NoData` at the line behind; and the fault of the message's head, with its number in the message.
#[tactic(auto, unfolding(crate::specs::MailFile::mail_file), using(crate::proofs::Acceptable::acceptable))]
pub fn read_mail_file(alloc: Global, bytes: &[u8]) -> Result<NewMail, MailFault>
    ensures exact { Gives result (mail_file bytes.now) }
    ensures some { IfOk result (λ mail. 1 ≤ length mail.recipients) }
    ensures few { IfOk result (λ mail. length mail.recipients ≤ MAX_RECIPIENTS) }
    ensures body { IfOk result (λ mail. length mail.body ≤ MAX_FILE) }
    ensures acceptable { IfOk result (λ mail. is_acceptable mail ≡ true) }
{
    if bytes.len() > MAX_FILE {
        return Err(MailFault::TooLarge);
    }
    read_mail(alloc, bytes)
}

#[tactic(auto, unfolding(crate::specs::MailFile::mail_of))]
fn read_mail(alloc: Global, bytes: &[u8]) -> Result<NewMail, MailFault>
    requires { length bytes.now ≤ MAX_FILE }
    ensures exact { Gives result (mail_of bytes.now) }
    ensures some { IfOk result (λ mail. 1 ≤ length mail.recipients) }
    ensures few { IfOk result (λ mail. length mail.recipients ≤ MAX_RECIPIENTS) }
    ensures short { IfOk result (λ mail. list_all is_short mail.recipients ≡ true) }
    ensures short_sender { IfOk result (λ mail. is_short_sender mail.sender ≡ true) }
    ensures body { IfOk result (λ mail. length mail.body ≤ length bytes.now) }
    ensures head { IfOk result (λ mail. length (written mail.head) ≤ MAX_HEAD) }
{
    if bytes.is_empty() {
        return Err(MailFault::NoMailFrom);
    }
    let (line, rest) = first_line(bytes);
    let sender = read_sender(alloc, line)?;
    let (recipients, rest) = read_recipients(alloc, rest)?;
    let message = read_data(&recipients, rest)?;
    read_message(alloc, sender, recipients, message)
}

/// The sender of the first line, which is without its end.
fn read_sender(alloc: Global, line: &[u8]) -> Result<Option<Address>, MailFault>
    ensures exact { Gives result (sender_of line.now) }
    ensures short { IfOk result (λ sender. is_short_sender sender ≡ true) }
{
    match behind_word(line, b"MAIL FROM:") {
        None => Err(MailFault::NoMailFrom),
        Some(text) => match bracketed(text) {
            None => Err(MailFault::BadSender),
            Some(path) => read_path(alloc, path),
        },
    }
}

#[tactic(auto, using(mj_address::proofs::Short::short_address))]
fn read_path(alloc: Global, path: &[u8]) -> Result<Option<Address>, MailFault>
    ensures exact { Gives result (ok_or (path_of path.now) MailFault.BadSender) }
    ensures short { IfOk result (λ sender. is_short_sender sender ≡ true) }
{
    if path.is_empty() {
        return Ok(None);
    }
    match Address::read(alloc, path) {
        Ok(address) => {
            let _form = address.local();
            Ok(Some(address))
        }
        Err(AddressFault::Memory) => Err(MailFault::Memory),
        Err(_) => Err(MailFault::BadSender),
    }
}

/// The recipients of the lines at the front of the bytes, the first of which is the second of the file, and the bytes
/// behind them.
#[tactic(auto, using(mj_address::proofs::Short::short_addresses))]
fn read_recipients(alloc: Global, bytes: &[u8]) -> Result<(Recipients, &[u8]), MailFault>
    requires { length bytes.now ≤ MAX_FILE }
    ensures exact { GivesFound result (recipients_of 2 [] (lines bytes.now)) }
    ensures few { IfOk result (λ found. length found.0 ≤ MAX_RECIPIENTS) }
    ensures short { IfOk result (λ found. list_all is_short found.0 ≡ true) }
    ensures rest { IfOk result (λ found. length found.1.now ≤ length bytes.now) }
{
    let mut found = Recipients::new(alloc);
    let mut rest = bytes;
    let mut number = 2;
    while let Some((text, after)) = recipient_line(rest) {
        add_recipient(alloc, &mut found, text, number)?;
        rest = after;
        number += 1;
    }
    let _form = found.len();
    Ok((found, rest))
}

/// What stands behind `RCPT TO:` in the line at the front of the bytes, and the bytes behind it; `None` where no such
/// line stands there.
fn recipient_line(bytes: &[u8]) -> Option<(&[u8], &[u8])>
    ensures line { MatchOption result (IsEnd bytes.now) (λ parts. IsRecipientLine bytes.now parts.0.now parts.1.now) }
    ensures shorter { IfSome result (λ parts. length parts.1.now < length bytes.now) }
{
    if bytes.is_empty() {
        return None;
    }
    let (line, rest) = first_line(bytes);
    match behind_word(line, b"RCPT TO:") {
        Some(text) => Some((text, rest)),
        None => None,
    }
}

fn add_recipient(
    alloc: Global,
    found: &mut Recipients,
    text: &[u8],
    number: u32,
) -> Result<(), MailFault>
    requires few { length found.old ≤ MAX_RECIPIENTS }
    ensures few { OnOk result (length found.new ≤ MAX_RECIPIENTS) }
    ensures ok { OnOk result (with_recipient number found.old (mailbox text.now) ≡ Ok found.new) }
    ensures err { IfErr result (λ fault. Gives (Err fault) (with_recipient number found.old (mailbox text.now))) }
{
    let address = read_mailbox(alloc, text, number)?;
    match found.add(address) {
        Ok(_) => {}
        Err(_) => return Err(MailFault::Memory),
    }
    if found.len() > MAX_RECIPIENTS {
        return Err(MailFault::TooManyRecipients);
    }
    Ok(())
}

fn read_mailbox(alloc: Global, text: &[u8], number: u32) -> Result<Address, MailFault>
    ensures { Gives result (ok_or (mailbox text.now) (MailFault.BadRecipient number)) }
{
    let Some(spelling) = bracketed(text) else {
        return Err(MailFault::BadRecipient { line: number });
    };
    match Address::read(alloc, spelling) {
        Ok(address) => Ok(address),
        Err(AddressFault::Memory) => Err(MailFault::Memory),
        Err(_) => Err(MailFault::BadRecipient { line: number }),
    }
}

/// The message behind the `DATA` line at the front of the bytes.
fn read_data<'a>(found: &Recipients, bytes: &'a [u8]) -> Result<&'a [u8], MailFault>
    ensures exact { GivesBytes result (message_behind found.now (lines bytes.now)) }
    ensures some { IfOk result (λ _. 1 ≤ length found.now) }
    ensures rest { IfOk result (λ message. length message.now ≤ length bytes.now) }
{
    if found.is_empty() {
        return Err(MailFault::NoRecipient);
    }
    if bytes.is_empty() {
        return Err(MailFault::NoData);
    }
    let (line, message) = first_line(bytes);
    if is_data(line) {
        Ok(message)
    } else {
        Err(MailFault::NoData)
    }
}

/// The mail of an envelope and a message.
fn read_message(
    alloc: Global,
    sender: Option<Address>,
    recipients: Recipients,
    message: &[u8],
) -> Result<NewMail, MailFault>
    ensures exact { Gives result (mail_with sender recipients message.now (head_of message.now)) }
    ensures sender { IfOk result (λ mail. mail.sender ≡ sender) }
    ensures recipients { IfOk result (λ mail. mail.recipients ≡ recipients) }
    ensures body { IfOk result (λ mail. length mail.body ≤ length message.now) }
    ensures head { IfOk result (λ mail. length (written mail.head) ≤ MAX_HEAD) }
{
    let (head, place) = match read_head(alloc, message) {
        Ok(read) => read,
        Err(fault) => return Err(fault_of_head(fault)),
    };
    let fits = head.written_len() <= MAX_HEAD;
    prove!(fits);
    match Bytes::from_slice(alloc, &message[place..]) {
        Ok(body) => Ok(NewMail {
            sender,
            recipients,
            head,
            body,
        }),
        Err(_) => Err(MailFault::Memory),
    }
}

fn fault_of_head(fault: HeadFault) -> MailFault
    ensures { result ≡ head_fault fault }
{
    match fault {
        HeadFault::ContinuationFirst { line }
        | HeadFault::NoColon { line }
        | HeadFault::BadName { line } => MailFault::BadHead { line },
        HeadFault::TooLong { .. } => MailFault::HeadTooLong,
        HeadFault::Memory => MailFault::Memory,
    }
}

/// What stands behind a word at the front of a line, without regard to case.
fn behind_word<'a>(line: &'a [u8], word: &[u8]) -> Option<&'a [u8]>
    ensures { option_copied result ≡ behind_word_of word.now line.now }
{
    let end = word.len().min(line.len());
    if is_same(&line[..end], word) {
        Some(&line[end..])
    } else {
        None
    }
}

fn is_same(a: &[u8], b: &[u8]) -> bool
    ensures { result ≡ same_text a.now b.now }
{
    a.eq_ignore_ascii_case(b)
}

fn is_data(line: &[u8]) -> bool
    ensures { result ≡ same_text (trim_back line.now) (codes "DATA") }
{
    is_same(trim_end_blanks(line), b"DATA")
}

/// What stands in angle brackets, with nothing but blanks round them.
fn bracketed(text: &[u8]) -> Option<&[u8]>
    ensures { option_copied result ≡ bracketed_of text.now }
{
    before_bracket(trim_blanks(text).strip_prefix(b"<")?)
}

fn before_bracket(text: &[u8]) -> Option<&[u8]>
    ensures { option_copied result ≡ before_bracket_of text.now }
{
    if text.ends_with(b">") {
        Some(&text[..text.len() - 1])
    } else {
        None
    }
}
