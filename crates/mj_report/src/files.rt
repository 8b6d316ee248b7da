//! Lines of refused files.
ghost use Rattle.std.specs.Prelude.{◌≡◌, ◌++◌, ◌<◌, IfOk, OnOk};
ghost use Rattle.std.specs.Fmt.{decimal};
ghost use Rattle.mj_report.specs.declared.files.Refusal.TheVariants.{Fault as FaultOf, LongName as LongNameOf};
ghost use Rattle.mj_report.specs.Files.{fault_text, file_text, hex_digit as hex_digit_of, is_plain_byte, name_byte, refusal_text, refused_line as line_of_refused};

use mj_fields::{Bytes, Memory};
use mj_mail::put_number;
use mj_mailfile::MailFault;
use std::alloc::Global;

/// Why a file of the folder is no mail.
#[derive(Clone, Copy, Debug, PartialEq, Eq)]
pub enum Refusal {
    /// Its name has more than 4,096 bytes, so that it isn't read.
    LongName,
    /// Its bytes are no mail file.
    Fault(MailFault),
}

/// The line of a file that is refused for this fault: `refused`, the file's name, in which each byte outside 33 to 126 and
/// each `%` stands as `%` and two hexadecimal digits, the name of the fault with the number of its line, and LF.
pub fn refused_line(alloc: Global, file: &[u8], fault: &MailFault) -> Result<Bytes, Memory>
    ensures { IfOk result (λ line. line ≡ line_of_refused (file.now, FaultOf fault.now)) }
{
    let mut line = Bytes::new(alloc);
    put_refused_line(alloc, &mut line, file, &Refusal::Fault(*fault))?;
    Ok(line)
}

/// The line of a file that is refused for its long name.
pub fn long_name_line(alloc: Global, file: &[u8]) -> Result<Bytes, Memory>
    ensures { IfOk result (λ line. line ≡ line_of_refused (file.now, LongNameOf)) }
{
    let mut line = Bytes::new(alloc);
    put_refused_line(alloc, &mut line, file, &Refusal::LongName)?;
    Ok(line)
}

/// Puts the line of a refused file at the end of the text.
pub fn put_refused_line(
    alloc: Global,
    out: &mut Bytes,
    file: &[u8],
    refusal: &Refusal,
) -> Result<(), Memory>
    ensures { OnOk result (out.new ≡ out.old ++ line_of_refused (file.now, refusal.now)) }
{
    out.extend(b"refused ")?;
    put_file(out, file)?;
    out.push(b' ')?;
    put_refusal(alloc, out, refusal)?;
    out.push(b'\n')
}

fn put_file(out: &mut Bytes, file: &[u8]) -> Result<(), Memory>
    ensures { OnOk result (out.new ≡ out.old ++ file_text file.now) }
{
    for byte in file {
        put_name_byte(out, *byte)?;
    }
    Ok(())
}

fn put_name_byte(out: &mut Bytes, byte: u8) -> Result<(), Memory>
    ensures { OnOk result (out.new ≡ out.old ++ name_byte byte) }
{
    if is_plain(byte) {
        out.push(byte)
    } else {
        out.extend(&[b'%', hex_digit(byte / 16), hex_digit(byte % 16)])
    }
}

fn is_plain(byte: u8) -> bool
    ensures { result ≡ is_plain_byte byte }
{
    33 <= byte && byte <= 126 && byte != b'%'
}

fn hex_digit(n: u8) -> u8
    requires { n < 16 }
    ensures { result ≡ hex_digit_of n }
{
    if n < 10 { n + b'0' } else { n - 10 + b'A' }
}

fn put_refusal(alloc: Global, out: &mut Bytes, refusal: &Refusal) -> Result<(), Memory>
    ensures { OnOk result (out.new ≡ out.old ++ refusal_text refusal.now) }
{
    match refusal {
        Refusal::LongName => out.extend(b"LongName"),
        Refusal::Fault(fault) => put_fault(alloc, out, fault),
    }
}

fn put_fault(alloc: Global, out: &mut Bytes, fault: &MailFault) -> Result<(), Memory>
    ensures { OnOk result (out.new ≡ out.old ++ fault_text fault.now) }
{
    match fault {
        MailFault::TooLarge => out.extend(b"TooLarge"),
        MailFault::NoMailFrom => out.extend(b"NoMailFrom"),
        MailFault::BadSender => out.extend(b"BadSender"),
        MailFault::BadRecipient { line } => put_line(alloc, out, b"BadRecipient ", *line),
        MailFault::TooManyRecipients => out.extend(b"TooManyRecipients"),
        MailFault::NoRecipient => out.extend(b"NoRecipient"),
        MailFault::NoData => out.extend(b"NoData"),
        MailFault::BadHead { line } => put_line(alloc, out, b"BadHead ", *line),
        MailFault::HeadTooLong => out.extend(b"HeadTooLong"),
        MailFault::Memory => out.extend(b"Memory"),
    }
}

fn put_line(alloc: Global, out: &mut Bytes, kind: &[u8], line: u32) -> Result<(), Memory>
    ensures { OnOk result (out.new ≡ out.old ++ (kind.now ++ decimal line)) }
{
    out.extend(kind)?;
    put_number(alloc, out, u64::from(line))
}
