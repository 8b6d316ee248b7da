//! Mail files in many spellings, and their written form.
use crate::texts::assert_so;
use mj_mailfile::{read_mail_file, write_mail_file};
use std::alloc::Global;
use std::test::Fail;

/// Whether the mail of this file is written so.
fn is_written_as(alloc: Global, text: &[u8], want: &[u8]) -> Result<bool, Fail> {
    match read_mail_file(alloc, text) {
        Ok(mail) => Ok(write_mail_file(alloc, &mail)?.as_slice() == want),
        Err(_) => Ok(false),
    }
}

/// A mail file, and how its mail is written.
const WRITTEN: [(&str, &str); 3] = [
    (
        "MAIL FROM:<>\nRCPT TO:<ann@example.org>\nDATA",
        "MAIL FROM:<>\r\nRCPT TO:<ann@example.org>\r\nDATA\r\n\r\n",
    ),
    (
        "mail from: <Cara@Example.net> \nrcpt to:\t<ann@example.org>\t\ndata \nSubject : one\n\ttwo\nX:\n\nhello",
        "MAIL FROM:<Cara@Example.net>\r\nRCPT TO:<ann@example.org>\r\nDATA\r\nSubject: one\r\n\ttwo\r\nX:\r\n\r\nhello",
    ),
    (
        "MAIL FROM:<a@b>\r\nRCPT TO:<Ann@example.org>\r\nRCPT TO:<dan@a>\r\nRCPT TO:<ann@EXAMPLE.org>\r\nDATA\r\n\r\n.\r\n\r\na: b\n",
        "MAIL FROM:<a@b>\r\nRCPT TO:<Ann@example.org>\r\nRCPT TO:<dan@a>\r\nDATA\r\n\r\n.\r\n\r\na: b\n",
    ),
];

/// Whether the mail is written so, and the same where it is read from that.
fn has_one_form(alloc: Global, text: &str, want: &str) -> Result<bool, Fail> {
    Ok(
        is_written_as(alloc, text.as_bytes(), want.as_bytes())?
            && is_written_as(alloc, want.as_bytes(), want.as_bytes())?,
    )
}

#[test]
fn writes_each_mail_in_one_form(rt: HostRuntime) -> Result<(), Fail> {
    for (text, want) in WRITTEN {
        assert_so(&rt, has_one_form(rt.alloc(), text, want)?, text);
    }
    Ok(())
}
