ghost use Rattle.std.specs.Prelude.{◌≡◌, ◌↔◌, IsTrue};

use thiserror::Error;

/// What is wrong with a mail file. Lines are counted from 1.
#[derive(Clone, Copy, Debug, PartialEq, Eq, Error)]
pub enum MailFault {
    /// The file has more than 16,777,216 bytes.
    #[error("the file is too large")]
    TooLarge,
    /// The first line doesn't begin with `MAIL FROM:`.
    #[error("no MAIL FROM line")]
    NoMailFrom,
    /// The first line names no sender in angle brackets.
    #[error("bad sender")]
    BadSender,
    /// The line of the file with this number names no recipient in angle brackets.
    #[error("bad recipient in line {line}")]
    BadRecipient { line: u32 },
    /// There are more than 500 different recipients.
    #[error("too many recipients")]
    TooManyRecipients,
    /// There is no `RCPT TO:` line.
    #[error("no recipient")]
    NoRecipient,
    /// No `DATA` line follows the recipients.
    #[error("no DATA line")]
    NoData,
    /// The line of the message with this number has no place in a head.
    #[error("bad head in line {line}")]
    BadHead { line: u32 },
    /// The head has more than 65,536 bytes when written.
    #[error("the head is too long")]
    HeadTooLong,
    /// There was no room for the mail.
    #[error("out of memory")]
    Memory,
}

impl MailFault {
    /// Whether it says nothing of the file.
    pub fn is_memory(&self) -> bool
        ensures { IsTrue result ↔ (self.now ≡ MailFault.Memory) }
    {
        matches!(self, MailFault::Memory)
    }
}
