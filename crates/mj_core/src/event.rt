use mj_fields::Bytes;
use mj_mail::{Cause, Name, NewMail};

/// What may happen to a machine. Workers go by their numbers.
#[derive(Debug, Drop)]
pub enum Event {
    /// The mail of the file of this name is accepted.
    Accept { file: Bytes, mail: NewMail },
    /// No more mails are accepted.
    CloseIntake,
    /// A worker takes the mail of this name.
    Claim { worker: u32, name: Name },
    /// A worker calls the host of the mail that it has.
    Attempt { worker: u32 },
    /// The mail that a worker has takes its step.
    Commit { worker: u32 },
    /// It is this moment by now, in milliseconds since 1970-01-01T00:00:00Z.
    Advance { moment: u64 },
    /// A worker finds a cause to stop all work.
    Stop { worker: u32, cause: Cause },
    /// The machine goes down, and only its entries are left.
    Crash,
    /// It goes on behind its entries.
    Reopen,
    /// The next configuration comes into force.
    Setup,
}
