//! What the tests share: mails of files.
ghost use Rattle.std.specs.Prelude.{◌<◌, ◌^◌, length, IfOk};

use mj_mail::{Mail, NewMail};
use mj_mailfile::read_mail_file;
use std::alloc::Global;
use std::process::Abort;
use std::test::Fail;

/// The mail of the file.
pub(crate) fn new_mail(alloc: Global, file: &[u8]) -> Result<NewMail, Fail>
    ensures { IfOk result (λ mail. length mail.body < 2 ^ 32) }
{
    match read_mail_file(alloc, file) {
        Ok(mail) => Ok(mail),
        Err(fault) => Err(Fail::from(fault)),
    }
}

/// The first mail of the number 7, which is that of the file. It waits for the processor `root`.
pub(crate) fn first_mail(alloc: Global, file: &[u8]) -> Result<Mail, Fail> {
    let new = new_mail(alloc, file)?;
    Ok(new.first(alloc, 0, 7)?)
}

/// Fails where it isn't so. The case is what is looked at.
pub(crate) fn assert_so(rt: &impl Abort, is_so: bool, case: &str) {
    assert!(rt; is_so, "at {case:?}");
}
