ghost use Rattle.std.specs.Prelude.{◌≡◌, string_bytes, true, IfOk, IfSome};
ghost use Rattle.mj_terms.specs.Causes.{HasCause};
ghost use Rattle.mj_io.specs.Folder.{file_at};
ghost use Rattle.mj_mail.specs.Rules.{is_acceptable};
ghost use Rattle.mj_mailfile.specs.MailFile.{mail_file};
ghost use Rattle.mj_engine.specs.Intake.{as_refusal, is_mail_name as ends_in_mail, judged, mail_in, mail_room, path_of as path_in_folder};

use mj_fields::{Bytes, Memory};
use mj_io::{Files, FilesError};
use mj_mail::NewMail;
use mj_mailfile::read_mail_file;
use mj_report::Refusal;
use std::alloc::Global;

/// The most bytes that the name of a mail file may have.
const MAX_NAME: usize = 4_096;

/// Whether a name of the folder is taken.
pub fn is_mail_name(name: &str) -> bool
    ensures { result ≡ ends_in_mail name.now }
{
    name.as_bytes().ends_with(b".mail")
}

/// What stands under a taken name: a mail or a refusal, or nothing where there is no file. At most `room` bytes are
/// read, one more than a mail file may have.
pub fn judge<F: Files>(
    alloc: Global,
    files: &mut F,
    name: &str,
    room: usize,
) -> Result<Option<Result<NewMail, Refusal>>, FilesError>
    requires { room ≡ mail_room }
    ensures judged { IfSome (F.told files.old) (λ told. IfOk result (λ found. found ≡ judged told name.now)) }
    ensures acceptable { IfOk result (λ found. IfSome found (λ mail. IfOk mail (λ mail. is_acceptable mail ≡ true))) }
    ensures same { F.told files.new ≡ F.told files.old }
    ensures cause { HasCause FilesError.Failed (F.faults files.old) (F.faults files.new) result }
{
    if name.len() > MAX_NAME {
        return Ok(Some(Err(Refusal::LongName)));
    }
    let path = path_of(alloc, name)?;
    read_mail(alloc, files, path.as_str(), room)
}

fn read_mail<F: Files>(
    alloc: Global,
    files: &mut F,
    path: &str,
    room: usize,
) -> Result<Option<Result<NewMail, Refusal>>, FilesError>
    requires { room ≡ mail_room }
    ensures judged { IfSome (F.told files.old) (λ told. IfOk result (λ found. found ≡ mail_in (file_at path.now told))) }
    ensures acceptable { IfOk result (λ found. IfSome found (λ mail. IfOk mail (λ mail. is_acceptable mail ≡ true))) }
    ensures same { F.told files.new ≡ F.told files.old }
    ensures cause { HasCause FilesError.Failed (F.faults files.old) (F.faults files.new) result }
{
    let file = files.read(alloc, path, room)?;
    Ok(parse_file(alloc, file)?)
}

fn parse_file(
    alloc: Global,
    file: Option<Bytes>,
) -> Result<Option<Result<NewMail, Refusal>>, Memory>
    ensures judged { IfOk result (λ found. found ≡ mail_in file) }
    ensures acceptable { IfOk result (λ found. IfSome found (λ mail. IfOk mail (λ mail. is_acceptable mail ≡ true))) }
{
    match file {
        None => Ok(None),
        Some(bytes) => Ok(Some(parse(alloc, bytes.as_slice())?)),
    }
}

fn path_of(alloc: Global, name: &str) -> Result<String, Memory>
    ensures { IfOk result (λ path. string_bytes path ≡ path_in_folder name.now) }
{
    let mut path = String::from_str(alloc, "mails/")?;
    path.push_str(name)?;
    Ok(path)
}

fn parse(alloc: Global, bytes: &[u8]) -> Result<Result<NewMail, Refusal>, Memory>
    ensures judged { IfOk result (λ mail. mail ≡ as_refusal (mail_file bytes.now)) }
    ensures acceptable { IfOk result (λ mail. IfOk mail (λ mail. is_acceptable mail ≡ true)) }
{
    match read_mail_file(alloc, bytes) {
        Ok(mail) => Ok(Ok(mail)),
        Err(fault) => {
            if fault.is_memory() {
                Err(Memory)
            } else {
                Ok(Err(Refusal::Fault(fault)))
            }
        }
    }
}
