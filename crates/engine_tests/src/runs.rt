use mj_engine::james_one;
use mj_fields::{Bytes, Items, Memory};
use mj_io::{MemoryFile, MemoryFiles, MemorySink, are_files};
use std::alloc::Global;
use std::process::Abort;
use std::test::Fail;

/// The table `[spool]`.
pub(crate) const SPOOL: &str =
    "[spool]\nhost_name = \"mx.example.org\"\npostmaster = \"postmaster@example.org\"\nlocal_hosts = [\"example.org\"]\nlocal_users = [\"ann\", \"bob\", \"postmaster\"]\nstart = \"2024-01-01T00:00:00Z\"\n";

/// A processor `root` that deposits each mail.
const DEPOSIT: &str =
    "[[processor]]\nname = \"root\"\n[[processor.step]]\nmatch = \"All\"\nclass = \"ToRepository\"\nrepositoryPath = \"file://var/mail/in\"\n";

/// A processor `root` whose one step sends each mail to the processor `a`.
const TO_A: &str =
    "[[processor]]\nname = \"root\"\n[[processor.step]]\nmatch = \"All\"\nclass = \"ToProcessor\"\nprocessor = \"a\"\n[[processor]]\nname = \"a\"\n";

/// A processor `error` without steps.
pub(crate) const ERROR: &str = "[[processor]]\nname = \"error\"\n";

/// The mail of these tests.
pub(crate) const MAIL: &str =
    "MAIL FROM:<cara@example.net>\r\nRCPT TO:<ann@example.org>\r\nDATA\r\nSubject: one\r\n\r\nhello\r\n";

/// The line of the mail where it is deposited.
const DEPOSITED: &str = "1#1 deposit file://var/mail/in ann@example.org 23\n";

const USAGE: &str = "usage: james COMMAND [--workers N] [--number N] [--count N]\n";

const READ: &str = "fault read\n";

fn put(alloc: Global, files: &mut Items<MemoryFile>, path: &str, text: &str) -> Result<(), Memory> {
    let path = Bytes::from_slice(alloc, path.as_bytes())?;
    let bytes = Bytes::from_slice(alloc, text.as_bytes())?;
    files.push(MemoryFile { path, bytes })
}

/// This configuration, and the file of this path and text, where there is one.
fn held(
    alloc: Global,
    configuration: &str,
    (path, text): (&str, &str),
) -> Result<Items<MemoryFile>, Memory> {
    let mut files = Items::new(alloc);
    put(
        alloc,
        &mut files,
        "conf/mailetcontainer.toml",
        configuration,
    )?;
    if !path.is_empty() {
        put(alloc, &mut files, path, text)?;
    }
    Ok(files)
}

/// A list of the one number; none for 0.
fn numbers(alloc: Global, number: u64) -> Result<Items<u64>, Memory> {
    let mut numbers = Items::new(alloc);
    if number > 0 {
        numbers.push(number)?;
    }
    Ok(numbers)
}

/// These files, of which the call of this number fails; none for 0.
fn failing(alloc: Global, files: Items<MemoryFile>, call: u64) -> Result<MemoryFiles, Memory> {
    if are_files(files.as_slice()) {
        Ok(MemoryFiles::make(files, numbers(alloc, call)?))
    } else {
        Err(Memory)
    }
}

/// A folder with this configuration and this file.
pub(crate) fn folder(
    alloc: Global,
    configuration: &str,
    file: (&str, &str),
    call: u64,
) -> Result<MemoryFiles, Memory> {
    failing(alloc, held(alloc, configuration, file)?, call)
}

/// A folder with this configuration, this table of answers, and this mail.
pub(crate) fn site(
    alloc: Global,
    configuration: &str,
    answers: &str,
    mail: &str,
) -> Result<MemoryFiles, Memory> {
    let mut files = held(alloc, configuration, ("conf/answers.toml", answers))?;
    put(alloc, &mut files, "mails/a.mail", mail)?;
    failing(alloc, files, 0)
}

/// A folder with a configuration that deposits each mail, and with this file.
fn plain(alloc: Global, file: (&str, &str), call: u64) -> Result<MemoryFiles, Memory> {
    let configuration = format!(in alloc; "{SPOOL}{DEPOSIT}{ERROR}")?;
    folder(alloc, configuration.as_str(), file, call)
}

/// A folder with a configuration that sends each mail to the processor `a` with these steps, and with the mail.
fn to_a(alloc: Global, hops: &str, steps: &str) -> Result<MemoryFiles, Memory> {
    let configuration = format!(in alloc; "{SPOOL}{hops}{TO_A}{steps}{ERROR}")?;
    folder(alloc, configuration.as_str(), ("mails/a.mail", MAIL), 0)
}

fn list(alloc: Global, words: &[&str]) -> Result<Vec<String>, Memory> {
    let mut list = Vec::new(alloc);
    for word in words {
        list.push(String::from_str(alloc, word)?)?;
    }
    Ok(list)
}

/// What a run came to: its status, and what it wrote.
#[derive(Drop)]
struct Outcome {
    status: u8,
    out: MemorySink,
}

/// A run with these words, where the write of this number fails; none for 0.
fn ran(
    alloc: Global,
    words: &[&str],
    files: &mut MemoryFiles,
    write: u64,
) -> Result<Outcome, Memory> {
    let words = list(alloc, words)?;
    let mut out = MemorySink::make(alloc, numbers(alloc, write)?);
    let status = james_one(alloc, &words, files, &mut out);
    Ok(Outcome { status, out })
}

/// Whether a run over these files ends with this status and writes this.
pub(crate) fn ends(
    alloc: Global,
    words: &[&str],
    files: &mut MemoryFiles,
    write: u64,
    (status, text): (u8, &str),
) -> Result<bool, Memory> {
    let outcome = ran(alloc, words, files, write)?;
    Ok(outcome.status == status && outcome.out.bytes() == text.as_bytes())
}

/// The same over the mail and a configuration that deposits it, where this call on the files and this write fail.
fn plain_ends(
    alloc: Global,
    words: &[&str],
    (call, write): (u64, u64),
    want: (u8, &str),
) -> Result<bool, Memory> {
    let mut files = plain(alloc, ("mails/a.mail", MAIL), call)?;
    ends(alloc, words, &mut files, write, want)
}

/// Fails where it isn't so. The case is what is looked at.
pub(crate) fn assert_so(rt: &impl Abort, is_so: bool, case: &str) {
    assert!(rt; is_so, "at {case}");
}

/// What the row looks at, the words, the calls on the files and on the sink that fail, the status, and what is written.
const ENDINGS: [(&str, &[&str], (u64, u64), (u8, &str)); 14] = [
    ("run", &["run"], (0, 0), (0, DEPOSITED)),
    ("an empty word", &[""], (0, 0), (2, USAGE)),
    ("fly", &["fly"], (0, 0), (2, USAGE)),
    ("Run", &["Run"], (0, 0), (2, USAGE)),
    ("--help", &["--help"], (0, 0), (2, USAGE)),
    ("no word", &[], (0, 0), (2, USAGE)),
    ("run twice", &["run", "run"], (0, 0), (2, USAGE)),
    ("a failing usage line", &[], (0, 1), (2, "")),
    ("a failing configuration", &["run"], (1, 0), (5, READ)),
    ("a failing table of answers", &["run"], (2, 0), (5, READ)),
    ("a failing folder", &["run"], (3, 0), (5, READ)),
    ("a failing mail", &["run"], (4, 0), (5, READ)),
    ("no fifth call", &["run"], (5, 0), (0, DEPOSITED)),
    ("a failing report", &["run"], (0, 1), (6, "")),
];

#[test]
fn tells_what_failed(rt: HostRuntime) -> Result<(), Fail> {
    for (case, words, failing, want) in ENDINGS {
        assert_so(&rt, plain_ends(rt.alloc(), words, failing, want)?, case);
    }
    Ok(())
}

/// Whether the configuration is refused before the table of answers is read, which would fail.
fn is_refused_first(alloc: Global, configuration: &str, line: &str) -> Result<bool, Memory> {
    let mut files = folder(alloc, configuration, ("", ""), 2)?;
    ends(alloc, &["run"], &mut files, 0, (3, line))
}

#[test]
fn judges_the_configuration_first(rt: HostRuntime) -> Result<(), Fail> {
    let line = "fault config WrongType 0 0\n";
    let is_so = is_refused_first(rt.alloc(), "spool = 7\n", line)?;
    assert_so(&rt, is_so, "no table");
    Ok(())
}

/// `mails/`, so many letters, and `.mail`.
fn long_path(alloc: Global, letters: usize) -> Result<String, Memory> {
    let mut path = String::from_str(alloc, "mails/")?;
    for _ in 0..letters {
        path.push('a')?;
    }
    path.push_str(".mail")?;
    Ok(path)
}

/// Whether the report of a mail in a file with a name of so many letters ends so, where this call fails.
fn report_ends_with(alloc: Global, letters: usize, call: u64, end: &str) -> Result<bool, Memory> {
    let path = long_path(alloc, letters)?;
    let mut files = plain(alloc, (path.as_str(), MAIL), call)?;
    let outcome = ran(alloc, &["run"], &mut files, 0)?;
    Ok(outcome.status == 0 && outcome.out.bytes().ends_with(end.as_bytes()))
}

/// How many letters a name has, the call that fails, and the end of the report. A file whose name is too long isn't read.
const NAMES: [(usize, u64, &str); 3] = [
    (4091, 0, " ann@example.org 23\n"),
    (4092, 0, "aaa.mail LongName\n"),
    (4092, 4, "aaa.mail LongName\n"),
];

#[test]
fn refuses_long_names(rt: HostRuntime) -> Result<(), Fail> {
    for (letters, call, end) in NAMES {
        assert_so(&rt, report_ends_with(rt.alloc(), letters, call, end)?, end);
    }
    Ok(())
}

/// Whether this is the report of a folder with this file.
fn reports_file(alloc: Global, file: (&str, &str), report: &str) -> Result<bool, Memory> {
    let mut files = plain(alloc, file, 0)?;
    ends(alloc, &["run"], &mut files, 0, (0, report))
}

/// A file of the folder, where there is one, and the report.
const FILES: [((&str, &str), &str); 3] = [
    (("", ""), ""),
    (("mails/a.mail", MAIL), DEPOSITED),
    (
        ("mails/a%b \u{e9}.mail", ""),
        "refused a%25b%20%C3%A9.mail NoMailFrom\n",
    ),
];

#[test]
fn reports_the_files_of_a_folder(rt: HostRuntime) -> Result<(), Fail> {
    for (file, report) in FILES {
        assert_so(&rt, reports_file(rt.alloc(), file, report)?, report);
    }
    Ok(())
}

/// Whether this is the report of the mail where the processor `a` has these steps.
fn reports_path(alloc: Global, hops: &str, steps: &str, report: &str) -> Result<bool, Memory> {
    let mut files = to_a(alloc, hops, steps)?;
    ends(alloc, &["run"], &mut files, 0, (0, report))
}

/// What stands behind `[spool]` and what the processor `a` has, and the report of one mail.
const PATHS: [(&str, &str, &str); 6] = [
    ("", "", "1/1#1 felloff a ann@example.org\n"),
    (
        "",
        "[[processor.step]]\nmatch = \"All\"\nclass = \"Null\"\n",
        "1/1#1 dropped discarded ann@example.org\n",
    ),
    (
        "",
        "[[processor.step]]\nmatch = \"All\"\nclass = \"ToProcessor\"\nprocessor = \"ghost\"\n",
        "1/1#1 dropped discarded ann@example.org\n",
    ),
    (
        "",
        "[[processor.step]]\nmatch = \"All\"\nclass = \"ToRepository\"\nrepositoryPath = \"x\"\n[[processor.step]]\nmatch = \"All\"\nclass = \"Null\"\n",
        "1/1#1 deposit x ann@example.org 23\n",
    ),
    (
        "max_hops = 3\n",
        "[[processor.step]]\nmatch = \"All\"\nclass = \"ToProcessor\"\nprocessor = \"root\"\n",
        "1/1/1/1#1 looped ann@example.org\n",
    ),
    (
        "max_hops = 1\n",
        "[[processor.step]]\nmatch = \"All\"\nclass = \"Null\"\n",
        "1/1#1 looped ann@example.org\n",
    ),
];

#[test]
fn carries_mails_from_processor_to_processor(rt: HostRuntime) -> Result<(), Fail> {
    for (hops, steps, report) in PATHS {
        assert_so(&rt, reports_path(rt.alloc(), hops, steps, report)?, report);
    }
    Ok(())
}
