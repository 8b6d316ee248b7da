//! Events in short words, and what a machine came to.
use mj_core::{Event, Machine};
use mj_fields::{Bytes, Items, Memory};
use mj_mail::{Cause, Entry, Mail, Name, Stage, name_text, wire_line};
use mj_mailfile::read_mail_file;
use mj_report::put_fact_lines;
use std::alloc::Global;
use std::process::Abort;
use std::test::Fail;

/// The mail for a local and a remote recipient, and the one for another host.
const MAILS: [&str; 2] = [
    "MAIL FROM:<cara@example.net>\r\nRCPT TO:<ann@example.org>\r\nRCPT TO:<dan@example.net>\r\nDATA\r\nSubject: one\r\n\r\nhello\r\n",
    "MAIL FROM:<cara@example.net>\r\nRCPT TO:<dora@remote.test>\r\nDATA\r\nSubject: two\r\n\r\nhi\r\n",
];

/// An event. A name is its number and its path.
#[derive(Clone, Copy)]
pub(crate) enum Word {
    /// The mail at this place is accepted, under a file name of its own.
    Accept(usize),
    Close,
    Claim(u32, &'static [u32]),
    Attempt(u32),
    Commit(u32),
    Advance(u64),
    Stop(u32),
    Crash,
    Reopen,
    Setup,
}

/// The name of these numbers.
pub(crate) fn name(alloc: Global, numbers: &[u32]) -> Result<Name, Memory> {
    let mut name = Name::first(alloc, 0);
    if let Some((number, path)) = numbers.split_first() {
        name.number = u64::from(*number);
        for member in path {
            name.path.push(*member)?;
        }
    }
    Ok(name)
}

fn accept(alloc: Global, place: usize) -> Result<Event, Fail> {
    let file = format!(in alloc; "{place}.mail")?;
    let file = Bytes::from_slice(alloc, file.as_bytes())?;
    let text = MAILS.get(place).copied().unwrap_or("");
    match read_mail_file(alloc, text.as_bytes()) {
        Ok(mail) => Ok(Event::Accept { file, mail }),
        Err(fault) => Err(Fail::from(fault)),
    }
}

fn event(alloc: Global, word: &Word) -> Result<Event, Fail> {
    Ok(match *word {
        Word::Accept(place) => accept(alloc, place)?,
        Word::Close => Event::CloseIntake,
        Word::Claim(worker, numbers) => Event::Claim {
            worker,
            name: name(alloc, numbers)?,
        },
        Word::Attempt(worker) => Event::Attempt { worker },
        Word::Commit(worker) => Event::Commit { worker },
        Word::Advance(moment) => Event::Advance { moment },
        Word::Stop(worker) => Event::Stop {
            worker,
            cause: Cause::WireFault { worker },
        },
        Word::Crash => Event::Crash,
        Word::Reopen => Event::Reopen,
        Word::Setup => Event::Setup,
    })
}

/// These events.
pub(crate) fn events(alloc: Global, words: &[Word]) -> Result<Items<Event>, Fail> {
    let mut events = Items::new(alloc);
    for word in words {
        events.push(event(alloc, word)?)?;
    }
    Ok(events)
}

/// Fails where the entries are others than these, each by its kind and its name, with a space behind it.
pub(crate) fn assert_history(
    rt: &(impl Abort + AllocGlobal),
    machine: &Machine,
    want: &str,
    case: &str,
) -> Result<(), Fail> {
    let history = history(rt.alloc(), machine)?;
    assert_so(rt, history.as_slice() == want.as_bytes(), case);
    Ok(())
}

fn history(alloc: Global, machine: &Machine) -> Result<Bytes, Memory> {
    let mut text = Bytes::new(alloc);
    for entry in machine.entries().as_slice() {
        put_entry(alloc, &mut text, entry)?;
    }
    Ok(text)
}

fn put_entry(alloc: Global, text: &mut Bytes, entry: &Entry) -> Result<(), Memory> {
    match entry {
        Entry::Setup { .. } => text.extend(b"setup "),
        Entry::Accept { file, .. } => {
            text.extend(file.as_slice())?;
            text.push(b' ')
        }
        Entry::Done { name, .. } => {
            let name = name_text(alloc, name)?;
            text.extend(name.as_slice())?;
            text.push(b' ')
        }
    }
}

/// Fails where the lines of the attempts at all mails for hosts, in the order of their birth, are others than these.
pub(crate) fn assert_wire(
    rt: &(impl Abort + AllocGlobal),
    machine: &Machine,
    want: &str,
) -> Result<(), Fail> {
    let wire = wire(rt.alloc(), machine)?;
    assert_so(rt, wire.as_slice() == want.as_bytes(), "lines");
    Ok(())
}

fn wire(alloc: Global, machine: &Machine) -> Result<Bytes, Memory> {
    let mut text = Bytes::new(alloc);
    for entry in machine.entries().as_slice() {
        if let Entry::Done { outcome, .. } = entry {
            put_wire(alloc, &mut text, outcome.children.as_slice())?;
        }
    }
    Ok(text)
}

fn put_wire(alloc: Global, text: &mut Bytes, mails: &[Mail]) -> Result<(), Memory> {
    for mail in mails {
        if let Stage::Remote { .. } = mail.stage {
            text.extend(wire_line(alloc, mail)?.as_slice())?;
            text.push(b'\n')?;
        }
    }
    Ok(())
}

/// The lines of the facts of this entry.
fn lines(alloc: Global, entry: &Entry) -> Result<Bytes, Memory> {
    let mut text = Bytes::new(alloc);
    if let Entry::Done { name, outcome, .. } = entry {
        put_fact_lines(alloc, &mut text, name, outcome.facts.as_slice())?;
    }
    Ok(text)
}

/// Whether the text has this part.
fn has(text: &[u8], part: &[u8]) -> bool {
    part.is_empty() || text.windows(part.len()).any(|piece| piece == part)
}

/// Fails where the lines of all facts aren't those of the report, in whatever order they were recorded.
pub(crate) fn assert_reports(
    rt: &(impl Abort + AllocGlobal),
    machine: &Machine,
    report: &str,
) -> Result<(), Fail> {
    assert_so(rt, reports(rt.alloc(), machine, report)?, "report");
    Ok(())
}

fn reports(alloc: Global, machine: &Machine, report: &str) -> Result<bool, Memory> {
    let mut total: u64 = 0;
    for entry in machine.entries().as_slice() {
        let lines = lines(alloc, entry)?;
        if !has(report.as_bytes(), lines.as_slice()) {
            return Ok(false);
        }
        total = total.saturating_add(lines.len() as u64);
    }
    Ok(total == report.len() as u64)
}

/// Fails where it isn't so. The case is what is looked at.
pub(crate) fn assert_so(rt: &impl Abort, is_so: bool, case: &str) {
    assert!(rt; is_so, "at {case:?}");
}
