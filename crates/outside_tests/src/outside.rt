use mj_fields::{Bytes, Items, Memory};
use mj_io::{
    Failed, Files, FilesError, FolderFiles, LogWire, MemoryFile, MemoryFiles, MemorySink,
    MemoryWire, OutSink, Sink, SureFiles, SureSink, SureWire, Wire, are_files,
};
use std::alloc::{AllocError, Global};
use std::process::Abort;
use std::test::Fail;
use std::{fs, io};

/// More than any file of these tests holds.
const WHOLE: usize = 1_000_000;

/// What the tables of files in memory hold, out of order and with files that stand elsewhere.
const HELD: [(&[u8], &[u8]); 8] = [
    (b"mails/b.mail", b"second"),
    (b"mails/a.mail", b"first"),
    (b"mails/B.mail", b""),
    (b"mails/x.mail/inner", b"nested"),
    (b"mails2/c.mail", b"of another folder"),
    (b"mails", b"a file of the folder's name"),
    (b"old/mails/d.mail", b"deeper"),
    (b"mails/a", b"short name"),
];

fn file(alloc: Global, path: &[u8], bytes: &[u8]) -> Result<MemoryFile, Memory> {
    let path = Bytes::from_slice(alloc, path)?;
    let bytes = Bytes::from_slice(alloc, bytes)?;
    Ok(MemoryFile { path, bytes })
}

fn held(alloc: Global, table: &[(&[u8], &[u8])]) -> Result<Items<MemoryFile>, Memory> {
    let mut files = Items::new(alloc);
    for &(path, bytes) in table {
        files.push(file(alloc, path, bytes)?)?;
    }
    Ok(files)
}

fn numbers(alloc: Global, table: &[u64]) -> Result<Items<u64>, Memory> {
    let mut numbers = Items::new(alloc);
    for &number in table {
        numbers.push(number)?;
    }
    Ok(numbers)
}

/// Files in memory whose named calls fail.
fn failing_files(alloc: Global, failing: &[u64]) -> Result<MemoryFiles, Memory> {
    let files = held(alloc, &HELD)?;
    if are_files(files.as_slice()) {
        Ok(MemoryFiles::make(files, numbers(alloc, failing)?))
    } else {
        Err(Memory)
    }
}

fn sure_files(alloc: Global) -> Result<SureFiles, Memory> {
    let files = held(alloc, &HELD)?;
    if are_files(files.as_slice()) {
        Ok(SureFiles::make(files))
    } else {
        Err(Memory)
    }
}

/// Fails where it isn't so. The case is what is looked at.
fn assert_so(rt: &impl Abort, is_so: bool, case: &str) {
    assert!(rt; is_so, "at {case}");
}

/// The texts, each with a line end behind it.
fn lines(alloc: Global, texts: &[Bytes]) -> Result<Bytes, Memory> {
    let mut lines = Bytes::new(alloc);
    for text in texts {
        lines.extend_two(text.as_slice(), b"\n")?;
    }
    Ok(lines)
}

/// Whether the names in the folder, each with a line end behind it, are these lines.
fn lists<F: Files>(
    alloc: Global,
    files: &mut F,
    (folder, want): (&str, &[u8]),
) -> Result<bool, FilesError> {
    let names = files.list(alloc, folder)?;
    Ok(lines(alloc, names.as_slice())?.as_slice() == want)
}

/// Whether a read gives just these bytes, or nothing where nothing is wanted.
fn reads<F: Files>(
    alloc: Global,
    files: &mut F,
    (path, limit, want): (&str, usize, Option<&[u8]>),
) -> Result<bool, FilesError> {
    let is_wanted = match (files.read(alloc, path, limit)?, want) {
        (Some(bytes), Some(want)) => bytes.as_slice() == want,
        (None, None) => true,
        _ => false,
    };
    Ok(is_wanted)
}

/// Each row: a folder, and its names as lines.
fn check_lists<F: Files>(
    rt: &impl Abort,
    alloc: Global,
    files: &mut F,
    table: &[(&str, &[u8])],
) -> Result<(), FilesError> {
    for &(folder, want) in table {
        assert_so(rt, lists(alloc, files, (folder, want))?, folder);
    }
    Ok(())
}

/// Each row: a path, how many bytes are read at most, and what they are.
fn check_reads<F: Files>(
    rt: &impl Abort,
    alloc: Global,
    files: &mut F,
    table: &[(&str, usize, Option<&[u8]>)],
) -> Result<(), FilesError> {
    for &(path, limit, want) in table {
        assert_so(rt, reads(alloc, files, (path, limit, want))?, path);
    }
    Ok(())
}

/// Reads of one file up to limits, of an empty one, and of a missing one.
const READS: [(&str, usize, Option<&[u8]>); 7] = [
    ("mails/b.mail", WHOLE, Some(b"second")),
    ("mails/b.mail", 7, Some(b"second")),
    ("mails/b.mail", 6, Some(b"second")),
    ("mails/b.mail", 5, Some(b"secon")),
    ("mails/b.mail", 0, Some(b"")),
    ("mails/B.mail", 5, Some(b"")),
    ("mails/c.mail", WHOLE, None),
];

/// The folders of the files in memory, and the names in each.
const HELD_NAMES: [(&str, &[u8]); 5] = [
    ("mails", b"B.mail\na\na.mail\nb.mail\n"),
    ("mails/x.mail", b"inner\n"),
    ("mails2", b"c.mail\n"),
    ("old", b""),
    ("none", b""),
];

/// What any device must answer that holds the table.
fn check_held<F: Files>(rt: &impl Abort, alloc: Global, files: &mut F) -> Result<(), FilesError> {
    check_lists(rt, alloc, files, &HELD_NAMES)?;
    check_reads(rt, alloc, files, &READS)?;
    check_reads(rt, alloc, files, &[("mails/b.mail/", WHOLE, None)])
}

#[test]
fn files_in_memory_are_listed_and_read(rt: HostRuntime) -> Result<(), Fail> {
    let alloc = rt.alloc();
    check_held(&rt, alloc, &mut sure_files(alloc)?)?;
    check_held(&rt, alloc, &mut failing_files(alloc, &[])?)?;
    Ok(())
}

/// What call number k gives: a list where k is even, else a read.
fn called(alloc: Global, files: &mut MemoryFiles, k: u64) -> Result<bool, FilesError> {
    if k % 2 == 0 {
        lists(alloc, files, ("mails2", b"c.mail\n"))
    } else {
        reads(alloc, files, ("mails/a.mail", WHOLE, Some(b"first")))
    }
}

/// Whether call number k does what it should, where these are to fail.
fn is_as_told(alloc: Global, files: &mut MemoryFiles, failing: &[u64], k: u64) -> bool {
    let found = called(alloc, files, k);
    if failing.contains(&k) {
        found == Err(FilesError::Failed)
    } else {
        found == Ok(true)
    }
}

/// Whether the first calls of these files do what they should, where these are to fail.
fn are_as_told(alloc: Global, failing: &[u64]) -> Result<bool, Memory> {
    let mut files = failing_files(alloc, failing)?;
    let mut all = true;
    for k in 1..=4 {
        all &= is_as_told(alloc, &mut files, failing, k);
    }
    Ok(all)
}

/// A name for the row, and the numbers of the failing calls.
const FAILING: [(&str, &[u64]); 5] = [
    ("none", &[]),
    ("the first", &[1]),
    ("the second", &[2]),
    ("the last two", &[4, 3]),
    ("none of these", &[0, 5]),
];

#[test]
fn named_calls_on_files_fail(rt: HostRuntime) -> Result<(), Fail> {
    for (case, failing) in FAILING {
        assert_so(&rt, are_as_told(rt.alloc(), failing)?, case);
    }
    Ok(())
}

/// Lists of files whose paths are UTF-8, and no two of which are the same.
const JUDGED_WELL: [&[(&[u8], &[u8])]; 3] = [
    &[],
    &[(b"", b"\xFF")],
    &[(b"a", b"1"), (b"\xC3\xA4", b"2")],
];

/// Lists of which this isn't so.
const JUDGED_ILL: [&[(&[u8], &[u8])]; 3] = [
    &[(b"a", b"1"), (b"b", b"1"), (b"a", b"2")],
    &[(b"a\xFF", b"1")],
    &[(b"a", b"1"), (b"\xC3", b"2")],
];

fn judged(alloc: Global, table: &[(&[u8], &[u8])]) -> Result<bool, Memory> {
    Ok(are_files(held(alloc, table)?.as_slice()))
}

#[test]
fn paths_are_judged(rt: HostRuntime) -> Result<(), Fail> {
    for files in JUDGED_WELL {
        assert_so(&rt, judged(rt.alloc(), files)?, "good paths");
    }
    for files in JUDGED_ILL {
        assert_so(&rt, !judged(rt.alloc(), files)?, "bad paths");
    }
    Ok(())
}

/// What is written to a sink, piece by piece.
const PIECES: [&[u8]; 3] = [b"one\n", b"two\n", b"three\n"];

/// The numbers of the failing writes, and what is written.
const WRITTEN: [(&[u64], &str); 4] = [
    (&[], "one\ntwo\nthree\n"),
    (&[1], "two\nthree\n"),
    (&[2], "one\nthree\n"),
    (&[3, 2, 9], "one\n"),
];

/// Whether just these writes of the pieces fail.
fn fails_as_told(sink: &mut MemorySink, failing: &[u64]) -> bool {
    let mut all = true;
    for (call, piece) in (1..=3).zip(PIECES) {
        all &= sink.write(piece).is_err() == failing.contains(&call);
    }
    all
}

/// Whether these writes fail, and what is written is this.
fn writes(alloc: Global, failing: &[u64], want: &str) -> Result<bool, Memory> {
    let mut sink = MemorySink::make(alloc, numbers(alloc, failing)?);
    let is_as_told = fails_as_told(&mut sink, failing);
    Ok(is_as_told && sink.bytes() == want.as_bytes())
}

#[test]
fn sinks_take_pieces(rt: HostRuntime) -> Result<(), Fail> {
    for (failing, want) in WRITTEN {
        assert_so(&rt, writes(rt.alloc(), failing, want)?, want);
    }
    for piece in PIECES {
        assert_so(&rt, SureSink.write(piece).is_ok(), "a sure sink");
    }
    Ok(())
}

/// The files that the next test makes.
const MADE: [(&str, &str); 7] = [
    ("mails/b.mail", "second"),
    ("mails/a.mail", "first"),
    ("mails/B.mail", ""),
    ("mails/a", "short name"),
    ("mails/\u{E4}.mail", "last"),
    ("mails/x.mail/inner", "nested"),
    ("mails2/c.mail", "of another folder"),
];

/// The folders of these files, and the names in each.
const MADE_NAMES: [(&str, &[u8]); 3] = [
    ("mails", b"B.mail\na\na.mail\nb.mail\n\xC3\xA4.mail\n"),
    ("mails/x.mail", b"inner\n"),
    ("none", b""),
];

/// Reads that find no file in a folder that is missing or a file.
const MISSING: [(&str, usize, Option<&[u8]>); 2] = [
    ("none/c.mail", WHOLE, None),
    ("mails/b.mail/c", WHOLE, None),
];

fn make_files(rt: HostRuntime) -> io::Result<()> {
    for folder in ["mails/x.mail", "mails2"] {
        fs::create_dir_all(&rt, folder)?;
    }
    for (path, text) in MADE {
        fs::write(&rt, path, text)?;
    }
    Ok(())
}

/// What a device over the folder of those files must answer. A folder is no file, and the next read is as before.
fn check_made<F: Files>(rt: &impl Abort, alloc: Global, files: &mut F) -> Result<(), FilesError> {
    check_lists(rt, alloc, files, &MADE_NAMES)?;
    check_reads(rt, alloc, files, &READS)?;
    check_reads(rt, alloc, files, &MISSING)?;
    let is_failed = reads(alloc, files, ("mails", WHOLE, None)) == Err(FilesError::Failed);
    assert_so(rt, is_failed, "a folder");
    check_reads(rt, alloc, files, &[("mails/a.mail", WHOLE, Some(b"first"))])
}

#[test]
fn files_of_a_folder_are_listed_and_read(rt: HostRuntime) -> Result<(), Fail> {
    let alloc = rt.alloc();
    let mut files = FolderFiles::make(rt);
    check_lists(&rt, alloc, &mut files, &[("mails", b"")])?;
    make_files(rt)?;
    check_made(&rt, alloc, &mut files)?;
    Ok(())
}

fn large(alloc: Global) -> Result<Vec<u8>, AllocError> {
    let mut content = Vec::new(alloc);
    for k in 0..200_000u32 {
        content.push(u8::try_from(k % 251).unwrap_or(0))?;
    }
    Ok(content)
}

/// Whether reads of the large file up to these limits give its front.
fn reads_fronts<F: Files>(
    alloc: Global,
    files: &mut F,
    content: &[u8],
) -> Result<bool, FilesError> {
    let mut all = true;
    for limit in [WHOLE, 200_001, 200_000, 199_999, 65_536, 1] {
        let want = content.get(..limit).unwrap_or(content);
        all &= reads(alloc, files, ("large", limit, Some(want)))?;
    }
    Ok(all)
}

#[test]
fn large_files_come_whole(rt: HostRuntime) -> Result<(), Fail> {
    let content = large(rt.alloc())?;
    fs::write(&rt, "large", content.as_slice())?;
    let is_so = reads_fronts(rt.alloc(), &mut FolderFiles::make(rt), &content)?;
    assert_so(&rt, is_so, "a large file");
    Ok(())
}

#[test]
fn standard_output_takes_a_line(rt: HostRuntime) {
    let mut sink = OutSink::make(rt);
    assert_so(&rt, sink.write(b"one line\n").is_ok(), "a line");
    assert_so(&rt, sink.write(b"").is_ok(), "nothing");
}

/// Lines to a wire.
const LINES: [&[u8]; 3] = [b"one", b"two", b"three"];

/// Whether just these calls with the lines fail.
fn presents_as_told(wire: &mut MemoryWire, failing: &[u64]) -> bool {
    let mut all = true;
    for (call, line) in (1..=3).zip(LINES) {
        all &= wire.present(line).is_err() == failing.contains(&call);
    }
    all
}

/// Whether these calls fail, and the wire holds these lines.
fn holds(alloc: Global, failing: &[u64], want: &[u8]) -> Result<bool, Memory> {
    let mut wire = MemoryWire::make(alloc, numbers(alloc, failing)?);
    let is_as_told = presents_as_told(&mut wire, failing);
    Ok(is_as_told && lines(alloc, wire.lines().as_slice())?.as_slice() == want)
}

/// Whether the lines were all presented.
fn presents(rt: HostRuntime, lines: &[&[u8]]) -> bool {
    let mut wire = LogWire::make(rt, 7);
    let mut all = true;
    for line in lines {
        all &= wire.present(line).is_ok();
    }
    all
}

#[test]
fn wires_take_lines(rt: HostRuntime) -> Result<(), Fail> {
    assert_so(
        &rt,
        holds(rt.alloc(), &[2], b"one\nthree\n")?,
        "a wire in memory",
    );
    assert_so(&rt, SureWire.present(b"one").is_ok(), "a sure wire");
    assert_so(&rt, presents(rt, &[b"one", b""]), "two lines");
    assert_so(&rt, presents(rt, &[b"three"]), "one more");
    let written = fs::read(&rt, "var/wire-7.log")?;
    assert_so(
        &rt,
        written.as_slice() == b"one\n\nthree\n".as_slice(),
        "all lines",
    );
    Ok(())
}
