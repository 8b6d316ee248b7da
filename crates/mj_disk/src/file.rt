ghost use Rattle.std.specs.Prelude.{◌≡◌, ◌≤◌, ◌<◌, ◌^◌, [], length, IfOk};
ghost use Rattle.mj_terms.specs.Causes.{Rose};

use crate::{Disk, DiskFailed};
use std::fs::{OpenFile, OpenOptions};
use std::io::ErrorKind;
use std::marker::Model;
use std::os::unix::fs::FileExt;
use std::path::Path;
use std::{fs, io, rt};

/// The first length that is no length of a disk.
const TOO_LONG: u64 = 1 << 63;

/// A disk over a file, which its first call opens; the file and its folder are made where they are missing. It
/// tells nothing, and counts each call that the system refuses or does in part. Contracts see it as that count.
#[derive(Drop)]
pub struct FileDisk<'a, E: rt::Files> {
    rt: E,
    path: &'a str,
    file: Option<E::File>,
    faults: u64,
}

impl<'a, E: rt::Files> Model for FileDisk<'a, E> {
    ghost use Rattle.std.specs.Prelude.{ℕ};

    ghost Value = { ℕ };

    ghost view = { λ d. d.faults };
}

impl<'a, E: rt::Files + Drop> FileDisk<'a, E> {
    /// The file at the path, without a fault yet. Takes no memory.
    pub fn at(rt: E, path: &'a str) -> FileDisk<'a, E>
        ensures { result ≡ 0 }
    {
        FileDisk {
            rt,
            path,
            file: None,
            faults: 0,
        }
    }

    fn count_fault(&mut self) -> DiskFailed
        ensures later { self.old ≤ self.new }
        ensures rose { Rose self.old self.new }
    {
        self.faults = self.faults.saturating_add(1);
        DiskFailed
    }
}

/// Opens the file, and makes it and its folder where they are missing. The folder is synced, so that a crash
/// leaves the file's name.
fn open_file<E: rt::Files>(rt: &E, path: &str) -> io::Result<E::File> {
    let folder = match Path::new(path).parent() {
        Some(folder) if !folder.as_str().is_empty() => folder,
        _ => Path::new("."),
    };
    fs::create_dir_all(rt, folder)?;
    let file = OpenOptions::new()
        .read(true)
        .write(true)
        .create(true)
        .open(rt, path)?;
    fs::open(rt, folder)?.sync_all()?;
    Ok(file)
}

/// Fills the piece from the place on until it is full or the file ends.
fn fill<F: FileExt + OpenFile>(file: &F, at: u64, into: &mut [u8]) -> io::Result<usize>
    ensures { IfOk result (λ n. n ≤ length into.old) }
{
    let mut filled = 0;
    for _ in 0..u64::MAX {
        if filled == into.len() {
            break;
        }
        match file.read_at(&mut into[filled..], at.saturating_add(filled as u64)) {
            Ok(0) => break,
            Ok(n) => filled += n,
            Err(e) if e.kind() == ErrorKind::Interrupted => {}
            Err(e) => return Err(e),
        }
    }
    let end = at.saturating_add(filled as u64);
    if filled < into.len() && end < file.metadata()?.len() {
        return Err(io::Error::from(ErrorKind::UnexpectedEof));
    }
    Ok(filled)
}

fn write_whole<F: FileExt>(file: &F, at: u64, bytes: &[u8]) -> io::Result<()> {
    let mut done = 0;
    for _ in 0..u64::MAX {
        if done == bytes.len() {
            return Ok(());
        }
        match file.write_at(&bytes[done..], at.saturating_add(done as u64)) {
            Ok(0) => break,
            Ok(n) => done += n,
            Err(e) if e.kind() == ErrorKind::Interrupted => {}
            Err(e) => return Err(e),
        }
    }
    Err(io::Error::from(ErrorKind::WriteZero))
}

fn size_of_file<F: OpenFile>(file: &F) -> io::Result<u64>
    ensures { IfOk result (λ n. n < 2 ^ 63) }
{
    let size = file.metadata()?.len();
    if size >= TOO_LONG {
        return Err(io::Error::from(ErrorKind::FileTooLarge));
    }
    Ok(size)
}

impl<'a, E: rt::Files + Drop> FileDisk<'a, E> {
    /// Opens the file where no call has opened it yet.
    fn open(&mut self) -> io::Result<()>
        ensures { self.new ≡ self.old }
    {
        if self.file.is_none() {
            self.file = Some(open_file(&self.rt, self.path)?);
        }
        Ok(())
    }
}

fn size_of<F: OpenFile>(file: &Option<F>) -> io::Result<u64>
    ensures { IfOk result (λ n. n < 2 ^ 63) }
{
    match file {
        Some(file) => size_of_file(file),
        None => Err(io::Error::from(ErrorKind::Other)),
    }
}

fn fill_from<F: FileExt + OpenFile>(file: &Option<F>, at: u64, into: &mut [u8]) -> io::Result<usize>
    ensures { IfOk result (λ n. n ≤ length into.old) }
{
    match file {
        Some(file) => fill(file, at, into),
        None => Err(io::Error::from(ErrorKind::Other)),
    }
}

fn write_to<F: FileExt>(file: &Option<F>, at: u64, bytes: &[u8]) -> io::Result<()> {
    match file {
        Some(file) => write_whole(file, at, bytes),
        None => Err(io::Error::from(ErrorKind::Other)),
    }
}

fn cut_at<F: OpenFile>(file: &Option<F>, size: u64) -> io::Result<()> {
    match file {
        Some(file) => file.set_len(size),
        None => Err(io::Error::from(ErrorKind::Other)),
    }
}

fn sync_of<F: OpenFile>(file: &Option<F>) -> io::Result<()> {
    match file {
        Some(file) => file.sync_data(),
        None => Err(io::Error::from(ErrorKind::Other)),
    }
}

impl<'a, E: rt::Files + Drop> Disk for FileDisk<'a, E>
where
    E::File: FileExt,
{
    ghost moments = { λ _. [] };

    ghost faults = { λ d. d };

    ghost reads = { λ _. tt };

    fn length(&mut self) -> Result<u64, DiskFailed> {
        if self.open().is_err() {
            return Err(self.count_fault());
        }
        match size_of(&self.file) {
            Ok(size) => Ok(size),
            Err(_) => Err(self.count_fault()),
        }
    }

    fn read(&mut self, at: u64, into: &mut [u8]) -> Result<usize, DiskFailed> {
        if self.open().is_err() {
            return Err(self.count_fault());
        }
        match fill_from(&self.file, at, into) {
            Ok(filled) => Ok(filled),
            Err(_) => Err(self.count_fault()),
        }
    }

    fn write_at(&mut self, at: u64, bytes: &[u8]) -> Result<(), DiskFailed> {
        if self.open().is_err() {
            return Err(self.count_fault());
        }
        match write_to(&self.file, at, bytes) {
            Ok(()) => Ok(()),
            Err(_) => Err(self.count_fault()),
        }
    }

    fn cut(&mut self, size: u64) -> Result<(), DiskFailed> {
        if self.open().is_err() {
            return Err(self.count_fault());
        }
        match cut_at(&self.file, size) {
            Ok(()) => Ok(()),
            Err(_) => Err(self.count_fault()),
        }
    }

    fn sync(&mut self) -> Result<(), DiskFailed> {
        if self.open().is_err() {
            return Err(self.count_fault());
        }
        match sync_of(&self.file) {
            Ok(()) => Ok(()),
            Err(_) => Err(self.count_fault()),
        }
    }

    fn faults(&self) -> u64 {
        self.faults
    }
}
