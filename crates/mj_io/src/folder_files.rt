ghost use Rattle.std.specs.Prelude.{◌≡◌, ◌≤◌, length, None, true, IfOk};
ghost use Rattle.std.specs.List.{list_all};
ghost use Rattle.std.specs.Str.{is_utf8};
ghost use Rattle.mj_terms.specs.Causes.{Rose};

use crate::warning::warn;
use crate::{Files, FilesError};
use mj_fields::{Bytes, Items, Memory};
use std::alloc::Global;
use std::fs::{DirEntry, OpenFile};
use std::io::{ErrorKind, Read};
use std::marker::Model;
use std::{fs, io, rt};

/// The most names that a folder may have; more count as a fault.
const MOST_NAMES: usize = 1_000_000;

/// Room for the first piece of a file that doesn't say its size.
const FIRST_ROOM: usize = 65_536;

/// The files of the working folder. It tells nothing, and counts each call that the system refuses, each folder
/// of more than a million names, and each name that isn't UTF-8. Contracts see it as that count. Each of these, and
/// a missing folder, has a line on standard error.
#[derive(Drop)]
pub struct FolderFiles<E> {
    rt: E,
    faults: u64,
}

impl<E> Model for FolderFiles<E> {
    ghost use Rattle.std.specs.Prelude.{ℕ};

    ghost Value = { ℕ };

    ghost view = { λ s. s.faults };
}

impl<E: rt::Files + AllocGlobal + Eprint + Clone + Drop> FolderFiles<E> {
    /// The files under the folder in which the program runs, without a fault yet. Takes no memory.
    pub fn make(rt: E) -> FolderFiles<E>
        ensures { result ≡ 0 }
    {
        FolderFiles { rt, faults: 0 }
    }

    /// Counts what isn't want of memory as a fault.
    fn judge(&mut self, error: io::Error) -> FilesError
        ensures failed { result ≡ FilesError.Failed → Rose self.old self.new }
        ensures later { self.old ≤ self.new }
    {
        if error.kind() == ErrorKind::OutOfMemory {
            return FilesError::Memory;
        }
        self.faults = self.faults.saturating_add(1);
        FilesError::Failed
    }
}

fn is_missing(error: &io::Error) -> bool {
    matches!(error.kind(), ErrorKind::NotFound | ErrorKind::NotADirectory)
}

/// The error again, once it was said. Want of memory isn't said.
fn said<E: Eprint>(rt: &E, path: &str, error: io::Error) -> io::Error {
    if error.kind() != ErrorKind::OutOfMemory {
        warn(rt, path, &error);
    }
    error
}

/// Whether a regular file stands at the path, which may be a link to one.
fn is_file<E: rt::Files + Eprint>(rt: &E, path: &str) -> io::Result<bool> {
    match fs::metadata(rt, path) {
        Ok(metadata) => Ok(metadata.is_file()),
        Err(e) if is_missing(&e) => Ok(false),
        Err(e) => Err(said(rt, path, e)),
    }
}

fn file_names<E: rt::Files + AllocGlobal + Eprint + Clone + Drop>(
    alloc: Global,
    rt: &E,
    folder: &str,
) -> io::Result<Vec<String>> {
    let mut names = Vec::new(alloc);
    for entry in fs::read_dir(rt, folder).map_err(|e| said(rt, folder, e))? {
        let entry = entry.map_err(|e| said(rt, folder, e))?;
        take_entry(alloc, rt, folder, &mut names, &entry)?;
    }
    names.sort()?;
    Ok(names)
}

/// Adds the name of an entry of the folder, if a file stands there.
fn take_entry<E: rt::Files + AllocGlobal + Eprint + Clone + Drop>(
    alloc: Global,
    rt: &E,
    folder: &str,
    names: &mut Vec<String>,
    entry: &DirEntry<E>,
) -> io::Result<()> {
    if is_file(rt, entry.path().as_str())? {
        add_name(alloc, rt, folder, names, entry.file_name())?;
    }
    Ok(())
}

fn add_name<E: Eprint>(
    alloc: Global,
    rt: &E,
    folder: &str,
    names: &mut Vec<String>,
    name: &str,
) -> io::Result<()> {
    if names.len() >= MOST_NAMES {
        let error = io::Error::other("more than 1,000,000 files");
        return Err(said(rt, folder, error));
    }
    names.push(String::from_str(alloc, name)?)?;
    Ok(())
}

fn to_items(alloc: Global, names: &[String]) -> Result<Items<Bytes>, Memory>
    ensures { IfOk result (λ items. list_all is_utf8 items ≡ true) }
{
    let mut items = Items::new(alloc);
    for name in names {
        items.push(to_bytes(alloc, name.as_str())?)?;
    }
    Ok(items)
}

fn to_bytes(alloc: Global, name: &str) -> Result<Bytes, Memory>
    ensures { IfOk result (λ bytes. is_utf8 bytes ≡ true) }
{
    Bytes::from_slice(alloc, name.as_bytes())
}

/// Reads until the buffer is full or the file ends, and says how many bytes of it are filled.
fn fill<F: Read>(file: &mut F, buffer: &mut [u8], from: usize) -> io::Result<usize>
    requires { from ≤ length buffer.old }
    ensures { IfOk result (λ filled. filled ≤ length buffer.new) }
{
    let mut filled = from;
    for _ in 0..u64::MAX {
        match file.read(&mut buffer[filled..]) {
            Ok(0) => break,
            Ok(count) => filled += count,
            Err(e) if e.kind() == ErrorKind::Interrupted => {}
            Err(e) => return Err(e),
        }
    }
    Ok(filled)
}

/// The first `size` bytes of the file, or all of them if it has fewer.
fn read_sized<F: Read>(alloc: Global, file: &mut F, size: usize) -> io::Result<Vec<u8>> {
    let mut bytes = vec![in alloc; 0u8; size]?;
    let filled = fill(file, &mut bytes, 0)?;
    bytes.truncate(filled);
    Ok(bytes)
}

/// The bytes of a file that doesn't say its size, at most `limit`.
fn read_unsized<F: Read>(alloc: Global, file: &mut F, limit: usize) -> io::Result<Vec<u8>> {
    let mut bytes = vec![in alloc; 0u8; FIRST_ROOM.min(limit)]?;
    let mut filled = 0;
    for _ in 0..u64::BITS {
        filled = fill(file, &mut bytes, filled)?;
        if filled < bytes.len() || bytes.len() >= limit {
            break;
        }
        let more = bytes.len().saturating_mul(2).min(limit);
        bytes.resize(more, 0)?;
    }
    bytes.truncate(filled);
    Ok(bytes)
}

fn read_file<E: rt::Files>(
    alloc: Global,
    rt: &E,
    path: &str,
    limit: usize,
) -> io::Result<Option<Vec<u8>>> {
    let mut file = match fs::open(rt, path) {
        Ok(file) => file,
        Err(e) if is_missing(&e) => return Ok(None),
        Err(e) => return Err(e),
    };
    let size = usize::try_from(file.metadata()?.len()).unwrap_or(limit);
    let bytes = if size == 0 {
        read_unsized(alloc, &mut file, limit)?
    } else {
        read_sized(alloc, &mut file, size.min(limit))?
    };
    Ok(Some(bytes))
}

impl<E: rt::Files + AllocGlobal + Eprint + Clone + Drop> Files for FolderFiles<E> {
    ghost told = { λ _. None };

    ghost faults = { λ s. s };

    fn list(&mut self, alloc: Global, folder: &str) -> Result<Items<Bytes>, FilesError> {
        match file_names(alloc, &self.rt, folder) {
            Ok(names) => Ok(to_items(alloc, &names)?),
            Err(e) if is_missing(&e) => Ok(Items::new(alloc)),
            Err(e) => Err(self.judge(e)),
        }
    }

    fn read(
        &mut self,
        alloc: Global,
        path: &str,
        limit: usize,
    ) -> Result<Option<Bytes>, FilesError> {
        match read_file(alloc, &self.rt, path, limit) {
            Ok(found) => Ok(found.map(Bytes::from_vec)),
            Err(e) => {
                let e = said(&self.rt, path, e);
                Err(self.judge(e))
            }
        }
    }
}
