ghost use Rattle.std.specs.Prelude.{◌≡◌, ◌&&◌, ◌≤◌, ◌↔◌, length, take, true, is_none, IfOk, IsErrOf, option_map};
ghost use Rattle.std.specs.List.{list_all};
ghost use Rattle.std.specs.List.Sorted.{IsPermutation};
ghost use Rattle.std.specs.Option.{option_copied};
ghost use Rattle.std.specs.Ordering.{nat_cmp, is_le};
ghost use Rattle.std.specs.Cmp.Lexicographic.{slice_cmp};
ghost use Rattle.std.specs.Str.{is_utf8};
ghost use Rattle.mj_terms.specs.Causes.{HasCause};
ghost use Rattle.mj_fields.specs.Calls.{is_named};
ghost use Rattle.mj_io.specs.Folder.{ascend, file_at, found_in, name_in, names_in, place_of};
ghost use Rattle.mj_io.specs.Held.{called, told_files, are_files as are_sound};

use crate::{Files, FilesError};
use mj_fields::{Bytes, Calls, Items, Memory};
use std::alloc::Global;
use std::marker::Model;

/// A file in memory: its path, which is UTF-8, and its bytes.
#[derive(Debug, Drop)]
pub struct MemoryFile {
    pub path: Bytes,
    pub bytes: Bytes,
}

/// Files in memory that tell what they hold and never fail.
#[derive(Debug, Drop)]
pub struct SureFiles {
    files: Items<MemoryFile>,
}

impl Model for SureFiles {
    ghost use Rattle.std.specs.Prelude.{◌≡◌, ℕ, List, true};
    ghost use Rattle.mj_io.specs.Held.{told_files, are_files};

    ghost Value = { List (List ℕ × List ℕ) };

    ghost view = { λ s. told_files s.files };

    ghost invariant = { λ s. are_files (told_files s.files) ≡ true };
}

/// Files in memory that tell what they hold. The calls whose numbers are named fail; they are counted from 1.
#[derive(Debug, Drop)]
pub struct MemoryFiles {
    files: Items<MemoryFile>,
    calls: Calls,
}

impl Model for MemoryFiles {
    ghost use Rattle.std.specs.Prelude.{◌≡◌, true};
    ghost use Rattle.mj_io.specs.Held.{HeldFiles, told_files, are_files};

    ghost Value = { HeldFiles };

    ghost view = { λ s. record { files = told_files s.files; failing = s.calls.failing; calls = s.calls.made; faults = s.calls.faults } };

    ghost invariant = { λ s. are_files (told_files s.files) ≡ true };
}

impl SureFiles {
    /// These files. Takes no memory.
    pub fn make(files: Items<MemoryFile>) -> SureFiles
        requires { are_sound (told_files files) ≡ true }
        ensures { result ≡ told_files files }
    {
        SureFiles { files }
    }
}

impl MemoryFiles {
    /// These files, and the numbers of the calls that are to fail. Takes no memory.
    pub fn make(files: Items<MemoryFile>, failing: Items<u64>) -> MemoryFiles
        requires { are_sound (told_files files) ≡ true }
        ensures { result ≡ record { files = told_files files; failing = failing; calls = 0; faults = 0 } }
    {
        MemoryFiles {
            files,
            calls: Calls::new(failing),
        }
    }
}

/// Whether each path is UTF-8 and none stands twice, as `make` asks.
pub fn are_files(files: &[MemoryFile]) -> bool
    ensures { result ≡ are_sound (told_files files.now) }
{
    for (k, file) in files.iter().enumerate() {
        if !is_new(file.path.as_slice(), &files[k + 1..]) {
            return false;
        }
    }
    true
}

fn is_new(path: &[u8], others: &[MemoryFile]) -> bool
    ensures { result ≡ (is_utf8 path.now && is_none (file_at path.now (told_files others.now))) }
{
    let is_text = is_text(path);
    let is_other = find_file(others, path).is_none();
    is_text && is_other
}

fn is_text(path: &[u8]) -> bool
    ensures { result ≡ is_utf8 path.now }
{
    match str::from_utf8(path) {
        Ok(_) => true,
        Err(_) => false,
    }
}

fn find_file<'a>(files: &'a [MemoryFile], path: &[u8]) -> Option<&'a [u8]>
    ensures { option_copied result ≡ file_at path.now (told_files files.now) }
{
    for file in files {
        if file.path.as_slice() == path {
            return Some(file.bytes.as_slice());
        }
    }
    None
}

fn name_of<'a>(folder: &[u8], path: &'a [u8]) -> Option<&'a [u8]>
    ensures { option_copied result ≡ name_in folder.now path.now }
{
    let rest = path.strip_prefix(folder)?;
    let name = rest.strip_prefix(b"/")?;
    if name.contains(&b'/') {
        None
    } else {
        Some(name)
    }
}

fn comes_first(name: &[u8], other: &[u8]) -> bool
    ensures { result ≡ is_le (slice_cmp nat_cmp name.now other.now) }
{
    name.cmp(other).is_le()
}

fn place(names: &[Bytes], name: &[u8]) -> usize
    ensures value { result ≡ place_of name.now names.now }
    ensures within { result ≤ length names.now }
{
    for (k, other) in names.iter().enumerate() {
        if comes_first(name, other.as_slice()) {
            return k;
        }
    }
    names.len()
}

/// The names in the folder itself, in ascending byte order.
fn list_names(alloc: Global, files: &[MemoryFile], folder: &[u8]) -> Result<Vec<Bytes>, Memory>
    ensures { IfOk result (λ names. names.items ≡ names_in folder.now (told_files files.now)) }
{
    let mut names = Vec::new(alloc);
    let mut rest = files;
    while let [before @ .., file] = rest {
        if let Some(name) = name_of(folder, file.path.as_slice()) {
            let at = place(&names, name);
            names.insert(at, Bytes::from_slice(alloc, name)?)?;
        }
        rest = before;
    }
    Ok(names)
}

fn read_file(
    alloc: Global,
    files: &[MemoryFile],
    path: &[u8],
    limit: usize,
) -> Result<Option<Bytes>, Memory>
    ensures { IfOk result (λ bytes. bytes ≡ option_map (take limit) (file_at path.now (told_files files.now))) }
{
    match find_file(files, path) {
        None => Ok(None),
        Some(bytes) => {
            let end = bytes.len().min(limit);
            Ok(Some(Bytes::from_slice(alloc, &bytes[..end])?))
        }
    }
}

impl Files for SureFiles {
    ghost use Rattle.std.specs.Prelude.{Some};

    ghost told = { λ s. Some s };

    ghost faults = { λ _. 0 };

    fn list(&mut self, alloc: Global, folder: &str) -> Result<Items<Bytes>, FilesError> {
        let names = list_names(alloc, self.files.as_slice(), folder.as_bytes())?;
        Ok(Items::from_vec(names))
    }

    fn read(
        &mut self,
        alloc: Global,
        path: &str,
        limit: usize,
    ) -> Result<Option<Bytes>, FilesError> {
        let bytes = read_file(alloc, self.files.as_slice(), path.as_bytes(), limit)?;
        Ok(bytes)
    }
}

impl Files for MemoryFiles {
    ghost use Rattle.std.specs.Prelude.{Some};

    ghost told = { λ s. Some s.files };

    ghost faults = { λ s. s.faults };

    fn list(&mut self, alloc: Global, folder: &str) -> Result<Items<Bytes>, FilesError>
        ensures names { IfOk result (λ names. names ≡ names_in folder.now self.old.files) }
        ensures order { IfOk result (λ names. ascend names ≡ true) }
        ensures members { IfOk result (λ names. IsPermutation (found_in folder.now self.old.files) names) }
        ensures utf8 { IfOk result (λ names. list_all is_utf8 names ≡ true) }
        ensures same { self.new.files ≡ self.old.files }
        ensures cause { HasCause FilesError.Failed self.old.faults self.new.faults result }
        // It fails where it was told to, and nowhere else.
        ensures fails { IsErrOf result FilesError.Failed ↔ (is_named self.old.failing self.old.calls ≡ true) }
        ensures held { self.new ≡ called self.old }
    {
        if self.calls.next_fails() {
            return Err(FilesError::Failed);
        }
        let names = list_names(alloc, self.files.as_slice(), folder.as_bytes())?;
        Ok(Items::from_vec(names))
    }

    fn read(&mut self, alloc: Global, path: &str, limit: usize) -> Result<Option<Bytes>, FilesError>
        ensures bytes { IfOk result (λ bytes. bytes ≡ option_map (take limit) (file_at path.now self.old.files)) }
        ensures same { self.new.files ≡ self.old.files }
        ensures cause { HasCause FilesError.Failed self.old.faults self.new.faults result }
        ensures fails { IsErrOf result FilesError.Failed ↔ (is_named self.old.failing self.old.calls ≡ true) }
        ensures held { self.new ≡ called self.old }
    {
        if self.calls.next_fails() {
            return Err(FilesError::Failed);
        }
        let bytes = read_file(alloc, self.files.as_slice(), path.as_bytes(), limit)?;
        Ok(bytes)
    }
}
