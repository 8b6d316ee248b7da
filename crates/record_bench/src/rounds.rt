//! Writing and reading an entry many times.
ghost use Rattle.std.specs.Prelude.{◌≡◌, true};
ghost use Rattle.mj_entry_write.specs.Whole.{is_whole};

use mj_fields::Bytes;
use mj_mail::{Entry, MAX_PAYLOAD};
use mj_record::{EntryFault, entry_len, read_entry, write_entry};
use std::alloc::Global;

/// The entry as bytes. One of more than [`MAX_PAYLOAD`] bytes is `Bad`.
pub(crate) fn written(alloc: Global, entry: &Entry) -> Result<Bytes, EntryFault>
    requires { is_whole entry.now ≡ true }
{
    if entry_len(entry) > MAX_PAYLOAD {
        return Err(EntryFault::Bad);
    }
    Ok(write_entry(alloc, entry)?)
}

/// Whether the bytes of an entry are read to one that is written to the same bytes.
#[tactic(auto, using(mj_entry_write::proofs::Whole::whole))]
pub(crate) fn is_same(alloc: Global, bytes: &[u8]) -> Result<bool, EntryFault> {
    let entry = read_entry(alloc, bytes)?;
    is_written_as(alloc, &entry, bytes)
}

/// Whether the entry is written to these bytes.
fn is_written_as(alloc: Global, entry: &Entry, bytes: &[u8]) -> Result<bool, EntryFault>
    requires { is_whole entry.now ≡ true }
{
    let again = written(alloc, entry)?;
    Ok(again.as_slice() == bytes)
}

/// The bytes of an entry that is read again from them; else it is `Bad`.
fn checked(alloc: Global, entry: &Entry) -> Result<Bytes, EntryFault>
    requires { is_whole entry.now ≡ true }
{
    let bytes = written(alloc, entry)?;
    if !is_same(alloc, bytes.as_slice())? {
        return Err(EntryFault::Bad);
    }
    Ok(bytes)
}

/// Sees that the entry is read again, and writes it so many times.
pub(crate) fn write_again(alloc: Global, entry: &Entry, count: u64) -> Result<(), EntryFault>
    requires { is_whole entry.now ≡ true }
{
    let _bytes = checked(alloc, entry)?;
    for _ in 0..count {
        let _written = written(alloc, entry)?;
    }
    Ok(())
}

/// Sees that the entry is read again, and reads it so many times.
pub(crate) fn read_again(alloc: Global, entry: &Entry, count: u64) -> Result<(), EntryFault>
    requires { is_whole entry.now ≡ true }
{
    let bytes = checked(alloc, entry)?;
    for _ in 0..count {
        let _entry = read_entry(alloc, bytes.as_slice())?;
    }
    Ok(())
}
