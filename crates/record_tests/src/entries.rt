//! Entries that are written and read.
ghost use Rattle.std.specs.Prelude.{◌≡◌, true};
ghost use Rattle.mj_entry_write.specs.Whole.{is_whole};

use crate::samples::{SAMPLES, Sample, entry_of};
use crate::texts::{assert_so, joined};
use mj_fields::{Bytes, Memory};
use mj_mail::{Entry, MAX_PAYLOAD};
use mj_record::{EntryFault, entry_len, read_entry, write_entry};
use std::alloc::Global;
use std::process::Abort;
use std::test::Fail;

/// Whether the entry has these bytes: it is written to them, and its length is theirs.
fn has(alloc: Global, entry: &Entry, bytes: &[u8]) -> Result<bool, Memory>
    requires { is_whole entry.now ≡ true }
{
    let len = entry_len(entry);
    if len > MAX_PAYLOAD {
        return Ok(false);
    }
    let written: Bytes = write_entry(alloc, entry)?;
    Ok(written.as_slice() == bytes && len == bytes.len() as u64)
}

/// Whether a copy of the entry has these bytes.
fn has_copied(alloc: Global, entry: &Entry, bytes: &[u8]) -> Result<bool, Memory>
    requires { is_whole entry.now ≡ true }
{
    let copy = entry.copy(alloc)?;
    has(alloc, &copy, bytes)
}

/// Whether these are the bytes of the sample, and of a copy of it.
fn is_written(alloc: Global, sample: Sample, bytes: &[u8]) -> Result<bool, Fail> {
    let entry = entry_of(alloc, sample)?;
    Ok(has(alloc, &entry, bytes)? && has_copied(alloc, &entry, bytes)?)
}

/// Whether the bytes are an entry, which has the same bytes again.
#[tactic(auto, using(mj_entry_write::proofs::Whole::whole))]
fn is_read(alloc: Global, bytes: &[u8]) -> Result<bool, Fail> {
    match read_entry(alloc, bytes) {
        Ok(entry) => Ok(has(alloc, &entry, bytes)?),
        Err(_) => Ok(false),
    }
}

/// Whether no entry has these bytes.
pub(crate) fn is_bad(alloc: Global, bytes: &[u8]) -> bool {
    matches!(read_entry(alloc, bytes), Err(EntryFault::Bad))
}

#[test]
fn written_and_read(rt: HostRuntime) -> Result<(), Fail> {
    for (k, (sample, parts)) in SAMPLES.iter().enumerate() {
        let bytes = joined(rt.alloc(), parts)?;
        assert_so(&rt, is_written(rt.alloc(), *sample, &bytes)?, k);
        assert_so(&rt, is_read(rt.alloc(), &bytes)?, k);
    }
    Ok(())
}

/// Fails where a front of these bytes is an entry, the whole of them aside.
fn assert_fronts(rt: &(impl Abort + AllocGlobal), bytes: &[u8]) {
    for len in 0..bytes.len() {
        assert_so(rt, is_bad(rt.alloc(), &bytes[..len]), len);
    }
}

#[test]
fn fronts(rt: HostRuntime) -> Result<(), Fail> {
    for (_, parts) in &SAMPLES {
        let bytes = joined(rt.alloc(), parts)?;
        assert_fronts(&rt, &bytes);
    }
    Ok(())
}

#[test]
fn byte_behind(rt: HostRuntime) -> Result<(), Fail> {
    for (k, (_, parts)) in SAMPLES.iter().enumerate() {
        let mut bytes = joined(rt.alloc(), parts)?;
        bytes.push(0)?;
        assert_so(&rt, is_bad(rt.alloc(), &bytes), k);
    }
    Ok(())
}
