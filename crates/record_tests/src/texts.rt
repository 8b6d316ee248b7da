//! What the tests share: items of entries as bytes.
use std::alloc::Global;
use std::process::Abort;
use std::test::Fail;

/// An empty string, or a list of no items.
pub(crate) const NONE: &[u8] = b"\0\0\0\0";

/// How many items a list of one has.
pub(crate) const ONE: &[u8] = b"\x01\0\0\0";

/// The address `a@b.c`, it alone as the recipients of a mail, and its domain.
pub(crate) const ADDRESS: &[u8] = b"\x01\0\0\0a\x03\0\0\0b.c";

pub(crate) const RECIPIENTS: &[u8] = b"\x01\0\0\0\x01\0\0\0a\x03\0\0\0b.c";

pub(crate) const HOST: &[u8] = b"\x03\0\0\0b.c";

/// The head of one field `To: x`.
pub(crate) const HEAD: &[u8] = b"\x01\0\0\0\x02\0\0\0To\x02\0\0\0 x";

/// The body with which mail 7 came in, of 1,000 bytes, and one of two bytes that was made.
pub(crate) const ORIGINAL: &[u8] = b"\0\x07\0\0\0\0\0\0\0\xe8\x03\0\0";

pub(crate) const MADE: &[u8] = b"\x01\x02\0\0\0hi";

/// The reply `250 ok`.
pub(crate) const REPLY: &[u8] = b"\xfa\0\x02\0\0\0ok";

/// The front of the entry that mail 7 was accepted from the file `a.mail`, and of the one that it took its step.
pub(crate) const ACCEPT: &[u8] = b"\x01\x07\0\0\0\0\0\0\0\x06\0\0\0a.mail";

pub(crate) const DONE: &[u8] = b"\x02\x07\0\0\0\0\0\0\0\0\0\0\0";

/// The name of its first child.
pub(crate) const CHILD: &[u8] = b"\x07\0\0\0\0\0\0\0\x01\0\0\0\x01\0\0\0";

/// These parts, one behind the other.
pub(crate) fn joined(alloc: Global, parts: &[&[u8]]) -> Result<Vec<u8>, Fail> {
    let mut bytes = Vec::new(alloc);
    for part in parts {
        bytes.extend_from_slice(part)?;
    }
    Ok(bytes)
}

/// Fails where it isn't so. The number is that of the case.
pub(crate) fn assert_so(rt: &impl Abort, is_so: bool, number: usize) {
    assert!(rt; is_so, "at {number}");
}
