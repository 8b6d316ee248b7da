//! Long texts, and what the tests of this crate share.
use std::alloc::{AllocError, Global};
use std::process::Abort;

/// The front, and behind it so many of the byte.
pub(crate) fn stretched(
    alloc: Global,
    front: &[u8],
    byte: u8,
    count: usize,
) -> Result<Vec<u8>, AllocError> {
    let mut text = Vec::from_slice(alloc, front)?;
    let tail = vec![in alloc; byte; count]?;
    text.extend_from_slice(&tail)?;
    Ok(text)
}

/// Fails where it isn't so. The case is what is looked at.
pub(crate) fn assert_so(rt: &impl Abort, is_so: bool, case: &str) {
    assert!(rt; is_so, "at {case:?}");
}
