//! Long texts, and what the tests of this crate share.
use std::alloc::{AllocError, Global};
use std::process::Abort;

/// A text, how many copies of it there are, and the rest.
pub(crate) type Copied = (&'static str, usize, &'static str);

/// So many copies of the text, and the rest.
pub(crate) fn repeated(alloc: Global, (unit, count, rest): Copied) -> Result<Vec<u8>, AllocError> {
    let mut text = Vec::new(alloc);
    for _ in 0..count {
        text.extend_from_slice(unit.as_bytes())?;
    }
    text.extend_from_slice(rest.as_bytes())?;
    Ok(text)
}

/// Fails where it isn't so. The case is what is looked at.
pub(crate) fn assert_so(rt: &impl Abort, is_so: bool, case: &str) {
    assert!(rt; is_so, "at {case}");
}
