//! What the tests share.
use mj_answers::{Answers, AnswersFault};
use std::alloc::Global;
use std::process::Abort;
use std::test::Fail;

/// The bytes of a file of these parts.
pub(crate) fn joined(alloc: Global, parts: &[&str]) -> Result<Vec<u8>, Fail> {
    let mut text = Vec::new(alloc);
    for part in parts {
        text.extend_from_slice(part.as_bytes())?;
    }
    Ok(text)
}

/// The fault of a file; `None` where it is taken.
pub(crate) fn fault_in(alloc: Global, text: &[u8]) -> Option<AnswersFault> {
    Answers::read(alloc, text).err()
}

/// Fails where it isn't so. The case is what is looked at.
pub(crate) fn assert_so(rt: &impl Abort, is_so: bool, case: &str) {
    assert!(rt; is_so, "at {case:?}");
}
