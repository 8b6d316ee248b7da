//! Replies and what they say.
use crate::texts::assert_so;
use mj_fields::Bytes;
use mj_mail::{Class, Reply};
use std::alloc::Global;
use std::process::Abort;
use std::test::Fail;

/// Replies, by what they say.
const SUCCESS: [&str; 3] = ["200", "250 2.1.5 OK", "299"];

const TRANSIENT: [&str; 3] = ["400", "421 later", "499"];

const PERMANENT: [&str; 3] = ["500", "550 5.1.1  no ", "599"];

/// Texts that are no replies.
const OTHERS: [&str; 11] = [
    "", "2", "25", "100", "300", "354 go", "600", "2x0", "250OK", "250-OK", "250 a\tb",
];

const GROUPS: [(&[&str], Option<Class>); 4] = [
    (&SUCCESS, Some(Class::Success)),
    (&TRANSIENT, Some(Class::Transient)),
    (&PERMANENT, Some(Class::Permanent)),
    (&OTHERS, None),
];

/// What a text says as a reply.
fn class_of(alloc: Global, text: &str) -> Option<Class> {
    Some(Reply::read(alloc, text.as_bytes()).ok()?.class())
}

/// Fails where one of these texts says something else.
fn assert_class(rt: &(impl Abort + AllocGlobal), texts: &[&str], want: Option<Class>) {
    for text in texts {
        assert_so(rt, class_of(rt.alloc(), text) == want, text);
    }
}

#[test]
fn classes(rt: HostRuntime) -> Result<(), Fail> {
    for (texts, want) in GROUPS {
        assert_class(&rt, texts, want);
    }
    Ok(())
}

/// Whether a reply is written as it was read.
fn is_written(alloc: Global, text: &str) -> Result<bool, Fail> {
    let reply = Reply::read(alloc, text.as_bytes())?;
    let mut out = Bytes::new(alloc);
    reply.put(alloc, &mut out)?;
    Ok(out.as_slice() == text.as_bytes())
}

/// Fails where one of these replies is written in another way.
fn assert_written(rt: &(impl Abort + AllocGlobal), texts: &[&str]) -> Result<(), Fail> {
    for text in texts {
        assert_so(rt, is_written(rt.alloc(), text)?, text);
    }
    Ok(())
}

#[test]
fn written(rt: HostRuntime) -> Result<(), Fail> {
    assert_written(&rt, &SUCCESS)?;
    assert_written(&rt, &TRANSIENT)?;
    assert_written(&rt, &PERMANENT)
}
