//! Bytes that no entry has.
use crate::entries::is_bad;
use crate::texts::{
    ACCEPT, ADDRESS, CHILD, DONE, HEAD, NONE, ONE, ORIGINAL, RECIPIENTS, REPLY, assert_so, joined,
};
use std::alloc::Global;
use std::test::Fail;

/// A number of four bytes that is as great as can be.
const MOST: &[u8] = b"\xff\xff\xff\xff";

/// What stands in front of a child's attributes, and what stands behind them.
const BEFORE: &[&[u8]] = &[DONE, NONE, NONE, ONE, CHILD, b"\0", RECIPIENTS];

const BEHIND: &[&[u8]] = &[b"\0", b"\x04\0\0\0root", NONE, HEAD, ORIGINAL, LAST];

/// Its hops, and when it is due.
const LAST: &[u8] = b"\x01\0\0\0\0\0\0\0\0\0\0\0";

/// No bytes, an unknown kind, and lengths and counts with nothing behind them.
const FRONTS: [&[&[u8]]; 8] = [
    &[],
    &[b"\x03", b"\x04\0\0\0plan"],
    &[b"\xff"],
    &[b"\0", MOST],
    &[ACCEPT, b"\0", MOST],
    &[ACCEPT, b"\0", RECIPIENTS, MOST],
    &[b"\x02", b"\x07\0\0\0\0\0\0\0", MOST],
    &[DONE, MOST],
];

/// An envelope or a head of another form: an option of 2, no recipient, an empty local part, an address twice in other
/// case, no domain, a field without a name, and a line that a field doesn't continue.
const NEW_MAILS: [&[&[u8]]; 7] = [
    &[ACCEPT, b"\x02", ADDRESS, RECIPIENTS, NONE, NONE],
    &[ACCEPT, b"\0", NONE, NONE, NONE],
    &[ACCEPT, b"\0", ONE, b"\0\0\0\0\x03\0\0\0b.c", NONE, NONE],
    &[
        ACCEPT,
        b"\0",
        b"\x02\0\0\0",
        ADDRESS,
        b"\x01\0\0\0A\x03\0\0\0B.c",
        NONE,
        NONE,
    ],
    &[ACCEPT, b"\0", ONE, b"\x01\0\0\0a\0\0\0\0", NONE, NONE],
    &[ACCEPT, b"\0", RECIPIENTS, ONE, b"\0\0\0\0\x01\0\0\0x", NONE],
    &[
        ACCEPT,
        b"\0",
        RECIPIENTS,
        ONE,
        b"\x02\0\0\0To\x03\0\0\0a\nb",
        NONE,
    ],
];

/// Steps with a reply of the code 300, a text of a reply that can't be printed, an unknown kind of fact, another cause, a fact
/// about no recipient, and a host that is no domain.
const STEPS: [&[&[u8]]; 6] = [
    &[DONE, ONE, b"\x2c\x01\0\0\0\0", NONE, NONE],
    &[DONE, ONE, b"\xfa\0\x01\0\0\0\x7f", NONE, NONE],
    &[DONE, NONE, ONE, b"\x08", RECIPIENTS, NONE],
    &[DONE, NONE, ONE, b"\x04", b"\x02", RECIPIENTS, NONE],
    &[DONE, NONE, ONE, b"\x06", NONE, NONE],
    &[
        DONE,
        NONE,
        ONE,
        b"\x01",
        b"\x01\0\0\0-",
        ADDRESS,
        REPLY,
        NONE,
    ],
];

/// Children with an unknown stage, an unknown body, and a host that is no domain.
const CHILDREN: [&[&[u8]]; 3] = [
    &[b"\x02", b"\x04\0\0\0root", NONE, HEAD, ORIGINAL, LAST],
    &[
        b"\0",
        b"\x04\0\0\0root",
        NONE,
        HEAD,
        b"\x02\x02\0\0\0hi",
        LAST,
    ],
    &[
        b"\x01",
        b"\x03\0\0\0out",
        b"\x01\0\0\0-",
        b"\x01\0\0\0",
        NONE,
        HEAD,
        ORIGINAL,
        LAST,
    ],
];

/// Attributes out of order, and one twice.
const ATTRIBUTES: [&[u8]; 2] = [
    b"\x02\0\0\0\x01\0\0\0b\0\0\0\0\x01\0\0\0a\0\0\0\0",
    b"\x02\0\0\0\x01\0\0\0a\0\0\0\0\x01\0\0\0a\0\0\0\0",
];

/// Bytes of each group.
const GROUPS: [&[&[&[u8]]]; 3] = [&FRONTS, &NEW_MAILS, &STEPS];

fn are_bad(alloc: Global, parts: &[&[u8]]) -> Result<bool, Fail> {
    let bytes = joined(alloc, parts)?;
    Ok(is_bad(alloc, &bytes))
}

#[test]
fn whole_entries(rt: HostRuntime) -> Result<(), Fail> {
    for group in GROUPS {
        for (k, parts) in group.iter().enumerate() {
            assert_so(&rt, are_bad(rt.alloc(), parts)?, k);
        }
    }
    Ok(())
}

/// The step with a child of these attributes, and of what stands behind them.
fn child(alloc: Global, attributes: &[u8], behind: &[&[u8]]) -> Result<Vec<u8>, Fail> {
    let mut bytes = joined(alloc, BEFORE)?;
    bytes.extend_from_slice(attributes)?;
    bytes.extend_from_slice(&joined(alloc, behind)?)?;
    Ok(bytes)
}

/// So many attributes, each of a name of two bytes and an empty value.
fn attributes(alloc: Global, count: u8) -> Result<Vec<u8>, Fail> {
    let mut bytes = Vec::new(alloc);
    bytes.extend_from_slice(&[count, 0, 0, 0])?;
    for k in 0..count {
        bytes.extend_from_slice(&[2, 0, 0, 0, b'0' + k / 10, b'0' + k % 10, 0, 0, 0, 0])?;
    }
    Ok(bytes)
}

/// Whether a child may not have so many attributes.
fn are_too_many(alloc: Global, count: u8) -> Result<bool, Fail> {
    let bytes = child(alloc, &attributes(alloc, count)?, BEHIND)?;
    Ok(is_bad(alloc, &bytes))
}

#[test]
fn children(rt: HostRuntime) -> Result<(), Fail> {
    for (k, behind) in CHILDREN.iter().enumerate() {
        let bytes = child(rt.alloc(), NONE, behind)?;
        assert_so(&rt, is_bad(rt.alloc(), &bytes), k);
    }
    Ok(())
}

#[test]
fn attributes_of_another_form(rt: HostRuntime) -> Result<(), Fail> {
    for (k, pairs) in ATTRIBUTES.iter().enumerate() {
        let bytes = child(rt.alloc(), pairs, BEHIND)?;
        assert_so(&rt, is_bad(rt.alloc(), &bytes), k);
    }
    assert_so(&rt, !are_too_many(rt.alloc(), 100)?, 100);
    assert_so(&rt, are_too_many(rt.alloc(), 101)?, 101);
    Ok(())
}
