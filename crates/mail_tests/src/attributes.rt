use crate::rows::assert_so;
use mj_fields::Memory;
use mj_mail::{Attributes, MAX_ATTRIBUTES};
use std::alloc::Global;
use std::process::Abort;
use std::test::Fail;

/// A change of attributes.
enum Change {
    Set(&'static str, &'static str),
    Remove(&'static str),
    Clear,
}

/// Makes the change, and says whether it was taken.
fn make(alloc: Global, attributes: &mut Attributes, change: &Change) -> Result<bool, Memory> {
    match change {
        Change::Set(name, value) => attributes.set(alloc, name.as_bytes(), value.as_bytes()),
        Change::Remove(name) => {
            attributes.remove(name.as_bytes());
            Ok(true)
        }
        Change::Clear => {
            attributes.clear();
            Ok(true)
        }
    }
}

/// Whether these are all attributes, in order: names and values.
fn are(attributes: &Attributes, want: &[(&str, &str)]) -> bool {
    for (k, (name, value)) in want.iter().enumerate() {
        if attributes.at(k) != Some((name.as_bytes(), value.as_bytes())) {
            return false;
        }
    }
    attributes.len() == want.len()
}

/// Changes one after the other, and the attributes that then stand.
const CHANGES: [(Change, &[(&str, &str)]); 11] = [
    (Change::Remove("b"), &[]),
    (Change::Set("b", "1"), &[("b", "1")]),
    (Change::Set("ba", "2"), &[("b", "1"), ("ba", "2")]),
    (Change::Set("a", ""), &[("a", ""), ("b", "1"), ("ba", "2")]),
    (
        Change::Set("B", "3"),
        &[("B", "3"), ("a", ""), ("b", "1"), ("ba", "2")],
    ),
    (
        Change::Set("b", "longer"),
        &[("B", "3"), ("a", ""), ("b", "longer"), ("ba", "2")],
    ),
    (
        Change::Remove("c"),
        &[("B", "3"), ("a", ""), ("b", "longer"), ("ba", "2")],
    ),
    (
        Change::Remove("a"),
        &[("B", "3"), ("b", "longer"), ("ba", "2")],
    ),
    (
        Change::Set("z", "4"),
        &[("B", "3"), ("b", "longer"), ("ba", "2"), ("z", "4")],
    ),
    (Change::Clear, &[]),
    (Change::Set("a", "5"), &[("a", "5")]),
];

/// Whether the change is taken, and leaves these attributes, as a copy of them says too.
fn changes(
    alloc: Global,
    attributes: &mut Attributes,
    change: &Change,
    want: &[(&str, &str)],
) -> Result<bool, Memory> {
    let is_made = make(alloc, attributes, change)?;
    let copy = attributes.copy(alloc)?;
    Ok(is_made && are(attributes, want) && are(&copy, want))
}

#[test]
fn changes_and_what_then_stands(rt: HostRuntime) -> Result<(), Fail> {
    let mut attributes = Attributes::new(rt.alloc());
    assert_so(&rt, attributes.is_empty(), "the first");
    for (k, (change, want)) in CHANGES.iter().enumerate() {
        let is_so = changes(rt.alloc(), &mut attributes, change, want)?;
        assert!(rt; is_so, "at {k}");
    }
    Ok(())
}

/// A name of two digits.
fn two_digits(k: u8) -> [u8; 2] {
    [b'0' + k / 10 % 10, b'0' + k % 10]
}

/// Sets a hundred attributes, and says whether each was taken.
fn fill(alloc: Global, attributes: &mut Attributes) -> Result<bool, Memory> {
    let mut all = true;
    for k in 0..100u8 {
        all &= attributes.set(alloc, &two_digits(99 - k), &[k])?;
    }
    Ok(all)
}

/// Whether there is room for no other name, and the value of each of the hundred may be changed.
fn is_full(alloc: Global, attributes: &mut Attributes) -> Result<bool, Memory> {
    let is_one_more = attributes.set(alloc, b"100", b"")?;
    let is_changed = attributes.set(alloc, b"07", b"new")?;
    Ok(!is_one_more && is_changed && attributes.len() == MAX_ATTRIBUTES)
}

fn check_full(rt: &impl Abort, attributes: &Attributes) {
    assert_so(rt, attributes.len() == 100, "a hundred");
    assert_so(rt, attributes.get(b"100").is_none(), "none of them");
    assert_so(rt, attributes.at(100).is_none(), "none behind them");
    assert_so(rt, attributes.get(b"07") == Some(b"new".as_slice()), "07");
    assert_so(rt, attributes.get(b"08") == Some([91].as_slice()), "08");
}

/// Whether there is room for another name where one was removed.
fn is_freed(alloc: Global, attributes: &mut Attributes) -> Result<bool, Memory> {
    attributes.remove(b"00");
    let is_taken = attributes.set(alloc, b"100", b"")?;
    Ok(is_taken && attributes.get(b"100") == Some(b"".as_slice()))
}

#[test]
fn a_hundred_and_no_more(rt: HostRuntime) -> Result<(), Fail> {
    let mut attributes = Attributes::new(rt.alloc());
    assert_so(&rt, fill(rt.alloc(), &mut attributes)?, "a hundred");
    assert_so(&rt, is_full(rt.alloc(), &mut attributes)?, "no more");
    check_full(&rt, &attributes);
    assert_so(&rt, is_freed(rt.alloc(), &mut attributes)?, "one for one");
    Ok(())
}
