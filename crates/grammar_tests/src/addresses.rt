//! Domains, addresses and lists of recipients, at their limits.
use crate::texts::{Copied, assert_so, repeated};
use mj_address::{Address, AddressFault, Domain, Recipients};
use std::alloc::{AllocError, Global};
use std::process::Abort;
use std::test::Fail;

fn is_domain(alloc: Global, text: &[u8]) -> bool {
    match Domain::read(alloc, text) {
        Ok(domain) => domain.as_slice() == text,
        Err(_) => false,
    }
}

fn is_domain_of_fault(alloc: Global, text: &[u8], fault: AddressFault) -> bool {
    Domain::read(alloc, text).err() == Some(fault)
}

fn is_address_of_fault(alloc: Global, text: &[u8], fault: AddressFault) -> bool {
    Address::read(alloc, text).err() == Some(fault)
}

fn assert_refused(rt: &(impl Abort + AllocGlobal), texts: &[&str], fault: AddressFault) {
    for text in texts {
        assert_so(
            rt,
            is_address_of_fault(rt.alloc(), text.as_bytes(), fault),
            text,
        );
    }
}

const DOMAINS: [&str; 5] = ["a", "example.org", "a-b.c--d.9", "1.2.3.4", "A.b"];

const BAD_DOMAINS: [&str; 15] = [
    "",
    ".",
    "a.",
    ".a",
    "a..b",
    "-",
    "-a",
    "a-",
    "a.-b",
    "a-.b",
    "a_b",
    "a b",
    "a@b",
    "a\u{e9}",
    "[1.2.3.4]",
];

#[test]
fn reads_domains(rt: HostRuntime) {
    let alloc = rt.alloc();
    for text in DOMAINS {
        assert_so(&rt, is_domain(alloc, text.as_bytes()), text);
    }
    for text in BAD_DOMAINS {
        let is_bad = is_domain_of_fault(alloc, text.as_bytes(), AddressFault::BadDomain);
        assert_so(&rt, is_bad, text);
    }
}

/// A label of 63 bytes, and the dot behind it.
const LABEL: &str = "ddddddddddddddddddddddddddddddddddddddddddddddddddddddddddddddd.";

/// Long domains, and their faults.
const LONG_DOMAINS: [(Copied, Option<AddressFault>); 5] = [
    (("d", 63, ".x"), None),
    (("d", 64, ".x"), Some(AddressFault::BadDomain)),
    (("-", 256, ""), Some(AddressFault::DomainTooLong)),
    (
        (
            LABEL,
            3,
            "ddddddddddddddddddddddddddddddddddddddddddddddddddddddddddddddd",
        ),
        None,
    ),
    ((LABEL, 4, ""), Some(AddressFault::DomainTooLong)),
];

fn fault_of_domain(alloc: Global, text: Copied) -> Result<Option<AddressFault>, AllocError> {
    Ok(Domain::read(alloc, &repeated(alloc, text)?).err())
}

#[test]
fn reads_long_domains(rt: HostRuntime) -> Result<(), Fail> {
    for (text, fault) in LONG_DOMAINS {
        assert_so(&rt, fault_of_domain(rt.alloc(), text)? == fault, text.0);
    }
    Ok(())
}

/// Addresses with long local parts, and their faults.
const LONG_ADDRESSES: [(Copied, Option<AddressFault>); 4] = [
    (("a", 64, "@x.test"), None),
    (("a", 65, "@x.test"), Some(AddressFault::LocalTooLong)),
    (("@", 65, ""), Some(AddressFault::BadLocal)),
    (("@", 66, ""), Some(AddressFault::LocalTooLong)),
];

fn fault_of_address(alloc: Global, text: Copied) -> Result<Option<AddressFault>, AllocError> {
    Ok(Address::read(alloc, &repeated(alloc, text)?).err())
}

#[test]
fn reads_long_local_parts(rt: HostRuntime) -> Result<(), Fail> {
    for (text, fault) in LONG_ADDRESSES {
        assert_so(&rt, fault_of_address(rt.alloc(), text)? == fault, text.0);
    }
    Ok(())
}

const WITHOUT_AT: [&str; 2] = ["", "ann"];

const BAD_LOCALS: [&str; 10] = [
    "@",
    "@x",
    "\"a b\"@x.test",
    "a..b@x.test",
    ".a@x",
    "a.@x",
    "a@b@c",
    "\u{e9}@x",
    "a\u{7f}@x",
    "a b@-",
];

const AT_BAD_DOMAINS: [&str; 5] = ["a@", "a@x.", "a@-x", "a@[1.2.3.4]", "a@x\r\n"];

#[test]
fn refuses_addresses(rt: HostRuntime) {
    assert_refused(&rt, &WITHOUT_AT, AddressFault::NoAt);
    assert_refused(&rt, &BAD_LOCALS, AddressFault::BadLocal);
    assert_refused(&rt, &AT_BAD_DOMAINS, AddressFault::BadDomain);
}

fn is_spelled(found: &Address, local: &str, domain: &str) -> bool {
    found.local() == local.as_bytes() && found.domain().as_slice() == domain.as_bytes()
}

/// Whether a copy of the address has these parts.
fn has_parts(alloc: Global, text: &str, local: &str, domain: &str) -> Result<bool, Fail> {
    let address = Address::read(alloc, text.as_bytes())?.copy(alloc)?;
    Ok(is_spelled(&address, local, domain))
}

/// Whether the address is written so, behind a `<`.
fn is_written_as(alloc: Global, text: &str, want: &[u8]) -> Result<bool, Fail> {
    let address = Address::read(alloc, text.as_bytes())?;
    let mut out = vec![in alloc; b'<']?;
    address.write_to(&mut out)?;
    Ok(out.as_slice() == want && address.written_len() + 1 == want.len())
}

/// An address, its local part, and its domain.
const SPELLED: [(&str, &str, &str); 2] = [
    ("!#$%&'*+-/=?^_`{|}~.0Z@x", "!#$%&'*+-/=?^_`{|}~.0Z", "x"),
    ("Ann@Example.org", "Ann", "Example.org"),
];

#[test]
fn keeps_the_spelling(rt: HostRuntime) -> Result<(), Fail> {
    for (text, local, domain) in SPELLED {
        assert_so(&rt, has_parts(rt.alloc(), text, local, domain)?, text);
    }
    assert_so(
        &rt,
        is_written_as(rt.alloc(), "Ann@Example.org", b"<Ann@Example.org")?,
        "the written address",
    );
    Ok(())
}

/// Whether the two are the same, and whether they are equal.
fn compared(alloc: Global, text: &str, other: &str) -> Result<[bool; 2], Fail> {
    let address = Address::read(alloc, text.as_bytes())?;
    let other = Address::read(alloc, other.as_bytes())?;
    Ok([address.same(&other), address == other])
}

/// Whether a copy of the domain is the same as the other.
fn are_same_domains(alloc: Global, text: &str, other: &str) -> Result<bool, Fail> {
    let domain = Domain::read(alloc, text.as_bytes())?.copy(alloc)?;
    Ok(domain.same(&Domain::read(alloc, other.as_bytes())?))
}

/// Addresses, and whether each is the same as `Ann^@Example.org`. `^` and `~` differ by the bit of case, and are no letters.
const COMPARED: [(&str, bool); 5] = [
    ("ann^@example.ORG", true),
    ("ann~@example.org", false),
    ("ann^^@example.org", false),
    ("ann^@example.net", false),
    ("ann^@example.or", false),
];

#[test]
fn compares_without_case(rt: HostRuntime) -> Result<(), Fail> {
    for (text, same) in COMPARED {
        assert_so(
            &rt,
            compared(rt.alloc(), "Ann^@Example.org", text)? == [same, same],
            text,
        );
    }
    let are_same = are_same_domains(rt.alloc(), "Example.org", "EXAMPLE.ORG")?;
    assert_so(&rt, are_same, "domains in another case");
    Ok(())
}

/// An address in lower case behind other text, with its local part alone in lower case, and at another domain.
fn respelled(alloc: Global) -> Result<Vec<u8>, Fail> {
    let ann = Address::read(alloc, b"Ann.Lee@Example.org")?;
    let domain = Domain::read(alloc, b"New.test")?;
    let mut text = Vec::from_slice(alloc, b"TO ")?;
    ann.write_lower_to(&mut text)?;
    text.push(b' ')?;
    ann.with_lower_local(alloc)?.write_to(&mut text)?;
    text.push(b' ')?;
    ann.at(alloc, &domain)?.write_to(&mut text)?;
    Ok(text)
}

const RESPELLED: &str = "TO ann.lee@example.org ann.lee@Example.org Ann.Lee@New.test";

#[test]
fn respells(rt: HostRuntime) -> Result<(), Fail> {
    let text = respelled(rt.alloc())?;
    assert_so(&rt, text.as_slice() == RESPELLED.as_bytes(), RESPELLED);
    Ok(())
}

fn add(alloc: Global, recipients: &mut Recipients, text: &str) -> Result<bool, Fail> {
    Ok(recipients.add(Address::read(alloc, text.as_bytes())?)?)
}

/// Ann under two spellings, and Bob.
fn ann_and_bob(alloc: Global) -> Result<Recipients, Fail> {
    let mut recipients = Recipients::new(alloc);
    for text in ["Ann@Example.org", "bob@example.net", "ann@example.ORG"] {
        add(alloc, &mut recipients, text)?;
    }
    Ok(recipients)
}

fn copy_of_ann_and_bob(alloc: Global) -> Result<Recipients, Fail> {
    Ok(ann_and_bob(alloc)?.copy(alloc)?)
}

fn is_at(recipients: &Recipients, place: usize, local: &str, domain: &str) -> bool {
    match recipients.get(place) {
        Some(address) => is_spelled(address, local, domain),
        None => false,
    }
}

fn assert_ann_and_bob(rt: &impl Abort, recipients: &Recipients) {
    assert_so(rt, is_at(recipients, 0, "Ann", "Example.org"), "Ann");
    assert_so(rt, is_at(recipients, 1, "bob", "example.net"), "Bob");
    assert_so(rt, recipients.get(2).is_none(), "no third");
    assert_so(
        rt,
        recipients.len() == 2 && !recipients.is_empty(),
        "two recipients",
    );
    assert_so(rt, recipients.iter().count() == 2, "two turns");
}

#[test]
fn keeps_the_first_of_the_same(rt: HostRuntime) -> Result<(), Fail> {
    assert_ann_and_bob(&rt, &ann_and_bob(rt.alloc())?);
    assert_ann_and_bob(&rt, &copy_of_ann_and_bob(rt.alloc())?);
    Ok(())
}

fn contains(alloc: Global, recipients: &Recipients, text: &str) -> Result<bool, Fail> {
    Ok(recipients.contains(&Address::read(alloc, text.as_bytes())?))
}

/// Whether Bob is found in another case, and Cara isn't.
fn finds_bob(alloc: Global, recipients: &Recipients) -> Result<bool, Fail> {
    Ok(
        contains(alloc, recipients, "BOB@example.net")?
            && !contains(alloc, recipients, "cara@example.net")?,
    )
}

#[test]
fn finds_recipients(rt: HostRuntime) -> Result<(), Fail> {
    let is_found = finds_bob(rt.alloc(), &ann_and_bob(rt.alloc())?)?;
    assert_so(&rt, is_found, "Bob and Cara");
    Ok(())
}

/// Adds the recipient of this number, and answers whether it is a new one.
fn add_number(alloc: Global, recipients: &mut Recipients, number: u32) -> Result<bool, Fail> {
    let text = format!(in alloc; "u{number}@example.org")?;
    add(alloc, recipients, text.as_str())
}

/// Adds 500 recipients twice, and answers whether each was new the first time alone.
fn adds_each_once(alloc: Global, recipients: &mut Recipients) -> Result<bool, Fail> {
    let mut all = true;
    for number in 0..1000u32 {
        all &= add_number(alloc, recipients, number % 500)? == (number < 500);
    }
    Ok(all)
}

#[test]
fn takes_many_recipients(rt: HostRuntime) -> Result<(), Fail> {
    let mut recipients = Recipients::new(rt.alloc());
    assert_so(&rt, adds_each_once(rt.alloc(), &mut recipients)?, "each");
    assert_so(&rt, recipients.len() == 500, "all");
    Ok(())
}

/// Adds Ann in another case, Cara, and Cara in another case, and answers which were new.
fn add_three(alloc: Global, recipients: &mut Recipients) -> Result<[bool; 3], Fail> {
    let ann = add(alloc, recipients, "ANN@example.org")?;
    let cara = add(alloc, recipients, "cara@example.net")?;
    let again = add(alloc, recipients, "Cara@Example.net")?;
    Ok([ann, cara, again])
}

#[test]
fn adds_to_a_copy(rt: HostRuntime) -> Result<(), Fail> {
    let mut recipients = copy_of_ann_and_bob(rt.alloc())?;
    assert_so(&rt, finds_bob(rt.alloc(), &recipients)?, "Bob in the copy");
    let are_new = add_three(rt.alloc(), &mut recipients)?;
    assert_so(&rt, are_new == [false, true, false], "Cara is new, once");
    assert_so(&rt, recipients.len() == 3, "three recipients");
    assert_so(&rt, is_at(&recipients, 0, "Ann", "Example.org"), "Ann");
    assert_so(&rt, is_at(&recipients, 2, "cara", "example.net"), "Cara");
    Ok(())
}

/// Ann, Bob and Cara.
fn three(alloc: Global) -> Result<Recipients, Fail> {
    let mut recipients = ann_and_bob(alloc)?;
    add(alloc, &mut recipients, "cara@example.net")?;
    Ok(recipients)
}

/// Whether these are all, with a comma behind each.
fn are_written_as(alloc: Global, recipients: &Recipients, want: &str) -> Result<bool, Fail> {
    let mut text = Vec::new(alloc);
    for address in recipients.as_slice() {
        address.write_to(&mut text)?;
        text.push(b',')?;
    }
    Ok(text.as_slice() == want.as_bytes())
}

/// Whether the mask takes and leaves these.
fn is_split_into(
    alloc: Global,
    recipients: Recipients,
    (mask, taken, left): (&[bool], &str, &str),
) -> Result<bool, Fail> {
    if mask.len() != recipients.len() {
        return Ok(false);
    }
    let (first, second) = recipients.split(alloc, mask)?;
    Ok(are_written_as(alloc, &first, taken)? && are_written_as(alloc, &second, left)?)
}

/// Masks over Ann, Bob and Cara, whom they take, and whom they leave.
const SPLITS: [([bool; 3], &str, &str); 4] = [
    (
        [true, true, true],
        "Ann@Example.org,bob@example.net,cara@example.net,",
        "",
    ),
    (
        [false, false, false],
        "",
        "Ann@Example.org,bob@example.net,cara@example.net,",
    ),
    (
        [true, false, true],
        "Ann@Example.org,cara@example.net,",
        "bob@example.net,",
    ),
    (
        [false, true, false],
        "bob@example.net,",
        "Ann@Example.org,cara@example.net,",
    ),
];

#[test]
fn splits_recipients(rt: HostRuntime) -> Result<(), Fail> {
    let alloc = rt.alloc();
    for (mask, taken, left) in SPLITS {
        let want = (mask.as_slice(), taken, left);
        assert_so(&rt, is_split_into(alloc, three(alloc)?, want)?, taken);
        let copy = three(alloc)?.copy(alloc)?;
        assert_so(&rt, is_split_into(alloc, copy, want)?, left);
    }
    Ok(())
}

/// The recipients but for Bob, who is the second of them.
fn without_bob(alloc: Global) -> Result<Recipients, Fail> {
    let recipients = three(alloc)?;
    let mask = [true, false, true];
    if mask.len() != recipients.len() {
        return Ok(recipients);
    }
    Ok(recipients.split(alloc, &mask)?.0)
}

#[test]
fn adds_to_a_part(rt: HostRuntime) -> Result<(), Fail> {
    let mut recipients = without_bob(rt.alloc())?;
    let are_new = add_three(rt.alloc(), &mut recipients)?;
    assert_so(&rt, are_new == [false, false, false], "who is taken");
    let is_new = add(rt.alloc(), &mut recipients, "bob@example.net")?;
    assert_so(&rt, is_new, "Bob, who was left");
    assert_so(&rt, is_at(&recipients, 2, "bob", "example.net"), "the end");
    Ok(())
}
