//! What mappings make of an address, and of recipients.
use crate::plans::{assert_resolved, assert_rewritten, plan_of};
use std::alloc::{AllocError, Global};
use std::test::Fail;

const MAPPINGS: &str = r#"rewrite = [
    { from = "ann@example.org", to = ["bob@example.org", "ann@example.org", "carl@old.test"] },
    { domain = "old.test", to_domain = "new.test" },
    { from = "gone@example.org", error = "5.1.6 moved away" },
    { from = "staff@example.org", to = ["dan@example.org", "gone@example.org"] },
    { from = "dan@example.org", to = ["DAN@example.org"] },
    { from = "both@example.org", to = ["Eve@example.org", "dan@example.org", "eve@EXAMPLE.org"] },
    { from = "ping@example.org", to = ["pong@example.org"] },
    { from = "pong@example.org", to = ["ping@example.org"] },
    { from = "ann@first.test", to = ["one@example.org"] },
    { domain = "first.test", to_domain = "second.test" },
    { from = "ann@second.test", to = ["two@example.org"] },
    { domain = "third.test", to_domain = "fourth.test" },
    { from = "ann@third.test", to = ["three@example.org"] },
    { from = "bob@example.net", to = ["four@example.org"] },
    { from = "BOB@example.net", to = ["five@example.org"] },
    { domain = "same.test", to_domain = "SAME.test" },
    { from = "c0@chain.test", to = ["c1@chain.test"] },
    { from = "c1@chain.test", to = ["c2@chain.test"] },
    { from = "c2@chain.test", to = ["c3@chain.test"] },
    { from = "c3@chain.test", to = ["c4@chain.test"] },
    { from = "c4@chain.test", to = ["c5@chain.test"] },
    { from = "c5@chain.test", to = ["c6@chain.test"] },
    { from = "c6@chain.test", to = ["c7@chain.test"] },
    { from = "c7@chain.test", to = ["c8@chain.test"] },
    { from = "c8@chain.test", to = ["c9@chain.test"] },
    { from = "c9@chain.test", to = ["c10@chain.test"] },
    # The eleventh.
    { from = "c10@chain.test", to = ["c11@chain.test"] },
]
"#;

/// Addresses, and what they become.
const RESOLVED: [(&str, &str); 17] = [
    ("zed@example.org", "zed@example.org"),
    ("Zed@Old.test", "Zed@new.test"),
    (
        "ann@example.org",
        "bob@example.org ann@example.org carl@new.test",
    ),
    (
        "ANN@Example.org",
        "bob@example.org ann@example.org carl@new.test",
    ),
    ("gone@example.org", "!5.1.6 moved away"),
    ("staff@example.org", "!5.1.6 moved away"),
    ("dan@example.org", "DAN@example.org"),
    ("both@example.org", "Eve@example.org DAN@example.org"),
    ("ping@example.org", "!TooDeep"),
    ("pong@example.org", "!TooDeep"),
    ("ann@first.test", "one@example.org"),
    ("bob@first.test", "bob@second.test"),
    ("ann@third.test", "ann@fourth.test"),
    ("bob@example.net", "four@example.org"),
    ("ann@same.test", "ann@SAME.test"),
    ("c0@chain.test", "!TooDeep"),
    ("c1@chain.test", "c11@chain.test"),
];

#[test]
fn addresses(rt: HostRuntime) -> Result<(), Fail> {
    let plan = plan_of(rt.alloc(), MAPPINGS.as_bytes())?;
    assert_resolved(&rt, &plan, &RESOLVED)
}

/// The mappings without the last.
fn without_the_eleventh(alloc: Global) -> Result<Vec<u8>, AllocError> {
    let front = match MAPPINGS.split_once("# The eleventh.") {
        Some((front, _)) => front,
        None => "",
    };
    let mut mappings = Vec::from_slice(alloc, front.as_bytes())?;
    mappings.push(b']')?;
    Ok(mappings)
}

#[test]
fn ten_in_a_row(rt: HostRuntime) -> Result<(), Fail> {
    let mappings = without_the_eleventh(rt.alloc())?;
    let plan = plan_of(rt.alloc(), &mappings)?;
    assert_resolved(&rt, &plan, &[("c0@chain.test", "c10@chain.test")])
}

/// Recipients, and what they become.
const REWRITTEN: [(&str, &str); 6] = [
    ("zed@example.org", "zed@example.org"),
    (
        "carl@new.test Ann@example.org BOB@example.org",
        "carl@new.test bob@example.org ann@example.org",
    ),
    (
        "BOB@example.org carl@old.test ann@example.org",
        "BOB@example.org carl@new.test ann@example.org",
    ),
    ("zed@example.org c0@chain.test gone@example.org", "!TooDeep"),
    (
        "zed@example.org gone@example.org c0@chain.test",
        "!5.1.6 moved away",
    ),
    (
        "dan@example.org eve@example.org",
        "DAN@example.org eve@example.org",
    ),
];

#[test]
fn recipients(rt: HostRuntime) -> Result<(), Fail> {
    let plan = plan_of(rt.alloc(), MAPPINGS.as_bytes())?;
    assert_rewritten(&rt, &plan, &REWRITTEN)
}
