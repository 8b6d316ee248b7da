//! Configurations at their limits, and one past them.
use crate::texts::{ERROR, NULL, ROOT, SPOOL, STEP, add, assert_so, fault_at, fault_in};
use mj_config::{PlanFault, PlanKind};
use std::alloc::Global;
use std::test::Fail;

/// What stands in front, what there are copies of, and what stands behind them.
type Copied = (
    &'static [&'static str],
    &'static str,
    &'static [&'static str],
);

const CHILDREN: Copied = (
    &[SPOOL, ROOT, STEP, "match = {Or = ["],
    "\"Fail\", ",
    &["]}", NULL, ERROR],
);

const TARGETS: Copied = (
    &[SPOOL, "[[rewrite]]\nfrom = \"a@b.test\"\nto = ["],
    "\"c@d.test\",",
    &["]\n", ROOT, ERROR],
);

const STEPS: Copied = (
    &[SPOOL, ERROR, ROOT],
    "[[processor.step]]\nmatch = \"All\"\nclass = \"Null\"\n",
    &[],
);

const ROWS: Copied = (
    &[SPOOL],
    "[[rewrite]]\ndomain = \"a.test\"\nto_domain = \"b.test\"\n",
    &[ROOT, ERROR],
);

const LINES: Copied = (&[SPOOL], "\n", &[]);

/// Adds so many copies of a text.
fn add_copies(text: &mut Vec<u8>, item: &str, count: u32) -> Result<(), Fail> {
    for _ in 0..count {
        text.extend_from_slice(item.as_bytes())?;
    }
    Ok(())
}

/// The configuration with so many copies.
fn text_of(alloc: Global, (front, item, back): Copied, count: u32) -> Result<Vec<u8>, Fail> {
    let mut text = Vec::new(alloc);
    add(&mut text, front)?;
    add_copies(&mut text, item, count)?;
    add(&mut text, back)?;
    Ok(text)
}

/// A configuration with a matcher of this depth below the first, each with an end.
fn deep_text(alloc: Global, depth: u32) -> Result<Vec<u8>, Fail> {
    let mut text = Vec::new(alloc);
    add(&mut text, &[SPOOL, ROOT, STEP, "match = "])?;
    add_copies(&mut text, "{Not = [", depth)?;
    add(&mut text, &["\"All\""])?;
    add_copies(&mut text, "]}", depth)?;
    add(&mut text, &[NULL, ERROR])?;
    Ok(text)
}

/// The fault of the configuration with so many copies.
fn fault_of(alloc: Global, copied: Copied, count: u32) -> Result<Option<PlanFault>, Fail> {
    Ok(fault_in(alloc, &text_of(alloc, copied, count)?))
}

/// The fault of the configuration with a matcher of this depth.
fn fault_of_depth(alloc: Global, depth: u32) -> Result<Option<PlanFault>, Fail> {
    Ok(fault_in(alloc, &deep_text(alloc, depth)?))
}

/// Copies, how many, and the kind, the processor and the step of the fault; nothing where they are taken.
const LIMITS: [(Copied, u32, Option<(PlanKind, u32, u32)>); 10] = [
    (CHILDREN, 100, None),
    (CHILDREN, 101, Some((PlanKind::TooMany, 1, 1))),
    (TARGETS, 100, None),
    (TARGETS, 101, Some((PlanKind::TooMany, 0, 0))),
    (STEPS, 200, None),
    (STEPS, 201, Some((PlanKind::TooMany, 2, 0))),
    (ROWS, 1_000, None),
    (ROWS, 1_001, Some((PlanKind::TooMany, 0, 0))),
    (LINES, 1_048_000, Some((PlanKind::NoRoot, 0, 0))),
    (LINES, 1_048_576, Some((PlanKind::TooLarge, 0, 0))),
];

#[test]
fn limits(rt: HostRuntime) -> Result<(), Fail> {
    for (copied, count, at) in &LIMITS {
        let found = fault_of(rt.alloc(), *copied, *count)?;
        assert_so(&rt, found == fault_at(*at), copied.1);
    }
    Ok(())
}

#[test]
fn depths_of_matchers(rt: HostRuntime) -> Result<(), Fail> {
    assert_so(
        &rt,
        fault_of_depth(rt.alloc(), 16)?.is_none(),
        "the deepest",
    );
    let too_deep = fault_at(Some((PlanKind::TooDeep, 1, 1)));
    assert_so(&rt, fault_of_depth(rt.alloc(), 17)? == too_deep, "one more");
    Ok(())
}
