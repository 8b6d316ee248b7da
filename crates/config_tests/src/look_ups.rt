//! Look-ups in a plan.
use crate::texts::{ALL, ERROR, ROOT, SPOOL, STEP, assert_so, joined};
use mj_address::Address;
use mj_config::read_plan;
use mj_plan::{Mapping, Mappings, Plan};
use std::alloc::Global;
use std::process::Abort;
use std::test::Fail;

/// A step's remote deliveries, with one retry and with three. The second one names a processor for what
/// it couldn't deliver.
const OUT: &str = "class = \"RemoteDelivery\"\noutgoing = \"out\"\nmaxRetries = 1\n";

const LATE: &str =
    "class = \"RemoteDelivery\"\noutgoing = \"late\"\nmaxRetries = 3\nbounceProcessor = \"root\"\n";

/// A plan whose processors `root` and `error` deliver by `out` and by `late`.
fn delivering_plan(alloc: Global) -> Result<Plan, Fail> {
    let text = joined(
        alloc,
        &[SPOOL, ROOT, STEP, ALL, OUT, ERROR, STEP, ALL, LATE],
    )?;
    Ok(read_plan(alloc, &text).ok().ok_or("no plan")?)
}

/// Whether a processor of this name is found.
fn finds(plan: &Plan, name: &[u8]) -> bool {
    match plan.processor(name) {
        Some(processor) => processor.name.as_slice() == name,
        None => false,
    }
}

/// The number of retries of the remote delivery of this name.
fn retries(plan: &Plan, name: &[u8]) -> Option<usize> {
    plan.schedule(name).map(|schedule| schedule.len())
}

/// The retries of a remote delivery, and the processor to which it sends what it couldn't deliver.
type Delivering = (usize, Option<&'static str>);

/// Whether the remote delivery of this name is that one.
fn delivers(plan: &Plan, name: &[u8], want: Option<Delivering>) -> bool {
    match (plan.delivery(name), want) {
        (Some(delivery), Some((retries, bounce_processor))) => {
            let found = delivery.bounce_processor.map(|name| name.as_slice());
            delivery.schedule.len() == retries && found == bounce_processor.map(str::as_bytes)
        }
        (None, None) => true,
        _ => false,
    }
}

/// Names, whether each is a processor's, and the remote delivery of that name.
const NAMES: [(&str, bool, Option<Delivering>); 5] = [
    ("error", true, None),
    ("Error", false, None),
    ("out", false, Some((1, None))),
    ("late", false, Some((3, Some("root")))),
    ("lat", false, None),
];

fn check_names(rt: &impl Abort, plan: &Plan) {
    for (name, is_processor, delivery) in NAMES {
        let key = name.as_bytes();
        assert_so(rt, finds(plan, key) == is_processor, name);
        assert_so(rt, delivers(plan, key, delivery), name);
        assert_so(rt, retries(plan, key) == delivery.map(|(n, _)| n), name);
    }
}

#[test]
fn look_ups(rt: HostRuntime) -> Result<(), Fail> {
    check_names(&rt, &delivering_plan(rt.alloc())?);
    Ok(())
}

/// Rows of the rewrite table, each told by its text, by its domain or by its target's local part.
const REWRITES: &str =
    "[[rewrite]]\nfrom = \"ann@example.org\"\nerror = \"before\"\n[[rewrite]]\ndomain = \"Example.org\"\nto_domain = \"host.test\"\n[[rewrite]]\nfrom = \"Ann@example.org\"\nerror = \"again\"\n[[rewrite]]\nfrom = \"bob@example.org\"\nto = [\"behind@b.test\"]\n[[rewrite]]\ndomain = \"example.org\"\nto_domain = \"again.test\"\n[[rewrite]]\nfrom = \"cid@Other.test\"\nto = [\"alone@b.test\", \"dee@b.test\"]\n[[rewrite]]\ndomain = \"last.test\"\nto_domain = \"end.test\"\n";

/// What tells a row.
fn told(mapping: &Mapping) -> &[u8] {
    match mapping {
        Mapping::Addresses { to, .. } => to.get(0).map_or(b"", |first| first.local()),
        Mapping::Error { text, .. } => text.as_slice(),
        Mapping::Host { to, .. } => to.as_slice(),
    }
}

/// Addresses, and the row that is found for each: the first one from it or from its domain.
const MAPPED: [(&str, Option<&str>); 9] = [
    ("ann@example.org", Some("before")),
    ("ANN@EXAMPLE.ORG", Some("before")),
    ("bob@example.org", Some("host.test")),
    ("someone@example.ORG", Some("host.test")),
    ("Cid@other.test", Some("alone")),
    ("dee@other.test", None),
    ("ann@sub.example.org", None),
    ("org@Last.Test", Some("end.test")),
    ("last.test@b.test", None),
];

fn finds_mapping(mappings: &Mappings, address: &Address, want: Option<&str>) -> bool {
    mappings.of(address).map(told) == want.map(str::as_bytes)
}

#[test]
fn mappings(rt: HostRuntime) -> Result<(), Fail> {
    let alloc = rt.alloc();
    let text = joined(alloc, &[SPOOL, REWRITES, ROOT, ERROR])?;
    let plan = read_plan(alloc, &text).ok().ok_or("no plan")?;
    for (spelling, want) in MAPPED {
        let address = Address::read(alloc, spelling.as_bytes())
            .ok()
            .ok_or("no address")?;
        assert_so(&rt, finds_mapping(&plan.mappings, &address, want), spelling);
    }
    Ok(())
}
