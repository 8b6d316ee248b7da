//! What the tests share: a plan with mappings, and what it makes of addresses, as a text.
use mj_address::{Address, Recipients};
use mj_config::read_plan;
use mj_plan::Plan;
use mj_rewrite::{RewriteFault, resolve, rewrite};
use std::alloc::Global;
use std::process::Abort;
use std::test::Fail;

/// What stands behind the mappings.
const BACK: &str =
    "\n[spool]\nhost_name = \"mx.example.org\"\npostmaster = \"postmaster@example.org\"\nlocal_hosts = [\"example.org\"]\nlocal_users = []\nstart = \"2024-01-01T00:00:00Z\"\n[[processor]]\nname = \"root\"\n[[processor.step]]\nmatch = \"All\"\nclass = \"Null\"\n[[processor]]\nname = \"error\"\n";

/// The plan with these mappings, as a configuration spells them.
pub(crate) fn plan_of(alloc: Global, mappings: &[u8]) -> Result<Plan, Fail> {
    let mut text = Vec::from_slice(alloc, mappings)?;
    text.extend_from_slice(BACK.as_bytes())?;
    read(alloc, &text)
}

fn read(alloc: Global, text: &[u8]) -> Result<Plan, Fail> {
    match read_plan(alloc, text) {
        Ok(plan) => Ok(plan),
        Err(fault) => Err(Fail::from(fault)),
    }
}

/// The addresses with a space between each two.
fn listed(alloc: Global, addresses: &[Address]) -> Result<Vec<u8>, Fail> {
    let mut text = Vec::new(alloc);
    for address in addresses {
        if !text.is_empty() {
            text.push(b' ')?;
        }
        address.write_to(&mut text)?;
    }
    Ok(text)
}

/// What went wrong, behind an exclamation mark.
fn fault_text(alloc: Global, fault: &RewriteFault) -> Result<Vec<u8>, Fail> {
    let (word, text): (&[u8], &[u8]) = match fault {
        RewriteFault::ErrorMapping { text } => (b"!", text.as_slice()),
        RewriteFault::TooDeep => (b"!", b"TooDeep"),
        RewriteFault::TooMany => (b"!", b"TooMany"),
        RewriteFault::Memory => (b"!", b"Memory"),
    };
    let mut said = Vec::from_slice(alloc, word)?;
    said.extend_from_slice(text)?;
    Ok(said)
}

/// What the address becomes.
fn resolved(alloc: Global, plan: &Plan, address: &str) -> Result<Vec<u8>, Fail> {
    let address = Address::read(alloc, address.as_bytes())?;
    match resolve(alloc, plan, &address) {
        Ok(all) => listed(alloc, all.as_slice()),
        Err(fault) => fault_text(alloc, &fault),
    }
}

/// What the recipients become, a space between each two.
pub(crate) fn rewritten(alloc: Global, plan: &Plan, recipients: &str) -> Result<Vec<u8>, Fail> {
    let mut addresses = Vec::new(alloc);
    for address in recipients.split(' ') {
        addresses.push(Address::read(alloc, address.as_bytes())?)?;
    }
    let recipients = Recipients::from_addresses(alloc, addresses)?;
    match rewrite(alloc, plan, &recipients) {
        Ok(all) => listed(alloc, all.as_slice()),
        Err(fault) => fault_text(alloc, &fault),
    }
}

/// Fails where this isn't what is wanted of the case.
fn assert_said(rt: &impl Abort, said: &[u8], want: &str, case: &str) {
    assert!(rt; said == want.as_bytes(), "at {case:?}");
}

/// Fails where one of these addresses doesn't become what stands beside it.
pub(crate) fn assert_resolved(
    rt: &(impl Abort + AllocGlobal),
    plan: &Plan,
    rows: &[(&str, &str)],
) -> Result<(), Fail> {
    for (address, want) in rows {
        let said = resolved(rt.alloc(), plan, address)?;
        assert_said(rt, &said, want, address);
    }
    Ok(())
}

/// Fails where these recipients, a space between each two, don't become what stands beside them.
pub(crate) fn assert_rewritten(
    rt: &(impl Abort + AllocGlobal),
    plan: &Plan,
    rows: &[(&str, &str)],
) -> Result<(), Fail> {
    for (recipients, want) in rows {
        let said = rewritten(rt.alloc(), plan, recipients)?;
        assert_said(rt, &said, want, recipients);
    }
    Ok(())
}
