//! Configurations that the tests share, and what is read of them.
use mj_config::{PlanFault, PlanKind, read_plan};
use std::alloc::Global;
use std::process::Abort;
use std::test::Fail;

/// A table `[spool]`.
pub(crate) const SPOOL: &str =
    "[spool]\nhost_name = \"mx.example.org\"\npostmaster = \"postmaster@example.org\"\nlocal_hosts = [\"example.org\"]\nlocal_users = [\"ann\", \"bob\"]\nstart = \"2024-01-01T00:00:00Z\"\n";

/// The front of the processor `root`, of `error`, and of a step.
pub(crate) const ROOT: &str = "[[processor]]\nname = \"root\"\n";

pub(crate) const ERROR: &str = "[[processor]]\nname = \"error\"\n";

pub(crate) const STEP: &str = "[[processor.step]]\n";

/// A class and a matcher that are always taken.
pub(crate) const NULL: &str = "\nclass = \"Null\"\n";

pub(crate) const ALL: &str = "match = \"All\"\n";

/// What stands in front of a case, and what stands behind it.
pub(crate) type Place = (&'static [&'static str], &'static [&'static str]);

/// Adds these parts to a configuration.
pub(crate) fn add(text: &mut Vec<u8>, parts: &[&str]) -> Result<(), Fail> {
    for part in parts {
        text.extend_from_slice(part.as_bytes())?;
    }
    Ok(())
}

/// The bytes of a configuration of these parts.
pub(crate) fn joined(alloc: Global, parts: &[&str]) -> Result<Vec<u8>, Fail> {
    let mut text = Vec::new(alloc);
    add(&mut text, parts)?;
    Ok(text)
}

/// The fault of a configuration; `None` where it is taken.
pub(crate) fn fault_in(alloc: Global, text: &[u8]) -> Option<PlanFault> {
    read_plan(alloc, text).err()
}

/// The fault of this kind in this step of this processor, where there is one.
pub(crate) fn fault_at(at: Option<(PlanKind, u32, u32)>) -> Option<PlanFault> {
    let (kind, processor, step) = at?;
    Some(PlanFault::Refused {
        kind,
        processor,
        step,
    })
}

/// Fails where it isn't so. The case is what is looked at.
pub(crate) fn assert_so(rt: &impl Abort, is_so: bool, case: &str) {
    assert!(rt; is_so, "at {case:?}");
}
